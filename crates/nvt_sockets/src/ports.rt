//! Ports over sockets.
ghost use Rattle.std.specs.Prelude.{◌≡◌, ◌≤◌, ◌<◌, IfOk, IfSome, length, replicate, false};
ghost use Rattle.nvt_sockets.specs.HandsOut.{HandsOut, Tries};
ghost use Rattle.nvt_ports.specs.Lately.{plan};

use crate::control::control_address;
use crate::hosts::Calls;
use crate::journal::{Journal, Log, ending_of};
use crate::network::{Channel, Network};
use crate::sockets::{Sockets, Tried};
use crate::speech::Speech;
use arrayvec::ArrayString;
use connection_log::Ending;
use nvt_config::Config;
use nvt_ports::{
    EditPace, GivenUp, LookOutcome, Looks, PIECE_MAX, Pause, PortEvent, PortFault, Ports, SLOTS,
    Speaker, TurnOrder,
};
use std::alloc::Global;
use std::fmt::Write;
use std::io;

// Each call of this number is a tick.
const CALLS_PER_TICK: u64 = 256;

// For how long what is kept is sent at the end.
const END_MICROS: u64 = 2_000_000;

const END_PAUSE_MICROS: u64 = 500;

const END_SCRATCH: usize = 4_096;

/// How many hosts were given up.
#[derive(Clone, Copy, PartialEq, Eq)]
pub struct GivenUpHosts {
    /// Those that did not connect to a controller in time.
    pub without_connect: u64,
    /// Those that took nothing for too long.
    pub took_nothing: u64,
    /// Those that were gone without a word.
    pub gone: u64,
}

impl GivenUpHosts {
    // One more.
    fn add(&mut self, why: GivenUp) {
        let count = match why {
            GivenUp::WithoutConnect => &mut self.without_connect,
            GivenUp::TookNothing => &mut self.took_nothing,
        };
        *count = count.saturating_add(1);
    }
}

/// Ports over the sockets of a network. They do not tell what they hand out and take.
///
/// Bytes that are given are kept, and sent when a turn gave the same host nothing more, or when much is kept; while
/// replies are being joined so, the other sockets are looked at now and then alone. Where nothing came or went for some
/// milliseconds, a call sleeps, up to a millisecond. Hosts that do not connect, or take nothing, are given up.
///
/// They keep a copy of the configuration that stands. A line that is `show` is handed out to nobody: whoever sent it gets
/// the lines of edits that make an equal configuration, and `ok`, in pieces; what that costs counts as an edit does. They
/// allocate when they are opened, and then for these copies alone: one at each edit, one for each `show` until its last
/// line is written, and the names in a line while it is written. Where one is refused, all else goes on.
#[derive(Drop)]
pub struct SocketPorts<N: Network> {
    network: N,
    sockets: Sockets<N::Listener, N::Stream>,
    order: TurnOrder,
    looks: Looks,
    pace: EditPace,
    pause: Pause,
    journal: Journal,
    given_up: GivenUpHosts,
    // A bit for each slot whose host is given up, and was not handed out yet.
    overdue: u64,
    calls: u64,
    faults: u64,
}

impl<N: Network + Drop> SocketPorts<N> {
    /// Opens the control port, at 127.0.0.1, and then the ports of this configuration, of which those that cannot be
    /// listened to are named on standard output. Who connects and what is edited is told on standard error, or is not. Fails
    /// where the control port cannot be listened to, where what is to be printed cannot be, and where memory runs out.
    pub fn open(
        mut network: N,
        alloc: Global,
        control: u16,
        config: &Config,
        log: Log,
    ) -> io::Result<SocketPorts<N>>
        ensures { IfOk result (λ ports. ports.sockets.in_use ≡ replicate 64 false) }
    {
        let mut sockets = Sockets::open(&mut network, alloc, control)?;
        let order = TurnOrder::new(alloc)?;
        let mut journal = Journal::new(alloc, log)?;
        announce(journal.speech(), control);
        sockets.refresh(&mut network, journal.speech(), config);
        journal.go_on(&mut network)?;
        Ok(SocketPorts {
            network,
            sockets,
            order,
            looks: Looks::new(),
            pace: EditPace::Free,
            pause: Pause::new(),
            journal,
            given_up: GivenUpHosts {
                without_connect: 0,
                took_nothing: 0,
                gone: 0,
            },
            overdue: 0,
            calls: 0,
            faults: 0,
        })
    }

    /// The network that they stand on.
    pub fn network(&self) -> &N {
        &self.network
    }

    /// Sends what is kept, for two seconds at most, and prints what waits to be printed. Answers how many hosts were given
    /// up. Fails where something was to be printed that could not be.
    pub fn finish(&mut self) -> io::Result<GivenUpHosts> {
        let now = self.network.micros();
        let until = now.saturating_add(END_MICROS);
        self.sockets.close_kept(now);
        self.finish_asides(until);
        self.finish_speech(until)?;
        if self.journal.speech().is_whole() {
            Ok(GivenUpHosts {
                gone: self.sockets.gone,
                ..self.given_up
            })
        } else {
            Err(io::Error::from(io::ErrorKind::WriteZero))
        }
    }

    // Goes on with the hosts that were put aside until this time, or none is left.
    fn finish_asides(&mut self, until: u64) {
        let mut scratch = [0; END_SCRATCH];
        for _ in 0..END_MICROS / END_PAUSE_MICROS {
            for _ in 0..SLOTS {
                self.sockets.go_on(&mut self.network, &mut scratch);
            }
            if !self.sockets.has_asides() || self.network.micros() >= until {
                return;
            }
            self.network.sleep(END_PAUSE_MICROS);
        }
    }

    // Prints what waits until this time, or nothing does.
    fn finish_speech(&mut self, until: u64) -> io::Result<()> {
        for _ in 0..END_MICROS / END_PAUSE_MICROS {
            self.journal.go_on(&mut self.network)?;
            if self.journal.speech().is_silent() || self.network.micros() >= until {
                return Ok(());
            }
            self.network.sleep(END_PAUSE_MICROS);
        }
        Ok(())
    }

    // Which hosts are given up is looked at. Answers the time, in ms.
    fn tick(&mut self, room: &[usize; SLOTS]) -> u64
        ensures in_use { self.new.sockets.in_use ≡ self.old.sockets.in_use }
        ensures faults { self.new.faults ≡ self.old.faults }
    {
        let ms = self.network.micros() / 1_000;
        for slot in 0..SLOTS {
            if let Some(why) = self.sockets.tick(slot, ms, room[slot]) {
                self.give_up(slot, why);
            }
        }
        let _ = self.journal.go_on(&mut self.network);
        ms
    }

    fn give_up(&mut self, slot: usize, why: GivenUp)
        requires { slot < 64 }
        ensures in_use { self.new.sockets.in_use ≡ self.old.sockets.in_use }
        ensures faults { self.new.faults ≡ self.old.faults }
    {
        if self.overdue & (1 << slot) != 0 {
            return;
        }
        self.overdue |= 1 << slot;
        self.given_up.add(why);
        self.journal.ends(slot, ending_of(why));
    }

    // The least slot whose host is given up.
    fn next_overdue(&self) -> Option<usize>
        ensures { IfSome result (λ slot. slot < 64) }
    {
        let slot = self.overdue.trailing_zeros() as usize;
        if slot < SLOTS { Some(slot) } else { None }
    }

    // Tries sockets in their order, until one has something.
    fn look(&mut self, room: &[usize; SLOTS], buf: &mut [u8], calls: Calls) -> Option<PortEvent>
        requires { 1025 ≤ length buf.old }
        ensures event { HandsOut self.old.sockets.in_use room.now (length buf.old) result self.new.sockets.in_use }
        ensures faults { self.new.faults ≡ self.old.faults }
    {
        for place in 0..self.order.len() {
            let speaker = self.order.at(place)?;
            match self.try_speaker(speaker, room, buf) {
                Tried::Nothing => {}
                Tried::Heard | Tried::Shown { .. } => {
                    self.found(place + 1, calls);
                    return None;
                }
                Tried::Event(event) => {
                    self.found(place + 1, calls);
                    return Some(event);
                }
            }
        }
        self.found_nothing(calls);
        None
    }

    fn try_speaker(&mut self, speaker: Speaker, room: &[usize; SLOTS], buf: &mut [u8]) -> Tried
        requires { 1025 ≤ length buf.old }
        ensures event { Tries self.old.sockets.in_use room.now (length buf.old) result self.new.sockets.in_use }
        ensures faults { self.new.faults ≡ self.old.faults }
        ensures order { self.new.order ≡ self.old.order }
    {
        let Speaker::Editor(_) = speaker else {
            return self
                .sockets
                .try_speaker(&mut self.network, &mut self.journal, speaker, room, buf);
        };
        if !self.may_take_line() {
            return Tried::Nothing;
        }
        let tried = self
            .sockets
            .try_speaker(&mut self.network, &mut self.journal, speaker, room, buf);
        match tried {
            Tried::Nothing | Tried::Heard => {}
            Tried::Shown { since } => self.pace.handed_out(since),
            Tried::Event(_) => {
                let now = self.network.micros();
                self.pace.handed_out(now);
            }
        }
        tried
    }

    // Whether a line of edits may be taken now, beside the hosts.
    fn may_take_line(&mut self) -> bool
        ensures in_use { self.new.sockets.in_use ≡ self.old.sockets.in_use }
        ensures faults { self.new.faults ≡ self.old.faults }
        ensures order { self.new.order ≡ self.old.order }
    {
        if !self.pace.is_timed() {
            return true;
        }
        let now = self.network.micros();
        self.pace.may_take(now, self.order.has_host_lately())
    }

    // The last of so many that were tried had something.
    fn found(&mut self, tried: usize, calls: Calls)
        requires some { 0 < tried }
        requires within { tried ≤ length (plan self.old.order) }
        ensures in_use { self.new.sockets.in_use ≡ self.old.sockets.in_use }
        ensures faults { self.new.faults ≡ self.old.faults }
    {
        self.order.looked(tried, LookOutcome::Found);
        self.pause = Pause::new();
        if calls.joins {
            self.looks.looked(true);
        }
    }

    // None had: sleeps, where that was so for long, and tries all sockets then.
    fn found_nothing(&mut self, calls: Calls)
        ensures in_use { self.new.sockets.in_use ≡ self.old.sockets.in_use }
        ensures faults { self.new.faults ≡ self.old.faults }
    {
        let tried = self.order.len();
        if calls.joins {
            self.looks.looked(false);
        }
        if calls.joins || calls.is_moving {
            self.order.looked(tried, LookOutcome::Vain);
            return;
        }
        match self.next_pause() {
            Some(micros) => {
                self.network.sleep(micros);
                self.order.looked(tried, LookOutcome::Rests);
            }
            None => self.order.looked(tried, LookOutcome::Vain),
        }
    }

    fn next_pause(&mut self) -> Option<u64>
        ensures in_use { self.new.sockets.in_use ≡ self.old.sockets.in_use }
        ensures faults { self.new.faults ≡ self.old.faults }
        ensures order { self.new.order ≡ self.old.order }
    {
        let now = if self.pause.is_timed() {
            self.network.micros()
        } else {
            0
        };
        self.pause.after_vain(now)
    }

    // What the last line of edits asked for is done, or what was shown is.
    fn end_line(&mut self)
        ensures in_use { self.new.sockets.in_use ≡ self.old.sockets.in_use }
        ensures faults { self.new.faults ≡ self.old.faults }
    {
        if let EditPace::Busy { .. } = self.pace {
            let now = self.network.micros();
            self.pace.over(now);
        }
    }
}

impl<N: Network + Drop> Ports for SocketPorts<N> {
    ghost use Rattle.std.specs.Prelude.{◌≡◌, ◌<◌, ◌≤◌, IfOk, None, length, slice_set, false};
    ghost use Rattle.std.specs.Option.{option_map};
    ghost use Rattle.block_store.specs.Faults.{Counts};
    ghost use Rattle.nvt_ports.specs.Event.{Fits, in_use_after};
    ghost use Rattle.nvt_ports.specs.Told.{TellsGiven, handed_out_by, heard};

    ghost state = { λ ports. record {
      told = None;
      in_use = ports.sockets.in_use;
      faults = ports.faults;
    } };

    fn next(&mut self, room: &[usize; 64], buf: &mut [u8]) -> PortEvent {
        self.calls = self.calls.wrapping_add(1);
        self.end_line();
        let calls = self.sockets.call(&mut self.network, room);
        if self.calls % CALLS_PER_TICK == 0 {
            let ms = self.tick(room);
            return PortEvent::Tick { ms };
        }
        if let Some(slot) = self.next_overdue() {
            self.overdue &= !(1 << slot);
            return PortEvent::End { slot };
        }
        if self.looks.passes(calls.joins, calls.taken) {
            return PortEvent::Nothing;
        }
        let is_moving = self.sockets.go_on(&mut self.network, buf) || calls.is_moving;
        let calls = Calls { is_moving, ..calls };
        match self.look(room, buf, calls) {
            Some(event) => event,
            None => PortEvent::Nothing,
        }
    }

    fn give(&mut self, slot: usize, bytes: &[u8]) -> Result<usize, PortFault> {
        match self.sockets.give(&mut self.network, slot, bytes) {
            Ok(n) => {
                if n > 0 {
                    self.pause = Pause::new();
                    self.journal.given(&mut self.network, slot, &bytes[..n]);
                }
                Ok(n)
            }
            Err(PortFault) => {
                self.faults = self.faults.wrapping_add(1);
                self.journal.ends(slot, Ending::Reset);
                Err(PortFault)
            }
        }
    }

    fn close(&mut self, slot: usize) {
        let now = self.network.micros();
        self.overdue &= !(1 << slot);
        self.sockets.close(slot, now);
        self.journal.closed(&mut self.network, slot);
    }

    fn reply(&mut self, text: &[u8]) {
        self.sockets.reply(&mut self.network, text);
        self.journal.replied(&mut self.network, text);
    }

    fn refresh(&mut self, config: &Config) {
        self.sockets
            .refresh(&mut self.network, self.journal.speech(), config);
        let _ = self.journal.go_on(&mut self.network);
    }
}

fn announce(speech: &mut Speech, control: u16) {
    let address = control_address(control);
    let mut line = ArrayString::<64>::new();
    if writeln!(line, "listening on {address}, control").is_ok() {
        speech.say(Channel::Error, line.as_bytes());
    }
}
