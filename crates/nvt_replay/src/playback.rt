//! A script of connections, run over a target that a file of edits configured.

ghost use Rattle.std.specs.Prelude.{◌≡◌, ◌*◌, ◌==◌, ℕ, IfErr, IfOk, OnErr, OnOk, All, false, true};
ghost use Rattle.std.specs.Prelude.{length};
ghost use Rattle.std.specs.Bool.{OnFalse};
ghost use Rattle.std.specs.Io.KnownBytes.{Appends};
ghost use Rattle.std.specs.List.{AllPass};
ghost use Rattle.hex.specs.Hex.{decode_of, is_hex_digit};
ghost use Rattle.nvt_config.specs.Configuration.{are_disks, disks_alone};
ghost use Rattle.edit_lines.specs.Configured.{AcceptsAll, Configures, IsConfigured, RefusesEdits};
ghost use Rattle.config_text.specs.Lines.{lines_of};
ghost use Rattle.tables.specs.NumberTable.{place};
ghost use Rattle.nvt_replay.specs.CutOff.{EditsInPart, EndsInPart, HandsOutInPart, OpensInPart};
ghost use Rattle.nvt_replay.specs.CutOff.{PlaysInPart, ReceivesInPart, DrainsInPart, TicksInPart};
ghost use Rattle.nvt_replay.specs.Replay.{EndsAtLine, EndsScript, Explains, IsBeforeScript, LeavesLine};
ghost use Rattle.nvt_replay.specs.Replay.{PlaysBefore, Replays, ReplaysBefore};
ghost use Rattle.nvt_replay.specs.Played.{ArePrinted, HandsOut, Plays, PlaysAll, PlaysLine};
ghost use Rattle.nvt_replay.specs.Played.{PlaysEdit, PlaysEnd, PlaysOpen, PlaysReceive, Prints};
ghost use Rattle.nvt_replay.specs.Played.{PlaysTick, Drains};
ghost use Rattle.nvt_replay.specs.Played.{connection_lines, refused_line};
ghost use Rattle.edit_lines.specs.Fault.{EndsRun};
ghost use Rattle.edit_lines.specs.StreamLine.{HasHex, IsHex, IsStreamLine};
ghost use Rattle.edit_lines.specs.Writing.{AppendsFront};

use crate::connections::{CONNECTIONS, Connections};
use config_text::Lines;
use edit_lines::{NotMade, Printer, ReplayFault, StreamLine, configure, read_stream_line};
use std::alloc::{AllocError, Global};
use std::io::Write;
use target_core::OpenFault;

/// Applies the edits to a target with disks of these sizes, in units of 512 bytes, and runs the
/// script over it. Prints what the target sends and which connections it opens and ends.
pub fn replay<W: Write>(
    alloc: Global,
    edits: &[u8],
    stream: &[u8],
    units: &[u64],
    out: &mut W,
) -> Result<(), ReplayFault>
    ensures ok { OnOk result
        (AcceptsAll edits.now units.now × All IsStreamLine (lines_of stream.now)) }
    ensures disks { OnFalse (are_disks units.now) (result ≡ Err ReplayFault.Disks) }
    ensures fault { IfErr result (λ fault. Explains fault edits.now stream.now units.now) }
    ensures played { OnOk result (Prints (W.contents out.old) (W.contents out.new)
        (Replays edits.now stream.now units.now)) }
    ensures before { IfErr result (λ fault. ReplaysBefore fault edits.now stream.now units.now
        (W.contents out.old) (W.contents out.new)) }
    ensures unwritten { IfErr result (λ fault. IsBeforeScript fault →
        W.contents out.new ≡ W.contents out.old) }
{
    match begin(alloc, edits, units) {
        Ok(mut playback) => playback.run(stream, out),
        Err(fault) => Err(fault),
    }
}

// A playback over a target of these disks after the edits.
fn begin(alloc: Global, edits: &[u8], units: &[u64]) -> Result<Playback, ReplayFault>
    ensures disks { OnOk result (are_disks units.now ≡ true) }
    ensures refused { OnFalse (are_disks units.now) (result ≡ Err ReplayFault.Disks) }
    ensures ok { IfOk result (λ playback.
        Configures (lines_of edits.now) (disks_alone units.now) playback.connections.config) }
    ensures configured { IfOk result (λ playback.
        IsConfigured edits.now units.now playback.connections) }
    ensures unfailed { IfOk result (λ playback. playback.printer.writes.has_failed ≡ false) }
    ensures fault { IfErr result (λ fault. RefusesEdits fault edits.now units.now) }
{
    match configure(alloc, edits, units) {
        Ok(target) => Ok(Playback {
            connections: Connections::over(target),
            bytes: Vec::new(alloc),
            printer: Printer::new(alloc),
        }),
        Err(fault) => Err(fault),
    }
}

/// A target that lines of edits configured, while the lines of a script run over it.
#[derive(Drop)]
pub struct Playback {
    connections: Connections,
    // The bytes that a line of the script hands out.
    bytes: Vec<u8>,
    printer: Printer,
}

impl Playback {
    /// Applies the edits to a target with disks of these sizes, in units of 512 bytes. No connection
    /// is open.
    pub fn new(alloc: Global, edits: &[u8], units: &[u64]) -> Result<Playback, ReplayFault>
        ensures ok { IfOk result (λ playback.
            IsConfigured edits.now units.now playback.connections) }
        ensures unfailed { IfOk result (λ playback. playback.printer.writes.has_failed ≡ false) }
        ensures fault { IfErr result (λ fault. RefusesEdits fault edits.now units.now) }
    {
        begin(alloc, edits, units)
    }

    /// Runs a line of the script, the `number`th from 1 on, and prints what the target then sends
    /// and which connections it opens and ends. A line that has none of the forms prints nothing and
    /// changes no connection; of one that lacks memory, or whose output fails, a beginning is printed.
    pub fn line<W: Write>(
        &mut self,
        number: usize,
        line: &[u8],
        out: &mut W,
    ) -> Result<(), ReplayFault>
        ensures played { OnOk result (PlaysLine line.now self.old.connections self.new.connections
            (W.contents out.old) (W.contents out.new)) }
        ensures fault { IfErr result (λ fault.
            EndsAtLine self.new.printer.writes.has_failed fault line.now number) }
        ensures left { IfErr result (λ fault. LeavesLine fault line.now self.old.connections
            self.new.connections (W.contents out.old) (W.contents out.new)) }
    {
        match read_stream_line(line) {
            Some(line) => self.play(line, out),
            None => Err(ReplayFault::StreamLine { line: number }),
        }
    }

    // Runs the script, up to the first line that has none of its forms.
    fn run<W: Write>(&mut self, stream: &[u8], out: &mut W) -> Result<(), ReplayFault>
        ensures ok { OnOk result (All IsStreamLine (lines_of stream.now)) }
        ensures played { OnOk result (Prints (W.contents out.old) (W.contents out.new) (λ text.
            PlaysAll (lines_of stream.now) self.old.connections text self.new.connections)) }
        ensures before { IfErr result (λ fault. PlaysBefore fault (lines_of stream.now)
            self.old.connections (W.contents out.old) (W.contents out.new)) }
        ensures fault { IfErr result (λ fault.
            EndsScript self.new.printer.writes.has_failed fault (lines_of stream.now)) }
    {
        let mut number = 0;
        for line in Lines::of(stream) {
            number += 1;
            match read_stream_line(line) {
                Some(line) => self.play(line, out)?,
                None => return Err(ReplayFault::StreamLine { line: number }),
            }
        }
        Ok(())
    }

    fn play<W: Write>(&mut self, line: StreamLine<'_>, out: &mut W) -> Result<(), ReplayFault>
        requires { HasHex line }
        ensures fault { IfErr result (EndsRun self.new.printer.writes.has_failed) }
        ensures played { OnOk result (Prints (W.contents out.old) (W.contents out.new)
            (λ text. Plays line.entry self.old.connections text self.new.connections)) }
        ensures begun { OnErr result (Prints (W.contents out.old) (W.contents out.new)
            (λ text. PlaysInPart line.entry self.old.connections text self.new.connections)) }
    {
        match line {
            StreamLine::Open { port } => self.open(port, out),
            StreamLine::Receive { connection, hex } => self.receive(connection, hex, out),
            StreamLine::End { connection } => self.end(connection, out),
            StreamLine::Tick { ms } => self.tick(ms, out),
            StreamLine::Edit { line } => self.edit(line, out),
        }
    }

    // The reply comes first, and then what the edit makes the connections send or close.
    fn edit<W: Write>(&mut self, line: &[u8], out: &mut W) -> Result<(), ReplayFault>
        ensures fault { IfErr result (EndsRun self.new.printer.writes.has_failed) }
        ensures played { OnOk result (Prints (W.contents out.old) (W.contents out.new)
            (λ text. PlaysEdit line.now self.old.connections text self.new.connections)) }
        ensures begun { OnErr result (Prints (W.contents out.old) (W.contents out.new)
            (λ text. EditsInPart line.now self.old.connections text self.new.connections)) }
    {
        match self.connections.edit(*self.bytes.allocator(), line) {
            Ok(()) => {
                self.printer.edit_made(out)?;
                drain(&mut self.connections, &mut self.printer, out)
            }
            Err(NotMade::Unread | NotMade::Memory) => Err(ReplayFault::Memory),
            Err(NotMade::Refused(reply)) => self.printer.refused_edit(out, reply),
        }
    }

    fn open<W: Write>(&mut self, port: u16, out: &mut W) -> Result<(), ReplayFault>
        ensures fault { IfErr result (EndsRun self.new.printer.writes.has_failed) }
        ensures played { OnOk result (Prints (W.contents out.old) (W.contents out.new)
            (λ text. PlaysOpen port self.old.connections text self.new.connections)) }
        ensures begun { OnErr result (Prints (W.contents out.old) (W.contents out.new)
            (λ text. OpensInPart port self.old.connections text self.new.connections)) }
    {
        match self.connections.open(port) {
            Ok(k) => self.printer.event(out, k as u64, "open"),
            Err(OpenFault::Memory) => Err(ReplayFault::Memory),
            Err(fault) => print_refused_open(&mut self.printer, out, fault),
        }
    }

    fn receive<W: Write>(
        &mut self,
        connection: u64,
        hex: &[u8],
        out: &mut W,
    ) -> Result<(), ReplayFault>
        requires { IsHex hex.now }
        ensures fault { IfErr result (EndsRun self.new.printer.writes.has_failed) }
        ensures played { OnOk result (Prints (W.contents out.old) (W.contents out.new) (λ text.
            PlaysReceive connection hex.now self.old.connections text self.new.connections)) }
        ensures begun { OnErr result (Prints (W.contents out.old) (W.contents out.new) (λ text.
            ReceivesInPart connection hex.now self.old.connections text self.new.connections)) }
    {
        let k = connection as usize;
        if !self.connections.is_open(k) {
            return self.printer.event(out, connection, "none");
        }
        decode(hex, &mut self.bytes)?;
        hand_out(
            &mut self.connections,
            k,
            &self.bytes,
            &mut self.printer,
            out,
        )
    }

    // Prints what ends with the connection, and nothing of itself.
    fn end<W: Write>(&mut self, connection: u64, out: &mut W) -> Result<(), ReplayFault>
        ensures fault { IfErr result (EndsRun self.new.printer.writes.has_failed) }
        ensures played { OnOk result (Prints (W.contents out.old) (W.contents out.new)
            (λ text. PlaysEnd connection self.old.connections text self.new.connections)) }
        ensures begun { OnErr result (Prints (W.contents out.old) (W.contents out.new)
            (λ text. EndsInPart connection self.old.connections text self.new.connections)) }
    {
        let k = connection as usize;
        if !self.connections.is_open(k) {
            return self.printer.event(out, connection, "none");
        }
        self.connections.end(k);
        drain(&mut self.connections, &mut self.printer, out)
    }

    fn tick<W: Write>(&mut self, ms: u64, out: &mut W) -> Result<(), ReplayFault>
        ensures fault { IfErr result (EndsRun self.new.printer.writes.has_failed) }
        ensures played { OnOk result (Prints (W.contents out.old) (W.contents out.new)
            (λ text. PlaysTick ms self.old.connections text self.new.connections)) }
        ensures begun { OnErr result (Prints (W.contents out.old) (W.contents out.new)
            (λ text. TicksInPart ms self.old.connections text)) }
    {
        self.connections.tick(ms);
        drain(&mut self.connections, &mut self.printer, out)
    }
}

// Prints `open refused KIND`.
fn print_refused_open<W: Write>(
    printer: &mut Printer,
    out: &mut W,
    fault: OpenFault,
) -> Result<(), ReplayFault>
    ensures fault { IfErr result (EndsRun printer.new.writes.has_failed) }
    ensures printed { OnOk result (Appends (W.contents out.old) (W.contents out.new)
        (refused_line fault)) }
    ensures begun { OnErr result (AppendsFront (W.contents out.old) (W.contents out.new)
        (refused_line fault)) }
{
    printer.text(out, format_args!("open refused {fault}\n"))
}

// Hands the bytes out, as many at a time as the connection has room for, and lets all connections
// step in between. What is left once the connection has ended is dropped.
fn hand_out<W: Write>(
    connections: &mut Connections,
    k: usize,
    bytes: &[u8],
    printer: &mut Printer,
    out: &mut W,
) -> Result<(), ReplayFault>
    ensures fault { IfErr result (EndsRun printer.new.writes.has_failed) }
    ensures played { OnOk result (Prints (W.contents out.old) (W.contents out.new) (λ text.
        (n : ℕ) × HandsOut n k bytes.now connections.old text connections.new)) }
    ensures begun { OnErr result (Prints (W.contents out.old) (W.contents out.new) (λ text.
        (n : ℕ) × HandsOutInPart n k bytes.now connections.old text)) }
{
    let mut rest = bytes;
    loop {
        let len = connections.receive(k, rest);
        if len == 0 {
            return Ok(());
        }
        rest = &rest[len..];
        drain(connections, printer, out)?;
    }
}

// Lets all connections step until they are idle, and prints what they owe and which have ended.
fn drain<W: Write>(
    connections: &mut Connections,
    printer: &mut Printer,
    out: &mut W,
) -> Result<(), ReplayFault>
    ensures fault { IfErr result (EndsRun printer.new.writes.has_failed) }
    ensures drained { OnOk result (Prints (W.contents out.old) (W.contents out.new)
        (λ text. Drains connections.old text connections.new)) }
    ensures begun { OnErr result (Prints (W.contents out.old) (W.contents out.new)
        (λ text. DrainsInPart connections.old text)) }
{
    connections.step()?;
    for k in 0..CONNECTIONS {
        if connections.is_open(k) {
            print(connections, k, printer, out)?;
        }
    }
    Ok(())
}

// Prints the lines of a connection.
fn print<W: Write>(
    connections: &mut Connections,
    k: usize,
    printer: &mut Printer,
    out: &mut W,
) -> Result<(), ReplayFault>
    ensures fault { IfErr result (EndsRun printer.new.writes.has_failed) }
    ensures printed { OnOk result (Appends (W.contents out.old) (W.contents out.new)
        (connection_lines k (place connections.old.connections k))) }
    ensures begun { OnErr result (AppendsFront (W.contents out.old) (W.contents out.new)
        (connection_lines k (place connections.old.connections k))) }
    ensures left { OnOk result (ArePrinted (λ j. j == k) connections.old connections.new) }
{
    printer.pdus(out, k as u64, connections.output(k))?;
    connections.take_output(k);
    if connections.is_ended(k) {
        printer.event(out, k as u64, "closed")?;
        connections.end(k);
    }
    Ok(())
}

// Makes these the bytes that pairs of hex digits say.
fn decode(hex: &[u8], bytes: &mut Vec<u8>) -> Result<(), AllocError>
    requires { IsHex hex.now }
    ensures { OnOk result (decode_of hex.now ≡ Ok bytes.new.items) }
{
    bytes.resize(hex.len() / 2, 0)?;
    decode_hex(hex, bytes.as_mut_slice());
    Ok(())
}

// Writes the bytes that pairs of hex digits say into room for as many.
fn decode_hex(digits: &[u8], bytes: &mut [u8])
    requires digits { AllPass is_hex_digit digits.now }
    requires room { length digits.now ≡ 2 * length bytes.old }
    ensures { decode_of digits.now ≡ Ok bytes.new }
{
    hex::decode_to_slice(digits, bytes).unwrap();
}
