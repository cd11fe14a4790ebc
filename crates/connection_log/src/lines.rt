//! The lines of the log, and how bytes that a peer chose are shown in them.
ghost use Rattle.std.specs.Prelude.{◌≡◌, ◌++◌, Some, flat_map};
ghost use Rattle.std.specs.Fmt.{WritesOnOk};
ghost use Rattle.connection_log.specs.Lines.{answered_words, asked_words, edited_words, ending_words, line_words, shown_byte};

use crate::asked::AskedFor;
use pdu_codec::TermReq;
use pdu_words::{ConnectAnswer, Explanation, ResponseFields};
use std::fmt::{self, Formatter};
use std::net::SocketAddr;

/// How a connection ended.
#[derive(Clone, Copy)]
pub enum Ending {
    /// The host closed its stream.
    Closed,
    /// The stream was reset.
    Reset,
    /// The host did not answer when it was asked whether it is there.
    Gone,
    /// No Connect succeeded in time.
    WithoutConnect,
    /// The host took nothing of what waited for it.
    TookNothing,
    /// The target ended it with this C2HTermReq (TCP Transport 1.0, section 3.6.2.5).
    Terminated(TermReq),
    /// The target ended it, and sent no C2HTermReq.
    ByTarget,
}

impl Ending {
    ghost use Rattle.connection_log.specs.Lines.{ending_by};

    /// How a connection ended whose slot is closed: as is known already, or else by the termination that the target sent
    /// last, or by the target in another way.
    pub fn of(known: Option<Ending>, termination: Option<TermReq>) -> Ending
        ensures { result ≡ ending_by known termination }
    {
        match (known, termination) {
            (Some(ending), _) => ending,
            (None, Some(request)) => Ending::Terminated(request),
            (None, None) => Ending::ByTarget,
        }
    }
}

/// A line of the log, without its end. `number` is that of the connection, the first of a program being 1.
#[derive(Drop)]
pub enum LogLine<'a> {
    /// A host connected to this port of the configuration.
    Opened {
        number: u64,
        peer: SocketAddr,
        port: u16,
    },
    /// A host connected, and was closed at once, since as many are connected as there may be.
    NoSlot {
        peer: SocketAddr,
        port: u16,
    },
    /// A Connect was answered.
    Answered {
        number: u64,
        asked_for: Option<AskedFor<'a>>,
        completion: ResponseFields,
    },
    Ended {
        number: u64,
        ending: Ending,
    },
    /// A line of an edit was answered.
    Edited {
        line: &'a [u8],
        reply: &'a [u8],
    },
    /// So many lines were not printed.
    LeftOut {
        count: u64,
    },
}

impl fmt::Display for LogLine<'_> {
    ghost output = { λ line. Some (line_words line) };

    fn fmt<W: fmt::Write>(&self, f: &mut Formatter<W>) -> fmt::Result {
        match self {
            LogLine::Opened { number, peer, port } => write_opened(f, *number, *peer, *port),
            LogLine::NoSlot { peer, port } => write_no_slot(f, *peer, *port),
            LogLine::Answered {
                number,
                asked_for,
                completion,
            } => write_answered(f, *number, asked_for, *completion),
            LogLine::Ended { number, ending } => write_ended(f, *number, *ending),
            LogLine::Edited { line, reply } => write_edited(f, line, reply),
            LogLine::LeftOut { count } => write_left_out(f, *count),
        }
    }
}

fn write_opened<W: fmt::Write>(
    f: &mut Formatter<W>,
    number: u64,
    peer: SocketAddr,
    port: u16,
) -> fmt::Result
    ensures { WritesOnOk W.write_str_gives f.old result (line_words (LogLine.Opened number peer port)) f.new }
{
    write!(f, "connection {number}: {peer} connected to port {port}")
}

fn write_no_slot<W: fmt::Write>(f: &mut Formatter<W>, peer: SocketAddr, port: u16) -> fmt::Result
    ensures { WritesOnOk W.write_str_gives f.old result (line_words (LogLine.NoSlot peer port)) f.new }
{
    write!(
        f,
        "{peer} connected to port {port}, and was closed: 64 hosts are connected"
    )
}

fn write_answered<W: fmt::Write>(
    f: &mut Formatter<W>,
    number: u64,
    asked_for: &Option<AskedFor<'_>>,
    completion: ResponseFields,
) -> fmt::Result
    ensures { WritesOnOk W.write_str_gives f.old result (answered_words number asked_for.now completion) f.new }
{
    let (asked, answer) = (Asked(asked_for), ConnectAnswer(completion));
    write!(f, "connection {number}: Connect{asked}: {answer}")
}

fn write_ended<W: fmt::Write>(f: &mut Formatter<W>, number: u64, ending: Ending) -> fmt::Result
    ensures { WritesOnOk W.write_str_gives f.old result (line_words (LogLine.Ended number ending)) f.new }
{
    write!(f, "connection {number}: {ending}")
}

fn write_edited<W: fmt::Write>(f: &mut Formatter<W>, line: &[u8], reply: &[u8]) -> fmt::Result
    ensures { WritesOnOk W.write_str_gives f.old result (edited_words line.now reply.now) f.new }
{
    let (line, reply) = (Shown(line), Shown(reply));
    write!(f, "edit \"{line}\": {reply}")
}

fn write_left_out<W: fmt::Write>(f: &mut Formatter<W>, count: u64) -> fmt::Result
    ensures { WritesOnOk W.write_str_gives f.old result (line_words (LogLine.LeftOut count)) f.new }
{
    write!(f, "lines left out: {count}")
}

impl fmt::Display for Ending {
    ghost output = { λ ending. Some (ending_words ending) };

    fn fmt<W: fmt::Write>(&self, f: &mut Formatter<W>) -> fmt::Result {
        match *self {
            Ending::Closed => f.write_str("closed by the host"),
            Ending::Reset => f.write_str("reset"),
            Ending::Gone => f.write_str("given up: the host does not answer"),
            Ending::WithoutConnect => f.write_str("given up: no Connect succeeded in time"),
            Ending::TookNothing => f.write_str("given up: the host took nothing"),
            Ending::Terminated(request) => {
                let words = Explanation::C2hTermReq(request);
                write!(f, "ended by the target: {words}")
            }
            Ending::ByTarget => f.write_str("ended by the target"),
        }
    }
}

// What a Connect asked for, where that is known.
#[derive(Clone, Copy)]
struct Asked<'a, 'b>(&'a Option<AskedFor<'b>>);

impl fmt::Display for Asked<'_, '_> {
    ghost output = { λ asked. Some (asked_words asked.0.now) };

    fn fmt<W: fmt::Write>(&self, f: &mut Formatter<W>) -> fmt::Result {
        match self.0 {
            Some(asked) => write_asked(f, asked),
            None => Ok(()),
        }
    }
}

fn write_asked<W: fmt::Write>(f: &mut Formatter<W>, asked: &AskedFor<'_>) -> fmt::Result
    ensures { WritesOnOk W.write_str_gives f.old result (asked_words (Some asked.now)) f.new }
{
    let (subsystem, host, qid) = (Shown(asked.subsystem), Shown(asked.host), asked.qid);
    write!(f, " of {host} to {subsystem}, queue {qid}")
}

// Bytes that a peer chose: what is no ASCII that prints is in hex, so that no terminal takes it for a command.
#[derive(Clone, Copy)]
struct Shown<'a>(&'a [u8]);

impl fmt::Display for Shown<'_> {
    ghost output = { λ shown. Some (flat_map shown_byte shown.0.now) };

    fn fmt<W: fmt::Write>(&self, f: &mut Formatter<W>) -> fmt::Result {
        write_bytes(f, self.0)
    }
}

fn write_bytes<W: fmt::Write>(f: &mut Formatter<W>, bytes: &[u8]) -> fmt::Result
    ensures { WritesOnOk W.write_str_gives f.old result (flat_map shown_byte bytes.now) f.new }
{
    let mut rest = bytes;
    'bytes: while let Some((byte, after)) = rest.split_first() {
        write_byte(f, *byte)?;
        rest = after;
    }
    Ok(())
}

fn write_byte<W: fmt::Write>(f: &mut Formatter<W>, byte: u8) -> fmt::Result
    ensures { WritesOnOk W.write_str_gives f.old result (shown_byte byte) f.new }
{
    if byte < 0x20 || byte > 0x7E || byte == b'"' || byte == b'\\' {
        let (high, low) = (byte / 16, byte % 16);
        return write!(f, "\\x{high:X}{low:X}");
    }
    let shown = char::from(byte);
    write!(f, "{shown}")
}
