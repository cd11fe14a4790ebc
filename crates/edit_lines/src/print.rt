//! What a replay prints: a line for each PDU that is sent, for each connection that is opened, ended by
//! the target or not known, and for each edit.

ghost use Rattle.std.specs.Prelude.{◌≡◌, ◌≢◌, ◌<◌, ◌≤◌, ◌∷◌, ◌++◌, [], false, length};
ghost use Rattle.std.specs.Prelude.{IfErr, IfSome, OnErr, OnOk, is_ok};
ghost use Rattle.std.specs.Io.KnownBytes.{Appends};
ghost use Rattle.std.specs.IoError.{error_kind};
ghost use Rattle.hex.specs.Hex.{encode_lower};
ghost use Rattle.edit_lines.specs.Fault.{EndsRun, IsOfRun};
ghost use Rattle.edit_lines.specs.Printed.{AreAllOf, edit_made_line, event_line, output_lines};
ghost use Rattle.edit_lines.specs.Printed.{pdu_length, pdu_line, pdus_of, reply_line};
ghost use Rattle.edit_lines.specs.Writing.{AppendsFront};

use crate::fault::ReplayFault;
use crate::reply::Reply;
use crate::writes::Writes;
use nvt_fields::u32_at;
use std::alloc::{AllocError, Global};
use std::fmt::Display;
use std::io::{self, ErrorKind, Write};

const COMMON_HEADER: usize = 8;

const PLEN: usize = 4;

/// Prints lines, each made whole and then written. After a fault a beginning of them is written.
#[derive(Drop)]
pub struct Printer {
    // The line that is made.
    line: Vec<u8>,
    writes: Writes,
}

impl Printer {
    pub fn new(alloc: Global) -> Printer
        ensures line { result.line.items ≡ [] }
        ensures writes { result.writes.has_failed ≡ false }
    {
        Printer {
            line: Vec::new(alloc),
            writes: Writes::new(),
        }
    }

    /// Prints `K WORD`.
    pub fn event<W: Write>(
        &mut self,
        out: &mut W,
        connection: u64,
        word: &str,
    ) -> Result<(), ReplayFault>
        ensures fault { IfErr result (EndsRun self.new.writes.has_failed) }
        ensures printed { OnOk result (Appends (W.contents out.old) (W.contents out.new)
            (event_line connection word.now)) }
        ensures begun { OnErr result (AppendsFront (W.contents out.old) (W.contents out.new)
            (event_line connection word.now)) }
    {
        self.text(out, format_args!("{connection} {word}\n"))
    }

    /// Prints `edit ok`.
    pub fn edit_made<W: Write>(&mut self, out: &mut W) -> Result<(), ReplayFault>
        ensures fault { IfErr result (EndsRun self.new.writes.has_failed) }
        ensures printed { OnOk result (Appends (W.contents out.old) (W.contents out.new)
            edit_made_line) }
        ensures begun { OnErr result (AppendsFront (W.contents out.old) (W.contents out.new)
            edit_made_line) }
    {
        self.text(out, format_args!("edit ok\n"))
    }

    /// Prints the reply to an edit that is refused.
    pub fn refused_edit<W: Write>(&mut self, out: &mut W, reply: Reply) -> Result<(), ReplayFault>
        ensures fault { IfErr result (EndsRun self.new.writes.has_failed) }
        ensures printed { OnOk result (Appends (W.contents out.old) (W.contents out.new)
            (reply_line reply)) }
        ensures begun { OnErr result (AppendsFront (W.contents out.old) (W.contents out.new)
            (reply_line reply)) }
    {
        self.text(out, format_args!("{reply}\n"))
    }

    /// Prints `K pdu HEX` for each PDU of some output of connection K.
    pub fn pdus<W: Write>(
        &mut self,
        out: &mut W,
        connection: u64,
        output: &[u8],
    ) -> Result<(), ReplayFault>
        ensures fault { IfErr result (EndsRun self.new.writes.has_failed) }
        ensures printed { OnOk result (Appends (W.contents out.old) (W.contents out.new)
            (output_lines connection output.now)) }
        ensures begun { OnErr result (AppendsFront (W.contents out.old) (W.contents out.new)
            (output_lines connection output.now)) }
        ensures cut { AreAllOf output.now (pdus_of output.now) }
    {
        let mut rest = output;
        while !rest.is_empty() {
            let (pdu, after) = rest.split_at(pdu_len(rest));
            self.pdu(out, connection, pdu)?;
            rest = after;
        }
        Ok(())
    }

    fn pdu<W: Write>(&mut self, out: &mut W, connection: u64, pdu: &[u8]) -> Result<(), ReplayFault>
        ensures fault { IfErr result (EndsRun self.new.writes.has_failed) }
        ensures printed { OnOk result (Appends (W.contents out.old) (W.contents out.new)
            (pdu_line connection pdu.now)) }
        ensures begun { OnErr result (AppendsFront (W.contents out.old) (W.contents out.new)
            (pdu_line connection pdu.now)) }
    {
        make_pdu_line(&mut self.line, connection, pdu)?;
        write_all(&mut self.writes, out, &self.line)
    }

    /// Prints a text, which has its line's end.
    pub fn text<W: Write, D: Display + Drop>(
        &mut self,
        out: &mut W,
        text: D,
    ) -> Result<(), ReplayFault>
        ensures fault { IfErr result (EndsRun self.new.writes.has_failed) }
        ensures printed { OnOk result (IfSome (D.output text)
            (Appends (W.contents out.old) (W.contents out.new))) }
        ensures begun { OnErr result (IfSome (D.output text)
            (AppendsFront (W.contents out.old) (W.contents out.new))) }
    {
        self.line.clear();
        made(write!(self.line, "{text}"))?;
        write_all(&mut self.writes, out, &self.line)
    }
}

/// What a write answers, as the fault of a replay: no memory, or any other.
pub fn written(outcome: io::Result<()>) -> Result<(), ReplayFault>
    ensures fault { IfErr result IsOfRun }
    ensures variant { is_ok result ≡ is_ok outcome }
    ensures memory { IfErr outcome (λ error. error_kind error ≡ ErrorKind.OutOfMemory →
        result ≡ Err ReplayFault.Memory) }
    ensures io { IfErr outcome (λ error. error_kind error ≢ ErrorKind.OutOfMemory →
        result ≡ Err ReplayFault.Io) }
{
    match outcome {
        Ok(()) => Ok(()),
        Err(error) if error.kind() == ErrorKind::OutOfMemory => Err(ReplayFault::Memory),
        Err(_) => Err(ReplayFault::Io),
    }
}

// Writes all of a text. After a fault a beginning of it is written.
fn write_all<W: Write>(writes: &mut Writes, out: &mut W, text: &[u8]) -> Result<(), ReplayFault>
    ensures fault { IfErr result (EndsRun writes.new.has_failed) }
    ensures printed { OnOk result (Appends (W.contents out.old) (W.contents out.new) text.now) }
    ensures begun { OnErr result (AppendsFront (W.contents out.old) (W.contents out.new) text.now) }
{
    let mut rest = text;
    while !rest.is_empty() {
        let taken = writes.write_some(out, rest)?;
        rest = &rest[taken..];
    }
    Ok(())
}

// What the making of a line answers: a text is made in memory, so that memory is all that it wants.
fn made(outcome: io::Result<()>) -> Result<(), ReplayFault>
    ensures fault { IfErr result (λ fault. fault ≡ ReplayFault.Memory) }
    ensures variant { is_ok result ≡ is_ok outcome }
{
    match outcome {
        Ok(made) => Ok(made),
        Err(_) => Err(ReplayFault::Memory),
    }
}

// Makes `K pdu HEX`.
fn make_pdu_line(line: &mut Vec<u8>, connection: u64, pdu: &[u8]) -> Result<(), ReplayFault>
    ensures fault { IfErr result (λ fault. fault ≡ ReplayFault.Memory) }
    ensures made { OnOk result (line.new.items ≡ pdu_line connection pdu.now) }
{
    line.clear();
    made(write!(line, "{connection} pdu "))?;
    push_hex(line, pdu)?;
    push_line_end(line)?;
    Ok(())
}

// The length of the PDU at the front: its PLEN, or all where that is no length of a PDU there.
fn pdu_len(output: &[u8]) -> usize
    requires { 0 < length output.now }
    ensures len { result ≡ pdu_length output.now }
    ensures positive { 0 < result }
    ensures within { result ≤ length output.now }
{
    if output.len() < COMMON_HEADER {
        return output.len();
    }
    let len = u32_at(output, PLEN) as usize;
    if (COMMON_HEADER..=output.len()).contains(&len) {
        len
    } else {
        output.len()
    }
}

// Appends the bytes in lower-case hex.
fn push_hex(text: &mut Vec<u8>, bytes: &[u8]) -> Result<(), AllocError>
    ensures { OnOk result (text.new.items ≡ text.old.items ++ encode_lower bytes.now) }
{
    let start = text.len();
    let Some(len) = bytes.len().checked_mul(2) else {
        return Err(AllocError);
    };
    let Some(end) = start.checked_add(len) else {
        return Err(AllocError);
    };
    text.resize(end, 0)?;
    hex::encode_to_slice(bytes, &mut text[start..]).unwrap();
    Ok(())
}

fn push_line_end(text: &mut Vec<u8>) -> Result<(), AllocError>
    ensures { OnOk result (text.new.items ≡ text.old.items ++ 10 ∷ []) }
{
    text.push(b'\n')?;
    Ok(())
}
