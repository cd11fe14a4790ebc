//! What a host sends on a connection, cut into its PDUs, the commands in them, and a line for each of them.
ghost use Rattle.std.specs.Prelude.{◌≡◌, ◌++◌, [], List, ℕ, length, IfOk, OnOk, Some};
ghost use Rattle.pdu_cut.specs.declared.side.Side.TheVariants as side;
ghost use Rattle.pdu_cut.specs.Front.{front, incomplete};
ghost use Rattle.pdu_cut.specs.Pdu.{IsWhole};
ghost use Rattle.replay_words.specs.Hearing.{Hears, TakesPdus, after_pdu, host_line};
ghost use Rattle.replay_words.specs.Outstanding.{sent_after};

use crate::outstanding::OutstandingCommands;
use nvt_fields::PduType;
use pdu_codec::Sqe;
use pdu_cut::{Cut, PduView, RxBuf};
use pdu_words::Described;
use std::io::{self, Write};

/// Takes bytes in that follow those held, learns the commands of each PDU that is whole, and appends its
/// line. Answers whether a common header has a fault: then no more is heard, since the stream cannot be cut.
pub(crate) fn hear(
    buffer: &mut RxBuf,
    commands: &mut OutstandingCommands,
    number: usize,
    bytes: &[u8],
    text: &mut Vec<u8>,
) -> io::Result<bool>
    requires side { buffer.old.side ≡ side.Target }
    requires incomplete { front side.Target buffer.old.held ≡ incomplete }
    requires begins { text.old.items ≡ [] }
    ensures side { OnOk result (buffer.new.side ≡ side.Target) }
    ensures heard { IfOk result (Hears number buffer.old.held buffer.new.held
        commands.old commands.new bytes.now text.new.items) }
{
    let mut rest = bytes;
    while !rest.is_empty() {
        let taken = buffer.receive(rest);
        let (_, after) = rest.split_at(taken);
        rest = after;
        if take_pdus(buffer, commands, number, text)? {
            return Ok(true);
        }
    }
    Ok(false)
}

// Takes the whole PDUs off the front. Answers whether a fault follows them.
fn take_pdus(
    buffer: &mut RxBuf,
    commands: &mut OutstandingCommands,
    number: usize,
    text: &mut Vec<u8>,
) -> io::Result<bool>
    requires { buffer.old.side ≡ side.Target }
    ensures side { OnOk result (buffer.new.side ≡ side.Target) }
    ensures taken { IfOk result (TakesPdus number buffer.old.held buffer.new.held
        commands.old commands.new text.old.items text.new.items) }
{
    loop {
        match buffer.peek() {
            Cut::More => return Ok(false),
            Cut::Fault { .. } => return Ok(true),
            Cut::Pdu(pdu) => {
                learn(commands, &pdu);
                tell(commands, number, &pdu, text)?;
                let len = pdu.plen() as usize;
                buffer.consume(len);
            }
        }
    }
}

// Keeps the command of a PDU, if it has one.
fn learn(commands: &mut OutstandingCommands, pdu: &PduView<'_>)
    ensures { commands.new ≡ after_pdu pdu.now commands.old }
{
    if let PduType::CapsuleCmd = pdu.kind() {
        let header = <&[u8; 72]>::try_from(pdu.header()).unwrap();
        commands.send(&Sqe::read(header));
    }
}

// Appends the line of a PDU, whose command was learnt. All that its words say stands in its header.
fn tell(
    commands: &OutstandingCommands,
    number: usize,
    pdu: &PduView<'_>,
    text: &mut Vec<u8>,
) -> io::Result<()>
    ensures { OnOk result
        (text.new.items ≡ text.old.items ++ host_line number commands.now pdu.now) }
{
    let bytes = pdu.header();
    let explanation = commands.explain(bytes);
    let described = Described { explanation, bytes };
    writeln!(text, "{number} host # {described}")
}
