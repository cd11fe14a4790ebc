//! What the lines of a replay tell of its connections, and the notes on its PDUs.
ghost use Rattle.std.specs.Prelude.{◌≡◌, IfOk, ℕ, Vec, None, OnErr, OnOk, option_map, replicate};
ghost use Rattle.replay_words.specs.Notes.{HearsLine, NotesLine, bytes_of, head_of};
ghost use Rattle.replay_words.specs.Told.{Tells};

use crate::HostStreams;
use crate::lines::{PrintedLine, ScriptLine, read_printed, read_script};
use hex::FromHexError;
use pdu_words::{Described, Explanation};
use std::alloc::{AllocError, Global};
use std::io::{self, Write};
use std::marker::Model;

// The digits of the first 8,192 bytes of a PDU. The words say nothing that stands behind them: of the
// data, the pages that they speak of are shorter.
const HEAD_DIGITS: usize = 16384;

/// What a PDU is, and the first of its bytes.
#[derive(Drop)]
pub struct Note {
    explanation: Explanation,
    bytes: Vec<u8>,
}

impl Model for Note {
    ghost use Rattle.replay_words.specs.Notes.{Noted};

    ghost Value = { Noted };

    ghost view = { λ n. record { explanation = n.explanation; bytes = n.bytes.items } };
}

impl Note {
    /// What has the words.
    pub fn described(&self) -> Described<'_>
        ensures explanation { result.explanation ≡ self.now.explanation }
        ensures bytes { result.bytes.now ≡ self.now.bytes }
    {
        Described {
            explanation: self.explanation,
            bytes: self.bytes.as_slice(),
        }
    }
}

/// What was heard of the connections of a replay.
#[derive(Drop)]
pub struct Notes {
    host_streams: HostStreams,
    alloc: Global,
}

impl Model for Notes {
    ghost use Rattle.std.specs.Prelude.{List, Option};
    ghost use Rattle.replay_words.specs.HostStream.{Heard};

    ghost Value = { List (Option Heard) };

    ghost view = { λ n. n.host_streams };
}

impl Notes {
    /// No connection.
    pub fn new(alloc: Global) -> Result<Notes, AllocError>
        ensures { IfOk result (λ notes. notes ≡ replicate 64 None) }
    {
        Ok(Notes {
            host_streams: HostStreams::new(alloc)?,
            alloc,
        })
    }

    /// Hears a line of the script that is about to be played, and writes a line for each PDU that it
    /// completes. Where that fails nothing was heard.
    pub fn hears_line<W: Write>(&mut self, line: &[u8], out: &mut W) -> io::Result<()>
        ensures heard { OnOk result (Tells (W.contents out.old) (W.contents out.new)
            (HearsLine line.now self.old self.new)) }
        ensures err { OnErr result (self.new ≡ self.old) }
    {
        match read_script(line) {
            ScriptLine::Receive { number, hex } => {
                let Some(bytes) = decode(self.alloc, hex)? else {
                    return Ok(());
                };
                self.host_streams
                    .heard(self.alloc, number as usize, &bytes, out)
            }
            ScriptLine::End { number } => {
                self.host_streams.closed(number as usize);
                Ok(())
            }
            ScriptLine::Other => Ok(()),
        }
    }

    /// Takes note of a printed line, without its end: what its PDU is, if it has one.
    pub fn note(&mut self, line: &[u8]) -> Result<Option<Note>, AllocError>
        ensures noted { NotesLine line.now self.old self.new result }
        ensures err { OnErr result (self.new ≡ self.old) }
    {
        match read_printed(line) {
            PrintedLine::Open { number } => {
                self.host_streams.opened(self.alloc, number as usize)?;
                Ok(None)
            }
            PrintedLine::Closed { number } => {
                self.host_streams.closed(number as usize);
                Ok(None)
            }
            PrintedLine::Pdu { number, hex } => {
                let Some(head) = decode(self.alloc, head_of(hex))? else {
                    return Ok(None);
                };
                let explanation = self.host_streams.said(number as usize, &head);
                Ok(Some(Note {
                    explanation,
                    bytes: head,
                }))
            }
            PrintedLine::Other => Ok(None),
        }
    }
}

// The first digits of a PDU, or all where there are fewer.
fn head_of(hex: &[u8]) -> &[u8]
    ensures { result.now ≡ head_of hex.now }
{
    if hex.len() < HEAD_DIGITS {
        hex
    } else {
        &hex[..HEAD_DIGITS]
    }
}

// The bytes that the digits say, if they say any.
fn decode(alloc: Global, hex: &[u8]) -> Result<Option<Vec<u8>>, AllocError>
    ensures { IfOk result (λ bytes. option_map (λ (v : Vec ℕ Global). v.items) bytes ≡ bytes_of hex.now) }
{
    match hex::decode(alloc, hex) {
        Ok(bytes) => Ok(Some(bytes)),
        Err(FromHexError::OutOfMemory) => Err(AllocError),
        Err(_) => Ok(None),
    }
}
