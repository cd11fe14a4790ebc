//! The connections that are open, by their numbers.
ghost use Rattle.std.specs.Prelude.{◌≡◌, IfOk, None, OnErr, OnOk, replicate};
ghost use Rattle.tables.specs.NumberTable.{place, without};
ghost use Rattle.replay_words.specs.HostStreams.{after_saying, opened_at, said_on, HeardOn};
ghost use Rattle.replay_words.specs.Told.{Tells};

use crate::host_stream::HostStream;
use pdu_words::{Explanation, explain};
use std::alloc::{AllocError, Global};
use std::io::{self, Write};
use std::marker::Model;
use tables::NumberTable;

/// The most connections at a time, with numbers from 0 on.
pub const CONNECTIONS_MAX: usize = 64;

/// What was heard on each connection that is open, and is not answered yet.
#[derive(Drop)]
pub struct HostStreams {
    table: NumberTable<HostStream>,
}

impl Model for HostStreams {
    ghost use Rattle.std.specs.Prelude.{◌≡◌, List, Option, length};
    ghost use Rattle.replay_words.specs.HostStream.{Heard};

    ghost Value = { List (Option Heard) };

    ghost view = { λ c. c.table };

    ghost invariant = { λ c. length c.table ≡ 64 };
}

impl HostStreams {
    /// No connection.
    pub fn new(alloc: Global) -> Result<HostStreams, AllocError>
        ensures { IfOk result (λ host_streams. host_streams ≡ replicate 64 None) }
    {
        Ok(HostStreams {
            table: NumberTable::new(alloc, CONNECTIONS_MAX)?,
        })
    }

    /// A connection of that number opens, whatever was known of an earlier one. A number from
    /// [`CONNECTIONS_MAX`] on is none.
    pub fn opened(&mut self, alloc: Global, number: usize) -> Result<(), AllocError>
        ensures ok { OnOk result (self.new ≡ opened_at number self.old) }
        ensures err { OnErr result (self.new ≡ self.old) }
    {
        if number >= CONNECTIONS_MAX {
            return Ok(());
        }
        let host_stream = HostStream::new(alloc)?;
        self.closed(number);
        self.table.put(number, host_stream);
        Ok(())
    }

    /// The host sends bytes on the connection, in whatever pieces they come: a line is written for
    /// each PDU that they complete. Nothing is kept or told of what comes on a connection that is not
    /// open. Where it fails nothing was heard.
    pub fn heard<W: Write>(
        &mut self,
        alloc: Global,
        number: usize,
        bytes: &[u8],
        out: &mut W,
    ) -> io::Result<()>
        ensures heard { OnOk result (Tells (W.contents out.old) (W.contents out.new)
            (HeardOn number self.old self.new bytes.now)) }
        ensures err { OnErr result (self.new ≡ self.old) }
    {
        match self.table.get_mut(number) {
            Some(host_stream) => host_stream.hear(alloc, number, bytes, out),
            None => Ok(()),
        }
    }

    /// What a PDU is that is sent on the connection, with its command where that was heard. A
    /// response completes its command.
    pub fn said(&mut self, number: usize, pdu: &[u8]) -> Explanation
        ensures words { result ≡ said_on (place self.old number) pdu.now }
        ensures after { self.new ≡ after_saying number (place self.old number) pdu.now self.old }
    {
        match self.table.get_mut(number) {
            Some(host_stream) => host_stream.say(pdu),
            None => explain(pdu, None),
        }
    }

    /// The connection is gone, and what was heard on it.
    pub fn closed(&mut self, number: usize)
        ensures { self.new ≡ without self.old number }
    {
        self.table.remove(number);
    }
}
