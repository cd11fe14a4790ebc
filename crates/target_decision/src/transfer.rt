//! Commands that wait for their data, and the transfers of one connection, lent.
ghost use Rattle.std.specs.Prelude.{◌≡◌, ◌<◌, option_copied};
ghost use Rattle.std.specs.Option.{option_map};
ghost use Rattle.data_transfer.specs.Part.{data_answer};
ghost use Rattle.data_transfer.specs.Parts.{count_of, has_command};
ghost use Rattle.target_decision.specs.Transfer.{carried_by, tags_in};

use data_transfer::{DataFault, Progress, Transfers};
use pdu_codec::DataHead;

/// A command whose data are to come: its submission queue entry.
#[derive(Clone, Copy)]
pub struct WaitingCommand {
    pub entry: [u8; 64],
}

/// The transfers of one connection, of those of all.
#[derive(Drop)]
pub struct OwnTransfers<'a> {
    pub transfers: &'a Transfers<WaitingCommand>,
    /// The connection's number, 0 to 63.
    pub connection: usize,
}

impl<'a> OwnTransfers<'a> {
    /// How many there are.
    pub(crate) fn count(&self) -> usize
        requires { self.now.connection < 64 }
        ensures { result ≡ count_of (tags_in self.now) }
    {
        self.transfers.count(self.connection)
    }

    /// Whether one of them is of the command of that identifier.
    pub(crate) fn has_command(&self, cid: u16) -> bool
        requires { self.now.connection < 64 }
        ensures { result ≡ has_command (tags_in self.now) cid }
    {
        self.transfers.has_command(self.connection, cid)
    }

    /// What an H2CData of this head that carries these bytes is answered.
    pub(crate) fn check(&self, head: &DataHead, bytes: &[u8]) -> Result<Progress, DataFault>
        ensures { result ≡ data_answer (tags_in self.now head.now.ttag) (carried_by head.now bytes.now) }
    {
        self.transfers.check(
            self.connection,
            head.ttag,
            head.cccid,
            head.datao,
            head.datal,
            bytes,
        )
    }

    /// The command of the transfer of that tag, if it is there.
    pub(crate) fn command(&self, ttag: u16) -> Option<&'a WaitingCommand>
        ensures { option_copied result
            ≡ option_map (λ part. part.command) (tags_in self.now ttag) }
    {
        self.transfers.command(self.connection, ttag)
    }
}
