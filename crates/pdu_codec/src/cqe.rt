ghost use Rattle.std.specs.Prelude.{◌≡◌, ◌<◌};
ghost use Rattle.nvt_fields.specs.Status.{word_of};
ghost use Rattle.pdu_codec.specs.Cqe.{completion_in, result_of, sqhd_of, completed_cid_of};
ghost use Rattle.pdu_codec.specs.Cqe.{status_of, status_of_word, StatusesAreReadBack};

use nvt_fields::{Status, u16_at, u64_at};

/// A completion queue entry, lent from the capsule that brought it (Base 2.0, section 3.3.3.2).
#[derive(Drop)]
pub struct Cqe<'a> {
    pub entry: &'a [u8; 16],
}

impl<'a> Cqe<'a> {
    /// The entry of a response: what follows the common header in its 24 bytes.
    pub fn read(header: &'a [u8; 24]) -> Cqe<'a>
        ensures { result.entry.now ≡ completion_in header.now }
    {
        Cqe {
            entry: <&[u8; 16]>::try_from(&header[8..24]).unwrap(),
        }
    }

    /// What the command defines, in dwords 0 and 1.
    pub fn result(&self) -> u64
        ensures { result ≡ result_of self.now.entry.now }
    {
        let entry = self.entry;
        u64_at(entry, 0)
    }

    /// Submission queue head pointer.
    pub fn sqhd(&self) -> u16
        ensures { result ≡ sqhd_of self.now.entry.now }
    {
        let entry = self.entry;
        u16_at(entry, 8)
    }

    /// The identifier of the command that is completed.
    pub fn cid(&self) -> u16
        ensures { result ≡ completed_cid_of self.now.entry.now }
    {
        let entry = self.entry;
        u16_at(entry, 12)
    }

    /// The status, whatever controller sent it: each word has one.
    pub fn status(&self) -> Status
        ensures { result ≡ status_of self.now.entry.now }
    {
        let entry = self.entry;
        status_of_word(u16_at(entry, 14))
    }
}

/// The status that the last word of a completion says: its code in bits 8:1, the code's type in bits
/// 11:9, and DNR in bit 15 (Base 2.0, section 3.3.3.2.1). The other bits are none of it.
pub fn status_of_word(word: u16) -> Status
    ensures { result ≡ status_of_word word }
{
    Status {
        sct: (word / 0x200 % 8) as u8,
        sc: (word / 2 % 0x100) as u8,
        dnr: word >= 0x8000,
    }
}

/// The law that what is written of a status is read back.
pub fn statuses_are_read_back()
    ensures { StatusesAreReadBack }
{}
