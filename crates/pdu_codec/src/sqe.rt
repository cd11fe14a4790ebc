ghost use Rattle.std.specs.Prelude.{◌≡◌, length};
ghost use Rattle.pdu_codec.specs.Sqe.{entry_in, opcode_of, fuse_of, cid_of, nsid_of};
ghost use Rattle.pdu_codec.specs.Sqe.{fctype_of, sgl1_of};

use crate::sgl::Sgl;
use nvt_fields::{u16_at, u32_at};

/// A submission queue entry, lent from the capsule that brought it (Base 2.0, section 3.3.3.1).
#[derive(Drop)]
pub struct Sqe<'a> {
    pub entry: &'a [u8; 64],
}

impl<'a> Sqe<'a> {
    /// The entry of a capsule: what follows the common header in its 72 header bytes.
    pub fn read(header: &'a [u8; 72]) -> Sqe<'a>
        ensures { result.entry.now ≡ entry_in header.now }
    {
        Sqe {
            entry: <&[u8; 64]>::try_from(&header[8..72]).unwrap(),
        }
    }

    /// The opcode; 7Fh is a Fabrics command on each queue.
    pub fn opcode(&self) -> u8
        ensures { result ≡ opcode_of self.now.entry.now }
    {
        self.entry[0]
    }

    /// 0 where the command is not fused with another.
    pub fn fuse(&self) -> u8
        ensures { result ≡ fuse_of self.now.entry.now }
    {
        self.entry[1] % 4
    }

    /// Command identifier.
    pub fn cid(&self) -> u16
        ensures { result ≡ cid_of self.now.entry.now }
    {
        let entry = self.entry;
        u16_at(entry, 2)
    }

    /// Namespace identifier.
    pub fn nsid(&self) -> u32
        ensures { result ≡ nsid_of self.now.entry.now }
    {
        let entry = self.entry;
        u32_at(entry, 4)
    }

    /// The command type of a Fabrics command.
    pub fn fctype(&self) -> u8
        ensures { result ≡ fctype_of self.now.entry.now }
    {
        self.entry[4]
    }

    /// The descriptor of the command's data.
    pub fn sgl1(&self) -> Sgl
        ensures { result ≡ sgl1_of self.now.entry.now }
    {
        let entry = self.entry;
        Sgl::read(&entry[24..40])
    }
}
