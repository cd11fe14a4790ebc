//! A command that is submitted.
ghost use Rattle.std.specs.Prelude.{◌≡◌, ◌<◌, ◌^◌, length};
ghost use Rattle.host_driver.specs.Command.{data_of, descriptor_of};

use pdu_codec::DataSgl;
use std::marker::Model;

/// A command, with the data to send or the number of bytes that are wanted: not both.
#[derive(Debug, Drop)]
pub struct HostCommand {
    pub opcode: u8,
    /// The namespace; of a Fabrics command its type, FCTYPE.
    pub nsid: u32,
    /// Command dwords 10 to 15.
    pub cdw: [u32; 6],
    /// The data to send, in bytes.
    pub out: Vec<u8>,
    /// How many bytes of data the controller is to send.
    pub into: u32,
}

impl Model for HostCommand {
    ghost use Rattle.host_driver.specs.Command.{Command};

    ghost Value = { Command };

    ghost view = { λ c. record {
      opcode = c.opcode;
      nsid = c.nsid;
      cdw = c.cdw;
      out = c.out.items;
      into = c.into;
    } };
}

/// How the data of a command move.
#[derive(Clone, Copy, Debug, PartialEq, Eq)]
pub enum Data {
    /// So many bytes go in the capsule.
    InCapsule(u32),
    /// So many bytes are sent as the controller asks for them.
    Requested(u32),
    /// So many bytes are to come, or none.
    Wanted(u32),
}

impl Data {
    /// The command's descriptor of its data, SGL1.
    pub(crate) fn descriptor(self) -> DataSgl
        ensures { result ≡ descriptor_of self }
    {
        match self {
            Data::InCapsule(len) => DataSgl::InCapsule(len),
            Data::Requested(len) | Data::Wanted(len) => DataSgl::Transport(len),
        }
    }
}

impl HostCommand {
    /// How its data move where at most `in_capsule` bytes go in a capsule.
    pub fn data(&self, in_capsule: u32) -> Data
        requires { length self.now.out < 2 ^ 32 }
        ensures { result ≡ data_of in_capsule self.now }
    {
        let len = self.out.len() as u32;
        if len == 0 {
            Data::Wanted(self.into)
        } else if len <= in_capsule {
            Data::InCapsule(len)
        } else {
            Data::Requested(len)
        }
    }
}
