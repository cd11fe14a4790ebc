//! A command that is outstanding.
ghost use Rattle.std.specs.Prelude.{◌≡◌, ◌≤◌, ◌<◌, ◌+◌, ◌^◌, ◌++◌, IfOk, length, vec_capacity};
ghost use Rattle.host_driver.specs.Pending.{begun, connect_begun, outstanding_of, with_data, with_request};

use crate::{Data, HostCommand, Outstanding};
use std::alloc::{AllocError, Global};
use std::marker::Model;

/// A command that is outstanding, with all the memory that its data need.
#[derive(Debug, Drop)]
pub(crate) struct Pending {
    // The data that the controller asks for by R2Ts, and how many bytes of it it asked for.
    out: Vec<u8>,
    asked: u32,
    // How many bytes are wanted, and those that came.
    into: u32,
    came: Vec<u8>,
}

impl Model for Pending {
    ghost use Rattle.std.specs.Prelude.{◌≤◌, vec_capacity, vec_len};
    ghost use Rattle.host_driver.specs.Pending.{Pending};

    ghost Value = { Pending };

    ghost view = { λ p. record { out = p.out.items; asked = p.asked; into = p.into; came = p.came.items } };

    ghost invariant = { λ p. (vec_len p.out ≤ 131072) × (p.asked ≤ vec_len p.out)
        × (vec_len p.came ≤ p.into) × (p.into ≤ vec_capacity p.came) × (p.into ≤ 131072) };
}

impl Pending {
    /// The Connect.
    pub(crate) fn connect(alloc: Global) -> Pending
        ensures { result ≡ connect_begun }
    {
        Pending {
            out: Vec::new(alloc),
            asked: 0,
            into: 0,
            came: Vec::new(alloc),
        }
    }

    /// A command that is submitted, where at most `in_capsule` bytes of data go in a capsule.
    pub(crate) fn new(
        alloc: Global,
        command: &HostCommand,
        in_capsule: u32,
    ) -> Result<Pending, AllocError>
        requires out { length command.now.out ≤ 131072 }
        requires into { command.now.into ≤ 131072 }
        ensures { IfOk result (λ p. p ≡ begun in_capsule command.now) }
    {
        let out = match command.data(in_capsule) {
            Data::Requested(_) => command.out.clone()?,
            Data::InCapsule(_) | Data::Wanted(_) => Vec::new(alloc),
        };
        Ok(Pending {
            out,
            asked: 0,
            into: command.into,
            came: Vec::with_capacity(alloc, command.into as usize)?,
        })
    }

    /// How far its data have moved.
    pub(crate) fn outstanding(&self) -> Outstanding
        ensures { result ≡ outstanding_of self.now }
    {
        Outstanding {
            out: self.out.len() as u32,
            asked: self.asked,
            into: self.into,
            came: self.came.len() as u32,
        }
    }

    /// The data that the controller asks for.
    pub(crate) fn out(&self) -> &[u8]
        ensures value { result.now ≡ self.now.out }
        ensures most { length self.now.out ≤ 131072 }
    {
        self.out.as_slice()
    }

    /// Takes data that came, which are within what is wanted.
    pub(crate) fn receive(&mut self, bytes: &[u8])
        requires { length self.old.came + length bytes.now ≤ self.old.into }
        ensures { self.new ≡ with_data bytes.now self.old }
    {
        self.came.extend_from_slice(bytes).unwrap();
    }

    /// Notes that more of its data were asked for.
    pub(crate) fn request(&mut self, len: u32)
        requires { self.old.asked + len ≤ length self.old.out }
        ensures { self.new ≡ with_request len self.old }
    {
        self.asked += len;
    }

    /// The data that came.
    pub(crate) fn into_came(self) -> Vec<u8>
        ensures { result.items ≡ self.came }
    {
        self.came
    }
}
