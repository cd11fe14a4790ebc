//! A target over disks of a test's own.
use block_store::Disk;
use nvt_config::Edit;
use std::alloc::Global;
use target_core::{Stepped, Target};
use testkit_edits::{Line, edit};

/// A target whose calls are to go well.
pub struct TestTarget<D: Disk> {
    alloc: Global,
    target: Target<D>,
}

// Written out, so that whoever lets one fall proves one call.
impl<D: Disk + Drop> Drop for TestTarget<D> {
    fn drop(self) {
        let TestTarget { alloc: _, target } = self;
        drop(target);
    }
}

impl<D: Disk + Drop> TestTarget<D> {
    /// A target over these disks.
    pub fn over(alloc: Global, disks: Vec<D>) -> Option<TestTarget<D>> {
        match Target::new(alloc, disks) {
            Ok(target) => Some(TestTarget { alloc, target }),
            Err(_) => None,
        }
    }

    /// Whether the edit of this line is accepted.
    pub fn edits(&mut self, line: Line<'_>) -> bool {
        match edit(self.alloc, line) {
            Ok(edit) => self.makes(&edit),
            Err(_) => false,
        }
    }

    /// Whether this edit is accepted.
    pub fn makes(&mut self, edit: &Edit) -> bool {
        self.target.edit(edit) == Ok(())
    }

    /// Whether the connection that opens on port 1 is this one.
    pub fn opens(&mut self, k: usize) -> bool {
        self.opens_on(1, k)
    }

    /// Whether the connection that opens on this port is this one.
    pub fn opens_on(&mut self, port: u16, k: usize) -> bool {
        self.target.open(port) == Ok(k)
    }

    // Whether all these bytes are received, and the step behind them comes to this.
    fn steps(&mut self, k: usize, bytes: &[u8], stepped: Stepped) -> bool {
        self.target.receive(k, bytes) == Ok(bytes.len()) && self.target.step(k) == Ok(stepped)
    }

    /// Whether a whole PDU is received, and stepped.
    pub fn takes(&mut self, k: usize, bytes: &[u8]) -> bool {
        self.steps(k, bytes, Stepped::One)
    }

    /// Whether a PDU is received that ends its connection.
    pub fn ends_by(&mut self, k: usize, bytes: &[u8]) -> bool {
        self.steps(k, bytes, Stepped::Ended)
    }

    /// Whether bytes are received that are no whole PDU.
    pub fn waits_for_more(&mut self, k: usize, bytes: &[u8]) -> bool {
        self.steps(k, bytes, Stepped::Idle)
    }

    /// Whether a connection is ended and not given up.
    pub fn is_ended(&self, k: usize) -> bool {
        self.target.ended(k)
    }

    /// Gives a connection up.
    pub fn gives_up(&mut self, k: usize) {
        self.target.end(k);
    }

    /// What was sent on a connection and is not taken away.
    pub fn sent(&self, k: usize) -> &[u8] {
        self.target.output(k)
    }

    /// Takes away all that was sent.
    pub fn empties(&mut self, k: usize) -> bool {
        let len = self.target.output(k).len();
        self.target.taken(k, len);
        self.target.output(k).is_empty()
    }
}
