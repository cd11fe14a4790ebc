//! What follows from a reply: of a Connect a controller or an I/O queue, of another command on an admin
//! queue a change of its controller.

use admin_queue::Effect;
use fabrics_connect::NewController;
use property_regs::Change;

/// What follows from a reply, beside the count of responses.
#[derive(Clone, Copy)]
pub enum Consequence {
    Nothing,
    /// A Connect makes a controller, and the connection its admin queue.
    Begin(Beginning),
    /// A Connect makes the connection an I/O queue.
    Join(Joining),
    /// A command on its admin queue changes the controller of this identifier.
    Update { cntlid: u16, update: Update },
}

/// The controller that a Connect makes, and its admin queue.
#[derive(Clone, Copy)]
pub struct Beginning {
    pub controller: NewController,
    /// The size of the submission queue, 0's based: 1 to 63.
    pub sqsize: u16,
    /// Keep alive timeout, in ms.
    pub kato: u32,
}

/// The I/O queue that a Connect makes.
#[derive(Clone, Copy)]
pub struct Joining {
    pub cntlid: u16,
    /// The queue's identifier, 1 to 8.
    pub qid: u16,
    /// The size of the submission queue, 0's based: 1 to 63.
    pub sqsize: u16,
}

/// What a command on its admin queue changes of a controller.
#[derive(Clone, Copy)]
pub enum Update {
    /// A Property Set sets Controller Configuration.
    Configuration(ConfigurationSet),
    /// An admin command has this effect.
    Command(Effect),
}

/// A set of Controller Configuration (Base 2.0, section 3.1.3.5).
#[derive(Clone, Copy)]
pub struct ConfigurationSet {
    /// The value that it gets.
    pub cc: u32,
    /// What that does to the controller.
    pub change: Change,
}
