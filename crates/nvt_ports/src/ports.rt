//! Ports, as whoever serves a target calls them.
use crate::event::{PortEvent, PortFault};
use nvt_config::Config;

/// How many slots there are.
pub const SLOTS: usize = 64;

/// The most bytes that are handed out at a time, and the length of the buffer.
pub const PIECE_MAX: usize = 32_768;

/// The ports of a target. Ports may tell what they handed out, took and were told: then each call says what it added.
pub trait Ports {
    ghost use Rattle.std.specs.Prelude.{◌≡◌, ◌<◌, ◌≤◌, IfOk, length, slice_set, false};
    ghost use Rattle.std.specs.Option.{option_map};
    ghost use Rattle.block_store.specs.Faults.{Counts};
    ghost use Rattle.nvt_ports.specs.Event.{Fits, in_use_after};
    ghost use Rattle.nvt_ports.specs.Told.{PortsState, TellsGiven, TellsMore, handed_out_by, heard, refreshed_to, replied};

    /// What they tell, if they do; the slots that are in use: open, and not closed; and a count that each call of
    /// `give` that fails changes, and no other call does.
    ghost state: { Self → PortsState };

    /// What is next. Of a slot no more bytes come than there is room for.
    fn next(&mut self, room: &[usize; 64], buf: &mut [u8]) -> PortEvent
        requires { length buf.old ≡ 32768 }
        ensures fits { Fits (state self.old).in_use room.now (length buf.old) result }
        ensures len { length buf.new ≡ length buf.old }
        ensures in_use { (state self.new).in_use ≡ in_use_after result (state self.old).in_use }
        ensures told { (state self.new).told
            ≡ option_map (heard (handed_out_by result buf.new)) (state self.old).told }
        ensures faults { (state self.new).faults ≡ (state self.old).faults };

    /// Takes the first of these bytes to be sent, and answers how many.
    fn give(&mut self, slot: usize, bytes: &[u8]) -> Result<usize, PortFault>
        requires { slot < 64 }
        ensures taken { IfOk result (λ n. n ≤ length bytes.now) }
        ensures in_use { (state self.new).in_use ≡ (state self.old).in_use }
        ensures told { TellsGiven slot bytes.now result (state self.old).told (state self.new).told }
        ensures faults { Counts result (state self.old).faults (state self.new).faults };

    /// Closes a slot, once what was taken is sent.
    fn close(&mut self, slot: usize)
        requires { slot < 64 }
        ensures in_use { (state self.new).in_use ≡ slice_set (state self.old).in_use slot false }
        ensures told { (state self.new).told ≡ (state self.old).told }
        ensures faults { (state self.new).faults ≡ (state self.old).faults };

    /// Answers the line that was handed out last.
    fn reply(&mut self, text: &[u8])
        ensures told { TellsMore (replied text.now) (state self.old).told (state self.new).told }
        ensures in_use { (state self.new).in_use ≡ (state self.old).in_use }
        ensures faults { (state self.new).faults ≡ (state self.old).faults };

    /// Follows an edit: from here on hosts can connect to the ports of this configuration.
    fn refresh(&mut self, config: &Config)
        ensures told { TellsMore (refreshed_to config.now) (state self.old).told (state self.new).told }
        ensures in_use { (state self.new).in_use ≡ (state self.old).in_use }
        ensures faults { (state self.new).faults ≡ (state self.old).faults };
}
