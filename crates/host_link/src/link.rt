//! What moves the bytes of a queue.
use thiserror::Error;

/// The link is at its end, or failed.
#[derive(Clone, Copy, Debug, PartialEq, Eq, Error)]
#[error("the link is at its end, or failed")]
pub struct LinkFault;

/// A stream of bytes to a controller, and one from it. No call waits: where nothing can move, it answers 0. A link may
/// tell what it took and handed out: then each call says what it added.
pub trait Link {
    ghost use Rattle.std.specs.Prelude.{◌≤◌, IfOk, length};
    ghost use Rattle.host_link.specs.Link.{LinkState, ReceiveAnswers, SendAnswers};

    /// What it tells, if it does; and a count that each call that fails changes, and no other call does.
    ghost state: { Self → LinkState };

    /// Sends the first of these bytes, and answers how many.
    fn send(&mut self, bytes: &[u8]) -> Result<usize, LinkFault>
        ensures within { IfOk result (λ n. n ≤ length bytes.now) }
        ensures told { SendAnswers bytes.now result (state self.old) (state self.new) };

    /// Writes what came to the front of the buffer, as much as there is room for, and answers how many bytes
    /// these are.
    fn receive(&mut self, buffer: &mut [u8]) -> Result<usize, LinkFault>
        ensures within { IfOk result (λ n. n ≤ length buffer.new) }
        ensures told { ReceiveAnswers buffer.new result (state self.old) (state self.new) };
}
