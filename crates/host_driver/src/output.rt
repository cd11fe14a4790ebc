//! What a queue has to send: room for more, and taking it away.
ghost use Rattle.std.specs.Prelude.{◌≡◌, ◌≤◌, OnErr, OnOk, drop, length};

use bytes::BytesMut;
use std::alloc::AllocError;

/// Makes room for so many bytes more. Where it lacks, one copy moves what waits into a buffer with room for
/// twice of both, so that it is seldom moved.
pub(crate) fn make_room(output: &mut BytesMut, room: usize) -> Result<(), AllocError>
    ensures items { output.new.items ≡ output.old.items }
    ensures room { OnOk result (room ≤ output.new.spare) }
    ensures err { OnErr result (output.new ≡ output.old) }
    ensures some { OnErr result (1 ≤ room) }
{
    let waiting = output.len();
    if room <= output.capacity() - waiting {
        return Ok(());
    }
    let Some(wanted) = waiting.checked_add(room) else {
        return Err(AllocError);
    };
    let mut wider = BytesMut::with_capacity(*output.allocator(), wanted.saturating_mul(2))?;
    wider.extend_reserved(output.as_slice());
    *output = wider;
    Ok(())
}

/// Takes the first `len` bytes away. Where none is left, all the room is there again.
pub(crate) fn take_away(output: &mut BytesMut, len: usize)
    requires { len ≤ length output.old.items }
    ensures { output.new.items ≡ drop len output.old.items }
{
    if len == output.len() {
        output.clear();
    } else {
        output.advance(len);
    }
}
