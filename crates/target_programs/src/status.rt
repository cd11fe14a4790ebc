//! The exit status that tells how a command ended.

ghost use Rattle.std.specs.Prelude.{◌≡◌};
ghost use Rattle.target_programs.specs.Status.{status_of};

const DONE: u8 = 0;

const FAULT: u8 = 1;

/// The exit status of a command that ended so.
pub fn exit_status<E: Drop>(outcome: Result<(), E>) -> u8
    ensures { result ≡ status_of outcome }
{
    match outcome {
        Ok(()) => DONE,
        Err(_) => FAULT,
    }
}
