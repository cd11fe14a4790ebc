//! Laws of the I/O commands. Each is a fact of the definitions; a call does nothing.
ghost use Rattle.io_queue.specs.Laws.{DecidedByOwnAlone, ReadsWhatWasWritten};

/// What a command begins, what it does once its data has come, or why it is refused, depends on the
/// namespaces of its controller's subsystem that its host sees, on the states of their groups on its
/// port, and on nothing else of the configuration.
#[tactic(auto, using(crate::proofs::Deciding::decided_by_own_alone))]
pub fn decided_by_own_alone()
    ensures { DecidedByOwnAlone }
{}

/// A Read returns the data of a Write of the same extent before it, and zeros after a Write Zeroes;
/// what is done to another disk, or beside the extent, changes nothing of what it returns.
#[tactic(auto, using(crate::proofs::Reading::reads_what_was_written))]
pub fn reads_what_was_written()
    ensures { ReadsWhatWasWritten }
{}
