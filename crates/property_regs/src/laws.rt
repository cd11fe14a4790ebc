//! Laws of the properties, in the words of the subject. Each of these functions does nothing: its
//! contract is the law, for whatever was set.
ghost use Rattle.property_regs.specs.Laws.{ChangesTellOfReadiness, ReadinessIsAsSet};

/// Whatever was set, a controller is ready exactly where EN is 1, the value that enabled it has
/// entry sizes that its kind takes, and no value since, that one included, asked for a shutdown.
#[tactic(auto, using(crate::proofs::Readiness::readiness_is_as_set))]
pub fn readiness_is_as_set()
    ensures { ReadinessIsAsSet }
{}

/// A controller becomes ready by an `Enable` alone, and ceases to be by a `Reset` or a `Shutdown`.
#[tactic(auto, using(crate::proofs::Readiness::changes_tell_of_readiness))]
pub fn changes_tell_of_readiness()
    ensures { ChangesTellOfReadiness }
{}
