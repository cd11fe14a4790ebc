//! Laws of the data structures, in the words of the subject. Each of these functions does nothing: its
//! contract is the law, whatever the controller and the namespace are.
ghost use Rattle.identify_data.specs.Laws.{FieldsAreFound, HostsReadBack};

/// Each structure has 4,096 bytes; each field of its table stands at its offset, whole, and every
/// other byte is zero.
#[tactic(auto, using(crate::proofs::Found::fields_are_found))]
pub fn fields_are_found()
    ensures { FieldsAreFound }
{}

/// What a host reads at the standards' places is what it is to learn: of a controller its identifier,
/// its kind and its subsystem's name; of a namespace its size in bytes, its ANA group and its UUID.
#[tactic(auto, using(crate::proofs::Read::hosts_read_back))]
pub fn hosts_read_back()
    ensures { HostsReadBack }
{}
