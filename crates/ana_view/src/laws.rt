//! Laws of what controllers show of ANA groups, in the words of the subject. Each of these functions
//! does nothing: its contract is the law, whatever the configurations and the edits are.
ghost use Rattle.ana_view.specs.Laws.{ChangesAreCounted, GroupsAreListed};

/// The groups of a log page rise, each with its state and exactly the subsystem's namespaces that are
/// in it and that the host sees, rising; a group is listed where it holds one of them, and not else.
pub fn groups_are_listed()
    ensures { GroupsAreListed }
{}

/// Each count is the number of edits since the controller was last enabled that changed what it
/// counts, modulo 2^64.
#[tactic(auto, using(crate::proofs::Counting::changes_are_counted))]
pub fn changes_are_counted()
    ensures { ChangesAreCounted }
{}
