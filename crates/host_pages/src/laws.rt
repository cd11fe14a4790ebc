//! Laws of pages and lists, in the words of the subject. Each of these functions does nothing: its
//! contract is the law, whatever the bytes are.
ghost use Rattle.host_pages.specs.Laws.{GroupsAreTheSplit, ListsAreReadBack, OverflowsAreTold, RecordsAreJoined};

/// A discovery log page is its header, its records one after another, each of 1,024 bytes, and what
/// stands behind them.
#[tactic(auto, using(crate::proofs::RecordLists::records_are_joined))]
pub fn records_are_joined()
    ensures { RecordsAreJoined }
{}

/// Bytes hold so many groups exactly where so many stand one after another at their front, each as long
/// as it says, and these are the groups that are read; no others stand there so.
#[tactic(auto, using(crate::proofs::Splits::groups_are_the_split))]
pub fn groups_are_the_split()
    ensures { GroupsAreTheSplit }
{}

/// Identifiers that are written 4 bytes each, the lowest byte first, and zeros behind them, are read
/// back, where the first of them is not FFFFFFFFh.
#[tactic(auto, using(crate::proofs::ReadBack::lists_are_read_back))]
pub fn lists_are_read_back()
    ensures { ListsAreReadBack }
{}

/// A list that begins with FFFFFFFFh, as one where more changed than there is room for, says that it
/// overflowed, and lists no namespace; a list of identifiers that was written, and does not begin with
/// FFFFFFFFh, does not say so.
#[tactic(auto, using(crate::proofs::ReadBack::overflows_are_told))]
pub fn overflows_are_told()
    ensures { OverflowsAreTold }
{}
