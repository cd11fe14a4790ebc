//! Laws of transfers and of pieces, in the words of the subject. Each of these functions does nothing:
//! its contract is the law.
ghost use Rattle.std.specs.Prelude.{ℕ, ◌<◌, List, Option};
ghost use Rattle.data_transfer.specs.Laws.{HoldsWhatCame, IsLeastFree, PiecesAreInTurn, PiecesJoin};
ghost use Rattle.data_transfer.specs.Part.{H2cData, Part};
ghost use Rattle.data_transfer.specs.Parts.{count_of, free_tag};

/// A transfer holds the data of the H2CData that were accepted, joined, and no more than was asked for;
/// one that is whole holds as many bytes as its R2T asked for. Its command is the one that it was begun
/// with.
pub fn transfers_hold_what_came<C>()
    ensures { (cid : ℕ) (command : C) (asked : ℕ) (pdus : List H2cData)
        → HoldsWhatCame cid command asked pdus }
{}

/// The tag of a new transfer is the least that no other transfer of its connection uses, and one of the
/// 63, where the connection has fewer transfers than that.
pub fn free_tags_are_least<C>()
    ensures least { (tags : ℕ → Option (Part C)) → count_of tags < 63 → IsLeastFree tags (free_tag tags) }
    ensures within { (tags : ℕ → Option (Part C)) → count_of tags < 63 → free_tag tags < 63 }
{}

/// The pieces of a reply's data, one after another, are all of it.
#[tactic(auto, using(crate::proofs::Joins::pieces_join))]
pub fn pieces_join()
    ensures { PiecesJoin }
{}

/// Each piece but the last has 32,768 bytes, the last has some, each begins where the one before it
/// ends, and exactly the last is marked.
#[tactic(auto, using(crate::proofs::Joins::pieces_are_in_turn))]
pub fn pieces_are_in_turn()
    ensures { PiecesAreInTurn }
{}
