//! Laws of what is sent, in the words of the subject. Each of these functions does nothing: its contract
//! is the law.
ghost use Rattle.host_driver.specs.Requested.{PiecesAreInTurn, PiecesJoin};

/// The data of the H2CData that answer an R2T, one after another, are all that it asks for.
#[tactic(auto, using(crate::proofs::Pieces::pieces_join))]
pub fn pieces_join()
    ensures { PiecesJoin }
{}

/// Each of them begins where the one before it ended, has some data and at most MAXH2CDATA bytes, and
/// exactly the last is marked.
#[tactic(auto, using(crate::proofs::Pieces::pieces_are_in_turn))]
pub fn pieces_are_in_turn()
    ensures { PiecesAreInTurn }
{}
