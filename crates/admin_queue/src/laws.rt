//! Laws of the admin commands. Each is a fact of the definitions; a call does nothing.
ghost use Rattle.admin_queue.specs.Laws.{AnsweredByOwnAlone, AnsweredOnce, AsMuchAsAsked, AtMostMdts, PiecesAreParts};

/// What a command comes to, and the data that it returns, depend on the pages of its controller's
/// host, on the namespaces of its controller's subsystem, and on nothing else of the target.
#[tactic(auto, using(crate::proofs::Asking::answered_alike))]
pub fn answered_by_own_alone()
    ensures { AnsweredByOwnAlone }
{}

/// A command that returns data returns as many bytes as its descriptor asks for.
#[tactic(auto, using(crate::proofs::Asking::asked))]
pub fn as_much_as_asked()
    ensures { AsMuchAsAsked }
{}

/// A command that returns data returns 131,072 bytes at most (MDTS; Base 2.0, section 5.17.2.1).
#[tactic(auto, using(crate::proofs::Bounds::at_most_mdts))]
pub fn at_most_mdts()
    ensures { AtMostMdts }
{}

/// A command that is answered leaves the event requests that wait as they are; a request that waits is
/// the youngest of them.
#[tactic(auto, using(crate::proofs::Waiting::answered_once))]
pub fn answered_once()
    ensures { AnsweredOnce }
{}

/// Each of the pieces in which data go to the host is a part of them that is written at once.
#[tactic(auto, using(crate::proofs::Parts::pieces_are_parts))]
pub fn pieces_are_parts()
    ensures { PiecesAreParts }
{}
