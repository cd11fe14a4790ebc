//! Laws of what is told of a connection, in the words of the subject. Each of these functions does nothing: its
//! contract is the law, whatever goes by on the connection.
ghost use Rattle.std.specs.Prelude.{ℕ, List};
ghost use Rattle.connection_log.specs.declared.watch.ConnectionWatch.{ConnectionWatch};
ghost use Rattle.connection_log.specs.Conversation.{AnswersAreTheirs, FirstIsTold, IsToldOnce};
ghost use Rattle.connection_log.specs.Conversation.{KeepsConnect, KeepsFront};
ghost use Rattle.connection_log.specs.Watching.{answered, heard};
ghost use Rattle.connection_log.specs.Conversation.{PiecesDoNotMatter, SizesStay, WatchesEvents};

/// What a watch knows does not depend on the pieces in which bytes come.
pub fn pieces_do_not_matter()
    ensures { (w : ConnectionWatch) (a b : List ℕ) → PiecesDoNotMatter w a b }
{}

/// A watch always keeps as many bytes of a PDU as one that was just made, also for the next connection.
pub fn sizes_stay()
    ensures { (w : ConnectionWatch) (bytes : List ℕ)
        → SizesStay w (heard w bytes) × SizesStay w (answered w bytes) }
{}

/// Of whole PDUs, in any order, a watch knows how many commands wait for their answers, and whether a Connect does.
pub fn watches_events()
    ensures { WatchesEvents }
{}

/// The Connect that is told of is the one that waits: its first bytes are kept as they came, and nothing that goes by
/// before its answer takes their place.
pub fn connect_is_kept()
    ensures front { KeepsFront }
    ensures stays { KeepsConnect }
{}

/// The answer to a Connect is told once.
#[tactic(auto, using(crate::proofs::Conversations::is_told_once))]
pub fn is_told_once()
    ensures { IsToldOnce }
{}

/// A response that is told as the answer to a Connect is its answer: the command of the same number is a Connect, if no
/// command is answered before it came, and less than 2^32 come.
#[tactic(auto, using(crate::proofs::Turns::answers_are_theirs))]
pub fn answers_are_theirs()
    ensures { AnswersAreTheirs }
{}

/// The answer to the first Connect of a connection is told, under the same premises.
#[tactic(auto, using(crate::proofs::Turns::first_is_told))]
pub fn first_is_told()
    ensures { FirstIsTold }
{}
