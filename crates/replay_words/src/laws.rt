//! Laws of what is known of connections, in the words of the subject. Each of these functions does
//! nothing: its contract is the law, whatever was heard.
ghost use Rattle.replay_words.specs.Laws.{ConnectionsAreApart, ClosedIsForgotten, SentIsKnown};

/// What is heard or said on one connection, and its end, leave what is known of the others.
#[tactic(auto, using(crate::proofs::Consequences::connections_are_apart))]
pub fn connections_are_apart()
    ensures { ConnectionsAreApart }
{}

/// Nothing is known of a connection that closed: its PDUs are explained without commands.
#[tactic(auto, using(crate::proofs::Consequences::closed_is_forgotten))]
pub fn closed_is_forgotten()
    ensures { ClosedIsForgotten }
{}

/// The command that was sent last is known, however many are outstanding.
#[tactic(auto, using(crate::proofs::Consequences::sent_is_known))]
pub fn sent_is_known()
    ensures { SentIsKnown }
{}
