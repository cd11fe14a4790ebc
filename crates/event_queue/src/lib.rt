//! The asynchronous events of one controller (Base 2.0, section 5.2): which requests of its host wait,
//! which kinds of events the host wants to be told, and how far it was told of each. It knows no
//! connection, no log page and no edit: its caller says what happened, and sends what completes.
#![tactic(auto)]

pub mod changes;
pub mod completing;
pub mod completion;
pub mod events;
pub mod kind;
pub mod laws;
pub mod notice;

pub use changes::ViewChanges;
pub use completing::Completing;
pub use completion::Completion;
pub use events::{Events, LimitExceeded};
pub use kind::EventKind;
pub use laws::{
    edits_are_told, one_change_is_one_event, told_as_it_happened, told_once_to_the_oldest,
};
