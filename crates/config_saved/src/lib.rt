//! The saved configuration: the edits which, applied one after another to a new configuration of the
//! same disks, are each accepted and give an equal one, and their lines.
#![tactic(auto)]

mod edits_left;
mod item_edits;
mod items_over;
pub mod laws;
pub mod saved_edits;
mod saved_list;
pub mod saved_reply;
pub mod saved_text;
pub mod write;

pub use laws::{saved_is_equal, saved_text_is_read_back};
pub use saved_edits::SavedEdits;
pub use saved_reply::{SavedReply, is_show};
pub use saved_text::{PieceEnd, SavedText};
pub use write::{SaveFault, write_saved};
