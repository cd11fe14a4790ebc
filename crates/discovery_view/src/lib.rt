//! The discovery log page of each host: which records a configuration shows to a host, how often
//! edits changed them, and the page's bytes from any offset. It knows no connection and no command.
#![tactic(auto)]

mod allowed;
mod catalog;
mod entry;
mod finding;
mod formed;
pub mod former;
mod kept;
pub mod laws;
mod lists;
mod open;
mod order;
mod page;
mod reach;
mod ready;
mod record;
mod rows_plan;
mod shown;
mod splice;
mod table;
pub mod view;

pub use entry::Entry as Parts;
pub use former::{FormedRecord, Former, RecordFormer};
pub use view::{DiscoveryView, Plan};
