//! The Asymmetric Namespace Access log page of each controller (Base 2.0, section 5.16.1.13): which ANA
//! groups a configuration shows to a host by the controllers of a subsystem on a port, in which states,
//! how often edits changed that, for each controller, and the page's bytes from any offset. It knows no
//! connection and no command.
#![tactic(auto)]

mod bodies;
pub mod counts;
pub mod group_changes;
pub mod group_list;
mod groups;
pub mod laws;
mod page;
pub mod plan;
mod state;
mod subsystem;
pub mod view;

pub use counts::AnaCounts;
pub use group_changes::GroupChanges;
pub use group_list::AnaGroup;
pub use plan::Plan;
pub use view::AnaView;
