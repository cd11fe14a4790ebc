//! The configuration of a storage target: its disks, its lists, and the edits that change them. Each
//! edit is answered by one rule, which says the new configuration or why there is none, and what of it an edit
//! reaches. It reads no text of an edit, opens no port and holds no disk.
#![tactic(auto)]

pub mod check;
pub mod config;
pub mod disks;
pub mod fault;
pub mod laws;
pub mod lists;
pub mod permission;
pub mod plan;
pub mod reach;
pub mod seen;
pub mod words;

pub use config::Config;
pub use config_lists::{
    Access, Allow, AnaState, BlockSize, Edit, EditFault, Endpoint, Family, GroupState, Host, Item,
    Link, Namespace, NewNamespace, Port, Show, Subsystem, Text, Value, Visibility,
};
pub use disks::{DISK_UNITS_MAX, DISKS_MAX, are_disks};
pub use fault::NewFault;
pub use lists::Lists;
pub use plan::Plan;
pub use reach::{host_reached, others_stay, subsystem_reached};
pub use seen::Seen;
