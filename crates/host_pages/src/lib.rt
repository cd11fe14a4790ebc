//! Log pages and lists as a host reads them, lent from the bytes that it was sent: the discovery log
//! page by its records, the Asymmetric Namespace Access log page by its groups, and the lists of
//! namespace identifiers. Bytes that are shorter than what they count are no page. `Discover` says what a host has to
//! read of a discovery log page as of one moment: its header, its records, and its header again; a page that changed
//! meanwhile is tried anew. Nothing here takes memory, asks a target for a page, or knows of a queue.
#![tactic(auto)]

pub mod ana_log;
pub mod bad_page;
mod discover;
pub mod discovery_laws;
pub mod discovery_page;
mod fault;
mod get_log;
pub mod group;
pub mod laws;
pub mod ns_list;
pub mod nsids;
mod progress;
pub mod record;
mod verdict;

pub use ana_log::{AnaLog, Groups};
pub use bad_page::BadPage;
pub use discover::Discover;
pub use discovery_page::{DiscoveryPage, Records};
pub use fault::DiscoverFault;
pub use get_log::GetLog;
pub use group::AnaGroup;
pub use ns_list::{ListedNsids, NsList};
pub use nsids::Nsids;
pub use progress::Progress;
pub use record::DiscoveryRecord;
