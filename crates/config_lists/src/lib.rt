//! The lists of a storage target's configuration, each by itself: what an item of it is, whether one
//! of a name is there, and how one is set or removed; and the edits that there are, with why one is refused. For those
//! who read a configuration, sets of namespace identifiers and tables by number of what one subsystem has. What holds
//! between the lists, and what an edit makes of them, is `nvt_config`'s; the line of an edit is `config_text`'s.
#![tactic(auto)]

pub mod allow;
pub mod edit;
pub mod fault;
pub mod group_state;
pub mod host;
pub mod link;
pub mod namespace;
pub mod namespaces;
pub mod nsid_set;
mod onlooker;
mod place;
pub mod port;
pub mod show;
pub mod shows;
pub mod states;
pub mod subsystem;
pub mod text;

pub use allow::Allow;
pub use edit::{Edit, Endpoint, NewNamespace};
pub use fault::{EditFault, Item, Value};
pub use group_state::{AnaState, GroupState};
pub use host::Host;
pub use link::Link;
pub use namespace::{BlockSize, Namespace, Setting, Visibility};
pub use namespaces::NamespaceTable;
pub use nsid_set::{NsidSet, Nsids};
pub use port::{Family, Port};
pub use show::Show;
pub use shows::Shows;
pub use states::{GROUP_END, StateTable};
pub use subsystem::{Access, Subsystem};
pub use text::Text;
