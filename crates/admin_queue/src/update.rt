//! What a controller's own host does to what it is told.
use event_queue::EventKind;

/// What a command of a controller's own host does to what the host is told. The command succeeded.
#[derive(Clone, Copy, PartialEq, Eq)]
pub enum NoticeUpdate {
    /// An Asynchronous Event Request of this command identifier was taken (Base 2.0, section 5.2).
    Requested {
        cid: u16,
    },
    /// The log page that the kind tells of was read (Base 2.0, section 5.16).
    Read {
        kind: EventKind,
        /// RAE (Retain Asynchronous Event).
        retain: bool,
        /// Whether it was the Changed Namespace List and all 4,096 bytes of it were read, from offset
        /// 0 on (`change_lists::empties`). Of another log page it says nothing.
        whole: bool,
    },
    /// Asynchronous Event Configuration was set to this (Base 2.0, section 5.27.1.8).
    Configured {
        mask: u32,
    },
}
