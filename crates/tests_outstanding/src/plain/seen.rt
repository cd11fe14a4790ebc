//! What was seen of commands whose data were asked for.
use crate::plain::blocks::{
    ANA_CHANGE, ANA_INACCESSIBLE, ANA_LOSS, COMPARE_FAILURE, INVALID_NAMESPACE, OUT_OF_RANGE,
    SGL_LENGTH_INVALID, SUCCESS,
};

/// How often each thing was seen.
#[derive(Clone, Copy)]
pub struct Seen {
    /// The most that one queue had at once, and the most of all queues together.
    pub most_of_queue: usize,
    pub most_of_all: usize,
    /// Those that were done, and the Compares that found a difference.
    pub done: usize,
    pub differed: usize,
    /// Those that the second check refused, for each of its reasons: no namespace, no access, too few blocks,
    /// and blocks that had become longer or shorter.
    pub no_namespace: usize,
    pub no_access: usize,
    pub out_of_range: usize,
    pub longer: usize,
    pub shorter: usize,
    /// Those that were dropped with their connection, and the connections that ended by a fault.
    pub dropped: usize,
    pub faults: usize,
}

/// Nothing yet.
pub const NOTHING_SEEN: Seen = Seen {
    most_of_queue: 0,
    most_of_all: 0,
    done: 0,
    differed: 0,
    no_namespace: 0,
    no_access: 0,
    out_of_range: 0,
    longer: 0,
    shorter: 0,
    dropped: 0,
    faults: 0,
};

impl Seen {
    /// Counts the status of a command whose data came, and whether its blocks were shorter then.
    pub(crate) fn count(&mut self, status: u16, is_shorter: bool) {
        let count = match status {
            SUCCESS => &mut self.done,
            COMPARE_FAILURE => &mut self.differed,
            INVALID_NAMESPACE => &mut self.no_namespace,
            ANA_CHANGE | ANA_INACCESSIBLE | ANA_LOSS => &mut self.no_access,
            OUT_OF_RANGE => &mut self.out_of_range,
            SGL_LENGTH_INVALID if is_shorter => &mut self.shorter,
            SGL_LENGTH_INVALID => &mut self.longer,
            _ => return,
        };
        *count = count.saturating_add(1);
    }
}
