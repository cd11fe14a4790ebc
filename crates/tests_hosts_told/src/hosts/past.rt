//! All that happened, the oldest first, and what a look back over it says.
use super::layout::{
    AT_FIRST, Change, KINDS, Kind, Layout, changes_group, changes_groups, changes_namespace,
    changes_sight, changes_view, place_of,
};
use std::alloc::{AllocError, Global};

/// What happened, to the controller of a queue or by an edit.
#[derive(Clone, Copy)]
pub enum Happened {
    /// What was there before it, and what is there after it.
    Edited(Layout, Layout),
    /// Each of 1,024 further namespaces of group 1 came, and each host saw it, and went.
    Swept,
    Connected(usize),
    Reset(usize),
    Enabled(usize),
    /// The new value of Asynchronous Event Configuration.
    Configured(usize, u32),
    /// A read of a kind's log page: whether it retains its event, and whether it empties the list.
    Read(usize, Kind, bool, bool),
    /// A request, by its identifier, that was not refused.
    Requested(usize, u16),
    /// The completion of a kind was sent.
    Told(usize, Kind),
}

/// All that happened.
#[derive(Drop)]
pub struct Past {
    list: Vec<Happened>,
}

// How many edits a sweep has.
const SWEEP_EDITS: u64 = 2_048;

/// The bit of a kind in Asynchronous Event Configuration.
fn bit(kind: Kind) -> u32 {
    match kind {
        Kind::Namespace => 0x100,
        Kind::Ana => 0x800,
        Kind::Discovery => 0x8000_0000,
    }
}

/// The result of a kind's completion.
pub fn result_of(kind: Kind) -> u32 {
    match kind {
        Kind::Namespace => 0x4_0002,
        Kind::Ana => 0xC_0302,
        Kind::Discovery => 0x70_F002,
    }
}

// Whether a controller began anew by what happened.
fn is_reset(happened: &Happened, queue: usize) -> bool {
    match *happened {
        Happened::Connected(it) | Happened::Reset(it) => it == queue,
        _ => false,
    }
}

// Whether a kind's log page was read so that its event is not retained.
fn is_read(happened: &Happened, queue: usize, kind: Kind) -> bool {
    match *happened {
        Happened::Read(it, read, retains, _) => it == queue && read == kind && !retains,
        _ => false,
    }
}

// The kind of which a controller was sent a completion.
fn told_to(happened: &Happened, queue: usize) -> Option<Kind> {
    match *happened {
        Happened::Told(it, kind) if it == queue => Some(kind),
        _ => None,
    }
}

// What a controller's Asynchronous Event Configuration was set to.
fn configured(happened: &Happened, queue: usize) -> Option<u32> {
    match *happened {
        Happened::Configured(it, value) if it == queue => Some(value),
        _ => None,
    }
}

// The identifier of a request of a controller.
fn request_of(happened: &Happened, queue: usize) -> Option<u16> {
    match *happened {
        Happened::Requested(it, cid) if it == queue => Some(cid),
        _ => None,
    }
}

// Whether a list of changed namespaces is emptied by what happened.
fn empties(happened: &Happened, queue: usize) -> bool {
    match *happened {
        Happened::Enabled(it) | Happened::Connected(it) => it == queue,
        Happened::Read(it, kind, _, empties) => it == queue && kind == Kind::Namespace && empties,
        _ => false,
    }
}

// Whether an edit changed a group, or any group, of a controller, as its host sees it.
fn changes_groups_of(old: &Layout, new: &Layout, queue: usize, group: Option<usize>) -> bool {
    let place = place_of(queue);
    let (old, new) = (old.seen_by(place.host), new.seen_by(place.host));
    match group {
        Some(group) => changes_group(&old, &new, place.port, group),
        None => changes_groups(&old, &new, place.port),
    }
}

impl Past {
    /// Nothing happened yet.
    pub fn new(alloc: Global) -> Past {
        Past {
            list: Vec::new(alloc),
        }
    }

    /// This has happened.
    pub fn hear(&mut self, happened: Happened) -> Result<(), AllocError> {
        self.list.push(happened)?;
        Ok(())
    }

    /// An edit is made.
    pub fn hear_edit(&mut self, change: Change) -> Result<(), AllocError> {
        let old = self.layout();
        self.hear(Happened::Edited(old, old.after(change)))
    }

    /// A sweep is made.
    pub fn hear_sweep(&mut self) -> Result<(), AllocError> {
        self.hear(Happened::Swept)
    }

    /// How much happened.
    pub fn len(&self) -> usize {
        self.list.len()
    }

    /// What is there.
    pub fn layout(&self) -> Layout {
        for happened in self.list.iter().rev() {
            if let Happened::Edited(_, new) = happened {
                return *new;
            }
        }
        AT_FIRST
    }

    /// What is there as the host of a controller sees it.
    pub fn seen(&self, queue: usize) -> Layout {
        self.layout().seen_by(place_of(queue).host)
    }

    /// Whether a controller waits for an event of its namespaces: the next change of these is one.
    pub fn awaits_namespaces(&self, queue: usize) -> bool {
        let now = self.list.len();
        !place_of(queue).is_discovery
            && self.oldest(queue).is_some()
            && self.is_enabled(queue, Kind::Namespace, now)
            && !self.is_owed_before(queue, Kind::Namespace, now)
    }

    /// Whether a namespace that is there was hidden from a host.
    pub fn was_hidden(&self, at: usize, host: usize) -> bool {
        let mut was_hidden = false;
        for happened in &self.list {
            if let Happened::Edited(old, new) = happened {
                let stays = old.namespace(at).is_some() && new.namespace(at).is_some();
                let hides = old.is_shown(at, host) && !new.is_shown(at, host);
                was_hidden = stays && (was_hidden || hides);
            }
        }
        was_hidden
    }

    /// Whether what happened at this place changed the namespaces that a host sees.
    pub fn changes_sight(&self, host: usize, place: usize) -> bool {
        match self.list.get(place) {
            Some(Happened::Edited(old, new)) => changes_sight(old, new, host),
            _ => false,
        }
    }

    // What its Asynchronous Event Configuration was before what happened at this place.
    fn mask_before(&self, queue: usize, place: usize) -> u32 {
        let mut mask = 0;
        for happened in self.list.iter().take(place) {
            if is_reset(happened, queue) {
                mask = 0;
            } else if let Some(value) = configured(happened, queue) {
                mask = value & 0x8000_0900;
            }
        }
        mask
    }

    /// What it is.
    pub fn mask(&self, queue: usize) -> u32 {
        self.mask_before(queue, self.list.len())
    }

    // Whether a kind was enabled before what happened at this place.
    fn is_enabled(&self, queue: usize, kind: Kind, place: usize) -> bool {
        self.mask_before(queue, place) & bit(kind) != 0
    }

    // Whether what happened at this place changed what a controller shows of a kind, while that was enabled.
    fn moves(&self, queue: usize, kind: Kind, place: usize) -> bool {
        let changes = match self.list.get(place) {
            Some(Happened::Edited(old, new)) => changes_view(old, new, queue, kind),
            Some(Happened::Swept) => { !place_of(queue).is_discovery && kind != Kind::Discovery }
            _ => false,
        };
        changes && self.is_enabled(queue, kind, place)
    }

    // Whether it is an event of that kind for the controller. One change gives one event.
    fn arises(&self, queue: usize, kind: Kind, place: usize) -> bool {
        let is_told_besides = kind == Kind::Ana && self.moves(queue, Kind::Namespace, place);
        !is_told_besides && self.moves(queue, kind, place)
    }

    // The place behind what last made a kind quiet.
    fn quiet_from(&self, queue: usize, kind: Kind) -> usize {
        let mut from = 0;
        for (place, happened) in self.list.iter().enumerate() {
            if is_reset(happened, queue) || is_read(happened, queue, kind) {
                from = place.saturating_add(1);
            }
        }
        from
    }

    fn is_owed_before(&self, queue: usize, kind: Kind, place: usize) -> bool {
        for place in self.quiet_from(queue, kind)..place {
            if self.arises(queue, kind, place) {
                return true;
            }
        }
        false
    }

    fn is_told(&self, queue: usize, kind: Kind) -> bool {
        for happened in self.list.iter().skip(self.quiet_from(queue, kind)) {
            if told_to(happened, queue) == Some(kind) {
                return true;
            }
        }
        false
    }

    // The place behind the latest Connect or reset of a controller.
    fn reset_from(&self, queue: usize) -> usize {
        let mut from = 0;
        for (place, happened) in self.list.iter().enumerate() {
            if is_reset(happened, queue) {
                from = place.saturating_add(1);
            }
        }
        from
    }

    // How many completions were sent to a controller from a place on.
    fn told_from(&self, queue: usize, from: usize) -> usize {
        let mut told = 0usize;
        for happened in self.list.iter().skip(from) {
            told = told.saturating_add(usize::from(told_to(happened, queue).is_some()));
        }
        told
    }

    // The place from which on each request of a controller waits: each completion was of the oldest.
    fn waiting_from(&self, queue: usize) -> usize {
        let mut from = self.reset_from(queue);
        let mut told = self.told_from(queue, from);
        for (place, happened) in self.list.iter().enumerate().skip(from) {
            if told > 0 && request_of(happened, queue).is_some() {
                told = told.saturating_sub(1);
                from = place.saturating_add(1);
            }
        }
        from
    }

    /// How many requests wait.
    pub fn how_many_wait(&self, queue: usize) -> usize {
        let mut count = 0usize;
        for happened in self.list.iter().skip(self.waiting_from(queue)) {
            count = count.saturating_add(usize::from(request_of(happened, queue).is_some()));
        }
        count
    }

    /// The oldest request that waits.
    pub fn oldest(&self, queue: usize) -> Option<u16> {
        for happened in self.list.iter().skip(self.waiting_from(queue)) {
            if let Some(cid) = request_of(happened, queue) {
                return Some(cid);
            }
        }
        None
    }

    /// Whether a request of this identifier waits.
    pub fn waits(&self, queue: usize, cid: u16) -> bool {
        for happened in self.list.iter().skip(self.waiting_from(queue)) {
            if request_of(happened, queue) == Some(cid) {
                return true;
            }
        }
        false
    }

    /// Whether the edit at this place, which nothing but completions came after, completes a request of a
    /// controller, if one waits: it is the first by which its kind is owed.
    pub fn becomes_owed(&self, queue: usize, kind: Kind, place: usize) -> bool {
        self.arises(queue, kind, place) && !self.is_owed_before(queue, kind, place)
    }

    /// The kind that completes a new request at once.
    pub fn pending(&self, queue: usize) -> Option<Kind> {
        let now = self.list.len();
        for kind in KINDS {
            if self.is_owed_before(queue, kind, now) && !self.is_told(queue, kind) {
                return Some(kind);
            }
        }
        None
    }

    /// Whether a namespace changed, as its host sees it, since the list of a controller was emptied.
    pub fn has_changed(&self, queue: usize, at: usize) -> bool {
        let host = place_of(queue).host;
        let mut changed = false;
        for happened in &self.list {
            if let Happened::Edited(old, new) = happened {
                changed = changed || changes_namespace(&old.seen_by(host), &new.seen_by(host), at);
            }
            changed = changed && !empties(happened, queue);
        }
        changed
    }

    /// Whether a sweep was made since the list of a controller was emptied.
    pub fn has_swept(&self, queue: usize) -> bool {
        let mut swept = false;
        for happened in &self.list {
            swept = swept || matches!(happened, Happened::Swept);
            swept = swept && !empties(happened, queue);
        }
        swept
    }

    /// How many edits changed a group, or any group, of a controller, as its host sees it, since it was enabled.
    pub fn changes(&self, queue: usize, group: Option<usize>) -> u64 {
        let mut count = 0u64;
        for happened in &self.list {
            match happened {
                Happened::Enabled(it) | Happened::Connected(it) if *it == queue => count = 0,
                Happened::Edited(old, new) => {
                    let is_counted = changes_groups_of(old, new, queue, group);
                    count = count.saturating_add(u64::from(is_counted));
                }
                Happened::Swept if group != Some(2) => count = count.saturating_add(SWEEP_EDITS),
                _ => {}
            }
        }
        count
    }

    /// How many edits changed the records of a host.
    pub fn generation(&self, host: usize) -> u64 {
        let mut count = 0u64;
        for happened in &self.list {
            if let Happened::Edited(old, new) = happened {
                let is_counted = old.records(host) != new.records(host);
                count = count.saturating_add(u64::from(is_counted));
            }
        }
        count
    }
}
