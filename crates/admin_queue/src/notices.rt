//! What the host of one controller is told.
ghost use Rattle.std.specs.Prelude.{◌≡◌, ◌≤◌, ◌+◌, length};
ghost use Rattle.nvt_config.specs.Configuration.{Configuration};
ghost use Rattle.admin_queue.specs.Planned.{Plans};
ghost use Rattle.admin_queue.specs.Viewer.{changes_seen, views_of};

use crate::planned::PlannedEdit;
use crate::update::NoticeUpdate;
use crate::viewer::Viewer;
use ana_view::AnaCounts;
use change_lists::ChangedSet;
use event_queue::{Completing, EventKind, Events, ViewChanges};
use std::marker::Model;

/// What the host of one controller is told of edits: its events, the change counts of its Asymmetric
/// Namespace Access log page, and the namespaces that changed. No call takes memory.
#[derive(Drop)]
pub struct Notices {
    events: Events,
    counts: AnaCounts,
    changed: ChangedSet,
}

impl Model for Notices {
    ghost use Rattle.admin_queue.specs.Notices.{NoticeState};

    ghost Value = { NoticeState };

    ghost view = { λ n. record { events = n.events; counts = n.counts; changed = n.changed } };
}

impl Notices {
    ghost use Rattle.admin_queue.specs.Notices.{enabled, noted, notices_at_connect};
    ghost use Rattle.admin_queue.specs.Notices.{reset, tell_answers, told};
    ghost use Rattle.admin_queue.specs.Update.{updated};

    /// Those of a controller that a Connect has just made: no request waits, no kind of events is
    /// enabled or to be told, each count is 0, and no namespace has changed.
    pub fn new() -> Notices
        ensures { result ≡ notices_at_connect }
    {
        Notices {
            events: Events::new(),
            counts: AnaCounts::new(),
            changed: ChangedSet::new(),
        }
    }

    /// The events.
    pub fn events(&self) -> &Events
        ensures { result.now ≡ self.now.events }
    {
        &self.events
    }

    /// The change counts of the Asymmetric Namespace Access log page.
    pub fn counts(&self) -> &AnaCounts
        ensures { result.now ≡ self.now.counts }
    {
        &self.counts
    }

    /// The namespaces that changed.
    pub fn changed(&self) -> &ChangedSet
        ensures { result.now ≡ self.now.changed }
    {
        &self.changed
    }

    /// Tells an edit that does not end the controller, before its plan is committed. Of an I/O
    /// controller the namespaces that it changes for its host join the set, and what it changes of the
    /// ANA groups is counted; of a discovery controller both stay. Answers the event requests to complete, in
    /// order.
    pub fn tell(&mut self, plan: &PlannedEdit<'_>, viewer: &Viewer<'_>) -> Completing
        ensures result { (old new : Configuration) → Plans old new plan.now
            → result ≡ tell_answers old new (views_of viewer.now) self.old }
        ensures after { (old new : Configuration) → Plans old new plan.now
            → self.new ≡ told old new (views_of viewer.now) self.old }
        ensures answered { length result + length self.new.events.waiting
            ≤ length self.old.events.waiting }
    {
        let changes = self.note(plan, viewer);
        self.events.edited(changes)
    }

    // Notes what an edit changes of what is shown, but for the events; what it changes.
    fn note(&mut self, plan: &PlannedEdit<'_>, viewer: &Viewer<'_>) -> ViewChanges
        ensures changes { (old new : Configuration) → Plans old new plan.now
            → result ≡ changes_seen old new (views_of viewer.now) }
        ensures after { (old new : Configuration) → Plans old new plan.now
            → self.new ≡ noted old new (views_of viewer.now) self.old }
        ensures events { self.new.events ≡ self.old.events }
    {
        match *viewer {
            Viewer::Discovery { host } => ViewChanges {
                namespace: false,
                ana: false,
                discovery: plan.changes_discovery(host),
            },
            Viewer::Io {
                host,
                subsystem,
                port,
            } => ViewChanges {
                namespace: self.changed.note_planned(plan.active(), host, subsystem),
                ana: self.counts.note(plan.ana(), host, subsystem, port),
                discovery: false,
            },
        }
    }

    /// Takes what a command of the controller's own host does. A request beyond the limit changes
    /// nothing; what a request is answered, `events().answer_to` says before it.
    pub fn update(&mut self, update: NoticeUpdate)
        ensures { self.new ≡ updated self.old update }
    {
        match update {
            NoticeUpdate::Requested { cid } => {
                let _ = self.events.request(cid);
            }
            NoticeUpdate::Read {
                kind,
                retain,
                whole,
            } => {
                self.events.read(kind, retain);
                if whole && kind == EventKind::Namespace {
                    self.changed.clear();
                }
            }
            NoticeUpdate::Configured { mask } => self.events.configure(mask),
        }
    }

    /// The controller is reset: the requests that wait are dropped, and each kind of events is quiet
    /// and not enabled. Counts and set stay.
    pub fn reset(&mut self)
        ensures { self.new ≡ reset self.old }
    {
        self.events.reset();
    }

    /// The controller is enabled: each count is 0, and the set is empty. The events stay.
    pub fn enable(&mut self)
        ensures { self.new ≡ enabled self.old }
    {
        self.counts.reset();
        self.changed.clear();
    }
}
