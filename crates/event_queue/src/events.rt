//! The events of one controller.
ghost use Rattle.std.specs.Prelude.{◌≡◌, drop};
ghost use Rattle.event_queue.specs.Events.{bit_where, first_of};

use crate::changes::ViewChanges;
use crate::completing::Completing;
use crate::completion::Completion;
use crate::kind::EventKind;
use crate::notice::{KindState, Notice};
use arrayvec::ArrayVec;
use std::marker::Model;
use thiserror::Error;

// How many requests may wait.
const WAITING_MAX: usize = 4;

/// As many event requests wait as may.
#[derive(Clone, Copy, Debug, PartialEq, Eq, Error)]
#[error("asynchronous event request limit exceeded")]
pub struct LimitExceeded;

/// The event requests of one controller that wait, and what its host is to be told.
#[derive(Drop)]
pub struct Events {
    // Command identifiers, the oldest first.
    waiting: ArrayVec<u16, WAITING_MAX>,
    namespace: KindState,
    ana: KindState,
    discovery: KindState,
}

impl Model for Events {
    ghost use Rattle.event_queue.specs.Events.{EventState};

    ghost Value = { EventState };

    ghost view = { λ e. record {
      waiting = e.waiting.items;
      namespace = e.namespace;
      ana = e.ana;
      discovery = e.discovery;
    } };
}

impl Events {
    ghost use Rattle.std.specs.Prelude.{◌≤◌, None, if◌then◌else◌, length, nat_eq};
    ghost use Rattle.std.specs.List.{list_any};
    ghost use Rattle.event_queue.specs.Changes.{counts_for};
    ghost use Rattle.event_queue.specs.Events.{after_edit, after_read, change_answer, changed};
    ghost use Rattle.event_queue.specs.Events.{configured, edit_answers, events_at_connect};
    ghost use Rattle.event_queue.specs.Events.{first_pending, kind_in, mask_in};
    ghost use Rattle.event_queue.specs.Events.{request_answer, requested, with_notice_of};

    /// The events of a controller that a Connect has just made: no request waits, no kind is enabled,
    /// and nothing is to be told.
    pub fn new() -> Events
        ensures { result ≡ events_at_connect }
    {
        Events {
            waiting: ArrayVec::new(),
            namespace: OFF,
            ana: OFF,
            discovery: OFF,
        }
    }

    /// Takes an Asynchronous Event Request (Base 2.0, section 5.2). The first kind that is pending
    /// completes it at once and is reported; where none is, the request waits. Fails where 4 wait
    /// already, whatever is pending; nothing changes then.
    pub fn request(&mut self, cid: u16) -> Result<Option<Completion>, LimitExceeded>
        ensures result { result ≡ request_answer self.old cid }
        ensures after { self.new ≡ requested self.old cid }
    {
        let answer = self.answer_to(cid)?;
        match self.first_pending() {
            Some(kind) => self.set_notice(kind, Notice::Reported),
            None => self.waiting.push(cid),
        }
        Ok(answer)
    }

    /// What a request of this command identifier would be answered now (`request`). Nothing changes.
    pub fn answer_to(&self, cid: u16) -> Result<Option<Completion>, LimitExceeded>
        ensures { result ≡ request_answer self.now cid }
    {
        if self.waiting.is_full() {
            return Err(LimitExceeded);
        }
        Ok(match self.first_pending() {
            Some(kind) => Some(Completion::new(cid, kind)),
            None => None,
        })
    }

    /// How many requests wait: at most 4.
    pub fn waiting(&self) -> usize
        ensures value { result ≡ length self.now.waiting }
        ensures bound { result ≤ 4 }
    {
        self.waiting.len()
    }

    /// Whether a request of this command identifier waits.
    pub fn waits(&self, cid: u16) -> bool
        ensures { result ≡ list_any (nat_eq cid) self.now.waiting }
    {
        self.waiting.contains(&cid)
    }

    /// What this kind tells has changed, by an edit that is an event for it (`counts`). A kind that is
    /// enabled and quiet completes the oldest request and is reported; where none waits, it is
    /// pending. A kind that is not enabled, or not quiet, stays as it is.
    pub fn arise(&mut self, kind: EventKind) -> Option<Completion>
        ensures result { result ≡ change_answer self.old kind }
        ensures after { self.new ≡ changed self.old kind }
    {
        let state = self.state(kind);
        if !state.enabled || state.notice != Notice::Quiet {
            return None;
        }
        match take_first(&mut self.waiting) {
            Some(cid) => {
                self.set_notice(kind, Notice::Reported);
                Some(Completion::new(cid, kind))
            }
            None => {
                self.set_notice(kind, Notice::Pending);
                None
            }
        }
    }

    /// Whether an edit that changes these views is an event for the kind: it changes the kind's view
    /// while the kind is enabled. The kind of Asymmetric Namespace Access leaves what the namespaces'
    /// kind tells to that, where it is enabled: one change is one event.
    pub fn counts(&self, kind: EventKind, changes: ViewChanges) -> bool
        ensures { result ≡ counts_for (λ other. (kind_in self.now other).enabled) changes kind }
    {
        let by_namespace = changes.namespace && self.namespace.enabled;
        match kind {
            EventKind::Namespace => by_namespace,
            EventKind::Ana => changes.ana && self.ana.enabled && !by_namespace,
            EventKind::Discovery => changes.discovery && self.discovery.enabled,
        }
    }

    /// An edit has changed these views. Each kind for which that is an event (`counts`) arises
    /// (`arise`), in the order of `EventKind::ALL`. Answers the completions to send, in that order.
    pub fn edited(&mut self, changes: ViewChanges) -> Completing
        ensures result { result ≡ edit_answers self.old changes }
        ensures after { self.new ≡ after_edit self.old changes }
    {
        // One kind's event enables no other kind, so each is asked for before the first arises.
        let namespace = self.counts(EventKind::Namespace, changes);
        let ana = self.counts(EventKind::Ana, changes);
        let discovery = self.counts(EventKind::Discovery, changes);
        let by_namespace = self.arise_where(namespace, EventKind::Namespace);
        let by_ana = self.arise_where(ana, EventKind::Ana);
        let by_discovery = self.arise_where(discovery, EventKind::Discovery);
        Completing::of(by_namespace, by_ana, by_discovery)
    }

    /// The kind's log page was read, with this value of RAE (Retain Asynchronous Event: Base 2.0,
    /// section 5.16): any part of it with RAE 0 makes the kind quiet, and with RAE 1 none does.
    pub fn read(&mut self, kind: EventKind, rae: bool)
        ensures { self.new ≡ after_read self.old kind rae }
    {
        if !rae {
            self.set_notice(kind, Notice::Quiet);
        }
    }

    /// Sets Asynchronous Event Configuration (Base 2.0, section 5.27.1.8): which kinds are enabled, by
    /// bits 8, 11 and 31. The other bits are dropped. What is pending or reported stays so.
    pub fn configure(&mut self, mask: u32)
        ensures { self.new ≡ configured self.old mask }
    {
        self.namespace.enabled = EventKind::Namespace.is_in(mask);
        self.ana.enabled = EventKind::Ana.is_in(mask);
        self.discovery.enabled = EventKind::Discovery.is_in(mask);
    }

    /// Asynchronous Event Configuration: the bits of the kinds that are enabled.
    pub fn mask(&self) -> u32
        ensures { result ≡ mask_in self.now }
    {
        bit_where(self.namespace, EventKind::Namespace)
            + bit_where(self.ana, EventKind::Ana)
            + bit_where(self.discovery, EventKind::Discovery)
    }

    /// Drops the requests that wait, and makes each kind quiet and not enabled, as at a Connect.
    pub fn reset(&mut self)
        ensures { self.new ≡ events_at_connect }
    {
        *self = Events::new();
    }

    // The kind arises, where that is so.
    fn arise_where(&mut self, arises: bool, kind: EventKind) -> Option<Completion>
        ensures result { result ≡ (if arises then change_answer self.old kind else None) }
        ensures after { self.new ≡ (if arises then changed self.old kind else self.old) }
    {
        if arises { self.arise(kind) } else { None }
    }

    // The first kind that is pending.
    fn first_pending(&self) -> Option<EventKind>
        ensures { result ≡ first_pending self.now }
    {
        if self.namespace.notice == Notice::Pending {
            Some(EventKind::Namespace)
        } else if self.ana.notice == Notice::Pending {
            Some(EventKind::Ana)
        } else if self.discovery.notice == Notice::Pending {
            Some(EventKind::Discovery)
        } else {
            None
        }
    }

    fn state(&self, kind: EventKind) -> KindState
        ensures { result ≡ kind_in self.now kind }
    {
        match kind {
            EventKind::Namespace => self.namespace,
            EventKind::Ana => self.ana,
            EventKind::Discovery => self.discovery,
        }
    }

    fn set_notice(&mut self, kind: EventKind, notice: Notice)
        ensures { self.new ≡ with_notice_of kind notice self.old }
    {
        match kind {
            EventKind::Namespace => self.namespace.notice = notice,
            EventKind::Ana => self.ana.notice = notice,
            EventKind::Discovery => self.discovery.notice = notice,
        }
    }
}

const OFF: KindState = KindState {
    enabled: false,
    notice: Notice::Quiet,
};

// The kind's bit, where it is enabled.
fn bit_where(state: KindState, kind: EventKind) -> u32
    ensures { result ≡ bit_where state.enabled kind }
{
    if state.enabled { kind.bit() } else { 0 }
}

// Takes the oldest of these requests.
fn take_first(waiting: &mut ArrayVec<u16, WAITING_MAX>) -> Option<u16>
    ensures first { result ≡ first_of waiting.old.items }
    ensures rest { waiting.new.items ≡ drop 1 waiting.old.items }
{
    if waiting.is_empty() {
        None
    } else {
        Some(waiting.remove(0))
    }
}
