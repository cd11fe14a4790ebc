//! The plain program: what each queue is owed, by all that happened.
use super::answers::{
    CID_CONFLICT, INVALID_FIELD, INVALID_HOST, INVALID_LOG_PAGE, INVALID_NAMESPACE,
    INVALID_PARAMETERS, NOT_SAVEABLE, REQUEST_LIMIT, SEQUENCE_ERROR, SGL_LENGTH_INVALID,
    SGL_TYPE_INVALID, SUCCESS, data, ic_resp, response, too_many,
};
use super::identify::structure_of;
use super::layout::{Change, KINDS, Kind, QUEUES, Sight, place_of};
use super::pages::{ANA, CHANGED, DISCOVERY, page_of};
use super::past::{Happened, Past, result_of};
use super::pdus::{Command, Read, sqsize_of};
use super::queues::{CLOSED, Queue, Seen, Stage};
use std::alloc::{AllocError, Global};

/// What is known of the hosts and their queues.
#[derive(Drop)]
pub struct Hosts {
    alloc: Global,
    /// All that happened to them.
    pub past: Past,
    queues: [Queue; QUEUES],
    /// What was seen.
    pub seen: Seen,
    /// What the latest event owes one queue.
    pub owed: Vec<u8>,
}

impl Hosts {
    /// No queue is open, and so much was seen before.
    pub fn new(alloc: Global, seen: Seen) -> Hosts {
        Hosts {
            alloc,
            past: Past::new(alloc),
            queues: [CLOSED; QUEUES],
            seen,
            owed: Vec::new(alloc),
        }
    }

    /// A queue, as far as it is.
    pub fn queue(&self, queue: usize) -> Queue {
        self.queues[queue % QUEUES]
    }

    /// Whether a controller takes commands.
    pub fn is_ready(&self, queue: usize) -> bool {
        let it = self.queue(queue);
        it.is_enabled && !it.is_shut
    }

    /// Whether as many requests wait as the queue may have commands.
    pub fn is_full(&self, queue: usize) -> bool {
        self.past.how_many_wait(queue) >= usize::from(sqsize_of(queue))
    }

    /// An edit is made; its place in all that happened.
    pub fn make(&mut self, change: Change) -> Result<usize, AllocError> {
        self.see(change);
        let place = self.past.len();
        self.past.hear_edit(change)?;
        let is_apart = self.past.changes_sight(0, place) != self.past.changes_sight(1, place);
        count(&mut self.seen.apart, is_apart);
        Ok(place)
    }

    // Sees an edit that is to be made.
    fn see(&mut self, change: Change) {
        let layout = self.past.layout();
        match change {
            Change::Delete(at) => {
                let is_shown = layout.is_shown(at, 0) || layout.is_shown(at, 1);
                count(&mut self.seen.deleted, is_shown);
            }
            Change::See(Sight::Show(at, host)) => {
                let was_hidden = self.past.was_hidden(at, host);
                count(&mut self.seen.again, was_hidden);
            }
            Change::Forbid(host) => count(&mut self.seen.forbidden, layout.has_show(host)),
            _ => {}
        }
    }

    /// What the edit at this place owes a queue.
    pub fn tell(&mut self, queue: usize, place: usize) -> Result<(), AllocError> {
        self.owed.clear();
        if self.queue(queue).stage != Stage::Connected {
            Ok(())
        } else if self.is_barred(queue) {
            self.seen.ended = self.seen.ended.saturating_add(1);
            self.leave(queue, Stage::Ended);
            Ok(())
        } else {
            self.complete_by_edit(queue, place)
        }
    }

    /// Whether the host of a controller may not use its subsystem on its port.
    pub fn is_barred(&self, queue: usize) -> bool {
        let at = place_of(queue);
        !at.is_discovery && !self.past.layout().may(at.host, at.port)
    }

    // Whether a controller waits for an event of its namespaces, while the edit at this place changes those of
    // another host alone.
    fn is_left(&self, queue: usize, place: usize) -> bool {
        let changes = [0, 1, 2].map(|host| self.past.changes_sight(host, place));
        let is_apart = !changes[place_of(queue).host % 3] && changes.contains(&true);
        is_apart && self.past.awaits_namespaces(queue)
    }

    fn complete_by_edit(&mut self, queue: usize, place: usize) -> Result<(), AllocError> {
        let is_left = self.is_left(queue, place);
        count(&mut self.seen.left, is_left);
        for kind in KINDS {
            if self.past.becomes_owed(queue, kind, place)
                && let Some(cid) = self.past.oldest(queue)
            {
                self.seen.by_edits = self.seen.by_edits.saturating_add(1);
                self.complete(queue, cid, kind)?;
            }
        }
        Ok(())
    }

    // A request is completed.
    fn complete(&mut self, queue: usize, cid: u16, kind: Kind) -> Result<(), AllocError> {
        self.past.hear(Happened::Told(queue, kind))?;
        self.respond(queue, cid, result_of(kind), SUCCESS)
    }

    // The response counts on its queue, where there is one.
    fn respond(
        &mut self,
        queue: usize,
        cid: u16,
        value: u32,
        status: u16,
    ) -> Result<(), AllocError> {
        let it = &mut self.queues[queue % QUEUES];
        if it.stage == Stage::Connected {
            it.head = next_head(it.head, sqsize_of(queue));
        }
        response(&mut self.owed, cid, it.head, value, status)
    }

    /// A queue is ended, or given up.
    pub fn leave(&mut self, queue: usize, stage: Stage) {
        let Queue { number, .. } = self.queue(queue);
        self.queues[queue % QUEUES] = Queue {
            stage,
            number,
            ..CLOSED
        };
    }

    /// A queue's connection is opened; its number.
    pub fn open(&mut self, queue: usize) -> usize {
        let number = self.least_number();
        self.queues[queue % QUEUES] = Queue {
            stage: Stage::Opened,
            number,
            ..CLOSED
        };
        number
    }

    fn has_number(&self, number: usize) -> bool {
        self.queues
            .iter()
            .any(|it| it.stage != Stage::Closed && it.number == number)
    }

    fn least_number(&self) -> usize {
        (0..64usize)
            .find(|number| !self.has_number(*number))
            .unwrap_or(64)
    }

    fn has_cntlid(&self, cntlid: u16) -> bool {
        self.queues.iter().any(|it| it.cntlid == cntlid)
    }

    fn least_cntlid(&self) -> u16 {
        (1..33u16)
            .find(|cntlid| !self.has_cntlid(*cntlid))
            .unwrap_or(33)
    }

    /// What an ICReq is owed.
    pub fn initialize(&mut self) -> Result<(), AllocError> {
        self.owed.clear();
        ic_resp(&mut self.owed)
    }

    /// What a Connect is owed.
    pub fn admit(&mut self, queue: usize) -> Result<(), AllocError> {
        self.owed.clear();
        match self.refusal(queue) {
            Some((value, status)) => self.respond(queue, 1, value, status),
            None => self.begin(queue),
        }
    }

    // The result and the status of a Connect that is refused.
    fn refusal(&self, queue: usize) -> Option<(u32, u16)> {
        let at = place_of(queue);
        if at.is_discovery {
            None
        } else if !self.past.layout().linked[at.port % 4] {
            Some((0x1_0100, INVALID_PARAMETERS))
        } else if self.is_barred(queue) {
            Some((0, INVALID_HOST))
        } else {
            None
        }
    }

    fn begin(&mut self, queue: usize) -> Result<(), AllocError> {
        let cntlid = self.least_cntlid();
        let Queue { number, .. } = self.queue(queue);
        self.queues[queue % QUEUES] = Queue {
            stage: Stage::Connected,
            number,
            cntlid,
            ..CLOSED
        };
        self.past.hear(Happened::Connected(queue))?;
        self.respond(queue, 1, u32::from(cntlid), SUCCESS)
    }

    /// What a command is owed, which came in this capsule.
    pub fn answer(
        &mut self,
        queue: usize,
        cid: u16,
        command: &Command,
        pdu: &[u8],
    ) -> Result<(), AllocError> {
        self.owed.clear();
        if self.is_full(queue) {
            self.seen.faults = self.seen.faults.saturating_add(1);
            self.leave(queue, Stage::Ended);
            too_many(&mut self.owed, pdu)
        } else if self.past.waits(queue, cid) {
            self.seen.conflicts = self.seen.conflicts.saturating_add(1);
            self.respond(queue, cid, 0, CID_CONFLICT)
        } else {
            self.answer_new(queue, cid, command)
        }
    }

    fn answer_new(&mut self, queue: usize, cid: u16, command: &Command) -> Result<(), AllocError> {
        match command {
            Command::Configure(cc) => self.configure(queue, cid, *cc),
            _ if !self.is_ready(queue) => self.respond(queue, cid, 0, SEQUENCE_ERROR),
            Command::Request => self.answer_request(queue, cid),
            Command::Read(read) => self.answer_read(queue, cid, read),
            Command::Identify(cns, nsid) => self.answer_identify(queue, cid, *cns, *nsid),
            Command::SetEvents(_, true) => self.respond(queue, cid, 0, NOT_SAVEABLE),
            Command::SetEvents(mask, false) => self.set_events(queue, cid, *mask),
            Command::GetEvents => {
                let mask = self.past.mask(queue);
                self.respond(queue, cid, mask, SUCCESS)
            }
            Command::KeepAlive => self.respond(queue, cid, 0, SUCCESS),
        }
    }

    // A Property Set of CC.
    fn configure(&mut self, queue: usize, cid: u16, cc: u32) -> Result<(), AllocError> {
        let was = self.queue(queue);
        let is = with_cc(was, cc);
        self.queues[queue % QUEUES] = is;
        if is.is_enabled && !was.is_enabled {
            self.past.hear(Happened::Enabled(queue))?;
        } else if was.is_enabled && !is.is_enabled {
            self.past.hear(Happened::Reset(queue))?;
        }
        self.respond(queue, cid, 0, SUCCESS)
    }

    fn set_events(&mut self, queue: usize, cid: u16, mask: u32) -> Result<(), AllocError> {
        self.past.hear(Happened::Configured(queue, mask))?;
        self.respond(queue, cid, 0, SUCCESS)
    }

    fn answer_request(&mut self, queue: usize, cid: u16) -> Result<(), AllocError> {
        if self.past.how_many_wait(queue) >= 4 {
            self.seen.exceeded = self.seen.exceeded.saturating_add(1);
            return self.respond(queue, cid, 0, REQUEST_LIMIT);
        }
        let pending = self.past.pending(queue);
        self.past.hear(Happened::Requested(queue, cid))?;
        match pending {
            Some(kind) => {
                self.seen.by_requests = self.seen.by_requests.saturating_add(1);
                self.complete(queue, cid, kind)
            }
            None => Ok(()),
        }
    }

    fn answer_identify(
        &mut self,
        queue: usize,
        cid: u16,
        cns: u8,
        nsid: u32,
    ) -> Result<(), AllocError> {
        if place_of(queue).is_discovery {
            return self.respond(queue, cid, 0, INVALID_FIELD);
        }
        self.see_answer(queue);
        match structure_of(self.alloc, &self.past.seen(queue), cns, nsid)? {
            Some(structure) => {
                data(&mut self.owed, cid, &structure, 0, 4_096)?;
                self.respond(queue, cid, 0, SUCCESS)
            }
            None => self.respond(queue, cid, 0, INVALID_NAMESPACE),
        }
    }

    // Sees an answer of what a host sees.
    fn see_answer(&mut self, queue: usize) {
        let is_partial = self.past.seen(queue).count() < self.past.layout().count();
        count(&mut self.seen.partial, is_partial);
    }

    fn answer_read(&mut self, queue: usize, cid: u16, read: &Read) -> Result<(), AllocError> {
        match kind_of(queue, read.lid) {
            Some(kind) => self.answer_page(queue, cid, read, kind),
            None => self.respond(queue, cid, 0, INVALID_LOG_PAGE),
        }
    }

    fn answer_page(
        &mut self,
        queue: usize,
        cid: u16,
        read: &Read,
        kind: Kind,
    ) -> Result<(), AllocError> {
        let page = page_of(self.alloc, &self.past, queue, read.lid, read.groups_only)?;
        self.answer_part(queue, cid, read, kind, &page)
    }

    fn answer_part(
        &mut self,
        queue: usize,
        cid: u16,
        read: &Read,
        kind: Kind,
        page: &[u8],
    ) -> Result<(), AllocError> {
        let status = read_status(read, page.len());
        if status == SUCCESS {
            data(
                &mut self.owed,
                cid,
                page,
                usize::from(read.offset),
                read.len,
            )?;
            let empties = read.offset == 0 && read.len >= 4096;
            self.past
                .hear(Happened::Read(queue, kind, read.retains, empties))?;
            let has_some = kind == Kind::Namespace && !page.starts_with(&[0; 4]);
            self.seen.read(empties && has_some && read.retains);
            if kind == Kind::Namespace {
                self.seen.list(page);
            }
            if kind != Kind::Discovery {
                self.see_answer(queue);
            }
        }
        self.respond(queue, cid, 0, status)
    }
}

fn count(number: &mut usize, counts: bool) {
    *number = number.saturating_add(usize::from(counts));
}

// What comes after a head, with SQSIZE.
fn next_head(head: u8, sqsize: u8) -> u8 {
    if head >= sqsize {
        0
    } else {
        head.saturating_add(1)
    }
}

// A controller of which CC is set. Only one that is enabled or reset anew is no longer shut down.
fn with_cc(was: Queue, cc: u32) -> Queue {
    let is_enabled = cc % 2 == 1;
    let stays_shut = was.is_shut && was.is_enabled == is_enabled;
    Queue {
        is_enabled,
        is_shut: stays_shut || cc / 0x4000 % 4 != 0,
        ..was
    }
}

// The kind that a log page of a controller tells of, if the controller has the page.
fn kind_of(queue: usize, lid: u8) -> Option<Kind> {
    match (lid, place_of(queue).is_discovery) {
        (CHANGED, false) => Some(Kind::Namespace),
        (ANA, false) => Some(Kind::Ana),
        (DISCOVERY, true) => Some(Kind::Discovery),
        _ => None,
    }
}

fn read_status(read: &Read, page: usize) -> u16 {
    if read.len > 131_072 || read.offset % 4 != 0 || usize::from(read.offset) > page {
        INVALID_FIELD
    } else if read.sgl_type != 0x5A {
        SGL_TYPE_INVALID
    } else if read.more != 0 {
        SGL_LENGTH_INVALID
    } else {
        SUCCESS
    }
}
