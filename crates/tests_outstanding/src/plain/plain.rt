//! A plain program for a target: queues, controllers and commands that wait for data, in lists that are looked
//! through, and what is owed to each PDU.
use crate::plain::answers::{Fault, data, ic_resp, ready, response, term_req};
use crate::plain::blocks::{
    Begun, CID_CONFLICT, Range, SEQUENCE_ERROR, SUCCESS, act, begin, finish, lay_zeros, len_now,
};
use crate::plain::bytes::{byte_at, half_at, part, word_at};
use crate::plain::changes::{AT_FIRST, Change, Layout};
use crate::plain::pdus::{Command, READ, command_in};
use crate::plain::places::{CONTROLLERS, QUEUES, place_of, qid_of, sqsize_of};
use crate::plain::seen::Seen;
use std::alloc::{AllocError, Global};

// How far a connection is.
#[derive(Clone, Copy)]
enum Stage {
    Closed,
    Opened,
    Initialized,
    Connected,
    // The target ended it, and it is not given up yet.
    Ended,
}

// A queue, or the connection that is to become it.
#[derive(Clone, Copy)]
struct Queue {
    number: usize,
    stage: Stage,
    // How many responses it was sent since its Connect.
    responses: u16,
}

/// A controller: its identifier, or 0 where there is none, and its properties.
#[derive(Clone, Copy)]
pub struct Controller {
    pub cntlid: u16,
    pub is_enabled: bool,
    pub is_shut: bool,
}

/// A command whose data the host was asked for, and the data that came.
#[derive(Drop)]
pub struct Transfer {
    pub queue: usize,
    pub ttag: u16,
    pub command: Command,
    pub bytes: Vec<u8>,
}

/// All that the plain program knows.
#[derive(Drop)]
pub struct Plain {
    alloc: Global,
    pub layout: Layout,
    queues: [Queue; 12],
    controllers: [Controller; 4],
    pub transfers: Vec<Transfer>,
    pub disks: Vec<u8>,
    /// What is owed to the PDU that was taken last.
    pub owed: Vec<u8>,
    pub seen: Seen,
}

const NO_QUEUE: Queue = Queue {
    number: 0,
    stage: Stage::Closed,
    responses: 0,
};

const NO_CONTROLLER: Controller = Controller {
    cntlid: 0,
    is_enabled: false,
    is_shut: false,
};

impl Plain {
    /// Three ports and three hosts are there, and disks of zeros once they are laid.
    pub fn new(alloc: Global, seen: Seen) -> Plain {
        Plain {
            alloc,
            layout: AT_FIRST,
            queues: [NO_QUEUE; 12],
            controllers: [NO_CONTROLLER; 4],
            transfers: Vec::new(alloc),
            disks: Vec::new(alloc),
            owed: Vec::new(alloc),
            seen,
        }
    }

    /// Lays the disks.
    pub fn lay_disks(&mut self) -> Result<(), AllocError> {
        lay_zeros(&mut self.disks)
    }

    /// The number of a queue's connection.
    pub fn number(&self, queue: usize) -> usize {
        self.queues[queue % 12].number
    }

    // How far a queue is.
    fn stage(&self, queue: usize) -> Stage {
        self.queues[queue % 12].stage
    }

    /// Whether a connection is a queue.
    pub fn is_connected(&self, queue: usize) -> bool {
        matches!(self.stage(queue), Stage::Connected)
    }

    /// Whether the target ended a connection, which is not given up yet.
    pub fn is_ended(&self, queue: usize) -> bool {
        matches!(self.stage(queue), Stage::Ended)
    }

    /// Whether there is no connection.
    pub fn is_closed(&self, queue: usize) -> bool {
        matches!(self.stage(queue), Stage::Closed)
    }

    fn set_stage(&mut self, queue: usize, stage: Stage) {
        self.queues[queue % 12].stage = stage;
    }

    /// The controller of a queue.
    pub fn controller(&self, queue: usize) -> Controller {
        self.controllers[queue / 3 % 4]
    }

    /// Whether a controller takes commands.
    pub fn is_ready(&self, queue: usize) -> bool {
        let controller = self.controller(queue);
        controller.is_enabled && !controller.is_shut
    }

    /// How many commands of a queue wait for data.
    pub fn outstanding(&self, queue: usize) -> usize {
        let mut count = 0usize;
        for transfer in &self.transfers {
            count = count.saturating_add(usize::from(transfer.queue == queue));
        }
        count
    }

    /// The queue of the command at this place of those that wait.
    pub fn waits_on(&self, place: usize) -> Option<usize> {
        match self.transfers.get(place) {
            Some(transfer) => Some(transfer.queue),
            None => None,
        }
    }

    /// Whether no more commands of a queue may wait.
    pub fn is_full(&self, queue: usize) -> bool {
        self.outstanding(queue) >= usize::from(sqsize_of(queue))
    }

    // The place in the list of what waits under a tag.
    fn tagged(&self, queue: usize, ttag: u16) -> Option<usize> {
        for (place, transfer) in self.transfers.iter().enumerate() {
            if transfer.queue == queue && transfer.ttag == ttag {
                return Some(place);
            }
        }
        None
    }

    fn has_cid(&self, queue: usize, cid: u16) -> bool {
        self.transfers.iter().any(|transfer| transfer.queue == queue && transfer.command.cid == cid)
    }

    // The least tag that no command of the queue has.
    fn least_tag(&self, queue: usize) -> u16 {
        (0..64u16)
            .find(|ttag| self.tagged(queue, *ttag).is_none())
            .unwrap_or(64)
    }

    fn has_number(&self, number: usize) -> bool {
        (0..QUEUES).any(|queue| !self.is_closed(queue) && self.number(queue) == number)
    }

    // The least number that no connection has.
    fn least_number(&self) -> usize {
        (0..64usize)
            .find(|number| !self.has_number(*number))
            .unwrap_or(64)
    }

    fn has_cntlid(&self, cntlid: u16) -> bool {
        self.controllers
            .iter()
            .any(|controller| controller.cntlid == cntlid)
    }

    // The least identifier that no controller has.
    fn least_cntlid(&self) -> u16 {
        (1..33u16)
            .find(|cntlid| !self.has_cntlid(*cntlid))
            .unwrap_or(33)
    }

    /// A connection opens: its number.
    pub fn open(&mut self, queue: usize) -> usize {
        let number = self.least_number();
        self.queues[queue % 12] = Queue {
            number,
            stage: Stage::Opened,
            responses: 0,
        };
        number
    }

    // The commands of a queue that wait are dropped.
    fn leave(&mut self, queue: usize, stage: Stage) {
        self.set_stage(queue, stage);
        let before = self.transfers.len();
        self.transfers.retain(|transfer| transfer.queue != queue);
        let dropped = before.saturating_sub(self.transfers.len());
        self.seen.dropped = self.seen.dropped.saturating_add(dropped);
    }

    // A connection goes, and its controller with an admin queue.
    fn go(&mut self, queue: usize, stage: Stage) {
        let was_connected = self.is_connected(queue);
        self.leave(queue, stage);
        if was_connected && qid_of(queue) == 0 {
            self.end_io_queues(queue);
            self.controllers[queue / 3 % 4] = NO_CONTROLLER;
        }
    }

    /// A connection is given up.
    pub fn give_up(&mut self, queue: usize) {
        self.go(queue, Stage::Closed);
    }

    // Those of the controller that has this admin queue.
    fn end_io_queues(&mut self, admin: usize) {
        for queue in [admin.saturating_add(1), admin.saturating_add(2)] {
            if self.is_connected(queue) {
                self.leave(queue, Stage::Ended);
            }
        }
    }

    /// Makes an edit that is accepted: the controllers end whose hosts may no longer use the subsystem.
    pub fn edit(&mut self, change: Change) {
        self.layout.make(change);
        for controller in 0..CONTROLLERS {
            let queue = controller % 4 * 3;
            if self.is_connected(queue) && !self.layout.may(queue) {
                self.go(queue, Stage::Ended);
            }
        }
    }

    /// Takes a whole PDU.
    pub fn take(&mut self, queue: usize, pdu: &[u8]) -> Result<(), AllocError> {
        self.owed.clear();
        match byte_at(pdu, 0) {
            0 => {
                self.set_stage(queue, Stage::Initialized);
                ic_resp(&mut self.owed)
            }
            2 => {
                self.go(queue, Stage::Ended);
                Ok(())
            }
            4 => self.take_capsule(queue, pdu),
            _ => self.take_data(queue, pdu),
        }
    }

    fn terminate(
        &mut self,
        queue: usize,
        fault: Fault,
        pdu: &[u8],
        header: u8,
    ) -> Result<(), AllocError> {
        self.go(queue, Stage::Ended);
        self.seen.faults = self.seen.faults.saturating_add(1);
        term_req(&mut self.owed, fault, pdu, header)
    }

    // The response counts on its queue, where there is one: SQHD.
    fn count_response(&mut self, queue: usize) -> u16 {
        if !self.is_connected(queue) {
            return 0;
        }
        let entries = sqsize_of(queue).saturating_add(1).max(1);
        let head = self.queues[queue % 12].responses.saturating_add(1) % entries;
        self.queues[queue % 12].responses = head;
        head
    }

    fn respond(
        &mut self,
        queue: usize,
        cid: u16,
        value: u32,
        status: u16,
    ) -> Result<(), AllocError> {
        let head = self.count_response(queue);
        response(&mut self.owed, cid, head, value, status)
    }

    // A response without a result.
    fn answer(&mut self, queue: usize, cid: u16, status: u16) -> Result<(), AllocError> {
        self.respond(queue, cid, 0, status)
    }

    fn take_capsule(&mut self, queue: usize, pdu: &[u8]) -> Result<(), AllocError> {
        let entry = part(pdu, 8, 64);
        let cid = half_at(entry, 2);
        if self.is_full(queue) {
            self.terminate(queue, TOO_MANY, pdu, 72)
        } else if self.has_cid(queue, cid) {
            self.answer(queue, cid, CID_CONFLICT)
        } else if !self.is_connected(queue) {
            self.connect(queue, half_at(pdu, 72 + 16))
        } else if qid_of(queue) == 0 {
            self.configure(queue, word_at(entry, 48));
            self.answer(queue, cid, SUCCESS)
        } else {
            self.take_command(queue, &command_in(entry), behind_header(pdu))
        }
    }

    // A Connect of CID 1 that its host means well.
    fn connect(&mut self, queue: usize, cntlid: u16) -> Result<(), AllocError> {
        if !self.layout.is_linked(place_of(queue).port) {
            self.respond(queue, 1, 0x1_0100, UNKNOWN_SUBSYSTEM)
        } else if !self.layout.may(queue) {
            self.answer(queue, 1, HOST_REFUSED)
        } else if qid_of(queue) == 0 {
            self.begin_controller(queue)
        } else if self.is_ready(queue) {
            self.set_stage(queue, Stage::Connected);
            self.respond(queue, 1, u32::from(cntlid), SUCCESS)
        } else {
            self.answer(queue, 1, SEQUENCE_ERROR)
        }
    }

    fn begin_controller(&mut self, queue: usize) -> Result<(), AllocError> {
        let cntlid = self.least_cntlid();
        self.controllers[queue / 3 % 4].cntlid = cntlid;
        self.set_stage(queue, Stage::Connected);
        self.respond(queue, 1, u32::from(cntlid), SUCCESS)
    }

    // A Property Set of CC. A reset and an enabling end a shutdown, and SHN other than 0 begins one.
    fn configure(&mut self, queue: usize, cc: u32) {
        let was = self.controller(queue);
        let is_enabled = cc % 2 == 1;
        let stays_shut = was.is_shut && was.is_enabled == is_enabled;
        if was.is_enabled && !is_enabled {
            self.end_io_queues(queue);
        }
        self.controllers[queue / 3 % 4] = Controller {
            is_enabled,
            is_shut: stays_shut || cc / 0x4000 % 4 != 0,
            ..was
        };
    }

    fn take_command(
        &mut self,
        queue: usize,
        command: &Command,
        brought: &[u8],
    ) -> Result<(), AllocError> {
        if !self.is_ready(queue) {
            return self.answer(queue, command.cid, SEQUENCE_ERROR);
        }
        match begin(&self.layout, place_of(queue).port, command, brought.len()) {
            Err(status) => self.answer(queue, command.cid, status),
            Ok(Begun::Asks(len)) => self.ask(queue, command, len),
            Ok(Begun::Acts(range, at)) => {
                self.perform(queue, command, range, part(brought, at, range.len))
            }
        }
    }

    // Asks for the data of a command, and lets it wait.
    fn ask(&mut self, queue: usize, command: &Command, len: u32) -> Result<(), AllocError> {
        let ttag = self.least_tag(queue);
        self.transfers.push(Transfer {
            queue,
            ttag,
            command: *command,
            bytes: Vec::new(self.alloc),
        })?;
        self.seen.most_of_queue = self.seen.most_of_queue.max(self.outstanding(queue));
        self.seen.most_of_all = self.seen.most_of_all.max(self.transfers.len());
        ready(&mut self.owed, command.cid, ttag, len)
    }

    // Does a command to its blocks.
    fn perform(
        &mut self,
        queue: usize,
        command: &Command,
        range: Range,
        brought: &[u8],
    ) -> Result<(), AllocError> {
        if command.opcode == READ {
            let bytes = part(&self.disks, range.at, range.len);
            data(&mut self.owed, command.cid, bytes)?;
        }
        let status = act(&mut self.disks, command.opcode, range, brought);
        self.answer(queue, command.cid, status)
    }

    fn take_data(&mut self, queue: usize, pdu: &[u8]) -> Result<(), AllocError> {
        match self.taken_by(queue, pdu) {
            Err(fault) => self.terminate(queue, fault, pdu, 24),
            Ok(place) => self.bring(place, behind_start(pdu)),
        }
    }

    // The place of the command that an H2CData is for, or what is wrong with it.
    fn taken_by(&self, queue: usize, pdu: &[u8]) -> Result<usize, Fault> {
        let Some(place) = self.tagged(queue, half_at(pdu, 10)) else {
            return Err(NO_TRANSFER);
        };
        match self.transfers.get(place) {
            Some(transfer) => match fault_of(transfer, pdu) {
                Some(fault) => Err(fault),
                None => Ok(place),
            },
            None => Err(NO_TRANSFER),
        }
    }

    // More data of the command at this place come.
    fn bring(&mut self, place: usize, bytes: &[u8]) -> Result<(), AllocError> {
        let Some(transfer) = self.transfers.get_mut(place) else {
            return Ok(());
        };
        transfer.bytes.extend_from_slice(bytes)?;
        if transfer.bytes.len() < transfer.command.sgl_len as usize {
            return Ok(());
        }
        self.finish(place)
    }

    // All data of the command at this place have come.
    fn finish(&mut self, place: usize) -> Result<(), AllocError> {
        let Some(whole) = self.transfers.get(place) else {
            return Ok(());
        };
        let (queue, cid) = (whole.queue, whole.command.cid);
        let port = place_of(queue).port;
        let status = match finish(&self.layout, port, &whole.command, whole.bytes.len()) {
            Ok(range) => act(&mut self.disks, whole.command.opcode, range, &whole.bytes),
            Err(status) => status,
        };
        let is_shorter = len_now(&self.layout, &whole.command) < whole.bytes.len();
        self.seen.count(status, is_shorter);
        self.forget(place);
        self.answer(queue, cid, status)
    }

    fn forget(&mut self, place: usize) {
        if place < self.transfers.len() {
            self.transfers.remove(place);
        }
    }
}

const UNKNOWN_SUBSYSTEM: u16 = 0x8304;

const HOST_REFUSED: u16 = 0x8308;

const TOO_MANY: Fault = Fault {
    status: 2,
    place: 0,
};

const NO_TRANSFER: Fault = Fault {
    status: 1,
    place: 10,
};

// What is wrong with an H2CData for this command.
fn fault_of(transfer: &Transfer, pdu: &[u8]) -> Option<Fault> {
    let offset = word_at(pdu, 12) as usize;
    let datal = word_at(pdu, 16) as usize;
    if half_at(pdu, 8) != transfer.command.cid {
        Some(Fault {
            status: 1,
            place: 8,
        })
    } else if datal != behind_start(pdu).len() {
        Some(Fault {
            status: 1,
            place: 16,
        })
    } else if datal > 16_384 {
        Some(Fault {
            status: 5,
            place: 0,
        })
    } else if !goes_on(transfer, offset, datal) {
        Some(Fault {
            status: 4,
            place: 0,
        })
    } else {
        None
    }
}

// Whether so many bytes from an offset on are the next ones, and were asked for.
fn goes_on(transfer: &Transfer, offset: usize, datal: usize) -> bool {
    let asked = transfer.command.sgl_len as usize;
    offset == transfer.bytes.len() && offset.saturating_add(datal) <= asked
}

// The data of a PDU, which begin at PDO.
fn behind_start(pdu: &[u8]) -> &[u8] {
    pdu.get(usize::from(byte_at(pdu, 3))..).unwrap_or(&[])
}

// The data of a capsule.
fn behind_header(pdu: &[u8]) -> &[u8] {
    if pdu.len() > 72 {
        behind_start(pdu)
    } else {
        &[]
    }
}
