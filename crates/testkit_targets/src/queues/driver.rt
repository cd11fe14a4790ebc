//! A target over disks of a test's own, and a host with two controllers, each with one I/O queue.
use crate::TestTarget;
use crate::queues::command::{A, Command, H1, Opcode, SUCCESS, connect, enable, is_reply};
use crate::queues::transfer::h2c_data;
use block_store::Disk;
use nvt_config::Access;
use std::alloc::{AllocError, Global};
use testkit_edits::{Blocks, Line, ic_req};

/// The namespace of 512-byte blocks, all 32 units of disk 0.
pub const SMALL: Blocks = Blocks {
    nsid: 1,
    disk: 0,
    blocks: 32,
    block_size: 512,
    uuid: 0x11,
    group: 1,
};

// What is edited before a namespace is added.
const BASE: &[Line<'static>] = &[
    Line::PortAdd(1, b"127.0.0.1", 4420),
    Line::SubsystemAdd(A, b"SN-A", Access::Closed),
    Line::HostAdd(H1),
    Line::AllowAdd(A, H1),
    Line::LinkAdd(1, A),
];

/// The queues are those of the connections 1 and 3, and the connections 0 and 2 those of their admin
/// queues.
#[derive(Drop)]
pub struct Driver<D: Disk> {
    alloc: Global,
    target: TestTarget<D>,
    // The head that each queue's latest response gave.
    heads: [u8; 2],
}

impl<D: Disk + Drop> Driver<D> {
    /// A target over these disks.
    pub(crate) fn new(alloc: Global, disks: Vec<D>) -> Option<Driver<D>> {
        match TestTarget::over(alloc, disks) {
            Some(target) => Some(Driver {
                alloc,
                target,
                heads: [1; 2],
            }),
            None => None,
        }
    }

    /// Adds these namespaces, and connects; whether each PDU is answered as it has to be.
    pub fn begin(&mut self, namespaces: &[Blocks]) -> bool {
        let mut begins = true;
        for line in BASE {
            begins &= self.target.edits(*line);
        }
        for blocks in namespaces {
            begins &= self.target.edits(Line::NamespaceAdd(A, *blocks));
        }
        begins && self.connects(0, [1, 0]) && self.connects(2, [2, 0])
    }

    // Connects both queues of the controller of this number, the admin queue by the connection `k`.
    fn connects(&mut self, k: usize, controller: [u8; 2]) -> bool {
        let alloc = self.alloc;
        let io = k.saturating_add(1);
        self.is_connected(k, 0, [0xFF; 2], controller)
            && self.takes(k, enable(alloc))
            && self.is_connected(io, 1, controller, controller)
            && self.target.empties(io)
    }

    fn is_connected(&mut self, k: usize, queue: u8, given: [u8; 2], controller: [u8; 2]) -> bool {
        let alloc = self.alloc;
        let mut response = [0u8; 24];
        response[..5].copy_from_slice(&[0x05, 0x00, 0x18, 0x00, 0x18]);
        response[8..10].copy_from_slice(&controller);
        response[16] = 1;
        response[20] = 1;
        self.target.opens(k)
            && self.takes(k, ic_req(alloc))
            && self.takes(k, connect(alloc, queue, given))
            && self.target.sent(k).get(128..) == Some(&response)
    }

    // Brings a whole PDU, and takes it.
    fn takes(&mut self, k: usize, pdu: Result<Vec<u8>, AllocError>) -> bool {
        match pdu {
            Ok(bytes) => self.target.takes(k, &bytes),
            Err(AllocError) => false,
        }
    }

    // The head that the next response of a queue gives: a queue has 32 entries.
    fn next_head(&mut self, queue: usize) -> u8 {
        match self.heads.get_mut(queue) {
            Some(head) => {
                *head = (*head % 32 + 1) % 32;
                *head
            }
            None => 0,
        }
    }

    /// Whether a command on one of the queues, 0 or 1, is answered with these data, or none, and this
    /// status.
    pub fn answers(
        &mut self,
        queue: usize,
        command: &Command,
        data: &[u8],
        read: &[u8],
        status: [u8; 2],
    ) -> bool {
        let head = self.next_head(queue);
        let k = connection_of(queue);
        let pdu = command.pdu(self.alloc, data);
        self.takes(k, pdu)
            && is_reply(self.target.sent(k), command.cid, head, read, status)
            && self.target.empties(k)
    }

    /// Whether the data of a Write or a Compare on one of the queues are asked for whole, under TTAG 0, and it is
    /// answered with this status once they came, in one H2CData.
    pub fn answers_data(
        &mut self,
        queue: usize,
        command: &Command,
        data: &[u8],
        status: [u8; 2],
    ) -> bool {
        let k = connection_of(queue);
        let capsule = command.with_data_asked_for().pdu(self.alloc, &[]);
        let request = request(command.cid, data.len());
        let is_asked = self.takes(k, capsule)
            && *self.target.sent(k) == *request.as_slice()
            && self.target.empties(k);
        let head = self.next_head(queue);
        let pdu = h2c_data(self.alloc, command.cid, 0, data, true);
        is_asked
            && self.takes(k, pdu)
            && is_reply(self.target.sent(k), command.cid, head, &[], status)
            && self.target.empties(k)
    }

    /// Whether a command's capsule is taken, and so many bytes are sent, which are taken away.
    pub fn exchanges(&mut self, queue: usize, capsule: &[u8], len: usize) -> bool {
        let k = connection_of(queue);
        self.target.takes(k, capsule) && self.target.sent(k).len() == len && self.target.empties(k)
    }

    /// Whether a command of no data is done.
    pub fn does(&mut self, queue: usize, command: &Command) -> bool {
        self.answers(queue, command, &[], &[], SUCCESS)
    }

    /// Whether a Write of these data is done.
    pub fn writes(&mut self, queue: usize, command: &Command, data: &[u8]) -> bool {
        self.answers(queue, command, data, &[], SUCCESS)
    }

    /// Whether a Read gives these data.
    pub fn reads(&mut self, queue: usize, command: &Command, data: &[u8]) -> bool {
        self.answers(queue, command, &[], data, SUCCESS)
    }

    /// Reads as many blocks of 512 bytes as `out` has, from block 0 on; whether the Read is done.
    pub fn reads_to(&mut self, queue: usize, out: &mut [u8]) -> bool {
        let blocks = (out.len() / 512).min(64) as u16;
        let command = Command::of(Opcode::Read, 1, 0, blocks);
        let head = self.next_head(queue);
        let k = connection_of(queue);
        let pdu = command.pdu(self.alloc, &[]);
        self.takes(k, pdu)
            && is_copied(self.target.sent(k), out)
            && is_reply(self.target.sent(k), command.cid, head, out, SUCCESS)
            && self.target.empties(k)
    }
}

// An R2T of TTAG 0 for so many bytes from 0 on.
fn request(cid: u8, len: usize) -> [u8; 24] {
    let mut pdu = [0u8; 24];
    pdu[..5].copy_from_slice(&[0x09, 0x00, 0x18, 0x00, 0x18]);
    pdu[8] = cid;
    pdu[16..20].copy_from_slice(&(len.min(1 << 20) as u32).to_le_bytes());
    pdu
}

// The connection of a queue.
fn connection_of(queue: usize) -> usize {
    if queue == 0 { 1 } else { 3 }
}

// Copies the data of what was sent.
fn is_copied(sent: &[u8], out: &mut [u8]) -> bool {
    let found = match sent.get(24..) {
        Some(rest) => rest.get(..out.len()),
        None => None,
    };
    match found {
        Some(data) => {
            out.copy_from_slice(data);
            true
        }
        None => false,
    }
}
