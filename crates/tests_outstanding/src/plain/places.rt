//! Who connects where.

/// How many controllers there are at most, and how many queues: a controller's are an admin queue and two
/// I/O queues, in this order.
pub const CONTROLLERS: usize = 4;

pub const QUEUES: usize = 12;

/// Who the host of a controller is, and the port that it comes by. The first host reads all disks and is
/// never refused.
#[derive(Clone, Copy)]
pub struct Place {
    pub host: usize,
    pub port: usize,
}

const PLACES: [Place; 4] = [
    Place { host: 0, port: 3 },
    Place { host: 1, port: 1 },
    Place { host: 2, port: 1 },
    Place { host: 1, port: 2 },
];

const SQSIZES: [u16; 12] = [31, 31, 31, 31, 63, 5, 31, 63, 31, 31, 2, 63];

/// The admin queue of a queue's controller.
pub fn admin_of(queue: usize) -> usize {
    queue / 3 % 4 * 3
}

/// The identifier of a queue, which is 0 for an admin queue.
pub fn qid_of(queue: usize) -> u16 {
    (queue % 3) as u16
}

/// The place of a queue's controller.
pub fn place_of(queue: usize) -> Place {
    PLACES[queue / 3 % 4]
}

/// SQSIZE of a queue.
pub fn sqsize_of(queue: usize) -> u16 {
    SQSIZES[queue % 12]
}
