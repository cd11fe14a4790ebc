//! Random commands on two namespaces, through two controllers, beside a plain list of each disk's bytes.
use block_store::MemoryDisk;
use rand_core::utils::NextWord;
use rand_pcg::Pcg32;
use testkit_edits::{Blocks, memory_disks};
use testkit_tables::{Outcome, Placed, check, pass};
use testkit_targets::queues::{
    COMPARE_FAILURE, Command, Driver, Opcode, SMALL, Script, block_len, holds_over, part, put,
};

const STEPS: usize = 1_500;

const SEED: u64 = 0x696F_7465;

// The namespace of 4,096-byte blocks, on disk 1.
const LARGE: Blocks = Blocks {
    nsid: 2,
    disk: 1,
    blocks: 4,
    block_size: 4096,
    uuid: 0x22,
    group: 1,
};

// How many bytes each namespace has.
const LEN: usize = 16_384;

// Two blocks of the second namespace, or 16 of the first, are all that a capsule brings.
const DATA_LEN: usize = 8192;

// The bytes of each namespace.
#[derive(Drop)]
struct Plain {
    small: [u8; LEN],
    large: [u8; LEN],
}

impl Plain {
    fn of(&mut self, nsid: u8) -> &mut [u8] {
        if nsid == 1 {
            &mut self.small
        } else {
            &mut self.large
        }
    }
}

// A range of blocks: a command's, and the place and the number of its bytes.
#[derive(Clone, Copy)]
struct Range {
    nsid: u8,
    first: u16,
    blocks: u16,
    at: usize,
    len: usize,
}

// Blocks of at most so many bytes.
fn pick_range(random: &mut Pcg32, most: u32) -> Range {
    let nsid = if random.next_word() % 2 == 0 { 1 } else { 2 };
    let block = block_len(nsid).max(1);
    let first = random.next_word() % (LEN as u32 / block).max(1);
    let left = (LEN as u32 / block).saturating_sub(first).min(most / block);
    let blocks = (random.next_word() % left.max(1)).saturating_add(1);
    Range {
        nsid,
        first: (first % 64) as u16,
        blocks: (blocks % 64) as u16,
        at: first.saturating_mul(block) as usize,
        len: blocks.saturating_mul(block) as usize,
    }
}

fn command_of(random: &mut Pcg32, opcode: Opcode, range: Range) -> Command {
    let fua = random.next_word() % 4 == 0;
    let command = Command {
        cid: (random.next_word() % 256) as u8,
        ..Command::of(opcode, range.nsid, range.first, range.blocks)
    };
    command.with_fua(fua)
}

fn queue_of(random: &mut Pcg32) -> usize {
    (random.next_word() % 2) as usize
}

fn writes(
    random: &mut Pcg32,
    driver: &mut Driver<MemoryDisk>,
    plain: &mut [u8],
    range: Range,
) -> bool {
    let mut data = [0u8; DATA_LEN];
    for byte in &mut data {
        *byte = (random.next_word() % 256) as u8;
    }
    let data = part(&data, 0, range.len);
    put(plain, range.at, data);
    let command = command_of(random, Opcode::Write, range);
    driver.writes(queue_of(random), &command, data)
}

fn zeroes(
    random: &mut Pcg32,
    driver: &mut Driver<MemoryDisk>,
    plain: &mut [u8],
    range: Range,
) -> bool {
    put(plain, range.at, part(&[0; LEN], 0, range.len));
    let command = command_of(random, Opcode::WriteZeroes, range);
    driver.does(queue_of(random), &command)
}

fn reads(random: &mut Pcg32, driver: &mut Driver<MemoryDisk>, plain: &[u8], range: Range) -> bool {
    let command = command_of(random, Opcode::Read, range);
    driver.reads(queue_of(random), &command, part(plain, range.at, range.len))
}

fn flushes(random: &mut Pcg32, driver: &mut Driver<MemoryDisk>, range: Range) -> bool {
    let command = command_of(random, Opcode::Flush, range);
    driver.does(queue_of(random), &command)
}

// Compares with the range's own bytes, of which one is another in half of the cases.
fn compares(
    random: &mut Pcg32,
    driver: &mut Driver<MemoryDisk>,
    plain: &[u8],
    range: Range,
) -> bool {
    let mut data = [0u8; DATA_LEN];
    put(&mut data, 0, part(plain, range.at, range.len));
    let command = command_of(random, Opcode::Compare, range);
    let place = random.next_word() as usize % range.len.max(1);
    let differs = random.next_word() % 2 == 0;
    if let Some(byte) = data.get_mut(place) {
        *byte ^= u8::from(differs);
    }
    let data = part(&data, 0, range.len);
    let queue = queue_of(random);
    if differs {
        driver.answers(queue, &command, data, &[], COMPARE_FAILURE)
    } else {
        driver.writes(queue, &command, data)
    }
}

fn step(random: &mut Pcg32, driver: &mut Driver<MemoryDisk>, plain: &mut Plain) -> bool {
    let choice = random.next_word() % 5;
    let most = if choice < 2 { DATA_LEN } else { LEN };
    let range = pick_range(random, most as u32);
    let plain = plain.of(range.nsid);
    match choice {
        0 => writes(random, driver, plain, range),
        1 => compares(random, driver, plain, range),
        2 => zeroes(random, driver, plain, range),
        3 => reads(random, driver, plain, range),
        _ => flushes(random, driver, range),
    }
}

fn is_whole(driver: &mut Driver<MemoryDisk>, plain: &Plain) -> bool {
    driver.reads(0, &Command::of(Opcode::Read, 1, 0, 32), &plain.small)
        && driver.reads(1, &Command::of(Opcode::Read, 2, 0, 4), &plain.large)
}

struct Steps;

impl Script<MemoryDisk> for Steps {
    fn holds(&self, driver: &mut Driver<MemoryDisk>) -> Outcome {
        let mut random = Pcg32::new(SEED, 0);
        let mut plain = Plain {
            small: [0; LEN],
            large: [0; LEN],
        };
        let begins = driver.begin(&[SMALL, LARGE]);
        for number in 0..STEPS {
            let agrees = step(&mut random, driver, &mut plain);
            pass!(check(agrees, "the answer of this command").at_step(number));
        }
        let is_whole = is_whole(driver, &plain);
        check(begins && is_whole, "both disks at the end")
    }
}

#[test]
fn disks_are_plain_lists_of_bytes(rt: HostRuntime) -> Outcome {
    let disks = memory_disks(rt.alloc(), &[32, 32])?;
    holds_over(rt.alloc(), disks, &Steps).in_script(SEED, 0)
}
