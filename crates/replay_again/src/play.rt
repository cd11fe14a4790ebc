//! A script is played, from its files to the standard output.
use crate::arguments::{Arguments, How};
use crate::fault::PlayFault;
use crate::player::{PlayedTarget, Player};
use block_store::{FailingDisk, MemoryDisk};
use config_text::Lines;
use edit_lines::{NotMade, ReplayFault, make_line, written};
use std::alloc::{AllocError, Global};
use std::io::{self, BufWriter, Write};
use std::rt::Files;
use target_core::Target;
use target_programs::read_file;
use testkit_edits::again;

const OUTPUT_BUFFER: usize = 1 << 16;

// Four disks of 2,048 units.
const DISKS: usize = 4;

const UNITS: u64 = 2048;

// More than a disk has calls.
const NEVER: u64 = 1 << 40;

/// Plays the script over a target after the edits, and prints what it sends.
pub fn play<R: Files + Print + AllocGlobal>(
    rt: &R,
    arguments: Arguments<'_>,
    refused: &mut u32,
) -> Result<(), PlayFault> {
    let alloc = rt.alloc();
    let edits = again!(
        *refused,
        ReplayFault::Memory,
        read_file(rt, alloc, arguments.edits)
    )?;
    let stream = again!(
        *refused,
        ReplayFault::Memory,
        read_file(rt, alloc, arguments.stream)
    )?;
    let target = configured(alloc, &edits, arguments.how, refused)?;
    let Ok(mut out) = again!(
        *refused,
        _,
        BufWriter::with_capacity(alloc, OUTPUT_BUFFER, io::writer(rt))
    ) else {
        return Err(PlayFault::Replay(ReplayFault::Memory));
    };
    let mut player = Player::new(alloc, target, arguments.how == How::EditsOnce, *refused);
    let played = play_lines(&mut player, &stream, &mut out);
    *refused = player.refused();
    written(out.flush())?;
    played
}

// A target over disks of zeros, after the edits.
fn configured(
    alloc: Global,
    edits: &[u8],
    how: How,
    refused: &mut u32,
) -> Result<PlayedTarget, PlayFault> {
    let passes = if how == How::FailingDisk { 1 } else { NEVER };
    let mut target = again!(*refused, _, over_zeros(alloc, passes))?;
    take_edits(alloc, &mut target, edits, refused)?;
    Ok(target)
}

// A target of whose first disk so many calls pass before one fails.
fn over_zeros(alloc: Global, passes: u64) -> Result<PlayedTarget, AllocError> {
    let disks = disks(alloc, passes)?;
    match Target::new(alloc, disks) {
        Ok(target) => Ok(target),
        Err(_) => Err(AllocError),
    }
}

fn disks(alloc: Global, passes: u64) -> Result<Vec<FailingDisk<MemoryDisk>>, AllocError> {
    let mut disks = Vec::new(alloc);
    for number in 0..DISKS {
        let disk = MemoryDisk::new(alloc, UNITS)?;
        disks.push(FailingDisk::new(disk, if number == 0 { passes } else { NEVER }))?;
    }
    Ok(disks)
}

fn take_edits(
    alloc: Global,
    target: &mut PlayedTarget,
    edits: &[u8],
    refused: &mut u32,
) -> Result<(), ReplayFault> {
    let mut number = 0usize;
    for line in Lines::of(edits) {
        number = number.saturating_add(1);
        match again!(
            *refused,
            NotMade::Unread | NotMade::Memory,
            make_line(alloc, target, line)
        ) {
            Ok(()) => {}
            Err(NotMade::Unread | NotMade::Memory) => return Err(ReplayFault::Memory),
            Err(NotMade::Refused(reply)) => {
                return Err(ReplayFault::EditLine {
                    line: number,
                    reply,
                });
            }
        }
    }
    Ok(())
}

fn play_lines<W: Write>(player: &mut Player, stream: &[u8], out: &mut W) -> Result<(), PlayFault> {
    let mut number = 0usize;
    for line in Lines::of(stream) {
        number = number.saturating_add(1);
        player.line(number, line, out)?;
    }
    Ok(())
}
