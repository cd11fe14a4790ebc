//! The two hosts.
ghost use Rattle.std.specs.Prelude.{◌≡◌, ◌↔◌, All, IsTrue, OnOk};
ghost use Rattle.host_parts.specs.Watched.{HasSucceeded, IsZeros};

use crate::children::{await_success, end, expect_line, give_line, line_of, started};
use crate::commands::{reader_command, writer_command};
use crate::course::{LabFault, LabPlan};
use std::io::{self, Eprint};
use std::process::{Child, OpenProcess, Processes};

/// The digits of a block.
const DIGITS: usize = 1024;

/// Has host 1 write blocks, of which host 2 reads one before they have come.
pub fn run_hosts<R: Processes + Eprint + AllocGlobal>(
    rt: &R,
    plan: &LabPlan<'_>,
) -> Result<(), LabFault> {
    let mut writer = started(start_writer(rt, plan))?;
    let ran = with_writer(rt, plan, &mut writer);
    end(rt, "host 1", &mut writer)?;
    ran
}

fn with_writer<R: Processes + Eprint + AllocGlobal>(
    rt: &R,
    plan: &LabPlan<'_>,
    writer: &mut Child<R::Started>,
) -> Result<(), LabFault>
    ensures { OnOk result (HasSucceeded writer.new) }
{
    expect_line(rt, "host 1", writer, b"held")?;
    read_zeros(rt, plan)?;
    give_line(writer)?;
    expect_line(rt, "host 1", writer, b"ok")?;
    await_success(writer)
}

fn read_zeros<R: Processes + Eprint + AllocGlobal>(
    rt: &R,
    plan: &LabPlan<'_>,
) -> Result<(), LabFault> {
    let mut reader = started(start_reader(rt, plan))?;
    let ran = with_reader(rt, &mut reader);
    end(rt, "host 2", &mut reader)?;
    ran
}

fn with_reader<R: Eprint + AllocGlobal, P: OpenProcess + Drop>(
    rt: &R,
    reader: &mut Child<P>,
) -> Result<(), LabFault>
    ensures { OnOk result (HasSucceeded reader.new) }
{
    let line = line_of(rt, "host 2", reader)?;
    if !is_zeros(&line) {
        return Err(LabFault);
    }
    await_success(reader)
}

// Whether a line is that of a block of zeros.
fn is_zeros(line: &[u8]) -> bool
    ensures { IsTrue result ↔ IsZeros line.now }
{
    line.len() == DIGITS && are_zeros(line)
}

fn are_zeros(digits: &[u8]) -> bool
    ensures { IsTrue result ↔ All (λ digit. digit ≡ 48) digits.now }
{
    digits.iter().all(|digit| *digit == b'0')
}

fn start_writer<R: Processes + AllocGlobal>(
    rt: &R,
    plan: &LabPlan<'_>,
) -> io::Result<Child<R::Started>> {
    writer_command(rt.alloc(), plan)?.spawn(rt)
}

fn start_reader<R: Processes + AllocGlobal>(
    rt: &R,
    plan: &LabPlan<'_>,
) -> io::Result<Child<R::Started>> {
    reader_command(rt.alloc(), plan)?.spawn(rt)
}
