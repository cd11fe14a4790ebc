//! A target that the lines of a file configure.

ghost use Rattle.std.specs.Prelude.{◌≡◌, Err, IfErr, IfOk, OnOk, map, true};
ghost use Rattle.std.specs.Bool.{OnFalse};
ghost use Rattle.nvt_config.specs.Configuration.{are_disks, disks_alone};
ghost use Rattle.edit_lines.specs.Configured.{Configures, IsConfigured, IsConfiguredOver};
ghost use Rattle.edit_lines.specs.Configured.{RefusesDisks, RefusesEdits};
ghost use Rattle.edit_lines.specs.Configured.{RefusesLines, TakesLine, TransitionByLine};
ghost use Rattle.edit_lines.specs.Configured.{TransitionsByLines, sizes_of, zeroed};
ghost use Rattle.config_text.specs.Lines.{lines_of};
ghost use Rattle.target_core.specs.Target.{IsNewTarget};

use crate::ReplayFault;
use crate::disks::memory_disks;
use crate::line::{NotMade, make_line};
use block_store::{Disk, MemoryDisk};
use config_text::Lines;
use nvt_config::{NewFault, are_disks};
use std::alloc::Global;
use target_core::Target;

/// A target with disks of zeros in memory of these sizes, in units of 512 bytes, that the lines of edits configured.
/// The first line that is refused is told by its number, counted from 1; before it, disks that there may not be.
#[tactic(auto, using(crate::proofs::Taking::refused_disks))]
pub fn configure(
    alloc: Global,
    edits: &[u8],
    units: &[u64],
) -> Result<Target<MemoryDisk>, ReplayFault>
    ensures disks { OnOk result (are_disks units.now ≡ true) }
    ensures refused { OnFalse (are_disks units.now) (result ≡ Err ReplayFault.Disks) }
    ensures ok { IfOk result (λ target.
        Configures (lines_of edits.now) (disks_alone units.now) target.config) }
    ensures configured { IfOk result (IsConfigured edits.now units.now) }
    ensures fault { IfErr result (λ fault. RefusesEdits fault edits.now units.now) }
{
    if !are_disks(units) {
        return Err(ReplayFault::Disks);
    }
    let disks = memory_disks(alloc, units)?;
    configure_over(alloc, edits, disks)
}

/// A target over these disks that the lines of edits configured. It answers as `configure` does.
#[tactic(auto, using(crate::proofs::Taking::refused_disks))]
pub fn configure_over<D: Disk + Drop>(
    alloc: Global,
    edits: &[u8],
    disks: Vec<D>,
) -> Result<Target<D>, ReplayFault>
    ensures disks { OnOk result (are_disks (sizes_of (map D.contents disks.items)) ≡ true) }
    ensures refused { OnFalse (are_disks (sizes_of (map D.contents disks.items)))
        (result ≡ Err ReplayFault.Disks) }
    ensures ok { IfOk result (λ target. Configures (lines_of edits.now)
        (disks_alone (sizes_of (map D.contents disks.items))) target.config) }
    ensures configured { IfOk result (IsConfiguredOver edits.now (map D.contents disks.items)) }
    ensures fault { IfErr result (λ fault.
        RefusesEdits fault edits.now (sizes_of (map D.contents disks.items))) }
{
    let mut target = new_target(alloc, disks)?;
    take_edits(alloc, &mut target, edits)?;
    Ok(target)
}

// A target over these disks.
fn new_target<D: Disk + Drop>(alloc: Global, disks: Vec<D>) -> Result<Target<D>, ReplayFault>
    ensures ok { IfOk result (IsNewTarget (map D.contents disks.items)) }
    ensures disks { OnOk result (are_disks (sizes_of (map D.contents disks.items)) ≡ true) }
    ensures refused { OnFalse (are_disks (sizes_of (map D.contents disks.items)))
        (result ≡ Err ReplayFault.Disks) }
    ensures fault { IfErr result (λ fault.
        RefusesDisks fault (sizes_of (map D.contents disks.items))) }
{
    match Target::new(alloc, disks) {
        Ok(target) => Ok(target),
        Err(NewFault::Disks) => Err(ReplayFault::Disks),
        Err(NewFault::Memory) => Err(ReplayFault::Memory),
    }
}

// Applies the edits, up to the first line that is refused.
fn take_edits<D: Disk + Drop>(
    alloc: Global,
    target: &mut Target<D>,
    edits: &[u8],
) -> Result<(), ReplayFault>
    ensures ok { OnOk result (Configures (lines_of edits.now) target.old.config target.new.config) }
    ensures transition { OnOk result (TransitionsByLines (lines_of edits.now) target.old target.new) }
    ensures fault { IfErr result (λ fault.
        RefusesLines fault (lines_of edits.now) target.old.config) }
{
    let mut number = 0;
    for line in Lines::of(edits) {
        number += 1;
        take_edit(alloc, target, number, line)?;
    }
    Ok(())
}

// Applies one line of edits.
fn take_edit<D: Disk + Drop>(
    alloc: Global,
    target: &mut Target<D>,
    number: usize,
    line: &[u8],
) -> Result<(), ReplayFault>
    ensures takes { TakesLine target.old.config line.now number result target.new.config }
    ensures transition { OnOk result (TransitionByLine line.now target.old target.new) }
{
    match make_line(alloc, target, line) {
        Ok(()) => Ok(()),
        Err(NotMade::Unread | NotMade::Memory) => Err(ReplayFault::Memory),
        Err(NotMade::Refused(reply)) => Err(ReplayFault::EditLine {
            line: number,
            reply,
        }),
    }
}
