//! The configuration that the lines of a file make, where there is no target.

ghost use Rattle.std.specs.Prelude.{◌≡◌, IfErr, IfOk, Ok, OnOk, true};
ghost use Rattle.std.specs.Bool.{OnFalse};
ghost use Rattle.nvt_config.specs.Accept.{accept};
ghost use Rattle.nvt_config.specs.Configuration.{are_disks, disks_alone};
ghost use Rattle.edit_lines.specs.Configured.{Configures, RefusesDisks, RefusesEdits, RefusesLines};
ghost use Rattle.edit_lines.specs.Configured.{TakesLine};
ghost use Rattle.edit_lines.specs.Line.{AppliesLine, IsEditRefused, IsRefused};
ghost use Rattle.config_text.specs.Lines.{lines_of};

use crate::ReplayFault;
use crate::line::{NotMade, not_made, not_read};
use config_text::{Lines, read_edit};
use nvt_config::{Config, Edit, NewFault};
use std::alloc::Global;

/// The configuration that lines of edits make of disks of these sizes, in units of 512 bytes. It answers as
/// `configure` does, and wants no memory for what is on the disks.
#[tactic(auto, using(crate::proofs::Taking::refused_disks))]
pub fn configuration(alloc: Global, edits: &[u8], units: &[u64]) -> Result<Config, ReplayFault>
    ensures disks { OnOk result (are_disks units.now ≡ true) }
    ensures refused { OnFalse (are_disks units.now) (result ≡ Err ReplayFault.Disks) }
    ensures ok { IfOk result (Configures (lines_of edits.now) (disks_alone units.now)) }
    ensures fault { IfErr result (λ fault. RefusesEdits fault edits.now units.now) }
{
    let mut config = of_disks(alloc, units)?;
    apply_lines(alloc, &mut config, edits)?;
    Ok(config)
}

fn of_disks(alloc: Global, units: &[u64]) -> Result<Config, ReplayFault>
    ensures ok { IfOk result (λ config. config ≡ disks_alone units.now) }
    ensures disks { OnOk result (are_disks units.now ≡ true) }
    ensures refused { OnFalse (are_disks units.now) (result ≡ Err ReplayFault.Disks) }
    ensures fault { IfErr result (λ fault. RefusesDisks fault units.now) }
{
    match Config::new(alloc, units) {
        Ok(config) => Ok(config),
        Err(NewFault::Disks) => Err(ReplayFault::Disks),
        Err(NewFault::Memory) => Err(ReplayFault::Memory),
    }
}

// Applies the edits, up to the first line that is refused.
fn apply_lines(alloc: Global, config: &mut Config, edits: &[u8]) -> Result<(), ReplayFault>
    ensures ok { OnOk result (Configures (lines_of edits.now) config.old config.new) }
    ensures fault { IfErr result (λ fault. RefusesLines fault (lines_of edits.now) config.old) }
{
    let mut number = 0;
    for line in Lines::of(edits) {
        number += 1;
        take_line(alloc, config, number, line)?;
    }
    Ok(())
}

// Applies one line of edits.
fn take_line(
    alloc: Global,
    config: &mut Config,
    number: usize,
    line: &[u8],
) -> Result<(), ReplayFault>
    ensures { TakesLine config.old line.now number result config.new }
{
    match apply_line(alloc, config, line) {
        Ok(()) => Ok(()),
        Err(NotMade::Unread | NotMade::Memory) => Err(ReplayFault::Memory),
        Err(NotMade::Refused(reply)) => Err(ReplayFault::EditLine {
            line: number,
            reply,
        }),
    }
}

fn apply_line(alloc: Global, config: &mut Config, line: &[u8]) -> Result<(), NotMade>
    ensures made { OnOk result (AppliesLine line.now config.old config.new) }
    ensures refused { IfErr result (IsRefused config.old line.now) }
{
    match read_edit(alloc, line) {
        Ok(edit) => apply(config, &edit),
        Err(fault) => Err(not_read(fault)),
    }
}

fn apply(config: &mut Config, edit: &Edit) -> Result<(), NotMade>
    ensures made { OnOk result (accept config.old edit.now ≡ Ok config.new) }
    ensures refused { IfErr result (IsEditRefused config.old edit.now) }
{
    match config.apply(edit) {
        Ok(()) => Ok(()),
        Err(fault) => Err(not_made(fault)),
    }
}
