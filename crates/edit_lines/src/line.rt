//! Lines of edits that are made on a target.

ghost use Rattle.std.specs.Prelude.{◌≡◌, IfErr, Ok, OnErr, OnOk};
ghost use Rattle.nvt_config.specs.Accept.{accept};
ghost use Rattle.target_core.specs.Transition.{Transition};
ghost use Rattle.target_history.specs.Event.{edited};
ghost use Rattle.edit_lines.specs.Line.{IsEditRefused, IsRefused, MakesLine, not_made, not_read};

use crate::Reply;
use block_store::Disk;
use config_text::{LineFault, LineFaultKind, read_edit};
use nvt_config::{Edit, EditFault};
use std::alloc::Global;
use target_core::Target;

/// Why the edit of a line is not made.
#[derive(Clone, Copy)]
pub enum NotMade {
    /// The line is no edit's, or the configuration refuses its edit.
    Refused(Reply),
    /// The line is an edit's, and an allocation was refused before that was read.
    Unread,
    /// The configuration accepts its edit, and an allocation was refused before that was made.
    Memory,
}

/// Makes the edit that a line says. Want of memory is told last: only where nothing else is against the line, or, once
/// its edit is read, against that. After a refusal the target is as it was.
pub fn make_line<D: Disk + Drop>(
    alloc: Global,
    target: &mut Target<D>,
    line: &[u8],
) -> Result<(), NotMade>
    ensures made { OnOk result (MakesLine line.now target.old target.new) }
    ensures refused { IfErr result (IsRefused target.old.config line.now) }
    ensures err { OnErr result (target.new ≡ target.old) }
{
    match read_edit(alloc, line) {
        Ok(edit) => make_edit(target, &edit),
        Err(fault) => Err(not_read(fault)),
    }
}

fn make_edit<D: Disk + Drop>(target: &mut Target<D>, edit: &Edit) -> Result<(), NotMade>
    ensures made { OnOk result (accept target.old.config edit.now ≡ Ok target.new.config) }
    ensures transition { OnOk result (Transition (edited edit.now) target.old target.new) }
    ensures refused { IfErr result (IsEditRefused target.old.config edit.now) }
    ensures err { OnErr result (target.new ≡ target.old) }
{
    match target.edit(edit) {
        Ok(()) => Ok(()),
        Err(fault) => Err(not_made(fault)),
    }
}

/// Why the edit of a line is not made that is refused so.
pub(crate) fn not_made(fault: EditFault) -> NotMade
    ensures { result ≡ not_made fault }
{
    match fault {
        EditFault::Memory => NotMade::Memory,
        _ => NotMade::Refused(Reply::Edit(fault)),
    }
}

/// Why the edit of a line is not made that has this fault.
pub(crate) fn not_read(fault: LineFault) -> NotMade
    ensures { result ≡ not_read fault }
{
    match fault.kind {
        LineFaultKind::Memory => NotMade::Unread,
        _ => NotMade::Refused(Reply::Line(fault)),
    }
}
