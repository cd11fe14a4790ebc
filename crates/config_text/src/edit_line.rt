//! The line of an edit: each edit has one, and a line that is none's has a first fault.
ghost use Rattle.std.specs.Prelude.{◌≡◌, ◌≤◌, Err, IfOk, IsOkUnless, MatchOption, None, Ok};
ghost use Rattle.std.specs.Prelude.{List, ℕ, length, ◌⊎◌};
ghost use Rattle.config_lists.specs.declared.edit.Edit.{Edit};
ghost use Rattle.config_text.specs.EditLine.{IsLineOf, IsSayable, line_of};
ghost use Rattle.config_text.specs.Fault.{memory_fault};
ghost use Rattle.config_text.specs.Words.{line_fault};

use crate::build::build;
use crate::{LineFault, LineFaultKind, read_words};
use config_lists::Edit;
use std::alloc::{AllocError, Global};

/// The edit whose line this is, or the line's first fault. That memory ran out comes last.
pub fn read_edit(alloc: Global, line: &[u8]) -> Result<Edit, LineFault>
    ensures ok { IfOk result (IsLineOf line.now) }
    ensures only { (edit : Edit) → IsLineOf line.now edit
        → (result ≡ Ok edit) ⊎ (result ≡ Err memory_fault) }
    ensures fault { MatchOption (line_fault line.now)
        (IsOkUnless result memory_fault)
        (λ fault. result ≡ Err fault) }
{
    let (command, operands) = read_words(line)?;
    match build(alloc, command, &operands) {
        Ok(edit) => Ok(edit),
        Err(AllocError) => Err(LineFault {
            column: 0,
            kind: LineFaultKind::Memory,
        }),
    }
}

/// The line of an edit has no fault, where each of its values has a word and the line has at most
/// 1,024 bytes, so that `read_edit` reads it back, memory aside. No line is that of two edits.
pub fn lines_are_read_back()
    ensures read { (edit : Edit) → IsSayable edit → length (line_of edit) ≤ 1024
        → line_fault (line_of edit) ≡ None }
    ensures one { (line : List ℕ) (edit other : Edit)
        → IsLineOf line edit → IsLineOf line other → edit ≡ other }
{}
