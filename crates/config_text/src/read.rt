//! What a line says.
ghost use Rattle.std.specs.Prelude.{◌≡◌, IfOk};
ghost use Rattle.std.specs.Result.{result_err};
ghost use Rattle.config_text.specs.Operand.{values};
ghost use Rattle.config_text.specs.Said.{IsSaidBy};
ghost use Rattle.config_text.specs.Words.{line_fault};

use crate::command::EditCommand;
use crate::fault::{LineFault, LineFaultKind};
use crate::operand::Operands;
use crate::words::Words;
use arrayvec::ArrayVec;

const LINE_MAX: usize = 1024;

/// The command and the values that a line says, or its first fault. It takes no memory.
pub fn read_words(line: &[u8]) -> Result<(EditCommand, Operands<'_>), LineFault>
    ensures fault { result_err result ≡ line_fault line.now }
    ensures said { IfOk result (λ said. IsSaidBy line.now said.0 (values said.1.items)) }
{
    if line.len() > LINE_MAX {
        return Err(LineFault {
            column: 0,
            kind: LineFaultKind::TooLong,
        });
    }
    let mut words = Words::of(line);
    let command = words.command()?;
    let mut operands = ArrayVec::new();
    words.operands(command.forms(), &mut operands)?;
    Ok((command, operands))
}
