//! The writer of saved configurations.
ghost use Rattle.std.specs.Prelude.{◌≡◌, ◌+◌, ◌<◌, ◌++◌, OnOk, length, take};
ghost use Rattle.config_text.specs.Output.{AppendsOrFull};
ghost use Rattle.config_saved.specs.Saved.{saved_edits};
ghost use Rattle.config_saved.specs.Text.{AppendsOrNot, ended_line, saved_text};

use crate::saved_edits::SavedEdits;
use bytes::BytesMut;
use config_lists::Edit;
use config_text::{Full, write_edit};
use nvt_config::Config;
use std::alloc::AllocError;
use thiserror::Error;

/// Why the lines of a saved configuration were not written.
#[derive(Clone, Copy, Debug, PartialEq, Eq, Error)]
pub enum SaveFault {
    #[error("the lines do not fit the buffer's spare room")]
    Full,
    #[error("memory")]
    Memory,
}

impl From<Full> for SaveFault {
    ghost use Rattle.std.specs.Prelude.{◌≡◌};
    ghost use Rattle.config_saved.specs.declared.write.SaveFault.TheVariants as variant;

    ghost from_gives = { λ _ fault. fault ≡ variant.Full };

    fn from(_: Full) -> SaveFault {
        SaveFault::Full
    }
}

impl From<AllocError> for SaveFault {
    ghost use Rattle.std.specs.Prelude.{◌≡◌};
    ghost use Rattle.config_saved.specs.declared.write.SaveFault.TheVariants.{Memory};

    ghost from_gives = { λ _ fault. fault ≡ Memory };

    fn from(_: AllocError) -> SaveFault {
        SaveFault::Memory
    }
}

/// Appends the lines of the saved edits of a configuration, each with its end. After an `Err` the buffer
/// is as it was.
pub fn write_saved(config: &Config, out: &mut BytesMut) -> Result<(), SaveFault>
    ensures { AppendsOrNot out.old out.new (saved_text config.now) result }
{
    let before = out.len();
    match append_lines(config, out) {
        Ok(()) => Ok(()),
        Err(fault) => {
            out.truncate(before);
            Err(fault)
        }
    }
}

// Appends the lines, up to the first for which there is no room or no memory.
fn append_lines(config: &Config, out: &mut BytesMut) -> Result<(), SaveFault>
    ensures lines { OnOk result (out.new.items ≡ out.old.items ++ saved_text config.now) }
    ensures full { result ≡ Err SaveFault.Full → out.old.spare < length (saved_text config.now) }
    ensures front { take (length out.old.items) out.new.items ≡ out.old.items }
    ensures capacity { length out.new.items + out.new.spare
        ≡ length out.old.items + out.old.spare }
{
    let mut left = SavedEdits::of(config);
    while let Some(edit) = left.next()? {
        append_line(&edit, out)?;
    }
    Ok(())
}

/// Appends the edit's line, with its end.
pub(crate) fn append_line(edit: &Edit, out: &mut BytesMut) -> Result<(), Full>
    ensures { AppendsOrFull out.old out.new (ended_line edit.now) result }
{
    let before = out.len();
    write_edit(edit, out)?;
    if out.len() < out.capacity() {
        out.extend_reserved(b"\n");
        return Ok(());
    }
    out.truncate(before);
    Err(Full)
}
