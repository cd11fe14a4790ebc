//! What the saved edits give.
ghost use Rattle.config_saved.specs.Saved.{SavedIsEqual};
ghost use Rattle.config_saved.specs.Text.{SavedTextGivesEqual, SavedTextIsReadBack};

/// Whatever a configuration holds, its saved edits, applied one after another to a new configuration of
/// the same disks, are each accepted, and give an equal configuration: the same items in the same order,
/// the hosts that are not live included. This is a fact of the rules; a call does nothing.
pub fn saved_is_equal()
    ensures { SavedIsEqual }
{}

/// The lines of the text that `write_saved` writes are those of the saved edits, one of each, where each of
/// their values has a word: numbers are below 2^64, names are names, UUIDs have 16 bytes. No line is longer
/// than 1,024 bytes. So `read_edit` reads each line as its edit, memory aside, and the edits that are read
/// of the text, applied one after another to a new configuration of the same disks, give an equal one. This
/// is a fact of the definitions; a call does nothing.
pub fn saved_text_is_read_back()
    ensures lines { SavedTextIsReadBack }
    ensures equal { SavedTextGivesEqual }
{}
