//! Replies to lines of edits.
ghost use Rattle.std.specs.Prelude.{◌≡◌};
ghost use Rattle.nvt_serve.specs.Reply.{ok_text, reply_to};

use arrayvec::ArrayString;
use edit_lines::{NotMade, text_of_refusal};
use nvt_config::EditFault;

// Room for the longest reply.
const REPLY_MAX: usize = 64;

/// `ok`, or why the edit of a line was not made; without a line's end.
pub fn reply_to(made: Result<(), NotMade>) -> ArrayString<REPLY_MAX>
    ensures { result.bytes ≡ reply_to made }
{
    match made {
        Ok(()) => ok(),
        Err(NotMade::Refused(reply)) => reply.text(),
        Err(NotMade::Unread | NotMade::Memory) => text_of_refusal(&EditFault::Memory),
    }
}

fn ok() -> ArrayString<REPLY_MAX>
    ensures { result.bytes ≡ ok_text }
{
    let mut text = ArrayString::new();
    text.push_str("ok");
    text
}
