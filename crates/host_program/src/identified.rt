//! What a host has to know of a namespace.
ghost use Rattle.std.specs.Prelude.{◌≡◌, ◌<◌, ◌≤◌, IfOk, IfSome};
ghost use Rattle.host_program.specs.Asked.{block_len_of};
ghost use Rattle.host_program.specs.Asking.{AsksBlockLen};

use crate::asked::ask;
use host_link::commands::identify;
use host_link::{Link, LinkSession, SessionFault};
use std::alloc::Global;

/// Identify: a namespace (Base 2.0, section 5.17.2.1).
const NAMESPACE: u8 = 0x00;

// Where FLBAS stands, and the first format.
const FORMATTED_LBA_SIZE: usize = 26;

const LBA_FORMATS: usize = 128;

/// The length of the blocks of a namespace, in bytes.
pub(crate) fn ask_block_len<L: Link + Drop>(
    alloc: Global,
    session: &mut LinkSession<L>,
    nsid: u32,
) -> Result<u32, SessionFault>
    ensures asks { AsksBlockLen nsid result session.old session.new }
    ensures some { IfOk result (λ len. 0 < len) }
    ensures most { IfOk result (λ len. len ≤ 4096) }
{
    let namespace = ask(session, &identify(alloc, NAMESPACE, nsid))?;
    match block_len(&namespace) {
        Some(len) => Ok(len),
        None => Err(SessionFault::BadPage),
    }
}

// The length of its blocks where it is 512 or 4,096 bytes, by LBADS of the format that is in use (NVM Command Set 1.0,
// section 4.1.5.1).
fn block_len(namespace: &[u8]) -> Option<u32>
    ensures value { result ≡ block_len_of namespace.now }
    ensures some { IfSome result (λ len. 0 < len) }
    ensures most { IfSome result (λ len. len ≤ 4096) }
{
    let format = usize::from(*namespace.get(FORMATTED_LBA_SIZE)? % 16);
    match namespace.get(LBA_FORMATS + 4 * format + 2)? {
        9 => Some(512),
        12 => Some(4096),
        _ => None,
    }
}
