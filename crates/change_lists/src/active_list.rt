//! The bytes of the Active Namespace ID list (Base 2.0, section 5.17.2.2).
ghost use Rattle.std.specs.Prelude.{◌≡◌, length};
ghost use Rattle.nvt_fields.specs.Window.{window};
ghost use Rattle.change_lists.specs.ActiveList.{NsidsAreListed, list_page, nsids_above};

use nvt_fields::write_part;

// How many bytes an identifier has.
const NSID_LEN: u64 = 4;

/// Fills `out` with those of a list that are above an identifier, and with zeros past their end.
pub(crate) fn write_list(out: &mut [u8], nsids: &[u32], above: u32)
    ensures { out.new ≡ window (list_page (nsids_above above nsids.now)) 0 (length out.old) }
{
    out.fill(0);
    let mut at = 0;
    for &nsid in nsids {
        if nsid > above {
            write_part(out, 0, at, &nsid.to_le_bytes());
            at += NSID_LEN;
        }
    }
}

/// Whatever a configuration holds, the list of a subsystem above an identifier, as a host sees it, is
/// strictly rising, has exactly the identifiers above it of the subsystem's namespaces that the host
/// sees, and fits the 4,096 bytes of an Identify. This is a fact of the definitions; a call does nothing.
pub fn nsids_are_listed()
    ensures { NsidsAreListed }
{}
