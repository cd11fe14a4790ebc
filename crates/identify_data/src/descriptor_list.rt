//! The Namespace Identification Descriptor list (Base 2.0, section 5.17.2.3).
ghost use Rattle.std.specs.Prelude.{◌≡◌, length};
ghost use Rattle.identify_data.specs.Descriptors.{descriptor_fields, descriptor_list};
ghost use Rattle.identify_data.specs.Fields.{with_fields};

use crate::fields::{clear, put, put_byte};
use config_lists::Namespace;

// NIDT and NIDL of a UUID.
const UUID_TYPE: u8 = 0x03;

const UUID_LEN: u8 = 0x10;

/// Writes the list of the descriptors of a namespace, of 4,096 bytes, whatever stood there: one, its
/// UUID.
#[tactic(auto, using(crate::proofs::Parts::table_of), unfolding(crate::specs::Descriptors::descriptor_list))]
pub fn descriptors(namespace: &Namespace, out: &mut [u8])
    requires { length out.old ≡ 4096 }
    ensures { out.new ≡ descriptor_list namespace.now }
{
    clear(out);
    put_uuid(namespace, out);
}

fn put_uuid(namespace: &Namespace, out: &mut [u8])
    requires { length out.old ≡ 4096 }
    ensures { out.new ≡ with_fields (descriptor_fields namespace.now) out.old }
{
    put_byte(out, 0, UUID_TYPE); // NIDT
    put_byte(out, 1, UUID_LEN); // NIDL
    put(out, 4, namespace.uuid.as_bytes()); // NID
}
