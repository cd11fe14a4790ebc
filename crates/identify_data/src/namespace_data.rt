//! The Identify Namespace data structure (NVM Command Set 1.0, section 4.1.5.1).
ghost use Rattle.std.specs.Prelude.{◌≡◌, length};
ghost use Rattle.std.specs.Option.{option_copied};
ghost use Rattle.identify_data.specs.Namespace.{lbads_of, namespace_data, namespace_fields};
ghost use Rattle.identify_data.specs.Fields.{with_fields};

use crate::fields::{clear, put_byte, put_dword, put_qword};
use config_lists::{BlockSize, Namespace};

/// Writes the Identify Namespace data structure, of 4,096 bytes, whatever stood there. `None` is an
/// identifier that is not active: zeros.
#[tactic(auto, unfolding(crate::specs::Namespace::namespace_data))]
pub fn namespace(namespace: Option<&Namespace>, out: &mut [u8])
    requires { length out.old ≡ 4096 }
    ensures { out.new ≡ namespace_data (option_copied namespace.entry) }
{
    clear(out);
    let Some(namespace) = namespace else {
        return;
    };
    put_fields(namespace, out);
}

fn put_fields(namespace: &Namespace, out: &mut [u8])
    requires { length out.old ≡ 4096 }
    ensures { out.new ≡ with_fields (namespace_fields namespace.now) out.old }
{
    put_qword(out, 0, namespace.blocks); // NSZE
    put_qword(out, 8, namespace.blocks); // NCAP
    put_qword(out, 16, namespace.blocks); // NUSE
    put_byte(out, 26, 0); // FLBAS
    put_byte(out, 30, 1); // NMIC
    put_dword(out, 92, namespace.group); // ANAGRPID
    put_dword(out, 128, lbads(namespace.block_size) << 16); // LBAF0, with LBADS in bits 23:16
}

// LBADS: a block has 2 to this power of bytes.
fn lbads(block_size: BlockSize) -> u32
    ensures { result ≡ lbads_of block_size }
{
    match block_size {
        BlockSize::Bytes512 => 9,
        BlockSize::Bytes4096 => 12,
    }
}
