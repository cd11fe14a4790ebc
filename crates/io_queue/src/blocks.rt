//! The blocks of a command (NVM Command Set 1.0, section 3.2).
ghost use Rattle.std.specs.Prelude.{◌≡◌};
ghost use Rattle.io_queue.specs.Blocks.{data_len, in_range, limited, units_of};
ghost use Rattle.io_queue.specs.Reach.{IsSmall};

use crate::operation::Extent;
use config_lists::{BlockSize, Namespace};
use nvt_fields::Status;
use pdu_codec::BlockCommand;

/// The most bytes that a command moves (MDTS; Base 2.0, section 5.17.2.1).
const DATA_MAX: u64 = 131_072;

/// The extent of a command that moves its data.
pub(crate) fn limited(namespace: &Namespace, command: &BlockCommand) -> Result<Extent, Status>
    requires { IsSmall namespace.now }
    ensures { result ≡ limited namespace.now command.now }
{
    if data_len(namespace, command) > DATA_MAX {
        return Err(Status::INVALID_FIELD);
    }
    in_range(namespace, command)
}

/// The extent of a command, whose blocks the namespace has to have.
pub(crate) fn in_range(namespace: &Namespace, command: &BlockCommand) -> Result<Extent, Status>
    requires { IsSmall namespace.now }
    ensures { result ≡ in_range namespace.now command.now }
{
    let blocks = u64::from(command.blocks);
    if command.first > namespace.blocks || blocks > namespace.blocks - command.first {
        return Err(Status::LBA_OUT_OF_RANGE);
    }
    let block = units_of(namespace.block_size);
    Ok(Extent {
        disk: namespace.disk,
        first: command.first * block,
        units: blocks * block,
    })
}

/// How many bytes the blocks of a command have.
pub(crate) fn data_len(namespace: &Namespace, command: &BlockCommand) -> u64
    ensures { result ≡ data_len namespace.now command.now }
{
    u64::from(command.blocks) * namespace.block_size.bytes()
}

// How many units a block has.
fn units_of(size: BlockSize) -> u64
    ensures { result ≡ units_of size }
{
    match size {
        BlockSize::Bytes512 => 1,
        BlockSize::Bytes4096 => 8,
    }
}
