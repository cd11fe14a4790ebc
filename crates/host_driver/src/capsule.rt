//! The capsule of a command.
ghost use Rattle.std.specs.Prelude.{◌≡◌, ◌≤◌, ◌<◌, ◌+◌, ◌++◌, length};
ghost use Rattle.host_driver.specs.Capsule.{capsule_entry, capsule_of, capsule_room};
ghost use Rattle.host_driver.specs.Command.{carried_by, data_of};

use crate::command::{Data, HostCommand};
use bytes::BytesMut;
use pdu_codec::{CapsuleCmd, SqeFields};

/// The most room that a command's capsule takes where its data move so, in bytes.
pub fn capsule_room(moves: Data) -> usize
    ensures { result ≡ capsule_room moves }
{
    match moves {
        Data::InCapsule(len) => 200 + len as usize,
        Data::Requested(_) | Data::Wanted(_) => 200,
    }
}

/// Appends a command's capsule, of this command identifier, to where there is room for it. At most
/// `in_capsule` bytes of data go in it.
#[tactic(auto, unfolding(crate::specs::Capsule::capsule_of))]
pub fn write_capsule(command: &HostCommand, cid: u16, in_capsule: u32, cpda: u8, out: &mut BytesMut)
    requires alignment { cpda ≤ 31 }
    requires length { length command.now.out ≤ 131072 }
    requires room { capsule_room (data_of in_capsule command.now) ≤ out.old.spare }
    ensures items { out.new.items ≡ out.old.items ++ capsule_of in_capsule cpda cid command.now }
    ensures spare { out.old.spare ≤ out.new.spare + capsule_room (data_of in_capsule command.now) }
{
    let moves = command.data(in_capsule);
    let capsule = CapsuleCmd {
        sqe: entry(command, cid, moves),
        cpda,
        payload: carried(command, moves),
    };
    capsule.write(out).unwrap();
}

fn entry(command: &HostCommand, cid: u16, moves: Data) -> SqeFields
    ensures { result ≡ capsule_entry command.now cid moves }
{
    SqeFields {
        opcode: command.opcode,
        cid,
        nsid: command.nsid,
        sgl1: moves.descriptor(),
        cdw: command.cdw,
    }
}

// The data that go in the capsule.
fn carried(command: &HostCommand, moves: Data) -> &[u8]
    ensures { result.now ≡ carried_by moves command.now.out }
{
    match moves {
        Data::InCapsule(_) => command.out.as_slice(),
        Data::Requested(_) | Data::Wanted(_) => &[],
    }
}
