//! The Connect of a queue.
ghost use Rattle.std.specs.Prelude.{◌≡◌, ◌≤◌, ◌<◌, ◌+◌, ◌++◌, ◌^◌, length};
ghost use Rattle.host_driver.specs.Connect.{connect_data_of, connect_entry, connect_of};

use crate::params::HostParams;
use bytes::BytesMut;
use pdu_codec::{CapsuleCmd, Connect, ConnectDataFields, DataSgl, SqeFields};

/// The length of a Connect's data, in bytes.
const CONNECT_DATA_LEN: usize = 1024;

/// The most room that a Connect's capsule takes, in bytes.
pub const CONNECT_ROOM: usize = 200 + CONNECT_DATA_LEN;

/// Appends the Connect's capsule, with its data in it, to where there is room for it.
#[tactic(auto, unfolding(crate::specs::Connect::connect_of))]
pub fn write_connect(params: &HostParams, cpda: u8, out: &mut BytesMut)
    requires alignment { cpda ≤ 31 }
    requires room { 1224 ≤ out.old.spare }
    ensures items { out.new.items ≡ out.old.items ++ connect_of cpda params.now }
    ensures spare { out.old.spare ≤ out.new.spare + 1224 }
{
    let data = connect_data(params);
    let capsule = CapsuleCmd {
        sqe: connect_entry(params),
        cpda,
        payload: &data,
    };
    capsule.write(out).unwrap();
}

// Connect's entry: Fabrics opcode, type 01h, command 0; RECFMT and CATTR are 0 (Fabrics 1.1, section 3.3).
fn connect_entry(params: &HostParams) -> SqeFields
    ensures { result ≡ connect_entry params.now }
{
    let connect = Connect {
        recfmt: 0,
        qid: params.qid,
        sqsize: params.sqsize,
        cattr: 0,
        kato: params.kato,
    };
    SqeFields {
        opcode: 0x7f,
        cid: 0,
        nsid: 1,
        sgl1: DataSgl::InCapsule(CONNECT_DATA_LEN as u32),
        cdw: connect.dwords(),
    }
}

#[tactic(auto, unfolding(crate::specs::Connect::connect_data_of))]
fn connect_data(params: &HostParams) -> [u8; CONNECT_DATA_LEN]
    ensures { result ≡ connect_data_of params.now }
{
    // prover: a name has at most 223 bytes
    params.subnqn.len();
    params.hostnqn.len();
    let mut data = [0; CONNECT_DATA_LEN];
    let fields = ConnectDataFields {
        hostid: &params.hostid,
        cntlid: params.cntlid,
        subnqn: params.subnqn.as_bytes(),
        hostnqn: params.hostnqn.as_bytes(),
    };
    fields.write(&mut data);
    data
}
