ghost use Rattle.std.specs.Prelude.{◌≡◌, ◌≤◌, ◌+◌, length, slice_range};
ghost use Rattle.pdu_codec.specs.ConnectData.{hostid_of, cntlid_of, subnqn_of, hostnqn_of};

use nvt_fields::{u16_at, write_zeroed};

/// The data of a Connect command, 1,024 bytes, lent at their places (Base 2.0, section 6.3).
#[derive(Drop)]
pub struct ConnectData<'a> {
    /// Host identifier.
    pub hostid: &'a [u8; 16],
    /// Controller identifier, FFFFh where the host leaves it to the subsystem.
    pub cntlid: u16,
    /// The field of the subsystem's name.
    pub subnqn: &'a [u8; 256],
    /// The field of the host's name.
    pub hostnqn: &'a [u8; 256],
}

impl<'a> ConnectData<'a> {
    /// The length of the data, in bytes.
    pub const LEN: usize = 1024;

    // The offsets of the fields in the data.

    pub const HOSTID_AT: usize = 0;

    pub const CNTLID_AT: usize = 16;

    pub const SUBNQN_AT: usize = 256;

    pub const HOSTNQN_AT: usize = 512;

    /// The parts of the data.
    pub fn read(bytes: &'a [u8; ConnectData::LEN]) -> ConnectData<'a>
        ensures hostid { result.hostid.now ≡ hostid_of bytes.now }
        ensures cntlid { result.cntlid ≡ cntlid_of bytes.now }
        ensures subnqn { result.subnqn.now ≡ subnqn_of bytes.now }
        ensures hostnqn { result.hostnqn.now ≡ hostnqn_of bytes.now }
    {
        ConnectData {
            hostid: part(bytes, ConnectData::HOSTID_AT),
            cntlid: u16_at(bytes, ConnectData::CNTLID_AT),
            subnqn: part(bytes, ConnectData::SUBNQN_AT),
            hostnqn: part(bytes, ConnectData::HOSTNQN_AT),
        }
    }
}

/// The data of a Connect command as a host writes it: its names as they are, of at most 256 bytes each.
#[derive(Drop)]
pub struct ConnectDataFields<'a> {
    /// Host identifier.
    pub hostid: &'a [u8; 16],
    /// Controller identifier, FFFFh to leave it to the subsystem.
    pub cntlid: u16,
    /// The subsystem's name.
    pub subnqn: &'a [u8],
    /// The host's name.
    pub hostnqn: &'a [u8],
}

impl ConnectDataFields<'_> {
    ghost use Rattle.pdu_codec.specs.ConnectData.{connect_data};

    /// Writes the data over what stood there.
    pub fn write(&self, bytes: &mut [u8; ConnectData::LEN])
        requires subnqn { length self.now.subnqn.now ≤ 256 }
        requires hostnqn { length self.now.hostnqn.now ≤ 256 }
        ensures { bytes.new ≡ connect_data self.now.hostid.now self.now.cntlid
            self.now.subnqn.now self.now.hostnqn.now }
    {
        let hostid = self.hostid;
        let cntlid = self.cntlid.to_le_bytes();
        bytes.fill(0);
        bytes[..16].copy_from_slice(hostid);
        bytes[16..18].copy_from_slice(&cntlid);
        write_zeroed(&mut bytes[256..512], self.subnqn);
        write_zeroed(&mut bytes[512..768], self.hostnqn);
    }
}

fn part<const N: usize>(bytes: &[u8], at: usize) -> &[u8; N]
    requires { at + N ≤ length bytes.now }
    ensures { result.now ≡ slice_range bytes.now at (at + N) }
{
    <&[u8; N]>::try_from(&bytes[at..at + N]).unwrap()
}
