ghost use Rattle.std.specs.Prelude.{◌≡◌};
ghost use Rattle.pdu_codec.specs.SqeFields.{sqe_entry, command_head, command_dwords};
ghost use Rattle.pdu_codec.specs.SqeFields.{data_descriptor, block_descriptor};

// A fused operation that is none, and an SGL in place of PRPs: bits 7:6 are 1.
const SGL_FLAGS: u8 = 0x40;

// Types of SGL descriptors, with their subtypes.

const CAPSULE_OFFSET: u8 = 0x01;

const TRANSPORT: u8 = 0x5A;

/// Where a host says that the data of its command is: what SGL 1 describes, from address 0 on
/// (Base 2.0, section 4.1.2).
#[derive(Clone, Copy, Debug, PartialEq, Eq)]
pub enum DataSgl {
    /// There is no data: a data block of length 0 that the transport moves (5Ah).
    NoData,
    /// A data block in the capsule, of so many bytes (01h).
    InCapsule(u32),
    /// A data block that the transport moves, of so many bytes (5Ah).
    Transport(u32),
}

impl DataSgl {
    // The descriptor.
    fn descriptor(self) -> [u8; 16]
        ensures { result ≡ data_descriptor self }
    {
        match self {
            DataSgl::NoData => block_descriptor(0, TRANSPORT),
            DataSgl::InCapsule(len) => block_descriptor(len, CAPSULE_OFFSET),
            DataSgl::Transport(len) => block_descriptor(len, TRANSPORT),
        }
    }
}

// The descriptor of a data block at address 0.
fn block_descriptor(len: u32, code: u8) -> [u8; 16]
    ensures { result ≡ block_descriptor len code }
{
    let len = len.to_le_bytes();
    [
        0, 0, 0, 0, 0, 0, 0, 0, len[0], len[1], len[2], len[3], 0, 0, 0, code,
    ]
}

/// A submission queue entry as a host writes it: not fused, without metadata, its data described by an
/// SGL (Base 2.0, section 3.3.3.1).
#[derive(Clone, Copy, Debug, PartialEq, Eq)]
pub struct SqeFields {
    pub opcode: u8,
    /// Command identifier.
    pub cid: u16,
    /// Namespace identifier. In a Fabrics command its lowest byte is the command type.
    pub nsid: u32,
    pub sgl1: DataSgl,
    /// Command dwords 10 to 15.
    pub cdw: [u32; 6],
}

impl SqeFields {
    /// The entry, of 64 bytes.
    pub fn entry(&self) -> [u8; 64]
        ensures { result ≡ sqe_entry self.now }
    {
        let mut entry = [0; 64];
        entry[..8].copy_from_slice(&self.head());
        entry[24..40].copy_from_slice(&self.sgl1.descriptor());
        entry[40..].copy_from_slice(&self.dwords());
        entry
    }

    // What stands before the reserved dwords.
    fn head(&self) -> [u8; 8]
        ensures { result ≡ command_head self.now }
    {
        let cid = self.cid.to_le_bytes();
        let nsid = self.nsid.to_le_bytes();
        [
            self.opcode,
            SGL_FLAGS,
            cid[0],
            cid[1],
            nsid[0],
            nsid[1],
            nsid[2],
            nsid[3],
        ]
    }

    // What stands after the descriptor.
    fn dwords(&self) -> [u8; 24]
        ensures { result ≡ command_dwords self.now.cdw }
    {
        let a = self.cdw[0].to_le_bytes();
        let b = self.cdw[1].to_le_bytes();
        let c = self.cdw[2].to_le_bytes();
        let d = self.cdw[3].to_le_bytes();
        let e = self.cdw[4].to_le_bytes();
        let f = self.cdw[5].to_le_bytes();
        [
            a[0], a[1], a[2], a[3], b[0], b[1], b[2], b[3], c[0], c[1], c[2], c[3], d[0], d[1],
            d[2], d[3], e[0], e[1], e[2], e[3], f[0], f[1], f[2], f[3],
        ]
    }
}
