ghost use Rattle.std.specs.Prelude.{◌≡◌};

/// The status of a completion (Base 2.0, section 3.3.3.2.1): a status code type, a status code, and
/// whether the host should not retry the command.
#[derive(Clone, Copy, Debug, PartialEq, Eq)]
pub struct Status {
    /// The status code type, below 8: 0 generic, 1 command specific, 2 media and data integrity, 3 path.
    pub sct: u8,
    pub sc: u8,
    /// Do not retry.
    pub dnr: bool,
}

impl Status {
    ghost use Rattle.nvt_fields.specs.Status.{word_of};

    pub const SUCCESS: Status = Status {
        sct: 0,
        sc: 0x00,
        dnr: false,
    };

    pub const INVALID_OPCODE: Status = Status {
        sct: 0,
        sc: 0x01,
        dnr: true,
    };

    pub const INVALID_FIELD: Status = Status {
        sct: 0,
        sc: 0x02,
        dnr: true,
    };

    /// A command with the same identifier is outstanding.
    pub const COMMAND_ID_CONFLICT: Status = Status {
        sct: 0,
        sc: 0x03,
        dnr: true,
    };

    pub const INVALID_NAMESPACE_OR_FORMAT: Status = Status {
        sct: 0,
        sc: 0x0B,
        dnr: true,
    };

    pub const COMMAND_SEQUENCE_ERROR: Status = Status {
        sct: 0,
        sc: 0x0C,
        dnr: true,
    };

    pub const DATA_SGL_LENGTH_INVALID: Status = Status {
        sct: 0,
        sc: 0x0F,
        dnr: true,
    };

    pub const SGL_TYPE_INVALID: Status = Status {
        sct: 0,
        sc: 0x11,
        dnr: true,
    };

    pub const SGL_OFFSET_INVALID: Status = Status {
        sct: 0,
        sc: 0x16,
        dnr: true,
    };

    /// The blocks of a command go past the end of its namespace.
    pub const LBA_OUT_OF_RANGE: Status = Status {
        sct: 0,
        sc: 0x80,
        dnr: true,
    };

    /// As many event requests wait as may.
    pub const ASYNCHRONOUS_EVENT_REQUEST_LIMIT_EXCEEDED: Status = Status {
        sct: 1,
        sc: 0x05,
        dnr: true,
    };

    pub const INVALID_LOG_PAGE: Status = Status {
        sct: 1,
        sc: 0x09,
        dnr: true,
    };

    pub const FEATURE_NOT_SAVEABLE: Status = Status {
        sct: 1,
        sc: 0x0D,
        dnr: true,
    };

    /// Connect: the record format is not one that the controller takes.
    pub const INCOMPATIBLE_FORMAT: Status = Status {
        sct: 1,
        sc: 0x80,
        dnr: true,
    };

    /// Connect: there are as many controllers as there may be.
    pub const CONNECT_CONTROLLER_BUSY: Status = Status {
        sct: 1,
        sc: 0x81,
        dnr: true,
    };

    /// Connect: a parameter, named by the result, is invalid.
    pub const CONNECT_INVALID_PARAMETERS: Status = Status {
        sct: 1,
        sc: 0x82,
        dnr: true,
    };

    /// Connect: the host may not use the subsystem.
    pub const CONNECT_INVALID_HOST: Status = Status {
        sct: 1,
        sc: 0x84,
        dnr: true,
    };

    pub const WRITE_FAULT: Status = Status {
        sct: 2,
        sc: 0x80,
        dnr: true,
    };

    pub const UNRECOVERED_READ_ERROR: Status = Status {
        sct: 2,
        sc: 0x81,
        dnr: true,
    };

    pub const COMPARE_FAILURE: Status = Status {
        sct: 2,
        sc: 0x85,
        dnr: true,
    };

    /// The namespace's ANA group is not reached through this controller's port for good.
    pub const ANA_PERSISTENT_LOSS: Status = Status {
        sct: 3,
        sc: 0x01,
        dnr: false,
    };

    /// .. is not reached now.
    pub const ANA_INACCESSIBLE: Status = Status {
        sct: 3,
        sc: 0x02,
        dnr: false,
    };

    /// .. goes over to another state.
    pub const ANA_TRANSITION: Status = Status {
        sct: 3,
        sc: 0x03,
        dnr: false,
    };

    /// The last 16 bits of a completion: the code in 8:1, the low three bits of its type in 11:9, and
    /// DNR in 15. The phase bit and the bits between are 0.
    pub fn word(self) -> u16
        ensures { result ≡ word_of self }
    {
        let retry = if self.dnr { 0x8000 } else { 0 };
        u16::from(self.sc) * 2 + u16::from(self.sct % 8) * 0x200 + retry
    }
}
