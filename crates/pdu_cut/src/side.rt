//! The two sides of a connection, and what each may be sent.
ghost use Rattle.std.specs.Prelude.{◌≡◌};
ghost use Rattle.pdu_cut.specs.Side.{capacity_of, comes_to};

use nvt_fields::PduType;

/// The side that receives a stream: the target, which has the controllers, or the host.
#[derive(Clone, Copy, Debug, PartialEq, Eq)]
pub enum Side {
    Target,
    Host,
}

impl Side {
    /// The size of this side's receive buffer in bytes: that of the longest PDU that may come.
    pub(crate) fn capacity(self) -> usize
        ensures { result ≡ capacity_of self }
    {
        match self {
            Side::Target => 32_768,
            Side::Host => 135_168,
        }
    }

    /// Whether PDUs of this type are sent to this side.
    pub(crate) fn expects(self, kind: PduType) -> bool
        ensures { result ≡ comes_to self kind }
    {
        match self {
            Side::Target => matches!(
                kind,
                PduType::IcReq | PduType::H2cTermReq | PduType::CapsuleCmd | PduType::H2cData
            ),
            Side::Host => matches!(
                kind,
                PduType::IcResp
                    | PduType::C2hTermReq
                    | PduType::CapsuleResp
                    | PduType::C2hData
                    | PduType::R2t
            ),
        }
    }
}
