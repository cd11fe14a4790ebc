//! The first PDU that a controller sends.
ghost use Rattle.std.specs.Prelude.{◌≡◌};
ghost use Rattle.host_driver.specs.Decision.{initialize};

use crate::decision::{HostDecision, terminate};
use crate::phase::TransportLimits;
use nvt_fields::FatalErrorStatus;
use pdu_codec::IcResp;

/// The least MAXH2CDATA that a controller may set, in bytes.
const MAXH2CDATA_LEAST: u32 = 4096;

/// The greatest CPDA: data begin at a multiple of 128 bytes.
const CPDA_GREATEST: u8 = 31;

/// What is owed to an ICResp that comes first.
pub(crate) fn initialize(response: IcResp) -> HostDecision
    ensures { result ≡ initialize response }
{
    if response.pfv != 0 {
        return terminate(FatalErrorStatus::UnsupportedParameter, 8);
    }
    if response.cpda > CPDA_GREATEST {
        return terminate(FatalErrorStatus::InvalidHeaderField, 10);
    }
    if response.dgst != 0 {
        return terminate(FatalErrorStatus::UnsupportedParameter, 11);
    }
    if response.maxh2cdata < MAXH2CDATA_LEAST || response.maxh2cdata % 4 != 0 {
        return terminate(FatalErrorStatus::InvalidHeaderField, 12);
    }
    HostDecision::Initialize(TransportLimits {
        cpda: response.cpda,
        maxh2cdata: response.maxh2cdata,
    })
}
