//! ANA states as a log page has them.
ghost use Rattle.std.specs.Prelude.{◌≡◌};
ghost use Rattle.ana_view.specs.Group.{state_code};

use nvt_config::AnaState;

/// The code of a state (Base 2.0, section 5.16.1.13).
pub(crate) fn state_code(state: AnaState) -> u8
    ensures { result ≡ state_code state }
{
    match state {
        AnaState::Optimized => 0x1,
        AnaState::NonOptimized => 0x2,
        AnaState::Inaccessible => 0x3,
        AnaState::PersistentLoss => 0x4,
        AnaState::Change => 0xF,
    }
}
