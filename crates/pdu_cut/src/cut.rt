//! What a receive buffer shows at its front, and why a stream has one cut.
ghost use Rattle.std.specs.Prelude.{◌≡◌, ℕ, List};
ghost use Rattle.pdu_cut.specs.declared.side.Side.{Side};
ghost use Rattle.pdu_cut.specs.Pdu.{Pdu};
ghost use Rattle.pdu_cut.specs.Stream.{IsCut};

use crate::view::PduView;
use nvt_fields::FatalErrorStatus;

/// The front of the bytes that a buffer holds (TCP Transport 1.0, section 3.6).
#[derive(Debug, Drop)]
pub enum Cut<'a> {
    /// Less than a whole PDU.
    More,
    /// A whole PDU, whatever follows.
    Pdu(PduView<'a>),
    /// The first fault of the common header: a fatal error status, the offset of the field in
    /// error, and the header's 8 bytes.
    Fault {
        fes: FatalErrorStatus,
        fei: u32,
        head: &'a [u8],
    },
}

/// A law: each stream is cut into PDUs in exactly one way, whatever pieces it comes in.
pub fn one_cut()
    ensures there_is { (side : Side) (stream : List ℕ)
        → (pdus : List Pdu) × (rest : List ℕ) × IsCut side stream pdus rest }
    ensures no_other { (side : Side) (stream : List ℕ) (pdus others : List Pdu)
        (rest other_rest : List ℕ)
        → IsCut side stream pdus rest → IsCut side stream others other_rest
        → (others ≡ pdus) × (other_rest ≡ rest) }
{}
