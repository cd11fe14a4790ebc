//! The sides of a connection, as types.
ghost use Rattle.std.specs.Prelude.{◌≡◌};
ghost use Rattle.pdu_cut.specs.declared.side.Side.{Side};
ghost use Rattle.pdu_cut.specs.declared.side.Side.TheVariants.{Host, Target};

use crate::Side;

/// A side of a connection, as a type.
pub trait Receiver {
    ghost side: { Side };

    /// The side that it is.
    fn side() -> Side
        ensures { result ≡ side };
}

/// The target's side.
#[derive(Clone, Copy, Debug)]
pub struct OfTarget;

impl Receiver for OfTarget {
    ghost side = { Target };

    fn side() -> Side {
        Side::Target
    }
}

/// The host's side.
#[derive(Clone, Copy, Debug)]
pub struct OfHost;

impl Receiver for OfHost {
    ghost side = { Host };

    fn side() -> Side {
        Side::Host
    }
}
