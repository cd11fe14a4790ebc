//! The pieces in which the data of a reply goes to the host.
ghost use Rattle.std.specs.Prelude.{◌≡◌};
ghost use Rattle.std.specs.Iterator.{YieldsFirst, item_count};
ghost use Rattle.data_transfer.specs.Pieces.{pieces};

use std::marker::Model;

/// The most data of one C2HData that is sent, in bytes.
pub const PIECE_LEN: u32 = 32_768;

/// One of the C2HData that the data of a reply is split into (TCP Transport 1.0, section 3.6).
#[derive(Clone, Copy, Debug, PartialEq, Eq)]
pub struct Piece {
    /// DATAO: where its data begins, in bytes from the beginning of all.
    pub offset: u32,
    /// DATAL: how many bytes of data it has.
    pub len: u32,
    /// LAST_PDU: whether no other piece follows.
    pub last: bool,
}

/// What is left of a split into pieces, by rising offset. A contract sees the pieces as a list.
#[derive(Drop)]
pub struct Split {
    offset: u32,
    left: u32,
}

impl Model for Split {
    ghost use Rattle.std.specs.Prelude.{◌+◌, ◌<◌, ◌^◌, List};
    ghost use Rattle.data_transfer.specs.declared.piece.Piece.{Piece};
    ghost use Rattle.data_transfer.specs.Pieces.{pieces_from};

    ghost Value = { List Piece };

    ghost view = { λ p. pieces_from p.offset p.left };

    ghost invariant = { λ p. p.offset + p.left < 2 ^ 32 };
}

/// The pieces of so many bytes: 32,768 bytes each, the last with what is left, and none of no bytes.
pub fn pieces(len: u32) -> Split
    ensures { result ≡ pieces len }
{
    Split {
        offset: 0,
        left: len,
    }
}

impl Iterator for Split {
    type Item = Piece;

    ghost next_gives = { YieldsFirst (λ left. left) };

    ghost remaining = { item_count (λ left. left) };

    #[tactic(auto, using(crate::proofs::Splits::splits))]
    fn next(&mut self) -> Option<Piece> {
        if self.left == 0 {
            return None;
        }
        let len = self.left.min(PIECE_LEN);
        let piece = Piece {
            offset: self.offset,
            len,
            last: len == self.left,
        };
        self.offset += len;
        self.left -= len;
        Some(piece)
    }
}
