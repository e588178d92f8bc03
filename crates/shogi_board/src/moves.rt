ghost use Rattle.std.specs.Prelude.{◌≡◌};
ghost use Rattle.shogi_board.specs.Legal.{target, kind_after};
ghost use Rattle.shogi_board.specs.MoveSquares.{source};

use crate::kind::Kind;
use crate::square::Square;

/// A move: of a piece on the board, or of one from the hand. It does not say whose it is.
#[derive(Clone, Copy, Debug, PartialEq, Eq)]
pub enum Move {
    /// The piece on `from` goes to `to`, and is of this kind afterwards.
    Walk {
        from: Square,
        to: Square,
        kind: Kind,
    },
    /// A piece of this kind is put on `to` from the hand.
    Put {
        to: Square,
        kind: Kind,
    },
}

impl Move {
    // The square that the piece goes to.
    pub(crate) fn target(self) -> Square
        ensures value { result ≡ target self }
    {
        match self {
            Move::Walk { to, .. } | Move::Put { to, .. } => to,
        }
    }

    // The square that the piece leaves, if it stood on one.
    pub(crate) fn source(self) -> Option<Square>
        ensures { result ≡ source self }
    {
        match self {
            Move::Walk { from, .. } => Some(from),
            Move::Put { .. } => None,
        }
    }

    // The kind of the piece after the move.
    pub(crate) fn kind(self) -> Kind
        ensures value { result ≡ kind_after self }
    {
        match self {
            Move::Walk { kind, .. } | Move::Put { kind, .. } => kind,
        }
    }
}
