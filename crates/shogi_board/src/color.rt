ghost use Rattle.std.specs.Prelude.{◌≡◌};
ghost use Rattle.shogi_board.specs.Pieces.{opponent};

use std::ops::Not;

/// A side of the game.
///
/// Black (sente) moves first in an even game and is written `+` in CSA, white (gote) is written
/// `-`.
#[derive(Clone, Copy, Debug, PartialEq, Eq, PartialOrd, Ord)]
pub enum Color {
    Black,
    White,
}

/// `!color` is the other side.
impl Not for Color {
    type Output = Color;

    ghost not_gives = { λ color other. other ≡ opponent color };

    fn not(self) -> Color {
        match self {
            Color::Black => Color::White,
            Color::White => Color::Black,
        }
    }
}
