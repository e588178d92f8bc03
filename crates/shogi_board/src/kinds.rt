ghost use Rattle.std.specs.Prelude.{◌≡◌, ◌↔◌, IsTrue};
ghost use Rattle.shogi_board.specs.Kinds.{rank_for, InZone, last_rank};

use crate::color::Color;
use crate::kind::Kind;
use crate::square::Square;

// The rank as that side counts it, its last rank being 1.
pub(crate) fn rank_for(color: Color, square: Square) -> u8
    ensures { result ≡ rank_for color square }
{
    match color {
        Color::Black => square.rank(),
        Color::White => 10 - square.rank(),
    }
}

// Whether the square lies in the last three ranks of that side.
pub(crate) fn in_zone(color: Color, square: Square) -> bool
    ensures { IsTrue result ↔ InZone color square }
{
    rank_for(color, square) <= 3
}

// The last rank on which a piece of that kind still has a move.
pub(crate) fn last_rank(kind: Kind) -> u8
    ensures { result ≡ last_rank kind }
{
    match kind {
        Kind::Pawn | Kind::Lance => 2,
        Kind::Knight => 3,
        _ => 1,
    }
}
