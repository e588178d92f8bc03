ghost use Rattle.std.specs.Prelude.{◌≡◌, ◌↔◌, IsTrue, MatchOption, true, false};
ghost use Rattle.shogi_board.specs.After.{after, board_after};
ghost use Rattle.shogi_board.specs.Cells.{at, piece};
ghost use Rattle.shogi_board.specs.Danger.{ComesFrom};
ghost use Rattle.shogi_board.specs.Legal.{FitsBoard, KingSafe};
ghost use Rattle.shogi_board.specs.Placed.{Placed};
ghost use Rattle.shogi_board.specs.Reach.{Checks, InCheck};
ghost use Rattle.shogi_board.specs.Sound.{IsSound};
ghost use Rattle.shogi_board.specs.declared.kind.Kind.TheVariants.{King};
ghost use Rattle.shogi_board.specs.declared.square.Square.{Square};

use crate::danger::Danger;
use crate::kind::Piece;
use crate::moves::Move;
use crate::position::{Position, attacker_towards, piece_reaches};
use crate::square::Square;

// Makes the position the one after a move that fits the board, if it leaves the mover's king safe,
// and returns whether it does; else the position stays as it was. The danger says where that king
// may be attacked from after the move.
#[inline(always)]
pub(crate) fn make(position: &mut Position, danger: Danger, mv: &Move) -> bool
    requires sound { IsSound position.old }
    requires fits { FitsBoard position.old mv.now }
    requires danger { (s : Square)
        → at (board_after position.old mv.now) s ≡ piece position.old.side King
        → ComesFrom (board_after position.old mv.now) position.old.side s danger }
    ensures safe { IsTrue result ↔ KingSafe position.old mv.now }
    ensures value { result ≡ true → position.new ≡ after position.old mv.now }
    ensures unchanged { result ≡ false → position.new ≡ position.old }
{
    match *mv {
        Move::Walk { from, to, kind } => position.walk(from, to, kind, danger),
        Move::Put { to, kind } => position.drop_piece(to, kind, danger),
    }
}

// The square of a piece that checks the side to move in the position after a move from a sound one.
// If its king is attacked, then by the piece that moved, or in the direction of the square that was
// left.
#[inline(always)]
pub(crate) fn checker_after(next: &Position, mv: &Move) -> Option<Square>
    requires { (last : Placed) × IsSound last × (next.now ≡ after last mv.now) }
    ensures { MatchOption result
        (InCheck next.now.material.board next.now.side → ⊥)
        (Checks next.now.material.board next.now.side) }
{
    let side = next.side();
    let Some(king) = next.king(side) else {
        return None;
    };
    let piece = Piece {
        color: !side,
        kind: mv.kind(),
    };
    let to = mv.target();
    if piece_reaches(next, piece, to, king) {
        return Some(to);
    }
    match mv.source() {
        Some(from) => attacker_towards(next, side, king, from),
        None => None,
    }
}
