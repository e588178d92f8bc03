ghost use Rattle.std.specs.Prelude.{◌≡◌, ◌≤◌, ◌↔◌, IsTrue, MatchOption, Some, ◌⊎◌};
ghost use Rattle.shogi_board.specs.Cells.{at, piece, HasPawnOnFile};
ghost use Rattle.shogi_board.specs.declared.kind.Kind.{Kind};
ghost use Rattle.shogi_board.specs.declared.kind.Kind.TheVariants.{Pawn};
ghost use Rattle.shogi_board.specs.Pieces.{promoted};
ghost use Rattle.shogi_board.specs.Kinds.{InZone, rank_for, last_rank};
ghost use Rattle.shogi_board.specs.Legal.{FitsBoard};
ghost use Rattle.shogi_board.specs.Rules.{KeepsRule, board_rules, IsFirstBroken};
ghost use Rattle.shogi_board.specs.declared.moves.Move.{Move};

use crate::color::Color;
use crate::kind::{Kind, Piece};
use crate::kinds::{in_zone, last_rank, rank_for};
use crate::moves::Move;
use crate::position::{Position, piece_reaches};
use crate::rule::Rule;
use crate::square::Square;

// The kind of the piece on the square, if it is one of the side to move.
fn own_kind_at(position: &Position, square: Square) -> Option<Kind>
    ensures { MatchOption result
        ((kind : Kind) → at position.now.material.board square ≡ piece position.now.side kind → ⊥)
        (λ kind. at position.now.material.board square ≡ piece position.now.side kind) }
{
    let piece = position.piece_at(square)?;
    if piece.color == position.side() {
        Some(piece.kind)
    } else {
        None
    }
}

// Whether a piece of the one kind may be of the other after a walk.
fn becomes(was: Kind, kind: Kind) -> bool
    ensures { IsTrue result ↔ ((kind ≡ was) ⊎ (promoted was ≡ Some kind)) }
{
    kind == was || was.promoted() == Some(kind)
}

// Whether the move leaves the piece where its kind still has a move.
fn has_further_move(color: Color, to: Square, kind: Kind) -> bool
    ensures { IsTrue result ↔ (last_rank kind ≤ rank_for color to) }
{
    last_rank(kind) <= rank_for(color, to)
}

// Whether the kind stays, or the walk leaves or enters the last three ranks.
fn may_promote(color: Color, was: Kind, from: Square, to: Square, kind: Kind) -> bool
    ensures { IsTrue result ↔ ((kind ≡ was) ⊎ InZone color from ⊎ InZone color to) }
{
    kind == was || in_zone(color, from) || in_zone(color, to)
}

// Whether the side to move has another unpromoted pawn on the file.
fn doubles_pawn(position: &Position, to: Square, kind: Kind) -> bool
    ensures { IsTrue result
        ↔ ((kind ≡ Pawn) × HasPawnOnFile position.now.material.board position.now.side to) }
{
    kind == Kind::Pawn && position.pawn_on_file(position.side(), to)
}

// The first of the rules 3 to 9 that the side to move breaks by the move.
#[inline(always)]
pub(crate) fn broken_on_board(position: &Position, mv: &Move) -> Option<Rule>
    ensures { MatchOption result
        (FitsBoard position.now mv.now)
        (λ rule. IsFirstBroken (KeepsRule position.now mv.now) board_rules (Some rule)) }
{
    match *mv {
        Move::Walk { from, to, kind } => broken_by_walk(position, from, to, kind),
        Move::Put { to, kind } => broken_by_drop(position, to, kind),
    }
}

// As `broken_on_board`, for a walk.
#[inline(always)]
fn broken_by_walk(position: &Position, from: Square, to: Square, kind: Kind) -> Option<Rule>
    ensures { MatchOption result
        (FitsBoard position.now (Move.Walk from to kind))
        (λ rule. IsFirstBroken
        (KeepsRule position.now (Move.Walk from to kind)) board_rules (Some rule)) }
{
    let side = position.side();
    let Some(was) = own_kind_at(position, from) else {
        return Some(Rule::NoPiece);
    };
    if !becomes(was, kind) {
        Some(Rule::WrongKind)
    } else if own_kind_at(position, to).is_some() {
        Some(Rule::Occupied)
    } else if !piece_reaches(
        position,
        Piece {
            color: side,
            kind: was,
        },
        from,
        to,
    ) {
        Some(Rule::CannotReach)
    } else if !may_promote(side, was, from, to, kind) {
        Some(Rule::BadPromotion)
    } else if !has_further_move(side, to, kind) {
        Some(Rule::MustPromote)
    } else {
        None
    }
}

// As `broken_on_board`, for a drop.
fn broken_by_drop(position: &Position, to: Square, kind: Kind) -> Option<Rule>
    ensures { MatchOption result
        (FitsBoard position.now (Move.Put to kind))
        (λ rule. IsFirstBroken
        (KeepsRule position.now (Move.Put to kind)) board_rules (Some rule)) }
{
    let side = position.side();
    if position.hand(side).count(kind) == 0 {
        Some(Rule::NoPiece)
    } else if position.piece_at(to).is_some() {
        Some(Rule::Occupied)
    } else if !has_further_move(side, to, kind) {
        Some(Rule::MustPromote)
    } else if doubles_pawn(position, to, kind) {
        Some(Rule::DoubledPawn)
    } else {
        None
    }
}
