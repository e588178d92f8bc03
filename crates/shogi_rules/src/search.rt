ghost use Rattle.std.specs.Prelude.{◌≡◌, ◌<◌, ◌↔◌, IsTrue, MatchOption, true};
ghost use Rattle.shogi_board.specs.Cells.{at, piece};
ghost use Rattle.shogi_board.specs.Pieces.{is_hand_kind, place_of};
ghost use Rattle.shogi_board.specs.Squares.{place};
ghost use Rattle.shogi_board.specs.declared.kind.Kind.{Kind};
ghost use Rattle.shogi_board.specs.declared.kind.Kind.TheVariants.{Pawn};
ghost use Rattle.shogi_rules.specs.Evasions.{MovesFrom};
ghost use Rattle.shogi_board.specs.Legal.{Legal, IsPawnDrop};
ghost use Rattle.shogi_rules.specs.Order.{IsFirstLegal};
ghost use Rattle.shogi_rules.specs.Trying.{IsFirstOf, NoneOf, IsWalk, IsDrop, IsDropOf, IsWalkBetween};
ghost use Rattle.shogi_rules.specs.Verdicts.{NoLegalMove};

use crate::judging::broken_by_side;
use shogi_board::{Kind, Move, Position, Situation, Square, reaches};

// The kinds that a hand holds, in order.
pub(crate) fn hand_kind(n: usize) -> Kind
    requires { n < 7 }
    ensures kind { (kind : Kind) → is_hand_kind kind ≡ true → place_of kind ≡ n → result ≡ kind }
    ensures place { place_of result ≡ n }
{
    match n {
        0 => Kind::Pawn,
        1 => Kind::Lance,
        2 => Kind::Knight,
        3 => Kind::Silver,
        4 => Kind::Gold,
        5 => Kind::Bishop,
        _ => Kind::Rook,
    }
}

// The square at that place in the order of the squares, from 0 to 80.
pub(crate) fn square_at(n: usize) -> Square
    requires { n < 81 }
    ensures { place result ≡ n }
{
    Square::new((n / 9) as u8 + 1, (n % 9) as u8 + 1).unwrap()
}

// The kind of the piece on the square, if it is one of the side to move.
pub(crate) fn own_kind_at(situation: &Situation, square: Square) -> Option<Kind>
    ensures { MatchOption result
        ((kind : Kind) → at situation.now.material.board square ≡ piece situation.now.side kind
        → ⊥)
        (λ kind. at situation.now.material.board square ≡ piece situation.now.side kind) }
{
    let position = situation.as_ref();
    let piece = position.piece_at(square)?;
    if piece.color == position.side() {
        Some(piece.kind)
    } else {
        None
    }
}

pub(crate) fn is_pawn_drop(mv: &Move) -> bool
    ensures { IsTrue result ↔ IsPawnDrop mv.now }
{
    match *mv {
        Move::Walk { .. } => false,
        Move::Put { kind, .. } => kind == Kind::Pawn,
    }
}

// Whether the move of the side to move breaks none of the rules 3 to 11.
fn is_legal(situation: &Situation, mv: &Move) -> bool
    ensures { IsTrue result ↔ Legal situation.now mv.now }
{
    if is_pawn_drop(mv) {
        return broken_by_side(situation.as_ref(), mv).is_none();
    }
    situation.keeps(mv)
}

// The move, if it is legal.
fn if_legal(situation: &Situation, mv: Move) -> Option<Move>
    ensures { MatchOption result (Legal situation.now mv → ⊥)
        (λ m. (m ≡ mv) × Legal situation.now m) }
{
    if is_legal(situation, &mv) {
        Some(mv)
    } else {
        None
    }
}

// The first legal walk from the one square to the other, if the piece reaches it.
fn first_form(situation: &Situation, from: Square, to: Square) -> Option<Move>
    ensures { MatchOption result
        (NoneOf situation.now (IsWalkBetween from to))
        (λ m. IsFirstOf situation.now (IsWalkBetween from to) m) }
{
    let was = own_kind_at(situation, from)?;
    if !reaches(situation.as_ref(), from, to) {
        return None;
    }
    if let Some(mv) = if_legal(
        situation,
        Move::Walk {
            from,
            to,
            kind: was,
        },
    ) {
        return Some(mv);
    }
    let kind = was.promoted()?;
    if_legal(situation, Move::Walk { from, to, kind })
}

// The first legal walk from the square.
fn first_walk_from(situation: &Situation, from: Square) -> Option<Move>
    ensures { MatchOption result
        (NoneOf situation.now (MovesFrom from))
        (λ m. IsFirstOf situation.now (MovesFrom from) m) }
{
    if own_kind_at(situation, from).is_none() {
        return None;
    }
    for n in 0..81usize {
        if let Some(mv) = first_form(situation, from, square_at(n)) {
            return Some(mv);
        }
    }
    None
}

fn first_walk(situation: &Situation) -> Option<Move>
    ensures { MatchOption result (NoneOf situation.now IsWalk)
        (λ m. IsFirstOf situation.now IsWalk m) }
{
    for n in 0..81usize {
        if let Some(mv) = first_walk_from(situation, square_at(n)) {
            return Some(mv);
        }
    }
    None
}

// The first legal drop of that kind.
fn first_drop_of(situation: &Situation, kind: Kind) -> Option<Move>
    ensures { MatchOption result
        (NoneOf situation.now (IsDropOf kind))
        (λ m. IsFirstOf situation.now (IsDropOf kind) m) }
{
    let position = situation.as_ref();
    if position.hand(position.side()).count(kind) == 0 {
        return None;
    }
    for n in 0..81usize {
        let to = square_at(n);
        if let Some(mv) = if_legal(situation, Move::Put { to, kind }) {
            return Some(mv);
        }
    }
    None
}

fn first_drop(situation: &Situation) -> Option<Move>
    ensures { MatchOption result (NoneOf situation.now IsDrop)
        (λ m. IsFirstOf situation.now IsDrop m) }
{
    for n in 0..7usize {
        if let Some(mv) = first_drop_of(situation, hand_kind(n)) {
            return Some(mv);
        }
    }
    None
}

/// The first legal move of the side to move, or None if it has none.
///
/// Walks come before drops. Walks go by the square left, then by the target, in the order 11, 12,
/// .. 19, 21, .. 99, and the unpromoted form comes first. Drops go by kind, pawn, lance, knight,
/// silver, gold, bishop, rook, then by target.
pub fn first_legal(position: &Position) -> Option<Move>
    ensures first { MatchOption result (NoLegalMove position.now)
        (λ m. IsFirstLegal position.now m) }
{
    first_move(&Situation::from(*position))
}

// As `first_legal`, in a situation.
pub(crate) fn first_move(situation: &Situation) -> Option<Move>
    ensures { MatchOption result (NoLegalMove situation.now)
        (λ m. IsFirstLegal situation.now m) }
{
    first_walk(situation).or_else(|| first_drop(situation))
}
