ghost use Rattle.std.specs.Prelude.{◌≡◌, ◌↔◌, IsTrue};
ghost use Rattle.shogi_board.specs.Cells.{at, piece};
ghost use Rattle.shogi_board.specs.Reach.{Attack};
ghost use Rattle.shogi_board.specs.Sound.{IsSound};
ghost use Rattle.shogi_board.specs.declared.kind.Kind.{Kind};
ghost use Rattle.shogi_board.specs.declared.kind.Kind.TheVariants.{King};
ghost use Rattle.shogi_board.specs.declared.square.Square.{Square};
ghost use Rattle.shogi_rules.specs.Evasions.{Between, StopsCheck};
ghost use Rattle.shogi_rules.specs.Trying.{IsOnWay};
ghost use Rattle.shogi_board.specs.Legal.{Keeps, Mated, target};
ghost use Rattle.shogi_board.specs.declared.moves.Move.{Move};

use crate::search::{hand_kind, own_kind_at, square_at};
use shogi_board::{Kind, Move, Situation, Square, reaches};

// Whether the side to move is in check and no move of it keeps the rules 3 to 10.
pub(crate) fn is_mated(situation: &Situation) -> bool
    ensures { IsTrue result ↔ Mated situation.now }
{
    let Some(checker) = situation.checker() else {
        return false;
    };
    let position = situation.as_ref();
    let Some(king) = position.king(position.side()) else {
        return false;
    };
    !has_evasion(situation, king, checker)
}

// Whether a move keeps the rules 3 to 10, if the king of the side to move is attacked from the
// other square.
fn has_evasion(situation: &Situation, king: Square, checker: Square) -> bool
    requires sound { IsSound situation.now }
    requires king { at situation.now.material.board king ≡ piece situation.now.side King }
    requires check { Attack situation.now.material.board situation.now.side checker king }
    ensures { IsTrue result ↔ ((m : Move) × Keeps situation.now m) }
{
    for n in 0..81usize {
        if can_evade_to(situation, king, checker, square_at(n)) {
            return true;
        }
    }
    false
}

// As `has_evasion`, for the moves to one square.
fn can_evade_to(situation: &Situation, king: Square, checker: Square, to: Square) -> bool
    requires sound { IsSound situation.now }
    requires king { at situation.now.material.board king ≡ piece situation.now.side King }
    requires check { Attack situation.now.material.board situation.now.side checker king }
    ensures { IsTrue result ↔ ((m : Move) × (target m ≡ to) × Keeps situation.now m) }
{
    if keeps_walk(situation, king, to) {
        return true;
    }
    may_stop_check(situation, king, checker, to) && has_kept_move_to(situation, to)
}

// Whether a piece other than the king may end the check by a move to the square: it captures the
// checking piece, or comes between that and the king.
fn may_stop_check(situation: &Situation, king: Square, checker: Square, to: Square) -> bool
    requires check { Attack situation.now.material.board situation.now.side checker king }
    ensures { StopsCheck checker king to → IsTrue result }
{
    to == checker || is_between(situation, king, checker, to)
}

// Whether the square is between the checking piece, which then reaches it, and the king.
fn is_between(situation: &Situation, king: Square, checker: Square, to: Square) -> bool
    requires check { Attack situation.now.material.board situation.now.side checker king }
    ensures { Between checker king to → IsTrue result }
{
    if !lies_towards(checker, king, to) {
        return false;
    }
    reaches(situation.as_ref(), checker, to)
}

// Whether the square lies towards the other in both its file and its rank, and nearer.
fn lies_towards(from: Square, end: Square, square: Square) -> bool
    ensures { Between from end square → IsTrue result }
{
    if !is_on_way(from.file(), end.file(), square.file()) {
        return false;
    }
    is_on_way(from.rank(), end.rank(), square.rank())
}

// Whether the number is strictly between the first and the last, or all three are the same.
fn is_on_way(first: u8, last: u8, number: u8) -> bool
    ensures { IsTrue result ↔ IsOnWay first last number }
{
    (first < number && number < last)
        || (last < number && number < first)
        || (first == number && number == last)
}

fn has_kept_move_to(situation: &Situation, to: Square) -> bool
    ensures { IsTrue result ↔ ((m : Move) × (target m ≡ to) × Keeps situation.now m) }
{
    has_kept_walk_to(situation, to) || has_kept_drop_on(situation, to)
}

fn has_kept_walk_to(situation: &Situation, to: Square) -> bool
    ensures { IsTrue result ↔ ((from : Square) × (kind : Kind)
        × Keeps situation.now (Move.Walk from to kind)) }
{
    for n in 0..81usize {
        if keeps_walk(situation, square_at(n), to) {
            return true;
        }
    }
    false
}

fn has_kept_drop_on(situation: &Situation, to: Square) -> bool
    ensures { IsTrue result ↔ ((kind : Kind) × Keeps situation.now (Move.Put to kind)) }
{
    for n in 0..7usize {
        let kind = hand_kind(n);
        if situation.keeps(&Move::Put { to, kind }) {
            return true;
        }
    }
    false
}

// Whether a walk from the one square to the other keeps the rules 3 to 10, promoted or not.
#[inline(always)]
fn keeps_walk(situation: &Situation, from: Square, to: Square) -> bool
    ensures { IsTrue result ↔ ((kind : Kind) × Keeps situation.now (Move.Walk from to kind)) }
{
    let Some(was) = own_kind_at(situation, from) else {
        return false;
    };
    // few pieces reach it, so the other rules are seldom looked at
    if !reaches(situation.as_ref(), from, to) {
        return false;
    }
    keeps_form(situation, from, to, was)
}

// The same, for the piece of that kind of the side to move, which is on the one square.
fn keeps_form(situation: &Situation, from: Square, to: Square, was: Kind) -> bool
    requires { at situation.now.material.board from ≡ piece situation.now.side was }
    ensures { IsTrue result ↔ ((kind : Kind) × Keeps situation.now (Move.Walk from to kind)) }
{
    if situation.keeps(&Move::Walk {
        from,
        to,
        kind: was,
    }) {
        return true;
    }
    was.promoted()
        .is_some_and(|kind| situation.keeps(&Move::Walk { from, to, kind }))
}
