ghost use Rattle.std.specs.Prelude.{◌≡◌, ◌↔◌, IsTrue, None, Some};
ghost use Rattle.shogi_board.specs.After.{after};
ghost use Rattle.shogi_board.specs.Legal.{IsPawnDrop, Keeps, Legal, Mated};
ghost use Rattle.shogi_board.specs.Reach.{InCheck};
ghost use Rattle.shogi_board.specs.Rules.{KeepsRule, move_rules, all_rules, IsFirstBroken};
ghost use Rattle.shogi_board.specs.declared.rule.Rule.TheVariants.{RepetitionOver};
ghost use Rattle.shogi_rules.specs.Rules.{KeptAt};

use crate::evasions::is_mated;
use crate::search::is_pawn_drop;
use shogi_board::{Color, Move, Position, Rule, Situation};

// The first of the rules 3 to 11 that the side to move breaks by the move.
pub(crate) fn broken_by_side(position: &Position, mv: &Move) -> Option<Rule>
    ensures { IsFirstBroken (KeepsRule position.now mv.now) move_rules result }
{
    let mut next = Situation::from(*position);
    if let Err(rule) = next.play(mv) {
        return Some(rule);
    }
    if mates(&next, mv) {
        Some(Rule::PawnDropMate)
    } else {
        None
    }
}

// Whether the move that led to the situation is a pawn put down that mates.
#[inline(always)]
pub(crate) fn mates(situation: &Situation, mv: &Move) -> bool
    ensures { IsTrue result ↔ (IsPawnDrop mv.now × Mated situation.now) }
{
    is_pawn_drop(mv) && is_mated(situation)
}

/// The first rule that the move of that side breaks, in the order of their numbers, or None exactly
/// if it is legal.
///
/// The position is taken to occur for the first time, so it never returns RepetitionOver.
pub fn judge(position: &Position, mover: Color, mv: &Move) -> Option<Rule>
    ensures first { IsFirstBroken (KeptAt position.now mover mv.now) all_rules result }
    ensures once { result ≡ Some RepetitionOver → ⊥ }
    ensures legal { (result ≡ None) ↔ ((mover ≡ position.now.side) × Legal position.now mv.now) }
{
    if mover != position.side() {
        return Some(Rule::WrongSide);
    }
    broken_by_side(position, mv)
}

/// The position after the move of the side to move.
///
/// Only to be called if the move keeps the rules 3 to 10. A move for which `judge` returns None for
/// the side to move does.
pub fn after(position: &Position, mv: &Move) -> Position
    requires kept { Keeps position.now mv.now }
    ensures value { result ≡ after position.now mv.now }
{
    let mut next = Situation::from(*position);
    match next.play(mv) {
        Ok(()) => *next.as_ref(),
        // unreachable, since the rules are kept
        Err(_) => *position,
    }
}

/// Whether the side to move is in check: it has a king, and an enemy piece reaches it.
pub fn in_check(position: &Position) -> bool
    ensures check { IsTrue result ↔ InCheck position.now.material.board position.now.side }
{
    Situation::from(*position).checker().is_some()
}
