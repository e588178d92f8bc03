ghost use Rattle.std.specs.Prelude.{◌≡◌, ◌+◌, ◌-◌, ◌<◌, ◌≤◌, ◌↔◌, IsTrue, List, MatchOption, length};
ghost use Rattle.shogi_board.specs.Placed.{Placed};
ghost use Rattle.shogi_board.specs.declared.color.Color.{Color};
ghost use Rattle.shogi_rules.specs.Counting.{AreTurns, IsSeen};
ghost use Rattle.shogi_rules.specs.Positions.{Played, all_of, now_of};
ghost use Rattle.shogi_rules.specs.Repetition.{IsNth, PressedAt, Pressed};
ghost use Rattle.shogi_rules.specs.Verdicts.{PressedAlone, StandsByMoves, StandsByStretch};

use crate::evasions::is_mated;
use crate::line::Verdict;
use crate::search::first_move;
use crate::seen::{Seen, Turn};
use shogi_board::{Color, Situation};

// Whether the move from the place gave check, if it is one of that side.
fn gave_check(turns: &[Turn], place: usize, color: Color) -> bool
    requires { place + 1 < length turns.now }
    ensures { (ps : List Placed) → AreTurns ps turns.now
        → IsTrue result ↔ PressedAt ps color place }
{
    if turns[place].side != color {
        return true;
    }
    turns[place + 1].in_check
}

// Whether each move of that side between the two places gave check.
fn pressed(turns: &[Turn], first: usize, fourth: usize, color: Color) -> bool
    requires { fourth < length turns.now }
    ensures { (ps : List Placed) → AreTurns ps turns.now
        → IsTrue result ↔ Pressed ps first fourth color }
{
    for place in first..fourth {
        if !gave_check(turns, place, color) {
            return false;
        }
    }
    true
}

// Who pressed alone between the two places.
fn presser(turns: &[Turn], first: usize, fourth: usize) -> Option<Color>
    requires { fourth < length turns.now }
    ensures { (ps : List Placed) → AreTurns ps turns.now → MatchOption result
        ((color : Color) → PressedAlone ps first fourth color → ⊥)
        (λ color. PressedAlone ps first fourth color) }
{
    let black = pressed(turns, first, fourth, Color::Black);
    let white = pressed(turns, first, fourth, Color::White);
    match (black, white) {
        (true, false) => Some(Color::Black),
        (false, true) => Some(Color::White),
        _ => None,
    }
}

// The verdict on a line whose last position occurs for the fourth time.
pub(crate) fn verdict_of_stretch(seen: &Seen) -> Verdict
    requires { 0 < length seen.now.turns }
    ensures { (line : Played) → IsSeen (all_of line) (now_of line) seen.now
        → IsNth (all_of line) (now_of line) 4 (length seen.now.turns - 1)
        → StandsByStretch line result }
{
    let turns = seen.turns();
    match presser(turns, seen.first(), turns.len() - 1) {
        Some(color) => Verdict::Perpetual(color),
        None => Verdict::Repetition,
    }
}

// The verdict on a line whose last position has occurred less than four times.
pub(crate) fn verdict_by_moves(situation: &Situation) -> Verdict
    ensures { StandsByMoves situation.now result }
{
    if is_mated(situation) {
        return Verdict::Mate;
    }
    match first_move(situation) {
        Some(_) => Verdict::Ongoing,
        None => match situation.checker() {
            // only a pawn drop would help, and it is not legal, since it mates
            Some(_) => Verdict::Mate,
            None => Verdict::NoMove,
        },
    }
}
