ghost use Rattle.std.specs.Prelude.{◌≡◌, ◌↔◌, IsTrue, OnOk, OnErr, MatchOption, MatchResult, Some};
ghost use Rattle.shogi_board.specs.After.{after, board_after};
ghost use Rattle.shogi_board.specs.Cells.{at, piece};
ghost use Rattle.shogi_board.specs.Danger.{ComesFrom};
ghost use Rattle.shogi_board.specs.Legal.{Keeps};
ghost use Rattle.shogi_board.specs.Reach.{Checks, InCheck};
ghost use Rattle.shogi_board.specs.Rules.{KeepsRule, keeping_rules, IsFirstBroken};
ghost use Rattle.shogi_board.specs.Sound.{IsSound};
ghost use Rattle.shogi_board.specs.declared.kind.Kind.TheVariants.{King};
ghost use Rattle.shogi_board.specs.declared.square.Square.{Square};

use crate::board_rules::broken_on_board;
use crate::danger::Danger;
use crate::kind::Kind;
use crate::moves::Move;
use crate::playing::{checker_after, make};
use crate::position::Position;
use crate::rule::Rule;
use crate::square::Square;
use std::convert::AsRef;
use std::marker::Model;

/// A position, and which piece checks the king of its side to move.
///
/// It is made of a position with `From`, and lends the position with `AsRef`. `play` finds the
/// checking piece by the move, so that it seldom has to search in all directions.
#[derive(Drop)]
pub struct Situation {
    position: Position,
    checker: Option<Square>,
}

impl Model for Situation {
    ghost use Rattle.std.specs.Prelude.{MatchOption};
    ghost use Rattle.shogi_board.specs.Placed.{Placed};
    ghost use Rattle.shogi_board.specs.Reach.{Checks, InCheck};
    ghost use Rattle.shogi_board.specs.Sound.{IsSound};

    ghost Value = { Placed };

    ghost view = { λ s. s.position };

    ghost invariant = { λ s. IsSound s.position
        × MatchOption s.checker
        (InCheck s.position.material.board s.position.side → ⊥)
        (Checks s.position.material.board s.position.side) };
}

impl From<Position> for Situation {
    ghost from_gives = { λ position situation. (situation ≡ position) × IsSound position };

    fn from(position: Position) -> Situation {
        let checker = position.board.checker(position.side);
        Situation { position, checker }
    }
}

impl AsRef<Position> for Situation {
    #[inline(always)]
    fn as_ref(&self) -> &Position
        ensures value { result.now ≡ self.now }
    {
        &self.position
    }
}

impl Situation {
    /// The square of an enemy piece that attacks the king of the side to move, or None if that side
    /// is not in check. If two pieces give check, it is one of them.
    #[inline(always)]
    pub fn checker(&self) -> Option<Square>
        ensures answer { MatchOption result
            (InCheck self.now.material.board self.now.side → ⊥)
            (Checks self.now.material.board self.now.side) }
    {
        self.checker
    }

    /// Plays the move of the side to move.
    ///
    /// Refuses with the first of the rules 3 to 10 that the move breaks. A refused call changes
    /// nothing. A pawn drop that mates (rule 11) is not refused: see `shogi_rules::judge`.
    #[inline(always)]
    pub fn play(&mut self, mv: &Move) -> Result<(), Rule>
        ensures answer { MatchResult result
            (λ _. Keeps self.old mv.now)
            (λ rule. IsFirstBroken (KeepsRule self.old mv.now) keeping_rules (Some rule)) }
        ensures played { OnOk result (self.new ≡ after self.old mv.now) }
        ensures unchanged { OnErr result (self.new ≡ self.old) }
    {
        if let Some(rule) = broken_on_board(&self.position, mv) {
            return Err(rule);
        }
        let danger = self.danger_after(mv);
        if !make(&mut self.position, danger, mv) {
            return Err(Rule::LeavesKing);
        }
        self.checker = checker_after(&self.position, mv);
        Ok(())
    }

    /// Whether the move of the side to move keeps the rules 3 to 10. A pawn drop that mates may.
    pub fn keeps(&self, mv: &Move) -> bool
        ensures answer { IsTrue result ↔ Keeps self.now mv.now }
    {
        match broken_on_board(&self.position, mv) {
            Some(_) => false,
            None => {
                let mut next = self.position;
                make(&mut next, self.danger_after(mv), mv)
            }
        }
    }

    // Where the mover's king may be attacked from after the move. If it was not attacked before,
    // then only in the direction of the square that the move leaves, unless it moves itself.
    #[inline(always)]
    fn danger_after(&self, mv: &Move) -> Danger
        ensures { (s : Square) → at (board_after self.now mv.now) s ≡ piece self.now.side King
            → ComesFrom (board_after self.now mv.now) self.now.side s result }
    {
        if self.checker.is_some() || mv.kind() == Kind::King {
            return Danger::Anywhere;
        }
        match mv.source() {
            Some(from) => Danger::Towards(from),
            None => Danger::Nowhere,
        }
    }
}
