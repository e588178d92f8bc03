ghost use Rattle.std.specs.Prelude.{◌≡◌, ◌+◌, ◌++◌, ◌<◌, ◌≤◌, [], ◌∷◌, ◌↔◌, IsTrue, List, Some, OnOk, OnErr, IfOk, length, slice_get};
ghost use Rattle.shogi_board.specs.Placed.{Placed};
ghost use Rattle.shogi_board.specs.Reach.{InCheck};
ghost use Rattle.shogi_rules.specs.Counting.{IsSeen};
ghost use Rattle.shogi_rules.specs.Positions.{max_moves};
ghost use Rattle.shogi_rules.specs.Repetition.{times, IsNth};

use crate::occurrences::{FIRST_ROOM, Occurrences};
use shogi_board::{Color, Position, Situation};
use std::alloc::{AllocError, Global};
use std::marker::Model;

// Whose turn it is in a position, and whether that side is in check.
#[derive(Clone, Copy)]
pub(crate) struct Turn {
    pub side: Color,
    pub in_check: bool,
}

impl Turn {
    #[inline(always)]
    fn of(situation: &Situation) -> Turn
        ensures side { result.side ≡ situation.now.side }
        ensures check { IsTrue result.in_check
            ↔ InCheck situation.now.material.board situation.now.side }
    {
        Turn {
            side: situation.as_ref().side(),
            in_check: situation.checker().is_some(),
        }
    }
}

// The positions of a line: each of them once, with how often it occurs and where first; which of
// them is the last one; and the turn of each place.
#[derive(Drop)]
pub(crate) struct Seen {
    counts: Occurrences,
    here: usize,
    turns: Vec<Turn>,
}

impl Model for Seen {
    ghost use Rattle.std.specs.Prelude.{◌<◌, length};
    ghost use Rattle.shogi_rules.specs.Counting.{Seeing};

    ghost Value = { Seeing };

    ghost view = { λ s. record { counts = s.counts; here = s.here; turns = s.turns.items } };

    ghost invariant = { λ s. s.here < length s.counts };
}

impl Seen {
    // Of the start alone.
    pub(crate) fn new(alloc: Global, start: &Situation) -> Result<Seen, AllocError>
        ensures { IfOk result (λ s. IsSeen (start.now ∷ []) start.now s) }
    {
        let turn = Turn::of(start);
        let mut counts = Occurrences::new(alloc)?;
        let here = counts.add(start.as_ref(), 0)?;
        let mut turns = Vec::with_capacity(alloc, FIRST_ROOM)?;
        turns.push(turn)?;
        Ok(Seen {
            counts,
            here,
            turns,
        })
    }

    // The last position.
    pub(crate) fn last(&self) -> &Position
        ensures { (ps : List Placed) (p : Placed) → IsSeen ps p self.now → result.now ≡ p }
    {
        &self.counts.entry(self.here).position
    }

    // How often the last position occurs.
    pub(crate) fn repeats(&self) -> u32
        ensures { (ps : List Placed) (p : Placed) → IsSeen ps p self.now → result ≡ times ps p }
    {
        self.counts.entry(self.here).count
    }

    // How many positions come before the first place of the last one.
    pub(crate) fn first(&self) -> usize
        ensures { (ps : List Placed) (p : Placed) → IsSeen ps p self.now → IsNth ps p 1 result }
    {
        self.counts.entry(self.here).first as usize
    }

    // The turns of all places in order.
    pub(crate) fn turns(&self) -> &[Turn]
        ensures { result.now ≡ self.now.turns }
    {
        self.turns.as_slice()
    }

    // Adds the position. If an allocation fails, nothing changes.
    #[inline(always)]
    pub(crate) fn push(&mut self, situation: &Situation) -> Result<(), AllocError>
        requires { (ps : List Placed) × (p : Placed) × (length ps ≤ max_moves)
            × IsSeen ps p self.old }
        ensures ok { OnOk result ((ps : List Placed) (p : Placed) → IsSeen ps p self.old
            → IsSeen (ps ++ situation.now ∷ []) situation.now self.new) }
        ensures err { OnErr result (self.new ≡ self.old) }
    {
        let turn = Turn::of(situation);
        let before = self.turns.len();
        self.turns.reserve(1)?;
        self.here = self.counts.add(situation.as_ref(), before)?;
        self.turns.push_reserved(turn);
        Ok(())
    }
}
