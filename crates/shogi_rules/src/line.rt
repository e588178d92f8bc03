ghost use Rattle.std.specs.Prelude.{◌≡◌, ◌≤◌, ◌++◌, [], ◌∷◌, IfOk, OnOk, OnErr, MatchOption, MatchResult, length, ◌⊎◌, ◌↔◌, IsTrue, None, Some};
ghost use Rattle.shogi_board.specs.Sound.{IsSound};
ghost use Rattle.shogi_rules.specs.Positions.{Over, max_moves, now_of, all_of, IsGame};
ghost use Rattle.shogi_rules.specs.Play.{Answers};
ghost use Rattle.shogi_rules.specs.Lines.{IsOpen};
ghost use Rattle.shogi_rules.specs.Repetition.{times};
ghost use Rattle.shogi_rules.specs.Verdicts.{Stands};
ghost use Rattle.shogi_rules.specs.declared.line.PlayFault.TheVariants.{OutOfMemory};

use crate::judging::{broken_by_side, mates};
use crate::occurrences::FIRST_ROOM;
use crate::repetition::{verdict_by_moves, verdict_of_stretch};
use crate::seen::Seen;
use shogi_board::{Color, Move, Position, Rule, Situation};
use std::alloc::Global;
use std::marker::Model;
use thiserror::Error;

/// Why a move was not played.
#[derive(Clone, Copy, Debug, PartialEq, Eq, Error)]
pub enum PlayFault {
    /// The line has 10,000 moves.
    #[error("too many moves")]
    TooManyMoves,
    /// The move breaks a rule; this is the first that it breaks.
    #[error("{0}")]
    Broken(Rule),
    /// An allocation failed.
    #[error("out of memory")]
    OutOfMemory,
}

/// The state of a game after the moves of a line.
#[derive(Clone, Copy, Debug, PartialEq, Eq)]
pub enum Verdict {
    /// The side to move has a legal move.
    Ongoing,
    /// The side to move is in check and has no legal move.
    Mate,
    /// The side to move is not in check and has no legal move.
    NoMove,
    /// The position occurs for the fourth time, and no side alone gave check with each move since
    /// the first time.
    Repetition,
    /// The position occurs for the fourth time, and this side alone gave check with each move since
    /// the first time: it has lost.
    Perpetual(Color),
}

/// The most moves that a line has.
pub const MAX_MOVES: usize = 10_000;

/// A start and legal moves from it, at most 10,000. None of them was played after a position had
/// occurred for the fourth time.
#[derive(Drop)]
pub struct Line {
    start: Position,
    moves: Vec<Move>,
    // the position that the moves lead to
    last: Situation,
    // of all positions, the start and the last one too
    seen: Seen,
}

impl Model for Line {
    ghost use Rattle.std.specs.Prelude.{◌≡◌};
    ghost use Rattle.shogi_board.specs.Sound.{IsSound};
    ghost use Rattle.shogi_rules.specs.Counting.{IsSeen};
    ghost use Rattle.shogi_rules.specs.Positions.{Played, position_after, positions_of};
    ghost use Rattle.shogi_rules.specs.Lines.{IsLine};

    ghost Value = { Played };

    ghost view = { λ l. record { start = l.start; moves = l.moves.items } };

    ghost invariant = { (λ l. IsLine l.start l.moves.items
        × IsSeen (positions_of l.start l.moves.items) (position_after l.start l.moves.items) l.seen
        × (l.last ≡ position_after l.start l.moves.items) × IsSound l.start) };
}

impl Line {
    /// A line without a move.
    ///
    /// Returns OutOfMemory if an allocation fails.
    pub fn new(alloc: Global, start: Position) -> Result<Line, shogi_board::OutOfMemory>
        ensures line { IfOk result (λ l. l ≡ record { start = start; moves = [] }) }
        ensures sound { IsSound start }
    {
        let last = Situation::from(start);
        Ok(Line {
            start,
            moves: Vec::with_capacity(alloc, FIRST_ROOM)?,
            seen: Seen::new(alloc, &last)?,
            last,
        })
    }

    /// The position that it starts from.
    pub fn start(&self) -> Position
        ensures value { result ≡ self.now.start }
    {
        self.start
    }

    /// Its moves in order, at most 10,000.
    pub fn moves(&self) -> &[Move]
        ensures value { result.now ≡ self.now.moves }
        ensures game { IsGame self.now.start self.now.moves }
        ensures few { length self.now.moves ≤ max_moves }
        ensures sound { IsSound self.now.start }
    {
        self.moves.as_slice()
    }

    /// The position that its moves lead to.
    pub fn now(&self) -> Position
        ensures value { result ≡ now_of self.now }
    {
        *self.last.as_ref()
    }

    // Whether no more moves may be played.
    fn is_full(&self) -> bool
        ensures { IsTrue result ↔ (max_moves ≤ length self.now.moves) }
    {
        self.moves.len() >= MAX_MOVES
    }

    // How often the last position occurs.
    fn repeats(&self) -> u32
        ensures { result ≡ times (all_of self.now) (now_of self.now) }
    {
        self.seen.repeats()
    }

    /// Whether the position that its moves lead to occurs for the fourth time.
    ///
    /// Then `play` refuses each move, and `verdict` is Repetition or Perpetual. It only reads a
    /// count that the line keeps; it does not search for moves.
    pub fn is_over(&self) -> bool
        ensures answer { IsTrue result ↔ Over self.now }
    {
        self.repeats() >= 4
    }

    // The side to move.
    fn side(&self) -> Color
        ensures { result ≡ (now_of self.now).side }
    {
        self.last.as_ref().side()
    }

    // What `play` refuses whatever that side's move is, or None.
    fn closed(&self, mover: Color) -> Option<PlayFault>
        ensures { MatchOption result
            (IsOpen self.now mover)
            (λ fault. (mv : Move) → Answers self.now mover mv (Some fault)) }
    {
        if self.is_full() {
            return Some(PlayFault::TooManyMoves);
        }
        if mover != self.side() {
            return Some(PlayFault::Broken(Rule::WrongSide));
        }
        if self.is_over() {
            return Some(PlayFault::Broken(Rule::RepetitionOver));
        }
        None
    }

    /// Why `play` would refuse the move, apart from lack of memory; None if it would not.
    pub fn fault(&self, mover: Color, mv: &Move) -> Option<PlayFault>
        ensures answer { Answers self.now mover mv.now result }
    {
        if let Some(fault) = self.closed(mover) {
            return Some(fault);
        }
        broken_by_side(self.last.as_ref(), mv).map(PlayFault::Broken)
    }

    // What `play` refuses if there is no room for the move.
    fn fault_without_room(&self, mover: Color, mv: &Move) -> PlayFault
        ensures { ((result ≡ OutOfMemory) × Answers self.now mover mv.now None)
            ⊎ Answers self.now mover mv.now (Some result) }
    {
        self.fault(mover, mv).unwrap_or(PlayFault::OutOfMemory)
    }

    /// Plays the move of that side.
    ///
    /// Refuses, in this order: TooManyMoves if the line has 10,000 moves; Broken with the first
    /// rule that the move breaks; OutOfMemory if an allocation fails. A refused call changes
    /// nothing.
    pub fn play(&mut self, mover: Color, mv: Move) -> Result<(), PlayFault>
        ensures answer { MatchResult result
            (λ _. Answers self.old mover mv None)
            (λ fault. ((fault ≡ OutOfMemory) × Answers self.old mover mv None)
            ⊎ Answers self.old mover mv (Some fault)) }
        ensures played { OnOk result
            (self.new ≡ record self.old { moves = self.old.moves ++ mv ∷ [] }) }
        ensures unchanged { OnErr result (self.new ≡ self.old) }
    {
        if let Some(fault) = self.closed(mover) {
            return Err(fault);
        }
        if self.moves.reserve(1).is_err() {
            return Err(self.fault_without_room(mover, &mv));
        }
        if let Err(rule) = self.last.play(&mv) {
            return Err(PlayFault::Broken(rule));
        }
        if mates(&self.last, &mv) {
            self.last = Situation::from(*self.seen.last());
            return Err(PlayFault::Broken(Rule::PawnDropMate));
        }
        match self.seen.push(&self.last) {
            Ok(()) => {
                self.moves.push_reserved(mv);
                Ok(())
            }
            Err(_) => {
                self.last = Situation::from(*self.seen.last());
                Err(PlayFault::OutOfMemory)
            }
        }
    }

    /// The state of the game: at a fourth occurrence Repetition or Perpetual, else by check and
    /// legal moves.
    pub fn verdict(&self) -> Verdict
        ensures stands { Stands self.now result }
    {
        if self.is_over() {
            verdict_of_stretch(&self.seen)
        } else {
            verdict_by_moves(&self.last)
        }
    }
}
