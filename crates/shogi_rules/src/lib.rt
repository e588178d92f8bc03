//! The rules of shogi: moves, the first rule that a move breaks, and games as lines of moves.
//!
//! `judge` names the first rule that a move breaks in a position, and `first_legal` finds a legal
//! move. A `Line` is a start and legal moves from it: `play` adds a move or says why it may not be
//! played, `is_over` says whether the position occurs for the fourth time, and `verdict` gives the
//! state of the game. The rules and their order are in `docs/RULES.md`.
//!
//!     let mut line = Line::new(alloc, Position::even())?;
//!     line.play(Color::Black, Move::Walk { from, to, kind: Kind::Pawn })?;
//!     let verdict = line.verdict();
#![tactic(auto)]

mod evasions;
mod judging;
pub mod laws;
mod line;
mod occurrences;
mod repetition;
mod search;
mod seen;

pub use judging::{after, in_check, judge};
pub use line::{Line, MAX_MOVES, PlayFault, Verdict};
pub use search::first_legal;
pub use shogi_board::{Move, Rule};
