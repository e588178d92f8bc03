//! Reads and writes the texts of the USI protocol: moves, SFENs, position lines, and the lines that
//! an engine sends.
//!
//! The forms are those of USI, as `docs/USI.md` restricts them. A position line is read into a
//! `Line` of `shogi_rules`, so each of its moves is legal. Each reader refuses a text with the
//! first fault in a fixed order.
//!
//! ```text
//! let line = read_position_line(alloc, b"position startpos moves 7g7f".as_slice())?;
//! let text = position_line(alloc, &line)?;
//! // text holds the bytes of `position startpos moves 7g7f`
//! ```
#![tactic(auto)]

mod boards;
mod engine;
mod fault;
mod hands;
pub mod laws;
mod letters;
mod line;
mod line_writing;
mod moves;
mod setting;
mod sfen;
pub mod texts;
mod words;
mod writing;

pub use engine::{EngineWord, read_engine_line};
pub use fault::{SfenFault, UsiFault};
pub use line::read_position_line;
pub use line_writing::position_line;
pub use moves::{move_text, read_move};
pub use sfen::read_sfen;
pub use words::next_word;
pub use writing::write_sfen;
