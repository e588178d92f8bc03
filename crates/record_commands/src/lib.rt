//! The commands of the program `shogi` that read a record or a position line and print something
//! about it: [`check`], [`normal`], [`usi`] and [`csa`]. [`incoming`] reads lines, [`streams`]
//! reads records and writes, and [`system_words`] shortens the system's words for an error. Nothing
//! here depends on sessions.
//!
//! Each command is a module with a function `run` over a runtime; its bounds say which files and
//! standard streams it may use:
//!
//! ```text
//! // prints "accepted 2 ongoing"
//! record_commands::check::run(&rt, Some("game.csa"), HashLines::Refused)?;
//! record_commands::normal::run(&rt, None, HashLines::Comments)?;  // reads standard input
//! ```
#![tactic(auto)]

pub mod check;
pub mod csa;
mod fault;
pub mod incoming;
mod inputs;
pub mod normal;
mod report;
pub mod streams;
pub mod system_words;
pub mod usi;

pub use fault::{PositionLineFault, ReadFault, WriteFault};
pub use inputs::{Input, Inputs, RuntimeInputs};
