//! The commands of the program `shogi` for many records: [`digest`]; [`many`], which checks or
//! digests one file after another; and [`same`], which finds those with the same game. [`paths`]
//! finds the files, and [`explain`] says where a refused statement is, and why a file cannot be
//! read.
//!
//! Each command is a module with a function `run` over a runtime; its bounds say which files and
//! standard streams it may use:
//!
//! ```text
//! let paths = archive_commands::paths::all(&rt, &records)?;
//! archive_commands::many::run(&rt, LineKind::Checks, &paths, records.hash_lines, verbosity)?;
//! // prints "records/one.csa: accepted 2 ongoing" and "records/two.csa: accepted 105 ongoing"
//! ```
#![tactic(auto)]

pub mod digest;
pub mod explain;
mod folders;
mod lines;
mod list;
pub mod many;
mod notices;
pub mod paths;
mod places;
mod progress;
pub mod same;

pub use lines::LineKind;
pub use many::Tally;
pub use notices::{Notices, OutputPlace, StandardError, Verbosity};
