//! The command line of the program `shogi`: its commands, and what a command line asks for.
//!
//! [`all`] is the command line for `clap`, with its help; [`request_of`] turns what `clap` read
//! into a [`Request`], with every word already checked but the name of `play`. The crates of the
//! commands take a [`Service`], a [`Plan`] or [`Records`] from here.
//!
//! ```text
//! let matches = shogi_words::all(alloc)?.try_get_matches_from(words)?;
//! shogi_words::request_of(&matches, is_terminal)  // Some(Request::Check(records))
//! ```
#![tactic(auto)]

mod commands;
mod play;
mod records;
mod request;
mod serve;
mod words;

pub use commands::{all, request_of};
pub use play::{PasswordSource, Plan, ServerChoice};
pub use request::{OneRecord, PathEnd, Records, Request};
pub use serve::Service;
