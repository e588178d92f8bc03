//! The sessions of the program `shogi`: the commands `engine`, `serve` and `play`, and how lines
//! pass between streams and a machine of `shogi_session`.
//!
//! - [`talk`] passes each line that comes over a [`wire`] to a machine, and sends its answer.
//! - [`bridging`] does the same for a bridge, with two peers: its engine and its server.
//!
//! Each command is a module with a function `run` over a runtime; its bounds say which streams,
//! sockets and programs it may use:
//!
//! ```text
//! session_commands::engine::run(&rt)?;
//! let service = Service { port: 4081, client: Color::Black, max_moves: 256 };
//! session_commands::serve::run(&rt, service)?;
//! ```
#![tactic(auto)]

pub mod bridging;
mod children;
mod door;
mod ending;
pub mod engine;
mod fault_words;
mod launcher;
pub mod laws;
pub mod log;
mod log_output;
pub mod play;
mod port_line;
mod progress;
pub mod reasons;
pub mod serve;
pub mod talk;
pub mod wire;

pub use progress::{Progress, SaysLines, Screen};
