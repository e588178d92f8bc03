//! Two peers to try a bridge with: a [`Host`], which plays one game as a server does, and a
//! [`Sample`] engine. Each call takes one line and returns the lines to send.
//!
//! The host speaks the CSA server protocol, the engine USI, both in the profile of this project:
//! `docs/SESSIONS.md` has a table of each.
//!
//! ```text
//! let mut engine = Sample::new(alloc);
//! engine.step(b"position startpos moves 7g7f")?;  // no lines
//! let out = engine.step(b"go")?;
//! out.lines.bytes()                               // b"bestmove 1a1b\n"
//! ```
#![tactic(auto)]

mod config;
mod host;
pub mod laws;
mod login;
mod outcome;
mod playing;
mod sample;
mod stage;
mod words;

pub use config::HostConfig;
pub use host::{Host, HostOut};
pub use login::is_login_word;
pub use outcome::Outcome;
pub use sample::{Sample, SampleOut};
