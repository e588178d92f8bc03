//! Session machines: each call takes one line and returns the lines to send.
//!
//! - [`Bridge`] is the client of a CSA server, and plays with a USI engine.
//! - [`Host`] plays one game as a CSA server does.
//! - [`Sample`] is a small USI engine.
//!
//! They follow the CSA server protocol and USI, in the profile of this project: `docs/SESSIONS.md`
//! has a table of each. None of them reads or writes; `session_commands` does that.
//!
//! ```text
//! let mut bridge = Bridge::new(alloc, &config)?;
//! let out = bridge.step(Event::Begin)?;
//! out.to_engine.bytes()                    // b"usi\n"
//! let out = bridge.step(Event::EngineLine(b"usiok"))?;
//! out.to_engine.bytes()                    // b"isready\n"
//! ```
#![tactic(auto)]

mod answers;
mod asking;
mod best_move;
mod block_text;
mod bridge;
mod engine_side;
mod game_end;
mod in_play;
pub mod laws;
mod line_items;
mod offer;
mod phase;
mod position_reader;
mod position_text;
mod server_lines;
mod server_side;
mod summary_fault;
mod summary_reader;

pub use bridge::Bridge;
pub use bridge_table::{
    ClientState, Config, EngineState, Event, MoveCause, Out, SessionFault, Status, Waits,
};
pub use host_and_sample::{Host, HostConfig, HostOut, Sample, SampleOut};
pub use session_lines::Lines;
pub use summary_fault::SummaryFault;
