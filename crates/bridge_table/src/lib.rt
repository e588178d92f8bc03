//! The table of a bridge, which plays a USI engine on a CSA server, as its client.
//!
//! The types are those of its calls: [`Config`], the [`Event`] that happened, the lines of the
//! answer in [`Out`], and the [`Status`] and states after it. The table is a relation, in
//! `specs/Row.antt`; the bridge that follows it is in `shogi_session`. [`laws`] says what holds
//! over every log, from its lines alone. One row, with an engine that was asked for a move and a
//! client who has black:
//!
//! ```text
//! Event::EngineLine(b"bestmove 7g7f")
//! Out { to_engine: no lines, to_server: "+7776FU\n", status: Status::Going }
//! ```
#![tactic(auto)]

mod config;
mod event;
mod fault;
pub mod laws;
mod state;

pub use config::Config;
pub use event::{Event, Out, Status};
pub use fault::{MoveCause, SessionFault};
pub use state::{Answer, ClientState, EngineState, Waits};
