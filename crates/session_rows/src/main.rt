//! The program `session_rows`, a test driver: gives the events of a script on standard input to a
//! bridge, a host and a sample engine, and prints their answers. The head of the file `stdin` says
//! what a script is. An event, and what is printed for it:
//!
//! ```text
//! engine:usiok
//!   engine isready\n
//!   going Readying Idle Engine
//! ```
#![tactic(auto)]

mod config;
mod desk;
mod event;
mod game;
mod obey;

use anyhow::Result;
use desk::Desk;
use std::io;

fn main(rt: HostRuntime) -> Result<()> {
    let script = io::read_to_string(rt.alloc(), rt.reader())?;
    let mut desk = Desk::new(rt.alloc(), script.as_str())?;
    obey::obey_all(&rt, &mut desk, script.as_str())
}
