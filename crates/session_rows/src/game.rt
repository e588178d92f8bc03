//! A game of the bridge and the host.

use crate::desk::{Desk, print_state};
use crate::event::read_event;
use anyhow::{Result, bail};
use shogi_session::{EngineState, Waits};
use std::io::Print;

// The greatest number of lines that a bridge receives in a game.
const MOST_LINES: u32 = 100_000;

/// Plays on with these answers of the engine, one after another, until none is left or the session
/// is over. Prints the last lines to the engine and the bridge's states.
pub(crate) fn play_on<R: Print>(rt: &R, desk: &mut Desk<'_>, answers: &str) -> Result<()> {
    exchange(desk, b"begin")?;
    let mut answers = answers.split(' ');
    for _ in 0..MOST_LINES {
        match desk.machines.bridge.waits_for() {
            Waits::Nobody => break,
            Waits::Server => hear_host(desk)?,
            Waits::Engine => {
                let answer = match desk.machines.bridge.engine_state() {
                    EngineState::Greeting => "usiok",
                    EngineState::Readying => "readyok",
                    _ => answers.next().unwrap_or(""),
                };
                if answer.is_empty() {
                    break;
                }
                hear_engine(desk, answer)?;
            }
        }
    }
    print!(rt;
        "  engine {}\n ",
        desk.sent_to_engine.as_slice().escape_ascii()
    )?;
    print_state(rt, &desk.machines.bridge)
}

// Gives the bridge an event, and the host each line that the bridge sends it, each after 2 seconds.
fn exchange(desk: &mut Desk<'_>, bytes: &[u8]) -> Result<()> {
    let Some(event) = read_event(bytes) else {
        bail!("a line with a line end");
    };
    let out = desk.machines.bridge.step(event)?;
    if !out.to_engine.bytes().is_empty() {
        desk.sent_to_engine = Vec::from_slice(desk.alloc, out.to_engine.bytes())?;
    }
    for line in out.to_server.bytes().split(|b| *b == b'\n') {
        if !line.is_empty() {
            let answer = desk.machines.host.step(line, 2)?;
            desk.unread.extend_from_slice(answer.to_client.bytes())?;
        }
    }
    Ok(())
}

fn hear_engine(desk: &mut Desk<'_>, answer: &str) -> Result<()> {
    let line = if answer.ends_with("ok") {
        format!(in desk.alloc; "engine:{answer}")?
    } else {
        format!(in desk.alloc; "engine:bestmove {answer}")?
    };
    exchange(desk, line.as_bytes())
}

// Gives the bridge the host's next line; if there is none, the host is gone.
fn hear_host(desk: &mut Desk<'_>) -> Result<()> {
    if desk.unread.is_empty() {
        return exchange(desk, b"server ends");
    }
    let mut event = Vec::from_slice(desk.alloc, b"server:")?;
    let mut parts = desk.unread.as_slice().splitn(2, |b| *b == b'\n');
    event.extend_from_slice(parts.next().unwrap_or(b""))?;
    let rest = Vec::from_slice(desk.alloc, parts.next().unwrap_or(b""))?;
    desk.unread = rest;
    exchange(desk, event.as_slice())
}
