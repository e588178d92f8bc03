//! The machines, and what is given to them.

use crate::config::{new_bridge, new_host};
use crate::event::{read_event, unescape};
use anyhow::{Result, bail};
use shogi_session::{Bridge, Host, Out, Sample, SessionFault, Status};
use std::alloc::Global;
use std::io::Print;

/// A bridge, a host and a sample engine.
#[derive(Drop)]
pub(crate) struct Machines {
    pub bridge: Bridge,
    pub host: Host,
    pub sample: Sample,
}

impl Machines {
    fn new(alloc: Global, bridge_words: &str, host_words: &str) -> Result<Machines> {
        let host = new_host(alloc, host_words)?;
        Ok(Machines {
            bridge: new_bridge(alloc, bridge_words)?,
            host,
            sample: Sample::new(alloc),
        })
    }
}

/// The machines of a script, and what was said to them.
#[derive(Drop)]
pub(crate) struct Desk<'a> {
    pub alloc: Global,
    pub script: &'a str,
    /// The words of the last `bridge` and the last `host`.
    pub bridge_words: &'a str,
    pub host_words: &'a str,
    pub machines: Machines,
    /// In a game of the two: what the host sent and the bridge has not read, and the last lines to
    /// the engine.
    pub unread: Vec<u8>,
    pub sent_to_engine: Vec<u8>,
}

/// Which events are printed.
#[derive(Clone, Copy, Debug, PartialEq, Eq)]
pub(crate) enum Shown {
    Every,
    Changes,
    Nothing,
}

const BRIDGE: &str = "bridge pw 600000 10000";

const HOST: &str = "black 256 local host";

impl<'a> Desk<'a> {
    pub(crate) fn new(alloc: Global, script: &'a str) -> Result<Desk<'a>> {
        Ok(Desk {
            alloc,
            script,
            bridge_words: BRIDGE,
            host_words: HOST,
            machines: Machines::new(alloc, BRIDGE, HOST)?,
            unread: Vec::new(alloc),
            sent_to_engine: Vec::new(alloc),
        })
    }

    /// Replaces these machines by new ones.
    pub(crate) fn renew(&mut self) -> Result<()> {
        self.machines = Machines::new(self.alloc, self.bridge_words, self.host_words)?;
        self.unread.clear();
        Ok(())
    }

    /// The lines of the list with that name.
    pub(crate) fn list(&self, name: &str) -> Result<Vec<&'a str>> {
        let mut lines = Vec::new(self.alloc);
        let mut is_inside = false;
        for line in self.script.split('\n') {
            if is_inside && line == "end" {
                return Ok(lines);
            }
            if is_inside {
                lines.push(line)?;
            } else if line.strip_prefix("define ") == Some(name) {
                is_inside = true;
            }
        }
        bail!("no list {name}")
    }
}

/// Gives the event in the line to the machine that it names, and prints the result.
pub(crate) fn hand<R: Print>(rt: &R, desk: &mut Desk<'_>, line: &str, shown: Shown) -> Result<()> {
    let bytes = unescape(desk.alloc, line)?;
    if let Some(rest) = bytes.as_slice().strip_prefix(b"sample:".as_slice()) {
        let out = desk.machines.sample.step(rest)?;
        return answer(rt, line, out.lines.bytes(), out.ended, shown);
    }
    if let Some((seconds, _)) = line.strip_prefix("client ").unwrap_or("").split_once(':') {
        let mut parts = bytes.as_slice().splitn(2, |b| *b == b':');
        let _ = parts.next();
        let out = desk
            .machines
            .host
            .step(parts.next().unwrap_or(b""), seconds.parse::<u32>()?)?;
        desk.unread.extend_from_slice(out.to_client.bytes())?;
        return answer(rt, line, out.to_client.bytes(), out.ended, shown);
    }
    hand_bridge(rt, &mut desk.machines.bridge, line, bytes.as_slice(), shown)
}

// Prints what a host or a sample engine answered.
fn answer<R: Print>(rt: &R, line: &str, lines: &[u8], ended: bool, shown: Shown) -> Result<()> {
    if is_shown(shown, !lines.is_empty() || ended) {
        println!(rt;
            "{line}\n  {} {}",
            lines.escape_ascii(),
            if ended { "ended" } else { "going" }
        )?;
    }
    Ok(())
}

fn is_shown(shown: Shown, is_change: bool) -> bool {
    shown == Shown::Every || shown == Shown::Changes && is_change
}

fn hand_bridge<R: Print>(
    rt: &R,
    bridge: &mut Bridge,
    line: &str,
    bytes: &[u8],
    shown: Shown,
) -> Result<()> {
    let Some(event) = read_event(bytes) else {
        bail!("no event: {line}");
    };
    let before = (bridge.engine_state(), bridge.client_state(), bridge.slip());
    let out = bridge.step(event)?;
    let after = (bridge.engine_state(), bridge.client_state(), bridge.slip());
    let is_silent = out.to_engine.bytes().is_empty() && out.to_server.bytes().is_empty();
    if is_shown(
        shown,
        !is_silent || before != after || out.status != Status::Going,
    ) {
        println!(rt; "{line}")?;
        print_out(rt, &out)?;
        print_state(rt, bridge)?;
    }
    Ok(())
}

// Prints the lines that the bridge sent, if any, and its status.
fn print_out<R: Print>(rt: &R, out: &Out) -> Result<()> {
    for (seat, bytes) in [
        ("engine", out.to_engine.bytes()),
        ("server", out.to_server.bytes()),
    ] {
        if !bytes.is_empty() {
            println!(rt; "  {seat} {}", bytes.escape_ascii())?;
        }
    }
    match out.status {
        Status::Going => print!(rt; "  going")?,
        Status::Done => print!(rt; "  done")?,
        Status::Lost => print!(rt; "  lost")?,
        Status::Failed(SessionFault::BadServerMove(cause)) => {
            print!(rt; "  failed {}, {cause}", SessionFault::BadServerMove(cause))?
        }
        Status::Failed(fault) => print!(rt; "  failed {fault}")?,
    }
    Ok(())
}

/// Prints the bridge's states, after its status.
pub(crate) fn print_state<R: Print>(rt: &R, bridge: &Bridge) -> Result<()> {
    println!(rt;
        " {:?} {:?} {:?}{}",
        bridge.engine_state(),
        bridge.client_state(),
        bridge.waits_for(),
        if bridge.slip() { " slip" } else { "" }
    )?;
    Ok(())
}
