//! The commands of a script.

use crate::config::number;
use crate::desk::{Desk, Shown, hand};
use crate::game::play_on;
use anyhow::Result;
use std::io::Print;

/// Obeys the lines of the script that are in no list.
pub(crate) fn obey_all<'a, R: Print>(rt: &R, desk: &mut Desk<'a>, script: &'a str) -> Result<()> {
    let mut is_listed = false;
    for line in script.split('\n') {
        if line == "end" {
            is_listed = false;
        } else if line.starts_with("define ") {
            is_listed = true;
        } else if !is_listed {
            obey(rt, desk, line)?;
        }
    }
    Ok(())
}

// Does what the line says, and prints the result. Empty lines and comments do nothing.
fn obey<'a, R: Print>(rt: &R, desk: &mut Desk<'a>, line: &'a str) -> Result<()> {
    let (word, rest) = line.split_once(' ').unwrap_or((line, ""));
    match word {
        "" | "--" => Ok(()),
        "bridge" => {
            desk.bridge_words = rest;
            desk.renew()
        }
        "host" => {
            desk.host_words = rest;
            desk.renew()
        }
        "from" => {
            println!(rt; "{line}")?;
            go_from(rt, desk, rest)
        }
        "unseen" => unseen(rt, desk, rest),
        "text" => print_text(rt, desk, 0),
        "tail" => print_text(rt, desk, number(Some(rest))? as usize),
        "each" => each(rt, desk, rest),
        "changes" => changes(rt, desk, rest),
        "repeat" => repeat(rt, desk, rest),
        "game" => {
            println!(rt; "{line}")?;
            play_on(rt, desk, rest)
        }
        _ => hand(rt, desk, line, Shown::Every),
    }
}

// New machines, given the first N events of a list and then the events after a bar:
// `LIST N | EVENT | EVENT`.
fn go_from<R: Print>(rt: &R, desk: &mut Desk<'_>, rest: &str) -> Result<()> {
    desk.renew()?;
    let (place, events) = rest.split_once(" | ").unwrap_or((rest, ""));
    let (name, count) = place.split_once(' ').unwrap_or((place, ""));
    for line in desk.list(name)?.iter().take(number(Some(count))? as usize) {
        hand(rt, desk, line, Shown::Nothing)?;
    }
    unseen(rt, desk, events)
}

// Gives the machines the events, separated by bars, and prints nothing.
fn unseen<R: Print>(rt: &R, desk: &mut Desk<'_>, events: &str) -> Result<()> {
    if events.is_empty() {
        return Ok(());
    }
    for line in events.split(" | ") {
        hand(rt, desk, line, Shown::Nothing)?;
    }
    Ok(())
}

// For each N of a range: the first N events of a list, then the events of another list, and the
// game's text: `LIST N N LIST`.
fn each<R: Print>(rt: &R, desk: &mut Desk<'_>, rest: &str) -> Result<()> {
    let mut words = rest.split(' ');
    let name = words.next().unwrap_or("");
    let first = number(words.next())?;
    let last = number(words.next())?;
    let rows = desk.list(words.next().unwrap_or(""))?;
    for count in first..=last {
        println!(rt; "from {name} {count}")?;
        let place = format!(in desk.alloc; "{name} {count}")?;
        go_from(rt, desk, place.as_str())?;
        for line in rows.iter() {
            hand(rt, desk, line, Shown::Every)?;
        }
        print_text(rt, desk, 0)?;
    }
    Ok(())
}

// The events of a list; prints those that send a line or change something.
fn changes<R: Print>(rt: &R, desk: &mut Desk<'_>, name: &str) -> Result<()> {
    let rows = desk.list(name)?;
    println!(rt; "changes {name}: {}", rows.len())?;
    for line in rows.iter() {
        hand(rt, desk, line, Shown::Changes)?;
    }
    Ok(())
}

// The events of a list, this many times, without printing: `N LIST`.
fn repeat<R: Print>(rt: &R, desk: &mut Desk<'_>, rest: &str) -> Result<()> {
    let (count, name) = rest.split_once(' ').unwrap_or(("", ""));
    let rows = desk.list(name)?;
    for _ in 0..number(Some(count))? {
        for line in rows.iter() {
            hand(rt, desk, line, Shown::Nothing)?;
        }
    }
    Ok(())
}

// Prints the game's text, or its last bytes if their number is not 0.
fn print_text<R: Print>(rt: &R, desk: &Desk<'_>, bytes: usize) -> Result<()> {
    match desk.machines.bridge.game_text()? {
        None => println!(rt; "text none")?,
        Some(text) if bytes == 0 => println!(rt; "text {}", text.as_slice().escape_ascii())?,
        Some(text) => {
            let end = text
                .as_slice()
                .get(text.len().saturating_sub(bytes)..)
                .unwrap_or(b"");
            println!(rt; "tail {}", end.escape_ascii())?
        }
    }
    Ok(())
}
