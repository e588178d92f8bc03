//! New machines, from the words of a line.

ghost use Rattle.std.specs.Prelude.{◌↔◌, IsTrue, IfOk};
ghost use Rattle.shogi_session.specs.Host.{IsLoginWord};

use anyhow::{Result, bail};
use arrayvec::ArrayString;
use shogi_board::Color;
use shogi_rules::MAX_MOVES;
use shogi_session::{Bridge, Config, Host, HostConfig};
use std::alloc::Global;

fn is_login_word(word: &[u8]) -> bool
    ensures { IsTrue result ↔ IsLoginWord word.now }
{
    !word.is_empty() && word.len() <= 32 && word.iter().all(|b| 0x21 <= *b && *b <= 0x7E)
}

fn login_word(text: Option<&str>) -> Result<ArrayString<32>>
    ensures { IfOk result (λ word. IsLoginWord word.bytes) }
{
    let text = text.unwrap_or("");
    if !is_login_word(text.as_bytes()) {
        bail!("no word of 1 to 32 bytes: {text}");
    }
    Ok(ArrayString::from(text)?)
}

/// The number that the text spells, or an error.
pub(crate) fn number(text: Option<&str>) -> Result<u32> {
    Ok(text.unwrap_or("").parse::<u32>()?)
}

/// A bridge, from its name, its password, and its total time and byoyomi in milliseconds.
pub(crate) fn new_bridge(alloc: Global, words: &str) -> Result<Bridge> {
    let mut words = words.split(' ');
    let config = Config {
        name: login_word(words.next())?,
        password: login_word(words.next())?,
        total_ms: number(words.next())?,
        byoyomi_ms: number(words.next())?,
    };
    Ok(Bridge::new(alloc, &config)?)
}

/// A host, from the client's side, the greatest number of moves, the game's name and its own.
pub(crate) fn new_host(alloc: Global, words: &str) -> Result<Host> {
    let mut words = words.split(' ');
    let client = match words.next() {
        Some("black") => Color::Black,
        Some("white") => Color::White,
        _ => bail!("no side"),
    };
    let max_moves = number(words.next())?;
    if max_moves < 1 || (MAX_MOVES as u32) < max_moves {
        bail!("a host's game has 1 to 10,000 moves");
    }
    let config = HostConfig {
        client,
        max_moves,
        id: login_word(words.next())?,
        name: login_word(words.next())?,
    };
    Ok(Host::new(alloc, &config)?)
}
