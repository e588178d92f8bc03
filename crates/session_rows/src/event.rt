//! What a line of the script says.

ghost use Rattle.std.specs.Prelude.{◌≡◌, ◌↔◌, IsTrue, IfSome};
ghost use Rattle.csa_cutting.specs.Lines.{HasNoLineEnd};
ghost use Rattle.shogi_session.specs.Promises.{HoldsLine, event_of};

use shogi_session::Event;
use std::alloc::{AllocError, Global};

/// The bytes of a text in which `\xNN` means one byte.
pub(crate) fn unescape(alloc: Global, text: &str) -> Result<Vec<u8>, AllocError> {
    let mut bytes = Vec::new(alloc);
    extend_unescaped(&mut bytes, text)?;
    Ok(bytes)
}

fn extend_unescaped(bytes: &mut Vec<u8>, text: &str) -> Result<(), AllocError> {
    let mut parts = text.split("\\x");
    bytes.extend_from_slice(parts.next().unwrap_or("").as_bytes())?;
    for part in parts {
        let (digits, rest) = part.split_at_checked(2).unwrap_or(("", part));
        bytes.push(u8::from_str_radix(digits, 16).unwrap_or(b'?'))?;
        bytes.extend_from_slice(rest.as_bytes())?;
    }
    Ok(())
}

fn is_line(line: &[u8]) -> bool
    ensures { IsTrue result → HasNoLineEnd line.now }
{
    line.iter().all(|b| !(*b == b'\r' || *b == b'\n'))
}

/// The event that the bytes spell, if they spell one: `begin`, `engine:` or `server:` and a line,
/// `ends` or `long`.
pub(crate) fn read_event(bytes: &[u8]) -> Option<Event<'_>>
    ensures line { IfSome result (λ event. HoldsLine (event_of event)) }
{
    if !is_line(bytes) {
        return None;
    }
    match bytes {
        b"begin" => Some(Event::Begin),
        b"engine ends" => Some(Event::EngineEnd),
        b"engine long" => Some(Event::EngineLong),
        b"server ends" => Some(Event::ServerEnd),
        b"server long" => Some(Event::ServerLong),
        _ => read_line(bytes),
    }
}

fn read_line(bytes: &[u8]) -> Option<Event<'_>>
    ensures line { IfSome result (λ event. HoldsLine (event_of event)) }
{
    let mut parts = bytes.splitn(2, |b| *b == b':');
    let seat = parts.next()?;
    let line = parts.next()?;
    if !is_line(line) {
        return None;
    }
    match seat {
        b"engine" => Some(Event::EngineLine(line)),
        b"server" => Some(Event::ServerLine(line)),
        _ => None,
    }
}
