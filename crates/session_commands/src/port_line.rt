//! The line with which a server says its port.

ghost use Rattle.std.specs.Prelude.{ℕ, IfOk, MatchOption};
ghost use Rattle.session_commands.specs.Ports.{IsPortLine, SaysFirst};

use record_commands::incoming::{Incoming, LineEvent};
use session_setup::port::port_in;
use shogi_board::OutOfMemory;
use std::io::Read;

/// What the first line of a server says.
#[derive(Clone, Copy)]
pub enum FirstLine {
    /// Its port.
    Port(u16),
    /// No port.
    Other,
    /// More than 65,536 bytes.
    Long,
    /// Nothing: the server ended before it, or it cannot be read.
    Missing,
}

/// What the server's first line says. The line is then the last one of `lines`.
///
/// Returns `OutOfMemory` if an allocation fails.
pub fn first_line<T: Read + Drop>(lines: &mut Incoming<T>) -> Result<FirstLine, OutOfMemory>
    ensures first { IfOk result (SaysFirst lines.old lines.new) }
{
    match lines.read_line()? {
        LineEvent::Line => match port_of(lines.line()) {
            Some(port) => Ok(FirstLine::Port(port)),
            None => Ok(FirstLine::Other),
        },
        LineEvent::Long => Ok(FirstLine::Long),
        LineEvent::End => Ok(FirstLine::Missing),
        LineEvent::Failed => Ok(FirstLine::Missing),
    }
}

// The port of a line that is `listening ` and a number from 1 to 65,535 in decimal.
fn port_of(line: &[u8]) -> Option<u16>
    ensures { MatchOption result ((port : ℕ) → IsPortLine line.now port → ⊥) (IsPortLine line.now) }
{
    match line.strip_prefix(b"listening ".as_slice()) {
        Some(digits) => port_in(digits),
        None => None,
    }
}
