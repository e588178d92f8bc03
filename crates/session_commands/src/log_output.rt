//! The clock of a log, and what it is written to.

ghost use Rattle.std.specs.Prelude.{◌≡◌, IfOk, None, length, ⊤};

use crate::log::Timer;
use std::fs::File;
use std::io::{self, Eprint, Write};
use std::str;
use std::time::{Clock, Instant};

/// A stopwatch by the clock of a runtime.
#[derive(Drop)]
pub struct Stopwatch<'a, R> {
    rt: &'a R,
    // None if the clock failed.
    start: Option<Instant>,
}

impl<'a, R: Clock> Stopwatch<'a, R> {
    /// One that starts now. If the clock fails, the time stays 0.
    pub fn started(rt: &'a R) -> Stopwatch<'a, R>
        ensures { result.rt.now ≡ rt.now }
    {
        Stopwatch {
            rt,
            start: Instant::now(rt).ok(),
        }
    }
}

impl<R: Clock> Timer for Stopwatch<'_, R> {
    ghost shows = { λ _. ⊤ };

    fn elapsed_ms(&self) -> u64 {
        elapsed_ms(self.rt, self.start)
    }
}

// The time since the start, or 0 if the clock failed then or fails now.
fn elapsed_ms<R: Clock>(rt: &R, start: Option<Instant>) -> u64
    ensures { start ≡ None → result ≡ 0 }
{
    let Some(start) = start else {
        return 0;
    };
    match start.elapsed(rt) {
        Ok(time) => u64::try_from(time.as_millis()).unwrap_or(u64::MAX),
        Err(_) => 0,
    }
}

/// What a log is written to.
#[derive(Drop)]
pub enum LogWriter<'a, R> {
    /// Standard error.
    StandardError(StandardError<'a, R>),
    /// A file.
    File(File),
}

impl<R: Eprint> Write for LogWriter<'_, R> {
    fn write(&mut self, bytes: &[u8]) -> io::Result<usize> {
        match self {
            LogWriter::StandardError(stream) => stream.write(bytes),
            LogWriter::File(file) => file.write(bytes),
        }
    }

    fn flush(&mut self) -> io::Result<()> {
        match self {
            LogWriter::StandardError(stream) => stream.flush(),
            LogWriter::File(file) => file.flush(),
        }
    }
}

/// Standard error of a runtime.
#[derive(Drop)]
pub struct StandardError<'a, R> {
    rt: &'a R,
}

impl<'a, R> StandardError<'a, R> {
    /// That of this runtime.
    pub fn new(rt: &'a R) -> StandardError<'a, R>
        ensures { result.rt.now ≡ rt.now }
    {
        StandardError { rt }
    }
}

// Prints all of the bytes, or fails. A terminal may take control characters for commands, so they
// are not printed as they are.
fn print<R: Eprint>(rt: &R, bytes: &[u8]) -> io::Result<usize>
    ensures { IfOk result (λ taken. taken ≡ length bytes.now) }
{
    match str::from_utf8(bytes) {
        Ok(text) if !text.chars().any(is_control) => rt.eprint(text)?,
        _ => print_escaped(rt, bytes)?,
    }
    Ok(bytes.len())
}

// Whether it is a control character, and does not end a line.
fn is_control(character: char) -> bool {
    character.is_control() && character != '\n'
}

// Prints each byte that is no printable ASCII and no line end as `\xNN`.
fn print_escaped<R: Eprint>(rt: &R, bytes: &[u8]) -> io::Result<()> {
    for byte in bytes {
        if byte.is_ascii_graphic() || *byte == b' ' || *byte == b'\n' {
            rt.eprint(char::from(*byte))?;
        } else {
            rt.eprint(format_args!("\\x{byte:02X}"))?;
        }
    }
    Ok(())
}

// A text that is not UTF-8, or has control characters, is written with `\xNN` for each byte that is
// not printable ASCII, but for line ends.
impl<R: Eprint> Write for StandardError<'_, R> {
    fn write(&mut self, bytes: &[u8]) -> io::Result<usize> {
        print(self.rt, bytes)
    }

    fn flush(&mut self) -> io::Result<()> {
        Ok(())
    }
}
