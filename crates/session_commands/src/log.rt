//! A log of what passes between a bridge, its engine and its server.

ghost use Rattle.std.specs.Prelude.{◌≡◌, ◌==◌, ◌++◌, ◌∷◌, [], if◌then◌else◌, IfErr, IfOk, OnErr, OnOk, true, codes, string_bytes};
ghost use Rattle.std.specs.List.{before_first};
ghost use Rattle.session_lines.specs.LineTexts.{login_front};
ghost use Rattle.session_commands.specs.LogTexts.{AppendsEntry, CutsText, HidesPassword, IsEntryText, IsShown, IsUnnoted, closing_fault, each_after, margin, places_text, seconds_text, sign, time_text};
ghost use Rattle.session_commands.specs.Logging.{entry_of};
ghost use Rattle.session_setup.specs.Faults.{IsFileFault};

use crate::bridging::{Ends, Peer};
use record_commands::incoming::LineEvent;
use record_commands::{WriteFault, streams};
use session_setup::MatchFault;
use shogi_board::OutOfMemory;
use std::alloc::{AllocError, Global};
use std::io::Write;
use std::marker::Model;

// How the line of a login begins; the name and the password follow.
const LOGIN_FRONT: &[u8] = b"LOGIN ";

/// Whether lines come from a peer or go to it.
#[derive(Clone, Copy)]
pub enum LogDirection {
    /// They come from it.
    From,
    /// They go to it.
    To,
}

/// What notes the lines that pass.
pub trait Log {
    ghost use Rattle.std.specs.Prelude.{ℕ, List};
    ghost use Rattle.session_setup.specs.Faults.{IsFileFault};
    ghost use Rattle.session_commands.specs.Logging.{Entry};

    // The entry was noted, or the log is not whole from then on.
    ghost noted: { Self → Entry → Self → Type 0 };

    // This text was added at the end, and the log is whole.
    ghost closed: { Self → List ℕ → Self → Type 0 };

    // At most the beginning of this text was added, and nothing to a log that was not whole. The
    // log is not whole from then on.
    ghost unclosed: { Self → List ℕ → Self → Type 0 };

    /// Notes a line that came from the peer, without its line end, or lines that went to it, with
    /// theirs.
    fn note(&mut self, peer: Peer, direction: LogDirection, lines: &[u8])
        ensures { noted self.old (entry_of peer direction lines.now) self.new };

    /// Adds a text at the end. If the log is not whole then, refuses `Write`, or `OutOfMemory` if
    /// an allocation failed for one of its entries.
    fn close(&mut self, text: &[u8]) -> Result<(), MatchFault>
        ensures closed { OnOk result (closed self.old text.now self.new) }
        ensures unclosed { OnErr result (unclosed self.old text.now self.new) }
        ensures faults { IfErr result IsFileFault };
}

// A log that may be missing.
impl<L: Log + Drop> Log for Option<L> {
    ghost use Rattle.session_commands.specs.Logging.{ClosesIfAny, NotesIfAny, RefusesIfAny};

    ghost noted = { NotesIfAny L.noted };

    ghost closed = { ClosesIfAny L.closed };

    ghost unclosed = { RefusesIfAny L.unclosed };

    fn note(&mut self, peer: Peer, direction: LogDirection, lines: &[u8]) {
        if let Some(log) = self {
            log.note(peer, direction, lines);
        }
    }

    fn close(&mut self, text: &[u8]) -> Result<(), MatchFault> {
        match self {
            Some(log) => log.close(text),
            None => Ok(()),
        }
    }
}

/// The ends of a session, and the log of what passes there.
#[derive(Drop)]
pub struct Logged<E: Ends + Drop, L: Log + Drop> {
    /// The ends.
    pub ends: E,
    /// The log.
    pub log: L,
}

impl<E: Ends + Drop, L: Log + Drop> Model for Logged<E, L> {
    ghost Value = { E × L };

    ghost view = { λ s. (s.ends, s.log) };
}

// Each line that comes, and each that a peer takes, is noted.
impl<E: Ends + Drop, L: Log + Drop> Ends for Logged<E, L> {
    ghost use Rattle.std.specs.Prelude.{◌≡◌};
    ghost use Rattle.session_commands.specs.Logging.{CameNoted, WentNoted};

    ghost last_line = { λ s. E.last_line s.0 };

    ghost held = { λ s. E.held s.0 };

    ghost came = { CameNoted E.came L.noted };

    ghost missed = { λ s peer t. E.missed s.0 peer t.0 × (t.1 ≡ s.1) };

    ghost went = { WentNoted E.went L.noted };

    ghost gone = { λ s peer lines t. E.gone s.0 peer lines t.0 × (t.1 ≡ s.1) };

    ghost closed = { λ s text t. (t.0 ≡ s.0) × L.closed s.1 text t.1 };

    ghost unclosed = { λ s text t. (t.0 ≡ s.0) × L.unclosed s.1 text t.1 };

    fn receive(&mut self, peer: Peer) -> Result<LineEvent, OutOfMemory> {
        let event = self.ends.receive(peer)?;
        if event != LineEvent::Line {
            return Ok(event);
        }
        self.log
            .note(peer, LogDirection::From, self.ends.line(peer));
        Ok(event)
    }

    fn line(&self, peer: Peer) -> &[u8] {
        self.ends.line(peer)
    }

    fn send(&mut self, peer: Peer, lines: &[u8]) -> Result<(), WriteFault> {
        self.ends.send(peer, lines)?;
        self.log.note(peer, LogDirection::To, lines);
        Ok(())
    }

    fn close(&mut self, text: &[u8]) -> Result<(), MatchFault> {
        self.log.close(text)
    }

    ghost takes_lines = { λ s t peer lines went. E.takes_lines s.0 t.0 peer lines went.0 };

    ghost went_keeps = { λ s t peer other lines went.
        E.went_keeps s.0 t.0 peer other lines went.0 };

    ghost gone_keeps = { λ s t peer other lines gone.
        E.gone_keeps s.0 t.0 peer other lines gone.0 };

    ghost came_keeps = { λ s t peer other event came.
        E.came_keeps s.0 t.0 peer other event came.0 };

    ghost missed_keeps = { λ s t peer other event missed.
        E.missed_keeps s.0 t.0 peer other event missed.0 };
}

/// What says how long a session has gone on.
pub trait Timer {
    ghost use Rattle.std.specs.Prelude.{ℕ};

    // The times that it may show, in thousandths of a second.
    ghost shows: { ℕ → Type 0 };

    /// The time since the start, in thousandths of a second.
    fn elapsed_ms(&self) -> u64
        ensures { shows result };
}

/// Whether a log has all that was noted.
#[derive(Clone, Copy, PartialEq, Eq)]
pub enum LogState {
    /// All was written.
    Whole,
    /// A write failed, and nothing was written after it.
    Unwritten,
    /// An allocation failed, and nothing was written after it.
    OutOfMemory,
}

/// A log as a text: each line after its time, its peer and its direction.
#[derive(Drop)]
pub struct TextLog<T: Timer + Drop, W: Write + Drop> {
    alloc: Global,
    timer: T,
    writer: W,
    state: LogState,
}

impl<T: Timer + Drop, W: Write + Drop> TextLog<T, W> {
    /// A log in which nothing is noted yet.
    pub fn new(alloc: Global, timer: T, writer: W) -> TextLog<T, W>
        ensures whole { result.state ≡ LogState.Whole }
        ensures writer { result.writer ≡ writer }
    {
        TextLog {
            alloc,
            timer,
            writer,
            state: LogState::Whole,
        }
    }
}

impl<T: Timer + Drop, W: Write + Drop> Log for TextLog<T, W> {
    ghost use Rattle.std.specs.Prelude.{◌≡◌};
    ghost use Rattle.std.specs.Io.KnownBytes.{Appends};
    ghost use Rattle.session_commands.specs.LogTexts.{CutsText, NotesText};
    ghost use Rattle.session_commands.specs.declared.log.LogState.{LogState};

    ghost noted = { λ l entry m.
        NotesText T.shows l.state (W.contents l.writer) entry m.state (W.contents m.writer) };

    ghost closed = { λ l text m. (l.state ≡ LogState.Whole) × (m.state ≡ LogState.Whole)
        × Appends (W.contents l.writer) (W.contents m.writer) text };

    ghost unclosed = { λ l text m.
        CutsText l.state (W.contents l.writer) text m.state (W.contents m.writer) };

    fn note(&mut self, peer: Peer, direction: LogDirection, lines: &[u8]) {
        if self.state != LogState::Whole {
            return;
        }
        let time = self.timer.elapsed_ms();
        match write_entry(self.alloc, &mut self.writer, time, peer, direction, lines) {
            Ok(()) => {}
            Err(MatchFault::OutOfMemory) => self.state = LogState::OutOfMemory,
            Err(_) => self.state = LogState::Unwritten,
        }
    }

    fn close(&mut self, text: &[u8]) -> Result<(), MatchFault>
        ensures closed { OnOk result
            ((self.old.state ≡ LogState.Whole) × (self.new.state ≡ LogState.Whole)
            × Appends (W.contents self.old.writer) (W.contents self.new.writer) text.now) }
        ensures unclosed { OnErr result (CutsText self.old.state (W.contents self.old.writer)
            text.now self.new.state (W.contents self.new.writer)) }
        ensures faults { IfErr result IsFileFault }
        ensures fault { IfErr result (λ fault. fault ≡ closing_fault self.old.state) }
    {
        match self.state {
            LogState::Whole => {}
            LogState::Unwritten => return Err(MatchFault::Write),
            LogState::OutOfMemory => return Err(MatchFault::OutOfMemory),
        }
        if let Err(fault) = streams::write_all(&mut self.writer, text) {
            self.state = LogState::Unwritten;
            return Err(MatchFault::from(fault));
        }
        Ok(())
    }
}

// Writes the text of an entry.
fn write_entry<W: Write>(
    alloc: Global,
    writer: &mut W,
    time: u64,
    peer: Peer,
    direction: LogDirection,
    lines: &[u8],
) -> Result<(), MatchFault>
    ensures written { OnOk result (AppendsEntry (λ t. t ≡ time)
        (W.contents writer.old) (W.contents writer.new) (entry_of peer direction lines.now)) }
    ensures unwritten { IfErr result (IsUnnoted (λ t. t ≡ time)
        (W.contents writer.old) (W.contents writer.new) (entry_of peer direction lines.now)) }
{
    let text = entry_text(alloc, time, peer, direction, lines)?;
    streams::write_all(writer, text.as_slice())?;
    Ok(())
}

// The text of an entry at that time.
fn entry_text(
    alloc: Global,
    time: u64,
    peer: Peer,
    direction: LogDirection,
    lines: &[u8],
) -> Result<Vec<u8>, AllocError>
    ensures { IfOk result (λ text.
        IsEntryText (λ t. t ≡ time) (entry_of peer direction lines.now) text.items) }
{
    let shown = shown(alloc, peer, direction, lines)?;
    let front = front(alloc, time, peer, direction)?;
    let text = each_after(alloc, front.as_str(), shown.as_slice())?;
    Ok(text)
}

// What is shown of the lines of an entry: for the server all but the password.
fn shown(
    alloc: Global,
    peer: Peer,
    direction: LogDirection,
    lines: &[u8],
) -> Result<Vec<u8>, AllocError>
    ensures { IfOk result (λ shown. IsShown peer direction lines.now shown.items) }
{
    match (peer, direction) {
        (Peer::Server, LogDirection::To) => without_password(alloc, lines),
        (Peer::Server, LogDirection::From) => Vec::from_slice(alloc, lines),
        (Peer::Engine, LogDirection::From) => Vec::from_slice(alloc, lines),
        (Peer::Engine, LogDirection::To) => Vec::from_slice(alloc, lines),
    }
}

// What each line of an entry begins with.
fn front(
    alloc: Global,
    time: u64,
    peer: Peer,
    direction: LogDirection,
) -> Result<String, AllocError>
    ensures { IfOk result (λ text. string_bytes text ≡ time_text time ++ sign peer direction) }
{
    let time = time_text(alloc, time)?;
    let sign = sign(peer, direction);
    format!(in alloc; "{time}{sign}")
}

fn sign(peer: Peer, direction: LogDirection) -> &'static str
    ensures { result.now ≡ sign peer direction }
{
    match (peer, direction) {
        (Peer::Engine, LogDirection::From) => " engine > ",
        (Peer::Engine, LogDirection::To) => " engine < ",
        (Peer::Server, LogDirection::From) => " server > ",
        (Peer::Server, LogDirection::To) => " server < ",
    }
}

// The time in seconds, with three places.
fn time_text(alloc: Global, time: u64) -> Result<String, AllocError>
    ensures { IfOk result (λ text. string_bytes text ≡ time_text time) }
{
    let seconds = seconds_text(alloc, time / 1000)?;
    let places = places_text(alloc, time)?;
    format!(in alloc; "{seconds}.{places}")
}

fn seconds_text(alloc: Global, seconds: u64) -> Result<String, AllocError>
    ensures { IfOk result (λ text. string_bytes text ≡ seconds_text seconds) }
{
    let margin = margin(seconds);
    format!(in alloc; "{margin}{seconds}")
}

fn places_text(alloc: Global, time: u64) -> Result<String, AllocError>
    ensures { IfOk result (λ text. string_bytes text ≡ places_text time) }
{
    let tenths = time / 100 % 10;
    let hundredths = time / 10 % 10;
    let thousandths = time % 10;
    format!(in alloc; "{tenths}{hundredths}{thousandths}")
}

// What moves these seconds to the right.
fn margin(seconds: u64) -> &'static str
    ensures { result.now ≡ margin seconds }
{
    if seconds < 10 {
        "  "
    } else if seconds < 100 {
        " "
    } else {
        ""
    }
}

// The lines for the server, without the password of a login.
fn without_password(alloc: Global, lines: &[u8]) -> Result<Vec<u8>, AllocError>
    ensures { IfOk result (λ shown. HidesPassword lines.now shown.items) }
{
    match lines.strip_prefix(LOGIN_FRONT) {
        Some(rest) => hidden_login(alloc, rest),
        None => Vec::from_slice(alloc, lines),
    }
}

// A login whose name these bytes begin with, without its password.
fn hidden_login(alloc: Global, rest: &[u8]) -> Result<Vec<u8>, AllocError>
    ensures { IfOk result (λ shown. shown.items
        ≡ login_front ++ before_first (λ b. b == 32) rest.now ++ codes " ***") }
{
    let mut shown = Vec::from_slice(alloc, LOGIN_FRONT)?;
    shown.extend_from_slice(name_in(rest))?;
    shown.extend_from_slice(b" ***".as_slice())?;
    Ok(shown)
}

// What comes before the first space.
fn name_in(rest: &[u8]) -> &[u8]
    ensures { result.now ≡ before_first (λ b. b == 32) rest.now }
{
    match rest.iter().position(|b| *b == b' ') {
        Some(end) => &rest[..end],
        None => rest,
    }
}

// Each of the lines after the front, with its line end.
fn each_after(alloc: Global, front: &str, lines: &[u8]) -> Result<Vec<u8>, AllocError>
    ensures { IfOk result (λ text. text.items ≡ each_after front.now true lines.now) }
{
    let mut text = Vec::new(alloc);
    let mut begins_line = true;
    for at in 0..lines.len() {
        push_after(&mut text, front, begins_line, lines[at])?;
        begins_line = lines[at] == b'\n';
    }
    end_line(text, begins_line)
}

// Adds a byte, after the front if it begins a line.
fn push_after(
    text: &mut Vec<u8>,
    front: &str,
    begins_line: bool,
    byte: u8,
) -> Result<(), AllocError>
    ensures { OnOk result (text.new.items
        ≡ text.old.items ++ (if begins_line then front.now else []) ++ byte ∷ []) }
{
    if !begins_line {
        text.push(byte)?;
        return Ok(());
    }
    text.extend_from_slice(front.as_bytes())?;
    text.push(byte)?;
    Ok(())
}

// Ends the last line, if it has no line end.
fn end_line(text: Vec<u8>, begins_line: bool) -> Result<Vec<u8>, AllocError>
    ensures { IfOk result (λ ended. ended.items
        ≡ text.items ++ (if begins_line then [] else 10 ∷ [])) }
{
    if begins_line {
        return Ok(text);
    }
    let mut text = text;
    text.push(b'\n')?;
    Ok(text)
}
