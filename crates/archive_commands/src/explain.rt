//! A second line about a file that is refused or cannot be read: where its statement is, or the
//! system's reason.

ghost use Rattle.std.specs.Prelude.{◌≡◌, ◌+◌, ◌-◌, ◌^◌, ◌<◌, ◌≤◌, ◌==◌, ◌++◌, ℕ, List, codes, length, IfOk, IfSome, if◌then◌else◌, string_bytes};
ghost use Rattle.std.specs.Io.KnownBytes.{Consumes};
ghost use Rattle.archive_commands.specs.Explaining.{IsPlaceLine, IsReasonLine, reason_line};
ghost use Rattle.archive_commands.specs.LineNumbers.{ends_line, line_ends, line_number};

use crate::folders;
use csa_record::{PIECE, Refusal, read_uninterrupted};
use memchr::{memchr2, memchr3};
use record_commands::system_words::without_number;
use shogi_board::OutOfMemory;
use std::alloc::Global;
use std::fs;
use std::io::{self, Read};
use std::os::unix::fs::FileTypeExt;
use std::rt::Files;

/// The most bytes of a statement that are shown.
const LONGEST_TEXT: usize = 60;

/// What follows the system's reason why a folder cannot be read.
const FOLDER_HINT: &str = "; check, digest and same take folders as FILE";

/// The line about a refused file that shows the statement at fault: the number of its line, counted
/// from 1, and the first 60 bytes of it, escaped. Empty if the file cannot be read again up to
/// there, or is standard input or a pipe.
///
/// Returns an error if an allocation fails.
pub fn refusal<R: Files + AllocGlobal>(
    rt: &R,
    file: &str,
    refusal: &Refusal,
) -> Result<String, OutOfMemory>
    ensures { IfOk result (λ text. IsPlaceLine file.now (string_bytes text)) }
{
    let Some(Ok(mut input)) = opened_again(rt, file) else {
        return Ok(String::new(rt.alloc()));
    };
    let Some(line) = line_at(&mut input, refusal.offset) else {
        return Ok(String::new(rt.alloc()));
    };
    let text = statement(rt.alloc(), &mut input)?;
    Ok(format!(in rt.alloc(); "  {file}, line {line}: {text}\n")?)
}

/// The line about a file that cannot be read, with the system's reason. If it is a folder, the line
/// names the commands that take one. Empty if the file can be read now, or is standard input or a
/// pipe.
///
/// Returns an error if an allocation fails.
pub fn unreadable<R: Files + AllocGlobal>(rt: &R, file: &str) -> Result<String, OutOfMemory>
    ensures { IfOk result (λ text. IsReasonLine file.now (string_bytes text)) }
{
    let read = match opened_again(rt, file) {
        Some(Ok(mut input)) => read_to_end(&mut input),
        Some(Err(error)) => Err(error),
        None => Ok(()),
    };
    match read {
        Ok(()) => Ok(String::new(rt.alloc())),
        Err(error) => {
            let hint = if folders::is_folder(rt, file) {
                FOLDER_HINT
            } else {
                ""
            };
            reason_line(rt.alloc(), file, &error, hint)
        }
    }
}

/// The line that says that the name of a file is not UTF-8. `file` is the name with its bytes
/// escaped.
///
/// Returns an error if an allocation fails.
pub fn name_not_text(alloc: Global, file: &str) -> Result<String, OutOfMemory>
    ensures words { IfOk result (λ text. string_bytes text
        ≡ reason_line file.now (codes "the name is not UTF-8")) }
    ensures line { IfOk result (λ text. IsReasonLine file.now (string_bytes text)) }
{
    line_with(alloc, file, "the name is not UTF-8")
}

// The file, or why it cannot be opened. Neither standard input nor a pipe can be read again.
fn opened_again<R: Files>(rt: &R, file: &str) -> Option<io::Result<R::File>> {
    if file == "-" || is_pipe(rt, file) {
        return None;
    }
    Some(fs::open(rt, file))
}

// To open a named pipe would wait for another writer.
fn is_pipe<R: Files>(rt: &R, file: &str) -> bool {
    match fs::metadata(rt, file) {
        Ok(there) => there.file_type().is_fifo(),
        Err(_) => false,
    }
}

fn read_to_end<B: Read>(input: &mut B) -> io::Result<()> {
    let mut piece = [0u8; PIECE];
    for _ in 0..u64::MAX {
        if read_uninterrupted(input, &mut piece)? == 0 {
            break;
        }
    }
    Ok(())
}

// The system's words for the error, without its number, and then the hint.
fn reason_line(
    alloc: Global,
    file: &str,
    error: &io::Error,
    hint: &str,
) -> Result<String, OutOfMemory>
    ensures { IfOk result (λ text. IsReasonLine file.now (string_bytes text)) }
{
    let words = format!(in alloc; "{error}")?;
    let reason = without_number(&words);
    let explained = format!(in alloc; "{reason}{hint}")?;
    line_with(alloc, file, &explained)
}

// The line about a file with a reason.
fn line_with(alloc: Global, file: &str, reason: &str) -> Result<String, OutOfMemory>
    ensures words { IfOk result (λ text. string_bytes text ≡ reason_line file.now reason.now) }
    ensures line { IfOk result (λ text. IsReasonLine file.now (string_bytes text)) }
{
    Ok(format!(in alloc; "  {file}: {reason}\n")?)
}

// Reads up to this offset, and returns the number of the line that it is in. None if the input ends
// before it or cannot be read.
fn line_at<B: Read>(input: &mut B, offset: u64) -> Option<u64>
    ensures { IfSome result (λ line. (front : List ℕ)
        × Consumes (B.remaining input.old) (B.remaining input.new) front
        × (length front ≡ offset) × (line ≡ line_number front)) }
{
    let mut ends = LineEnds {
        number: 0,
        follow_cr: false,
    };
    let mut piece = [0u8; PIECE];
    let mut left = offset;
    while left > 0 {
        let most = left.min(PIECE as u64) as usize;
        let Ok(taken) = read_uninterrupted(input, &mut piece[..most]) else {
            return None;
        };
        if taken == 0 {
            return None;
        }
        ends.count(&piece[..taken]);
        left -= taken as u64;
    }
    if ends.number == u64::MAX {
        return None;
    }
    Some(ends.number + 1)
}

// How many lines have ended: by LF, by CR, and by CR LF, which is one end.
#[derive(Drop)]
struct LineEnds {
    number: u64,
    // Whether the last byte was a CR.
    follow_cr: bool,
}

impl LineEnds {
    // Counts those in the next bytes.
    fn count(&mut self, bytes: &[u8])
        requires { self.old.number + length bytes.now < 2 ^ 64 }
        ensures counted { (more : List ℕ)
            → self.old.number + line_ends self.old.follow_cr (bytes.now ++ more)
            ≡ self.new.number + line_ends self.new.follow_cr more }
        ensures bound { self.new.number ≤ self.old.number + length bytes.now }
    {
        for byte in bytes {
            self.take(*byte);
        }
    }

    // Takes the next byte. The LF of a CR LF ends no line: the CR did.
    fn take(&mut self, byte: u8)
        requires { self.old.number + 1 < 2 ^ 64 }
        ensures number { self.new.number
            ≡ self.old.number + (if ends_line self.old.follow_cr byte then 1 else 0) }
        ensures cr { self.new.follow_cr ≡ (byte == 13) }
    {
        if byte == b'\r' || (byte == b'\n' && !self.follow_cr) {
            self.number += 1;
        }
        self.follow_cr = byte == b'\r';
    }
}

// The beginning of the statement that comes next, with its bytes escaped.
fn statement<B: Read>(alloc: Global, input: &mut B) -> Result<String, OutOfMemory> {
    let mut beginning = [0u8; LONGEST_TEXT];
    let taken = fill(input, &mut beginning);
    let text = statement_of(&beginning[..taken]);
    if text.is_empty() {
        return Ok(String::from_str(alloc, "(end of file)")?);
    }
    Ok(format!(in alloc; "{}", text.escape_ascii())?)
}

// Fills the front of the buffer, as far as the input can be read.
fn fill<B: Read>(input: &mut B, buffer: &mut [u8]) -> usize
    ensures { result ≤ length buffer.new }
{
    let mut filled = 0;
    while filled < buffer.len() {
        match read_uninterrupted(input, &mut buffer[filled..]) {
            Ok(0) | Err(_) => break,
            Ok(taken) => filled += taken,
        }
    }
    filled
}

// The bytes before the end of the statement: a line end, or a comma but in a name or a header.
fn statement_of(bytes: &[u8]) -> &[u8] {
    let end = match bytes {
        [b'N' | b'$', ..] => memchr2(b'\r', b'\n', bytes),
        _ => memchr3(b'\r', b'\n', b',', bytes),
    };
    match end {
        Some(at) => &bytes[..at],
        None => bytes,
    }
}
