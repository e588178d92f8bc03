ghost use Rattle.std.specs.Prelude.{◌≡◌, ◌+◌, ◌≤◌, ◌↔◌, ◌⊎◌, [], length, ◌++◌, IsErrOf, IfOk, true, false};
ghost use Rattle.std.specs.List.{position_or_len, prefix_len};
ghost use Rattle.std.specs.Borrow.{sem};
ghost use Rattle.std.specs.Io.BufRead.{Rests};
ghost use Rattle.csa_cutting.specs.contracts.line.LineCutter.{the_row};
ghost use Rattle.csa_cutting.specs.declared.line.LineFault.TheVariants.{OutOfMemory};
ghost use Rattle.csa_cutting.specs.Lines.{is_line_end, HasNoLineEnd};
ghost use Rattle.csa_cutting.specs.LineCutting.{BeginsTooLong, LineStep, LinesAfter, LastLine, LinesFinished};
ghost use Rattle.csa_cutting.specs.LineHolding.{IsRun, unfinished_of};

use crate::scan::front_length;
use memchr::memchr2_iter;
use std::alloc::{AllocError, Global};
use std::marker::Model;
use thiserror::Error;

/// Why no line is returned.
#[derive(Clone, Copy, Debug, PartialEq, Eq, Error)]
pub enum LineFault {
    /// A line has more bytes than the limit.
    #[error("line too long")]
    TooLong,
    /// An allocation for the line failed.
    #[error("out of memory")]
    OutOfMemory,
}

impl From<AllocError> for LineFault {
    ghost from_gives = { λ _ e. e ≡ OutOfMemory };

    fn from(_error: AllocError) -> LineFault {
        LineFault::OutOfMemory
    }
}

/// Cuts bytes that arrive in pieces into lines, and yields these in order.
///
/// CR and LF each end a line, and empty lines are skipped. The cutter keeps at most one line: the
/// unfinished one or, until the next call, the one that it returned.
#[derive(Drop)]
pub struct LineCutter {
    held: Vec<u8>,
    held_line: HeldLine,
    limit: usize,
    failed: bool,
}

// Which line the held bytes are.
#[derive(Clone, Copy, PartialEq, Eq)]
enum HeldLine {
    Unfinished,
    Returned,
}

impl Model for LineCutter {
    ghost use Rattle.std.specs.Prelude.{length, ◌≤◌};
    ghost use Rattle.csa_cutting.specs.Lines.{HasNoLineEnd};
    ghost use Rattle.csa_cutting.specs.LineCutting.{LineCutting};
    ghost use Rattle.csa_cutting.specs.LineHolding.{unfinished_of};

    ghost Value = { LineCutting };

    ghost view = { λ c. record {
      held = unfinished_of c.held_line c.held.items;
      limit = c.limit;
      failed = c.failed;
    } };

    ghost invariant = { λ c. (length c.held.items ≤ c.limit) × HasNoLineEnd c.held.items };
}

impl LineCutter {
    /// Creates a cutter for lines of at most `limit` bytes.
    pub fn new(alloc: Global, limit: usize) -> LineCutter
        ensures held { result.held ≡ [] }
        ensures limit { result.limit ≡ limit }
        ensures failed { result.failed ≡ false }
    {
        LineCutter {
            held: Vec::new(alloc),
            held_line: HeldLine::Unfinished,
            limit,
            failed: false,
        }
    }

    /// Takes bytes from the front of the piece. Returns how many it used, and the line that ended
    /// there, if one did.
    ///
    /// It stops after the CR or LF that ends a line, and uses the whole piece if no line ends in
    /// it. Pass the rest of the piece to the next call.
    ///
    /// Returns `TooLong` as soon as a line has more than `limit` bytes, and from then on at each
    /// call; then `OutOfMemory` if an allocation fails. After `OutOfMemory` the cutter is
    /// unchanged, and no byte of the piece has been used.
    pub fn step(&mut self, piece: &[u8]) -> Result<(usize, Option<&[u8]>), LineFault>
        ensures long { IsErrOf result LineFault.TooLong
            ↔ ((self.old.failed ≡ true)
            ⊎ BeginsTooLong self.old.limit (self.old.held ++ piece.now)) }
        ensures lines { IfOk result (λ r. LineStep self.old.held piece.now r) }
        ensures* rests { sem 𝓛
            (Rests the_row self.entry (λ new. LinesAfter self.old piece.now result new)) }
    {
        if self.failed {
            return Err(LineFault::TooLong);
        }
        forget(&mut self.held, self.held_line);
        self.held_line = HeldLine::Unfinished;
        let (start, end) = first_run(self.held.as_slice(), piece);
        let run = &piece[start..end];
        if self.limit - self.held.len() < run.len() {
            self.failed = true;
            return Err(LineFault::TooLong);
        }
        self.held.extend_from_slice(run)?;
        if end == piece.len() {
            return Ok((end, None));
        }
        self.held_line = HeldLine::Returned;
        Ok((end + 1, Some(self.held.as_slice())))
    }

    /// Returns the line that is unfinished at the end of the bytes, if there is one.
    ///
    /// Afterwards the cutter is at the start of a line. Returns `TooLong` if `step` has returned
    /// it.
    pub fn finish(&mut self) -> Result<Option<&[u8]>, LineFault>
        ensures long { IsErrOf result LineFault.TooLong ↔ (self.old.failed ≡ true) }
        ensures memory { IsErrOf result LineFault.OutOfMemory → ⊥ }
        ensures last { IfOk result (λ last. LastLine self.old.held last) }
        ensures little { length self.old.held ≤ self.old.limit }
        ensures unended { HasNoLineEnd self.old.held }
        ensures* rests { sem 𝓛
            (Rests the_row self.entry (λ new. LinesFinished self.old result new)) }
    {
        if self.failed {
            return Err(LineFault::TooLong);
        }
        if self.held_line == HeldLine::Returned || self.held.is_empty() {
            return Ok(None);
        }
        self.held_line = HeldLine::Returned;
        Ok(Some(self.held.as_slice()))
    }
}

pub(crate) fn is_line_end(b: u8) -> bool
    ensures { result ≡ is_line_end b }
{
    b == b'\r' || b == b'\n'
}

// How many CR and LF the text begins with.
fn line_ends_length(text: &[u8]) -> usize
    ensures value { result ≡ prefix_len is_line_end text.now }
    ensures within { result ≤ length text.now }
{
    front_length(text, is_line_end)
}

// How many bytes of the text come before a CR or LF. Not inlined, for the reason that
// `plain_length` has.
#[inline(never)]
pub(crate) fn line_length(text: &[u8]) -> usize
    ensures value { result ≡ position_or_len is_line_end text.now }
    ensures within { result ≤ length text.now }
{
    // Most lines are short: the iterator first looks at the first bytes alone.
    memchr2_iter(b'\r', b'\n', text)
        .next()
        .unwrap_or(text.len())
}

// Clears a line that was returned.
fn forget(held: &mut Vec<u8>, line: HeldLine)
    ensures { held.new.items ≡ unfinished_of line held.old.items }
{
    match line {
        HeldLine::Unfinished => {}
        HeldLine::Returned => held.clear(),
    }
}

// Where the run of the piece starts and ends that continues the held line or, if none is held,
// follows the line ends at the front.
fn first_run(held: &[u8], piece: &[u8]) -> (usize, usize)
    ensures { IsRun held.now piece.now result.0 result.1 }
{
    let start = if held.is_empty() {
        line_ends_length(piece)
    } else {
        0
    };
    (start, start + line_length(&piece[start..]))
}
