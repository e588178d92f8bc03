//! The lines of a reader, one at a time.

ghost use Rattle.std.specs.Prelude.{◌≡◌, ◌↔◌, ◌⊎◌, ◌<◌, ◌≤◌, ◌++◌, [], ◌∷◌, length, take, is_some, None, Some, Ok, IfErr, IfOk, IfSome, IsErrOf, OnErr, OnOk, true, false};
ghost use Rattle.csa_cutting.specs.Lines.{Lines};
ghost use Rattle.csa_cutting.specs.LineCutting.{BeginsTooLong};
ghost use Rattle.record_commands.specs.Incoming.{GivesEnd, GivesLine, GivesLongLine, GivesNoLine, stop_after, stop_of};
ghost use Rattle.record_commands.specs.IncomingPieces.{IsReading, PieceGives, PieceStops, event_of};
ghost use Rattle.std.specs.Io.Buffered.{reader_remaining};
ghost use Rattle.std.specs.Io.KnownBytes.{prepend_known};

use crate::streams;
use csa_cutting::{LineCutter, LineFault};
use csa_record::PIECE;
use shogi_board::OutOfMemory;
use std::alloc::Global;
use std::io::{BufRead, BufReader, ErrorKind, Read};
use std::marker::Model;

/// What comes next from a reader.
#[derive(Clone, Copy, PartialEq, Eq)]
pub enum LineEvent {
    /// A line, which is then in `line`.
    Line,
    /// The end.
    End,
    /// A line of more than 65,536 bytes.
    Long,
    /// Nothing: a read failed, or reading ended before, at a fault or a line that is too long.
    Failed,
}

/// Why no more is read.
#[derive(Clone, Copy)]
pub enum ReadStop {
    /// A line has more than 65,536 bytes.
    TooLong,
    /// A read failed.
    Failed,
    /// An allocation failed.
    OutOfMemory,
}

impl From<LineFault> for ReadStop {
    ghost from_gives = { λ fault stop. stop ≡ stop_of fault };

    fn from(fault: LineFault) -> ReadStop {
        match fault {
            LineFault::TooLong => ReadStop::TooLong,
            LineFault::OutOfMemory => ReadStop::OutOfMemory,
        }
    }
}

/// A reader whose bytes are cut into lines as they come.
#[derive(Drop)]
pub struct Incoming<R: Read + Drop> {
    alloc: Global,
    reader: BufReader<R>,
    cutter: LineCutter,
    line: Vec<u8>,
    stop: Option<ReadStop>,
}

impl<R: Read + Drop> Model for Incoming<R> {
    ghost use Rattle.std.specs.Prelude.{◌≡◌, is_some, false};
    ghost use Rattle.std.specs.Io.Buffered.{reader_remaining};
    ghost use Rattle.std.specs.Io.KnownBytes.{prepend_known};
    ghost use Rattle.record_commands.specs.Incoming.{Coming};
    ghost use Rattle.record_commands.specs.IncomingPieces.{IsReading};

    ghost Value = { Coming };

    ghost view = { λ i. record {
      bytes = prepend_known i.cutter.held (reader_remaining R.remaining i.reader);
      line = i.line.items;
      stop = i.stop;
    } };

    ghost invariant = { λ i. is_some i.stop ≡ false → IsReading i.cutter };
}

impl<R: Read + Drop> Incoming<R> {
    /// A reader of which nothing is read yet. Returns `OutOfMemory` if an allocation fails.
    pub fn new(alloc: Global, reader: R) -> Result<Incoming<R>, OutOfMemory>
        ensures bytes { IfOk result (λ i. i.bytes ≡ R.remaining reader) }
        ensures open { IfOk result (λ i. i.stop ≡ None) }
    {
        let Ok(reader) = BufReader::with_capacity(alloc, PIECE, reader) else {
            return Err(OutOfMemory);
        };
        Ok(Incoming {
            alloc,
            reader,
            cutter: LineCutter::new(alloc, streams::LONGEST_LINE),
            line: Vec::new(alloc),
            stop: None,
        })
    }

    /// Reads up to the next line end. Empty lines are passed over. Bytes at the end without a line
    /// end are a line. If a read is interrupted, tries again.
    ///
    /// Returns `OutOfMemory` if an allocation fails. After that, after `Long` and after `Failed`,
    /// every call returns `Failed`.
    pub fn read_line(&mut self) -> Result<LineEvent, OutOfMemory>
        ensures line { IfOk result (λ event. event ≡ LineEvent.Line
            → GivesLine self.old.bytes self.new.bytes self.new.line) }
        ensures short { IfOk result (λ event. event ≡ LineEvent.Line
            → length self.new.line ≤ 65536) }
        ensures end { IfOk result (λ event. event ≡ LineEvent.End
            → GivesEnd self.old.bytes self.new.bytes) }
        ensures failed { IfOk result (λ event. event ≡ LineEvent.Failed
            → GivesNoLine self.old.bytes self.new.bytes) }
        ensures long { IfOk result (λ event. event ≡ LineEvent.Long
            → GivesLongLine self.old.bytes self.new.bytes) }
        ensures over { IfOk result (λ event. self.new.stop ≡ stop_after self.old.stop event) }
        ensures lost { OnErr result (self.new.stop ≡ Some ReadStop.OutOfMemory) }
        ensures stays { is_some self.old.stop ≡ true
            → (result ≡ Ok LineEvent.Failed) × (self.new ≡ self.old) }
    {
        for _pieces in 0..u64::MAX {
            if let Some(event) = self.take_piece()? {
                return Ok(event);
            }
        }
        self.stop = Some(ReadStop::Failed);
        Ok(LineEvent::Failed)
    }

    /// The last line, without its line end.
    pub fn line(&self) -> &[u8]
        ensures value { result.now ≡ self.now.line }
    {
        self.line.as_slice()
    }

    // What the bytes up to the next line end come to, or those that are there; None if no line
    // ended.
    fn take_piece(&mut self) -> Result<Option<LineEvent>, OutOfMemory>
        ensures event { IfOk result
            (PieceGives self.old.bytes self.new.bytes self.new.line) }
        ensures over { IfOk result (λ event. IfSome event
            (λ e. self.new.stop ≡ stop_after self.old.stop e)) }
        ensures still { IfOk result (λ event. event ≡ None → self.new.stop ≡ self.old.stop) }
        ensures lost { OnErr result (self.new.stop ≡ Some ReadStop.OutOfMemory) }
        ensures stays { is_some self.old.stop ≡ true
            → (result ≡ Ok (Some LineEvent.Failed)) × (self.new ≡ self.old) }
    {
        if self.stop.is_some() {
            return Ok(Some(LineEvent::Failed));
        }
        match next_event(
            self.alloc,
            &mut self.reader,
            &mut self.cutter,
            &mut self.line,
        ) {
            Ok(event) => Ok(event),
            Err(stop) => {
                self.stop = Some(stop);
                event_of(stop)
            }
        }
    }
}

// What the next bytes of the reader come to, up to a line end if there is one; None if no line
// ended. The line is kept.
fn next_event<R: Read + Drop>(
    alloc: Global,
    reader: &mut BufReader<R>,
    cutter: &mut LineCutter,
    kept: &mut Vec<u8>,
) -> Result<Option<LineEvent>, ReadStop>
    requires { IsReading cutter.old }
    ensures event { IfOk result (PieceGives
        (prepend_known cutter.old.held (reader_remaining R.remaining reader.old))
        (prepend_known cutter.new.held (reader_remaining R.remaining reader.new)) kept.new.items) }
    ensures stop { IfErr result (PieceStops
        (prepend_known cutter.old.held (reader_remaining R.remaining reader.old))
        (prepend_known cutter.new.held (reader_remaining R.remaining reader.new))) }
    ensures goes_on { IfOk result (λ event. IfSome event (λ e. stop_after None e ≡ None)) }
    ensures keeps { OnOk result (IsReading cutter.new) }
{
    let piece = match reader.fill_buf() {
        Ok(piece) => piece,
        Err(error) if error.kind() == ErrorKind::Interrupted => return Ok(None),
        Err(_) => return Err(ReadStop::Failed),
    };
    if piece.is_empty() {
        let event = match keep_last(alloc, cutter, kept)? {
            LastLine::Kept => LineEvent::Line,
            LastLine::Missing => LineEvent::End,
        };
        return Ok(Some(event));
    }
    let Some(used) = cut(alloc, cutter, kept, piece)? else {
        let all = piece.len();
        reader.consume(all);
        return Ok(None);
    };
    reader.consume(used);
    Ok(Some(LineEvent::Line))
}

// What the reason to stop comes to.
fn event_of(stop: ReadStop) -> Result<Option<LineEvent>, OutOfMemory>
    ensures { result ≡ event_of stop }
{
    match stop {
        ReadStop::TooLong => Ok(Some(LineEvent::Long)),
        ReadStop::Failed => Ok(Some(LineEvent::Failed)),
        ReadStop::OutOfMemory => Err(OutOfMemory),
    }
}

// Cuts the piece up to its first line end, and keeps the line that ended there. Returns how many
// bytes that used, or None if no line ended in the piece.
fn cut(
    alloc: Global,
    cutter: &mut LineCutter,
    kept: &mut Vec<u8>,
    piece: &[u8],
) -> Result<Option<usize>, LineFault>
    ensures line { IfOk result (λ r. IfSome r (λ used. (used ≤ length piece.now)
        × (cutter.new.held ≡ [])
        × Lines (cutter.old.held ++ take used piece.now) (kept.new.items ∷ []) [])) }
    ensures none { IfOk result (λ r. r ≡ None
        → Lines (cutter.old.held ++ piece.now) [] cutter.new.held) }
    ensures short { IfOk result (λ r. IfSome r (λ used.
        IsReading cutter.old → length kept.new.items ≤ 65536)) }
    ensures keeps { IfOk result (λ r. IsReading cutter.old → IsReading cutter.new) }
    ensures long { IsErrOf result LineFault.TooLong
        → (cutter.new.held ≡ cutter.old.held) × ((cutter.old.failed ≡ true)
        ⊎ BeginsTooLong cutter.old.limit (cutter.old.held ++ piece.now)) }
{
    let (used, line) = cutter.step(piece)?;
    let Some(line) = line else {
        return Ok(None);
    };
    *kept = Vec::from_slice(alloc, line)?;
    Ok(Some(used))
}

// What became of the unfinished line at the end of the bytes.
#[derive(Clone, Copy, PartialEq, Eq)]
enum LastLine {
    Kept,
    // there was none
    Missing,
}

// Keeps the unfinished line at the end of the bytes, if there is one.
fn keep_last(
    alloc: Global,
    cutter: &mut LineCutter,
    kept: &mut Vec<u8>,
) -> Result<LastLine, LineFault>
    ensures line { IfOk result (λ last. last ≡ LastLine.Kept
        → (kept.new.items ≡ cutter.old.held) × (0 < length cutter.old.held)) }
    ensures none { IfOk result (λ last. last ≡ LastLine.Missing → cutter.old.held ≡ []) }
    ensures empty { IfOk result (λ last. cutter.new.held ≡ []) }
    ensures keeps { IfOk result (λ last. IsReading cutter.old → IsReading cutter.new) }
    ensures long { IsErrOf result LineFault.TooLong → cutter.old.failed ≡ true }
{
    let Some(line) = cutter.finish()? else {
        return Ok(LastLine::Missing);
    };
    *kept = Vec::from_slice(alloc, line)?;
    Ok(LastLine::Kept)
}
