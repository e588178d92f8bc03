ghost use Rattle.std.specs.Prelude.{◌≡◌, ◌≢◌, true, ℕ, ◌+◌, ◌-◌, ◌^◌, ◌<◌, ◌≤◌, List, [], IfOk, IfErr, OnOk, OnErr, IsErrOf, MatchResult};
ghost use Rattle.std.specs.Io.KnownBytes.{Keeps};
ghost use Rattle.csa_record.specs.declared.flow.FlowFault.{FlowFault};
ghost use Rattle.csa_record.specs.Flow.{longest_piece, fault_of, GaveGame, IsRefusal, IsFaultless, FailsRead, IsReadFault, ReadsRecord, IsNormal, IsCutShort, IsDigest, IsOutOfMemory};
ghost use Rattle.csa_record.specs.FlowSteps.{FeedsNext, IsFedAll, IsTextFault, TellsText, IsFlowFault};
ghost use Rattle.csa_record.specs.RecordReading.{HasRead, fed_of};

use crate::record::Record;
use crate::record_reader::RecordReader;
use crate::sink::{Sink, send};
use crate::source::Source;
use crate::writer::write;
use record_game::{Refusal, Why};
use sha2::{Digest, Sha256};
use std::alloc::Global;
use thiserror::Error;

/// The most reads of one source. Its end must have been reached by then.
pub const MOST_READS: u32 = 16_777_216;

/// The most bytes of one read.
pub const PIECE: usize = 4096;

// What a reader was fed.
#[derive(Clone, Copy)]
enum Fed {
    // The next piece of the source.
    Piece,
    // Nothing: the source is at its end.
    End,
}

/// Why a record did not get from its source to its sink.
#[derive(Clone, Copy, Debug, PartialEq, Eq, Error)]
pub enum FlowFault {
    /// The record is refused.
    #[error("{0}")]
    Refused(Refusal),
    /// The source failed, or its end was not reached in time.
    #[error("read fault")]
    ReadFault,
    /// The sink failed.
    #[error("write fault")]
    WriteFault,
    /// An allocation failed.
    #[error("out of memory")]
    OutOfMemory,
}

impl From<Refusal> for FlowFault {
    ghost from_gives = { λ refusal fault. fault ≡ fault_of refusal };

    fn from(refusal: Refusal) -> FlowFault {
        match refusal.why {
            Why::OutOfMemory => FlowFault::OutOfMemory,
            _ => FlowFault::Refused(refusal),
        }
    }
}

/// Reads the CSA record that a source gives, up to its end or to the first piece that shows a
/// fault.
///
/// The source is read at most 16,777,216 times, for up to 4,096 bytes each time. Returns `Refused`
/// if the record is refused, `ReadFault` if a read fails or the end has not been reached by then,
/// and `OutOfMemory` if an allocation fails, whichever happens first. Only to be called if the
/// source has failed fewer than 2^64 - 1 times so far.
pub fn read_from<S: Source>(alloc: Global, source: &mut S) -> Result<Record, FlowFault>
    requires countable { S.failed source.old < 2 ^ 64 - 1 }
    // The bytes that the source gave up to its end contain the game.
    ensures stated { IfOk result (λ g. GaveGame (S.known source.old) (S.known source.new) g) }
    // A game is returned only after a read has shown the end, in this call or before.
    ensures ended { IfOk result (λ _. S.ended source.new ≡ true) }
    // A record is refused only if the source's bytes are, whatever follows them.
    ensures refused { (r : Refusal) → IsErrOf result (FlowFault.Refused r)
        → IsRefusal (S.known source.old) (S.known source.new) (S.ended source.new) r }
    ensures read_fault { IsErrOf result FlowFault.ReadFault
        → FailsRead (S.known source.old) (S.known source.new)
        (S.failed source.old) (S.failed source.new) }
    // Reaching the end is not a read fault.
    ensures unended { IsErrOf result FlowFault.ReadFault → S.ended source.new ≡ S.ended source.old }
    ensures quiet { (IsErrOf result FlowFault.ReadFault → ⊥)
        → S.failed source.new ≡ S.failed source.old }
    ensures memory { IsErrOf result FlowFault.OutOfMemory
        → IsFaultless (S.known source.old) (S.known source.new) (S.ended source.new) }
    ensures no_write { IsErrOf result FlowFault.WriteFault → ⊥ }
{
    read_record(alloc, source)
}

/// Writes the canonical text of the record that a source gives to a sink, and flushes the sink.
///
/// The whole record is read and accepted before anything is written. Refuses as `read_from` does;
/// then `OutOfMemory` if there is no memory for the text; then `WriteFault` if the sink fails. Only
/// to be called if the source and the sink have each failed fewer than 2^64 - 1 times so far.
pub fn normalise<S: Source, T: Sink>(
    alloc: Global,
    source: &mut S,
    sink: &mut T,
) -> Result<(), FlowFault>
    requires source { S.failed source.old < 2 ^ 64 - 1 }
    requires sink { T.failed sink.old < 2 ^ 64 - 1 }
    // The sink took the canonical text of the game in the source's bytes, and nothing else.
    ensures accepted { OnOk result
        (IsNormal (S.known source.old) (S.known source.new) (T.held sink.old) (T.held sink.new)) }
    // The text is written only after a read has shown the end, in this call or before.
    ensures ended { OnOk result (S.ended source.new ≡ true) }
    ensures refused { (r : Refusal) → IsErrOf result (FlowFault.Refused r)
        → IsRefusal (S.known source.old) (S.known source.new) (S.ended source.new) r }
    ensures read_fault { IsErrOf result FlowFault.ReadFault
        → FailsRead (S.known source.old) (S.known source.new)
        (S.failed source.old) (S.failed source.new) }
    // Reaching the end is not a read fault.
    ensures unended { IsErrOf result FlowFault.ReadFault → S.ended source.new ≡ S.ended source.old }
    ensures quiet { (IsErrOf result FlowFault.ReadFault → ⊥)
        → S.failed source.new ≡ S.failed source.old }
    // The sink has passed on all that it took.
    ensures settled { OnOk result (T.settled sink.new ≡ true) }
    // A write fails only if there is a game, and what was written is the front of its text.
    ensures cut_short { IsErrOf result FlowFault.WriteFault
        → IsCutShort (S.known source.old) (S.known source.new) (T.held sink.old) (T.held sink.new)
        × (S.ended source.new ≡ true) }
    ensures write_fault { IsErrOf result FlowFault.WriteFault
        → T.failed sink.new ≡ T.failed sink.old + 1 }
    ensures sink_quiet { (IsErrOf result FlowFault.WriteFault → ⊥)
        → T.failed sink.new ≡ T.failed sink.old }
    ensures memory { IsErrOf result FlowFault.OutOfMemory
        → IsOutOfMemory (S.known source.old) (S.known source.new) (S.ended source.new) }
    ensures unwritten { IfErr result
        (λ fault. fault ≢ FlowFault.WriteFault → Keeps (T.held sink.old) (T.held sink.new)) }
{
    pass(alloc, source, sink)
}

/// Returns the SHA-256 of the canonical text of the record that a source gives.
///
/// Refuses as `read_from` does, and then `OutOfMemory` if there is no memory for the text. Only to
/// be called if the source has failed fewer than 2^64 - 1 times so far.
pub fn digest<S: Source>(alloc: Global, source: &mut S) -> Result<[u8; 32], FlowFault>
    requires countable { S.failed source.old < 2 ^ 64 - 1 }
    // The bytes that the source gave up to its end contain a game, and this is its digest.
    ensures stated { IfOk result (IsDigest (S.known source.old) (S.known source.new)) }
    ensures ended { IfOk result (λ _. S.ended source.new ≡ true) }
    ensures refused { (r : Refusal) → IsErrOf result (FlowFault.Refused r)
        → IsRefusal (S.known source.old) (S.known source.new) (S.ended source.new) r }
    ensures read_fault { IsErrOf result FlowFault.ReadFault
        → FailsRead (S.known source.old) (S.known source.new)
        (S.failed source.old) (S.failed source.new) }
    // Reaching the end is not a read fault.
    ensures unended { IsErrOf result FlowFault.ReadFault → S.ended source.new ≡ S.ended source.old }
    ensures quiet { (IsErrOf result FlowFault.ReadFault → ⊥)
        → S.failed source.new ≡ S.failed source.old }
    ensures memory { IsErrOf result FlowFault.OutOfMemory
        → IsOutOfMemory (S.known source.old) (S.known source.new) (S.ended source.new) }
    ensures no_write { IsErrOf result FlowFault.WriteFault → ⊥ }
{
    let canonical = read_text(alloc, source)?;
    Ok(Sha256::digest(canonical.as_slice()))
}

fn pass<S: Source, T: Sink>(alloc: Global, source: &mut S, sink: &mut T) -> Result<(), FlowFault>
    requires source { S.failed source.old < 2 ^ 64 - 1 }
    requires sink { T.failed sink.old < 2 ^ 64 - 1 }
    ensures ok { OnOk result
        (IsNormal (S.known source.old) (S.known source.new) (T.held sink.old) (T.held sink.new)) }
    ensures ended { OnOk result (S.ended source.new ≡ true) }
    ensures quiet { OnOk result (S.failed source.new ≡ S.failed source.old) }
    ensures sink_quiet { OnOk result (T.failed sink.new ≡ T.failed sink.old) }
    ensures settled { OnOk result (T.settled sink.new ≡ true) }
    ensures fault { IfErr result
        (IsFlowFault (S.known source.old) (S.known source.new) (S.ended source.new)
        (T.held sink.old) (T.held sink.new)
        (S.failed source.old) (S.failed source.new) (T.failed sink.old) (T.failed sink.new)) }
    ensures unended { IsErrOf result FlowFault.ReadFault → S.ended source.new ≡ S.ended source.old }
{
    let text = read_text(alloc, source)?;
    match send(sink, text.as_slice()) {
        Ok(()) => Ok(()),
        Err(_) => Err(FlowFault::WriteFault),
    }
}

// The canonical text of the record that the source gives.
fn read_text<S: Source>(alloc: Global, source: &mut S) -> Result<Vec<u8>, FlowFault>
    requires { S.failed source.old < 2 ^ 64 - 1 }
    ensures text { IfOk result
        (λ text. TellsText (S.known source.old) (S.known source.new) (S.ended source.new)
        (S.failed source.old) (S.failed source.new) text.items) }
    ensures fault { IfErr result
        (IsTextFault (S.known source.old) (S.known source.new) (S.ended source.new)
        (S.failed source.old) (S.failed source.new)) }
    ensures unended { IsErrOf result FlowFault.ReadFault → S.ended source.new ≡ S.ended source.old }
{
    let record = read_record(alloc, source)?;
    match write(alloc, &record) {
        Ok(text) => Ok(text),
        Err(_) => Err(FlowFault::OutOfMemory),
    }
}

fn read_record<S: Source>(alloc: Global, source: &mut S) -> Result<Record, FlowFault>
    requires { S.failed source.old < 2 ^ 64 - 1 }
    ensures read { ReadsRecord (S.known source.old) (S.known source.new) (S.ended source.new)
        (S.failed source.old) (S.failed source.new) result }
    ensures unended { IsErrOf result FlowFault.ReadFault → S.ended source.new ≡ S.ended source.old }
{
    let mut reader = RecordReader::new(alloc);
    let mut buffer = [0u8; PIECE];
    feed_all(source, &mut reader, &mut buffer)?;
    match reader.finish() {
        Ok(record) => Ok(record),
        Err(refusal) => Err(FlowFault::from(refusal)),
    }
}

// Feeds a new reader all that the source gives up to its end, through the buffer.
pub(crate) fn feed_all<S: Source>(
    source: &mut S,
    reader: &mut RecordReader,
    buffer: &mut [u8; PIECE],
) -> Result<(), FlowFault>
    requires failed { S.failed source.old < 2 ^ 64 - 1 }
    requires fresh { HasRead [] reader.old }
    ensures fed { OnOk result
        (IsFedAll (S.known source.old) (S.known source.new) (S.ended source.new)
        (S.failed source.old) (S.failed source.new) reader.new) }
    ensures fault { IfErr result
        (IsReadFault (S.known source.old) (S.known source.new) (S.ended source.new)
        (S.failed source.old) (S.failed source.new)) }
    ensures unended { IfErr result (λ _. S.ended source.new ≡ S.ended source.old) }
{
    let mut reads = 0;
    while reads < MOST_READS {
        match feed_next(source, reader, buffer)? {
            Fed::Piece => reads += 1,
            Fed::End => return Ok(()),
        }
    }
    Err(FlowFault::ReadFault)
}

// Feeds the reader the next piece that the source gives into the buffer.
fn feed_next<S: Source>(
    source: &mut S,
    reader: &mut RecordReader,
    buffer: &mut [u8; PIECE],
) -> Result<Fed, FlowFault>
    requires failed { S.failed source.old < 2 ^ 64 - 1 }
    requires room { fed_of reader.old + longest_piece ≤ 2 ^ 63 }
    ensures fed { (bytes : List ℕ) → HasRead bytes reader.old
        → FeedsNext bytes (S.known source.old) (S.known source.new) (S.ended source.new)
        (S.failed source.old) (S.failed source.new) result reader.new }
    ensures unended { MatchResult result
        (λ fed. fed ≡ Fed.Piece → S.ended source.new ≡ S.ended source.old)
        (λ _. S.ended source.new ≡ S.ended source.old) }
{
    let Ok(taken) = source.read(buffer) else {
        return Err(FlowFault::ReadFault);
    };
    if taken == 0 {
        return Ok(Fed::End);
    }
    match reader.feed(&buffer[..taken]) {
        Ok(()) => Ok(Fed::Piece),
        Err(refusal) => Err(FlowFault::from(refusal)),
    }
}
