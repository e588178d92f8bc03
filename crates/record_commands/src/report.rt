//! Prints a text about the record that a command line names.

ghost use Rattle.std.specs.Prelude.{◌≡◌, ◌≢◌, ◌-◌, ◌^◌, ◌<◌, ℕ, List, IfErr, IfOk, IsErrOf, OnOk};
ghost use Rattle.csa_record.specs.Flow.{ReadsRecord};
ghost use Rattle.csa_record.specs.declared.flow.FlowFault.{FlowFault};
ghost use Rattle.record_commands.specs.Inputs.{IsOpenedAs, NamesFile, path_of};
ghost use Rattle.record_commands.specs.Reports.{FailsToReport, GetsRecord};
ghost use Rattle.record_commands.specs.Printing.{Reports, Fits};
ghost use Rattle.record_game.specs.Refused.{Refused};

use crate::inputs::{self, Inputs, RuntimeInputs};
use crate::{check, streams, usi};
use csa_record::{FlowFault, Reading, Record, Refusal, Source, read_from};
use hash_comments::{HashComments, HashLines};
use shogi_board::OutOfMemory;
use std::alloc::Global;
use std::io;
use std::io::Write;
use std::rt::Files;

// A text about a record.
#[derive(Clone, Copy)]
pub enum RecordText {
    // `accepted N V`: its number of moves, and the word for the state of the game after them.
    Accepted,
    // The position line of its start and moves.
    PositionLine,
}

impl RecordText {
    // That text about the game, with LF.
    fn of(self, alloc: Global, game: &Record) -> Result<Vec<u8>, OutOfMemory>
        ensures fits { IfOk result (λ text. Fits self game.now text.items) }
    {
        match self {
            RecordText::Accepted => Ok(check::accepted(alloc, game)?.into_bytes()),
            RecordText::PositionLine => usi::position_text(alloc, game),
        }
    }
}

// Prints that text about the record of the file, or of standard input.
pub fn run<R: Files + Input + Print + AllocGlobal>(
    rt: &R,
    text: RecordText,
    file: Option<&str>,
    hash_lines: HashLines,
) -> Result<(), FlowFault>
    ensures refused { (r : Refusal) → IsErrOf result (FlowFault.Refused r)
        → (bytes : List ℕ) × Refused bytes r.number r.offset r.why }
    ensures fails { IfErr result (FailsToReport
        (GetsRecord (NamesFile (path_of file.entry)) (IsOpenedAs (path_of file.entry) hash_lines)
        ⟦<HashComments<inputs::Input<Box<R::Reader>, R::File>> as io::Read>⟧.remaining)
        (Fits text)) }
{
    report(
        rt.alloc(),
        text,
        &RuntimeInputs::new(rt, hash_lines),
        file,
        &mut io::writer(rt),
    )
}

// Prints that text to a writer.
fn report<I: Inputs, W: Write>(
    alloc: Global,
    text: RecordText,
    inputs: &I,
    file: Option<&str>,
    out: &mut W,
) -> Result<(), FlowFault>
    ensures accepted { OnOk result
        (Reports (GetsRecord (I.opens_not inputs.now (path_of file.entry))
        (I.opens inputs.now (path_of file.entry)) I.Input.Read.remaining)
        (Fits text) (W.contents out.old) (W.contents out.new)) }
    ensures fails { IfErr result (FailsToReport
        (GetsRecord (I.opens_not inputs.now (path_of file.entry))
        (I.opens inputs.now (path_of file.entry)) I.Input.Read.remaining)
        (Fits text)) }
    ensures unwritten { IfErr result (λ fault. fault ≢ FlowFault.WriteFault → out.new ≡ out.old) }
{
    let mut source = Reading::new(inputs.open(file)?);
    report_source(alloc, text, &mut source, out)
}

// Prints that text about the record that the source gives.
fn report_source<S: Source, W: Write>(
    alloc: Global,
    text: RecordText,
    source: &mut S,
    out: &mut W,
) -> Result<(), FlowFault>
    requires { S.failed source.old < 2 ^ 64 - 1 }
    ensures accepted { OnOk result (Reports (ReadsRecord
        (S.known source.old) (S.known source.new) (S.ended source.new)
        (S.failed source.old) (S.failed source.new))
        (Fits text) (W.contents out.old) (W.contents out.new)) }
    ensures fails { IfErr result (FailsToReport (ReadsRecord
        (S.known source.old) (S.known source.new) (S.ended source.new)
        (S.failed source.old) (S.failed source.new))
        (Fits text)) }
    ensures unwritten { IfErr result (λ fault. fault ≢ FlowFault.WriteFault → out.new ≡ out.old) }
{
    let record = read_from(alloc, source)?;
    let Ok(bytes) = text.of(alloc, &record) else {
        return Err(FlowFault::OutOfMemory);
    };
    streams::write_all(out, bytes.as_slice())?;
    Ok(())
}
