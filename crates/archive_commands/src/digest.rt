//! The SHA-256 of the canonical text of a record.

ghost use Rattle.std.specs.Prelude.{◌≡◌, ◌≢◌, ℕ, List, IfErr, IsErrOf, OnOk, Some};
ghost use Rattle.csa_record.specs.declared.flow.FlowFault.{FlowFault};
ghost use Rattle.archive_commands.specs.Lines.{IsLine};
ghost use Rattle.record_commands.specs.Reports.{FailsToReport, GetsRecord};
ghost use Rattle.record_commands.specs.Printing.{Reports};
ghost use Rattle.record_game.specs.Refused.{Refused};

use crate::lines::{self, LineForm, LineKind};
use csa_record::{FlowFault, Refusal, SourceReader};
use hash_comments::HashLines;
use record_commands::{Inputs, RuntimeInputs, streams};
use shogi_words::PathEnd;
use std::alloc::Global;
use std::io;
use std::io::Write;
use std::rt::Files;

/// Prints the SHA-256 of the canonical text of the CSA V2.2 record in the file, two blanks, and
/// the file's name, as `sha256sum` does. If no file is named, or the name is `-`, standard input
/// is read, and its name is `-`. `hash_lines` says how lines that begin with `#` are read.
///
/// Refuses `Refused` if the record is refused, `ReadFault` if it cannot be read, `OutOfMemory`, and
/// `WriteFault` if the line cannot be written to standard output.
pub fn run<R: Files + Input + Print + AllocGlobal>(
    rt: &R,
    file: Option<&str>,
    hash_lines: HashLines,
) -> Result<(), FlowFault>
    ensures refused { (r : Refusal) → IsErrOf result (FlowFault.Refused r)
        → (bytes : List ℕ) × Refused bytes r.number r.offset r.why }
{
    digest(
        rt.alloc(),
        &RuntimeInputs::new(rt, hash_lines),
        file.unwrap_or("-"),
        &mut io::writer(rt),
    )
}

// Prints that line of the file.
fn digest<I: Inputs, W: Write>(
    alloc: Global,
    inputs: &I,
    file: &str,
    out: &mut W,
) -> Result<(), FlowFault>
    ensures accepted { OnOk result
        (Reports
        (GetsRecord (I.opens_not inputs.now (Some file.now)) (I.opens inputs.now (Some file.now))
        I.Input.Read.remaining) (IsLine LineKind.Digests PathEnd.Line file.now)
        (W.contents out.old) (W.contents out.new)) }
    ensures fails { IfErr result
        (FailsToReport
        (GetsRecord (I.opens_not inputs.now (Some file.now)) (I.opens inputs.now (Some file.now))
        I.Input.Read.remaining) (IsLine LineKind.Digests PathEnd.Line file.now)) }
    ensures unwritten { IfErr result (λ fault. fault ≢ FlowFault.WriteFault → out.new ≡ out.old) }
{
    let mut reader = SourceReader::new(alloc);
    let form = LineForm {
        kind: LineKind::Digests,
        path_end: PathEnd::Line,
    };
    let line = lines::line_of(alloc, &mut reader, inputs, form, file)?;
    streams::write_all(out, line.as_bytes())?;
    Ok(())
}
