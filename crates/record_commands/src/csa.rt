//! The canonical text of a USI position line.

ghost use Rattle.std.specs.Prelude.{◌≡◌, ◌≢◌, ◌⊎◌, None, IfErr, IfOk, IsErrOf, OnOk};
ghost use Rattle.record_commands.specs.Inputs.{IsOpenedAs, NamesFile, path_of};
ghost use Rattle.record_commands.specs.OneLine.{BreaksOff, FailsToConvert, HasLongLine, HasNoLine, HasTwoLines, IsOneLine};
ghost use Rattle.record_commands.specs.Printing.{Converts};
ghost use Rattle.record_commands.specs.declared.fault.PositionLineFault.{PositionLineFault};
ghost use Rattle.usi_text.specs.declared.fault.UsiFault.{UsiFault};

use crate::fault::PositionLineFault;
use crate::incoming::{Incoming, LineEvent};
use crate::inputs::{self, Inputs, RuntimeInputs};
use crate::streams;
use csa_record::Record;
use hash_comments::{HashComments, HashLines};
use std::alloc::Global;
use std::io;
use std::io::{Read, Write};
use std::rt::Files;
use usi_text::UsiFault;

/// Prints the canonical CSA V2.2 text of the game of the one USI position line in the file. If no
/// file is named, or the name is `-`, standard input is read.
///
/// Refuses:
///
/// - `TooLong` as soon as a line has more than 65,536 bytes;
/// - `Refused` with `U5 BadLine` if there is no line, or a second one that is not empty;
/// - `Refused` if the line is refused;
/// - `Read` if it cannot be read;
/// - `OutOfMemory`;
/// - `Write` if the record cannot be written to standard output.
pub fn run<R: Files + Input + Print + AllocGlobal>(
    rt: &R,
    file: Option<&str>,
) -> Result<(), PositionLineFault>
    ensures refused { (fault : UsiFault)
        → IsErrOf result (PositionLineFault.Refused fault) → fault ≢ UsiFault.OutOfMemory }
    ensures fails { IfErr result (FailsToConvert
        (NamesFile (path_of file.entry)) (IsOpenedAs (path_of file.entry) HashLines.Refused)
        ⟦<HashComments<inputs::Input<Box<R::Reader>, R::File>> as io::Read>⟧.remaining) }
{
    csa(
        rt.alloc(),
        &RuntimeInputs::new(rt, HashLines::Refused),
        file,
        &mut io::writer(rt),
    )
}

// Prints that text of the one line of the file, or of standard input.
fn csa<I: Inputs, W: Write>(
    alloc: Global,
    inputs: &I,
    file: Option<&str>,
    out: &mut W,
) -> Result<(), PositionLineFault>
    ensures accepted { OnOk result
        (Converts (I.opens inputs.now (path_of file.entry)) I.Input.Read.remaining
        (W.contents out.old) (W.contents out.new)) }
    ensures fails { IfErr result (FailsToConvert (I.opens_not inputs.now (path_of file.entry))
        (I.opens inputs.now (path_of file.entry)) I.Input.Read.remaining) }
    ensures unwritten { IfErr result
        (λ fault. fault ≢ PositionLineFault.Write → out.new ≡ out.old) }
{
    let mut lines = Incoming::new(alloc, inputs.open(file)?)?;
    let text = one_line(alloc, &mut lines)?;
    let line = usi_text::read_position_line(alloc, text.as_slice())?;
    let Ok(record) = Record::from_line(alloc, line) else {
        return Err(PositionLineFault::OutOfMemory);
    };
    let text = csa_record::write(alloc, &record)?;
    streams::write_all(out, text.as_slice())?;
    Ok(())
}

// The only line of the reader. Refuses `Read` only if the reading broke off.
fn one_line<R: Read + Drop>(
    alloc: Global,
    lines: &mut Incoming<R>,
) -> Result<Vec<u8>, PositionLineFault>
    ensures line { IfOk result (λ text. IsOneLine lines.old.bytes text.items) }
    ensures bad { IsErrOf result (PositionLineFault.Refused UsiFault.BadLine)
        → HasNoLine lines.old.bytes ⊎ HasTwoLines lines.old.bytes }
    ensures long { IsErrOf result PositionLineFault.TooLong → HasLongLine lines.old.bytes }
    ensures read { lines.old.stop ≡ None → IsErrOf result PositionLineFault.Read
        → BreaksOff lines.old.bytes lines.new }
    ensures refused { (fault : UsiFault)
        → IsErrOf result (PositionLineFault.Refused fault) → fault ≡ UsiFault.BadLine }
    ensures unwritten { IsErrOf result PositionLineFault.Write → ⊥ }
{
    match lines.read_line()? {
        LineEvent::Line => {}
        LineEvent::End => return Err(PositionLineFault::Refused(UsiFault::BadLine)),
        LineEvent::Long => return Err(PositionLineFault::TooLong),
        LineEvent::Failed => return Err(PositionLineFault::Read),
    }
    let line = Vec::from_slice(alloc, lines.line())?;
    match lines.read_line()? {
        LineEvent::End => Ok(line),
        LineEvent::Line => Err(PositionLineFault::Refused(UsiFault::BadLine)),
        LineEvent::Long => Err(PositionLineFault::TooLong),
        LineEvent::Failed => Err(PositionLineFault::Read),
    }
}
