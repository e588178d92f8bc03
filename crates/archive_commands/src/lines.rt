//! The lines about a file: that of an accepted record, and those of one that is not.

ghost use Rattle.std.specs.Prelude.{◌≡◌, ◌≢◌, ℕ, List, Ok, IfErr, IfOk, Some, string_bytes};
ghost use Rattle.record_game.specs.Canon.{canon};
ghost use Rattle.record_game.specs.Game.{Game};
ghost use Rattle.sha2.specs.Sha256.{sha256};
ghost use Rattle.csa_record.specs.declared.flow.FlowFault.{FlowFault};
ghost use Rattle.archive_commands.specs.Lines.{AreRefusedLines, AreUnreadableLines, HasLine, IsLine, IsLineOf, IsRefusedLine, digits_line, said_of, unreadable_line};
ghost use Rattle.record_commands.specs.Reports.{FailsToReport, GetsRecord};
ghost use Rattle.record_commands.specs.Words.{IsCanonical};

use crate::notices::Notices;
use csa_record::{FlowFault, Reading, Record, Refusal, SourceReader};
use record_commands::{Inputs, check, streams};
use shogi_board::OutOfMemory;
use shogi_words::PathEnd;
use std::alloc::{AllocError, Global};

// The room that a line has from the start, in bytes. Most lines are shorter, and so never grow.
const USUAL_LENGTH: usize = 128;

/// What the line of an accepted record says.
#[derive(Clone, Copy)]
pub enum LineKind {
    /// `FILE: accepted N V`, as `check` prints it.
    Checks,
    /// The SHA-256 of its canonical text, two blanks, and FILE, as `sha256sum` prints it.
    Digests,
}

/// What the line of an accepted record says, and how the file's path ends there.
#[derive(Clone, Copy)]
pub struct LineForm {
    /// What it says.
    pub kind: LineKind,
    /// How the path ends.
    pub path_end: PathEnd,
}

/// The line of the record in the file. With `Checks` the record is read through the buffers of the
/// reader.
///
/// Refuses `Refused` if the record is refused, `ReadFault` if it cannot be read, and `OutOfMemory`.
pub fn line_of<I: Inputs>(
    alloc: Global,
    reader: &mut SourceReader,
    inputs: &I,
    form: LineForm,
    file: &str,
) -> Result<String, FlowFault>
    ensures line { IfOk result (λ text. HasLine (I.opens_not inputs.now (Some file.now))
        (I.opens inputs.now (Some file.now)) I.Input.Read.remaining
        (IsLineOf form file.now) (string_bytes text)) }
    ensures fails { IfErr result (FailsToReport
        (GetsRecord (I.opens_not inputs.now (Some file.now)) (I.opens inputs.now (Some file.now))
        I.Input.Read.remaining) (IsLineOf form file.now)) }
    ensures no_write { IfErr result (λ fault. fault ≢ FlowFault.WriteFault) }
{
    match form.kind {
        LineKind::Checks => checked_line(alloc, reader, inputs, form.path_end, file),
        LineKind::Digests => digest_line(alloc, inputs, form.path_end, file),
    }
}

// The line of `check`.
fn checked_line<I: Inputs>(
    alloc: Global,
    reader: &mut SourceReader,
    inputs: &I,
    end: PathEnd,
    file: &str,
) -> Result<String, FlowFault>
    ensures line { IfOk result (λ text. HasLine (I.opens_not inputs.now (Some file.now))
        (I.opens inputs.now (Some file.now)) I.Input.Read.remaining
        (IsLine LineKind.Checks end file.now) (string_bytes text)) }
    ensures fails { IfErr result (FailsToReport
        (GetsRecord (I.opens_not inputs.now (Some file.now)) (I.opens inputs.now (Some file.now))
        I.Input.Read.remaining) (IsLine LineKind.Checks end file.now)) }
    ensures no_write { IfErr result (λ fault. fault ≢ FlowFault.WriteFault) }
{
    let record = streams::next_record(reader, inputs, Some(file))?;
    match accepted_line(alloc, end, file, &record) {
        Ok(line) => Ok(line),
        Err(_) => Err(FlowFault::OutOfMemory),
    }
}

fn accepted_line(
    alloc: Global,
    end: PathEnd,
    file: &str,
    game: &Record,
) -> Result<String, OutOfMemory>
    ensures { IfOk result
        (λ text. IsLine LineKind.Checks end file.now game.now (string_bytes text)) }
{
    let accepted = check::accepted(alloc, game)?;
    Ok(said_of(alloc, end, file, &accepted)?)
}

// What is said of a file, after its path.
fn said_of(alloc: Global, end: PathEnd, file: &str, said: &str) -> Result<String, AllocError>
    ensures { IfOk result (λ text. string_bytes text ≡ said_of end file.now said.now) }
{
    let mut line = String::with_capacity(alloc, USUAL_LENGTH)?;
    line.push_str(file)?;
    match end {
        PathEnd::Line => line.push_str(": ")?,
        PathEnd::Nul => line.push_str("\0")?,
    }
    line.push_str(said)?;
    Ok(line)
}

// The line of `digest`.
fn digest_line<I: Inputs>(
    alloc: Global,
    inputs: &I,
    end: PathEnd,
    file: &str,
) -> Result<String, FlowFault>
    ensures line { IfOk result (λ text. HasLine (I.opens_not inputs.now (Some file.now))
        (I.opens inputs.now (Some file.now)) I.Input.Read.remaining
        (IsLine LineKind.Digests end file.now) (string_bytes text)) }
    ensures fails { IfErr result (FailsToReport
        (GetsRecord (I.opens_not inputs.now (Some file.now)) (I.opens inputs.now (Some file.now))
        I.Input.Read.remaining) (IsLine LineKind.Digests end file.now)) }
    ensures no_write { IfErr result (λ fault. fault ≢ FlowFault.WriteFault) }
{
    let digest = digest(alloc, inputs, file)?;
    match digits_line(alloc, end, file, &digest) {
        Ok(line) => Ok(line),
        Err(_) => Err(FlowFault::OutOfMemory),
    }
}

// The SHA-256 of the canonical text of the record in the file.
fn digest<I: Inputs>(alloc: Global, inputs: &I, file: &str) -> Result<[u8; 32], FlowFault>
    ensures digest { IfOk result (λ digest. (game : Game)
        × GetsRecord (I.opens_not inputs.now (Some file.now)) (I.opens inputs.now (Some file.now))
        I.Input.Read.remaining (Ok game) × (digest ≡ sha256 (canon game))) }
    ensures fails { IfErr result (FailsToReport
        (GetsRecord (I.opens_not inputs.now (Some file.now)) (I.opens inputs.now (Some file.now))
        I.Input.Read.remaining) IsCanonical) }
    ensures no_write { IfErr result (λ fault. fault ≢ FlowFault.WriteFault) }
{
    let input = inputs.open(Some(file))?;
    csa_record::digest(alloc, &mut Reading::new(input))
}

fn digits_line(
    alloc: Global,
    end: PathEnd,
    file: &str,
    digest: &[u8; 32],
) -> Result<String, OutOfMemory>
    ensures { IfOk result (λ text. string_bytes text ≡ digits_line end file.now digest.now) }
{
    let digits = hex::encode(alloc, digest.as_slice())?;
    match end {
        PathEnd::Line => Ok(format!(in alloc; "{digits}  {file}\n")?),
        PathEnd::Nul => Ok(format!(in alloc; "{digits}  {file}\0")?),
    }
}

/// The line of a record that is refused, with LF.
pub fn refused_line(alloc: Global, file: &str, refusal: &Refusal) -> Result<String, OutOfMemory>
    ensures { IfOk result (λ text. IsRefusedLine file.now (string_bytes text)) }
{
    let words = format!(in alloc; "{refusal}")?;
    Ok(format!(in alloc; "{file}: refused: {words}\n")?)
}

/// The line of a file that cannot be read, with LF.
pub fn unreadable_line(alloc: Global, file: &str) -> Result<String, OutOfMemory>
    ensures { IfOk result (λ text. string_bytes text ≡ unreadable_line file.now) }
{
    Ok(format!(in alloc; "{file}: read fault\n")?)
}

/// The lines about a file whose record is refused: its line, and then the one that explains it, if
/// there is one.
pub fn refused_lines<E: Notices>(
    alloc: Global,
    file: &str,
    refusal: &Refusal,
    notices: &E,
) -> Result<String, OutOfMemory>
    ensures { IfOk result (λ text. AreRefusedLines file.now (string_bytes text)) }
{
    let mut lines = refused_line(alloc, file, refusal)?;
    let explanation = notices.refusal_explained(file, refusal)?;
    lines.push_str(&explanation)?;
    Ok(lines)
}

/// The lines about a file that cannot be read: its line, and then the one with the reason, if there
/// is one.
pub fn unreadable_lines<E: Notices>(
    alloc: Global,
    file: &str,
    notices: &E,
) -> Result<String, OutOfMemory>
    ensures { IfOk result (λ text. AreUnreadableLines file.now (string_bytes text)) }
{
    let mut lines = unreadable_line(alloc, file)?;
    let explanation = notices.read_fault_explained(file)?;
    lines.push_str(&explanation)?;
    Ok(lines)
}

/// The lines about a file whose path is not UTF-8, each with LF. Bytes that are not printable ASCII
/// are escaped in them.
pub fn not_text_lines<E: Notices>(
    alloc: Global,
    path: &[u8],
    notices: &E,
) -> Result<String, OutOfMemory>
    ensures { IfOk result
        (λ text. (name : List ℕ) × AreUnreadableLines name (string_bytes text)) }
{
    let name = format!(in alloc; "{}", path.escape_ascii())?;
    let mut lines = unreadable_line(alloc, &name)?;
    let explanation = notices.name_explained(&name)?;
    lines.push_str(&explanation)?;
    Ok(lines)
}
