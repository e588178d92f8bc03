//! Many files, one after another: a line for each, and how many of them are accepted.

ghost use Rattle.std.specs.Prelude.{◌≡◌, ℕ, ◌+◌, ◌-◌, ◌^◌, ◌<◌, List, length, IfErr, IfOk, OnErr, OnOk, Some};
ghost use Rattle.std.specs.Io.KnownBytes.{Appends};
ghost use Rattle.csa_record.specs.declared.flow.FlowFault.{FlowFault};
ghost use Rattle.archive_commands.specs.Lines.{AreUnreadableLines};
ghost use Rattle.archive_commands.specs.Lists.{items_of};
ghost use Rattle.archive_commands.specs.Many.{counted, tally_line};
ghost use Rattle.archive_commands.specs.ManyPrinted.{StopsAmong, PrintsAll, PrintsFile, printed_of, StopsAt, no_file};

use crate::lines::{self, LineForm, LineKind};
use crate::notices::{Notices, StandardError, Verbosity};
use crate::paths::FileList;
use csa_record::{FlowFault, SourceReader};
use hash_comments::HashLines;
use record_commands::{Inputs, RuntimeInputs, streams};
use std::alloc::Global;
use std::io::{Eprint, Write};
use std::rt::Files;
use std::time::Clock;
use std::{fmt, io};

/// How many files are accepted, how many are refused, and how many cannot be read.
#[derive(Clone, Copy)]
pub struct Tally {
    /// The accepted ones.
    pub accepted: usize,
    /// Those whose record is refused.
    pub refused: usize,
    /// Those that cannot be read.
    pub unreadable: usize,
}

// The line on standard error after the last file, without its line end.
impl fmt::Display for Tally {
    ghost output = { λ tally. Some (tally_line tally) };

    fn fmt<W: fmt::Write>(&self, f: &mut fmt::Formatter<W>) -> fmt::Result {
        let files = self.accepted as u128 + self.refused as u128 + self.unreadable as u128;
        let accepted = self.accepted;
        let refused = self.refused;
        let unreadable = self.unreadable;
        write!(
            f,
            "{files} files: {accepted} accepted, {refused} refused, {unreadable} unreadable"
        )
    }
}

/// Prints a line about the CSA V2.2 record in each of the files in turn: on standard output if it
/// is accepted, and on standard error if it is refused or cannot be read. Standard input is read
/// for a file that is named `-`. A path that is not UTF-8 cannot be read. `hash_lines` says how
/// lines that begin with `#` are read. With `Nul` each path on standard output ends with a NUL
/// byte. Returns how many there are of each.
///
/// Refuses `WriteFault` if a line cannot be written to standard output, and `OutOfMemory`, both at
/// once.
pub fn run<R: Files + Input + Print + Eprint + Clock + AllocGlobal>(
    rt: &R,
    lines: LineKind,
    files: &FileList,
    hash_lines: HashLines,
    verbosity: Verbosity,
) -> Result<Tally, FlowFault>
    ensures count { IfOk result (λ t. counted t ≡ length files.now.paths.items) }
{
    let mut notices = StandardError::new(rt, verbosity, files.paths.len());
    let form = LineForm {
        kind: lines,
        path_end: files.path_end,
    };
    let tally = print_all(
        rt.alloc(),
        &RuntimeInputs::new(rt, hash_lines),
        form,
        files.paths.as_slice(),
        &mut io::writer(rt),
        &mut notices,
    );
    notices.finish();
    tally
}

// Prints those lines.
fn print_all<I: Inputs, W: Write, E: Notices>(
    alloc: Global,
    inputs: &I,
    form: LineForm,
    paths: &[Vec<u8>],
    out: &mut W,
    notices: &mut E,
) -> Result<Tally, FlowFault>
    ensures printed { IfOk result (λ tally.
        PrintsAll (I.opens_not inputs.now) (I.opens inputs.now) I.Input.Read.remaining form
        (items_of paths.now) (printed_of (W.contents out.old) (E.shown notices.old) no_file)
        (printed_of (W.contents out.new) (E.shown notices.new) tally)) }
    ensures count { IfOk result (λ tally. counted tally ≡ length paths.now) }
    ensures stops { IfErr result
        (StopsAmong (I.opens_not inputs.now) (I.opens inputs.now) I.Input.Read.remaining form
        (items_of paths.now) (printed_of (W.contents out.old) (E.shown notices.old) no_file)
        (W.contents out.new) (E.shown notices.new)) }
{
    let mut tally = Tally {
        accepted: 0,
        refused: 0,
        unreadable: 0,
    };
    let mut reader = SourceReader::new(alloc);
    for path in paths {
        let path = path.as_slice();
        tally = print_one(alloc, &mut reader, inputs, form, path, out, notices, tally)?;
        notices.file_done();
    }
    Ok(tally)
}

// Prints the line about the file of this path, and counts it.
fn print_one<I: Inputs, W: Write, E: Notices>(
    alloc: Global,
    reader: &mut SourceReader,
    inputs: &I,
    form: LineForm,
    path: &[u8],
    out: &mut W,
    notices: &mut E,
    tally: Tally,
) -> Result<Tally, FlowFault>
    requires room { counted tally < 2 ^ 64 - 1 }
    ensures printed { IfOk result (λ after.
        PrintsFile (I.opens_not inputs.now) (I.opens inputs.now) I.Input.Read.remaining form
        path.now (printed_of (W.contents out.old) (E.shown notices.old) tally)
        (printed_of (W.contents out.new) (E.shown notices.new) after)) }
    ensures count { IfOk result (λ after. counted after ≡ counted tally + 1) }
    ensures stops { IfErr result
        (StopsAt (I.opens_not inputs.now) (I.opens inputs.now) I.Input.Read.remaining form
        path.now (W.contents out.old) (E.shown notices.old)
        (W.contents out.new) (E.shown notices.new)) }
{
    match str::from_utf8(path) {
        Ok(file) => print_file(alloc, reader, inputs, form, file, out, notices, tally),
        Err(_) => print_no_text(alloc, path, notices, tally),
    }
}

// Prints that line about this file, and counts it.
fn print_file<I: Inputs, W: Write, E: Notices>(
    alloc: Global,
    reader: &mut SourceReader,
    inputs: &I,
    form: LineForm,
    file: &str,
    out: &mut W,
    notices: &mut E,
    tally: Tally,
) -> Result<Tally, FlowFault>
    requires room { counted tally < 2 ^ 64 - 1 }
    ensures printed { IfOk result (λ after.
        PrintsFile (I.opens_not inputs.now) (I.opens inputs.now) I.Input.Read.remaining form
        file.now (printed_of (W.contents out.old) (E.shown notices.old) tally)
        (printed_of (W.contents out.new) (E.shown notices.new) after)) }
    ensures count { IfOk result (λ after. counted after ≡ counted tally + 1) }
    ensures stops { IfErr result
        (StopsAt (I.opens_not inputs.now) (I.opens inputs.now) I.Input.Read.remaining form
        file.now (W.contents out.old) (E.shown notices.old)
        (W.contents out.new) (E.shown notices.new)) }
{
    match lines::line_of(alloc, reader, inputs, form, file) {
        Ok(line) => {
            notices.make_way();
            streams::write_all(out, line.as_bytes())?;
            Ok(Tally {
                accepted: tally.accepted + 1,
                ..tally
            })
        }
        Err(FlowFault::Refused(refusal)) => {
            let Ok(text) = lines::refused_lines(alloc, file, &refusal, notices) else {
                return Err(FlowFault::OutOfMemory);
            };
            notices.show(&text);
            Ok(Tally {
                refused: tally.refused + 1,
                ..tally
            })
        }
        Err(FlowFault::ReadFault) => {
            let Ok(text) = lines::unreadable_lines(alloc, file, notices) else {
                return Err(FlowFault::OutOfMemory);
            };
            notices.show(&text);
            Ok(Tally {
                unreadable: tally.unreadable + 1,
                ..tally
            })
        }
        Err(FlowFault::WriteFault | FlowFault::OutOfMemory) => Err(FlowFault::OutOfMemory),
    }
}

// Prints the lines about a file whose path is not UTF-8, and counts it.
fn print_no_text<E: Notices>(
    alloc: Global,
    path: &[u8],
    notices: &mut E,
    tally: Tally,
) -> Result<Tally, FlowFault>
    requires room { counted tally < 2 ^ 64 - 1 }
    ensures printed { OnOk result ((name : List ℕ) × (text : List ℕ)
        × AreUnreadableLines name text
        × Appends (E.shown notices.old) (E.shown notices.new) text) }
    ensures count { IfOk result
        (λ after. after ≡ record tally { unreadable = tally.unreadable + 1 }) }
    ensures stops { IfErr result (λ fault. fault ≡ FlowFault.OutOfMemory) }
    ensures silent { OnErr result (E.shown notices.new ≡ E.shown notices.old) }
{
    let Ok(text) = lines::not_text_lines(alloc, path, notices) else {
        return Err(FlowFault::OutOfMemory);
    };
    notices.show(&text);
    Ok(Tally {
        unreadable: tally.unreadable + 1,
        ..tally
    })
}
