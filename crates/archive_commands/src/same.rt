//! Which of many files contain the same game.

ghost use Rattle.std.specs.Prelude.{◌≡◌, ◌≢◌, ℕ, ◌+◌, ◌-◌, ◌^◌, ◌<◌, length, IfErr, IfOk, OnOk};
ghost use Rattle.std.specs.Io.KnownBytes.{Appends};
ghost use Rattle.std.specs.List.{All};
ghost use Rattle.csa_record.specs.declared.flow.FlowFault.{FlowFault};
ghost use Rattle.archive_commands.specs.Lists.{items_of};
ghost use Rattle.archive_commands.specs.Many.{counted};
ghost use Rattle.archive_commands.specs.ManyPrinted.{no_file};
ghost use Rattle.archive_commands.specs.Same.{EndsPrinting, FileReads};
ghost use Rattle.archive_commands.specs.SameGroups.{PrintsGroups, StopsGroups, StopsPrinting, counted_with, group_line, group_lines, tally_from};

use crate::lines;
use crate::list::end_byte;
use crate::many::Tally;
use crate::notices::{Notices, StandardError, Verbosity};
use crate::paths::FileList;
use crate::places::Places;
use csa_record::{FlowFault, Record};
use game_archive::{Archive, Likeness, Placing, Watch, copies, group};
use hash_comments::HashLines;
use record_commands::{Inputs, RuntimeInputs, streams};
use shogi_board::OutOfMemory;
use shogi_words::PathEnd;
use std::alloc::Global;
use std::io;
use std::io::{Eprint, Write};
use std::rt::Files;
use std::time::Clock;

/// How files are compared, and how the groups are printed.
#[derive(Clone, Copy)]
pub struct Comparison {
    /// What the files of a group have in common.
    pub likeness: Likeness,
    /// How a line that begins with `#` is read.
    pub hash_lines: HashLines,
    /// What each line that is printed ends in.
    pub path_end: PathEnd,
}

/// Prints the groups of two or more files that contain the same game, or by `Moves` the same start
/// and moves: a path in each line, and an empty line between groups. Groups come in the order of
/// their first files, and the files of a group in their order.
///
/// A file that is refused or cannot be read is in no group, and has its line on standard error. So
/// has one that could not be compared, since an earlier file could not be read again. A path that
/// is not UTF-8 cannot be read. Returns how many files there are of each kind.
///
/// Refuses `WriteFault` if a line cannot be written to standard output, and `OutOfMemory`, both at
/// once.
pub fn run<R: Files + Input + Print + Eprint + Clock + AllocGlobal>(
    rt: &R,
    comparison: Comparison,
    files: &FileList,
    verbosity: Verbosity,
) -> Result<Tally, FlowFault>
    ensures count { IfOk result (λ t. counted t ≡ length files.now.paths.items) }
    ensures ends { IfErr result EndsPrinting }
{
    let paths = files.paths.as_slice();
    let inputs = RuntimeInputs::new(rt, comparison.hash_lines);
    let mut archive = PathsArchive {
        inputs: &inputs,
        paths,
        failed: Places::new(),
        refused: Places::new(),
    };
    let mut notices = StandardError::new(rt, verbosity, paths.len());
    print_same(
        rt.alloc(),
        &mut archive,
        comparison,
        paths,
        &mut io::writer(rt),
        &mut notices,
    )
}

// Prints those groups, of an archive whose entries have these paths.
fn print_same<A: Archive, W: Write, E: Notices>(
    alloc: Global,
    archive: &mut A,
    comparison: Comparison,
    paths: &[Vec<u8>],
    out: &mut W,
    notices: &mut E,
) -> Result<Tally, FlowFault>
    requires whole { A.size archive.old ≡ length paths.now }
    ensures printed { IfOk result (PrintsGroups comparison (A.reads archive.old)
        (A.noted archive.old) (A.noted archive.new) (items_of paths.now)
        (W.contents out.old) (W.contents out.new)) }
    ensures count { IfOk result (λ tally. counted tally ≡ length paths.now) }
    ensures stops { IfErr result (StopsGroups comparison (A.reads archive.old)
        (A.noted archive.old) (A.noted archive.new) (items_of paths.now)
        (W.contents out.old) (W.contents out.new)) }
    ensures ends { IfErr result EndsPrinting }
{
    let placed = group(
        alloc,
        archive,
        comparison.likeness,
        &mut FileWatch {
            notices: &mut *notices,
        },
    );
    notices.finish();
    let Ok(placings) = placed else {
        return Err(FlowFault::OutOfMemory);
    };
    let tally = report_all(alloc, paths, placings.as_slice(), notices)?;
    let Ok(members) = copies(alloc, placings.as_slice()) else {
        return Err(FlowFault::OutOfMemory);
    };
    print_groups(alloc, paths, members.as_slice(), comparison.path_end, out)?;
    Ok(tally)
}

// Files by their paths.
#[derive(Drop)]
struct PathsArchive<'i, 'p, I> {
    inputs: &'i I,
    paths: &'p [Vec<u8>],
    // Where a reading failed.
    failed: Places,
    // Where a record was refused.
    refused: Places,
}

impl<I: Inputs> Archive for PathsArchive<'_, '_, I> {
    ghost use Rattle.std.specs.Prelude.{length};
    ghost use Rattle.archive_commands.specs.Lists.{items_of};
    ghost use Rattle.archive_commands.specs.Same.{FileReads, path_at};

    ghost reads = { λ archive at result.
        FileReads (I.opens_not archive.inputs.now) (I.opens archive.inputs.now)
        I.Input.Read.remaining (path_at (items_of archive.paths.now) at) result };

    ghost noted = { λ archive. record {
      failed = archive.failed.places;
      refused = archive.refused.places;
    } };

    ghost size = { λ archive. length archive.paths.now };

    fn len(&self) -> usize {
        self.paths.len()
    }

    fn read_record(&mut self, alloc: Global, at: usize) -> Result<Record, FlowFault> {
        let result = record_of(alloc, self.inputs, self.paths[at].as_slice());
        match &result {
            Err(FlowFault::ReadFault) => self.failed = self.failed.with(at),
            Err(FlowFault::Refused(_)) => self.refused = self.refused.with(at),
            Ok(_) | Err(FlowFault::WriteFault | FlowFault::OutOfMemory) => {}
        }
        result
    }
}

// Reads the record in the file of this path.
fn record_of<I: Inputs>(alloc: Global, inputs: &I, path: &[u8]) -> Result<Record, FlowFault>
    ensures reads { FileReads (I.opens_not inputs.now) (I.opens inputs.now) I.Input.Read.remaining
        path.now result }
    ensures no_write { IfErr result (λ fault. fault ≢ FlowFault.WriteFault) }
{
    match str::from_utf8(path) {
        Ok(path) => streams::record(alloc, inputs, Some(path)),
        Err(_) => Err(FlowFault::ReadFault),
    }
}

// Shows how many files are done.
#[derive(Drop)]
struct FileWatch<'a, E> {
    notices: &'a mut E,
}

impl<E: Notices> Watch for FileWatch<'_, E> {
    fn entry_done(&mut self, _at: usize) {
        self.notices.file_done();
    }
}

// Shows the lines of the files that are in no group because they are refused or cannot be read.
fn report_all<E: Notices>(
    alloc: Global,
    paths: &[Vec<u8>],
    placings: &[Placing],
    notices: &mut E,
) -> Result<Tally, FlowFault>
    requires whole { length placings.now ≡ length paths.now }
    ensures count { IfOk result (λ tally. counted tally ≡ length paths.now) }
    ensures kinds { IfOk result (λ tally. tally ≡ tally_from no_file placings.now) }
    ensures memory { IfErr result (λ fault. fault ≡ FlowFault.OutOfMemory) }
{
    let mut tally = Tally {
        accepted: 0,
        refused: 0,
        unreadable: 0,
    };
    for at in 0..paths.len() {
        tally = report_one(alloc, paths[at].as_slice(), &placings[at], notices, tally)?;
    }
    Ok(tally)
}

// Shows the lines of one file, if it has any, and counts it.
fn report_one<E: Notices>(
    alloc: Global,
    path: &[u8],
    placing: &Placing,
    notices: &mut E,
    tally: Tally,
) -> Result<Tally, FlowFault>
    requires room { counted tally < 2 ^ 64 - 1 }
    ensures count { IfOk result (λ after. counted after ≡ counted tally + 1) }
    ensures kind { IfOk result (λ after. after ≡ counted_with tally placing.now) }
    ensures memory { IfErr result (λ fault. fault ≡ FlowFault.OutOfMemory) }
{
    match placing {
        Placing::Group(_) => Ok(Tally {
            accepted: tally.accepted + 1,
            ..tally
        }),
        Placing::Refused(_) => {
            show_lines(alloc, path, placing, notices)?;
            Ok(Tally {
                refused: tally.refused + 1,
                ..tally
            })
        }
        Placing::Unreadable => {
            show_lines(alloc, path, placing, notices)?;
            Ok(Tally {
                unreadable: tally.unreadable + 1,
                ..tally
            })
        }
    }
}

fn show_lines<E: Notices>(
    alloc: Global,
    path: &[u8],
    placing: &Placing,
    notices: &mut E,
) -> Result<(), FlowFault>
    ensures memory { IfErr result (λ fault. fault ≡ FlowFault.OutOfMemory) }
{
    match lines_of(alloc, path, placing, notices) {
        Ok(text) => {
            notices.show(&text);
            Ok(())
        }
        Err(_) => Err(FlowFault::OutOfMemory),
    }
}

// The lines about a file that is refused or cannot be read.
fn lines_of<E: Notices>(
    alloc: Global,
    path: &[u8],
    placing: &Placing,
    notices: &E,
) -> Result<String, OutOfMemory> {
    let Ok(file) = str::from_utf8(path) else {
        return lines::not_text_lines(alloc, path, notices);
    };
    match placing {
        Placing::Refused(refusal) => lines::refused_lines(alloc, file, refusal, notices),
        _ => lines::unreadable_lines(alloc, file, notices),
    }
}

// Prints the paths of the groups: of each file the first of its group, and itself.
fn print_groups<W: Write>(
    alloc: Global,
    paths: &[Vec<u8>],
    members: &[(usize, usize)],
    end: PathEnd,
    out: &mut W,
) -> Result<(), FlowFault>
    requires within { All (λ member. member.1 < length paths.now) members.now }
    ensures printed { OnOk result (Appends (W.contents out.old) (W.contents out.new)
        (group_lines end (items_of paths.now) 0 members.now)) }
    ensures stops { IfErr result (StopsPrinting end (items_of paths.now) members.now
        (W.contents out.old) (W.contents out.new)) }
{
    for k in 0..members.len() {
        let (leader, at) = members[k];
        let begins_group = k > 0 && leader == at;
        let Ok(line) = group_line(alloc, paths[at].as_slice(), begins_group, end) else {
            return Err(FlowFault::OutOfMemory);
        };
        streams::write_all(out, line.as_slice())?;
    }
    Ok(())
}

// The line of a file, after an empty one if it begins a further group.
fn group_line(
    alloc: Global,
    path: &[u8],
    begins_group: bool,
    end: PathEnd,
) -> Result<Vec<u8>, OutOfMemory>
    ensures { IfOk result (λ line. line.items ≡ group_line end begins_group path.now) }
{
    let mut line = Vec::new(alloc);
    if begins_group {
        line.push(end_byte(end))?;
    }
    line.extend_from_slice(path)?;
    line.push(end_byte(end))?;
    Ok(line)
}
