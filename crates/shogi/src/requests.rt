//! What the command line asks for, and how it is done.

ghost use Rattle.std.specs.Prelude.{◌≡◌, ◌⊎◌, ◌↔◌, ◌&&◌, ◌≤◌, IfErr, IfOk, IsTrue, OnOk, Some, count_by, string_bytes};
ghost use Rattle.clap.specs.Words.{found_of, subcommand_name_of};
ghost use Rattle.clap.specs.declared.parser.matches.ArgMatches.{ArgMatches};
ghost use Rattle.shogi.specs.Asking.{AreFiles, IsStopOf, IsStopOfFiles, is_not_text};
ghost use Rattle.shogi.specs.Explained.{IsExplained, IsFileExplained, IsPlayExplained, IsServeExplained};
ghost use Rattle.shogi_rules.specs.Positions as positions;
ghost use Rattle.shogi_words.specs.Requests.{AreWordsOf, SaysWords};
ghost use Rattle.shogi_words.specs.Words.{IsNoCommand, word_of};

use crate::stop::Stop;
use crate::usage::NOT_TEXT;
use archive_commands::paths::FileList;
use archive_commands::same::Comparison;
use archive_commands::{
    LineKind, OutputPlace, Tally, Verbosity, digest, explain, many, paths, same,
};
use clap::ArgMatches;
use csa_record::FlowFault;
use record_commands::{check, csa, normal, usi};
use record_game::Likeness;
use session_commands::{engine, play, reasons, serve};
use shogi_board::OutOfMemory;
use shogi_words::{PasswordSource, PathEnd, Plan, Records, Request, Service, request_of};
use std::fs::File;
use std::io::Eprint;
use std::net::{Net, TcpListener, TcpStream};
use std::process::Processes;
use std::rt::{Env, Files};
use std::time::Clock;

/// Which of the standard streams are terminals.
#[derive(Clone, Copy)]
pub struct Terminals {
    /// Standard output.
    pub output: bool,
    /// Standard error.
    pub error: bool,
}

impl Terminals {
    // Whether standard output and standard error are terminals. They are then taken for one.
    fn are_both(self) -> bool
        ensures { result ≡ (self.output && self.error) }
    {
        self.output && self.error
    }
}

/// The request of the command line; `is_terminal` says whether standard error is a terminal.
///
/// Refuses `UnknownCommand` if it names no command.
pub fn requested<'m, 'a>(
    matches: &'m ArgMatches<'a>,
    is_terminal: bool,
) -> Result<Request<'m, 'a>, Stop>
    ensures named { IfOk result (λ r. subcommand_name_of matches.now ≡ Some (word_of r)) }
    ensures within { IfOk result (λ r. (s : Service)
        → r ≡ Request.Serve s → (1 ≤ s.max_moves) × (s.max_moves ≤ positions.max_moves)) }
    ensures said { IfOk result
        (λ r. (words : ArgMatches) × AreWordsOf matches.now words
        × SaysWords (found_of words) is_terminal r) }
    ensures unknown { IfErr result
        (λ stop. (stop ≡ Stop.UnknownCommand) × IsNoCommand (subcommand_name_of matches.now)) }
{
    request_of(matches, is_terminal).ok_or(Stop::UnknownCommand)
}

/// Whether all words that are not UTF-8, of which there are so many, are FILEs of `check`, `digest`
/// or `same`.
pub fn are_files(request: &Request<'_, '_>, not_text: usize) -> bool
    ensures { IsTrue result ↔ ((not_text ≡ 0) ⊎ AreFiles request.now not_text) }
{
    let files = match request {
        Request::Check(records) | Request::Digest(records) | Request::Same(records, _) => {
            records.files
        }
        Request::Normal(_) | Request::Usi(_) | Request::Csa(_) => return not_text == 0,
        Request::Engine | Request::Serve(_) | Request::Play(_) => return not_text == 0,
    };
    not_text == 0 || standing_in(files) == not_text
}

// How many of these stand for words that are not UTF-8.
fn standing_in(files: &[&str]) -> usize
    ensures { result ≡ count_by is_not_text files.now }
{
    files.iter().filter(|file| is_not_text(*file)).count()
}

fn is_not_text(file: &&str) -> bool
    ensures { result ≡ is_not_text file.now }
{
    **file == *NOT_TEXT
}

/// Does what is asked for. Refuses as the command does. `names` are those of the FILEs that are not
/// UTF-8: such a file cannot be read.
///
/// If standard error is a terminal, several files are counted there even if all are accepted.
pub fn meet<
    R: Env
        + Files<File = File>
        + Input
        + Net<Listener = TcpListener, Stream = TcpStream>
        + Processes
        + Clock
        + Print
        + Eprint
        + AllocGlobal,
>(rt: &R, request: &Request<'_, '_>, names: &[Vec<u8>], terminals: Terminals) -> Result<(), Stop>
    requires moves { (s : Service)
        → request.now ≡ Request.Serve s → (1 ≤ s.max_moves) × (s.max_moves ≤ positions.max_moves) }
    ensures stops { IfErr result (IsStopOf request.now) }
{
    match *request {
        Request::Check(records) => read_files(rt, LineKind::Checks, &records, names, terminals)?,
        Request::Digest(records) => read_files(rt, LineKind::Digests, &records, names, terminals)?,
        Request::Same(records, likeness) => compare(rt, &records, likeness, names, terminals)?,
        Request::Normal(one) => normal::run(rt, one.file, one.hash_lines)?,
        Request::Usi(one) => usi::run(rt, one.file, one.hash_lines)?,
        Request::Csa(file) => csa::run(rt, file)?,
        Request::Engine => engine::run(rt)?,
        Request::Serve(service) => serve::run(rt, service)?,
        Request::Play(plan) => play::run(rt, &plan)?,
    }
    Ok(())
}

// One file, or standard input, has a line without its name, or of digests with it. Of more, each
// is named.
fn read_files<R: Files + Input + Print + Eprint + Clock + AllocGlobal>(
    rt: &R,
    lines: LineKind,
    records: &Records<'_, '_>,
    names: &[Vec<u8>],
    terminals: Terminals,
) -> Result<(), Stop>
    ensures { IfErr result IsStopOfFiles }
{
    if !names.is_empty() || paths::are_many(rt, records) {
        let paths = files_of(rt, records, names)?;
        let verbosity = Verbosity {
            is_explained: records.is_explained,
            shows_progress: records.shows_progress,
            output: match (terminals.are_both(), lines, records.path_end) {
                (false, _, _) => OutputPlace::Elsewhere,
                (true, LineKind::Digests, PathEnd::Nul) => OutputPlace::TerminalWithoutLineEnds,
                (true, _, _) => OutputPlace::Terminal,
            },
        };
        let tally = many::run(rt, lines, &paths, records.hash_lines, verbosity)?;
        return all_accepted(rt, tally, terminals.error);
    }
    let file = records.files.first().copied();
    match lines {
        LineKind::Checks => check::run(rt, file, records.hash_lines)?,
        LineKind::Digests => digest::run(rt, file, records.hash_lines)?,
    }
    Ok(())
}

fn compare<R: Files + Input + Print + Eprint + Clock + AllocGlobal>(
    rt: &R,
    records: &Records<'_, '_>,
    likeness: Likeness,
    names: &[Vec<u8>],
    terminals: Terminals,
) -> Result<(), Stop>
    ensures { IfErr result IsStopOfFiles }
{
    let paths = files_of(rt, records, names)?;
    let comparison = Comparison {
        likeness,
        hash_lines: records.hash_lines,
        path_end: records.path_end,
    };
    let verbosity = Verbosity {
        is_explained: records.is_explained,
        shows_progress: records.shows_progress,
        output: if terminals.are_both() {
            OutputPlace::Terminal
        } else {
            OutputPlace::Elsewhere
        },
    };
    let tally = same::run(rt, comparison, &paths, verbosity)?;
    all_accepted(rt, tally, terminals.error)
}

// The files that are asked for. Those whose names are not UTF-8 get them again.
fn files_of<R: Files + Input + AllocGlobal>(
    rt: &R,
    records: &Records<'_, '_>,
    names: &[Vec<u8>],
) -> Result<FileList, FlowFault> {
    let mut files = paths::all(rt, records)?;
    let mut names = names.iter();
    for path in files.paths.iter_mut() {
        if path.as_slice() == NOT_TEXT.as_bytes() {
            let Some(name) = names.next() else {
                break;
            };
            match Vec::from_slice(rt.alloc(), name.as_slice()) {
                Ok(name) => *path = name,
                Err(_) => return Err(FlowFault::OutOfMemory),
            }
        }
    }
    Ok(files)
}

// Refuses `NotAll` if a file was refused or could not be read. Otherwise counts the files on a
// terminal.
fn all_accepted<R: Eprint>(rt: &R, tally: Tally, is_terminal: bool) -> Result<(), Stop>
    ensures accepted { OnOk result ((tally.refused ≡ 0) × (tally.unreadable ≡ 0)) }
    ensures not_all { IfErr result (λ stop. (stop ≡ Stop.NotAll tally)
        × ((tally.refused ≡ 0) × (tally.unreadable ≡ 0) → ⊥)) }
{
    if tally.refused > 0 || tally.unreadable > 0 {
        return Err(Stop::NotAll(tally));
    }
    if is_terminal {
        // the files are accepted, even if standard error is closed
        let _ = rt.eprintln(&tally);
    }
    Ok(())
}

/// The line that explains why the one file of this request is refused or cannot be read, why a file
/// of a game cannot be read or written, or why nothing listens on a port, with LF, or nothing.
/// `is_terminal` says whether standard error is a terminal.
///
/// Returns an error if an allocation fails.
pub fn explanation<R: Files + Net<Listener = TcpListener, Stream = TcpStream> + AllocGlobal>(
    rt: &R,
    request: &Request<'_, '_>,
    stop: &Stop,
    is_terminal: bool,
) -> Result<String, OutOfMemory>
    ensures explained { IfOk result (λ text.
        IsExplained request.now stop.now (string_bytes text)) }
{
    match *request {
        Request::Check(_) => file_explanation(rt, request, stop),
        Request::Digest(_) => file_explanation(rt, request, stop),
        Request::Same(_, _) => file_explanation(rt, request, stop),
        Request::Normal(_) => file_explanation(rt, request, stop),
        Request::Usi(_) => file_explanation(rt, request, stop),
        Request::Csa(_) => file_explanation(rt, request, stop),
        Request::Engine => file_explanation(rt, request, stop),
        Request::Serve(service) => serve_explanation(rt, service.port, stop, is_terminal),
        Request::Play(plan) => play_explanation(rt, &plan, stop),
    }
}

// The line about a file of the plan, where its moves are shown too.
fn play_explanation<R: Files + AllocGlobal>(
    rt: &R,
    plan: &Plan<'_, '_>,
    stop: &Stop,
) -> Result<String, OutOfMemory>
    ensures explained { IfOk result (λ text. IsPlayExplained stop.now (string_bytes text)) }
{
    if !plan.is_shown {
        return Ok(String::new(rt.alloc()));
    }
    match (plan.password, stop) {
        (PasswordSource::File(file), Stop::Read) => reasons::unreadable(rt, file),
        (_, Stop::Write) => reasons::unwritable(rt, plan),
        _ => Ok(String::new(rt.alloc())),
    }
}

// The line about the port, on a terminal.
fn serve_explanation<R: Net<Listener = TcpListener, Stream = TcpStream> + AllocGlobal>(
    rt: &R,
    port: u16,
    stop: &Stop,
    is_terminal: bool,
) -> Result<String, OutOfMemory>
    ensures explained { IfOk result (λ text. IsServeExplained stop.now (string_bytes text)) }
{
    match (is_terminal, stop) {
        (true, Stop::Read) => reasons::taken_port(rt, port),
        _ => Ok(String::new(rt.alloc())),
    }
}

// The line about the one file of the request.
fn file_explanation<R: Files + AllocGlobal>(
    rt: &R,
    request: &Request<'_, '_>,
    stop: &Stop,
) -> Result<String, OutOfMemory>
    ensures explained { IfOk result (λ text. IsFileExplained stop.now (string_bytes text)) }
{
    match (explained_file(request), stop) {
        (Some(file), Stop::Refused(refusal)) => explain::refusal(rt, file, refusal),
        (Some(file), Stop::Read) => explain::unreadable(rt, file),
        _ => Ok(String::new(rt.alloc())),
    }
}

// The file of this request that is named, if its refusal is to be explained.
fn explained_file<'a>(request: &Request<'_, 'a>) -> Option<&'a str> {
    match request {
        Request::Check(records) | Request::Digest(records) | Request::Same(records, _) => {
            explained_of(records)
        }
        Request::Normal(one) | Request::Usi(one) if one.is_explained => one.file,
        _ => None,
    }
}

// The list, which is read before all files, or else the one file. Of several files each is
// explained with its line.
fn explained_of<'a>(records: &Records<'_, 'a>) -> Option<&'a str> {
    if !records.is_explained {
        return None;
    }
    records.list.or(records.files.first().copied())
}
