//! What the commands that read FILE have in common: their words, and what these say.

ghost use Rattle.std.specs.Prelude.{◌≡◌, IfOk, codes, false, map, option_map, true};
ghost use Rattle.clap.specs.Words.{app_of, first_value, found_of, new_app, rule_of};
ghost use Rattle.shogi_words.specs.Options.{IsByFlag, files_of, files_rule, flag_rule, list_rule, null_rule, takes_file, takes_record, with_list};
ghost use Rattle.shogi_words.specs.Requests.{AreRecordsOf, IsOneRecordOf};

use crate::request::{OneRecord, PathEnd, Records};
use clap::{Arg, ArgAction, ArgMatches, Command};
use hash_comments::HashLines;
use record_game::Likeness;
use std::alloc::{AllocError, Global};

const RECORD: &str = "The record; without it, or with -, standard input is read";

/// A command with this name, a description and an example.
pub fn named<'a>(alloc: Global, name: &'a str, about: &'a str, example: &'a str) -> Command<'a>
    ensures name { (app_of result).top.name ≡ name.now }
    ensures no_words { app_of result ≡ new_app name.now }
{
    Command::new(alloc, name).about(about).after_help(example)
}

/// A command that reads FILE, a word that may be absent: its name, a description, an example, and
/// what FILE is. Returns an error if an allocation fails.
pub fn command<'a>(
    alloc: Global,
    name: &'a str,
    about: &'a str,
    example: &'a str,
    help: &'a str,
) -> Result<Command<'a>, AllocError>
    ensures name { IfOk result (λ c. (app_of c).top.name ≡ name.now) }
    ensures word { IfOk result (λ c. app_of c ≡ takes_file name.now) }
{
    named(alloc, name, about, example).arg(Arg::new(alloc, "FILE").help(help))
}

/// A command that reads the record in FILE, with `--hash-comments` and `--explain`. Returns an
/// error if an allocation fails.
pub fn command_of_record<'a>(
    alloc: Global,
    name: &'a str,
    about: &'a str,
    example: &'a str,
) -> Result<Command<'a>, AllocError>
    ensures name { IfOk result (λ c. (app_of c).top.name ≡ name.now) }
    ensures words { IfOk result (λ c. app_of c ≡ takes_record name.now) }
{
    command(alloc, name, about, example, RECORD)?
        .arg(hash_comments(alloc))?
        .arg(explain(alloc))
}

/// FILE, one or more, with that help.
pub fn files<'a>(alloc: Global, help: &'a str) -> Arg<'a>
    ensures rule { rule_of result ≡ files_rule }
    ensures local { result.global ≡ false }
{
    Arg::new(alloc, "FILE").help(help).num_args(1..)
}

/// That command with `--files-from` and the options for many records. Returns an error if an
/// allocation fails.
pub fn add_list<'a>(alloc: Global, base: Command<'a>) -> Result<Command<'a>, AllocError>
    ensures words { IfOk result (λ c. app_of c ≡ with_list (app_of base.entry)) }
{
    base.arg(list(alloc))?
        .arg(null(alloc))?
        .arg(hash_comments(alloc))?
        .arg(explain(alloc))?
        .arg(flag(alloc, "quiet", "Shows no progress on a terminal"))
}

fn list<'a>(alloc: Global) -> Arg<'a>
    ensures rule { rule_of result ≡ list_rule }
    ensures local { result.global ≡ false }
{
    Arg::new(alloc, "files-from")
        .long("files-from")
        .value_name("LIST")
        .help("Reads the paths of more files from LIST, one a line; - is standard input")
}

fn null<'a>(alloc: Global) -> Arg<'a>
    ensures rule { rule_of result ≡ null_rule }
    ensures local { result.global ≡ false }
{
    flag(
        alloc,
        "null",
        "Each path ends with a NUL byte, in LIST and where it is printed",
    )
    .short('0')
}

fn hash_comments<'a>(alloc: Global) -> Arg<'a>
    ensures rule { rule_of result ≡ flag_rule (codes "hash-comments") }
    ensures local { result.global ≡ false }
{
    flag(
        alloc,
        "hash-comments",
        "A line that begins with # is a comment, not refused as C8 (servers write #RESIGN)",
    )
}

fn explain<'a>(alloc: Global) -> Arg<'a>
    ensures rule { rule_of result ≡ flag_rule (codes "explain") }
    ensures local { result.global ≡ false }
{
    flag(
        alloc,
        "explain",
        "Explains a refusal, as is done on a terminal",
    )
}

/// The flag with that name.
pub fn flag<'a>(alloc: Global, name: &'a str, help: &'a str) -> Arg<'a>
    ensures rule { rule_of result ≡ flag_rule name.now }
    ensures local { result.global ≡ false }
{
    Arg::new(alloc, name)
        .long(name)
        .help(help)
        .action(ArgAction::SetTrue)
}

/// FILE, if it is present.
pub fn file<'a>(matches: &ArgMatches<'a>) -> Option<&'a str>
    ensures value { option_map (λ s. s.now) result
        ≡ first_value (found_of matches.now) (codes "FILE") }
{
    matches.get_str("FILE")
}

/// The record that the words name, and how it is read; `is_terminal` says whether standard error is
/// a terminal.
pub fn one_record<'a>(matches: &ArgMatches<'a>, is_terminal: bool) -> OneRecord<'a>
    ensures value { IsOneRecordOf (found_of matches.now) is_terminal result }
{
    OneRecord {
        file: file(matches),
        hash_lines: hash_lines(matches),
        is_explained: is_explained(matches, is_terminal),
    }
}

/// The records that the words name, and how they are read; `is_terminal` says whether standard
/// error is a terminal.
pub fn records<'m, 'a>(matches: &'m ArgMatches<'a>, is_terminal: bool) -> Records<'m, 'a>
    ensures value { AreRecordsOf (found_of matches.now) is_terminal result }
{
    Records {
        files: named_files(matches),
        list: matches.get_str("files-from"),
        path_end: path_end(matches),
        hash_lines: hash_lines(matches),
        is_explained: is_explained(matches, is_terminal),
        shows_progress: shows_progress(matches, is_terminal),
    }
}

/// What `same` compares.
pub fn likeness(matches: &ArgMatches<'_>) -> Likeness
    ensures value { IsByFlag (found_of matches.now) (codes "moves")
        Likeness.Moves Likeness.Game result }
{
    if matches.get_flag("moves") {
        Likeness::Moves
    } else {
        Likeness::Game
    }
}

// The FILEs, in order.
fn named_files<'m, 'a>(matches: &'m ArgMatches<'a>) -> &'m [&'a str]
    ensures value { map (λ s. s.now) result.now ≡ files_of (found_of matches.now) }
{
    matches.get_strs("FILE").unwrap_or_default()
}

fn path_end(matches: &ArgMatches<'_>) -> PathEnd
    ensures value { IsByFlag (found_of matches.now) (codes "null")
        PathEnd.Nul PathEnd.Line result }
{
    if matches.get_flag("null") {
        PathEnd::Nul
    } else {
        PathEnd::Line
    }
}

fn hash_lines(matches: &ArgMatches<'_>) -> HashLines
    ensures value { IsByFlag (found_of matches.now) (codes "hash-comments")
        HashLines.Comments HashLines.Refused result }
{
    if matches.get_flag("hash-comments") {
        HashLines::Comments
    } else {
        HashLines::Refused
    }
}

fn is_explained(matches: &ArgMatches<'_>, is_terminal: bool) -> bool
    ensures value { IsByFlag (found_of matches.now) (codes "explain") true is_terminal result }
{
    is_terminal || matches.get_flag("explain")
}

fn shows_progress(matches: &ArgMatches<'_>, is_terminal: bool) -> bool
    ensures value { IsByFlag (found_of matches.now) (codes "quiet") false is_terminal result }
{
    is_terminal && !matches.get_flag("quiet")
}
