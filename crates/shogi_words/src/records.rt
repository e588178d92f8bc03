//! The commands that only read FILEs, and `engine`, which has no words.

ghost use Rattle.std.specs.Prelude.{◌≡◌, IfOk, codes};
ghost use Rattle.clap.specs.Words.{app_of, new_app};
ghost use Rattle.shogi_words.specs.Options.{takes_compared, takes_file, takes_files, takes_record};

use crate::words;
use clap::Command;
use std::alloc::{AllocError, Global};

/// The word of the command that checks CSA records.
pub const CHECK: &str = "check";

/// The word of the command that writes the digests of CSA records.
pub const DIGEST: &str = "digest";

/// The word of the command that writes which CSA records are the same.
pub const SAME: &str = "same";

/// The word of the command that writes the canonical text of a CSA record.
pub const NORMAL: &str = "normal";

/// The word of the command that writes the USI position line of a CSA record.
pub const USI: &str = "usi";

/// The word of the command that writes the canonical CSA text of a USI position line.
pub const CSA: &str = "csa";

/// The word of the command that plays as a USI engine.
pub const ENGINE: &str = "engine";

const RECORDS: &str = "The records, or folders; without them, or for -, standard input is read";

const COMPARED: &str = "The records, or folders; - is standard input";

// That of clap would show FILE as the only way to name records.
const USAGE_OF_SAME: &str =
    "shogi same [OPTIONS] <FILE>...\n       shogi same [OPTIONS] --files-from <LIST> [FILE]...";

const LINE: &str = "The line; without it, or with -, standard input is read";

/// `shogi check [FILE]..`: whether each record is accepted, its number of moves, and the state of
/// the game after them.
pub fn check<'a>(alloc: Global) -> Result<Command<'a>, AllocError>
    ensures name { IfOk result (λ c. (app_of c).top.name ≡ codes "check") }
    ensures words { IfOk result (λ c. app_of c ≡ takes_files (codes "check")) }
{
    let command = words::named(
        alloc,
        CHECK,
        "Checks records: prints how many moves each has, and the state of its game",
        "Example: shogi check game.csa",
    );
    words::add_list(alloc, command.arg(words::files(alloc, RECORDS))?)
}

/// `shogi digest [FILE]..`: the SHA-256 of the canonical text of each record.
pub fn digest<'a>(alloc: Global) -> Result<Command<'a>, AllocError>
    ensures name { IfOk result (λ c. (app_of c).top.name ≡ codes "digest") }
    ensures words { IfOk result (λ c. app_of c ≡ takes_files (codes "digest")) }
{
    let command = words::named(
        alloc,
        DIGEST,
        "Prints the SHA-256 of the canonical text of each record",
        "Example: shogi digest one.csa other.csa",
    );
    words::add_list(alloc, command.arg(words::files(alloc, RECORDS))?)
}

/// `shogi same FILE..`: which records are the same. FILE or `--files-from` is required.
pub fn same<'a>(alloc: Global) -> Result<Command<'a>, AllocError>
    ensures name { IfOk result (λ c. (app_of c).top.name ≡ codes "same") }
    ensures words { IfOk result (λ c. app_of c ≡ takes_compared (codes "same")) }
{
    let command = words::named(
        alloc,
        SAME,
        "Prints which records have the same game",
        "Example: shogi same --moves one.csa other.csa",
    )
    .override_usage(USAGE_OF_SAME);
    let files = words::files(alloc, COMPARED).required_unless_present("files-from")?;
    words::add_list(alloc, command.arg(files)?)?.arg(words::flag(
        alloc,
        "moves",
        "Compares only the start and the moves",
    ))
}

/// `shogi normal [FILE]`: the canonical text of a record.
pub fn normal<'a>(alloc: Global) -> Result<Command<'a>, AllocError>
    ensures name { IfOk result (λ c. (app_of c).top.name ≡ codes "normal") }
    ensures words { IfOk result (λ c. app_of c ≡ takes_record (codes "normal")) }
{
    words::command_of_record(
        alloc,
        NORMAL,
        "Prints the canonical text of a record",
        "Example: shogi normal game.csa",
    )
}

/// `shogi usi [FILE]`: the USI position line of a record.
pub fn usi<'a>(alloc: Global) -> Result<Command<'a>, AllocError>
    ensures name { IfOk result (λ c. (app_of c).top.name ≡ codes "usi") }
    ensures words { IfOk result (λ c. app_of c ≡ takes_record (codes "usi")) }
{
    words::command_of_record(
        alloc,
        USI,
        "Prints the USI position line of a record",
        "Example: shogi usi game.csa",
    )
}

/// `shogi csa [FILE]`: the canonical text of a USI position line.
pub fn csa<'a>(alloc: Global) -> Result<Command<'a>, AllocError>
    ensures name { IfOk result (λ c. (app_of c).top.name ≡ codes "csa") }
    ensures word { IfOk result (λ c. app_of c ≡ takes_file (codes "csa")) }
{
    words::command(
        alloc,
        CSA,
        "Prints the canonical text of a USI position line",
        "Example: shogi csa position.txt",
        LINE,
    )
}

/// `shogi engine`: a USI engine on standard input and output, which plays the first legal move.
pub fn engine<'a>(alloc: Global) -> Command<'a>
    ensures name { (app_of result).top.name ≡ codes "engine" }
    ensures no_words { app_of result ≡ new_app (codes "engine") }
{
    words::named(
        alloc,
        ENGINE,
        "Answers USI lines as an engine that plays the first legal move",
        "Example: shogi play --engine shogi --engine-arg engine --server shogi --out game.csa",
    )
}
