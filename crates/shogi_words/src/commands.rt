//! The commands, and which of them a command line asks for.

ghost use Rattle.std.specs.Prelude.{◌≡◌, ◌≤◌, [], IfOk, IfSome, None, Some};
ghost use Rattle.shogi_rules.specs.Positions as positions;
ghost use Rattle.shogi_words.specs.Words.{IsNoCommand, commands, word_of};
ghost use Rattle.shogi_words.specs.Requests.{AreWordsOf, SaysWords};
ghost use Rattle.clap.specs.Words.{found_of, subcommand_name_of, subcommand_names};
ghost use Rattle.clap.specs.declared.parser.matches.ArgMatches.{ArgMatches};

use crate::request::Request;
use crate::serve::Service;
use crate::{play, records, serve, words};
use clap::{ArgMatches, Command};
use std::alloc::{AllocError, Global};

/// The command line of the whole program. Returns an error if an allocation fails.
pub fn all<'a>(alloc: Global) -> Result<Command<'a>, AllocError>
    ensures names { IfOk result (λ c. subcommand_names c ≡ commands) }
{
    program(alloc)
        .subcommand(records::check(alloc)?)?
        .subcommand(records::digest(alloc)?)?
        .subcommand(records::same(alloc)?)?
        .subcommand(records::normal(alloc)?)?
        .subcommand(records::usi(alloc)?)?
        .subcommand(records::csa(alloc)?)?
        .subcommand(records::engine(alloc))?
        .subcommand(serve::command(alloc)?)?
        .subcommand(play::command(alloc)?)
}

// The program without its commands.
fn program<'a>(alloc: Global) -> Command<'a>
    ensures none { subcommand_names result ≡ [] }
{
    Command::new(alloc, "shogi")
        .about("Reads, checks and rewrites shogi records")
        .version("0.2.0")
        .propagate_version(true)
        .subcommand_required(true)
}

/// The request that the words make, or None if they name no command; `is_terminal` says whether
/// standard error is a terminal.
pub fn request_of<'m, 'a>(matches: &'m ArgMatches<'a>, is_terminal: bool) -> Option<Request<'m, 'a>>
    ensures named { IfSome result (λ r. subcommand_name_of matches.now ≡ Some (word_of r)) }
    ensures within { IfSome result (λ r. (s : Service)
        → r ≡ Request.Serve s → (1 ≤ s.max_moves) × (s.max_moves ≤ positions.max_moves)) }
    ensures said { IfSome result
        (λ r. (words : ArgMatches) × AreWordsOf matches.now words
        × SaysWords (found_of words) is_terminal r) }
    ensures unknown { result ≡ None → IsNoCommand (subcommand_name_of matches.now) }
{
    let (name, words) = matches.subcommand()?;
    match name {
        records::CHECK => Some(Request::Check(words::records(words, is_terminal))),
        records::DIGEST => Some(Request::Digest(words::records(words, is_terminal))),
        records::SAME => Some(Request::Same(
            words::records(words, is_terminal),
            words::likeness(words),
        )),
        records::NORMAL => Some(Request::Normal(words::one_record(words, is_terminal))),
        records::USI => Some(Request::Usi(words::one_record(words, is_terminal))),
        records::CSA => Some(Request::Csa(words::file(words))),
        records::ENGINE => Some(Request::Engine),
        serve::NAME => Some(Request::Serve(serve::service_of(words))),
        play::NAME => Some(Request::Play(play::plan_of(words, is_terminal))),
        _ => None,
    }
}
