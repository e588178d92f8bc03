//! `shogi serve`: a CSA server on localhost, which plays one game with one client.

ghost use Rattle.std.specs.Prelude.{◌≡◌, ◌≤◌, IfOk, None, Some, codes};
ghost use Rattle.clap.specs.Words.{app_of, found_of, one_text};
ghost use Rattle.shogi_rules.specs.Positions as positions;
ghost use Rattle.shogi_words.specs.Options.{IsGiven};

use crate::words;
use clap::{Arg, ArgAction, ArgMatches, Command, value_parser};
use shogi_board::Color;
use shogi_rules::MAX_MOVES;
use std::alloc::{AllocError, Global};

/// Where a server listens, and which game it plays.
#[derive(Clone, Copy)]
pub struct Service {
    /// The port to listen on; 0 means any free port.
    pub port: u16,
    /// The client's side.
    pub client: Color,
    /// The greatest number of moves of the game, 1 to 10,000.
    pub max_moves: u32,
}

/// The command's word.
pub const NAME: &str = "serve";

// The greatest number of moves that a game may have.
pub(crate) const MOST_MOVES: u32 = MAX_MOVES as u32;

const USUAL_MOVES: u32 = 256;

/// The command, with `--port`, `--max` and `--white`. Returns an error if an allocation fails.
pub fn command<'a>(alloc: Global) -> Result<Command<'a>, AllocError>
    ensures name { IfOk result (λ c. (app_of c).top.name ≡ codes "serve") }
{
    words::named(
        alloc,
        NAME,
        "Plays one game with one client, as a CSA server on localhost",
        "Example: shogi serve --port 4081 --max 256",
    )
    .arg(
        Arg::new(alloc, "port")
            .long("port")
            .value_name("N")
            .help("The port to listen on, 0 to 65535; 0 is any free one [default: 0]")
            .value_parser(value_parser!(u16)),
    )?
    .arg(
        Arg::new(alloc, "max")
            .long("max")
            .value_name("N")
            .help("The game ends after so many moves, 1 to 10000 [default: 256]")
            .value_parser(value_parser!(u32).range(1..=MOST_MOVES as i64)),
    )?
    .arg(
        Arg::new(alloc, "white")
            .long("white")
            .help("The client has white")
            .action(ArgAction::SetTrue),
    )
}

/// The server that the words ask for.
pub fn service_of(matches: &ArgMatches<'_>) -> Service
    ensures black { one_text (found_of matches.now) (codes "white") ≡ Some (codes "false")
        → result.client ≡ Color.Black }
    ensures white { one_text (found_of matches.now) (codes "white") ≡ Some (codes "true")
        → result.client ≡ Color.White }
    ensures within { (1 ≤ result.max_moves) × (result.max_moves ≤ positions.max_moves) }
    ensures given { IsGiven (one_text (found_of matches.now) (codes "max"))
        1 positions.max_moves result.max_moves }
    ensures usual { one_text (found_of matches.now) (codes "max") ≡ None → result.max_moves ≡ 256 }
    ensures port { IsGiven (one_text (found_of matches.now) (codes "port")) 0 65535 result.port }
    ensures free { one_text (found_of matches.now) (codes "port") ≡ None → result.port ≡ 0 }
{
    Service {
        port: matches.get_one::<u16>("port").unwrap_or(0),
        client: client(matches),
        max_moves: max_moves(matches),
    }
}

// The client's side.
fn client(matches: &ArgMatches<'_>) -> Color
    ensures black { one_text (found_of matches.now) (codes "white") ≡ Some (codes "false")
        → result ≡ Color.Black }
    ensures white { one_text (found_of matches.now) (codes "white") ≡ Some (codes "true")
        → result ≡ Color.White }
{
    if matches.get_flag("white") {
        Color::White
    } else {
        Color::Black
    }
}

/// How many moves the game may have, 1 to 10,000; the command takes no other numbers.
pub fn max_moves(matches: &ArgMatches<'_>) -> u32
    ensures within { (1 ≤ result) × (result ≤ positions.max_moves) }
    ensures given { IsGiven (one_text (found_of matches.now) (codes "max"))
        1 positions.max_moves result }
    ensures usual { one_text (found_of matches.now) (codes "max") ≡ None → result ≡ 256 }
{
    match matches.get_one::<u32>("max") {
        Some(moves) => moves.clamp(1, MOST_MOVES),
        None => USUAL_MOVES,
    }
}
