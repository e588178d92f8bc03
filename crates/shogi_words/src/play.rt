//! `shogi play`: a USI engine plays one game on a CSA server, and the game's record is kept.

ghost use Rattle.std.specs.Prelude.{◌≡◌, ◌≢◌, ◌≤◌, ◌*◌, ℕ, List, IfOk, None, Some, codes, false, map, option_map, true};
ghost use Rattle.clap.specs.Words.{app_of, first_value, found_of, one_text};
ghost use Rattle.shogi_rules.specs.Positions as positions;
ghost use Rattle.shogi_words.specs.Options.{AreGivenSeconds, IsGiven, values_of};
ghost use Rattle.shogi_words.specs.Plans.{address_of, most_moves_of, password_file, program_of};

use crate::{serve, words};
use clap::{Arg, ArgAction, ArgMatches, Command, value_parser};
use std::alloc::{AllocError, Global};

/// Which engine plays a game on which server, with which clocks, and where its record goes.
#[derive(Clone, Copy)]
pub struct Plan<'m, 'a> {
    /// The server.
    pub server: ServerChoice<'a>,
    /// The USI engine to start.
    pub engine: &'a str,
    /// The words of the engine, in order.
    pub engine_words: &'m [&'a str],
    /// The name to log in with. Whether a server can take it is not checked yet.
    pub name: &'a str,
    /// Where the password to log in with is.
    pub password: PasswordSource<'a>,
    /// Each side's time for the whole game, in milliseconds, as the engine gets it.
    pub total_ms: u32,
    /// The time for each move once that is used up, in milliseconds, as the engine gets it.
    pub byoyomi_ms: u32,
    /// The file to write the record to.
    pub out: &'a str,
    /// The file to log each line to as it passes, if there is one. `-` is standard error.
    pub log: Option<&'a str>,
    /// Whether moves are shown on standard error.
    pub is_shown: bool,
}

/// The CSA server of a game.
#[derive(Clone, Copy)]
pub enum ServerChoice<'a> {
    /// One to start, with the words `serve --port 0 --max N`.
    Started {
        /// The program.
        program: &'a str,
        /// N, the greatest number of moves of the server's game, 1 to 10,000.
        max_moves: u32,
    },
    /// One that runs already, at this address: `HOST:PORT`.
    At(&'a str),
}

/// Where a password is.
#[derive(Clone, Copy)]
pub enum PasswordSource<'a> {
    /// On the first line of this file.
    File(&'a str),
    /// In the environment.
    Variable,
}

/// The command's word.
pub const NAME: &str = "play";

// The words that have to be there.
const USAGE: &str = "shogi play --engine <PROGRAM> (--server <PROGRAM> | --connect <HOST:PORT>) \
    --out <FILE> [OPTIONS]";

// The most seconds whose milliseconds a `u32` holds.
const MOST_SECONDS: u32 = 4_294_967;

const USUAL_NAME: &str = "bridge";

const USUAL_TOTAL: u32 = 600;

const USUAL_BYOYOMI: u32 = 10;

/// The command, with its engine and server and the file to write. Returns an error if an allocation
/// fails.
pub fn command<'a>(alloc: Global) -> Result<Command<'a>, AllocError>
    ensures name { IfOk result (λ c. (app_of c).top.name ≡ codes "play") }
{
    words::named(
        alloc,
        NAME,
        "Plays one game, an engine against a server, and writes its record",
        "Example: shogi play --engine my_engine --server shogi --out game.csa",
    )
    .override_usage(USAGE)
    .arg(program(alloc, "engine", "The USI engine to start").required(true))?
    .arg(engine_arg(alloc))?
    .arg(server(alloc)?)?
    .arg(connect(alloc)?)?
    .arg(max(alloc)?)?
    .arg(name(alloc))?
    .arg(password_file(alloc))?
    .arg(seconds(
        alloc,
        "total",
        "The engine's clock: the time of each side for the game, 0 to 4294967 [default: 600]",
    ))?
    .arg(seconds(
        alloc,
        "byoyomi",
        "The engine's clock: the time for each move after that, 0 to 4294967 [default: 10]",
    ))?
    .arg(log(alloc))?
    .arg(quiet(alloc))?
    .arg(out(alloc))
}

fn program<'a>(alloc: Global, name: &'a str, help: &'a str) -> Arg<'a> {
    Arg::new(alloc, name)
        .long(name)
        .value_name("PROGRAM")
        .help(help)
}

fn engine_arg<'a>(alloc: Global) -> Arg<'a> {
    Arg::new(alloc, "engine-arg")
        .long("engine-arg")
        .value_name("WORD")
        .help("A word that the engine is started with; may be repeated")
        .allow_hyphen_values(true)
        .action(ArgAction::Append)
}

fn server<'a>(alloc: Global) -> Result<Arg<'a>, AllocError> {
    program(
        alloc,
        "server",
        "The CSA server to start, with the words: serve --port 0 --max N",
    )
    .required_unless_present("connect")
}

fn connect<'a>(alloc: Global) -> Result<Arg<'a>, AllocError> {
    Arg::new(alloc, "connect")
        .long("connect")
        .value_name("HOST:PORT")
        .help("The address of a CSA server that runs already, in place of --server")
        .conflicts_with("server")
}

fn max<'a>(alloc: Global) -> Result<Arg<'a>, AllocError> {
    Arg::new(alloc, "max")
        .long("max")
        .value_name("N")
        .help("The game of --server ends after so many moves, 1 to 10000 [default: 256]")
        .value_parser(value_parser!(u32).range(1..=serve::MOST_MOVES as i64))
        .conflicts_with("connect")
}

fn name<'a>(alloc: Global) -> Arg<'a> {
    Arg::new(alloc, "name")
        .long("name")
        .value_name("NAME")
        .help("The name to log in with [default: bridge]")
}

fn password_file<'a>(alloc: Global) -> Arg<'a> {
    Arg::new(alloc, "password-file")
        .long("password-file")
        .value_name("FILE")
        .help("The file with the password [default: SHOGI_PASSWORD of the environment, or pw]")
}

fn log<'a>(alloc: Global) -> Arg<'a> {
    Arg::new(alloc, "log").long("log").value_name("FILE").help(
        "The file that each line is logged to as it passes; what the engine and a server that is \
        started say on standard error goes to FILE.engine and FILE.server; - is standard error \
        for all",
    )
}

fn quiet<'a>(alloc: Global) -> Arg<'a> {
    Arg::new(alloc, "quiet")
        .long("quiet")
        .help("Shows no moves; they are shown only where standard error is a terminal")
        .action(ArgAction::SetTrue)
}

fn out<'a>(alloc: Global) -> Arg<'a> {
    Arg::new(alloc, "out")
        .long("out")
        .value_name("FILE")
        .help("The file that the record is written to")
        .required(true)
}

fn seconds<'a>(alloc: Global, name: &'a str, help: &'a str) -> Arg<'a> {
    Arg::new(alloc, name)
        .long(name)
        .value_name("SECONDS")
        .help(help)
        .value_parser(value_parser!(u32).range(0..=MOST_SECONDS as i64))
}

/// The game that the words ask for. Moves are shown if standard error is a terminal, the words do
/// not contain `--quiet`, and the log, which has them too, does not go to standard error.
pub fn plan_of<'m, 'a>(matches: &'m ArgMatches<'a>, is_terminal: bool) -> Plan<'m, 'a>
    ensures connect { address_of result.server
        ≡ first_value (found_of matches.now) (codes "connect") }
    ensures server { (text : List ℕ)
        → first_value (found_of matches.now) (codes "connect") ≡ None
        → first_value (found_of matches.now) (codes "server") ≡ Some text
        → program_of result.server ≡ Some text }
    ensures given { (n : ℕ) → most_moves_of result.server ≡ Some n
        → IsGiven (one_text (found_of matches.now) (codes "max")) 1 positions.max_moves n }
    ensures usual { (n : ℕ) → most_moves_of result.server ≡ Some n
        → one_text (found_of matches.now) (codes "max") ≡ None → n ≡ 256 }
    ensures engine { (text : List ℕ)
        → first_value (found_of matches.now) (codes "engine") ≡ Some text
        → result.engine.now ≡ text }
    ensures words { map (λ s. s.now) result.engine_words.now
        ≡ values_of (found_of matches.now) (codes "engine-arg") }
    ensures name { (text : List ℕ) → first_value (found_of matches.now) (codes "name") ≡ Some text
        → result.name.now ≡ text }
    ensures usual_name { first_value (found_of matches.now) (codes "name") ≡ None
        → result.name.now ≡ codes "bridge" }
    ensures password { password_file result.password
        ≡ first_value (found_of matches.now) (codes "password-file") }
    ensures total { AreGivenSeconds (one_text (found_of matches.now) (codes "total"))
        4294967 result.total_ms }
    ensures usual_total { one_text (found_of matches.now) (codes "total") ≡ None
        → result.total_ms ≡ 600000 }
    ensures byoyomi { AreGivenSeconds (one_text (found_of matches.now) (codes "byoyomi"))
        4294967 result.byoyomi_ms }
    ensures usual_byoyomi { one_text (found_of matches.now) (codes "byoyomi") ≡ None
        → result.byoyomi_ms ≡ 10000 }
    ensures out { (text : List ℕ) → first_value (found_of matches.now) (codes "out") ≡ Some text
        → result.out.now ≡ text }
    ensures log { option_map (λ s. s.now) result.log
        ≡ first_value (found_of matches.now) (codes "log") }
    ensures quiet { one_text (found_of matches.now) (codes "quiet") ≡ Some (codes "true")
        → result.is_shown ≡ false }
    ensures logged { first_value (found_of matches.now) (codes "log") ≡ Some (codes "-")
        → result.is_shown ≡ false }
    ensures shown { one_text (found_of matches.now) (codes "quiet") ≡ Some (codes "false")
        → first_value (found_of matches.now) (codes "log") ≢ Some (codes "-")
        → result.is_shown ≡ is_terminal }
    ensures terminal { is_terminal ≡ false → result.is_shown ≡ false }
{
    Plan {
        server: server_of(matches),
        engine: matches.get_str("engine").unwrap_or_default(),
        engine_words: matches.get_strs("engine-arg").unwrap_or_default(),
        name: matches.get_str("name").unwrap_or(USUAL_NAME),
        password: password_of(matches),
        total_ms: milliseconds(matches, "total", USUAL_TOTAL),
        byoyomi_ms: milliseconds(matches, "byoyomi", USUAL_BYOYOMI),
        out: matches.get_str("out").unwrap_or_default(),
        log: matches.get_str("log"),
        is_shown: is_shown(matches, is_terminal),
    }
}

// Whether moves are shown, if standard error is a terminal or not.
fn is_shown(matches: &ArgMatches<'_>, is_terminal: bool) -> bool
    ensures quiet { one_text (found_of matches.now) (codes "quiet") ≡ Some (codes "true")
        → result ≡ false }
    ensures logged { first_value (found_of matches.now) (codes "log") ≡ Some (codes "-")
        → result ≡ false }
    ensures shown { one_text (found_of matches.now) (codes "quiet") ≡ Some (codes "false")
        → first_value (found_of matches.now) (codes "log") ≢ Some (codes "-")
        → result ≡ is_terminal }
    ensures terminal { is_terminal ≡ false → result ≡ false }
{
    match matches.get_str("log") {
        Some("-") => false,
        _ => is_terminal && !matches.get_flag("quiet"),
    }
}

// The server that runs at the address of `--connect`, or else the program of `--server`.
fn server_of<'a>(matches: &ArgMatches<'a>) -> ServerChoice<'a>
    ensures connect { address_of result ≡ first_value (found_of matches.now) (codes "connect") }
    ensures server { (text : List ℕ)
        → first_value (found_of matches.now) (codes "connect") ≡ None
        → first_value (found_of matches.now) (codes "server") ≡ Some text
        → program_of result ≡ Some text }
    ensures given { (n : ℕ) → most_moves_of result ≡ Some n
        → IsGiven (one_text (found_of matches.now) (codes "max")) 1 positions.max_moves n }
    ensures usual { (n : ℕ) → most_moves_of result ≡ Some n
        → one_text (found_of matches.now) (codes "max") ≡ None → n ≡ 256 }
{
    match matches.get_str("connect") {
        Some(address) => ServerChoice::At(address),
        None => ServerChoice::Started {
            program: matches.get_str("server").unwrap_or_default(),
            max_moves: serve::max_moves(matches),
        },
    }
}

// The file of `--password-file`, or else the environment.
fn password_of<'a>(matches: &ArgMatches<'a>) -> PasswordSource<'a>
    ensures { password_file result ≡ first_value (found_of matches.now) (codes "password-file") }
{
    match matches.get_str("password-file") {
        Some(path) => PasswordSource::File(path),
        None => PasswordSource::Variable,
    }
}

// The seconds of the option, or the usual ones, in milliseconds. The command takes no more than
// `MOST_SECONDS`.
fn milliseconds(matches: &ArgMatches<'_>, name: &str, usual: u32) -> u32
    requires { usual ≤ 4294967 }
    ensures given { AreGivenSeconds (one_text (found_of matches.now) name.now) 4294967 result }
    ensures usual { one_text (found_of matches.now) name.now ≡ None → result ≡ usual * 1000 }
{
    let seconds = match matches.get_one::<u32>(name) {
        Some(seconds) => seconds.min(MOST_SECONDS),
        None => usual,
    };
    seconds * 1000
}
