//! The program `shogi`: reads its command line and runs the command that this asks for.
//!
//! `shogi_words` says what a command line means; `record_commands`, `archive_commands` and
//! `session_commands` do it; and [`stop`] has the status and the line on standard error for each
//! fault.
//!
//! ```text
//! $ shogi check game.csa
//! accepted 2 ongoing
//! ```
#![tactic(auto)]

ghost use Rattle.std.specs.Prelude.{◌≡◌, ◌≤◌};
ghost use Rattle.shogi_rules.specs.Positions as positions;

mod requests;
mod stop;
mod usage;

use crate::requests::Terminals;
use crate::stop::Stop;
use clap::error::ErrorKind;
use shogi_words::{Request, Service};
use std::fs::File;
use std::io::IsTerminal;
use std::net::{Net, TcpListener, TcpStream};
use std::process::{ExitCode, Processes};
use std::rt::{Env, Files};
use std::time::Clock;

fn main(rt: HostRuntime) -> ExitCode {
    let terminals = Terminals {
        output: rt.stdout().is_terminal(),
        error: rt.stderr().is_terminal(),
    };
    match run(&rt, terminals) {
        Ok(status) => status,
        Err(stop) => {
            // The status says what happened, even if standard error is closed.
            let _ = rt.eprintln(&stop);
            ExitCode::from(stop.status())
        }
    }
}

// Reads the command line and does what it asks for. The status is that of a run without a fault.
fn run<
    R: Env
        + Files<File = File>
        + Input
        + Net<Listener = TcpListener, Stream = TcpStream>
        + Processes
        + Clock
        + Print
        + Eprint
        + AllocGlobal,
>(rt: &R, terminals: Terminals) -> Result<ExitCode, Stop> {
    let line = usage::command_line(rt)?;
    let Ok(commands) = shogi_words::all(rt.alloc()) else {
        return Err(Stop::OutOfMemory);
    };
    match commands.try_get_matches_from(line.words.as_slice()) {
        Ok(matches) => {
            let request = requests::requested(&matches, terminals.error)?;
            if line.may_be_option || !requests::are_files(&request, line.not_text.len()) {
                return Err(Stop::WordsNotText);
            }
            Ok(answer(rt, &request, line.not_text.as_slice(), terminals))
        }
        Err(error) if line.not_text.is_empty() || error.kind() == ErrorKind::OutOfMemory => {
            Ok(usage::answer(rt, &error)?)
        }
        Err(_) => Err(Stop::WordsNotText),
    }
}

// Does what is asked for, and reports a fault on standard error. The status says what happened,
// even if standard error is closed.
fn answer<
    R: Env
        + Files<File = File>
        + Input
        + Net<Listener = TcpListener, Stream = TcpStream>
        + Processes
        + Clock
        + Print
        + Eprint
        + AllocGlobal,
>(rt: &R, request: &Request<'_, '_>, names: &[Vec<u8>], terminals: Terminals) -> ExitCode
    requires moves { (s : Service)
        → request.now ≡ Request.Serve s → (1 ≤ s.max_moves) × (s.max_moves ≤ positions.max_moves) }
{
    match requests::meet(rt, request, names, terminals) {
        Ok(()) => ExitCode::SUCCESS,
        Err(stop) => {
            let _ = rt.eprintln(&stop);
            if let Ok(line) = requests::explanation(rt, request, &stop, terminals.error) {
                let _ = rt.eprint(format_args!("{line}"));
            }
            ExitCode::from(stop.status())
        }
    }
}
