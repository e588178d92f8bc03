//! What ends the program early: its status, and its line on standard error.

ghost use Rattle.std.specs.Prelude.{◌≡◌};
ghost use Rattle.shogi.specs.Stops.{stop_line, status_of, stop_of_line, stop_of_play, stop_of_record, stop_of_serve, stop_of_talk};

use archive_commands::Tally;
use bridge_table::SessionFault;
use csa_record::{FlowFault, Refusal};
use record_commands::PositionLineFault;
use session_setup::{LoginFault, MatchFault, PlanFault, PlayCommandFault, ServeFault, TalkFault};
use std::fmt;
use usi_text::UsiFault;

/// Why the program did not do what it was asked for.
#[derive(Clone, Copy)]
pub enum Stop {
    /// A word of the command line is not UTF-8.
    WordsNotText,
    /// The command line named a command that does not exist.
    UnknownCommand,
    /// The words of `play` do not go together.
    Plan(PlanFault),
    /// The name of `play` is not 1 to 32 bytes from 0x21 to 0x7E.
    BadName,
    /// The password of `play` is not 1 to 32 bytes from 0x21 to 0x7E.
    BadPassword,
    /// The record was refused.
    Refused(Refusal),
    /// Of several records, some were refused or could not be read.
    NotAll(Tally),
    /// The position line was refused.
    LineRefused(UsiFault),
    /// A line has more than 65,536 bytes.
    LineTooLong,
    /// A file or a stream could not be read, or there is no socket to listen on.
    Read,
    /// Not all could be written to a file or a stream.
    Write,
    /// The client of `serve` ended before the session was over.
    ClientGone,
    /// A line of the client of `serve` has more than 65,536 bytes.
    ClientLineTooLong,
    /// The session of `play` failed.
    Session(SessionFault),
    /// An allocation failed.
    OutOfMemory,
}

/// The status of a usage fault.
pub const USAGE: u8 = 2;

impl Stop {
    /// The status that the program ends with.
    pub fn status(&self) -> u8
        ensures value { result ≡ status_of self.now }
    {
        match self {
            Stop::Refused(_) | Stop::LineRefused(_) | Stop::LineTooLong => 1,
            Stop::WordsNotText
            | Stop::UnknownCommand
            | Stop::Plan(_)
            | Stop::BadName
            | Stop::BadPassword => USAGE,
            Stop::Read | Stop::Write => 3,
            Stop::NotAll(tally) => { if tally.unreadable > 0 { 3 } else { 1 } }
            Stop::ClientGone | Stop::ClientLineTooLong | Stop::Session(_) => 4,
            Stop::OutOfMemory => 5,
        }
    }
}

// The line on standard error, without its line end.
impl fmt::Display for Stop {
    ghost output = { stop_line };

    fn fmt<W: fmt::Write>(&self, f: &mut fmt::Formatter<W>) -> fmt::Result {
        match self {
            Stop::WordsNotText => f.write_str("error: a word of the command line is not UTF-8"),
            Stop::UnknownCommand => f.write_str("error: there is no such command"),
            Stop::Plan(fault) => write!(f, "error: {fault}"),
            Stop::BadName => f.write_str("error: the name must be 1 to 32 bytes from 0x21 to 0x7E"),
            Stop::BadPassword => {
                f.write_str("error: the password must be 1 to 32 bytes from 0x21 to 0x7E")
            }
            Stop::Refused(refusal) => write!(f, "refused: {refusal}"),
            Stop::NotAll(tally) => write!(f, "{tally}"),
            Stop::LineRefused(UsiFault::BadMoveText(number)) => write!(
                f,
                "refused: move {number}: U6 BadMoveText"
            ),
            Stop::LineRefused(UsiFault::Broken(number, rule)) => write!(
                f,
                "refused: move {number}: {rule}"
            ),
            Stop::LineRefused(fault) => write!(f, "refused: {fault}"),
            Stop::LineTooLong => f.write_str("refused: line too long"),
            Stop::Read => f.write_str("read fault"),
            Stop::Write => f.write_str("write fault"),
            Stop::ClientGone => f.write_str("fault: client gone"),
            Stop::ClientLineTooLong => f.write_str("fault: B7 LineTooLong"),
            Stop::Session(fault) => write!(f, "fault: {fault}"),
            Stop::OutOfMemory => f.write_str("out of memory"),
        }
    }
}

impl From<FlowFault> for Stop {
    ghost from_gives = { λ fault stop. stop ≡ stop_of_record fault };

    fn from(fault: FlowFault) -> Stop {
        match fault {
            FlowFault::Refused(refusal) => Stop::Refused(refusal),
            FlowFault::ReadFault => Stop::Read,
            FlowFault::WriteFault => Stop::Write,
            FlowFault::OutOfMemory => Stop::OutOfMemory,
        }
    }
}

impl From<PositionLineFault> for Stop {
    ghost from_gives = { λ fault stop. stop ≡ stop_of_line fault };

    fn from(fault: PositionLineFault) -> Stop {
        match fault {
            PositionLineFault::Refused(why) => Stop::LineRefused(why),
            PositionLineFault::TooLong => Stop::LineTooLong,
            PositionLineFault::Read => Stop::Read,
            PositionLineFault::Write => Stop::Write,
            PositionLineFault::OutOfMemory => Stop::OutOfMemory,
        }
    }
}

impl From<TalkFault> for Stop {
    ghost from_gives = { λ fault stop. stop ≡ stop_of_talk fault };

    fn from(fault: TalkFault) -> Stop {
        match fault {
            TalkFault::LineTooLong => Stop::LineTooLong,
            TalkFault::Read => Stop::Read,
            TalkFault::Write => Stop::Write,
            TalkFault::OutOfMemory => Stop::OutOfMemory,
        }
    }
}

impl From<ServeFault> for Stop {
    ghost from_gives = { λ fault stop. stop ≡ stop_of_serve fault };

    fn from(fault: ServeFault) -> Stop {
        match fault {
            ServeFault::ClientGone => Stop::ClientGone,
            ServeFault::Talk(TalkFault::LineTooLong) => Stop::ClientLineTooLong,
            ServeFault::Talk(TalkFault::Read) => Stop::Read,
            ServeFault::Talk(TalkFault::Write) => Stop::Write,
            ServeFault::Talk(TalkFault::OutOfMemory) => Stop::OutOfMemory,
        }
    }
}

impl From<PlayCommandFault> for Stop {
    ghost from_gives = { λ fault stop. stop ≡ stop_of_play fault };

    fn from(fault: PlayCommandFault) -> Stop {
        match fault {
            PlayCommandFault::Plan(why) => Stop::Plan(why),
            PlayCommandFault::Login(LoginFault::BadName) => Stop::BadName,
            PlayCommandFault::Login(LoginFault::BadPassword) => Stop::BadPassword,
            PlayCommandFault::Login(LoginFault::Read) => Stop::Read,
            PlayCommandFault::Login(LoginFault::OutOfMemory) => Stop::OutOfMemory,
            PlayCommandFault::Match(MatchFault::Session(why)) => Stop::Session(why),
            PlayCommandFault::Match(MatchFault::Endless) => Stop::Read,
            PlayCommandFault::Match(MatchFault::Write) => Stop::Write,
            PlayCommandFault::Match(MatchFault::OutOfMemory) => Stop::OutOfMemory,
        }
    }
}
