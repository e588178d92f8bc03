//! Why a plan of `play` cannot be carried out, in the words of its options.

ghost use Rattle.std.specs.Prelude.{Some};
ghost use Rattle.session_setup.specs.Plans.{needed_option, plan_text, written_option};

use std::fmt;

/// A file that is written.
#[derive(Clone, Copy, Debug, PartialEq, Eq)]
pub enum Written {
    /// The log, or a file beside it.
    Log,
    /// The record.
    Record,
}

// The option that names it.
impl fmt::Display for Written {
    ghost output = { λ it. Some (written_option it) };

    fn fmt<W: fmt::Write>(&self, f: &mut fmt::Formatter<W>) -> fmt::Result {
        match self {
            Written::Log => f.write_str("--log"),
            Written::Record => f.write_str("--out"),
        }
    }
}

/// A file that is needed, and has to stay as it is.
#[derive(Clone, Copy, Debug, PartialEq, Eq)]
pub enum Needed {
    /// The program of the engine.
    Engine,
    /// The program of the server that is to be started.
    Server,
    /// The file with the password.
    PasswordFile,
}

// The option that names it.
impl fmt::Display for Needed {
    ghost output = { λ it. Some (needed_option it) };

    fn fmt<W: fmt::Write>(&self, f: &mut fmt::Formatter<W>) -> fmt::Result {
        match self {
            Needed::Engine => f.write_str("--engine"),
            Needed::Server => f.write_str("--server"),
            Needed::PasswordFile => f.write_str("--password-file"),
        }
    }
}

/// Why a plan of `play` cannot be carried out.
#[derive(Clone, Copy, Debug, PartialEq, Eq)]
pub enum PlanFault {
    /// The log, or a file beside it, would be written where the record is.
    LogIsRecord,
    /// Of the log and the files beside it, two would be one file.
    LogIsOneFile,
    /// The first would be written where the second is.
    Overwrites(Written, Needed),
    /// The server's address has no host or no port.
    NoPort,
}

impl fmt::Display for PlanFault {
    ghost output = { λ it. Some (plan_text it) };

    fn fmt<W: fmt::Write>(&self, f: &mut fmt::Formatter<W>) -> fmt::Result {
        match self {
            PlanFault::LogIsRecord => f.write_str("--log and --out must name different files"),
            PlanFault::LogIsOneFile => f.write_str("the files of --log must be different"),
            PlanFault::Overwrites(written, needed) => {
                write!(f, "{written} and {needed} must name different files")
            }
            PlanFault::NoPort => f.write_str("--connect must be HOST:PORT, as localhost:4081"),
        }
    }
}
