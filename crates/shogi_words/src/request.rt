//! What a command line asks for.

use crate::play::Plan;
use crate::serve::Service;
use hash_comments::HashLines;
use record_game::Likeness;

/// A command and what its words say.
#[derive(Clone, Copy)]
pub enum Request<'m, 'a> {
    /// `check`: whether the CSA record in each FILE is accepted, its number of moves, and the state
    /// of the game.
    Check(Records<'m, 'a>),
    /// `digest`: the SHA-256 of the canonical text of the CSA record in each FILE.
    Digest(Records<'m, 'a>),
    /// `same`: which of the CSA records are the same.
    Same(Records<'m, 'a>, Likeness),
    /// `normal`: the canonical text of the CSA record in FILE.
    Normal(OneRecord<'a>),
    /// `usi`: the USI position line of the CSA record in FILE.
    Usi(OneRecord<'a>),
    /// `csa`: the canonical CSA text of the USI position line in FILE, if a FILE is named.
    Csa(Option<&'a str>),
    /// `engine`: a USI engine on standard input and output.
    Engine,
    /// `serve`: a CSA server on localhost for one game.
    Serve(Service),
    /// `play`: a game of a USI engine on a CSA server.
    Play(Plan<'m, 'a>),
}

/// Which records a command is asked about, and how they are read.
#[derive(Clone, Copy)]
pub struct Records<'m, 'a> {
    /// The FILEs, in order. If there are none and there is no list, standard input is read.
    pub files: &'m [&'a str],
    /// LIST, a file with the paths of more files, which follow those. `-` is standard input.
    pub list: Option<&'a str>,
    /// How each path ends, in LIST and where it is printed.
    pub path_end: PathEnd,
    /// How a line that begins with `#` is read.
    pub hash_lines: HashLines,
    /// Whether a refusal is explained: `--explain` was given, or standard error is a terminal.
    pub is_explained: bool,
    /// Whether progress is shown: standard error is a terminal, and `--quiet` was not given.
    pub shows_progress: bool,
}

/// The one record that a command reads, and how it is read.
#[derive(Clone, Copy)]
pub struct OneRecord<'a> {
    /// FILE; None or `-` is standard input.
    pub file: Option<&'a str>,
    /// How a line that begins with `#` is read.
    pub hash_lines: HashLines,
    /// Whether a refusal is explained: `--explain` was given, or standard error is a terminal.
    pub is_explained: bool,
}

/// How each path ends, in a list and where it is printed.
#[derive(Clone, Copy, PartialEq, Eq)]
pub enum PathEnd {
    /// With its line; or with a colon and a blank, if more is said of it there.
    Line,
    /// With a NUL byte.
    Nul,
}
