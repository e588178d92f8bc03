//! What standard error shows: lines about files, what explains them, and how many files are done.

ghost use Rattle.std.specs.Prelude.{IfOk, None, string_bytes};
ghost use Rattle.archive_commands.specs.Explaining.{IsPlaceLine, IsReasonLine};

use crate::explain;
use crate::progress::FilesDone;
use csa_record::Refusal;
use shogi_board::OutOfMemory;
use std::io::Eprint;
use std::rt::Files;
use std::time::Clock;

/// What is shown on standard error beside a line about each file that is refused or cannot be read.
#[derive(Clone, Copy)]
pub struct Verbosity {
    /// Whether a second line about such a file has the statement at fault, or the system's reason.
    pub is_explained: bool,
    /// Whether progress is shown, in a line that is rewritten. Only for a terminal.
    pub shows_progress: bool,
    /// Where standard output goes.
    pub output: OutputPlace,
}

/// Where standard output goes, beside standard error.
#[derive(Clone, Copy)]
pub enum OutputPlace {
    /// Not to the same terminal.
    Elsewhere,
    /// To the same terminal, in lines. Progress is erased before each.
    Terminal,
    /// To the same terminal, without line ends. Progress is erased before more goes there. What
    /// standard error shows after that begins a line.
    TerminalWithoutLineEnds,
}

/// What takes the lines for standard error.
pub trait Notices {
    ghost use Rattle.std.specs.Prelude.{◌≡◌, ℕ, List, Option, IfOk, string_bytes};
    ghost use Rattle.std.specs.Io.KnownBytes.{Appends};
    ghost use Rattle.archive_commands.specs.Explaining.{IsPlaceLine, IsReasonLine};

    // The lines so far, if they are known.
    ghost shown: { Self → Option (List ℕ) };

    /// Takes lines, each with LF.
    fn show(&mut self, lines: &str)
        ensures { Appends (shown self.old) (shown self.new) lines.now };

    /// The line that explains a refusal, with LF, or nothing.
    ///
    /// Returns an error if an allocation fails.
    fn refusal_explained(&self, file: &str, refusal: &Refusal) -> Result<String, OutOfMemory>
        ensures { IfOk result (λ text. IsPlaceLine file.now (string_bytes text)) };

    /// The line that explains why a file cannot be read, with LF, or nothing.
    ///
    /// Returns an error if an allocation fails.
    fn read_fault_explained(&self, file: &str) -> Result<String, OutOfMemory>
        ensures { IfOk result (λ text. IsReasonLine file.now (string_bytes text)) };

    /// The line that explains that a file's name is not UTF-8, with LF, or nothing. `file` is the
    /// name with its bytes escaped.
    ///
    /// Returns an error if an allocation fails.
    fn name_explained(&self, file: &str) -> Result<String, OutOfMemory>
        ensures { IfOk result (λ text. IsReasonLine file.now (string_bytes text)) };

    /// Called before a line goes to standard output. Erases the line of progress if both would be
    /// on one terminal.
    fn make_way(&mut self)
        ensures { shown self.new ≡ shown self.old };

    /// Called after each file.
    fn file_done(&mut self)
        ensures { shown self.new ≡ shown self.old };

    /// Called after the last file. Erases the line of progress, and ends the line of standard
    /// output on the same terminal, if it has no end.
    fn finish(&mut self)
        ensures { shown self.new ≡ shown self.old };
}

/// Standard error. A line that cannot be written is dropped: the status says what happened.
#[derive(Drop)]
pub struct StandardError<'a, R> {
    rt: &'a R,
    is_explained: bool,
    output: OutputPlace,
    progress: FilesDone,
}

impl<'a, R: Clock + Eprint> StandardError<'a, R> {
    /// Standard error of that runtime, for so many files.
    pub(crate) fn new(rt: &'a R, verbosity: Verbosity, files: usize) -> StandardError<'a, R> {
        let progress = if verbosity.shows_progress {
            FilesDone::started(rt, files)
        } else {
            FilesDone::hidden()
        };
        StandardError {
            rt,
            is_explained: verbosity.is_explained,
            output: verbosity.output,
            progress,
        }
    }
}

impl<R: Files + Clock + Eprint + AllocGlobal> Notices for StandardError<'_, R> {
    ghost shown = { λ _. None };

    fn show(&mut self, lines: &str) {
        self.progress.erase(self.rt);
        self.progress.begin_line(self.rt);
        let _ = self.rt.eprint(format_args!("{lines}"));
    }

    fn refusal_explained(&self, file: &str, refusal: &Refusal) -> Result<String, OutOfMemory> {
        if !self.is_explained {
            return Ok(String::new(self.rt.alloc()));
        }
        explain::refusal(self.rt, file, refusal)
    }

    fn read_fault_explained(&self, file: &str) -> Result<String, OutOfMemory> {
        if !self.is_explained {
            return Ok(String::new(self.rt.alloc()));
        }
        explain::unreadable(self.rt, file)
    }

    fn name_explained(&self, file: &str) -> Result<String, OutOfMemory> {
        if !self.is_explained {
            return Ok(String::new(self.rt.alloc()));
        }
        explain::name_not_text(self.rt.alloc(), file)
    }

    fn make_way(&mut self) {
        match self.output {
            OutputPlace::Elsewhere => {}
            OutputPlace::Terminal => self.progress.erase(self.rt),
            OutputPlace::TerminalWithoutLineEnds => {
                self.progress.erase(self.rt);
                self.progress.leave_line();
            }
        }
    }

    fn file_done(&mut self) {
        self.progress.file_done(self.rt);
    }

    fn finish(&mut self) {
        self.progress.erase(self.rt);
        self.progress.begin_line(self.rt);
    }
}
