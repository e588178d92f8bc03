//! How many of the files are done: a line on a terminal that is rewritten as they are.

use std::fmt;
use std::io::Eprint;
use std::time::{Clock, Duration, Instant};

// The least time between two writings of the line, in milliseconds.
const PAUSE: u128 = 100;

/// The number of files that are done, and the line that shows it.
#[derive(Drop)]
pub(crate) struct FilesDone {
    all: usize,
    done: usize,
    // When the first file was begun. None if the line is never shown.
    start: Option<Instant>,
    // How long after the start the line was last written.
    written: Duration,
    // Whether the line is on the terminal now.
    is_shown: bool,
    // Whether the terminal's last line is one of standard output without its end.
    needs_line: bool,
}

impl FilesDone {
    /// Shows nothing.
    pub(crate) fn hidden() -> FilesDone {
        FilesDone {
            all: 0,
            done: 0,
            start: None,
            written: Duration::ZERO,
            is_shown: false,
            needs_line: false,
        }
    }

    /// Shows how many of so many files are done, from now on. Shows nothing if the clock fails.
    pub(crate) fn started<R: Clock>(rt: &R, all: usize) -> FilesDone {
        FilesDone {
            all,
            start: Instant::now(rt).ok(),
            ..FilesDone::hidden()
        }
    }

    /// Counts one more file, and writes the line anew if it was last written a tenth of a second
    /// ago or earlier.
    pub(crate) fn file_done<R: Clock + Eprint>(&mut self, rt: &R) {
        self.done = self.done.saturating_add(1);
        let Some(start) = &self.start else {
            return;
        };
        let Ok(elapsed) = start.elapsed(rt) else {
            return;
        };
        if elapsed.saturating_sub(self.written).as_millis() < PAUSE {
            return;
        }
        self.written = elapsed;
        self.is_shown = true;
        let line = ProgressLine {
            all: self.all,
            done: self.done,
            elapsed,
        };
        self.begin_line(rt);
        let _ = rt.eprint(format_args!("\r{line}\x1b[K"));
    }

    /// Leaves the terminal's last line to standard output, which does not end it.
    pub(crate) fn leave_line(&mut self) {
        self.needs_line = true;
    }

    /// Begins a line, if the last one was left to standard output.
    pub(crate) fn begin_line<R: Eprint>(&mut self, rt: &R) {
        if self.needs_line {
            let _ = rt.eprint("\n");
            self.needs_line = false;
        }
    }

    /// Takes the line off the terminal, if it is there.
    pub(crate) fn erase<R: Eprint>(&mut self, rt: &R) {
        if self.is_shown {
            let _ = rt.eprint("\r\x1b[K");
            self.is_shown = false;
        }
    }
}

/// How many of the files were done, and in how much time.
#[derive(Clone, Copy, Drop)]
pub(crate) struct ProgressLine {
    /// How many files there are.
    pub all: usize,
    /// How many are done.
    pub done: usize,
    /// The time that they took.
    pub elapsed: Duration,
}

impl fmt::Display for ProgressLine {
    fn fmt<W: fmt::Write>(&self, f: &mut fmt::Formatter<W>) -> fmt::Result {
        let all = self.all;
        let done = self.done;
        let millis = self.elapsed.as_millis().max(1);
        let speed = (done as u128 * 1000) / millis;
        let files_left = all.saturating_sub(done) as u128;
        let seconds = files_left.saturating_mul(millis) / (done.max(1) as u128 * 1000);
        write!(
            f,
            "{done} of {all} files, {speed} a second, {}:{:02} left",
            seconds / 60,
            seconds % 60
        )
    }
}
