//! What is read of a runtime: variables of its environment, files, and what is known of files.
//!
//! A function that has a runtime by these bounds alone writes no file and starts nothing.

ghost use Rattle.std.specs.Prelude.{IfErr, IfOk, string_bytes};

use std::env::{self, VarError};
use std::fs::{self, Metadata};
use std::io::{self, Read};
use std::rt::{Env, Files};

/// Reads variables of an environment.
pub trait Variables {
    ghost use Rattle.std.specs.Prelude.{ℕ, List};
    ghost use Rattle.std.specs.declared.env.VarError.{VarError as Lack};

    // The variable of that name has this text.
    ghost has: { Self → List ℕ → List ℕ → Type 0 };

    // The variable of that name gives no text, for this reason.
    ghost lacks: { Self → List ℕ → Lack → Type 0 };

    /// The text of the variable of that name.
    ///
    /// Refuses `NotPresent` if it is not set, `NotUnicode` if it is not UTF-8, and `OutOfMemory`.
    fn variable_text(&self, name: &str) -> Result<String, VarError>
        ensures has { IfOk result (λ text. has self.now name.now (string_bytes text)) }
        ensures lacks { IfErr result (lacks self.now name.now) };
}

// No contract can say what the environment has.
impl<R: Env + AllocGlobal> Variables for R {
    ghost use Rattle.std.specs.Prelude.{⊤};

    ghost has = { λ rt name text. ⊤ };

    ghost lacks = { λ rt name why. ⊤ };

    fn variable_text(&self, name: &str) -> Result<String, VarError> {
        env::var(self, name)
    }
}

/// Opens files to be read.
pub trait OpensFiles {
    ghost use Rattle.std.specs.Prelude.{ℕ, List};

    /// A file that is read.
    type Opened: Read + Drop;

    // This is the file at that path, to be read from its start.
    ghost opens: { Self → List ℕ → Self.Opened → Type 0 };

    // The file at that path cannot be opened.
    ghost opens_not: { Self → List ℕ → Type 0 };

    /// Opens the file at that path.
    fn open_file(&self, path: &str) -> io::Result<Self::Opened>
        ensures opens { IfOk result (opens self.now path.now) }
        ensures opens_not { IfErr result (λ error. opens_not self.now path.now) };
}

// No contract can say what a file has.
impl<R: Files> OpensFiles for R {
    ghost use Rattle.std.specs.Prelude.{⊤};

    type Opened = R::File;

    ghost opens = { λ rt path file. ⊤ };

    ghost opens_not = { λ rt path. ⊤ };

    fn open_file(&self, path: &str) -> io::Result<R::File> {
        fs::open(self, path)
    }
}

/// Reports what files there are, but not what is in them.
pub trait SeesFiles {
    /// What is known of the file at that path.
    fn metadata_at(&self, path: &str) -> io::Result<Metadata>;

    /// Opens the file at that path and reads a byte of it, which is not kept.
    fn try_reading(&self, path: &str) -> io::Result<()>;
}

impl<R: Files> SeesFiles for R {
    fn metadata_at(&self, path: &str) -> io::Result<Metadata> {
        fs::metadata(self, path)
    }

    fn try_reading(&self, path: &str) -> io::Result<()> {
        let mut file = fs::open(self, path)?;
        let mut byte = [0u8; 1];
        file.read(&mut byte)?;
        Ok(())
    }
}
