//! What is at a path, and what can be done there.

ghost use Rattle.std.specs.Prelude.{◌≡◌, IfErr, IfOk, is_ok, string_bytes};
ghost use Rattle.session_setup.specs.Disk.{creates, opens, permits, removes, renames, syncs, writes};
ghost use Rattle.session_setup.specs.Faults.{IsFileFault};

use crate::fault::{MatchFault, memory_or};
use record_commands::{WriteFault, streams};
use std::fs::{self, File, OpenFile, Permissions};
use std::io::{self, ErrorKind};
use std::os::unix::fs::PermissionsExt;
use std::rt::Files;

/// What is at a path.
#[derive(Clone, Copy)]
pub enum Found {
    /// A regular file with these permissions.
    File(u32),
    /// A link to a regular file with these permissions.
    Link(u32),
    /// What cannot become a file: a folder, or a link to one. Nor can an empty path.
    NoFile,
    /// A device or a pipe, or a link to one or to nothing.
    Other,
    /// Nothing.
    Nothing,
}

/// Why a new file was not created.
#[derive(Clone, Copy, Debug, PartialEq, Eq)]
pub enum CreateFault {
    /// Something is at its path.
    Taken,
    /// It cannot be created there.
    Failed,
}

/// Files by their paths. In contracts each act is a step from one state to the next, whether it is
/// done or refused.
pub trait Disk {
    ghost use Rattle.std.specs.Prelude.{ℕ, Bool, List};
    ghost use Rattle.session_setup.specs.Disk.{Act};
    ghost use Rattle.session_setup.specs.declared.disk.Found.{Found};

    /// What is open, to be written to.
    type File: Drop;

    // This is at the path.
    ghost finds: { Self → List ℕ → Found → Type 0 };

    // The link at the first path leads to the second.
    ghost leads: { Self → List ℕ → List ℕ → Type 0 };

    // The act was done, or it was refused.
    ghost acts: { Self → Act → Bool → Self → Type 0 };

    /// What is at the path.
    fn find(&self, path: &str) -> Found
        ensures finds { finds self.now path.now result };

    /// The path that the link leads to. Refuses `Write` if it cannot be followed, and
    /// `OutOfMemory`.
    fn target(&self, link: &str) -> Result<String, MatchFault>
        ensures leads { IfOk result (λ target. leads self.now link.now (string_bytes target)) }
        ensures faults { IfErr result IsFileFault };

    /// Creates a new file, and opens it.
    fn create(&mut self, path: &str) -> Result<Self::File, CreateFault>
        ensures act { acts self.old (creates path.now) (is_ok result) self.new };

    /// Opens what is at the path, to be written to from its start.
    fn open(&mut self, path: &str) -> Result<Self::File, WriteFault>
        ensures act { acts self.old (opens path.now) (is_ok result) self.new };

    /// Writes the whole text to what was opened last.
    fn write(&mut self, file: &mut Self::File, text: &[u8]) -> Result<(), WriteFault>
        ensures act { acts self.old (writes text.now) (is_ok result) self.new };

    /// Waits until what was written is on the device.
    fn sync(&mut self, file: &Self::File) -> Result<(), WriteFault>
        ensures act { acts self.old syncs (is_ok result) self.new };

    /// Gives a file another path. What was there is gone.
    fn rename(&mut self, from: &str, to: &str) -> Result<(), WriteFault>
        ensures act { acts self.old (renames from.now to.now) (is_ok result) self.new };

    /// Removes a file.
    fn remove(&mut self, path: &str) -> Result<(), WriteFault>
        ensures act { acts self.old (removes path.now) (is_ok result) self.new };

    /// Gives a file these permissions.
    fn permit(&mut self, path: &str, mode: u32) -> Result<(), WriteFault>
        ensures act { acts self.old (permits path.now mode) (is_ok result) self.new };
}

/// The files of a runtime.
#[derive(Drop)]
pub struct LocalDisk<'a, R> {
    rt: &'a R,
}

impl<'a, R> LocalDisk<'a, R> {
    /// Those of this runtime.
    pub fn new(rt: &'a R) -> LocalDisk<'a, R>
        ensures { result.rt.now ≡ rt.now }
    {
        LocalDisk { rt }
    }
}

// No contract can say what a file holds.
impl<R: Files + AllocGlobal> Disk for LocalDisk<'_, R> {
    ghost use Rattle.std.specs.Prelude.{⊤};

    type File = R::File;

    ghost finds = { λ d path found. ⊤ };

    ghost leads = { λ d link target. ⊤ };

    ghost acts = { λ d act done e. ⊤ };

    fn find(&self, path: &str) -> Found {
        if path.is_empty() {
            return Found::NoFile;
        }
        let is_link = fs::symlink_metadata(self.rt, path).is_ok_and(|there| there.is_symlink());
        match fs::metadata(self.rt, path) {
            Ok(there) if there.is_file() && is_link => Found::Link(there.permissions().mode()),
            Ok(there) if there.is_file() => Found::File(there.permissions().mode()),
            Ok(there) if there.is_dir() => Found::NoFile,
            Ok(_) => Found::Other,
            Err(_) if is_link => Found::Other,
            Err(_) => Found::Nothing,
        }
    }

    fn target(&self, link: &str) -> Result<String, MatchFault> {
        match fs::canonicalize(self.rt, link) {
            Ok(target) => Ok(target.into_string()),
            Err(error) => Err(memory_or(error.kind(), MatchFault::Write)),
        }
    }

    fn create(&mut self, path: &str) -> Result<Self::File, CreateFault> {
        match File::create_new(self.rt, path) {
            Ok(file) => Ok(file),
            Err(error) if error.kind() == ErrorKind::AlreadyExists => Err(CreateFault::Taken),
            Err(_) => Err(CreateFault::Failed),
        }
    }

    fn open(&mut self, path: &str) -> Result<Self::File, WriteFault> {
        match fs::create(self.rt, path) {
            Ok(file) => Ok(file),
            Err(_) => Err(WriteFault),
        }
    }

    fn write(&mut self, file: &mut Self::File, text: &[u8]) -> Result<(), WriteFault> {
        streams::write_all(file, text)
    }

    fn sync(&mut self, file: &Self::File) -> Result<(), WriteFault> {
        write_result(file.sync_all())
    }

    fn rename(&mut self, from: &str, to: &str) -> Result<(), WriteFault> {
        write_result(fs::rename(self.rt, from, to))
    }

    fn remove(&mut self, path: &str) -> Result<(), WriteFault> {
        write_result(fs::remove_file(self.rt, path))
    }

    fn permit(&mut self, path: &str, mode: u32) -> Result<(), WriteFault> {
        write_result(fs::set_permissions(self.rt, path, Permissions::from_mode(mode)))
    }
}

fn write_result(done: io::Result<()>) -> Result<(), WriteFault> {
    match done {
        Ok(()) => Ok(()),
        Err(_) => Err(WriteFault),
    }
}
