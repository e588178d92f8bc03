//! Where a command reads from: the file that its words name, or standard input.

ghost use Rattle.std.specs.Prelude.{◌≡◌, IfOk, IsErrOf};
ghost use Rattle.record_commands.specs.Inputs.{IsPicked, NamesFile, path_of};
ghost use Rattle.record_commands.specs.declared.fault.ReadFault.{ReadFault};

use crate::fault::ReadFault;
use hash_comments::{HashComments, HashLines};
use shogi_board::OutOfMemory;
use std::alloc::Global;
use std::fs;
use std::io::Read;
use std::rt::Files;

/// What the commands may read from.
pub trait Inputs {
    ghost use Rattle.std.specs.Prelude.{ℕ, List, Option};

    /// What is read.
    type Input: Read + Drop;

    // This is the file of that name, or standard input if there is no name or it is `-`, to be read
    // from its start.
    ghost opens: { Self → Option (List ℕ) → Self.Input → Type 0 };

    // That file, or standard input, cannot be opened.
    ghost opens_not: { Self → Option (List ℕ) → Type 0 };

    /// Opens the file of that name, or standard input if there is no name or it is `-`.
    ///
    /// Refuses `Failed` if the file cannot be opened, and `OutOfMemory`.
    fn open(&self, file: Option<&str>) -> Result<Self::Input, ReadFault>
        ensures opened { IfOk result (opens self.now (path_of file.entry)) }
        ensures failed { IsErrOf result ReadFault.Failed
            → opens_not self.now (path_of file.entry) };
}

/// Standard input, or a file.
#[derive(Drop)]
pub enum Input<S: Drop, F: Drop> {
    /// Standard input.
    Standard(S),
    /// A file.
    File(F),
}

impl<S: Read + Drop, F: Read + Drop> Read for Input<S, F> {
    ghost use Rattle.record_commands.specs.Inputs.{rest_of};

    ghost remaining = { rest_of S.remaining F.remaining };

    fn read(&mut self, buf: &mut [u8]) -> std::io::Result<usize> {
        match self {
            Input::Standard(reader) => reader.read(buf),
            Input::File(reader) => reader.read(buf),
        }
    }
}

/// The files and the standard input of a runtime.
#[derive(Drop)]
pub struct RuntimeInputs<'a, R> {
    rt: &'a R,
    hash_lines: HashLines,
}

impl<'a, R> RuntimeInputs<'a, R> {
    /// What the commands read from in that runtime, and how lines that begin with `#` are read.
    pub fn new(rt: &'a R, hash_lines: HashLines) -> RuntimeInputs<'a, R>
        ensures hash_lines { result.hash_lines ≡ hash_lines }
    {
        RuntimeInputs { rt, hash_lines }
    }
}

// No contract can say what is in a file, which file it is, or when it cannot be opened. Standard
// input can always be opened.
impl<R: Files + std::io::Input + AllocGlobal> Inputs for RuntimeInputs<'_, R> {
    ghost use Rattle.record_commands.specs.Inputs.{IsOpenedAs, NamesFile};

    // Standard input has a large buffer, and is boxed so that a file is moved without one.
    type Input = HashComments<Input<Box<R::Reader>, R::File>>;

    ghost opens = { λ inputs path reader. IsOpenedAs path inputs.hash_lines reader };

    ghost opens_not = { λ inputs path. NamesFile path };

    fn open(&self, file: Option<&str>) -> Result<Self::Input, ReadFault> {
        let input = picked(self.rt, file)?;
        Ok(HashComments::new(input, self.hash_lines))
    }
}

// The file of that name, or standard input if there is no name or it is `-`.
fn picked<R: Files + std::io::Input + AllocGlobal>(
    rt: &R,
    file: Option<&str>,
) -> Result<Input<Box<R::Reader>, R::File>, ReadFault>
    ensures opened { IfOk result (IsPicked (path_of file.entry)) }
    ensures failed { IsErrOf result ReadFault.Failed → NamesFile (path_of file.entry) }
{
    match file {
        None | Some("-") => match standard_input(rt) {
            Ok(reader) => Ok(Input::Standard(reader)),
            Err(_) => Err(ReadFault::OutOfMemory),
        },
        Some(path) => match fs::open(rt, path) {
            Ok(file) => Ok(Input::File(file)),
            Err(error) => Err(ReadFault::of(&error)),
        },
    }
}

fn standard_input<R: std::io::Input + AllocGlobal>(rt: &R) -> Result<Box<R::Reader>, OutOfMemory> {
    Ok(Box::new(rt.alloc(), rt.reader())?)
}
