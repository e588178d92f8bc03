//! The words of the command line, and the answers that no command gives: help, the version, and an
//! unknown command.

ghost use Rattle.std.specs.Prelude.{◌≡◌, ◌≢◌, ◌⊎◌, IfOk, IfErr, IsOk, IsErrOf};
ghost use Rattle.std.specs.Process.{exit_status};
ghost use Rattle.clap.specs.Values.{kind_of};

use crate::stop::{Stop, USAGE};
use clap::Error;
use clap::error::ErrorKind;
use shogi_board::OutOfMemory;
use std::alloc::Global;
use std::env::FillError;
use std::process::ExitCode;
use std::rt::Env;

/// The most bytes of a word with its NUL: `MAX_ARG_STRLEN` of Linux.
const LONGEST_WORD: usize = 131_072;

/// What stands for a word that is not UTF-8. No word contains NUL.
pub const NOT_TEXT: &str = "\0";

/// The words that the program was started with.
#[derive(Drop)]
pub struct CommandLine {
    /// Its own name first, and `NOT_TEXT` in place of each word that is not UTF-8.
    pub words: Vec<String>,
    /// The bytes of the words that are not UTF-8, in order.
    pub not_text: Vec<Vec<u8>>,
    /// Whether one of these may be an option: it begins with a hyphen, and is not after `--`.
    pub may_be_option: bool,
    // Whether the word `--` came, after which no word is an option.
    has_no_more_options: bool,
}

impl CommandLine {
    // Adds a word. Returns an error if an allocation fails.
    fn add(&mut self, alloc: Global, word: &[u8]) -> Result<(), OutOfMemory> {
        match str::from_utf8(word) {
            Ok(text) => {
                self.has_no_more_options |= text == "--";
                Ok(self.words.push(String::from_str(alloc, text)?)?)
            }
            Err(_) => {
                self.may_be_option |= !self.has_no_more_options && word.starts_with(b"-");
                self.words.push(String::from_str(alloc, NOT_TEXT)?)?;
                Ok(self.not_text.push(Vec::from_slice(alloc, word)?)?)
            }
        }
    }
}

/// The words that the program was started with.
///
/// Refuses `WordsNotText` if one is longer than Linux allows, and `OutOfMemory`.
pub fn command_line<R: Env + AllocGlobal>(rt: &R) -> Result<CommandLine, Stop>
    ensures stops { IfErr result (λ stop. (stop ≡ Stop.WordsNotText) ⊎ (stop ≡ Stop.OutOfMemory)) }
{
    let mut line = CommandLine {
        words: Vec::new(rt.alloc()),
        not_text: Vec::new(rt.alloc()),
        may_be_option: false,
        has_no_more_options: false,
    };
    let Ok(mut buffer) = vec![in rt.alloc(); 0u8; LONGEST_WORD] else {
        return Err(Stop::OutOfMemory);
    };
    for at in 0..usize::MAX {
        let length = match rt.arg(at, buffer.as_mut_slice()) {
            Ok(length) => length,
            Err(FillError::NotPresent) => break,
            Err(FillError::TooLong) => return Err(Stop::WordsNotText),
        };
        if line.add(rt.alloc(), &buffer[..length]).is_err() {
            return Err(Stop::OutOfMemory);
        }
    }
    Ok(line)
}

/// Prints what `clap` reports instead of matches: help and the version on standard output, with
/// status 0; a wrong command line on standard error, with status 2.
///
/// Refuses `OutOfMemory` if an allocation failed while the words were read, and `Write` if the help
/// cannot be written to standard output.
pub fn answer<R: Print + Eprint>(rt: &R, error: &Error) -> Result<ExitCode, Stop>
    ensures memory { kind_of error.now ≡ ErrorKind.OutOfMemory → IsErrOf result Stop.OutOfMemory }
    ensures usage { kind_of error.now ≢ ErrorKind.OutOfMemory
        → kind_of error.now ≢ ErrorKind.DisplayHelp
        → kind_of error.now ≢ ErrorKind.DisplayVersion
        → IsOk result × IfOk result (λ status. exit_status status ≡ 2) }
    ensures shown { (kind_of error.now ≡ ErrorKind.DisplayHelp)
        ⊎ (kind_of error.now ≡ ErrorKind.DisplayVersion)
        → IfOk result (λ status. exit_status status ≡ 0) }
    ensures shown_fault { kind_of error.now ≢ ErrorKind.OutOfMemory
        → IfErr result (λ stop. stop ≡ Stop.Write) }
{
    if error.kind() == ErrorKind::OutOfMemory {
        return Err(Stop::OutOfMemory);
    }
    let printed = error.print(rt);
    if error.use_stderr() {
        return Ok(ExitCode::from(USAGE));
    }
    match printed {
        Ok(()) => Ok(ExitCode::SUCCESS),
        Err(_) => Err(Stop::Write),
    }
}
