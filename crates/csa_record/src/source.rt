ghost use Rattle.std.specs.Prelude.{◌≡◌, Bool, false, ℕ, ◌-◌, ◌^◌, ◌<◌, ◌≤◌, List, length, Option, IfOk};
ghost use Rattle.std.specs.Io.KnownBytes.{ReadConsumes};
ghost use Rattle.csa_record.specs.Flow.{CountsErrors, MarksEnd};

use std::io;
use std::io::{ErrorKind, Read};
use thiserror::Error;

/// A call of a source or a sink failed.
#[derive(Clone, Copy, Debug, PartialEq, Eq, Error)]
#[error("the stream failed")]
pub struct Failure;

/// Gives bytes, and counts how often it fails.
pub trait Source {
    // The bytes that it will still give, if they are known.
    ghost known: { Self → Option (List ℕ) };

    // How often it has failed.
    ghost failed: { Self → ℕ };

    // Whether a read has reported that its end was reached.
    ghost ended: { Self → Bool };

    /// Puts its next bytes at the front of the buffer and returns how many. These may be fewer than
    /// fit. Returns 0 for a buffer that is not empty only at the end of the source.
    ///
    /// Returns `Failure` if it fails; that is counted, and no bytes are given. Only to be called if
    /// it has failed fewer than 2^64 - 1 times so far.
    fn read(&mut self, buffer: &mut [u8]) -> Result<usize, Failure>
        requires countable { failed self.old < 2 ^ 64 - 1 }
        ensures within { IfOk result (λ taken. taken ≤ length buffer.new) }
        ensures bytes { ReadConsumes (known self.old) (known self.new) result buffer.new }
        ensures count { CountsErrors (failed self.old) (failed self.new) result }
        ensures end { MarksEnd (ended self.old) (ended self.new) result buffer.new };

    /// How often it has failed.
    fn failures(&self) -> u64
        ensures value { result ≡ failed self.now };
}

/// The bytes of a reader, as a source. A read that is interrupted is tried again, and is not a
/// failure.
#[derive(Drop)]
pub struct Reading<R> {
    inner: R,
    failures: u64,
    ended: bool,
}

impl<R> Reading<R> {
    /// Creates a source of what that reader gives. It has not failed, and its end has not been
    /// reached.
    pub fn new(inner: R) -> Reading<R>
        ensures inner { result.inner ≡ inner }
        ensures failures { result.failures ≡ 0 }
        ensures ended { result.ended ≡ false }
    {
        Reading {
            inner,
            failures: 0,
            ended: false,
        }
    }
}

impl<R: Read> Source for Reading<R> {
    ghost known = { λ s. R.remaining s.inner };

    ghost failed = { λ s. s.failures };

    ghost ended = { λ s. s.ended };

    fn read(&mut self, buffer: &mut [u8]) -> Result<usize, Failure> {
        match read_uninterrupted(&mut self.inner, buffer) {
            Ok(taken) => {
                self.ended = self.ended || (taken == 0 && !buffer.is_empty());
                Ok(taken)
            }
            Err(_) => {
                self.failures += 1;
                Err(Failure)
            }
        }
    }

    fn failures(&self) -> u64 {
        self.failures
    }
}

/// Puts the next bytes of the reader at the front of the buffer and returns how many. A read that
/// is interrupted is tried again.
///
/// Returns the error of a read that fails in another way, or `Interrupted` after 2^64 - 1 tries.
pub fn read_uninterrupted<R: Read>(reader: &mut R, buffer: &mut [u8]) -> io::Result<usize>
    ensures within { IfOk result (λ taken. taken ≤ length buffer.new) }
    ensures bytes { ReadConsumes
        (R.remaining reader.old) (R.remaining reader.new) result buffer.new }
{
    for _ in 0..u64::MAX {
        match reader.read(buffer) {
            Ok(taken) => return Ok(taken),
            Err(error) if error.kind() == ErrorKind::Interrupted => {}
            Err(error) => return Err(error),
        }
    }
    Err(io::Error::from(ErrorKind::Interrupted))
}
