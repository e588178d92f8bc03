ghost use Rattle.std.specs.Prelude.{◌≡◌, Bool, true, false, ℕ, ◌+◌, ◌-◌, ◌^◌, ◌<◌, ◌≤◌, List, length, Option, IfOk, OnOk, OnErr};
ghost use Rattle.std.specs.Io.KnownBytes.{Keeps, Appends, WriteAppends};
ghost use Rattle.csa_record.specs.Flow.{CountsErrors, CountsWrites, AppendsFront};

use crate::source::Failure;
use std::io::{ErrorKind, Write};

/// Takes bytes, and counts how often it fails.
pub trait Sink {
    // The bytes that it holds, if they are known.
    ghost held: { Self → Option (List ℕ) };

    // How often it has failed.
    ghost failed: { Self → ℕ };

    // Whether it has passed on all that it took.
    ghost settled: { Self → Bool };

    /// Takes bytes from the front of the piece and returns how many. These may be fewer than all of
    /// them. To take none of a piece that is not empty also counts as a failure.
    ///
    /// Returns `Failure` if it fails; that is counted, and no bytes are taken. Only to be called if
    /// it has failed fewer than 2^64 - 1 times so far.
    fn write(&mut self, piece: &[u8]) -> Result<usize, Failure>
        requires countable { failed self.old < 2 ^ 64 - 1 }
        ensures within { IfOk result (λ taken. taken ≤ length piece.now) }
        ensures bytes { WriteAppends (held self.old) (held self.new) result piece.now }
        ensures count { CountsWrites (failed self.old) (failed self.new) result piece.now };

    /// Passes on what it has taken.
    ///
    /// Returns `Failure` if it fails; that is counted. Only to be called if it has failed fewer
    /// than 2^64 - 1 times so far.
    fn flush(&mut self) -> Result<(), Failure>
        requires countable { failed self.old < 2 ^ 64 - 1 }
        ensures bytes { Keeps (held self.old) (held self.new) }
        ensures count { CountsErrors (failed self.old) (failed self.new) result }
        ensures settled { OnOk result (settled self.new ≡ true) };

    /// How often it has failed.
    fn failures(&self) -> u64
        ensures value { result ≡ failed self.now };
}

/// A writer, as a sink. It is settled if no bytes have been passed to the writer since the last
/// successful flush. A write that is interrupted is tried again, and is not a failure; a flush that
/// is interrupted is one.
#[derive(Drop)]
pub struct Writing<W> {
    inner: W,
    failures: u64,
    settled: bool,
}

impl<W> Writing<W> {
    /// Creates a sink that passes what it takes to that writer. It has not failed, and is not
    /// settled: the writer may hold bytes.
    pub fn new(inner: W) -> Writing<W>
        ensures inner { result.inner ≡ inner }
        ensures failures { result.failures ≡ 0 }
        ensures settled { result.settled ≡ false }
    {
        Writing {
            inner,
            failures: 0,
            settled: false,
        }
    }
}

impl<W: Write> Sink for Writing<W> {
    ghost held = { λ s. W.contents s.inner };

    ghost failed = { λ s. s.failures };

    ghost settled = { λ s. s.settled };

    fn write(&mut self, piece: &[u8]) -> Result<usize, Failure>
        requires countable { self.old.failures < 2 ^ 64 - 1 }
        ensures within { IfOk result (λ taken. taken ≤ length piece.now) }
        ensures bytes { WriteAppends
            (W.contents self.old.inner) (W.contents self.new.inner) result piece.now }
        ensures count { CountsWrites self.old.failures self.new.failures result piece.now }
        ensures unsettled { self.new.settled ≡ false }
    {
        self.settled = false;
        match write_uninterrupted(&mut self.inner, piece) {
            Ok(taken) => {
                if taken == 0 && !piece.is_empty() {
                    self.failures += 1;
                }
                Ok(taken)
            }
            Err(Failure) => {
                self.failures += 1;
                Err(Failure)
            }
        }
    }

    fn flush(&mut self) -> Result<(), Failure>
        requires countable { self.old.failures < 2 ^ 64 - 1 }
        ensures bytes { Keeps (W.contents self.old.inner) (W.contents self.new.inner) }
        ensures count { CountsErrors self.old.failures self.new.failures result }
        ensures settled { OnOk result (self.new.settled ≡ true) }
        ensures unsettled { OnErr result (self.new.settled ≡ self.old.settled) }
    {
        match self.inner.flush() {
            Ok(()) => {
                self.settled = true;
                Ok(())
            }
            Err(_) => {
                self.failures += 1;
                Err(Failure)
            }
        }
    }

    fn failures(&self) -> u64 {
        self.failures
    }
}

/// Writes bytes from the front of the piece and returns how many. A write that is interrupted is
/// tried again.
///
/// Returns `Failure` if a write fails in another way, or after 2^64 - 1 tries; then no bytes were
/// written.
pub fn write_uninterrupted<W: Write>(writer: &mut W, piece: &[u8]) -> Result<usize, Failure>
    ensures within { IfOk result (λ taken. taken ≤ length piece.now) }
    ensures bytes { WriteAppends (W.contents writer.old) (W.contents writer.new) result piece.now }
{
    for _ in 0..u64::MAX {
        match writer.write(piece) {
            Ok(taken) => return Ok(taken),
            Err(error) if error.kind() == ErrorKind::Interrupted => {}
            Err(_) => return Err(Failure),
        }
    }
    Err(Failure)
}

// Writes all of the text and flushes the sink.
pub(crate) fn send<T: Sink>(sink: &mut T, text: &[u8]) -> Result<(), Failure>
    requires { T.failed sink.old < 2 ^ 64 - 1 }
    ensures ok { OnOk result (Appends (T.held sink.old) (T.held sink.new) text.now) }
    ensures quiet { OnOk result (T.failed sink.new ≡ T.failed sink.old) }
    ensures front { OnErr result (AppendsFront (T.held sink.old) (T.held sink.new) text.now) }
    ensures failed { OnErr result (T.failed sink.new ≡ T.failed sink.old + 1) }
    ensures settled { OnOk result (T.settled sink.new ≡ true) }
{
    write_all(sink, text)?;
    sink.flush()
}

// Writes all of the text.
fn write_all<T: Sink>(sink: &mut T, text: &[u8]) -> Result<(), Failure>
    requires { T.failed sink.old < 2 ^ 64 - 1 }
    ensures ok { OnOk result (Appends (T.held sink.old) (T.held sink.new) text.now) }
    ensures quiet { OnOk result (T.failed sink.new ≡ T.failed sink.old) }
    ensures front { OnErr result (AppendsFront (T.held sink.old) (T.held sink.new) text.now) }
    ensures failed { OnErr result (T.failed sink.new ≡ T.failed sink.old + 1) }
{
    let mut at = 0;
    while at < text.len() {
        let taken = sink.write(&text[at..])?;
        if taken == 0 {
            return Err(Failure);
        }
        at += taken;
    }
    Ok(())
}
