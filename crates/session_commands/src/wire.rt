//! Where lines come from, and where their answers go.

ghost use Rattle.std.specs.Prelude.{◌≡◌, ℕ, ◌<◌, ◌≤◌, List, length, take, IfOk, OnOk, OnErr};

use csa_record::read_uninterrupted;
use record_commands::{ReadFault, WriteFault, streams};
use std::io::{Read, Write};
use std::marker::Model;

/// Where bytes come from and go to. In contracts each call is a step from one state to the next.
pub trait Wire {
    // These bytes came.
    ghost came: { Self → List ℕ → Self → Type 0 };

    // The end came.
    ghost ends: { Self → Self → Type 0 };

    // These bytes were sent.
    ghost went: { Self → List ℕ → Self → Type 0 };

    // No bytes could be received.
    ghost silent: { Self → Self → Type 0 };

    // These bytes were not sent, or only some of them.
    ghost blocked: { Self → List ℕ → Self → Type 0 };

    /// Puts the next bytes at the front of the buffer, which is not empty. Returns their number,
    /// which is 0 only at the end.
    ///
    /// Refuses `Failed` if they cannot be read, and `OutOfMemory`.
    fn receive(&mut self, buffer: &mut [u8]) -> Result<usize, ReadFault>
        requires room { 0 < length buffer.old }
        ensures within { IfOk result (λ taken. taken ≤ length buffer.new) }
        ensures came { IfOk result (λ taken. 0 < taken
            → came self.old (take taken buffer.new) self.new) }
        ensures ends { IfOk result (λ taken. taken ≡ 0 → ends self.old self.new) }
        ensures silent { OnErr result (silent self.old self.new) };

    /// Sends all of the bytes. Refuses `WriteFault` if not all of them could be sent.
    fn send(&mut self, bytes: &[u8]) -> Result<(), WriteFault>
        ensures went { OnOk result (went self.old bytes.now self.new) }
        ensures blocked { OnErr result (blocked self.old bytes.now self.new) };
}

/// A reader that bytes come from, and a writer that they go to.
#[derive(Drop)]
pub struct Exchange<R: Read + Drop, W: Write + Drop> {
    reader: R,
    writer: W,
}

impl<R: Read + Drop, W: Write + Drop> Model for Exchange<R, W> {
    ghost use Rattle.session_commands.specs.Talks.{Passing};

    ghost Value = { Passing };

    ghost view = { λ e. record { coming = R.remaining e.reader; written = W.contents e.writer } };
}

impl<R: Read + Drop, W: Write + Drop> Exchange<R, W> {
    /// Nothing has been read or written yet.
    pub fn new(reader: R, writer: W) -> Exchange<R, W>
        ensures coming { result.coming ≡ R.remaining reader }
        ensures written { result.written ≡ W.contents writer }
    {
        Exchange { reader, writer }
    }
}

// What comes is taken from what the reader gives, and what is sent is added to what the writer
// holds, if these are known. The other of the two is unchanged.
impl<R: Read + Drop, W: Write + Drop> Wire for Exchange<R, W> {
    ghost use Rattle.session_commands.specs.Talks.{BytesCome, BytesGo, BytesStop, EndComes, NothingComes};

    ghost came = { BytesCome };

    ghost ends = { EndComes };

    ghost went = { BytesGo };

    ghost silent = { NothingComes };

    ghost blocked = { BytesStop };

    fn receive(&mut self, buffer: &mut [u8]) -> Result<usize, ReadFault> {
        match read_uninterrupted(&mut self.reader, buffer) {
            Ok(taken) => Ok(taken),
            Err(error) => Err(ReadFault::of(&error)),
        }
    }

    fn send(&mut self, bytes: &[u8]) -> Result<(), WriteFault> {
        streams::write_all(&mut self.writer, bytes)
    }
}
