ghost use Rattle.std.specs.Prelude.{◌≡◌, ◌∷◌, [], ◌++◌, IfOk, OnErr, OnOk, take};
ghost use Rattle.session_lines.specs.Texts.{ended_line, text_of, with_time};

use crate::texts;
use itoa::Buffer;
use shogi_board::OutOfMemory;
use std::alloc::Global;
use std::marker::Model;

/// Lines to send, each followed by LF. A call that returns `OutOfMemory` leaves them as they were.
#[derive(Drop)]
pub struct Lines {
    bytes: Vec<u8>,
}

impl Model for Lines {
    ghost use Rattle.std.specs.Prelude.{ℕ, List};

    ghost Value = { List ℕ };

    ghost view = { λ l. l.bytes.items };
}

impl Lines {
    /// No lines.
    pub fn new(alloc: Global) -> Lines
        ensures value { result ≡ [] }
    {
        Lines {
            bytes: Vec::new(alloc),
        }
    }

    /// That line alone. `line` has no line end. Returns `OutOfMemory` if an allocation fails.
    pub fn one(alloc: Global, line: &[u8]) -> Result<Lines, OutOfMemory>
        ensures value { IfOk result (λ l. l ≡ ended_line line.now) }
    {
        let mut lines = Lines::new(alloc);
        lines.push(line)?;
        Ok(lines)
    }

    /// Adds a line. `line` has no line end. Returns `OutOfMemory` if an allocation fails.
    pub fn push(&mut self, line: &[u8]) -> Result<(), OutOfMemory>
        ensures added { OnOk result (self.new ≡ self.old ++ ended_line line.now) }
        ensures unchanged { OnErr result (self.new ≡ self.old) }
    {
        self.bytes.reserve(line.len() + 1)?;
        self.bytes.extend_from_slice(line).unwrap();
        self.bytes.push(b'\n').unwrap();
        Ok(())
    }

    /// Adds two lines, or none. Returns `OutOfMemory` if an allocation fails.
    pub fn push_two(&mut self, first: &[u8], second: &[u8]) -> Result<(), OutOfMemory>
        ensures added { OnOk result (self.new ≡ self.old ++ text_of (first.now ∷ second.now ∷ [])) }
        ensures unchanged { OnErr result (self.new ≡ self.old) }
    {
        let before = self.bytes.len();
        self.push(first)?;
        let added = self.push(second);
        self.keep(before, added)
    }

    /// Adds one line, `front` followed by `back`. Returns `OutOfMemory` if an allocation fails.
    pub fn push_joined(&mut self, front: &[u8], back: &[u8]) -> Result<(), OutOfMemory>
        ensures added { OnOk result (self.new ≡ self.old ++ ended_line (front.now ++ back.now)) }
        ensures unchanged { OnErr result (self.new ≡ self.old) }
    {
        let before = self.bytes.len();
        self.push_part(front)?;
        let added = self.push(back);
        self.keep(before, added)
    }

    /// Adds one line: the text, `,T` and the seconds in decimal, as the CSA server protocol writes
    /// times. Returns `OutOfMemory` if an allocation fails.
    pub fn push_timed(&mut self, text: &[u8], seconds: u32) -> Result<(), OutOfMemory>
        ensures added { OnOk result
            (self.new ≡ self.old ++ ended_line (with_time text.now seconds)) }
        ensures unchanged { OnErr result (self.new ≡ self.old) }
    {
        let mut buffer = Buffer::new();
        let before = self.bytes.len();
        self.push_part(text)?;
        let added = self.push_joined(texts::TIME, buffer.format(seconds).as_bytes());
        self.keep(before, added)
    }

    /// Adds bytes without a line end; `end_line` ends the line. Returns `OutOfMemory` if an
    /// allocation fails.
    pub fn push_part(&mut self, part: &[u8]) -> Result<(), OutOfMemory>
        ensures added { OnOk result (self.new ≡ self.old ++ part.now) }
        ensures unchanged { OnErr result (self.new ≡ self.old) }
    {
        self.bytes.extend_from_slice(part)?;
        Ok(())
    }

    /// Adds LF. Returns `OutOfMemory` if the allocation fails.
    pub fn end_line(&mut self) -> Result<(), OutOfMemory>
        ensures added { OnOk result (self.new ≡ self.old ++ 10 ∷ []) }
        ensures unchanged { OnErr result (self.new ≡ self.old) }
    {
        self.bytes.push(b'\n')?;
        Ok(())
    }

    // Keeps what was added, or cuts back to `before` bytes if adding failed.
    fn keep(&mut self, before: usize, added: Result<(), OutOfMemory>) -> Result<(), OutOfMemory>
        ensures same { result ≡ added }
        ensures added { OnOk added (self.new ≡ self.old) }
        ensures refused { OnErr added (self.new ≡ take before self.old) }
    {
        if added.is_err() {
            self.bytes.truncate(before);
        }
        added
    }

    /// The bytes to send, line ends included.
    pub fn bytes(&self) -> &[u8]
        ensures value { result.now ≡ self.now }
    {
        self.bytes.as_slice()
    }
}
