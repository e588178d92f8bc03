//! An archive in memory, with entries that fail or change.

ghost use Rattle.std.specs.Prelude.{length, replicate};

use csa_record::{FlowFault, Reading, Record, read_from};
use game_archive::{Archive, Digester, Watch};
use std::alloc::Global;
use std::cell::Cell;
use std::io;
use std::io::{ErrorKind, Read};

// What an entry gives when it is read.
#[derive(Clone, Copy)]
pub enum Tape {
    Bytes(&'static [u8]),
    // Reading fails.
    Torn,
}

impl Read for Tape {
    ghost use Rattle.std.specs.Prelude.{None};

    ghost remaining = { λ _. None };

    fn read(&mut self, buffer: &mut [u8]) -> io::Result<usize> {
        match self {
            Tape::Bytes(bytes) => bytes.read(buffer),
            Tape::Torn => Err(io::Error::from(ErrorKind::Other)),
        }
    }
}

// An entry that gives one tape when it is read first, and another one from then on.
#[derive(Drop)]
pub struct Book {
    first: Tape,
    later: Tape,
    was_read: Cell<bool>,
}

impl Book {
    pub fn of(bytes: &'static [u8]) -> Book {
        Book::changing(Tape::Bytes(bytes), Tape::Bytes(bytes))
    }

    pub fn changing(first: Tape, later: Tape) -> Book {
        Book {
            first,
            later,
            was_read: Cell::new(false),
        }
    }

    fn tape(&self) -> Tape {
        if self.was_read.get() {
            return self.later;
        }
        self.was_read.set(true);
        self.first
    }
}

// Books, and the places of those that could not be read, and of those that were refused.
#[derive(Drop)]
pub struct Shelf<'a> {
    books: &'a [Book],
    pub failed: Vec<usize>,
    pub refused: Vec<usize>,
}

impl<'a> Shelf<'a> {
    pub fn new(alloc: Global, books: &'a [Book]) -> Shelf<'a> {
        Shelf {
            books,
            failed: Vec::new(alloc),
            refused: Vec::new(alloc),
        }
    }
}

impl Archive for Shelf<'_> {
    ghost reads = { λ _ _ _. Unit {0} };

    ghost noted = { λ shelf. record {
      failed = shelf.failed.items;
      refused = shelf.refused.items;
    } };

    ghost size = { λ shelf. length shelf.books.now };

    fn len(&self) -> usize {
        self.books.len()
    }

    fn read_record(&mut self, alloc: Global, at: usize) -> Result<Record, FlowFault> {
        let result = read_from(alloc, &mut Reading::new(self.books[at].tape()));
        let noted = match &result {
            Err(FlowFault::ReadFault) => self.failed.push(at),
            Err(FlowFault::Refused(_)) => self.refused.push(at),
            _ => Ok(()),
        };
        if noted.is_err() {
            return Err(FlowFault::OutOfMemory);
        }
        result
    }
}

// The entry that was done last.
#[derive(Drop)]
pub struct Last {
    pub at: Option<usize>,
}

impl Watch for Last {
    fn entry_done(&mut self, at: usize) {
        self.at = Some(at);
    }
}

// Gives one digest for all texts.
#[derive(Clone, Copy)]
pub struct Blind;

impl Digester for Blind {
    ghost digest_of = { λ _ _. replicate 32 0 };

    fn digest(&self, _text: &[u8]) -> [u8; 32] {
        [0; 32]
    }
}
