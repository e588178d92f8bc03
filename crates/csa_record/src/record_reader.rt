ghost use Rattle.std.specs.Prelude.{◌≡◌, ◌≢◌, ℕ, ◌+◌, ◌^◌, ◌<◌, ◌≤◌, [], ◌++◌, List, length, take, Some, None, Ok, Err, IfSome, IfNone, IfOk, IfErr, MatchResult, OnOk, IsErrOf};
ghost use Rattle.csa_text.specs.Saying.{Saying};
ghost use Rattle.record_game.specs.Closed.{ClosedAt};
ghost use Rattle.record_game.specs.Fits.{IsOfStatement};
ghost use Rattle.record_game.specs.Keeping.{HasKept};
ghost use Rattle.record_game.specs.Laying.{Lays};
ghost use Rattle.record_game.specs.Outcome.{Outcome};
ghost use Rattle.csa_record.specs.RecordReading.{HasRead, HasTaken, fed_of};
ghost use Rattle.csa_record.specs.ReadingSteps.{AreUsed, IsRead, IsRefusedBy, NextTaken, MayTakeNext, LastTaken};
ghost use Rattle.record_game.specs.Refused.{Refused, FaultlessTo};
ghost use Rattle.record_game.specs.Tells.{Tells};

use crate::builder::RecordBuilder;
use crate::laying::Laying;
use crate::record::Record;
use csa_cutting::{PieceCutter, Statement};
use csa_text::{MOVE_SIZE, front_move, front_time};
use record_game::{OrderFault, Refusal, Why};
use std::alloc::Global;
use std::marker::Model;
use std::mem;

/// Where a reader was refused, as contracts see it.
#[derive(Clone, Copy)]
pub struct Failing {
    /// The statement's number, counted from 1.
    pub number: u64,
    /// The offset of its first byte.
    pub offset: u64,
    /// How many bytes had been fed before.
    pub fed: u64,
}

impl Failing {
    // What a refused reader returns.
    fn refusal(&self) -> Refusal
        ensures { result
            ≡ record { number = self.now.number; offset = self.now.offset; why = Why.Failed } }
    {
        Refusal {
            number: self.number,
            offset: self.offset,
            why: Why::Failed,
        }
    }
}

/// Reads a CSA record whose bytes arrive in pieces.
///
/// Of the source it holds only an unfinished statement of at most 4,096 bytes, and nothing of a
/// comment. After any refusal, including one for lack of memory, `feed` and `finish` return
/// `Why::Failed` with the number and the offset of the first refusal.
#[derive(Drop)]
pub struct RecordReader {
    cutter: PieceCutter,
    builder: RecordBuilder,
    failing: Option<Failing>,
}

impl Model for RecordReader {
    ghost use Rattle.csa_record.specs.RecordReading.{RecordReading};

    ghost Value = { RecordReading };

    ghost view = { λ r. record {
      cutter = r.cutter;
      kept = r.builder;
      failing = r.failing;
    } };
}

impl RecordReader {
    /// Creates a reader that has been fed no bytes. Allocates nothing.
    #[tactic(auto, using(crate::proofs::Onward::new_reader))]
    pub fn new(alloc: Global) -> RecordReader
        ensures start { HasRead [] result }
    {
        RecordReader {
            cutter: PieceCutter::new(),
            builder: RecordBuilder::new(alloc),
            failing: None,
        }
    }

    /// How many bytes have been fed, without those of a refused piece.
    pub fn fed(&self) -> u64
        ensures count { result ≡ fed_of self.now }
        ensures bytes { (source : List ℕ) → HasRead source self.now → result ≡ length source }
    {
        match self.failing {
            Some(failing) => failing.fed,
            None => self.cutter.fed(),
        }
    }

    /// Takes the next piece of the record. At most 2^63 bytes may be fed in all, unless the reader
    /// has been refused.
    ///
    /// Refuses with the first fault among the statements that these bytes close. That is the
    /// refusal of the whole record, whatever follows. Otherwise refuses with `Why::OutOfMemory` if
    /// an allocation fails, which means that no statement up to that point has a fault.
    pub fn feed(&mut self, piece: &[u8]) -> Result<(), Refusal>
        requires room { self.old.failing ≡ None → fed_of self.old + length piece.now ≤ 2 ^ 63 }
        // Accepted: no statement that the bytes so far close has a fault.
        ensures taken { (source : List ℕ) → HasRead source self.old
            → OnOk result (HasRead (source ++ piece.now) self.new) }
        ensures refused { (source more : List ℕ) → HasRead source self.old
            → IfErr result
            (λ r. r.why ≢ Why.OutOfMemory
            → Refused ((source ++ piece.now) ++ more) r.number r.offset r.why) }
        // The refused statement is the first with a fault among those that the bytes close.
        ensures closed { (source : List ℕ) → HasRead source self.old
            → IfErr result
            (λ r. r.why ≢ Why.OutOfMemory
            → ClosedAt (source ++ piece.now) r.number r.offset r.why) }
        ensures memory { (source more : List ℕ) → HasRead source self.old
            → IfErr result
            (λ r. r.why ≡ Why.OutOfMemory
            → FaultlessTo ((source ++ piece.now) ++ more) r.number r.offset) }
        ensures failed { (source : List ℕ) → HasRead source self.old
            → IfErr result
            (λ r. self.new.failing
            ≡ Some (record { number = r.number; offset = r.offset; fed = length source })) }
        ensures first { (source : List ℕ) → HasRead source self.old
            → IfErr result (λ r. r.why ≢ Why.Failed) }
        ensures again { IfSome self.old.failing
            (λ f. IsErrOf result (record { number = f.number; offset = f.offset; why = Why.Failed })
            × (self.new ≡ self.old)) }
    {
        if let Some(failing) = self.failing {
            return Err(failing.refusal());
        }
        let fed = self.cutter.fed();
        if let Err(refusal) = self.take_piece(piece) {
            self.failing = Some(Failing {
                number: refusal.number,
                offset: refusal.offset,
                fed,
            });
            return Err(refusal);
        }
        Ok(())
    }

    // Takes the whole piece, statement by statement.
    fn take_piece(&mut self, piece: &[u8]) -> Result<(), Refusal>
        requires { self.old.cutter.fed + length piece.now ≤ 2 ^ 63 }
        ensures taken { (source : List ℕ) → HasRead source self.old
            → OnOk result (HasRead (source ++ piece.now) self.new) }
        ensures refused { (source : List ℕ) → HasRead source self.old
            → IfErr result (λ r. (more : List ℕ) → IsRefusedBy ((source ++ piece.now) ++ more) r) }
        ensures first { (source : List ℕ) → HasRead source self.old
            → IfErr result (λ r. r.why ≢ Why.Failed) }
    {
        let mut used = 0;
        while used < piece.len() {
            used += self.take_next(&piece[used..])?;
        }
        Ok(())
    }

    // Takes the next bytes of the piece: separators or comments, or bytes up to the end of a
    // statement and that statement, or all of the piece. Returns how many it used.
    #[inline(always)]
    fn take_next(&mut self, piece: &[u8]) -> Result<usize, Refusal>
        requires room { self.old.cutter.fed + length piece.now ≤ 2 ^ 63 }
        requires some { 0 < length piece.now }
        ensures used { IfOk result (AreUsed piece.now self.old.cutter self.new.cutter) }
        ensures next { (source : List ℕ) → HasRead source self.old
            → NextTaken source piece.now result self.new }
    {
        // most statements are moves and times, which need no search for their ends
        if let Some(taken) = self.take_front_move(piece) {
            return taken;
        }
        if let Some(taken) = self.take_front_time(piece) {
            return taken;
        }
        if let Some(used) = self.pass_unspoken(piece) {
            return Ok(used);
        }
        self.take_any(piece)
    }

    // As `take_next`, if the piece begins with a move and the byte that ends it, and nothing is
    // unfinished before. Else returns `None` and changes nothing.
    #[inline(always)]
    fn take_front_move(&mut self, piece: &[u8]) -> Option<Result<usize, Refusal>>
        requires room { self.old.cutter.fed + length piece.now ≤ 2 ^ 63 }
        requires some { 0 < length piece.now }
        ensures { MayTakeNext self.old piece.now result self.new }
    {
        let front = front_move(piece)?;
        let statement = self.cutter.take_word(piece, MOVE_SIZE)?;
        let (color, mv) = front;
        let taken = self.builder.take_walked(color, mv);
        Some(used_or_refused(&statement, MOVE_SIZE + 1, taken))
    }

    // As `take_front_move`, for a time.
    #[inline(always)]
    fn take_front_time(&mut self, piece: &[u8]) -> Option<Result<usize, Refusal>>
        requires room { self.old.cutter.fed + length piece.now ≤ 2 ^ 63 }
        requires some { 0 < length piece.now }
        ensures { MayTakeNext self.old piece.now result self.new }
    {
        let (thousandths, size) = front_time(piece)?;
        let statement = self.cutter.take_word(piece, size)?;
        let taken = self.builder.take_timed(thousandths);
        Some(used_or_refused(&statement, size + 1, taken))
    }

    // Takes separators or comments at the front of the piece, and returns how many bytes it used.
    // Otherwise changes nothing.
    #[inline(always)]
    fn pass_unspoken(&mut self, piece: &[u8]) -> Option<usize>
        requires room { self.old.cutter.fed + length piece.now ≤ 2 ^ 63 }
        ensures used { IfSome result (AreUsed piece.now self.old.cutter self.new.cutter) }
        ensures next { (source : List ℕ) → HasRead source self.old
            → IfSome result (λ used. HasRead (source ++ take used piece.now) self.new) }
        ensures none { IfNone result (self.new ≡ self.old) }
    {
        self.cutter.take_unspoken(piece)
    }

    // As `take_next`, for any statement.
    #[inline(never)]
    fn take_any(&mut self, piece: &[u8]) -> Result<usize, Refusal>
        requires room { self.old.cutter.fed + length piece.now ≤ 2 ^ 63 }
        requires some { 0 < length piece.now }
        ensures used { IfOk result (AreUsed piece.now self.old.cutter self.new.cutter) }
        ensures next { (source : List ℕ) → HasRead source self.old
            → NextTaken source piece.now result self.new }
    {
        let cut = match self.cutter.step(piece) {
            Ok(cut) => cut,
            Err(fault) => return Err(Refusal::from(fault)),
        };
        let Some(statement) = cut.statement else {
            return Ok(cut.used);
        };
        take_statement(&mut self.builder, statement)?;
        Ok(cut.used)
    }

    /// Returns the record that the pieces contain. To be called after the last one.
    ///
    /// The end of the bytes ends an unfinished statement, which may be refused, as in `feed`.
    /// Then refuses with `MissingTurn` if no statement gives the side to move: its number is one
    /// more than the number of the statements, and its offset is the length of all pieces in bytes.
    pub fn finish(self) -> Result<Record, Refusal>
        ensures stated { (source : List ℕ) → HasRead source self
            → IfOk result (λ g. Tells source g) }
        ensures refused { (source : List ℕ) → HasRead source self
            → IfErr result (λ r. r.why ≢ Why.OutOfMemory → Refused source r.number r.offset r.why) }
        ensures memory { (source : List ℕ) → HasRead source self
            → IfErr result (λ r. r.why ≡ Why.OutOfMemory → FaultlessTo source r.number r.offset) }
        ensures first { (source : List ℕ) → HasRead source self
            → IfErr result (λ r. r.why ≢ Why.Failed) }
        ensures again { IfSome self.failing
            (λ f. IsErrOf result
            (record { number = f.number; offset = f.offset; why = Why.Failed })) }
    {
        let RecordReader {
            mut cutter,
            builder,
            failing,
        } = self;
        end(&mut cutter, builder, failing)
    }

    // As `finish`, of a reader that is then as if new. `laying` has nothing laid out yet.
    pub(crate) fn finish_anew(&mut self, alloc: Global, laying: Laying) -> Result<Record, Refusal>
        requires { Lays [] laying }
        ensures stated { (source : List ℕ) → HasRead source self.old
            → IfOk result (λ g. Tells source g) }
        ensures refused { (source : List ℕ) → HasRead source self.old
            → IfErr result (λ r. r.why ≢ Why.OutOfMemory → Refused source r.number r.offset r.why) }
        ensures memory { (source : List ℕ) → HasRead source self.old
            → IfErr result (λ r. r.why ≡ Why.OutOfMemory → FaultlessTo source r.number r.offset) }
        ensures first { (source : List ℕ) → HasRead source self.old
            → IfErr result (λ r. r.why ≢ Why.Failed) }
        ensures anew { HasRead [] self.new }
    {
        let builder = mem::replace(&mut self.builder, RecordBuilder::from_laying(alloc, laying));
        let record = end(&mut self.cutter, builder, self.failing);
        self.cutter.restart();
        self.failing = None;
        record
    }
}

// What `finish` returns of a reader with these parts.
fn end(
    cutter: &mut PieceCutter,
    builder: RecordBuilder,
    failing: Option<Failing>,
) -> Result<Record, Refusal>
    ensures stated { (source : List ℕ) → IsRead source cutter.old builder failing
        → IfOk result (λ g. Tells source g) }
    ensures refused { (source : List ℕ) → IsRead source cutter.old builder failing
        → IfErr result (λ r. r.why ≢ Why.OutOfMemory → Refused source r.number r.offset r.why) }
    ensures memory { (source : List ℕ) → IsRead source cutter.old builder failing
        → IfErr result (λ r. r.why ≡ Why.OutOfMemory → FaultlessTo source r.number r.offset) }
    ensures first { (source : List ℕ) → IsRead source cutter.old builder failing
        → IfErr result (λ r. r.why ≢ Why.Failed) }
    ensures again { IfSome failing
        (λ f. IsErrOf result
        (record { number = f.number; offset = f.offset; why = Why.Failed })) }
{
    if let Some(failing) = failing {
        return Err(failing.refusal());
    }
    let mut builder = builder;
    let length = cutter.fed();
    take_last(cutter, &mut builder)?;
    match builder.finish() {
        Some(record) => Ok(record),
        None => Err(Refusal {
            number: cutter.statements() + 1,
            offset: length,
            why: Why::Order(OrderFault::MissingTurn),
        }),
    }
}

/// Reads a whole CSA record of at most 2^63 bytes.
///
/// Returns the game that the bytes contain, or refuses the first statement with a fault: its
/// number, its offset in bytes, and the fault. Returns `Why::OutOfMemory` if an allocation fails,
/// which means that no statement up to that point has a fault. Never returns `Why::Failed`.
pub fn read(alloc: Global, source: &[u8]) -> Result<Record, Refusal>
    requires room { length source.now ≤ 2 ^ 63 }
    ensures stated { IfOk result (λ g. Tells source.now g) }
    ensures refused { IfErr result
        (λ r. r.why ≢ Why.OutOfMemory → Refused source.now r.number r.offset r.why) }
    ensures memory { IfErr result
        (λ r. r.why ≡ Why.OutOfMemory → FaultlessTo source.now r.number r.offset) }
    ensures first { IfErr result (λ r. r.why ≢ Why.Failed) }
{
    let mut reader = RecordReader::new(alloc);
    reader.feed(source)?;
    reader.finish()
}

// Takes the statement that is unfinished at the end of the bytes, if there is one.
fn take_last(cutter: &mut PieceCutter, builder: &mut RecordBuilder) -> Result<(), Refusal>
    ensures { (source : List ℕ) → HasTaken source cutter.old builder.old
        → LastTaken source result cutter.new builder.new }
{
    let last = match cutter.finish() {
        Ok(last) => last,
        Err(fault) => return Err(Refusal::from(fault)),
    };
    match last {
        Some(statement) => take_statement(builder, statement),
        None => Ok(()),
    }
}

// How many bytes were used for a statement, or its refusal.
#[inline(always)]
fn used_or_refused(
    statement: &Statement<'_>,
    used: usize,
    taken: Result<(), Why>,
) -> Result<usize, Refusal>
    ensures { MatchResult taken
        (λ _. result ≡ Ok used)
        (λ why. result ≡ Err (record
        { number = statement.now.number; offset = statement.now.offset; why = why })) }
{
    match taken {
        Ok(()) => Ok(used),
        Err(why) => Err(Refusal {
            number: statement.number,
            offset: statement.offset,
            why,
        }),
    }
}

// Takes the next statement, or says why it is refused.
#[inline(always)]
fn take_statement(builder: &mut RecordBuilder, statement: Statement<'_>) -> Result<(), Refusal>
    requires { IsOfStatement statement.bytes.now }
    ensures taken { (before : List Saying) → HasKept before builder.old
        → OnOk result (Outcome before statement.entry.bytes.now (Ok tt) builder.new) }
    ensures refused { (before : List Saying) → HasKept before builder.old
        → IfErr result
        (λ r. (r.number ≡ statement.entry.number) × (r.offset ≡ statement.entry.offset)
        × Outcome before statement.entry.bytes.now (Err r.why) builder.new) }
{
    match builder.take_bytes(statement.bytes) {
        Ok(()) => Ok(()),
        Err(why) => Err(Refusal {
            number: statement.number,
            offset: statement.offset,
            why,
        }),
    }
}
