ghost use Rattle.std.specs.Prelude.{◌≡◌, ℕ, ◌+◌, ◌≤◌, [], ◌∷◌, ◌++◌, List, length, Option, Some, None, Ok, Err, MatchResult, MatchOption, true};
ghost use Rattle.std.specs.List.{AllByRecursion};
ghost use Rattle.shogi_board.specs.Setup.{position_of};
ghost use Rattle.csa_text.specs.Saying.{Saying, version, name, header, even, rank, pieces, turn, walked, time, ending, saying_of, pairs_of};
ghost use Rattle.record_game.specs.declared.fault.Why.{Why};
ghost use Rattle.record_game.specs.Answer.{IsAnswer};
ghost use Rattle.record_game.specs.Fits.{Fits, IsHeaderLine, IsOfStatement};
ghost use Rattle.record_game.specs.Items.{sides};
ghost use Rattle.record_game.specs.Keeping.{HasKept};
ghost use Rattle.record_game.specs.Taking.{TakenOrRefused};
ghost use Rattle.record_game.specs.Laying.{Lays};
ghost use Rattle.record_game.specs.Limits.{IsOneLine, longest_time};
ghost use Rattle.record_game.specs.Outcome.{Outcome, IsWritten, late};
ghost use Rattle.record_game.specs.Refused.{Finishes};
ghost use Rattle.record_game.specs.Says.{Says};
ghost use Rattle.csa_cutting.specs.Cut.{longest_statement};

use crate::course::Course;
use crate::laying::Laying;
use crate::record::Record;
use crate::titles::Titles;
use csa_text::{Ending, Item, Pairs, read_item};
use record_game::{OrderFault, Why};
use shogi_board::{Color, Piece};
use shogi_rules::Move;
use std::alloc::Global;
use std::marker::Model;

// The start while it is laid out, or what is played from it.
#[derive(Drop)]
enum Stage {
    Laying(Laying),
    Playing(Course),
}

// What is kept of the statements so far.
#[derive(Drop)]
pub(crate) struct RecordBuilder {
    alloc: Global,
    begun: bool,
    titles: Titles,
    stage: Stage,
}

impl Model for RecordBuilder {
    ghost use Rattle.record_game.specs.Keeping.{Kept};
    ghost use Rattle.csa_record.specs.KeptStage.{stage_of};

    ghost Value = { Kept };

    ghost view = { λ p. record { begun = p.begun; titles = p.titles; stage = stage_of p.stage } };
}

impl RecordBuilder {
    // A builder that has been given no statement. Allocates nothing.
    pub(crate) fn new(alloc: Global) -> RecordBuilder
        ensures { HasKept [] result }
    {
        RecordBuilder::from_laying(alloc, Laying::new())
    }

    // The same. `laying` has nothing laid out yet.
    pub(crate) fn from_laying(alloc: Global, laying: Laying) -> RecordBuilder
        requires { Lays [] laying }
        ensures { HasKept [] result }
    {
        RecordBuilder {
            alloc,
            begun: false,
            titles: Titles::new(alloc),
            stage: Stage::Laying(laying),
        }
    }

    // The record, if the side to move has been given.
    pub(crate) fn finish(self) -> Option<Record>
        ensures { (sayings : List Saying) → HasKept sayings self → AllByRecursion IsWritten sayings
            → MatchOption result (sides sayings ≡ []) (λ g. Says sayings g) }
    {
        let RecordBuilder {
            alloc: _,
            begun: _,
            titles,
            stage,
        } = self;
        match stage {
            Stage::Laying(_) => None,
            Stage::Playing(course) => Some(Record::from_parts(titles, course)),
        }
    }

    // Takes the bytes of the next statement, or says why they are refused.
    #[inline(always)]
    pub(crate) fn take_bytes(&mut self, bytes: &[u8]) -> Result<(), Why>
        requires { IsOfStatement bytes.now }
        ensures { (before : List Saying) → HasKept before self.old
            → Outcome before bytes.now result self.new }
    {
        let item = read_item(bytes)?;
        self.take(item)
    }

    // As `take`, for a move.
    #[inline(always)]
    pub(crate) fn take_walked(&mut self, color: Color, mv: Move) -> Result<(), Why>
        ensures { (before : List Saying) → HasKept before self.old
            → TakenOrRefused before (walked color mv) result self.new }
    {
        let taken = self.take_move(color, mv);
        self.begun = true;
        taken
    }

    // As `take`, for a time.
    #[inline(always)]
    pub(crate) fn take_timed(&mut self, thousandths: u64) -> Result<(), Why>
        requires { thousandths ≤ longest_time }
        ensures { (before : List Saying) → HasKept before self.old
            → TakenOrRefused before (time thousandths) result self.new }
    {
        let taken = self.take_time(thousandths);
        self.begun = true;
        taken
    }

    // Takes the next item, or says why it does not fit. Only this call, `take_walked` and
    // `take_timed` record that there has been an item.
    #[inline(always)]
    fn take(&mut self, item: Item<'_>) -> Result<(), Why>
        requires { Fits (saying_of item) }
        ensures { (before : List Saying) → HasKept before self.old
            → TakenOrRefused before (saying_of item.entry) result self.new }
    {
        let taken = match item {
            Item::Version => self.take_version(),
            Item::Name(color, text) => self.take_name(color, text),
            Item::Header(key, text) => self.take_header(key, text),
            Item::Even(pairs) => self.take_even(pairs),
            Item::Rank(number, cells) => self.take_rank(number, &cells),
            Item::Pieces(color, pairs) => self.take_pieces(color, pairs),
            Item::Turn(color) => self.take_turn(color),
            Item::Walked(color, mv) => self.take_move(color, mv),
            Item::Time(thousandths) => self.take_time(thousandths),
            Item::Ending(ending) => self.take_ending(ending),
        };
        self.begun = true;
        taken
    }

    fn take_version(&mut self) -> Result<(), Why>
        ensures { (before : List Saying) → HasKept before self.old
            → TakenOrRefused before version result (record self.new { begun = true }) }
    {
        if self.begun {
            return Err(Why::Order(OrderFault::VersionOutOfPlace));
        }
        Ok(())
    }

    fn take_name(&mut self, color: Color, text: &[u8]) -> Result<(), Why>
        requires one_line { IsOneLine text.now }
        requires fits { 2 + length text.now ≤ longest_statement }
        ensures { (before : List Saying) → HasKept before self.old
            → TakenOrRefused before (name color text.now) result
            (record self.new { begun = true }) }
    {
        self.titles.set_name(color, text)
    }

    fn take_header(&mut self, key: &[u8], text: &[u8]) -> Result<(), Why>
        requires { IsHeaderLine key.now text.now }
        ensures { (before : List Saying) → HasKept before self.old
            → TakenOrRefused before (header key.now text.now) result
            (record self.new { begun = true }) }
    {
        self.titles.set_header(key, text)
    }

    fn take_even(&mut self, pairs: Pairs<'_>) -> Result<(), Why>
        ensures { (before : List Saying) → HasKept before self.old
            → TakenOrRefused before (even (pairs_of pairs.entry)) result
            (record self.new { begun = true }) }
    {
        match &mut self.stage {
            Stage::Laying(laying) => laying.lay_even(pairs),
            Stage::Playing(course) => Err(late_in(course, OrderFault::PositionLate)),
        }
    }

    fn take_rank(&mut self, number: u8, cells: &[Option<Piece>; 9]) -> Result<(), Why>
        requires low { 1 ≤ number }
        requires high { number ≤ 9 }
        ensures { (before : List Saying) → HasKept before self.old
            → TakenOrRefused before (rank number cells.now) result
            (record self.new { begun = true }) }
    {
        match &mut self.stage {
            Stage::Laying(laying) => laying.lay_rank(number, cells),
            Stage::Playing(course) => Err(late_in(course, OrderFault::PositionLate)),
        }
    }

    fn take_pieces(&mut self, color: Color, pairs: Pairs<'_>) -> Result<(), Why>
        ensures { (before : List Saying) → HasKept before self.old
            → TakenOrRefused before (pieces color (pairs_of pairs.entry)) result
            (record self.new { begun = true }) }
    {
        match &mut self.stage {
            Stage::Laying(laying) => laying.lay_pieces(color, pairs),
            Stage::Playing(course) => Err(late_in(course, OrderFault::PositionLate)),
        }
    }

    fn take_turn(&mut self, color: Color) -> Result<(), Why>
        ensures { (before : List Saying) → HasKept before self.old
            → TakenOrRefused before (turn color) result (record self.new { begun = true }) }
    {
        let course = match &self.stage {
            Stage::Laying(laying) => course_from(self.alloc, laying, color)?,
            Stage::Playing(course) => return Err(late_in(course, OrderFault::RepeatedTurn)),
        };
        self.stage = Stage::Playing(course);
        Ok(())
    }

    #[inline(always)]
    fn take_move(&mut self, color: Color, mv: Move) -> Result<(), Why>
        ensures { (before : List Saying) → HasKept before self.old
            → TakenOrRefused before (walked color mv) result (record self.new { begun = true }) }
    {
        match &mut self.stage {
            Stage::Laying(_) => Err(Why::Order(OrderFault::MoveBeforeTurn)),
            Stage::Playing(course) => course.play(color, mv),
        }
    }

    #[inline(always)]
    fn take_time(&mut self, thousandths: u64) -> Result<(), Why>
        requires { thousandths ≤ longest_time }
        ensures { (before : List Saying) → HasKept before self.old
            → TakenOrRefused before (time thousandths) result (record self.new { begun = true }) }
    {
        match &mut self.stage {
            Stage::Laying(_) => Err(Why::Order(OrderFault::LooseTime)),
            Stage::Playing(course) => course.set_time(thousandths),
        }
    }

    fn take_ending(&mut self, how: Ending) -> Result<(), Why>
        ensures { (before : List Saying) → HasKept before self.old
            → TakenOrRefused before (ending how) result (record self.new { begun = true }) }
    {
        match &mut self.stage {
            Stage::Laying(_) => Err(Why::Order(OrderFault::MoveBeforeTurn)),
            Stage::Playing(course) => course.close(how),
        }
    }
}

// The course with the start that is laid out, that side to move, and no moves.
fn course_from(alloc: Global, laying: &Laying, side: Color) -> Result<Course, Why>
    ensures { MatchResult result
        (λ c. Finishes (Ok laying.now.layout) side None
        × (c ≡ record { start = position_of laying.now.layout side; moves = []; ending = None }))
        (λ why. (answer : Option Why) × Finishes (Ok laying.now.layout) side answer
        × IsAnswer answer (Err why)) }
{
    let start = laying.finish(side)?;
    match Course::new(alloc, start) {
        Ok(course) => Ok(course),
        Err(_) => Err(Why::OutOfMemory),
    }
}

// Why a statement of the start comes too late.
fn late_in(course: &Course, fault: OrderFault) -> Why
    ensures { result ≡ Why.Order (late course.now.ending fault) }
{
    match course.ending() {
        Some(_) => Why::Order(OrderFault::AfterEnding),
        None => Why::Order(fault),
    }
}
