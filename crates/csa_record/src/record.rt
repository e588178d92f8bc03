ghost use Rattle.std.specs.Prelude.{◌≡◌, ◌≢◌, ◌≤◌, ◌+◌, ◌++◌, ◌∷◌, ◌↔◌, [], length, map, Option, Some, None, IsOk, IfOk, IfErr, IfSome, OnOk, OnErr, MatchOption};
ghost use Rattle.csa_text.specs.Fields.{HasNone};
ghost use Rattle.record_game.specs.declared.fault.Why.{Why};
ghost use Rattle.record_game.specs.Answer.{IsAnswer};
ghost use Rattle.record_game.specs.Building.{titled_of, course_of, game_of, with_titled, with_course, game_along};
ghost use Rattle.record_game.specs.Course.{PlayAnswers, untimed, time_fault, close_fault, with_time, with_ending, time_at, ending_of, ending_time_of};
ghost use Rattle.record_game.specs.Game.{move_of};
ghost use Rattle.record_game.specs.Limits.{IsGame, IsName, IsOneLine, longest_time};
ghost use Rattle.record_game.specs.Titles.{IsWithHeader, name_of, name_fault, header_fault, with_name, under};
ghost use Rattle.csa_record.specs.HeaderValues.{shown};
ghost use Rattle.csa_cutting.specs.Cut.{longest_statement};

use crate::course::Course;
use crate::titles::{HeaderValue, Titles};
use csa_text::Ending;
use record_game::Why;
use shogi_board::{Color, OutOfMemory, Position};
use shogi_rules::{Line, Move};
use std::alloc::Global;
use std::marker::Model;

/// A game as a CSA record contains it: the names of both sides, headers, a start, legal moves from
/// it with their times, and an ending.
#[derive(Drop)]
pub struct Record {
    titles: Titles,
    course: Course,
}

impl Model for Record {
    ghost use Rattle.record_game.specs.Building.{game_of};
    ghost use Rattle.record_game.specs.Game.{Game};
    ghost use Rattle.record_game.specs.Limits.{IsGame};

    ghost Value = { Game };

    ghost view = { λ r. game_of r.titles r.course };

    ghost invariant = { λ r. IsGame (game_of r.titles r.course) };
}

impl Record {
    /// Creates the record of a start alone, with no names, headers, moves or ending.
    ///
    /// Returns `OutOfMemory` if an allocation fails.
    pub fn new(alloc: Global, start: Position) -> Result<Record, OutOfMemory>
        ensures game { IfOk result (λ r. r ≡ game_along (record { start = start; moves = [] })) }
    {
        let course = Course::new(alloc, start)?;
        Ok(Record::from_parts(Titles::new(alloc), course))
    }

    /// Creates the record of the line's start and moves, with no names, headers, times or ending.
    ///
    /// If an allocation fails, returns the line unchanged.
    pub fn from_line(alloc: Global, line: Line) -> Result<Record, Line>
        ensures ok { IfOk result (λ r. r ≡ game_along line) }
        ensures err { IfErr result (λ l. l ≡ line) }
    {
        let course = Course::from_line(alloc, line)?;
        Ok(Record::from_parts(Titles::new(alloc), course))
    }

    // The record of these parts.
    pub(crate) fn from_parts(titles: Titles, course: Course) -> Record
        ensures parts { result ≡ game_of titles course }
        ensures game { IsGame result }
    {
        titles.soundness();
        course.soundness();
        Record { titles, course }
    }

    /// Gives that side its name, in any character set. An empty name counts as none: it is accepted
    /// and changes nothing.
    ///
    /// The name must have no CR or LF, and at most 4,094 bytes. Refuses `RepeatedName` if that side
    /// already has a name, then `OutOfMemory` if an allocation fails. A refusal changes nothing.
    pub fn set_name(&mut self, color: Color, text: &[u8]) -> Result<(), Why>
        requires one_line { IsOneLine text.now }
        requires fits { 2 + length text.now ≤ longest_statement }
        ensures answer { IsAnswer (name_fault (titled_of self.old) color text.now) result }
        ensures empty { text.now ≡ [] → IsOk result }
        ensures changed { OnOk result
            (self.new ≡ with_titled self.old (with_name (titled_of self.old) color text.now)) }
        ensures unchanged { OnErr result (self.new ≡ self.old) }
    {
        self.titles.set_name(color, text)
    }

    /// That side's name, if it has one. It is not empty and has no CR or LF.
    pub fn name(&self, color: Color) -> Option<&[u8]>
        ensures value { MatchOption result
            (name_of (titled_of self.now) color ≡ None)
            (λ name. name_of (titled_of self.now) color ≡ Some name.now) }
        ensures some { IfSome result (λ name. IsName name.now) }
    {
        self.titles.name(color)
    }

    /// Adds a header. One with an empty text counts as none: it is accepted and changes nothing.
    /// For the keys `START_TIME` and `END_TIME` a text that spells a moment is kept as that moment.
    ///
    /// The key must not be empty and must have no colon. Neither key nor text may have a CR or LF,
    /// and together they may have at most 4,094 bytes. Refuses `RepeatedHeader` if there is a
    /// header with that key, then `TooManyHeaders` if there are already 64 headers, then
    /// `OutOfMemory` if an allocation fails. A refusal changes nothing.
    pub fn set_header(&mut self, key: &[u8], text: &[u8]) -> Result<(), Why>
        requires some { key.now ≢ [] }
        requires key_line { IsOneLine key.now }
        requires text_line { IsOneLine text.now }
        requires no_colon { HasNone 58 key.now }
        requires fits { 2 + length key.now + length text.now ≤ longest_statement }
        ensures answer { IsAnswer (header_fault (titled_of self.old) key.now text.now) result }
        ensures empty { text.now ≡ [] → IsOk result }
        ensures changed { OnOk result
            (IsWithHeader (titled_of self.old) key.now text.now (titled_of self.new)) }
        ensures rest { self.new ≡ with_titled self.old (titled_of self.new) }
        ensures unchanged { OnErr result (self.new ≡ self.old) }
    {
        self.titles.set_header(key, text)
    }

    /// The value of this header, if there is one.
    pub fn header(&self, key: &[u8]) -> Option<HeaderValue<'_>>
        ensures value { MatchOption result
            (under key.now self.now.headers ≡ [])
            (λ value. under key.now self.now.headers
            ≡ record { key = key.now; text = shown value } ∷ []) }
    {
        self.titles.header(key)
    }

    /// The start and the moves.
    pub fn line(&self) -> &Line
        ensures value { result.now
            ≡ record { start = self.now.start; moves = map move_of self.now.moves } }
    {
        self.course.line()
    }

    /// Plays a move of that side, without a time.
    ///
    /// Refuses `AfterEnding` if the record has an ending, then `TooManyMoves` if it already has
    /// 10,000 moves, then the first rule that the move breaks, then `OutOfMemory` if an allocation
    /// fails. A refusal changes nothing.
    pub fn play(&mut self, color: Color, mv: Move) -> Result<(), Why>
        ensures answer { (answer : Option Why) × PlayAnswers (course_of self.old) color mv answer
            × IsAnswer answer result }
        ensures changed { OnOk result
            (self.new ≡ record self.old { moves = self.old.moves ++ untimed mv ∷ [] }) }
        ensures unchanged { OnErr result (self.new ≡ self.old) }
    {
        self.course.play(color, mv)
    }

    /// Sets the time that the ending or, if there is none, the last move took, in thousandths of a
    /// second.
    ///
    /// The time may be at most 4,294,967,295,999. Refuses `LooseTime` if there is neither a move
    /// nor an ending, or if that one already has a time. A refusal changes nothing. Allocates
    /// nothing.
    pub fn set_time(&mut self, thousandths: u64) -> Result<(), Why>
        requires limit { thousandths ≤ longest_time }
        ensures ok { IsOk result ↔ (time_fault (course_of self.old) ≡ None) }
        ensures answer { IsAnswer (time_fault (course_of self.old)) result }
        ensures changed { OnOk result
            (self.new ≡ with_course self.old (with_time (course_of self.old) thousandths)) }
        ensures unchanged { OnErr result (self.new ≡ self.old) }
    {
        self.course.set_time(thousandths)
    }

    /// The time that the move with this index took, in thousandths of a second. The index is
    /// counted from 0. Returns `None` if the move has no time, or if there is no such move.
    pub fn time(&self, i: usize) -> Option<u64>
        ensures value { result ≡ time_at self.now.moves i }
    {
        self.course.time(i)
    }

    /// Ends the game in this way, without a time.
    ///
    /// Refuses `AfterEnding` if the record already has an ending. A refusal changes nothing.
    /// Allocates nothing.
    pub fn close(&mut self, ending: Ending) -> Result<(), Why>
        ensures ok { IsOk result ↔ (close_fault (course_of self.old) ≡ None) }
        ensures answer { IsAnswer (close_fault (course_of self.old)) result }
        ensures changed { OnOk result
            (self.new ≡ with_course self.old (with_ending (course_of self.old) ending)) }
        ensures unchanged { OnErr result (self.new ≡ self.old) }
    {
        self.course.close(ending)
    }

    /// How the game ended, if the record says it.
    pub fn ending(&self) -> Option<Ending>
        ensures value { result ≡ ending_of self.now.ending }
        ensures game { IsGame self.now }
    {
        self.course.ending()
    }

    /// The time that the ending took, in thousandths of a second, if it has one.
    pub fn ending_time(&self) -> Option<u64>
        ensures value { result ≡ ending_time_of self.now.ending }
    {
        self.course.ending_time()
    }

    // Its names and headers.
    pub(crate) fn titles(&self) -> &Titles
        ensures { result.now ≡ titled_of self.now }
    {
        &self.titles
    }

    // Its start, its moves and its ending.
    pub(crate) fn course(&self) -> &Course
        ensures value { result.now ≡ course_of self.now }
        ensures game { IsGame self.now }
    {
        &self.course
    }
}
