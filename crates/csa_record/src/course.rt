ghost use Rattle.std.specs.Prelude.{◌≡◌, ◌≤◌, ◌<◌, ◌++◌, ◌∷◌, ◌+◌, ◌↔◌, [], IsOk, IfOk, IfErr, OnOk, OnErr, Option, None, length, map};
ghost use Rattle.std.specs.List.{flat_map};
ghost use Rattle.shogi_rules.specs.Play.{Answers};
ghost use Rattle.csa_text.specs.Saying.{walked};
ghost use Rattle.record_game.specs.declared.fault.Why.{Why};
ghost use Rattle.record_game.specs.Answer.{IsAnswer};
ghost use Rattle.record_game.specs.Canon.{ended_line};
ghost use Rattle.record_game.specs.Course.{PlayAnswers, course_line, untimed, play_fault, close_fault, awaits_time, time_fault, with_time, with_ending, time_at, ending_of, ending_time_of};
ghost use Rattle.record_game.specs.Validity.{IsCourse};
ghost use Rattle.csa_record.specs.Coursing.{timed, ended, lacks_last, with_last, NotPlayed};
ghost use Rattle.record_game.specs.Limits.{longest_time};
ghost use Rattle.record_game.specs.Says.{move_items, time_items, ending_items};

use csa_text::{Ending, move_bytes, write_ending, write_time};
use record_game::{OrderFault, Why};
use shogi_board::{Color, OutOfMemory, Position};
use shogi_rules::{Line, MAX_MOVES, Move};
use std::alloc::Global;
use std::marker::Model;

// For how many times room is reserved at first, as `Line` does for moves.
const FIRST_ROOM: usize = 256;

// An ending, and its time in thousandths of a second.
#[derive(Clone, Copy)]
struct Ended {
    ending: Ending,
    time: Option<u64>,
}

// A start, the moves from it with their times in thousandths of a second, and an ending.
#[derive(Drop)]
pub(crate) struct Course {
    line: Line,
    // one for each move
    times: Vec<Option<u64>>,
    ending: Option<Ended>,
}

impl Model for Course {
    ghost use Rattle.record_game.specs.Course as stated;
    ghost use Rattle.csa_record.specs.Coursing.{course_of, IsKept};

    ghost Value = { stated.Course };

    ghost view = { λ c. course_of c.line c.times.items c.ending };

    ghost invariant = { λ c. IsKept c.line c.times.items c.ending };
}

impl Course {
    // A course with that start and no moves.
    pub(crate) fn new(alloc: Global, start: Position) -> Result<Course, OutOfMemory>
        ensures { IfOk result (λ c. c ≡ record { start = start; moves = []; ending = None }) }
    {
        Ok(Course {
            line: Line::new(alloc, start)?,
            times: Vec::with_capacity(alloc, FIRST_ROOM)?,
            ending: None,
        })
    }

    // A course of the line's moves, without times. If an allocation fails, returns the line
    // unchanged.
    pub(crate) fn from_line(alloc: Global, line: Line) -> Result<Course, Line>
        ensures ok { IfOk result
            (λ c. c ≡ record {
              start = line.start;
              moves = map untimed line.moves;
              ending = None;
            }) }
        ensures err { IfErr result (λ l. l ≡ line) }
    {
        match Vec::from_elem(alloc, None, line.moves().len()) {
            Ok(times) => Ok(Course {
                line,
                times,
                ending: None,
            }),
            Err(_) => Err(line),
        }
    }

    // Does nothing: its clause says that the course is sound, for callers that do not see its
    // fields.
    #[inline(always)]
    pub(crate) fn soundness(&self)
        ensures { IsCourse self.now }
    {
        // what holds of each course is known once one of its fields is read
        let _ending = self.ending;
    }

    // The start and the moves.
    pub(crate) fn line(&self) -> &Line
        ensures { result.now ≡ course_line self.now }
    {
        &self.line
    }

    // The time of the move with this index, if there is such a move and it has one.
    pub(crate) fn time(&self, i: usize) -> Option<u64>
        ensures { result ≡ time_at self.now.moves i }
    {
        if i < self.times.len() {
            self.times[i]
        } else {
            None
        }
    }

    // How the game ended, if it has an ending.
    pub(crate) fn ending(&self) -> Option<Ending>
        ensures value { result ≡ ending_of self.now.ending }
        ensures course { IsCourse self.now }
    {
        self.ending.map(|ended| ended.ending)
    }

    // The time of the ending, if it has one.
    pub(crate) fn ending_time(&self) -> Option<u64>
        ensures { result ≡ ending_time_of self.now.ending }
    {
        self.ending?.time
    }

    // Why no further move may be played, or `None`.
    fn play_fault(&self) -> Option<OrderFault>
        ensures { result ≡ play_fault self.now }
    {
        if self.ending.is_some() {
            return Some(OrderFault::AfterEnding);
        }
        if self.times.len() >= MAX_MOVES {
            return Some(OrderFault::TooManyMoves);
        }
        None
    }

    // Plays the move of that side, or says why it is refused and changes nothing.
    #[inline(always)]
    pub(crate) fn play(&mut self, color: Color, mv: Move) -> Result<(), Why>
        ensures answer { (answer : Option Why) × PlayAnswers self.old color mv answer
            × IsAnswer answer result }
        ensures changed { OnOk result
            (self.new ≡ record self.old { moves = self.old.moves ++ untimed mv ∷ [] }) }
        ensures unchanged { OnErr result (self.new ≡ self.old) }
        ensures course { IsCourse self.new }
    {
        if let Some(fault) = self.play_fault() {
            return Err(Why::Order(fault));
        }
        if self.times.reserve(1).is_err() {
            return Err(why_without_room(&self.line, color, &mv));
        }
        play_on(&mut self.line, color, mv)?;
        self.times.push_reserved(None);
        Ok(())
    }

    // Whether the ending, or else the last move, may be given a time.
    fn awaits_time(&self) -> bool
        ensures { result ≡ awaits_time self.now }
    {
        match self.ending {
            Some(ended) => ended.time.is_none(),
            None => last_missing(self.times.as_slice()),
        }
    }

    // Sets the time of the ending, or else of the last move, if it may be given one.
    pub(crate) fn set_time(&mut self, thousandths: u64) -> Result<(), Why>
        requires { thousandths ≤ longest_time }
        ensures ok { IsOk result ↔ (time_fault self.old ≡ None) }
        ensures answer { IsAnswer (time_fault self.old) result }
        ensures changed { OnOk result (self.new ≡ with_time self.old thousandths) }
        ensures unchanged { OnErr result (self.new ≡ self.old) }
        ensures course { IsCourse self.new }
    {
        if !self.awaits_time() {
            return Err(Why::Order(OrderFault::LooseTime));
        }
        match self.ending {
            Some(ended) => {
                self.ending = Some(Ended {
                    ending: ended.ending,
                    time: Some(thousandths),
                });
            }
            None => set_last(&mut self.times, thousandths),
        }
        Ok(())
    }

    // Sets the ending, without a time, if there is none yet.
    pub(crate) fn close(&mut self, ending: Ending) -> Result<(), Why>
        ensures ok { IsOk result ↔ (close_fault self.old ≡ None) }
        ensures answer { IsAnswer (close_fault self.old) result }
        ensures changed { OnOk result (self.new ≡ with_ending self.old ending) }
        ensures unchanged { OnErr result (self.new ≡ self.old) }
        ensures course { IsCourse self.new }
    {
        if self.ending.is_some() {
            return Err(Why::Order(OrderFault::AfterEnding));
        }
        self.ending = Some(Ended { ending, time: None });
        Ok(())
    }

    // Adds the lines of the moves, of their times and of the ending.
    pub(crate) fn write_moves(&self, out: &mut Vec<u8>) -> Result<(), OutOfMemory>
        ensures { OnOk result (out.new.items ≡ out.old.items
            ++ flat_map ended_line
            (move_items self.now.start.side self.now.moves ++ ending_items self.now.ending)) }
    {
        write_each(
            out,
            self.line.start().side(),
            self.line.moves(),
            &self.times,
        )?;
        write_ending_line(out, self.ending)
    }
}

// Plays the move.
#[inline(always)]
fn play_on(line: &mut Line, color: Color, mv: Move) -> Result<(), Why>
    ensures ok { OnOk result
        (Answers line.old color mv None
        × (line.new ≡ record line.old { moves = line.old.moves ++ mv ∷ [] })) }
    ensures err { IfErr result (λ why. NotPlayed line.old color mv why) }
    ensures unchanged { OnErr result (line.new ≡ line.old) }
{
    match line.play(color, mv) {
        Ok(()) => Ok(()),
        Err(fault) => Err(Why::from(fault)),
    }
}

// Why the move is not played if there is no memory for it.
fn why_without_room(line: &Line, color: Color, mv: &Move) -> Why
    ensures { NotPlayed line.now color mv.now result }
{
    match line.fault(color, mv) {
        Some(fault) => Why::from(fault),
        None => Why::OutOfMemory,
    }
}

// Whether the last time is missing.
fn last_missing(times: &[Option<u64>]) -> bool
    ensures { result ≡ lacks_last times.now }
{
    match times.last() {
        Some(time) => time.is_none(),
        None => false,
    }
}

// Sets the last time, if there is one.
fn set_last(times: &mut Vec<Option<u64>>, time: u64)
    ensures { times.new.items ≡ with_last times.old.items time }
{
    let count = times.len();
    if count > 0 {
        times[count - 1] = Some(time);
    }
}

// Adds the lines of the moves and of their times. The first move is that of this side.
fn write_each(
    out: &mut Vec<u8>,
    side: Color,
    moves: &[Move],
    times: &[Option<u64>],
) -> Result<(), OutOfMemory>
    requires { length times.now ≡ length moves.now }
    ensures { OnOk result
        (out.new.items
        ≡ out.old.items ++ flat_map ended_line (move_items side (timed moves.now times.now))) }
{
    let mut color = side;
    for i in 0..moves.len() {
        write_move_line(out, color, &moves[i])?;
        write_time_line(out, times[i])?;
        color = !color;
    }
    Ok(())
}

// Adds the line of a move of that side.
#[inline(always)]
fn write_move_line(out: &mut Vec<u8>, color: Color, mv: &Move) -> Result<(), OutOfMemory>
    ensures { OnOk result (out.new.items ≡ out.old.items ++ ended_line (walked color mv.now)) }
{
    // one write for the move and its LF is quicker than two
    let [sign, file, rank, to_file, to_rank, first, second] = move_bytes(color, mv);
    out.extend_from_slice(&[sign, file, rank, to_file, to_rank, first, second, b'\n'])?;
    Ok(())
}

fn write_ending_line(out: &mut Vec<u8>, ending: Option<Ended>) -> Result<(), OutOfMemory>
    ensures { OnOk result
        (out.new.items ≡ out.old.items ++ flat_map ended_line (ending_items (ended ending))) }
{
    let Some(ended) = ending else {
        return Ok(());
    };
    write_ending(out, ended.ending)?;
    out.push(b'\n')?;
    write_time_line(out, ended.time)
}

#[inline(always)]
fn write_time_line(out: &mut Vec<u8>, time: Option<u64>) -> Result<(), OutOfMemory>
    ensures { OnOk result (out.new.items ≡ out.old.items ++ flat_map ended_line (time_items time)) }
{
    let Some(thousandths) = time else {
        return Ok(());
    };
    write_time(out, thousandths)?;
    out.push(b'\n')?;
    Ok(())
}
