ghost use Rattle.std.specs.Prelude.{◌≡◌, None, Some, IfOk, MatchOption, OnOk, bytes_eq};
ghost use Rattle.csa_record.specs.Game.{Game};
ghost use Rattle.csa_record.specs.Limits.{IsOneLine};
ghost use Rattle.shogi_session.specs.HearingStage.{IsFitting, IsGameIn, IsPlace, blocks_of, ended_blocks, first_block, title_of};
ghost use Rattle.session_lines.specs.LineTexts as texts;
ghost use Rattle.bridge_table.specs.Hearing.{extended, content_after, one_more, opened, outside, value_or};
ghost use Rattle.shogi_session.specs.Offers.{IsOfferOf, offer_of};
ghost use Rattle.shogi_session.specs.SummaryFaults.{IsFaultOf};
ghost use Rattle.bridge_table.specs.Summary.{Offer, SummaryContent, TellsOffer, end_line, is_position, no_content};

use crate::offer::{GameOffer, name_offer, read_client};
use crate::position_reader::{EndedPosition, PositionReader};
use crate::summary_fault::SummaryFault;
use csa_record::Record;
use session_lines::texts;
use shogi_board::OutOfMemory;
use std::alloc::Global;
use std::marker::Model;
use std::mem;

// The position blocks of a summary that have ended: none, the only one, or several.
#[derive(Drop)]
enum Positions {
    Missing,
    One(EndedPosition),
    Several,
}

// The block of a summary that has not ended yet.
#[derive(Drop)]
enum Begun {
    // There is none.
    Nothing,
    // The first position block.
    Position(PositionReader),
    // A further position block. Its lines do not count.
    Another,
    // Another block, which has this title.
    Other(Vec<u8>),
}

// What a line of a summary is, by its place.
#[derive(Clone, Copy)]
enum SummaryPlace {
    // The first line of a block.
    Begins,
    // A line outside all blocks.
    Outside,
    // The last line of a block.
    Ends,
    // A line in a position block.
    InPosition,
    // A line in another block.
    Skipped,
}

// What counts of the lines of a game summary so far. Nothing else is kept.
#[derive(Drop)]
pub(crate) struct SummaryReader {
    alloc: Global,
    black: Vec<u8>,
    white: Vec<u8>,
    turn: Vec<u8>,
    positions: Positions,
    begun: Begun,
}

impl Model for SummaryReader {
    ghost use Rattle.csa_record.specs.Limits.{IsOneLine};
    ghost use Rattle.shogi_session.specs.HearingStage.{IsFitting, blocks_of, title_of};
    ghost use Rattle.bridge_table.specs.Summary.{SummaryContent};

    ghost Value = { SummaryContent };

    ghost view = { λ s. record {
      black = s.black.items;
      white = s.white.items;
      turn = s.turn.items;
      positions = blocks_of s.positions s.begun;
      begun = title_of s.begun;
    } };

    ghost invariant = { λ s. IsOneLine s.black.items
        × IsOneLine s.white.items × IsFitting s.begun };
}

impl SummaryReader {
    // A reader after `BEGIN Game_Summary`.
    pub(crate) fn new(alloc: Global) -> SummaryReader
        ensures { result ≡ no_content }
    {
        SummaryReader {
            alloc,
            black: Vec::new(alloc),
            white: Vec::new(alloc),
            turn: Vec::new(alloc),
            positions: Positions::Missing,
            begun: Begun::Nothing,
        }
    }

    // Takes the next line, which is not `END Game_Summary`.
    pub(crate) fn take(&mut self, line: &[u8]) -> Result<(), OutOfMemory>
        requires { IsOneLine line.now }
        ensures { OnOk result (self.new ≡ content_after self.old line.now) }
    {
        match place_of(&self.begun, line) {
            SummaryPlace::Begins => self.begin(&line[texts::BEGIN.len()..]),
            SummaryPlace::Outside => self.take_values(line),
            SummaryPlace::Ends => self.end(),
            SummaryPlace::InPosition => self.take_position(line),
            SummaryPlace::Skipped => Ok(()),
        }
    }

    // The offer that the lines make as a whole summary; or None if they make none, and nothing
    // changes.
    pub(crate) fn finish(&mut self) -> Result<Option<GameOffer>, OutOfMemory>
        ensures stated { IfOk result (λ found. IsOfferOf self.old (offer_of found)) }
        ensures unstated { IfOk result (λ found. found ≡ None → self.new ≡ self.old) }
    {
        let Begun::Nothing = &self.begun else {
            return Ok(None);
        };
        let black = self.black.as_slice();
        let white = self.white.as_slice();
        let Ok(client) = read_client(black, white, self.turn.as_slice()) else {
            return Ok(None);
        };
        match take_game(&mut self.positions) {
            Some(game) => Ok(Some(name_offer(client, game, black, white)?)),
            None => Ok(None),
        }
    }

    // Why the lines offer no game as a whole summary, or None if they offer one.
    pub(crate) fn fault(&self) -> Option<SummaryFault>
        ensures { MatchOption result ((o : Offer) × TellsOffer self.now o) (IsFaultOf self.now) }
    {
        let Begun::Nothing = &self.begun else {
            return Some(SummaryFault::OpenBlock);
        };
        let black = self.black.as_slice();
        let white = self.white.as_slice();
        match read_client(black, white, self.turn.as_slice()) {
            Ok(_) => position_fault(&self.positions),
            Err(fault) => Some(fault),
        }
    }

    // Begins a block of that title, outside all others.
    fn begin(&mut self, title: &[u8]) -> Result<(), OutOfMemory>
        requires { self.old.begun ≡ None }
        ensures { OnOk result (self.new ≡ opened self.old title.now) }
    {
        self.begun = if is_position(title) {
            begun_position(&self.positions, self.alloc)
        } else {
            let mut held = Vec::new(self.alloc);
            held.extend_from_slice(title)?;
            Begun::Other(held)
        };
        Ok(())
    }

    // Ends the block that is open.
    fn end(&mut self) -> Result<(), OutOfMemory>
        ensures { OnOk result (self.new ≡ record self.old { begun = None }) }
    {
        match mem::replace(&mut self.begun, Begun::Nothing) {
            Begun::Position(reader) => {
                let ended = reader.finish()?;
                count_one(&mut self.positions, ended);
            }
            Begun::Another => self.positions = Positions::Several,
            Begun::Nothing | Begun::Other(_) => {}
        }
        Ok(())
    }

    // Takes a line of a position block.
    fn take_position(&mut self, line: &[u8]) -> Result<(), OutOfMemory>
        requires { self.old.begun ≡ Some texts.position_title }
        ensures { OnOk result
            (self.new ≡ record self.old { positions = extended self.old.positions line.now }) }
    {
        self.begun = match mem::replace(&mut self.begun, Begun::Nothing) {
            Begun::Position(reader) => Begun::Position(reader.take(line)?),
            other => other,
        };
        Ok(())
    }

    // Keeps the name or the client's side, if the line gives one.
    fn take_values(&mut self, line: &[u8]) -> Result<(), OutOfMemory>
        requires { IsOneLine line.now }
        ensures { OnOk result (self.new ≡ outside self.old line.now) }
    {
        take_value(&mut self.black, texts::BLACK_NAME, line)?;
        take_value(&mut self.white, texts::WHITE_NAME, line)?;
        take_value(&mut self.turn, texts::YOUR_TURN, line)
    }
}

// The line's place, by the title of the block that has not ended.
fn place_of(begun: &Begun, line: &[u8]) -> SummaryPlace
    ensures { IsPlace (title_of begun.now) line.now result }
{
    match begun {
        Begun::Nothing => place_outside(line),
        Begun::Position(_) | Begun::Another => place_within(texts::POSITION_TITLE, line),
        Begun::Other(title) => place_within(title.as_slice(), line),
    }
}

fn place_outside(line: &[u8]) -> SummaryPlace
    ensures { IsPlace None line.now result }
{
    if line.starts_with(texts::BEGIN) {
        SummaryPlace::Begins
    } else {
        SummaryPlace::Outside
    }
}

fn place_within(title: &[u8], line: &[u8]) -> SummaryPlace
    ensures { IsPlace (Some title.now) line.now result }
{
    if is_end_of(title, line) {
        SummaryPlace::Ends
    } else if is_position(title) {
        SummaryPlace::InPosition
    } else {
        SummaryPlace::Skipped
    }
}

// Whether the line ends a block of that title.
fn is_end_of(title: &[u8], line: &[u8]) -> bool
    ensures { result ≡ bytes_eq line.now (end_line title.now) }
{
    line.strip_prefix(texts::END) == Some(title)
}

fn is_position(title: &[u8]) -> bool
    ensures { result ≡ is_position title.now }
{
    title == texts::POSITION_TITLE
}

// Replaces what is kept by what follows the key, if the line begins with the key.
fn take_value(kept: &mut Vec<u8>, key: &[u8], line: &[u8]) -> Result<(), OutOfMemory>
    ensures value { OnOk result (kept.new.items ≡ value_or key.now kept.old.items line.now) }
    ensures one_line { IsOneLine kept.old.items → IsOneLine line.now → IsOneLine kept.new.items }
{
    if let Some(value) = line.strip_prefix(key) {
        kept.clear();
        kept.extend_from_slice(value)?;
    }
    Ok(())
}

// The next position block, without lines.
fn begun_position(positions: &Positions, alloc: Global) -> Begun
    ensures fits { IsFitting result }
    ensures title { title_of result ≡ Some texts.position_title }
    ensures blocks { blocks_of positions.now result ≡ one_more (ended_blocks positions.now) }
{
    match positions {
        Positions::Missing => Begun::Position(PositionReader::new(alloc)),
        Positions::One(_) | Positions::Several => Begun::Another,
    }
}

// Counts the first position block, which has ended.
fn count_one(positions: &mut Positions, ended: EndedPosition)
    ensures { ended_blocks positions.new ≡ first_block positions.old ended }
{
    *positions = match positions {
        Positions::Missing => Positions::One(ended),
        Positions::One(_) | Positions::Several => Positions::Several,
    };
}

// Why the position blocks give no game, or None if they give one.
fn position_fault(positions: &Positions) -> Option<SummaryFault>
    ensures { MatchOption result ((g : Game) × IsGameIn positions.now (Some g))
        (λ fault. (h : SummaryContent) → h.positions ≡ ended_blocks positions.now
        → IsFaultOf h fault) }
{
    match positions {
        Positions::Missing => Some(SummaryFault::NoPosition),
        Positions::One(ended) => {
            if ended.is_game() {
                None
            } else {
                Some(SummaryFault::BadPosition)
            }
        }
        Positions::Several => Some(SummaryFault::SeveralPositions),
    }
}

// The game of the only position block; or None if there is none, and nothing changes.
fn take_game(positions: &mut Positions) -> Option<Record>
    ensures game { IsGameIn positions.old result }
    ensures kept { result ≡ None → positions.new ≡ positions.old }
{
    match mem::replace(positions, Positions::Missing) {
        Positions::One(ended) => match ended.into_game() {
            Ok(game) => Some(game),
            Err(ended) => {
                *positions = Positions::One(ended);
                None
            }
        },
        other => {
            *positions = other;
            None
        }
    }
}
