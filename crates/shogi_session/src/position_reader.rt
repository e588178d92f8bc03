ghost use Rattle.std.specs.Prelude.{◌≡◌, ◌↔◌, ℕ, ◌+◌, ◌^◌, ◌≤◌, ◌++◌, List, [], length, true, false, Some, None, IsTrue, IfOk, MatchResult};
ghost use Rattle.csa_record.specs.Game.{Game};
ghost use Rattle.csa_record.specs.RecordReading.{HasRead, fed_of};
ghost use Rattle.session_lines.specs.Texts.{ended_line};
ghost use Rattle.shogi_session.specs.PositionTexts.{HasCome, IsFed, IsFedOn, IsPositionRead, IsTaken};

use crate::block_text::BlockText;
use crate::position_text::is_position_text;
use csa_record::{Record, RecordReader, Why};
use shogi_board::OutOfMemory;
use std::alloc::Global;
use std::marker::Model;

// The most bytes that a record reader takes.
const MOST_BYTES: u64 = 9_223_372_036_854_775_808;

const LINE_END: &[u8] = b"\n";

// What the lines of a position block are so far.
#[derive(Drop)]
enum BlockState {
    // More lines may make them a game.
    Reading(RecordReader),
    // No further lines make them a game.
    Failed,
}

// What became of bytes of a block that a reader was fed.
#[derive(Clone, Copy)]
pub(crate) enum Fed {
    // More bytes may make them a game.
    Taken,
    // No further bytes make them a game.
    Refused,
}

// Reads a position block line by line, and keeps none of its text.
#[derive(Drop)]
pub(crate) struct PositionReader {
    text: BlockText,
    state: BlockState,
}

impl Model for PositionReader {
    ghost use Rattle.std.specs.Prelude.{ℕ, List};
    ghost use Rattle.shogi_session.specs.PositionTexts.{HasCome};

    ghost Value = { List ℕ };

    ghost view = { λ r. r.text.bytes };

    ghost invariant = { λ r. HasCome r.text.bytes r.state };
}

// A position block that has ended: its game, without names, or that it is none.
#[derive(Drop)]
pub(crate) struct EndedPosition {
    text: BlockText,
    game: Option<Record>,
}

impl Model for EndedPosition {
    ghost use Rattle.std.specs.Prelude.{ℕ, List};
    ghost use Rattle.shogi_session.specs.PositionTexts.{IsPositionRead};

    ghost Value = { List ℕ };

    ghost view = { λ e. e.text.bytes };

    ghost invariant = { λ e. IsPositionRead e.text.bytes e.game };
}

impl PositionReader {
    // A reader of a block without lines.
    pub(crate) fn new(alloc: Global) -> PositionReader
        ensures { result ≡ [] }
    {
        PositionReader {
            text: BlockText::new(),
            state: BlockState::Reading(RecordReader::new(alloc)),
        }
    }

    // Takes the next line.
    pub(crate) fn take(self, line: &[u8]) -> Result<PositionReader, OutOfMemory>
        ensures { IfOk result (λ taken. taken ≡ self ++ ended_line line.now) }
    {
        let PositionReader { text, state } = self;
        let state = go_on(state, line)?;
        Ok(PositionReader {
            text: text.with(line),
            state,
        })
    }

    // Ends the block.
    pub(crate) fn finish(self) -> Result<EndedPosition, OutOfMemory>
        ensures { IfOk result (λ ended. ended ≡ self) }
    {
        let PositionReader { text, state } = self;
        let game = game_of(state)?;
        Ok(EndedPosition { text, game })
    }
}

impl EndedPosition {
    // Whether the block is a game.
    pub(crate) fn is_game(&self) -> bool
        ensures game { result ≡ true → (g : Game) × IsPositionRead self.now (Some g) }
        ensures none { result ≡ false → IsPositionRead self.now None }
    {
        match &self.game {
            Some(_) => true,
            None => false,
        }
    }

    // The block's game; or the block again, if it is none.
    pub(crate) fn into_game(self) -> Result<Record, EndedPosition>
        ensures { MatchResult result
            (λ game. IsPositionRead self (Some game))
            (λ ended. (ended ≡ self) × IsPositionRead self None) }
    {
        let EndedPosition { text, game } = self;
        match game {
            Some(game) => Ok(game),
            None => Err(EndedPosition { text, game: None }),
        }
    }
}

// The state of the block after one more line.
fn go_on(state: BlockState, line: &[u8]) -> Result<BlockState, OutOfMemory>
    ensures { (text : List ℕ) → HasCome text state
        → IfOk result (HasCome (text ++ ended_line line.now)) }
{
    let BlockState::Reading(mut reader) = state else {
        return Ok(BlockState::Failed);
    };
    match take_line(&mut reader, line)? {
        Fed::Taken => Ok(BlockState::Reading(reader)),
        Fed::Refused => Ok(BlockState::Failed),
    }
}

// The game that the lines are, or None.
fn game_of(state: BlockState) -> Result<Option<Record>, OutOfMemory>
    ensures { (text : List ℕ) → HasCome text state → IfOk result (IsPositionRead text) }
{
    let BlockState::Reading(reader) = state else {
        return Ok(None);
    };
    match reader.finish() {
        Ok(game) => Ok(Some(game)),
        Err(refusal) => {
            if lacks_memory(refusal.why) {
                Err(OutOfMemory)
            } else {
                Ok(None)
            }
        }
    }
}

// Feeds the reader the next line. It is refused if no further lines make these a game.
fn take_line(reader: &mut RecordReader, line: &[u8]) -> Result<Fed, OutOfMemory>
    ensures { (text : List ℕ) → IsFed text reader.old
        → IfOk result (λ fed. IsTaken (text ++ ended_line line.now) fed reader.new) }
{
    if !is_position_text(line) {
        return Ok(Fed::Refused);
    }
    match feed(reader, line)? {
        Fed::Taken => feed(reader, LINE_END),
        Fed::Refused => Ok(Fed::Refused),
    }
}

// Feeds the reader these bytes. Returns `OutOfMemory` if an allocation fails, or if the block has
// more bytes than a reader takes.
fn feed(reader: &mut RecordReader, bytes: &[u8]) -> Result<Fed, OutOfMemory>
    ensures { (text : List ℕ) → HasRead text reader.old
        → IfOk result (λ fed. IsFedOn (text ++ bytes.now) fed reader.new) }
{
    if !has_room(reader, bytes) {
        return Err(OutOfMemory);
    }
    match reader.feed(bytes) {
        Ok(()) => Ok(Fed::Taken),
        Err(refusal) => {
            if lacks_memory(refusal.why) {
                Err(OutOfMemory)
            } else {
                Ok(Fed::Refused)
            }
        }
    }
}

// Whether a reader takes this many more bytes: at most 2^63 in all.
fn has_room(reader: &RecordReader, bytes: &[u8]) -> bool
    ensures { IsTrue result ↔ (fed_of reader.now + length bytes.now ≤ 2 ^ 63) }
{
    let fed = reader.fed();
    fed <= MOST_BYTES && bytes.len() as u64 <= MOST_BYTES - fed
}

fn lacks_memory(why: Why) -> bool
    ensures { IsTrue result ↔ (why ≡ Why.OutOfMemory) }
{
    why == Why::OutOfMemory
}
