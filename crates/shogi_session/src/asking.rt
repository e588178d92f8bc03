ghost use Rattle.std.specs.Prelude.{◌≡◌, ◌↔◌, ◌++◌, ◌-◌, if◌then◌else◌, List, ℕ, IsTrue, IfOk, OnOk, decimal};
ghost use Rattle.shogi_board.specs.Pieces.{same_color};
ghost use Rattle.shogi_session.specs.Asked.{IsAsked};
ghost use Rattle.bridge_table.specs.Asking.{MayAsk, left, go_line, thousandths};
ghost use Rattle.bridge_table.specs.State.{Match};
ghost use Rattle.session_lines.specs.Texts.{ended_line};

use bridge_table::Config;
use csa_record::Record;
use itoa::Buffer;
use session_lines::Lines;
use shogi_board::{Color, OutOfMemory};
use shogi_rules::MAX_MOVES;
use std::alloc::Global;
use usi_text::{position_line, texts as usi_texts};

// Whether the engine was asked for the client's move.
#[derive(Clone, Copy, PartialEq, Eq)]
pub(crate) enum Question {
    Asked,
    NotAsked,
}

// Adds the lines that ask the engine for the client's move, if it may be asked.
pub(crate) fn ask(
    lines: &mut Lines,
    alloc: Global,
    config: &Config,
    client: Color,
    game: &Record,
) -> Result<Question, OutOfMemory>
    ensures { (g : Match) → g.client ≡ client → g.game ≡ game.now
        → IfOk result (λ question. (text : List ℕ)
        × (lines.new ≡ lines.old ++ text) × IsAsked config.now g question text) }
{
    if !may_ask(client, game) {
        return Ok(Question::NotAsked);
    }
    let position = position_line(alloc, game.line())?;
    lines.push(position.as_slice())?;
    push_go(lines, config, game)?;
    Ok(Question::Asked)
}

// Whether the client is to move and may.
fn may_ask(client: Color, game: &Record) -> bool
    ensures { (g : Match) → g.client ≡ client → g.game ≡ game.now → IsTrue result ↔ MayAsk g }
{
    let line = game.line();
    if line.now().side() != client || line.moves().len() >= MAX_MOVES {
        return false;
    }
    !line.is_over()
}

// Adds the line `go` with the clocks.
fn push_go(lines: &mut Lines, config: &Config, game: &Record) -> Result<(), OutOfMemory>
    ensures { (g : Match) → g.game ≡ game.now
        → OnOk result (lines.new ≡ lines.old ++ ended_line (go_line config.now g)) }
{
    push_number(
        lines,
        usi_texts::GO_BLACK_TIME,
        left(config, game, Color::Black),
    )?;
    push_number(
        lines,
        usi_texts::WHITE_TIME,
        left(config, game, Color::White),
    )?;
    push_number(lines, usi_texts::BYOYOMI, u64::from(config.byoyomi_ms))?;
    lines.end_line()
}

// Adds the words and the number.
fn push_number(lines: &mut Lines, words: &[u8], number: u64) -> Result<(), OutOfMemory>
    ensures { OnOk result (lines.new ≡ lines.old ++ (words.now ++ decimal number)) }
{
    let mut buffer = Buffer::new();
    lines.push_part(words)?;
    lines.push_part(buffer.format(number).as_bytes())
}

// What remains of a side's total time, in milliseconds; never below 0.
fn left(config: &Config, game: &Record, color: Color) -> u64
    ensures { (g : Match) → g.game ≡ game.now → result ≡ left config.now g color }
{
    let mut left = u64::from(config.total_ms);
    let mut side = game.line().start().side();
    for i in 0..game.line().moves().len() {
        left = less(left, color, side, game.time(i));
        side = !side;
    }
    left
}

// What remains after the time of a move by `side`, if it has one.
fn less(left: u64, color: Color, side: Color, time: Option<u64>) -> u64
    ensures { result ≡ left - (if same_color color side then thousandths time else 0) }
{
    match time {
        Some(time) if side == color => left.saturating_sub(time),
        _ => left,
    }
}
