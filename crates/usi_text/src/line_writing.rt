ghost use Rattle.std.specs.Prelude.{◌≡◌, ◌++◌, List, ℕ, IfOk, OnOk};
ghost use Rattle.shogi_board.specs.Sound.{IsSound};
ghost use Rattle.shogi_rules.specs.Positions.{IsGame};
ghost use Rattle.usi_text.specs.LineText.{LineText, StartText, AfterStart, MovesText};
ghost use Rattle.usi_text.specs.Lines.{UsiLine};
ghost use Rattle.usi_text.specs.Words.{words};

use crate::moves::move_text;
use crate::texts;
use crate::writing::push_sfen;
use shogi_board::{OutOfMemory, Position};
use shogi_rules::{Line, Move, after};
use std::alloc::Global;

/// Writes the position line of a line as the USI protocol has it, without a line end.
///
/// It is `position startpos` exactly if the start is the even one with black to move, else
/// `position sfen` and the SFEN of the start. If there are moves, `moves` and their texts follow.
/// `read_position_line` reads it back as the same start and moves. Returns `OutOfMemory` if an
/// allocation fails.
pub fn position_line(alloc: Global, line: &Line) -> Result<Vec<u8>, OutOfMemory>
    ensures text { IfOk result (λ text. LineText line.now.start line.now.moves text.items) }
    ensures again { IfOk result (λ text. UsiLine (words text.items) line.now.start line.now.moves) }
{
    let start = line.start();
    let mut text = Vec::from_slice(alloc, texts::POSITION_FRONT)?;
    push_start(&mut text, &start)?;
    push_moves(&mut text, start, line.moves())?;
    Ok(text)
}

fn push_start(text: &mut Vec<u8>, start: &Position) -> Result<(), OutOfMemory>
    ensures text { OnOk result
        ((front : List ℕ) × StartText start.now front
        × (text.new.items ≡ text.old.items ++ front)) }
    ensures sound { OnOk result (IsSound start.now) }
{
    if *start == Position::even() {
        text.extend_from_slice(b"startpos")?;
    } else {
        text.extend_from_slice(b"sfen ")?;
        push_sfen(text, start)?;
    }
    Ok(())
}

// The word `moves` and the moves, if there are any.
fn push_moves(text: &mut Vec<u8>, start: Position, moves: &[Move]) -> Result<(), OutOfMemory>
    requires { IsGame start moves.now }
    ensures { OnOk result
        ((rest : List ℕ) × AfterStart start moves.now rest
        × (text.new.items ≡ text.old.items ++ rest)) }
{
    if moves.is_empty() {
        return Ok(());
    }
    text.extend_from_slice(b" moves")?;
    push_each(text, start, moves)?;
    Ok(())
}

// A space and the text of each move.
fn push_each(text: &mut Vec<u8>, start: Position, moves: &[Move]) -> Result<(), OutOfMemory>
    requires { IsGame start moves.now }
    ensures { OnOk result
        ((rest : List ℕ) × MovesText start moves.now rest
        × (text.new.items ≡ text.old.items ++ rest)) }
{
    let mut now = start;
    for mv in moves {
        text.push(b' ')?;
        text.extend_from_slice(move_text(&now, mv).as_str().as_bytes())?;
        now = after(&now, mv);
    }
    Ok(())
}
