ghost use Rattle.std.specs.Prelude.{◌≡◌, ◌++◌, ◌<◌, ◌≤◌, ◌∷◌, [], length, true, ◌↔◌, IsTrue, IfOk, OnOk};
ghost use Rattle.shogi_board.specs.Legal.{Legal};
ghost use Rattle.shogi_rules.specs.Order.{IsFirstLegal};
ghost use Rattle.shogi_rules.specs.Positions.{now_of, max_moves};
ghost use Rattle.shogi_rules.specs.Positions.{Over};
ghost use Rattle.csa_text.specs.Codes.{move_text};
ghost use Rattle.host_and_sample.specs.Host.{playing, decided, outcome_lines, with_move};
ghost use Rattle.host_and_sample.specs.Hosting.{HostRowText};
ghost use Rattle.host_and_sample.specs.HostAnswers.{Follows, Rests, Tries, MovesAfter, state_of};
ghost use Rattle.session_lines.specs.LineTexts as texts;
ghost use Rattle.session_lines.specs.MoveLines.{is_move_line};
ghost use Rattle.session_lines.specs.Texts.{ended_line, text_of, with_time};

use crate::config::HostConfig;
use crate::outcome::{Outcome, outcome_of, push_outcome};
use crate::stage::{HostReply, HostStage};
use csa_text::csa_move;
use session_lines::texts::is_same;
use session_lines::{Lines, is_move_line, read_move_line, texts};
use shogi_board::{Color, OutOfMemory};
use shogi_rules::{Line, Move, PlayFault, first_legal};
use std::alloc::Global;

// Answers a line while the client is to move. The line has no spaces at its end, and is not
// `LOGOUT`.
pub(crate) fn answer_in_play(
    alloc: Global,
    config: &HostConfig,
    game: Line,
    line: &[u8],
    seconds: u32,
) -> Result<HostReply, OutOfMemory>
    requires few { config.now.max_moves ≤ max_moves }
    requires stays { line.now ≡ texts.logout → ⊥ }
    ensures { IfOk result
        (λ r. HostRowText config.now (playing game) line.now seconds r.lines (state_of r.stage)) }
{
    if is_move_line(line) {
        take_move(alloc, config, game, line, seconds)
    } else if is_same(line, texts::TORYO) {
        decide(alloc, line, seconds, texts::RESIGN, texts::LOSE)
    } else if is_same(line, texts::KACHI) {
        decide(alloc, line, seconds, texts::JISHOGI, texts::WIN)
    } else {
        Ok(HostReply {
            stage: HostStage::Playing(game),
            lines: Lines::new(alloc),
        })
    }
}

// Sends back the client's own line with its time, then the reason and the result.
fn decide(
    alloc: Global,
    word: &[u8],
    seconds: u32,
    reason: &[u8],
    outcome: &[u8],
) -> Result<HostReply, OutOfMemory>
    ensures { IfOk result (λ r. (state_of r.stage ≡ decided)
        × (r.lines ≡ text_of (with_time word.now seconds ∷ reason.now ∷ outcome.now ∷ []))) }
{
    let mut lines = Lines::new(alloc);
    lines.push_timed(word, seconds)?;
    lines.push_two(reason, outcome)?;
    Ok(HostReply {
        stage: HostStage::Decided,
        lines,
    })
}

// Plays the client's move, and then the host's. The client loses if its line is no move.
fn take_move(
    alloc: Global,
    config: &HostConfig,
    game: Line,
    line: &[u8],
    seconds: u32,
) -> Result<HostReply, OutOfMemory>
    requires few { config.now.max_moves ≤ max_moves }
    requires from_a_sign { is_move_line line.now ≡ true }
    ensures { IfOk result
        (λ r. HostRowText config.now (playing game) line.now seconds r.lines (state_of r.stage)) }
{
    match read_move_line(line) {
        Some(stated) => try_move(alloc, config, game, stated.0, stated.1, seconds),
        None => lose_by_error(alloc),
    }
}

// Plays the client's move if it may be played.
fn try_move(
    alloc: Global,
    config: &HostConfig,
    game: Line,
    color: Color,
    mv: Move,
    seconds: u32,
) -> Result<HostReply, OutOfMemory>
    requires few { config.now.max_moves ≤ max_moves }
    ensures { IfOk result (λ r. Tries config.now game color mv seconds r.lines (state_of r.stage)) }
{
    let mut game = game;
    match game.play(color, mv) {
        Ok(()) => follow(alloc, config, game, color, mv, seconds),
        Err(fault) => {
            if lacks_memory(fault) {
                Err(OutOfMemory)
            } else {
                lose_by_error(alloc)
            }
        }
    }
}

fn lacks_memory(fault: PlayFault) -> bool
    ensures { IsTrue result ↔ (fault ≡ PlayFault.OutOfMemory) }
{
    fault == PlayFault::OutOfMemory
}

// What follows the client's move, which is the last of the game: its line, and the outcome or the
// host's move.
fn follow(
    alloc: Global,
    config: &HostConfig,
    game: Line,
    color: Color,
    mv: Move,
    seconds: u32,
) -> Result<HostReply, OutOfMemory>
    requires few { config.now.max_moves ≤ max_moves }
    ensures { IfOk result (λ r. Follows config.now game
        (with_time (move_text color mv) seconds) r.lines (state_of r.stage)) }
{
    let mut lines = Lines::new(alloc);
    push_move(&mut lines, color, &mv, seconds)?;
    match outcome_of(config, &game) {
        Some(outcome) => end_by(config, outcome, lines),
        None => move_host(config, game, lines),
    }
}

// Adds the lines of what ends the game.
fn end_by(config: &HostConfig, outcome: Outcome, lines: Lines) -> Result<HostReply, OutOfMemory>
    ensures { IfOk result (λ r. (state_of r.stage ≡ decided)
        × (r.lines ≡ lines ++ text_of (outcome_lines config.now outcome))) }
{
    let mut lines = lines;
    push_outcome(&mut lines, config, outcome)?;
    Ok(HostReply {
        stage: HostStage::Decided,
        lines,
    })
}

fn lose_by_error(alloc: Global) -> Result<HostReply, OutOfMemory>
    ensures { IfOk result (λ r. (state_of r.stage ≡ decided)
        × (r.lines ≡ text_of (texts.illegal_move ∷ texts.lose ∷ []))) }
{
    let mut lines = Lines::new(alloc);
    lines.push_two(texts::ILLEGAL_MOVE, texts::LOSE)?;
    Ok(HostReply {
        stage: HostStage::Decided,
        lines,
    })
}

// Adds the line of a move with its time.
fn push_move(lines: &mut Lines, color: Color, mv: &Move, seconds: u32) -> Result<(), OutOfMemory>
    ensures { OnOk result
        (lines.new ≡ lines.old ++ ended_line (with_time (move_text color mv.now) seconds)) }
{
    lines.push_timed(csa_move(color, mv).as_str().as_bytes(), seconds)
}

// Plays the host's move after the lines so far, or resigns.
pub(crate) fn move_host(
    config: &HostConfig,
    game: Line,
    lines: Lines,
) -> Result<HostReply, OutOfMemory>
    requires few { config.now.max_moves ≤ max_moves }
    requires room { length game.moves < max_moves }
    requires goes_on { Over game → ⊥ }
    ensures { IfOk result (λ r. MovesAfter config.now game lines r.lines (state_of r.stage)) }
{
    match first_legal(&game.now()) {
        Some(mv) => play_host(config, game, mv, lines),
        None => resign(lines),
    }
}

fn resign(lines: Lines) -> Result<HostReply, OutOfMemory>
    ensures { IfOk result (λ r. (state_of r.stage ≡ decided)
        × (r.lines ≡ lines ++ text_of (with_time texts.toryo 0 ∷ texts.resign ∷ texts.win ∷ []))) }
{
    let mut lines = lines;
    lines.push_timed(texts::TORYO, 0)?;
    lines.push_two(texts::RESIGN, texts::WIN)?;
    Ok(HostReply {
        stage: HostStage::Decided,
        lines,
    })
}

// Plays that move of the host.
fn play_host(
    config: &HostConfig,
    game: Line,
    mv: Move,
    lines: Lines,
) -> Result<HostReply, OutOfMemory>
    requires few { config.now.max_moves ≤ max_moves }
    requires room { length game.moves < max_moves }
    requires goes_on { Over game → ⊥ }
    requires first { IsFirstLegal (now_of game) mv }
    ensures { IfOk result (λ r. MovesAfter config.now game lines r.lines (state_of r.stage)) }
{
    let mut lines = lines;
    push_move(&mut lines, game.now().side(), &mv, 0)?;
    rest(config, play_legal(game, mv)?, lines)
}

// The game with that move, which is legal.
fn play_legal(game: Line, mv: Move) -> Result<Line, OutOfMemory>
    requires room { length game.moves < max_moves }
    requires goes_on { Over game → ⊥ }
    requires legal { Legal (now_of game) mv }
    ensures { IfOk result (λ played. played ≡ with_move game mv) }
{
    let mut game = game;
    let side = game.now().side();
    match game.play(side, mv) {
        Ok(()) => Ok(game),
        Err(fault) => {
            if lacks_memory(fault) {
                Err(OutOfMemory)
            } else {
                unreachable!()
            }
        }
    }
}

// What follows the host's move: what ends the game, or nothing, and the client is to move.
fn rest(config: &HostConfig, game: Line, lines: Lines) -> Result<HostReply, OutOfMemory>
    ensures { IfOk result (λ r. Rests config.now game lines r.lines (state_of r.stage)) }
{
    match outcome_of(config, &game) {
        Some(outcome) => end_by(config, outcome, lines),
        None => Ok(HostReply {
            stage: HostStage::Playing(game),
            lines,
        }),
    }
}
