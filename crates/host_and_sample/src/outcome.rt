ghost use Rattle.std.specs.Prelude.{◌≡◌, ◌++◌, OnOk, Some};
ghost use Rattle.shogi_rules.specs.Positions.{Over};
ghost use Rattle.host_and_sample.specs.declared.config.HostConfig.{HostConfig};
ghost use Rattle.host_and_sample.specs.Host.{AfterMove, outcome_lines};
ghost use Rattle.session_lines.specs.Texts.{text_of};

use crate::config::HostConfig;
use session_lines::{Lines, texts};
use shogi_board::{Color, OutOfMemory};
use shogi_rules::{Line, Verdict};

/// What ends a host's game after a move.
#[derive(Clone, Copy)]
pub enum Outcome {
    /// The position is there for the fourth time, and no side gave check all the time.
    Repetition,
    /// Perpetual check by this side, which lost.
    Perpetual(Color),
    /// The game has as many moves as the host allows.
    MaxMoves,
}

// How the last move of the game ended it, or None if the game goes on.
pub(crate) fn outcome_of(config: &HostConfig, game: &Line) -> Option<Outcome>
    ensures { AfterMove config.now game.now result }
{
    if game.is_over() {
        return Some(outcome_of_repetition(game));
    }
    if game.moves().len() >= config.max_moves as usize {
        return Some(Outcome::MaxMoves);
    }
    None
}

fn outcome_of_repetition(game: &Line) -> Outcome
    requires { Over game.now }
    ensures { (c : HostConfig) → AfterMove c game.now (Some result) }
{
    match game.verdict() {
        Verdict::Repetition => Outcome::Repetition,
        Verdict::Perpetual(loser) => Outcome::Perpetual(loser),
        Verdict::Ongoing | Verdict::Mate | Verdict::NoMove => unreachable!(),
    }
}

// Adds the reason, and the result for the client.
pub(crate) fn push_outcome(
    lines: &mut Lines,
    config: &HostConfig,
    outcome: Outcome,
) -> Result<(), OutOfMemory>
    ensures { OnOk result (lines.new ≡ lines.old ++ text_of (outcome_lines config.now outcome)) }
{
    match outcome {
        Outcome::Repetition => lines.push_two(texts::SENNICHITE, texts::DRAW),
        Outcome::Perpetual(loser) if loser == config.client => lines.push_two(
            texts::OUTE_SENNICHITE,
            texts::LOSE,
        ),
        Outcome::Perpetual(_) => lines.push_two(texts::OUTE_SENNICHITE, texts::WIN),
        Outcome::MaxMoves => lines.push_two(texts::MAX_MOVES, texts::CENSORED),
    }
}
