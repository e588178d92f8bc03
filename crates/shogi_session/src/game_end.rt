ghost use Rattle.std.specs.Prelude.{◌≡◌, None, Some};
ghost use Rattle.bridge_table.specs.GameSoFar.{ending_by, ending_of, illegal_action, perpetual_ending, untimed};

use csa_text::Ending;
use session_lines::server_words::{EndReason, GameResult};
use shogi_board::Color;

// The ending of a game for which the server sent none, by the reason and the result for a client of
// this side.
pub(crate) fn ending_by(
    client: Color,
    reason: Option<EndReason>,
    game_result: GameResult,
) -> Option<Ending>
    ensures { untimed result ≡ ending_of client None reason (Some game_result) }
{
    match reason {
        Some(reason) => ending_for(client, reason, game_result),
        None => match game_result {
            GameResult::Chudan => Some(Ending::Chudan),
            GameResult::Win | GameResult::Lose | GameResult::Draw | GameResult::Censored => None,
        },
    }
}

// The ending by a reason.
fn ending_for(client: Color, reason: EndReason, game_result: GameResult) -> Option<Ending>
    ensures { result ≡ ending_by client reason game_result }
{
    match reason {
        EndReason::Resign => Some(Ending::Toryo),
        EndReason::TimeUp => Some(Ending::TimeUp),
        EndReason::IllegalMove => Some(Ending::IllegalMove),
        EndReason::Sennichite => Some(Ending::Sennichite),
        EndReason::OuteSennichite => Some(perpetual_ending(client, game_result)),
        EndReason::Jishogi => Some(Ending::Jishogi),
        EndReason::MaxMoves => Some(Ending::Chudan),
        EndReason::Other => None,
    }
}

// The ending after a perpetual check, by the result for a client of this side.
fn perpetual_ending(client: Color, game_result: GameResult) -> Ending
    ensures { result ≡ perpetual_ending client game_result }
{
    match game_result {
        GameResult::Lose => illegal_action(client),
        GameResult::Win => illegal_action(!client),
        GameResult::Draw | GameResult::Censored | GameResult::Chudan => Ending::Sennichite,
    }
}

fn illegal_action(color: Color) -> Ending
    ensures { result ≡ illegal_action color }
{
    match color {
        Color::Black => Ending::BlackIllegalAction,
        Color::White => Ending::WhiteIllegalAction,
    }
}
