ghost use Rattle.std.specs.Prelude.{◌≡◌, ℕ, List, MatchOption};
ghost use Rattle.shogi_board.specs.declared.moves.Move as moves;
ghost use Rattle.shogi_board.specs.Legal.{Legal};
ghost use Rattle.shogi_session.specs.BestMoves.{TellsBestMove};
ghost use Rattle.bridge_table.specs.Row.{IsBestMove};
ghost use Rattle.usi_text.specs.Moves.{UsiMove};

use bridge_table::Answer;
use shogi_board::Position;
use shogi_rules::{Move, judge};
use usi_text::{EngineWord, read_engine_line, read_move};

// What an engine says with `bestmove`.
#[derive(Clone, Copy)]
pub(crate) enum BestMove {
    // A legal move, or one of the two words that a bridge passes on.
    Answer(Answer),
    // A move that is not legal, or no move.
    Slip,
}

// What the line says in that position, or None if it is no `bestmove` line.
pub(crate) fn read_best_move(position: &Position, line: &[u8]) -> Option<BestMove>
    ensures { MatchOption result
        ((word : List ℕ) → IsBestMove line.now word → ⊥)
        (λ best. TellsBestMove position.now line.now best) }
{
    match read_engine_line(line) {
        EngineWord::Best(word) => Some(match legal_move(position, word) {
            Some(mv) => BestMove::Answer(Answer::Move(mv)),
            None => BestMove::Slip,
        }),
        EngineWord::Resign => Some(BestMove::Answer(Answer::Toryo)),
        EngineWord::Win => Some(BestMove::Answer(Answer::Kachi)),
        EngineWord::UsiOk | EngineWord::ReadyOk | EngineWord::Other => None,
    }
}

// The move that the text spells, if it is legal in that position.
fn legal_move(position: &Position, text: &[u8]) -> Option<Move>
    ensures { MatchOption result
        ((m : moves.Move) → UsiMove position.now text.now m → Legal position.now m → ⊥)
        (λ m. UsiMove position.now text.now m × Legal position.now m) }
{
    let mv = read_move(position, text)?;
    match judge(position, position.side(), &mv) {
        None => Some(mv),
        Some(_) => None,
    }
}
