ghost use Rattle.usi_text.specs.Engine.{LineSays, BestSays};
ghost use Rattle.usi_text.specs.Words.{words};

use crate::texts;
use crate::words::take_word;

/// What a line of a USI engine says. It borrows from the line.
#[derive(Clone, Copy, Debug, PartialEq, Eq)]
pub enum EngineWord<'a> {
    /// `usiok`: the engine speaks USI.
    UsiOk,
    /// `readyok`: it is ready.
    ReadyOk,
    /// `bestmove` with any word but the two below. The field is that word, empty if there is none.
    Best(&'a [u8]),
    /// `bestmove resign`: it resigns.
    Resign,
    /// `bestmove win`: it declares a win.
    Win,
    /// Any other line, such as `id`, `option` or `info`.
    Other,
}

/// Reads what a line from a USI engine says.
///
/// Its first word decides and, after `bestmove`, its second. Words are the longest runs without
/// spaces. Further words, such as the move to ponder, are ignored.
pub fn read_engine_line(line: &[u8]) -> EngineWord<'_>
    ensures word { LineSays (words line.now) result }
{
    let (first, rest) = take_word(line);
    let (second, _) = take_word(rest);
    if first == texts::USI_OK {
        EngineWord::UsiOk
    } else if first == texts::READY_OK {
        EngineWord::ReadyOk
    } else if first == texts::BEST_MOVE_WORD {
        best(second)
    } else {
        EngineWord::Other
    }
}

// What the word after `bestmove` says.
fn best(word: &[u8]) -> EngineWord<'_>
    ensures { BestSays word.now result }
{
    if word == texts::ENGINE_RESIGNS {
        EngineWord::Resign
    } else if word == texts::ENGINE_WINS {
        EngineWord::Win
    } else {
        EngineWord::Best(word)
    }
}
