ghost use Rattle.std.specs.Prelude.{◌≡◌, ◌⊎◌, ◌∷◌, [], ℕ, List, ◌↔◌, IsTrue, IsOk, IfOk, OnErr, None, MatchOption};
ghost use Rattle.shogi_board.specs.declared.moves.Move.{Move};
ghost use Rattle.shogi_rules.specs.Order.{IsFirstLegal};
ghost use Rattle.shogi_rules.specs.Positions.{now_of};
ghost use Rattle.shogi_rules.specs.Positions.{Over};
ghost use Rattle.shogi_rules.specs.Verdicts.{NoLegalMove};
ghost use Rattle.usi_text.specs.EngineTexts as usi_texts;
ghost use Rattle.host_and_sample.specs.Requests.{Asks, IsGoText};
ghost use Rattle.host_and_sample.specs.Sample.{SampleRowText, IsBest, IsGameOf, SampleRow, keeps, quit};
ghost use Rattle.session_lines.specs.Texts.{text_of};
ghost use Rattle.usi_text.specs.Moves.{UsiMove};

use crate::words::{first_word, is_word};
use arrayvec::ArrayString;
use session_lines::Lines;
use shogi_board::{OutOfMemory, Position};
use shogi_rules::{Line, first_legal};
use std::alloc::Global;
use std::marker::Model;
use usi_text::{UsiFault, move_text, read_position_line, texts as usi_texts};

// The game that the engine keeps, if any; or the engine has quit.
#[derive(Drop)]
enum SampleStage {
    Keeping(Option<Line>),
    Quit,
}

// What a line asks of the engine.
#[derive(Clone, Copy)]
enum Request {
    Usi,
    IsReady,
    Position,
    Go,
    Quit,
    Other,
}

/// An engine that plays the first legal move in the last position that it was given.
///
/// It speaks USI, one line per call.
#[derive(Drop)]
pub struct Sample {
    alloc: Global,
    stage: SampleStage,
}

impl Model for Sample {
    ghost use Rattle.host_and_sample.specs.Sample.{SampleState};
    ghost use Rattle.host_and_sample.specs.SampleStage.{sample_state_of};

    ghost Value = { SampleState };

    ghost view = { λ s. sample_state_of s.stage };
}

/// What the sample engine answers to a line.
#[derive(Drop)]
pub struct SampleOut {
    /// The lines to send.
    pub lines: Lines,
    /// Whether the engine has quit. It answers no line after that.
    pub ended: bool,
}

impl Sample {
    /// An engine that keeps no game. Allocates nothing.
    pub fn new(alloc: Global) -> Sample
        ensures nothing_kept { result ≡ keeps None }
    {
        Sample {
            alloc,
            stage: SampleStage::Keeping(None),
        }
    }

    /// Answers a line. `line` has no line end.
    ///
    /// - `usi` gives `id name shogi`, `id author shogi` and `usiok`.
    /// - `isready` gives `readyok`.
    /// - A position line gives no line. Its game is kept; if the line is refused, no game is kept.
    /// - `go` gives `bestmove` and the first legal move. It gives `bestmove resign` if there is no
    ///   legal move, no game is kept, or the position has occurred four times.
    /// - `quit` ends the engine.
    /// - Other lines give nothing.
    ///
    /// `usi`, `isready` and `quit` are alone on their line, spaces aside; `position` and `go` are
    /// its first word.
    ///
    /// Returns `OutOfMemory` if an allocation fails; then no game is kept. After `quit`, every call
    /// returns `Ok` without lines.
    pub fn step(&mut self, line: &[u8]) -> Result<SampleOut, OutOfMemory>
        ensures row { IfOk result
            (λ out. (lines : List (List ℕ)) × SampleRow self.old line.now lines self.new) }
        ensures lines { IfOk result (λ out. (lines : List (List ℕ))
            → SampleRow self.old line.now lines self.new → out.lines ≡ text_of lines) }
        ensures ended { IfOk result (λ out. IsTrue out.ended ↔ (self.new ≡ quit)) }
        ensures lost { OnErr result (self.new ≡ keeps None) }
        ensures needs_no_memory_to_stay_silent { self.old ≡ quit → IsOk result }
        ensures silent { self.old ≡ quit → IfOk result (λ out. out.lines ≡ []) }
        ensures stays { self.old ≡ quit → self.new ≡ quit }
    {
        match self.answer(line) {
            Ok(lines) => Ok(SampleOut {
                lines,
                ended: self.has_quit(),
            }),
            Err(fault) => {
                self.stage = SampleStage::Keeping(None);
                Err(fault)
            }
        }
    }

    fn has_quit(&self) -> bool
        ensures { IsTrue result ↔ (self.now ≡ quit) }
    {
        match self.stage {
            SampleStage::Keeping(_) => false,
            SampleStage::Quit => true,
        }
    }

    fn answer(&mut self, line: &[u8]) -> Result<Lines, OutOfMemory>
        ensures row { IfOk result (λ lines. SampleRowText self.old line.now lines self.new) }
        ensures silent { self.old ≡ quit → IsOk result }
    {
        let SampleStage::Keeping(kept) = &self.stage else {
            return Ok(Lines::new(self.alloc));
        };
        match read_request(line) {
            Request::Usi => greet(self.alloc),
            Request::IsReady => Lines::one(self.alloc, usi_texts::READY_OK),
            Request::Position => {
                self.stage = SampleStage::Keeping(read_game(self.alloc, line)?);
                Ok(Lines::new(self.alloc))
            }
            Request::Go => best_line(self.alloc, kept),
            Request::Quit => {
                self.stage = SampleStage::Quit;
                Ok(Lines::new(self.alloc))
            }
            Request::Other => Ok(Lines::new(self.alloc)),
        }
    }
}

fn read_request(line: &[u8]) -> Request
    ensures { Asks line.now result }
{
    let first = first_word(line);
    if first == usi_texts::POSITION {
        Request::Position
    } else if first == usi_texts::GO {
        Request::Go
    } else if is_word(line, usi_texts::USI) {
        Request::Usi
    } else if is_word(line, usi_texts::IS_READY) {
        Request::IsReady
    } else if is_word(line, usi_texts::QUIT) {
        Request::Quit
    } else {
        Request::Other
    }
}

fn greet(alloc: Global) -> Result<Lines, OutOfMemory>
    ensures { IfOk result (λ l. l
        ≡ text_of (usi_texts.id_name ∷ usi_texts.id_author ∷ usi_texts.usi_ok ∷ [])) }
{
    let mut lines = Lines::new(alloc);
    lines.push(usi_texts::ID_NAME)?;
    lines.push(usi_texts::ID_AUTHOR)?;
    lines.push(usi_texts::USI_OK)?;
    Ok(lines)
}

// The game of a position line, or None if the line is refused.
fn read_game(alloc: Global, line: &[u8]) -> Result<Option<Line>, OutOfMemory>
    ensures { IfOk result (λ stated. IsGameOf line.now stated) }
{
    match read_position_line(alloc, line) {
        Ok(game) => Ok(Some(game)),
        Err(fault) => {
            if lacks_memory(fault) {
                Err(OutOfMemory)
            } else {
                Ok(None)
            }
        }
    }
}

fn lacks_memory(fault: UsiFault) -> bool
    ensures { IsTrue result ↔ (fault ≡ UsiFault.OutOfMemory) }
{
    fault == UsiFault::OutOfMemory
}

// The answer to `go`.
fn best_line(alloc: Global, kept: &Option<Line>) -> Result<Lines, OutOfMemory>
    ensures { IfOk result (λ lines. IsGoText kept.now lines) }
{
    let Some(game) = kept else {
        return Lines::one(alloc, usi_texts::NO_BEST_MOVE);
    };
    let Some(word) = best_move(game) else {
        return Lines::one(alloc, usi_texts::NO_BEST_MOVE);
    };
    let mut lines = Lines::new(alloc);
    lines.push_part(usi_texts::BEST_MOVE)?;
    lines.push(word.as_str().as_bytes())?;
    Ok(lines)
}

// The first legal move, or None if the engine resigns.
fn best_move(game: &Line) -> Option<ArrayString<5>>
    ensures { MatchOption result
        (NoLegalMove (now_of game.now) ⊎ Over game.now)
        (λ word. IsBest game.now word.bytes) }
{
    if game.is_over() {
        return None;
    }
    first_move(&game.now())
}

// The text of the first legal move.
fn first_move(position: &Position) -> Option<ArrayString<5>>
    ensures { MatchOption result
        (NoLegalMove position.now)
        (λ word. (best : Move) × IsFirstLegal position.now best
        × UsiMove position.now word.bytes best) }
{
    let mv = first_legal(position)?;
    Some(move_text(position, &mv))
}
