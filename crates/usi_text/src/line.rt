ghost use Rattle.std.specs.Prelude.{◌≡◌, ◌++◌, ◌∷◌, ◌⊎◌, [], Ok, ◌↔◌, ℕ, List, IsTrue, MatchOption, MatchResult};
ghost use Rattle.shogi_board.specs.declared.moves.Move.{Move};
ghost use Rattle.shogi_rules.specs.Positions.{line_of};
ghost use Rattle.usi_text.specs.Lines.{UsiLine, LineFault, LineNeedsMemory, Starts, Plays, HasMoves, IsPlayed};
ghost use Rattle.usi_text.specs.Words.{words};
ghost use Rattle.usi_text.specs.Scanning.{GivesStart, Split, Stops, WordStops, word_fault};

use crate::fault::{SfenFault, UsiFault};
use crate::moves::read_move;
use crate::sfen::read_sfen;
use crate::texts;
use crate::words::{next_word, take_word};
use shogi_board::Position;
use shogi_rules::{Line, MAX_MOVES, PlayFault, judge};
use std::alloc::Global;

// How a line gives its start.
#[derive(Clone, Copy)]
enum GivenStart<'a> {
    Even,
    // by the text of an SFEN
    Sfen(&'a [u8]),
}

/// Reads a position line of the USI protocol into its start and its moves.
///
/// Refuses, in this order:
///
/// - `BadLine` if the text does not have the form of a position line;
/// - `Sfen` with the SFEN's first fault;
/// - then, for each move in turn, `TooManyMoves` if the line already has 10,000 moves,
///   `BadMoveText` if the word is not a move in the position reached, `Broken` with the first rule
///   that the move breaks, and `OutOfMemory` if an allocation for a legal move fails.
///
/// Moves are numbered from 1. A line without moves may be refused with `OutOfMemory` too, but only
/// after the faults that do not need memory.
pub fn read_position_line(alloc: Global, text: &[u8]) -> Result<Line, UsiFault>
    ensures stated { MatchResult result
        (λ line. UsiLine (words text.now) line.start line.moves)
        (λ fault. ((fault ≡ UsiFault.OutOfMemory) × LineNeedsMemory (words text.now))
        ⊎ LineFault (words text.now) fault) }
{
    let (start, moves) = split_line(text).ok_or(UsiFault::BadLine)?;
    play_line(alloc, read_start(start)?, moves)
}

// The line with that start whose moves are the words of the text.
fn play_line(alloc: Global, start: Position, text: &[u8]) -> Result<Line, UsiFault>
    ensures { MatchResult result
        (λ line. (line.start ≡ start) × Plays start [] (words text.now) (Ok line.moves))
        (λ fault. Stops start (words text.now) fault) }
{
    let Ok(mut line) = Line::new(alloc, start) else {
        return Err(fault_without_room(start, text));
    };
    play_words(&mut line, text)?;
    Ok(line)
}

// The fault if there is no memory for a line: that of the first move's word, else lack of memory.
fn fault_without_room(start: Position, text: &[u8]) -> UsiFault
    ensures { Stops start (words text.now) result }
{
    let Some((word, _)) = next_word(text) else {
        return UsiFault::OutOfMemory;
    };
    let Some(mv) = read_move(&start, word) else {
        return UsiFault::BadMoveText(1);
    };
    match judge(&start, start.side(), &mv) {
        Some(rule) => UsiFault::Broken(1, rule),
        None => UsiFault::OutOfMemory,
    }
}

// How the line gives its start, and what follows the word `moves`.
fn split_line(text: &[u8]) -> Option<(GivenStart<'_>, &[u8])>
    ensures { MatchOption result
        (LineFault (words text.now) UsiFault.BadLine)
        (λ r. GivesStart (words text.now) r.0 (words r.1.now)) }
{
    let (first, rest) = take_word(text);
    let (second, rest) = take_word(rest);
    if !same(first, texts::POSITION) {
        return None;
    }
    if same(second, b"startpos") {
        return Some((GivenStart::Even, moves_after(rest)?));
    }
    if !same(second, b"sfen") {
        return None;
    }
    let (sfen, moves) = split_moves(rest);
    next_word(sfen)?;
    Some((GivenStart::Sfen(sfen), moves))
}

// The position that the line starts from.
fn read_start(start: GivenStart<'_>) -> Result<Position, SfenFault>
    ensures { (ws moves : List (List ℕ)) → GivesStart ws start.entry moves → MatchResult result
        (λ position. Starts ws position moves)
        (λ fault. LineFault ws (UsiFault.Sfen fault)) }
{
    match start {
        GivenStart::Even => Ok(Position::even()),
        GivenStart::Sfen(text) => read_sfen(text),
    }
}

// What follows the word `moves`; empty if there is no word at all.
fn moves_after(text: &[u8]) -> Option<&[u8]>
    ensures { MatchOption result
        ((moves : List (List ℕ)) → HasMoves (words text.now) moves → ⊥)
        (λ moves. HasMoves (words text.now) (words moves.now)) }
{
    let Some((word, following)) = next_word(text) else {
        return Some(text);
    };
    if same(word, b"moves") {
        Some(following)
    } else {
        None
    }
}

fn same(word: &[u8], wanted: &[u8]) -> bool
    ensures { IsTrue result ↔ (word.now ≡ wanted.now) }
{
    word == wanted
}

// What comes before the first word `moves`, and what follows it.
fn split_moves(text: &[u8]) -> (&[u8], &[u8])
    ensures { Split (words text.now) (words result.0.now) (words result.1.now) }
{
    let mut rest = text;
    while let Some((word, following)) = next_word(rest) {
        if same(word, b"moves") {
            return (&text[..text.len() - rest.len()], following);
        }
        rest = following;
    }
    (text, rest)
}

// Plays the words of the text as moves, one after another.
fn play_words(line: &mut Line, text: &[u8]) -> Result<(), UsiFault>
    requires { line.old.moves ≡ [] }
    ensures { MatchResult result
        (λ _. (line.new.start ≡ line.old.start)
        × Plays line.old.start [] (words text.now) (Ok line.new.moves))
        (λ fault. Stops line.old.start (words text.now) fault) }
{
    let mut rest = text;
    while let Some((word, following)) = next_word(rest) {
        play_word(line, word)?;
        rest = following;
    }
    Ok(())
}

// Plays the word as a move of the side to move.
fn play_word(line: &mut Line, word: &[u8]) -> Result<(), UsiFault>
    ensures { MatchResult result
        (λ _. (m : Move) × IsPlayed line.old.start line.old.moves word.now m
        × (line.new ≡ line_of line.old.start (line.old.moves ++ m ∷ [])))
        (λ fault. WordStops line.old.start line.old.moves word.now fault) }
{
    let n = line.moves().len();
    if n >= MAX_MOVES {
        return Err(UsiFault::TooManyMoves);
    }
    let now = line.now();
    let mv = read_move(&now, word).ok_or(UsiFault::BadMoveText(n + 1))?;
    line.play(now.side(), mv)
        .map_err(|fault| usi_fault(n + 1, fault))
}

// The fault of a position line whose move with that number `play` refused.
fn usi_fault(number: usize, fault: PlayFault) -> UsiFault
    ensures { result ≡ word_fault number fault }
{
    match fault {
        PlayFault::TooManyMoves => UsiFault::TooManyMoves,
        PlayFault::Broken(rule) => UsiFault::Broken(number, rule),
        PlayFault::OutOfMemory => UsiFault::OutOfMemory,
    }
}
