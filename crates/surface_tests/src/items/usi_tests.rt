use crate::items::memory::{refuse_all, refuse_no_more};
use crate::items::rules_tests::pawn_move;
use arrayvec::ArrayString;
use shogi_board::{OutOfMemory, Position, SetupFault};
use shogi_rules::{Line, Move, Rule, judge};
use std::process::Abort;
use std::test::Fail;
use usi_text::{
    EngineWord, SfenFault, UsiFault, move_text, next_word, position_line, read_engine_line,
    read_move, read_position_line, read_sfen, write_sfen,
};

const EVEN: &[u8] = b"lnsgkgsnl/1r5b1/ppppppppp/9/9/9/PPPPPPPPP/1B5R1/LNSGKGSNL b - 1";

fn sfens(rt: &impl Abort) {
    let even: Result<Position, SfenFault> = read_sfen(EVEN);
    assert!(rt; even == Ok(Position::even()));
    let table = [
        (b"9/9 b - 1".as_slice(), SfenFault::BadBoard),
        (b"9/9/9/9/9/9/9/9/9 x - 1", SfenFault::BadSide),
        (b"9/9/9/9/9/9/9/9/9 b x 1", SfenFault::BadHands),
        (b"9/9/9/9/9/9/9/9/9 b - x", SfenFault::BadNumber),
        (
            b"rrr6/9/9/9/9/9/9/9/9 b - 1",
            SfenFault::Start(SetupFault::TooMany),
        ),
    ];
    for (text, fault) in table {
        assert!(rt; read_sfen(text) == Err(fault));
    }
}

#[test]
fn written_sfen(rt: HostRuntime) -> Result<(), Fail> {
    let written: Result<Vec<u8>, OutOfMemory> = write_sfen(rt.alloc(), &Position::even());
    assert!(rt; written?.as_slice() == EVEN);
    Ok(())
}

// The text of a move that is legal in the position.
fn text_of(position: &Position, mv: &Move) -> Result<ArrayString<5>, Fail> {
    match judge(position, position.side(), mv) {
        None => Ok(move_text(position, mv)),
        Some(_) => Err(Fail::from("no legal move")),
    }
}

fn moves(rt: &impl Abort) -> Result<(), Fail> {
    let even = Position::even();
    let mv: Option<Move> = read_move(&even, b"7g7f");
    assert!(rt; mv == Some(pawn_move()?));
    assert!(rt; text_of(&even, &pawn_move()?)?.as_str() == "7g7f");
    Ok(())
}

#[test]
fn position_lines(rt: HostRuntime) -> Result<(), Fail> {
    let text = b"position startpos moves 7g7f 3c3d".as_slice();
    let line: Result<Line, UsiFault> = read_position_line(rt.alloc(), text);
    let written: Result<Vec<u8>, OutOfMemory> = position_line(rt.alloc(), &line?);
    assert!(rt; written?.as_slice() == text);
    Ok(())
}

#[test]
fn refused_position_lines(rt: HostRuntime) {
    let table = [
        (b"position".as_slice(), UsiFault::BadLine),
        (
            b"position sfen 9/9 b - 1",
            UsiFault::Sfen(SfenFault::BadBoard),
        ),
        (b"position startpos moves 7g", UsiFault::BadMoveText(1)),
        (
            b"position startpos moves 7g7e",
            UsiFault::Broken(1, Rule::CannotReach),
        ),
    ];
    for (text, fault) in table {
        let found = read_position_line(rt.alloc(), text).err();
        assert!(rt; found == Some(fault));
        assert!(rt; found != Some(UsiFault::TooManyMoves) && found != Some(UsiFault::OutOfMemory));
    }
}

fn engine_words(rt: &impl Abort) {
    let table = [
        (b"usiok".as_slice(), EngineWord::UsiOk),
        (b"readyok", EngineWord::ReadyOk),
        (b"bestmove 7g7f", EngineWord::Best(b"7g7f")),
        (b"bestmove resign", EngineWord::Resign),
        (b"bestmove win", EngineWord::Win),
        (b"id name x", EngineWord::Other),
    ];
    for (line, wanted) in table {
        let word: EngineWord<'_> = read_engine_line(line);
        assert!(rt; word == wanted);
    }
}

fn words(rt: &impl Abort) {
    let first: Option<(&[u8], &[u8])> = next_word(b"  go btime");
    assert!(rt; first == Some((b"go".as_slice(), b" btime".as_slice())));
    assert!(rt; next_word(b"  ").is_none());
}

// Only what writes a text or makes a line allocates.
#[test]
fn needs_no_memory(rt: HostRuntime) -> Result<(), Fail> {
    refuse_all(&rt);
    sfens(&rt);
    moves(&rt)?;
    engine_words(&rt);
    words(&rt);
    refuse_no_more(&rt)
}
