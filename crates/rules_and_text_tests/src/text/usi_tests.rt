use crate::text::squares::square;
use arrayvec::ArrayString;
use shogi_board::{Color, Kind, OutOfMemory, Position, Setup, SetupFault};
use shogi_rules::{Line, Move, Rule, judge};
use std::process::Abort;
use std::test::Fail;
use usi_text::{
    EngineWord, SfenFault, UsiFault, laws, move_text, position_line, read_engine_line, read_move,
    read_position_line, read_sfen, write_sfen,
};

// The pawn's move from 77 to 76.
fn first_move() -> Move {
    Move::Walk {
        from: square(77),
        to: square(76),
        kind: Kind::Pawn,
    }
}

// The text of a legal move.
fn text_of(position: &Position, mv: &Move) -> Result<ArrayString<5>, Fail> {
    match judge(position, position.side(), mv) {
        None => Ok(move_text(position, mv)),
        Some(_) => Err(Fail::from("no legal move")),
    }
}

#[test]
fn engine_lines(rt: HostRuntime) -> Result<(), Fail> {
    let table = [
        ("usiok", EngineWord::UsiOk),
        ("  usiok  and more", EngineWord::UsiOk),
        ("readyok", EngineWord::ReadyOk),
        ("bestmove resign", EngineWord::Resign),
        ("bestmove  win ", EngineWord::Win),
        ("bestmove 7g7f", EngineWord::Best(b"7g7f")),
        ("bestmove 7g7f ponder 3c3d", EngineWord::Best(b"7g7f")),
        ("bestmove resigns", EngineWord::Best(b"resigns")),
        ("bestmove Win", EngineWord::Best(b"Win")),
        ("bestmove", EngineWord::Best(b"")),
        ("bestmove ", EngineWord::Best(b"")),
        ("bestmove\t7g7f", EngineWord::Other),
        ("usiok\t", EngineWord::Other),
        ("usi ok", EngineWord::Other),
        ("bestmoves 7g7f", EngineWord::Other),
        ("id name x", EngineWord::Other),
        ("option name x", EngineWord::Other),
        ("info string bestmove 7g7f", EngineWord::Other),
        ("   ", EngineWord::Other),
        ("", EngineWord::Other),
    ];
    for (line, expected) in table {
        assert_eq!(rt; read_engine_line(line.as_bytes()), expected, "{line}");
    }
    Ok(())
}

#[test]
fn laws_are_called() {
    laws::sfen_once();
    laws::start_faults();
    laws::board_stands();
    laws::hands_held();
    laws::sfen_stands();
    laws::first_excess();
    laws::sfen_again();
    laws::line_once();
    laws::line_again();
    laws::one_move();
    laws::one_text();
    laws::one_line_text();
    laws::one_engine_word();
}

const EVEN: &str = "lnsgkgsnl/1r5b1/ppppppppp/9/9/9/PPPPPPPPP/1B5R1/LNSGKGSNL b - 1";

// The SFEN of the last position of a line.
#[test]
fn last_position_of_a_line(rt: HostRuntime) -> Result<(), Fail> {
    let line = read_position_line(rt.alloc(), b"position startpos moves 7g7f 3c3d 8h2b+ 3a2b")?;
    let sfen = write_sfen(rt.alloc(), &line.now())?;
    assert_eq!(rt;
        sfen.as_slice(),
        b"lnsgkg1nl/1r5s1/pppppp1pp/6p2/9/2P6/PP1PPPPPP/7R1/LNSGKGSNL b Bb 1".as_slice()
    );
    Ok(())
}

// A king, a pawn and a gold; the rest is in white's hand.
fn with_the_rest() -> Result<Position, Fail> {
    let mut setup = Setup::empty();
    setup.place(Color::White, square(51), Kind::King)?;
    setup.place(Color::Black, square(53), Kind::Pawn)?;
    setup.add_hand(Color::Black, Kind::Gold)?;
    setup.give_rest(Color::White)?;
    Ok(setup.finish(Color::Black)?)
}

const REST: &str = "4k4/9/4P4/9/9/9/9/9/9 b G2r2b3g4s4n4l17p 1";

const FOUR_MOVES: &str =
    "position sfen lnsgkgsnl/9/ppppppppp/9/9/9/PPPPPPPPP/1B5R1/LNSGKGSNL w - 1 moves 3c3d 7g7f 4a3b 2g2f";

// Texts whose fault is found without memory, even if the allocation before the first move fails.
fn faults_without_memory(rt: &(impl AllocGlobal + Abort)) {
    let table = [
        ("position", UsiFault::BadLine),
        (
            "position sfen 9/9 b - 1 moves 7g7f",
            UsiFault::Sfen(SfenFault::BadBoard),
        ),
        (
            "position sfen rrr6/9/9/9/9/9/9/9/9 b - 1",
            UsiFault::Sfen(SfenFault::Start(SetupFault::TooMany)),
        ),
        ("position startpos moves 7g", UsiFault::BadMoveText(1)),
        (
            "position startpos moves 7g7e",
            UsiFault::Broken(1, Rule::CannotReach),
        ),
    ];
    for (text, fault) in table {
        let found = read_position_line(rt.alloc(), text.as_bytes()).err();
        assert_eq!(rt; found, Some(fault), "{text}");
    }
}

fn calls_without_memory(rt: &impl Abort) -> Result<(), Fail> {
    let even = Position::even();
    let mv = first_move();
    assert_eq!(rt; read_sfen(EVEN.as_bytes()), Ok(even));
    assert_eq!(rt; read_move(&even, b"7g7f"), Some(mv));
    assert_eq!(rt; text_of(&even, &mv)?.as_str(), "7g7f");
    assert_eq!(rt;
        read_engine_line(b"bestmove 7g7f"),
        EngineWord::Best(b"7g7f")
    );
    Ok(())
}

// The line of the text, read once more if the first call is out of memory.
fn line_at_last(rt: &(impl AllocGlobal + Abort + Print), text: &str) -> Result<Line, Fail> {
    match read_position_line(rt.alloc(), text.as_bytes()) {
        Ok(line) => Ok(line),
        Err(fault) => {
            println!(rt; "refused")?;
            assert_eq!(rt; fault, UsiFault::OutOfMemory);
            Ok(read_position_line(rt.alloc(), text.as_bytes())?)
        }
    }
}

// The SFEN of the position, written once more if the first call is out of memory.
fn sfen_at_last(rt: &(impl AllocGlobal + Print), position: &Position) -> Result<Vec<u8>, Fail> {
    match write_sfen(rt.alloc(), position) {
        Ok(text) => Ok(text),
        Err(OutOfMemory) => {
            println!(rt; "refused")?;
            Ok(write_sfen(rt.alloc(), position)?)
        }
    }
}

// The text of the line, written once more if the first call is out of memory.
fn text_at_last(rt: &(impl AllocGlobal + Print), line: &Line) -> Result<Vec<u8>, Fail> {
    match position_line(rt.alloc(), line) {
        Ok(text) => Ok(text),
        Err(OutOfMemory) => {
            println!(rt; "refused")?;
            Ok(position_line(rt.alloc(), line)?)
        }
    }
}

// Whether one of the next allocations is refused, and so none before them was.
fn is_refused_later(rt: &impl AllocGlobal) -> bool {
    for _ in 0..100u8 {
        let mut text: Vec<u8> = Vec::new(rt.alloc());
        if text.push(b'x').is_err() {
            return true;
        }
    }
    false
}

// A line, and its text.
fn line_and_text_at_last(rt: &(impl AllocGlobal + Abort + Print)) -> Result<(), Fail> {
    let line = line_at_last(rt, FOUR_MOVES)?;
    written_at_last(rt, &line)
}

fn written_at_last(rt: &(impl AllocGlobal + Abort + Print), line: &Line) -> Result<(), Fail> {
    let text = text_at_last(rt, line)?;
    assert_eq!(rt; line.moves().len(), 4);
    assert_eq!(rt; text.as_slice(), FOUR_MOVES.as_bytes());
    Ok(())
}

fn rest_written_at_last(rt: &(impl AllocGlobal + Abort + Print)) -> Result<(), Fail> {
    let sfen = sfen_at_last(rt, &with_the_rest()?)?;
    assert_eq!(rt; sfen.as_slice(), REST.as_bytes());
    Ok(())
}

// tests/growths runs this with each allocation refused in turn. The answer is the fault found
// before that, or out of memory, and then a second call succeeds.
#[test]
fn refused_growth_is_reported(rt: HostRuntime) -> Result<(), Fail> {
    faults_without_memory(&rt);
    calls_without_memory(&rt)?;
    line_and_text_at_last(&rt)?;
    rest_written_at_last(&rt)?;
    // faults_without_memory prints nothing for its refused allocations
    if !is_refused_later(&rt) {
        println!(rt; "refused")?;
    }
    Ok(())
}
