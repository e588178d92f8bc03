use crate::items::board_tests::square;
use crate::items::memory::{refuse_all, refuse_no_more};
use csa_record::read;
use shogi_board::{Color, Kind, OutOfMemory, Position};
use shogi_rules::{Line, Move, PlayFault, Rule, Verdict, after, first_legal, in_check, judge};
use std::process::Abort;
use std::test::Fail;

// The pawn's move from 77 to 76.
pub(crate) fn pawn_move() -> Result<Move, Fail> {
    Ok(Move::Walk {
        from: square(7, 7)?,
        to: square(7, 6)?,
        kind: Kind::Pawn,
    })
}

// The position after a legal move.
fn followed(position: &Position, mv: &Move) -> Result<Position, Fail> {
    let broken: Option<Rule> = judge(position, position.side(), mv);
    match broken {
        None => Ok(after(position, mv)),
        Some(_) => Err(Fail::from("no legal move")),
    }
}

fn judged_moves(rt: &impl Abort) -> Result<(), Fail> {
    let even = Position::even();
    let mv = pawn_move()?;
    assert!(rt; judge(&even, Color::White, &mv) == Some(Rule::WrongSide));
    let drop = Move::Put {
        to: square(5, 5)?,
        kind: Kind::Pawn,
    };
    assert!(rt; judge(&even, Color::Black, &drop) == Some(Rule::NoPiece));
    let next = followed(&even, &mv)?;
    let checked: bool = in_check(&next);
    assert!(rt; next.side() == Color::White && !checked);
    let first: Option<Move> = first_legal(&even);
    let wanted = Move::Walk {
        from: square(1, 7)?,
        to: square(1, 6)?,
        kind: Kind::Pawn,
    };
    assert!(rt; first == Some(wanted));
    Ok(())
}

fn play_once(rt: &impl Abort, line: &mut Line) -> Result<(), Fail> {
    let played: Result<(), PlayFault> = line.play(Color::Black, pawn_move()?);
    assert!(rt; played == Ok(()));
    Ok(())
}

// After that move.
fn shows_a_line(rt: &impl Abort, line: &Line) -> Result<(), Fail> {
    let mv = pawn_move()?;
    let fault: Option<PlayFault> = line.fault(Color::Black, &mv);
    assert!(rt; fault == Some(PlayFault::Broken(Rule::WrongSide)));
    assert!(rt; fault != Some(PlayFault::TooManyMoves) && fault != Some(PlayFault::OutOfMemory));
    let moves: &[Move] = line.moves();
    assert!(rt; moves == [mv].as_slice());
    let (start, now): (Position, Position) = (line.start(), line.now());
    assert!(rt; start == Position::even() && now.side() == Color::White);
    let verdict: Verdict = line.verdict();
    assert!(rt; verdict == Verdict::Ongoing && !line.is_over());
    Ok(())
}

fn made_without_memory(
    rt: &(impl Abort + AllocGlobal + Print),
    line: &mut Line,
) -> Result<(), Fail> {
    play_once(rt, line)?;
    refuse_all(rt);
    judged_moves(rt)?;
    shows_a_line(rt, line)?;
    refuse_no_more(rt)
}

// Of the calls of `shogi_rules` only `Line::new` and `Line::play` allocate.
#[test]
fn needs_no_memory(rt: HostRuntime) -> Result<(), Fail> {
    let line: Result<Line, OutOfMemory> = Line::new(rt.alloc(), Position::even());
    made_without_memory(&rt, &mut line?)
}

const REPETITION: &[u8] = b"PI\n+\n\
    +2838HI\n-8272HI\n+3828HI\n-7282HI\n\
    +2838HI\n-8272HI\n+3828HI\n-7282HI\n\
    +2838HI\n-8272HI\n+3828HI\n-7282HI\n";

const PERPETUAL: &[u8] = b"P+59HI99OU\nP-41OU\n+\n\
    +5949HI\n-4151OU\n+4959HI\n-5141OU\n\
    +5949HI\n-4151OU\n+4959HI\n-5141OU\n\
    +5949HI\n-4151OU\n+4959HI\n-5141OU\n";

const MATE: &[u8] = b"P+13KI33KE59OU00KI\nP-11OU\n+\n+0012KI\n";

const NO_MOVE: &[u8] = b"P+12FU\n+\n+1211TO\n";

#[test]
fn verdicts(rt: HostRuntime) -> Result<(), Fail> {
    let table = [
        (REPETITION, Verdict::Repetition),
        (PERPETUAL, Verdict::Perpetual(Color::Black)),
        (MATE, Verdict::Mate),
        (NO_MOVE, Verdict::NoMove),
    ];
    for (source, wanted) in table {
        assert!(rt; source.len() < 1_000);
        let record = read(rt.alloc(), source)?;
        assert!(rt; record.line().verdict() == wanted);
    }
    Ok(())
}
