ghost use Rattle.std.specs.Prelude.{◌<◌};

use crate::rules::words::{play_all, position, read};
use shogi_board::{Color, Kind, OutOfMemory, Position, Square};
use shogi_rules::{Line, Move, PlayFault, Rule, Verdict};
use std::alloc::AllocGlobal;
use std::process::Abort;
use std::test::Fail;

// Nothing is played after a repetition, whatever else is wrong with the move. Only the wrong side
// comes before it.
fn plays_no_more(rt: &impl Abort, line: &mut Line) -> Result<(), Fail> {
    let (color, mv) = read(b"+7776FU")?;
    // the pawn does not reach the square, a later rule
    let (_, far) = read(b"+7775FU")?;
    let over = PlayFault::Broken(Rule::RepetitionOver);
    for mv in [mv, far] {
        assert_eq!(rt; line.fault(color, &mv), Some(over));
        assert_eq!(rt; line.play(color, mv), Err(over));
    }
    let wrong_side = PlayFault::Broken(Rule::WrongSide);
    assert_eq!(rt; line.fault(Color::White, &mv), Some(wrong_side));
    Ok(())
}

fn repeats_the_start(rt: &impl Abort, line: &mut Line) -> Result<(), Fail> {
    for _ in 0..3 {
        play_all(line, "+2838HI -8272HI +3828HI -7282HI ")?;
    }
    assert_eq!(rt; line.verdict(), Verdict::Repetition);
    plays_no_more(rt, line)?;
    assert_eq!(rt; line.moves().len(), 12);
    assert_eq!(rt; line.start(), Position::even());
    assert_eq!(rt; line.now(), Position::even());
    Ok(())
}

#[test]
fn refuses_to_play_on(rt: HostRuntime) -> Result<(), Fail> {
    let mut line = Line::new(rt.alloc(), Position::even())?;
    repeats_the_start(&rt, &mut line)
}

// The square of a king that walks in a circle on two ranks, from file 1 of the first.
fn on_ring(n: usize, first: u8, second: u8) -> Result<Square, Fail>
    requires { n < 18 }
{
    let square = if n < 9 {
        Square::new(n as u8 + 1, first)
    } else {
        Square::new(18 - n as u8, second)
    };
    Ok(square.ok_or("no square")?)
}

// The n-th move of two kings that walk in circles, black's in 18 steps and white's in 17, so that
// no position of 612 occurs twice.
fn king_move(n: usize) -> Result<(Color, Move), Fail> {
    let step = n / 2;
    let (color, from, to) = if n % 2 == 0 {
        let to = on_ring((step + 1) % 18, 9, 8)?;
        (Color::Black, on_ring(step % 18, 9, 8)?, to)
    } else {
        let to = on_ring((step + 1) % 17, 1, 2)?;
        (Color::White, on_ring(step % 17, 1, 2)?, to)
    };
    let kind = Kind::King;
    Ok((color, Move::Walk { from, to, kind }))
}

// A line of that start, asked for again if the first call is out of memory.
fn line_at_last(rt: &(impl AllocGlobal + Print), start: Position) -> Result<Line, Fail> {
    match Line::new(rt.alloc(), start) {
        Ok(line) => Ok(line),
        Err(OutOfMemory) => {
            println!(rt; "refused")?;
            Ok(Line::new(rt.alloc(), start)?)
        }
    }
}

// Plays the n-th move, again if the first call is out of memory.
fn play_at_last(rt: &(impl Abort + Print), line: &mut Line, n: usize) -> Result<(), Fail> {
    let (color, mv) = king_move(n)?;
    let last = line.now();
    if let Err(fault) = line.play(color, mv) {
        println!(rt; "refused")?;
        assert_eq!(rt; fault, PlayFault::OutOfMemory);
        assert_eq!(rt; line.moves().len(), n);
        assert_eq!(rt; line.now(), last);
        line.play(color, mv)?;
    }
    assert_eq!(rt; line.moves().last().copied(), Some(mv));
    assert_ne!(rt; line.now(), last);
    Ok(())
}

// Plays more moves than a line has room for when it is made.
fn play_each(rt: &(impl Abort + Print), line: &mut Line) -> Result<(), Fail> {
    for n in 0..300usize {
        play_at_last(rt, line, n)?;
    }
    assert_eq!(rt; line.moves().len(), 300);
    Ok(())
}

// tests/growths runs this with each allocation refused in turn. A refused call changes nothing, and
// a second one succeeds.
#[test]
fn refused_growth_changes_nothing(rt: HostRuntime) -> Result<(), Fail> {
    let mut line = line_at_last(&rt, position(Color::Black, "+19OU -11OU ")?)?;
    play_each(&rt, &mut line)
}
