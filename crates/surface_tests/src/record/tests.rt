ghost use Rattle.std.specs.Prelude.{◌≤◌, ◌/◌, ◌%◌};

use csa_record::{HeaderValue, OrderFault, Record, Why, read, write};
use csa_text::Ending;
use shogi_board::{Color, Kind, OutOfMemory, Position, Square};
use shogi_rules::{Line, Move};
use std::alloc::Global;
use std::process::Abort;
use std::test::Fail;

// The square of a number with two digits, such as 55.
fn square(number: u8) -> Square
    requires file { (1 ≤ number / 10) × (number / 10 ≤ 9) }
    requires rank { 1 ≤ number % 10 }
{
    Square::new(number / 10, number % 10).unwrap()
}

fn order(fault: OrderFault) -> Result<(), Why> {
    Err(Why::Order(fault))
}

fn first() -> Move {
    Move::Walk {
        from: square(77),
        to: square(76),
        kind: Kind::Pawn,
    }
}

fn second() -> Move {
    Move::Walk {
        from: square(33),
        to: square(34),
        kind: Kind::Pawn,
    }
}

fn give_titles(record: &mut Record) -> Result<(), Fail> {
    record.set_name(Color::Black, b"a,b")?;
    record.set_header(b"SITE", b"b")?;
    record.set_header(b"EVENT", b"a")?;
    Ok(())
}

fn titled(alloc: Global) -> Result<Record, Fail> {
    let mut record = Record::new(alloc, Position::even())?;
    give_titles(&mut record)?;
    Ok(record)
}

fn give_moves(record: &mut Record) -> Result<(), Fail> {
    record.play(Color::Black, first())?;
    record.set_time(12000)?;
    record.play(Color::White, second())?;
    record.set_time(6000)?;
    record.close(Ending::Toryo)?;
    Ok(())
}

fn closed(alloc: Global) -> Result<Record, Fail> {
    let mut record = titled(alloc)?;
    give_moves(&mut record)?;
    Ok(record)
}

// The text of the same game, spelt otherwise.
const RESPELT: &[u8] =
    b"V2\n$SITE:b\nN+a,b\n$EVENT:a\n'x\nPI\n+\n+7776FU,T012\n-3334FU,T6.0\n%TORYO\n";

// Writes what the source says.
fn respelt(alloc: Global, source: &[u8]) -> Result<Vec<u8>, Fail> {
    let record = read(alloc, source)?;
    Ok(write(alloc, &record)?)
}

#[test]
fn builds_and_writes(rt: HostRuntime) -> Result<(), Fail> {
    let record = closed(rt.alloc())?;
    let wanted =
        b"V2.2\nN+a,b\n$EVENT:a\n$SITE:b\nPI\n+\n+7776FU\nT12\n-3334FU\nT6\n%TORYO\n".as_slice();
    assert!(rt; is_written(rt.alloc(), &record, wanted)?);
    assert!(rt; respelt(rt.alloc(), RESPELT)?.as_slice() == wanted);
    assert!(rt; respelt(rt.alloc(), wanted)?.as_slice() == wanted);
    Ok(())
}

fn shows_what_was_given(rt: &impl Abort, record: &Record) -> Result<(), Fail> {
    assert!(rt; record.name(Color::Black) == Some(b"a,b".as_slice()));
    assert!(rt; record.name(Color::White).is_none());
    assert!(rt; record.header(b"EVENT") == Some(HeaderValue::Plain(b"a")));
    assert!(rt; record.line().moves() == [first(), second()].as_slice());
    assert!(rt; record.time(1) == Some(6000) && record.time(2).is_none());
    assert!(rt; record.ending() == Some(Ending::Toryo) && record.ending_time().is_none());
    Ok(())
}

#[test]
fn shows_its_parts(rt: HostRuntime) -> Result<(), Fail> {
    let record = closed(rt.alloc())?;
    shows_what_was_given(&rt, &record)
}

// Whether a move and an ending are refused because they come after the ending.
fn is_closed(record: &mut Record, mv: Move) -> bool {
    record.play(Color::Black, mv) == order(OrderFault::AfterEnding)
        && record.close(Ending::Chudan) == order(OrderFault::AfterEnding)
}

// A time of the ending alone.
fn takes_a_time(rt: &impl Abort, record: &mut Record) -> Result<(), Fail> {
    assert!(rt; is_closed(record, first()));
    record.set_time(5)?;
    assert!(rt; record.ending_time() == Some(5));
    Ok(())
}

#[test]
fn nothing_follows_the_ending(rt: HostRuntime) -> Result<(), Fail> {
    let mut record = closed(rt.alloc())?;
    takes_a_time(&rt, &mut record)
}

#[test]
fn keeps_the_first_name(rt: HostRuntime) -> Result<(), Fail> {
    let mut record = titled(rt.alloc())?;
    has_names(&rt, &mut record)
}

fn has_names(rt: &impl Abort, record: &mut Record) -> Result<(), Fail> {
    assert!(rt; record.set_name(Color::Black, b"b") == order(OrderFault::RepeatedName));
    record.set_name(Color::Black, b"")?;
    record.set_name(Color::White, b"")?;
    assert!(rt; record.name(Color::Black) == Some(b"a,b".as_slice()));
    Ok(())
}

#[test]
fn keeps_64_headers(rt: HostRuntime) -> Result<(), Fail> {
    let mut record = titled(rt.alloc())?;
    has_room_for_62(&rt, &mut record)
}

fn has_room_for_62(rt: &impl Abort, record: &mut Record) -> Result<(), Fail> {
    for n in 0..62u8 {
        record.set_header(&[b'a' + n % 8, b'a' + n / 8], b"x")?;
    }
    assert!(rt; record.set_header(b"OPENING", b"b") == order(OrderFault::TooManyHeaders));
    assert!(rt; record.set_header(b"EVENT", b"b") == order(OrderFault::RepeatedHeader));
    record.set_header(b"OPENING", b"")?;
    Ok(())
}

// Gives the last move and the ending their times.
fn close(record: &mut Record, time: u32, ending: Ending, ending_time: u32) -> Result<(), Fail> {
    record.set_time(time as u64)?;
    record.close(ending)?;
    record.set_time(ending_time as u64)?;
    Ok(())
}

fn line_of_one_move(alloc: Global) -> Result<Line, Fail> {
    let mut line = Line::new(alloc, Position::even())?;
    line.play(Color::Black, first())?;
    Ok(line)
}

// Whether this is the text of the record.
fn is_written(alloc: Global, record: &Record, wanted: &[u8]) -> Result<bool, Fail> {
    let text = write(alloc, record)?;
    Ok(text.as_slice() == wanted)
}

fn ends_in_kachi(rt: &(impl AllocGlobal + Abort), record: &mut Record) -> Result<(), Fail> {
    close(record, 50, Ending::Kachi, 5)?;
    let wanted = b"V2.2\nPI\n+\n+7776FU\nT0.05\n%KACHI\nT0.005\n";
    assert!(rt; is_written(rt.alloc(), record, wanted)?);
    Ok(())
}

#[test]
fn keeps_a_line(rt: HostRuntime) -> Result<(), Fail> {
    let Ok(mut record) = Record::from_line(rt.alloc(), line_of_one_move(rt.alloc())?) else {
        return Err(Fail::from("out of memory"));
    };
    ends_in_kachi(&rt, &mut record)
}

// A line of one move. If an allocation fails, prints `refused` and tries again.
fn one_move(rt: &HostRuntime, mv: Move) -> Result<Line, Fail> {
    let mut line = match Line::new(rt.alloc(), Position::even()) {
        Ok(line) => line,
        Err(OutOfMemory) => {
            println!(rt; "refused")?;
            Line::new(rt.alloc(), Position::even())?
        }
    };
    if line.play(Color::Black, mv).is_err() {
        println!(rt; "refused")?;
        line.play(Color::Black, mv)?;
    }
    Ok(line)
}

// A new record, made once more if the first call is out of memory.
fn new_record(rt: &(impl AllocGlobal + Print)) -> Result<Record, Fail> {
    match Record::new(rt.alloc(), Position::even()) {
        Ok(record) => Ok(record),
        Err(OutOfMemory) => {
            println!(rt; "refused")?;
            Ok(Record::new(rt.alloc(), Position::even())?)
        }
    }
}

// Whether the call was out of memory, which is printed.
fn was_refused(rt: &(impl Print + Abort), answer: Result<(), Why>) -> Result<bool, Fail> {
    let Err(why) = answer else {
        return Ok(false);
    };
    println!(rt; "refused")?;
    assert!(rt; why == Why::OutOfMemory);
    Ok(true)
}

// Gives the record a name, a header and a move, each once more if the first call is out of memory.
fn fill(rt: &(impl Print + Abort), record: &mut Record) -> Result<(), Fail> {
    if was_refused(rt, record.set_name(Color::White, b"b"))? {
        assert!(rt; record.name(Color::White).is_none());
        record.set_name(Color::White, b"b")?;
    }
    if was_refused(rt, record.set_header(b"EVENT", b"a"))? {
        assert!(rt; record.header(b"EVENT").is_none());
        record.set_header(b"EVENT", b"a")?;
    }
    if was_refused(rt, record.play(Color::Black, first()))? {
        assert!(rt; record.line().moves().is_empty() && record.line().now() == Position::even());
        record.play(Color::Black, first())?;
    }
    Ok(())
}

fn filled_at_last(
    rt: &(impl AllocGlobal + Print + Abort),
    record: &mut Record,
) -> Result<(), Fail> {
    fill(rt, record)?;
    is_written_at_last(rt, record, b"V2.2\nN-b\n$EVENT:a\nPI\n+\n+7776FU\n")
}

// tests/growths runs this with each allocation refused in turn. A refused call changes nothing, so
// a second one succeeds.
#[test]
fn refused_growth_is_reported(rt: HostRuntime) -> Result<(), Fail> {
    let mut record = new_record(&rt)?;
    filled_at_last(&rt, &mut record)
}

// The record of the line, made once more if the first call is out of memory.
fn record_of(rt: &(impl AllocGlobal + Print + Abort), line: Line) -> Result<Record, Fail> {
    match Record::from_line(rt.alloc(), line) {
        Ok(record) => Ok(record),
        Err(line) => {
            println!(rt; "refused")?;
            assert!(rt; line.moves() == [first()].as_slice());
            Ok(Record::from_line(rt.alloc(), line).ok().ok_or("refused")?)
        }
    }
}

// Its text, written once more if the first call is out of memory.
fn written(rt: &(impl AllocGlobal + Print), record: &Record) -> Result<Vec<u8>, Fail> {
    match write(rt.alloc(), record) {
        Ok(text) => Ok(text),
        Err(OutOfMemory) => {
            println!(rt; "refused")?;
            Ok(write(rt.alloc(), record)?)
        }
    }
}

// This is the text of the record, which may take two calls.
pub(crate) fn is_written_at_last(
    rt: &(impl AllocGlobal + Print + Abort),
    record: &Record,
    wanted: &[u8],
) -> Result<(), Fail> {
    let text = written(rt, record)?;
    assert!(rt; text.as_slice() == wanted);
    Ok(())
}

fn ends_in_toryo(rt: &(impl AllocGlobal + Print + Abort), record: &mut Record) -> Result<(), Fail> {
    close(record, 1, Ending::Toryo, 2)?;
    assert!(rt; record.time(0) == Some(1) && record.ending_time() == Some(2));
    is_written_at_last(
        rt,
        record,
        b"V2.2\nPI\n+\n+7776FU\nT0.001\n%TORYO\nT0.002\n",
    )
}

// `set_time`, `close` and the accessors allocate nothing.
#[test]
fn refused_growth_of_from_line_and_write(rt: HostRuntime) -> Result<(), Fail> {
    let line = one_move(&rt, first())?;
    let mut record = record_of(&rt, line)?;
    ends_in_toryo(&rt, &mut record)
}
