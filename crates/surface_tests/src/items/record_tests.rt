ghost use Rattle.std.specs.Prelude.{None, false};

use crate::items::memory::{refuse_all, refuse_no_more};
use crate::items::rules_tests::pawn_move;
use csa_record::{
    Failure, FlowFault, HeaderValue, Reading, Record, RecordReader, Refusal, Sink, Source, Why,
    Writing, digest, normalise, read, read_from, read_pieces, write,
};
use csa_text::{Ending, Item, read_item, read_moment};
use shogi_board::{Color, OutOfMemory, Position};
use shogi_rules::Line;
use std::process::Abort;
use std::test::Fail;

const GIVEN: &[u8] = b"V2.2\nPI\n+\n+7776FU,T12\n-3334FU,T6\n%TORYO\n";

const TEXT: &[u8] = b"V2.2\nPI\n+\n+7776FU\nT12\n-3334FU\nT6\n%TORYO\n";

fn give_titles(rt: &impl Abort, record: &mut Record) -> Result<(), Fail> {
    let named: Result<(), Why> = record.set_name(Color::Black, b"a,b");
    let titled: Result<(), Why> = record.set_header(b"EVENT", b"c");
    assert!(rt; named == Ok(()) && titled == Ok(()));
    record.set_header(b"START_TIME", b"2024/2/29")?;
    Ok(())
}

fn has_titles(rt: &impl Abort, record: &Record) -> Result<(), Fail> {
    let name: Option<&[u8]> = record.name(Color::Black);
    assert!(rt; name == Some(b"a,b".as_slice()));
    let event: Option<HeaderValue<'_>> = record.header(b"EVENT");
    assert!(rt; event == Some(HeaderValue::Plain(b"c")));
    let moment = read_moment(b"2024/02/29").ok_or("no moment")?;
    assert!(rt; record.header(b"START_TIME") == Some(HeaderValue::Moment(moment)));
    Ok(())
}

#[test]
fn new_record(rt: HostRuntime) -> Result<(), Fail> {
    let record: Result<Record, OutOfMemory> = Record::new(rt.alloc(), Position::even());
    assert!(rt; record?.line().moves().is_empty());
    Ok(())
}

fn resigned() -> Result<Ending, Fail> {
    match read_item(b"%TORYO") {
        Ok(Item::Ending(ending)) => Ok(ending),
        _ => Err(Fail::from("no ending")),
    }
}

fn give_move(rt: &impl Abort, record: &mut Record) -> Result<(), Fail> {
    let played: Result<(), Why> = record.play(Color::Black, pawn_move()?);
    assert!(rt; played == Ok(()));
    Ok(())
}

fn give_times(rt: &impl Abort, record: &mut Record) -> Result<(), Fail> {
    let timed: Result<(), Why> = record.set_time(12_000);
    let closed: Result<(), Why> = record.close(resigned()?);
    assert!(rt; timed == Ok(()) && closed == Ok(()));
    record.set_time(500)?;
    Ok(())
}

fn has_moves(rt: &impl Abort, record: &Record) -> Result<(), Fail> {
    let line: &Line = record.line();
    assert!(rt; line.moves() == [pawn_move()?].as_slice());
    let (time, late): (Option<u64>, Option<u64>) = (record.time(0), record.time(1));
    assert!(rt; time == Some(12_000) && late.is_none());
    let (ending, ending_time): (Option<Ending>, Option<u64>) = (
        record.ending(),
        record.ending_time(),
    );
    assert!(rt; ending == Some(resigned()?) && ending_time == Some(500));
    Ok(())
}

// A reader, a source and a sink that are new.
fn streams_of_nothing(rt: &(impl Abort + AllocGlobal)) {
    let reader: RecordReader = RecordReader::new(rt.alloc());
    let source: Reading<&[u8]> = Reading::new(b"+\n".as_slice());
    let sink: Writing<Vec<u8>> = Writing::new(Vec::new(rt.alloc()));
    assert!(rt; reader.fed() == 0 && source.failures() == 0 && sink.failures() == 0);
}

fn made_without_memory(
    rt: &(impl Abort + AllocGlobal + Print),
    record: &mut Record,
) -> Result<(), Fail> {
    give_titles(rt, record)?;
    give_move(rt, record)?;
    refuse_all(rt);
    give_times(rt, record)?;
    has_titles(rt, record)?;
    has_moves(rt, record)?;
    streams_of_nothing(rt);
    refuse_no_more(rt)
}

// The times and the ending of a record have their room before they are set.
#[test]
fn needs_no_memory(rt: HostRuntime) -> Result<(), Fail> {
    let line = Line::new(rt.alloc(), Position::even())?;
    let record: Result<Record, Line> = Record::from_line(rt.alloc(), line);
    let mut record = record.ok().ok_or("out of memory")?;
    made_without_memory(&rt, &mut record)
}

#[test]
fn read_and_written(rt: HostRuntime) -> Result<(), Fail> {
    let record: Result<Record, Refusal> = read(rt.alloc(), GIVEN);
    let text: Result<Vec<u8>, OutOfMemory> = write(rt.alloc(), &record?);
    assert!(rt; text?.as_slice() == TEXT);
    Ok(())
}

#[test]
fn read_by_piece(rt: HostRuntime) -> Result<(), Fail> {
    let mut reader: RecordReader = RecordReader::new(rt.alloc());
    let taken: Result<(), Refusal> = reader.feed(GIVEN);
    assert!(rt; taken == Ok(()));
    let fed: u64 = reader.fed();
    assert!(rt; fed == 40);
    let record: Result<Record, Refusal> = reader.finish();
    assert!(rt; record?.line().moves().len() == 2);
    Ok(())
}

#[test]
fn read_in_pieces(rt: HostRuntime) -> Result<(), Fail> {
    let record: Result<Record, Refusal> = read_pieces(rt.alloc(), &[b"PI\n+", b"\n+7776", b"FU"]);
    assert!(rt; record?.line().moves().len() == 1);
    Ok(())
}

#[test]
fn streams(rt: HostRuntime) {
    let mut source: Reading<&[u8]> = Reading::new(b"+\n".as_slice());
    let mut buffer = [0u8; 4];
    let taken: Result<usize, Failure> = Source::read(&mut source, &mut buffer);
    assert!(rt; taken == Ok(2) && Source::failures(&source) == 0);
    let mut room = [0u8; 2];
    let mut sink: Writing<&mut [u8]> = Writing::new(room.as_mut_slice());
    let held: Result<usize, Failure> = Sink::write(&mut sink, b"+\n-\n");
    assert!(rt; held == Ok(2) && Sink::failures(&sink) == 0);
    assert!(rt; room == [b'+', b'\n']);
}

// A sink that fails after seven bytes.
#[test]
fn normalised(rt: HostRuntime) -> Result<(), Fail> {
    let record: Result<Record, FlowFault> = read_from(rt.alloc(), &mut Reading::new(GIVEN));
    assert!(rt; record?.line().moves().len() == 2);
    let mut sink = Writing::new(Vec::new(rt.alloc()));
    let written: Result<(), FlowFault> = normalise(rt.alloc(), &mut Reading::new(GIVEN), &mut sink);
    assert!(rt; written == Ok(()) && sink.failures() == 0);
    let mut room = [0u8; 7];
    let mut sink = Writing::new(room.as_mut_slice());
    let written = normalise(rt.alloc(), &mut Reading::new(GIVEN), &mut sink);
    assert!(rt; written == Err(FlowFault::WriteFault) && sink.failures() == 1);
    assert!(rt; room.as_slice() == b"V2.2\nPI".as_slice());
    Ok(())
}

// Two spellings of one game have one digest.
#[test]
fn digests(rt: HostRuntime) -> Result<(), Fail> {
    let given: Result<[u8; 32], FlowFault> = digest(rt.alloc(), &mut Reading::new(GIVEN));
    let canonical = digest(rt.alloc(), &mut Reading::new(TEXT))?;
    assert!(rt; given == Ok(canonical));
    Ok(())
}

// A source that fails at each read.
#[derive(Drop)]
struct Broken {
    failures: u64,
}

impl Source for Broken {
    ghost known = { λ _. None };

    ghost failed = { λ s. s.failures };

    ghost ended = { λ _. false };

    fn read(&mut self, _buffer: &mut [u8]) -> Result<usize, Failure> {
        self.failures += 1;
        Err(Failure)
    }

    fn failures(&self) -> u64 {
        self.failures
    }
}

#[test]
fn refused_flows(rt: HostRuntime) {
    let mut source = Broken { failures: 0 };
    let fault = read_from(rt.alloc(), &mut source).err();
    assert!(rt; fault == Some(FlowFault::ReadFault) && source.failures() == 1);
    assert!(rt; fault != Some(FlowFault::OutOfMemory));
    let Some(FlowFault::Refused(refusal)) = read_from(
        rt.alloc(),
        &mut Reading::new(b"V3.0\n".as_slice()),
    ).err() else {
        panic!(rt; "a version that there is not was read");
    };
    assert!(rt; refusal.number == 1 && refusal.offset == 0);
}
