// tests/growths runs this with each allocation refused in turn. The answer is out of memory, and a
// second call succeeds.
use crate::record::tests::is_written_at_last;
use csa_record::{
    FlowFault, Reading, Record, RecordReader, Refusal, Why, Writing, digest, normalise, read,
    read_from,
};
use std::alloc::Global;
use std::process::Abort;
use std::test::Fail;

const GIVEN: &[u8] = b"N+a\n$EVENT:b\nPI\n+\n+7776FU,T1\n%TORYO\n";

const GIVEN_TEXT: &[u8] = b"V2.2\nN+a\n$EVENT:b\nPI\n+\n+7776FU\nT1\n%TORYO\n";

const SHORT: &[u8] = b"+\n+7776FU\n";

const OPEN: &[u8] = b"+\n+7776FU";

const TEXT: &[u8] = b"V2.2\nPI\n+\n+7776FU\n";

// Reads the record at once, and once more if the first call is out of memory.
fn read_at_last(rt: &(impl AllocGlobal + Print + Abort)) -> Result<Record, Fail> {
    match read(rt.alloc(), GIVEN) {
        Ok(record) => Ok(record),
        Err(refusal) => {
            println!(rt; "refused")?;
            assert_eq!(rt; refusal.why, Why::OutOfMemory);
            Ok(read(rt.alloc(), GIVEN)?)
        }
    }
}

#[test]
fn refused_growth_of_read_at_once(rt: HostRuntime) -> Result<(), Fail> {
    let record = read_at_last(&rt)?;
    is_written_at_last(&rt, &record, GIVEN_TEXT)
}

// Reads the record from a source, and once more from its start if the first call is out of memory.
fn read_from_at_last(rt: &(impl AllocGlobal + Print + Abort)) -> Result<Record, Fail> {
    match read_from(rt.alloc(), &mut Reading::new(GIVEN)) {
        Ok(record) => Ok(record),
        Err(fault) => {
            println!(rt; "refused")?;
            assert_eq!(rt; fault, FlowFault::OutOfMemory);
            Ok(read_from(rt.alloc(), &mut Reading::new(GIVEN))?)
        }
    }
}

#[test]
fn refused_growth_of_read_from(rt: HostRuntime) -> Result<(), Fail> {
    let record = read_from_at_last(&rt)?;
    is_written_at_last(&rt, &record, GIVEN_TEXT)
}

// Anything that a refused call wrote would be in front of the text.
#[test]
fn refused_growth_of_normalise(rt: HostRuntime) -> Result<(), Fail> {
    let mut room = [0u8; 18];
    let mut sink = Writing::new(room.as_mut_slice());
    if let Err(fault) = normalise(rt.alloc(), &mut Reading::new(SHORT), &mut sink) {
        println!(rt; "refused")?;
        assert_eq!(rt; fault, FlowFault::OutOfMemory);
        normalise(rt.alloc(), &mut Reading::new(SHORT), &mut sink)?;
    }
    assert_eq!(rt; room.as_slice(), TEXT);
    Ok(())
}

// What `sha256sum` prints of `TEXT`.
const DIGEST: [u8; 32] = [
    0xe5, 0xa9, 0xc9, 0x69, 0xaa, 0xfc, 0x03, 0x93, 0x4e, 0x37, 0x70, 0xac, 0x57, 0x26, 0x4a, 0xcb,
    0x87, 0xe9, 0x8b, 0x94, 0x9a, 0xb4, 0x7b, 0x0f, 0x18, 0xa4, 0x51, 0x96, 0x40, 0x9e, 0x2b, 0x1f,
];

#[test]
fn refused_growth_of_digest(rt: HostRuntime) -> Result<(), Fail> {
    let found = match digest(rt.alloc(), &mut Reading::new(SHORT)) {
        Ok(found) => found,
        Err(fault) => {
            println!(rt; "refused")?;
            assert_eq!(rt; fault, FlowFault::OutOfMemory);
            digest(rt.alloc(), &mut Reading::new(SHORT))?
        }
    };
    assert!(rt; found == DIGEST);
    Ok(())
}

// Whether a reader that was refused memory has read no more than before, and fails from then on.
fn has_failed(reader: RecordReader, refusal: Refusal) -> bool {
    let failed = Refusal {
        number: refusal.number,
        offset: refusal.offset,
        why: Why::Failed,
    };
    refusal.why == Why::OutOfMemory && reader.fed() == 0 && reader.finish().err() == Some(failed)
}

// How many bytes a new reader has been fed.
fn fed_again(alloc: Global) -> Result<u64, Fail> {
    let mut reader = RecordReader::new(alloc);
    reader.feed(GIVEN)?;
    Ok(reader.fed())
}

#[test]
fn refused_growth_of_feed(rt: HostRuntime) -> Result<(), Fail> {
    let mut reader = RecordReader::new(rt.alloc());
    let fed = match reader.feed(GIVEN) {
        Ok(()) => reader.fed(),
        Err(refusal) => {
            println!(rt; "refused")?;
            assert!(rt; has_failed(reader, refusal));
            fed_again(rt.alloc())?
        }
    };
    assert_eq!(rt; fed, GIVEN.len() as u64);
    Ok(())
}

// A reader of a record whose last statement has no line end.
fn open_reader(alloc: Global) -> Result<RecordReader, Refusal> {
    let mut reader = RecordReader::new(alloc);
    reader.feed(OPEN)?;
    Ok(reader)
}

// The same, once more if the first call is out of memory.
fn open_reader_at_last(rt: &(impl AllocGlobal + Print)) -> Result<RecordReader, Fail> {
    match open_reader(rt.alloc()) {
        Ok(reader) => Ok(reader),
        Err(_) => {
            println!(rt; "refused")?;
            Ok(open_reader(rt.alloc())?)
        }
    }
}

// The last statement is read at the end.
fn finished_at_last(rt: &(impl AllocGlobal + Print + Abort)) -> Result<Record, Fail> {
    match open_reader_at_last(rt)?.finish() {
        Ok(record) => Ok(record),
        Err(refusal) => {
            println!(rt; "refused")?;
            let wanted = Refusal {
                number: 2,
                offset: 2,
                why: Why::OutOfMemory,
            };
            assert!(rt; refusal == wanted);
            Ok(read(rt.alloc(), OPEN)?)
        }
    }
}

#[test]
fn refused_growth_of_finish(rt: HostRuntime) -> Result<(), Fail> {
    let record = finished_at_last(&rt)?;
    is_written_at_last(&rt, &record, TEXT)
}
