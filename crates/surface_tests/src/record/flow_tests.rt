use csa_record::{
    FlowFault, Reading, Sink, Source, SourceReader, Writing, digest, normalise, read_from, write,
};
use std::alloc::Global;
use std::io::BufWriter;
use std::test::Fail;

const GIVEN: &[u8] = b"V2.2\nPI\n+\n+7776FU,T12\n-3334FU,T6\n%TORYO\n";

const TEXT: &[u8] = b"V2.2\nPI\n+\n+7776FU\nT12\n-3334FU\nT6\n%TORYO\n";

// What `sha256sum` prints of that text.
const DIGEST: [u8; 32] = [
    0xc2, 0xce, 0x72, 0x6d, 0x47, 0xdd, 0xf7, 0xe1, 0x91, 0x02, 0xac, 0x14, 0xa9, 0x00, 0xfb, 0xe8,
    0xcd, 0x8c, 0x70, 0x2c, 0x44, 0x36, 0x1e, 0xb6, 0xfc, 0x49, 0x0f, 0x35, 0xa8, 0x11, 0x75, 0x0a,
];

// Reads and writes that fail, are short or are interrupted are tested by tests/faults.
#[test]
fn normalises_a_reader(rt: HostRuntime) -> Result<(), Fail> {
    let mut source = Reading::new(GIVEN);
    let mut sink = Writing::new(Vec::new(rt.alloc()));
    assert!(rt; normalise(rt.alloc(), &mut source, &mut sink) == Ok(()));
    assert!(rt; source.failures() == 0 && sink.failures() == 0);
    assert!(rt; read_from(rt.alloc(), &mut Reading::new(GIVEN)).is_ok());
    Ok(())
}

// Whether the next record is refused.
fn is_refused(reader: &mut SourceReader, given: &[u8]) -> bool {
    matches!(
        reader.read(&mut Reading::new(given)),
        Err(FlowFault::Refused(_))
    )
}

// The canonical text of the next record.
fn text_of_next(alloc: Global, reader: &mut SourceReader, given: &[u8]) -> Result<Vec<u8>, Fail> {
    let record = reader.read(&mut Reading::new(given))?;
    Ok(write(alloc, &record)?)
}

// A refused record leaves nothing to the next one.
#[test]
fn reads_one_source_after_another(rt: HostRuntime) -> Result<(), Fail> {
    let mut reader = SourceReader::new(rt.alloc());
    assert!(rt; is_refused(&mut reader, b"PI,+,+7775FU\n'x"));
    for given in [GIVEN, TEXT] {
        let text = text_of_next(rt.alloc(), &mut reader, given)?;
        assert!(rt; text.as_slice() == TEXT);
    }
    Ok(())
}

#[test]
fn digest_of_the_canonical_text(rt: HostRuntime) -> Result<(), Fail> {
    let given: [u8; 32] = digest(rt.alloc(), &mut Reading::new(GIVEN))?;
    let again = digest(rt.alloc(), &mut Reading::new(TEXT))?;
    assert!(rt; given == DIGEST && again == DIGEST);
    Ok(())
}

#[test]
fn no_digest_of_a_refused_record(rt: HostRuntime) -> Result<(), Fail> {
    let source = b"+\n+7775FU".as_slice();
    let Err(FlowFault::Refused(refusal)) = digest(rt.alloc(), &mut Reading::new(source)) else {
        return Err(Fail::from("not refused"));
    };
    assert!(rt; refusal.number == 2 && refusal.offset == 2);
    Ok(())
}

// The writer has room for the whole text, so it writes nothing before it is flushed.
#[test]
fn flushes_the_writer(rt: HostRuntime) -> Result<(), Fail> {
    let mut writer = BufWriter::new(rt.alloc(), Vec::new(rt.alloc()))?;
    let written = normalise(
        rt.alloc(),
        &mut Reading::new(GIVEN),
        &mut Writing::new(&mut writer),
    );
    assert!(rt; written == Ok(()));
    assert!(rt; writer.get_ref().as_slice() == TEXT);
    Ok(())
}
