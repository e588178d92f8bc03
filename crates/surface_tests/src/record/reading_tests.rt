use csa_record::{Record, RecordReader, Refusal, Why, laws, write};
use shogi_rules::Rule;
use std::process::Abort;
use std::test::Fail;

const SHORT: &[u8] = b"V2.2\nPI\n+\n+7776FU,T12\n-3334FU,T6\n%TORYO\n";

const TEXT: &[u8] = b"V2.2\nPI\n+\n+7776FU\nT12\n-3334FU\nT6\n%TORYO\n";

// The fourth statement is a pawn drop that mates.
const MATES: &[u8] = b"P+13KI33KE59OU00FU\nP-11OU\n+\n+0012FU\n";

fn record_of_short(rt: &(impl AllocGlobal + Abort)) -> Result<Record, Fail> {
    let mut reader = RecordReader::new(rt.alloc());
    reader.feed(SHORT)?;
    assert!(rt; reader.fed() == 40);
    Ok(reader.finish()?)
}

#[test]
fn reads_a_piece(rt: HostRuntime) -> Result<(), Fail> {
    let text = write(rt.alloc(), &record_of_short(&rt)?)?;
    assert!(rt; text.as_slice() == TEXT);
    Ok(())
}

#[test]
fn fails_again(rt: HostRuntime) -> Result<(), Fail> {
    let mut reader = RecordReader::new(rt.alloc());
    let refusal = Refusal {
        number: 4,
        offset: 28,
        why: Why::Rule(Rule::PawnDropMate),
    };
    assert_eq!(rt; reader.feed(MATES), Err(refusal));
    assert_eq!(rt; reader.fed(), 0);
    let failed = Refusal {
        number: 4,
        offset: 28,
        why: Why::Failed,
    };
    assert_eq!(rt; reader.finish().err(), Some(failed));
    Ok(())
}

#[test]
fn feed_fails_again(rt: HostRuntime) -> Result<(), Fail> {
    let mut reader = RecordReader::new(rt.alloc());
    let Err(_) = reader.feed(MATES) else {
        panic!(rt; "a mating pawn drop was taken");
    };
    let failed = Refusal {
        number: 4,
        offset: 28,
        why: Why::Failed,
    };
    assert_eq!(rt; reader.feed(b"T1\n"), Err(failed));
    Ok(())
}

// The refusal of `PI`, `+` and a gold's move from 77.
fn wrong_kind() -> Refusal {
    Refusal {
        number: 3,
        offset: 5,
        why: Why::Rule(Rule::WrongKind),
    }
}

#[test]
fn an_open_statement_is_refused_at_the_end(rt: HostRuntime) -> Result<(), Fail> {
    let mut reader = RecordReader::new(rt.alloc());
    assert_eq!(rt; reader.feed(b"PI\n+\n+7776KI"), Ok(()));
    assert_eq!(rt; reader.finish().err(), Some(wrong_kind()));
    Ok(())
}

// The byte after the move closes its statement, so nothing that follows can change the refusal.
#[test]
fn a_closed_statement_is_refused_at_once(rt: HostRuntime) {
    let mut reader = RecordReader::new(rt.alloc());
    assert_eq!(rt; reader.feed(b"PI\n+\n+7776KI\n"), Err(wrong_kind()));
    assert!(rt; reader.fed() == 0);
}

#[test]
fn laws_are_called() {
    laws::told_once();
    laws::canon_tells();
    laws::canon_equal();
    laws::one_game();
    laws::headers_anywhere();
    laws::one_refusal();
    laws::laid_out();
    laws::union_placed();
    laws::refused_when_closed();
    laws::moved_headers();
    laws::cuttings_alike();
    laws::read_so_far();
}
