//! Each fault of a record, by a record with that fault.
use csa_record::{OrderFault, RecordReader, Refusal, Why, read};
use csa_text::TextFault;
use shogi_board::SetupFault;
use shogi_rules::Rule;
use std::alloc::Global;
use std::process::Abort;
use std::test::Fail;

// The reason for which the record is refused, with the statement's number and offset.
fn refused(rt: &(impl AllocGlobal + Abort), source: &[u8], number: u64, offset: u64, why: Why) {
    assert!(rt; source.len() < 10_000);
    let refusal = Refusal {
        number,
        offset,
        why,
    };
    assert!(rt; read(rt.alloc(), source).err() == Some(refusal));
}

#[test]
fn text_faults(rt: HostRuntime) {
    let table = [
        (b"V3.0\n".as_slice(), 1, 0, TextFault::BadVersion),
        (b"$EVENT\n+\n", 1, 0, TextFault::BadHeader),
        (b"P+5FU\n+\n", 1, 0, TextFault::BadPosition),
        (b"V2.2\nPI\n+\n+7776F", 4, 10, TextFault::BadMove),
        (b"PI\n+\n+7776FU\nT4294967296\n", 4, 13, TextFault::BadTime),
        (b"PI\n+\n%TOR\n", 3, 5, TextFault::UnknownEnding),
        (b"PI\n+\n/\n", 3, 5, TextFault::Unknown),
    ];
    for (source, number, offset, fault) in table {
        refused(&rt, source, number, offset, Why::Text(fault));
    }
    let long = [b'N'; 4097];
    refused(&rt, &long, 1, 0, Why::Text(TextFault::StatementTooLong));
}

#[test]
fn order_faults(rt: HostRuntime) {
    let table = [
        (
            b"PI\nV2.2\n+\n".as_slice(),
            2,
            3,
            OrderFault::VersionOutOfPlace,
        ),
        (b"N+a\nN+b\nPI\n+\n", 2, 4, OrderFault::RepeatedName),
        (b"$EVENT:a\n$EVENT:b\n+\n", 2, 9, OrderFault::RepeatedHeader),
        (b"PI\nPI\n+\n", 2, 3, OrderFault::MixedStart),
        (b"PI\n+\nP+00FU\n", 3, 5, OrderFault::PositionLate),
        (b"PI\n+7776FU\n", 2, 3, OrderFault::MoveBeforeTurn),
        (b"PI\n+\n-\n", 3, 5, OrderFault::RepeatedTurn),
        (b"PI\n+\nT1\n", 3, 5, OrderFault::LooseTime),
        (b"PI\n+\n%TORYO\n+7776FU\n", 4, 12, OrderFault::AfterEnding),
        (b"", 1, 0, OrderFault::MissingTurn),
    ];
    for (source, number, offset, fault) in table {
        refused(&rt, source, number, offset, Why::Order(fault));
    }
}

// 65 headers.
fn headers(alloc: Global) -> Result<Vec<u8>, Fail> {
    let mut source = Vec::new(alloc);
    for n in 0..65u8 {
        source.extend_from_slice(&[b'$', b'a' + n % 13, b'a' + n / 13, b':', b'x', b'\n'])?;
    }
    Ok(source)
}

#[test]
fn limits(rt: HostRuntime) -> Result<(), Fail> {
    let source = headers(rt.alloc())?;
    let why = Why::Order(OrderFault::TooManyHeaders);
    refused(&rt, source.as_slice(), 65, 384, why);
    let text = format!(in rt.alloc(); "{}", Why::Order(OrderFault::TooManyMoves))?;
    assert!(rt; text.as_str() == "G11 TooManyMoves");
    let text = format!(in rt.alloc(); "{}", Why::OutOfMemory)?;
    assert!(rt; text.as_str() == "out of memory");
    Ok(())
}

#[test]
fn start_faults(rt: HostRuntime) {
    let table = [
        (b"P+55FU55KI\n+\n".as_slice(), 1, 0, SetupFault::SquareTaken),
        (b"P+00HI00HI\nP-00HI\n+\n", 2, 11, SetupFault::TooMany),
        (b"P+59OU\nP+58OU\n+\n", 2, 7, SetupFault::SecondKing),
        (b"P+00TO\n+\n", 1, 0, SetupFault::NotForHand),
        (b"PI82KA\n+\n", 1, 0, SetupFault::NotThere),
        (b"P-51OU\nP+59HI\n+\n", 3, 14, SetupFault::OpponentInCheck),
        (
            b"P-51OU\nP+53FU00KI\nP-00AL\nP+00FU\n+\n",
            4,
            25,
            SetupFault::AfterRest,
        ),
    ];
    for (source, number, offset, fault) in table {
        refused(&rt, source, number, offset, Why::Start(fault));
    }
}

const REPEATED: &[u8] = b"PI\n+\n\
    +2838HI\n-8272HI\n+3828HI\n-7282HI\n\
    +2838HI\n-8272HI\n+3828HI\n-7282HI\n\
    +2838HI\n-8272HI\n+3828HI\n-7282HI\n+7776FU\n";

const MATES: &[u8] = b"P+13KI33KE59OU00FU\nP-11OU\n+\n+0012FU\n";

#[test]
fn broken_rules(rt: HostRuntime) {
    let table = [
        (b"PI\n+\n-3334FU\n".as_slice(), 3, 5, Rule::WrongSide),
        (REPEATED, 15, 101, Rule::RepetitionOver),
        (b"PI\n+\n+5554FU\n", 3, 5, Rule::NoPiece),
        (b"PI\n+\n+7776KI\n", 3, 5, Rule::WrongKind),
        (b"PI\n+\n+2827HI\n", 3, 5, Rule::Occupied),
        (b"PI\n+\n+7775FU\n", 3, 5, Rule::CannotReach),
        (b"PI\n+\n+7776TO\n", 3, 5, Rule::BadPromotion),
        (b"P+12FU\n+\n+1211FU\n", 3, 9, Rule::MustPromote),
        (b"P+55FU00FU\n+\n+0054FU\n", 3, 13, Rule::DoubledPawn),
        (b"P+59OU\nP-51HI\n+\n+5958OU\n", 4, 16, Rule::LeavesKing),
        (MATES, 4, 28, Rule::PawnDropMate),
    ];
    for (source, number, offset, rule) in table {
        refused(&rt, source, number, offset, Why::Rule(rule));
    }
}

#[test]
fn refused_again(rt: HostRuntime) {
    let mut reader = RecordReader::new(rt.alloc());
    let Err(_) = reader.feed(MATES) else {
        panic!(rt; "a mating pawn drop was taken");
    };
    let failed = Refusal {
        number: 4,
        offset: 28,
        why: Why::Failed,
    };
    assert!(rt; reader.feed(b"+\n") == Err(failed));
    assert!(rt; reader.finish().err() == Some(failed));
}
