use crate::archive::shelf::{Blind, Book, Last, Shelf, Tape};
use crate::archive::texts::{Texts, exact_groups};
use game_archive::{Likeness, Placing, copies, group, group_by};
use std::alloc::Global;
use std::test::Fail;

const GAME: &[u8] = b"V2.2\nN+a\nPI\n+\n+7776FU\nT12\n-3334FU\nT6\n%TORYO\n";

// The same game, with statements on one line, a comment, CRs and a time in other words.
const SPELT: &[u8] = b"'x\r\nV2.2\r\nPI\r\nN+a\r\n+\r\n+7776FU,T12.0\r\n-3334FU,T6\r\n%TORYO";

const OTHER_TIME: &[u8] = b"V2.2\nN+a\nPI\n+\n+7776FU\nT12\n-3334FU\nT7\n%TORYO\n";

const OTHER_NAME: &[u8] = b"V2.2\nN+b\nPI\n+\n+7776FU\nT12\n-3334FU\nT6\n%TORYO\n";

const OTHER_ENDING: &[u8] = b"V2.2\nN+a\nPI\n+\n+7776FU\nT12\n-3334FU\nT6\n%CHUDAN\n";

const NO_TIME: &[u8] = b"PI\n+\n+7776FU\n-3334FU\n";

const TIME_OF_0: &[u8] = b"PI\n+\n+7776FU\n-3334FU\nT0\n";

const OTHER_MOVE: &[u8] = b"PI\n+\n+7776FU\n-8384FU\n";

const OTHER_START: &[u8] = b"PI22KA\n+\n+7776FU\n-3334FU\n";

const REFUSED: &[u8] = b"+\n+7775FU";

fn placed(alloc: Global, likeness: Likeness, books: &[Book]) -> Result<Vec<Placing>, Fail> {
    let mut last = Last { at: None };
    let placings = group(alloc, &mut Shelf::new(alloc, books), likeness, &mut last)?;
    Ok(placings)
}

#[test]
fn whole_games(rt: HostRuntime) -> Result<(), Fail> {
    let books = [
        Book::of(GAME),
        Book::of(NO_TIME),
        Book::of(SPELT),
        Book::of(OTHER_TIME),
        Book::of(OTHER_NAME),
        Book::of(OTHER_ENDING),
        Book::of(TIME_OF_0),
        Book::of(NO_TIME),
    ];
    let placings = placed(rt.alloc(), Likeness::Game, books.as_slice())?;
    let wanted = [0, 1, 0, 3, 4, 5, 6, 1].map(Placing::Group);
    assert!(rt; placings.as_slice() == wanted.as_slice());
    Ok(())
}

#[test]
fn starts_and_moves(rt: HostRuntime) -> Result<(), Fail> {
    let books = [
        Book::of(GAME),
        Book::of(OTHER_MOVE),
        Book::of(SPELT),
        Book::of(OTHER_TIME),
        Book::of(OTHER_NAME),
        Book::of(OTHER_START),
        Book::of(TIME_OF_0),
        Book::of(NO_TIME),
    ];
    let placings = placed(rt.alloc(), Likeness::Moves, books.as_slice())?;
    let wanted = [0, 1, 0, 0, 0, 5, 0, 0].map(Placing::Group);
    assert!(rt; placings.as_slice() == wanted.as_slice());
    Ok(())
}

#[test]
fn refused_in_no_group(rt: HostRuntime) -> Result<(), Fail> {
    let books = [
        Book::of(REFUSED),
        Book::of(GAME),
        Book::of(REFUSED),
        Book::of(SPELT),
    ];
    let placings = placed(rt.alloc(), Likeness::Game, books.as_slice())?;
    let is_so = match placings.as_slice() {
        [
            Placing::Refused(first),
            Placing::Group(1),
            Placing::Refused(last),
            Placing::Group(1),
        ] => { first.offset == 2 && first == last }
        _ => false,
    };
    assert!(rt; is_so);
    Ok(())
}

#[test]
fn unreadable_in_no_group(rt: HostRuntime) -> Result<(), Fail> {
    let books = [
        Book::changing(Tape::Torn, Tape::Bytes(GAME)),
        Book::of(GAME),
        Book::of(SPELT),
    ];
    let placings = placed(rt.alloc(), Likeness::Game, books.as_slice())?;
    let wanted = [Placing::Unreadable, Placing::Group(1), Placing::Group(1)];
    assert!(rt; placings.as_slice() == wanted.as_slice());
    Ok(())
}

// Where the first entry of a group cannot be read again, the later one has no group, and the
// others keep theirs.
#[test]
fn not_read_again(rt: HostRuntime) -> Result<(), Fail> {
    for later in [Tape::Torn, Tape::Bytes(REFUSED)] {
        let books = [
            Book::changing(Tape::Bytes(GAME), later),
            Book::of(OTHER_NAME),
            Book::of(SPELT),
            Book::of(OTHER_NAME),
        ];
        let placings = placed(rt.alloc(), Likeness::Game, books.as_slice())?;
        let wanted = [
            Placing::Group(0),
            Placing::Group(1),
            Placing::Unreadable,
            Placing::Group(1),
        ];
        assert!(rt; placings.as_slice() == wanted.as_slice());
    }
    Ok(())
}

// Each reading that failed or was refused was made for one entry. The leader is read again for the
// entry that has its digest, and for no other.
#[test]
fn readings_made_for_entries(rt: HostRuntime) -> Result<(), Fail> {
    let books = [
        Book::changing(Tape::Bytes(GAME), Tape::Torn),
        Book::of(OTHER_NAME),
        Book::of(SPELT),
        Book::of(REFUSED),
    ];
    let mut shelf = Shelf::new(rt.alloc(), books.as_slice());
    let mut last = Last { at: None };
    let placings = group(rt.alloc(), &mut shelf, Likeness::Game, &mut last)?;
    assert!(rt; placings.len() == 4);
    assert!(rt; shelf.failed.as_slice() == [0].as_slice());
    assert!(rt; shelf.refused.as_slice() == [3].as_slice());
    Ok(())
}

// An entry that has another game when it is read again.
#[test]
fn changed_between(rt: HostRuntime) -> Result<(), Fail> {
    let books = [
        Book::changing(Tape::Bytes(GAME), Tape::Bytes(OTHER_TIME)),
        Book::of(SPELT),
        Book::of(GAME),
    ];
    let placings = placed(rt.alloc(), Likeness::Game, books.as_slice())?;
    let wanted = [0, 1, 1].map(Placing::Group);
    assert!(rt; placings.as_slice() == wanted.as_slice());
    Ok(())
}

// Nothing rests on the digests.
#[test]
fn one_digest_for_all(rt: HostRuntime) -> Result<(), Fail> {
    let books = [
        Book::of(GAME),
        Book::of(OTHER_TIME),
        Book::of(NO_TIME),
        Book::of(OTHER_TIME),
        Book::of(SPELT),
        Book::of(NO_TIME),
    ];
    let mut shelf = Shelf::new(rt.alloc(), books.as_slice());
    let mut last = Last { at: None };
    let placings = group_by(rt.alloc(), &mut shelf, Likeness::Game, &Blind, &mut last)?;
    let wanted = [0, 1, 2, 1, 0, 2].map(Placing::Group);
    assert!(rt; placings.as_slice() == wanted.as_slice());
    assert!(rt; last.at == Some(5));
    Ok(())
}

#[test]
fn empty_archive(rt: HostRuntime) -> Result<(), Fail> {
    let placings = placed(rt.alloc(), Likeness::Game, [].as_slice())?;
    assert!(rt; placings.is_empty());
    Ok(())
}

// The games that are there once are left out, and the others come by their first entries.
#[test]
fn copies_in_order(rt: HostRuntime) -> Result<(), Fail> {
    let books = [
        Book::of(OTHER_MOVE),
        Book::of(GAME),
        Book::of(REFUSED),
        Book::of(NO_TIME),
        Book::of(NO_TIME),
        Book::of(SPELT),
        Book::of(GAME),
    ];
    let placings = placed(rt.alloc(), Likeness::Game, books.as_slice())?;
    let pairs = copies(rt.alloc(), placings.as_slice())?;
    let wanted = [(1, 1), (1, 5), (1, 6), (3, 3), (3, 4)];
    assert!(rt; pairs.as_slice() == wanted.as_slice());
    Ok(())
}

// The premise of `exact` is met: no reading of texts in memory fails.
#[test]
fn exact_groups_of_texts(rt: HostRuntime) -> Result<(), Fail> {
    let texts = [GAME, REFUSED, SPELT, OTHER_TIME];
    let mut archive = Texts::new(rt.alloc(), texts.as_slice());
    let placings = exact_groups(rt.alloc(), &mut archive, Likeness::Game)?;
    assert!(rt; archive.failed.is_empty());
    assert!(rt; archive.refused.as_slice() == [1].as_slice());
    let is_so = matches!(
        placings.as_slice(),
        [
            Placing::Group(0),
            Placing::Refused(_),
            Placing::Group(0),
            Placing::Group(3)
        ]
    );
    assert!(rt; is_so);
    Ok(())
}
