// tests/growths runs this with each allocation refused in turn. The answer is out of memory, and a
// second call succeeds.
use crate::archive::shelf::{Blind, Book, Last, Shelf};
use game_archive::{Likeness, Placing, copies, group, group_by};
use std::alloc::Global;
use std::process::Abort;
use std::test::Fail;

const ONE: &[u8] = b"+\n+7776FU\n";

const ONE_SPELT: &[u8] = b"PI\r\n+,+7776FU";

const OTHER: &[u8] = b"+\n+2726FU\n";

const REFUSED: &[u8] = b"+\n+7775FU";

// An entry, a refused one, the same game as the first, and another.
fn books() -> [Book; 4] {
    [
        Book::of(ONE),
        Book::of(REFUSED),
        Book::of(ONE_SPELT),
        Book::of(OTHER),
    ]
}

fn are_grouped(placings: &[Placing]) -> bool {
    matches!(
        placings,
        [
            Placing::Group(0),
            Placing::Refused(_),
            Placing::Group(0),
            Placing::Group(3),
        ]
    )
}

// Groups the entries, and once more if the first call is out of memory.
fn grouped_at_last(
    rt: &(impl AllocGlobal + Print),
    shelf: &mut Shelf<'_>,
    likeness: Likeness,
) -> Result<Vec<Placing>, Fail> {
    let mut last = Last { at: None };
    match group(rt.alloc(), shelf, likeness, &mut last) {
        Ok(placings) => Ok(placings),
        Err(_) => {
            println!(rt; "refused")?;
            Ok(group(rt.alloc(), shelf, likeness, &mut last)?)
        }
    }
}

#[test]
fn refused_growth_of_group(rt: HostRuntime) -> Result<(), Fail> {
    let books = books();
    let mut shelf = Shelf::new(rt.alloc(), books.as_slice());
    let placings = grouped_at_last(&rt, &mut shelf, Likeness::Game)?;
    assert!(rt; are_grouped(&placings));
    Ok(())
}

#[test]
fn refused_growth_of_group_by_moves(rt: HostRuntime) -> Result<(), Fail> {
    let books = books();
    let mut shelf = Shelf::new(rt.alloc(), books.as_slice());
    let placings = grouped_at_last(&rt, &mut shelf, Likeness::Moves)?;
    assert!(rt; are_grouped(&placings));
    Ok(())
}

// With one digest for all, the second group's first entry is kept in the list.
fn grouped_blindly_at_last(
    rt: &(impl AllocGlobal + Print),
    shelf: &mut Shelf<'_>,
) -> Result<Vec<Placing>, Fail> {
    let mut last = Last { at: None };
    match group_by(rt.alloc(), shelf, Likeness::Game, &Blind, &mut last) {
        Ok(placings) => Ok(placings),
        Err(_) => {
            println!(rt; "refused")?;
            Ok(group_by(rt.alloc(), shelf, Likeness::Game, &Blind, &mut last)?)
        }
    }
}

#[test]
fn refused_growth_of_group_by_one_digest(rt: HostRuntime) -> Result<(), Fail> {
    let books = books();
    let mut shelf = Shelf::new(rt.alloc(), books.as_slice());
    let placings = grouped_blindly_at_last(&rt, &mut shelf)?;
    assert!(rt; are_grouped(&placings));
    Ok(())
}

// Lists the copies, and once more if the first call is out of memory.
fn copies_at_last(
    rt: &(impl AllocGlobal + Print),
    placings: &[Placing],
) -> Result<Vec<(usize, usize)>, Fail> {
    match copies(rt.alloc(), placings) {
        Ok(pairs) => Ok(pairs),
        Err(_) => {
            println!(rt; "refused")?;
            Ok(copies(rt.alloc(), placings)?)
        }
    }
}

#[test]
fn refused_growth_of_copies(rt: HostRuntime) -> Result<(), Fail> {
    let placings = [0, 1, 1, 3, 0, 3, 6].map(Placing::Group);
    let pairs = copies_at_last(&rt, placings.as_slice())?;
    let wanted = [(0, 0), (0, 4), (1, 1), (1, 2), (3, 3), (3, 5)];
    assert!(rt; pairs.as_slice() == wanted.as_slice());
    Ok(())
}
