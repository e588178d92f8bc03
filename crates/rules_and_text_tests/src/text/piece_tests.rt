ghost use Rattle.std.specs.Prelude.{◌≤◌};

use csa_cutting::{Cutter, PieceCutter};

// Whether `PieceCutter` gives the same statements as `Cutter`, if the pieces end at this place and
// then after each `size` bytes.
fn same_cut_at(source: &[u8], place: usize, size: usize) -> bool {
    let mut whole = Cutter::new(source);
    let mut pieces = PieceCutter::new();
    let mut at = 0usize;
    for _ in 0..2_000_000 {
        if at >= source.len() {
            break;
        }
        let piece = &source[at..piece_end(source.len(), at, place, size)];
        if pieces.fed() > 2_000_000 || piece.len() > 2_000_000 {
            return false;
        }
        match pieces.step(piece) {
            Err(fault) => return whole.next_statement() == Err(fault)
                && pieces.finish() == Err(fault),
            Ok(cut) => {
                at += cut.used;
                if cut.statement.is_some() && whole.next_statement() != Ok(cut.statement) {
                    return false;
                }
            }
        }
    }
    let fed = pieces.fed();
    match pieces.finish() {
        Ok(Some(last)) => fed == source.len() as u64
            && whole.next_statement() == Ok(Some(last))
            && whole.next_statement() == Ok(None),
        Ok(None) => fed == source.len() as u64 && whole.next_statement() == Ok(None),
        Err(_) => false,
    }
}

// Where the piece that begins at `at` ends.
fn piece_end(length: usize, at: usize, place: usize, size: usize) -> usize
    requires { at ≤ length }
    ensures { (at ≤ result) × (result ≤ length) }
{
    if at < place && place <= length {
        place
    } else if length - at < size {
        length
    } else {
        at + size
    }
}

// Whether `PieceCutter` gives the same statements as `Cutter`, in pieces of this size.
pub(crate) fn same(source: &[u8], size: usize) -> bool {
    same_cut_at(source, 0, size)
}

#[test]
fn pieces_of_each_size_give_the_same(rt: HostRuntime) {
    let table: [&[u8]; 12] = [
        b"",
        b"PI\n+\n+7776FU,T12\r\n-3334FU ,\tT6,%TORYO \n",
        b"'x, y\n'z\nN+a, b \r\n$EVENT:c,'d\n ,,'e\n+ \t",
        b"\xEF\xBB\xBFPI\n+",
        b"\xEF\xBB\xBF",
        b"\xEF\xBB",
        b"\xEF\xBB\nPI\n",
        b"\xEF,\xBB\xBFPI\n",
        b"\xEFx\xBB,+",
        b"\xEF\xBB\xBF\xEF\xBB\xBF\n+",
        b"'abc\nPI\n'",
        b",\r\n \t+\n\n-,",
    ];
    for source in table {
        for size in 1..40usize {
            assert!(rt; same(source, size), "in pieces of {size}");
        }
    }
}

// How many statements a cutter has given after a piece that it uses whole.
fn count_after(pieces: &mut PieceCutter, piece: &[u8]) -> Option<u64> {
    if pieces.fed() > 2_000_000 || piece.len() > 2_000_000 {
        return None;
    }
    let used = pieces.step(piece).ok()?.used;
    if used == piece.len() {
        Some(pieces.statements())
    } else {
        None
    }
}

// A comment is no statement, and neither is an unfinished one.
#[test]
fn counts_statements(rt: HostRuntime) {
    let mut pieces = PieceCutter::new();
    for (piece, statements) in [
        (b"PI\n".as_slice(), 1),
        (b"'x\n", 1),
        (b"+77", 1),
        (b"76FU,", 2),
    ] {
        assert!(rt; count_after(&mut pieces, piece) == Some(statements));
    }
}

// Takes a move that is followed by its end, and returns the number and the offset of its statement.
fn move_taken(pieces: &mut PieceCutter) -> Option<(u64, u64)> {
    if pieces.fed() > 2_000_000 {
        return None;
    }
    let statement = pieces.take_word(b"+7776FU\nT1", 7)?;
    Some((statement.number, statement.offset))
}

// How many bytes the separator or the comment at the front of the piece takes.
fn passed(pieces: &mut PieceCutter, piece: &[u8]) -> Option<usize> {
    if pieces.fed() > 2_000_000 || piece.len() > 2_000_000 {
        return None;
    }
    pieces.take_unspoken(piece)
}

// What is at the front is taken only between statements. At the start a byte order mark may come.
#[test]
fn takes_what_was_read(rt: HostRuntime) {
    let mut pieces = PieceCutter::new();
    assert!(rt; move_taken(&mut pieces).is_none() && passed(&mut pieces, b",").is_none());
    assert!(rt; count_after(&mut pieces, b"\n") == Some(0));
    assert!(rt; move_taken(&mut pieces) == Some((1, 1)) && pieces.fed() == 9);
    assert!(rt; passed(&mut pieces, b"'x\n+") == Some(3) && passed(&mut pieces, b",") == Some(1));
    assert!(rt; passed(&mut pieces, b"'x") == Some(2) && passed(&mut pieces, b"+").is_some());
    assert!(rt; move_taken(&mut pieces).is_none() && passed(&mut pieces, b"x\n+") == Some(2));
    assert!(rt; passed(&mut pieces, b"+").is_none() && move_taken(&mut pieces) == Some((2, 18)));
}
