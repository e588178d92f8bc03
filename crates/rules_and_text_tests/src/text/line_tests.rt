use csa_cutting::{LineCutter, LineFault};
use std::process::Abort;
use std::test::Fail;

// Writes the lines of the bytes, fed in pieces of this size, each followed by a bar.
fn cut(
    rt: &impl AllocGlobal,
    bytes: &[u8],
    size: usize,
    limit: usize,
) -> Result<Vec<u8>, LineFault> {
    let mut out = Vec::new(rt.alloc());
    let mut cutter = LineCutter::new(rt.alloc(), limit);
    let mut at = 0usize;
    for _ in 0..1000 {
        if at >= bytes.len() {
            break;
        }
        let end = if bytes.len() - at < size {
            bytes.len()
        } else {
            at + size
        };
        let (used, line) = cutter.step(&bytes[at..end])?;
        at += used;
        if let Some(line) = line {
            out.extend_from_slice(line)?;
            out.push(b'|').map_err(|_| LineFault::OutOfMemory)?;
        }
    }
    if let Some(line) = cutter.finish()? {
        out.extend_from_slice(line)?;
        out.push(b'|').map_err(|_| LineFault::OutOfMemory)?;
    }
    Ok(out)
}

#[test]
fn lines_in_pieces_of_each_size(rt: HostRuntime) -> Result<(), LineFault> {
    let table = [
        ("", ""),
        ("\r\n\n\r", ""),
        ("usi\nisready\r\n\r\nquit", "usi|isready|quit|"),
        ("\na b,\tc\r\rquit\n", "a b,\tc|quit|"),
    ];
    for (bytes, expected) in table {
        for size in 1..30usize {
            let got = cut(&rt, bytes.as_bytes(), size, 8)?;
            assert_eq!(rt; got.as_slice(), expected.as_bytes(), "in pieces of {size}");
        }
    }
    Ok(())
}

// A line over the limit is refused as too long, and so is each step after it.
#[test]
fn lines_too_long(rt: HostRuntime) {
    let mut cutter = LineCutter::new(rt.alloc(), 2);
    assert!(rt; cutter.step(b"abc").err() == Some(LineFault::TooLong));
    assert!(rt; cutter.step(b"\n").err() == Some(LineFault::TooLong));
    assert!(rt; cutter.finish().err() == Some(LineFault::TooLong));
}

// Takes a piece, once more if the first call is out of memory. It is used whole, and gives this
// line.
fn take_at_last(
    rt: &(impl Print + Abort),
    cutter: &mut LineCutter,
    piece: &[u8],
    line: Option<&[u8]>,
) -> Result<(), Fail> {
    match cutter.step(piece) {
        Ok(answer) => assert_eq!(rt; answer, (piece.len(), line)),
        Err(fault) => {
            println!(rt; "refused")?;
            assert_eq!(rt; fault, LineFault::OutOfMemory);
            assert_eq!(rt; cutter.step(piece), Ok((piece.len(), line)));
        }
    }
    Ok(())
}

fn take_pieces_at_last(rt: &(impl Print + Abort), cutter: &mut LineCutter) -> Result<(), Fail> {
    let table: [(&[u8], Option<&[u8]>); 5] = [
        (b"usi", None),
        (b"newgame", None),
        (b"\n", Some(b"usinewgame")),
        (b"position startpos moves 7g7f 3c3d ", None),
        (b"2g2f\n", Some(b"position startpos moves 7g7f 3c3d 2g2f")),
    ];
    for (piece, line) in table {
        take_at_last(rt, cutter, piece, line)?;
    }
    assert_eq!(rt; cutter.finish(), Ok(None));
    Ok(())
}

// tests/growths runs this with each allocation refused in turn. A refused step changes nothing, and
// a second one succeeds.
#[test]
fn refused_growth_changes_nothing(rt: HostRuntime) -> Result<(), Fail> {
    let mut cutter = LineCutter::new(rt.alloc(), 4096);
    take_pieces_at_last(&rt, &mut cutter)
}
