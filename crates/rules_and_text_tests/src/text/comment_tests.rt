use crate::text::piece_tests::same;
use csa_cutting::{Cutter, Statement};
use std::alloc::AllocError;
use std::process::Abort;
use std::test::Fail;

// Adds comments of this many bytes after `'`, each with these bytes after it, up to this size.
fn fill_with_comments(
    source: &mut Vec<u8>,
    size: usize,
    length: usize,
    end: &[u8],
) -> Result<(), AllocError> {
    for _ in 0..size {
        if source.len() >= size {
            break;
        }
        source.push(b'\'')?;
        for _ in 0..length {
            source.push(b'x')?;
        }
        source.extend_from_slice(end)?;
    }
    Ok(())
}

// A statement between comments of each length up to 300 bytes, with more than 4,096 bytes of them
// after it: whole, and in pieces that cut a comment in two.
#[test]
fn statement_among_comments(rt: HostRuntime) -> Result<(), AllocError> {
    let table: [&[u8]; 7] = [
        b"\n",
        b"\r\n",
        b"\r",
        b"\t\n",
        b"\r\n\r\n",
        b"\n\t\n",
        b"\n ,",
    ];
    for end in table {
        for length in 0..300usize {
            let mut source = Vec::new(rt.alloc());
            fill_with_comments(&mut source, 1_300, length, end)?;
            let offset = source.len() as u64;
            source.push(b'+')?;
            source.extend_from_slice(end)?;
            fill_with_comments(&mut source, 6_000, length, end)?;
            let mut cutter = Cutter::new(source.as_slice());
            let statement = Statement {
                number: 1,
                offset,
                bytes: b"+",
            };
            assert!(rt; cutter.next_statement() == Ok(Some(statement)));
            assert!(rt; cutter.next_statement() == Ok(None));
            assert!(rt; same(source.as_slice(), 700));
            assert!(rt; same(source.as_slice(), 4_096));
        }
    }
    Ok(())
}
