use hash_comments::{HashComments, HashLines, laws};
use std::alloc::Global;
use std::io;
use std::io::{Cursor, ErrorKind, Read};
use std::process::Abort;
use std::test::Fail;

// A text, and how it is read if lines from `#` are comments.
const TEXTS: &[(&[u8], &[u8])] = &[
    (b"", b""),
    (b"#", b"'"),
    (b"#RESIGN\n", b"'RESIGN\n"),
    (b"##", b"'#"),
    (b"+\n#TIME_UP\n", b"+\n'TIME_UP\n"),
    (b"+\r#TIME_UP\r#", b"+\r'TIME_UP\r'"),
    (b"+\r\n#TIME_UP\r\n", b"+\r\n'TIME_UP\r\n"),
    (b"\n\n#\n#", b"\n\n'\n'"),
    // the byte order mark, whole, in part, twice, and not at the front
    (b"\xEF\xBB\xBF#RESIGN\n", b"\xEF\xBB\xBF'RESIGN\n"),
    (b"\xEF\xBB\xBF\n#", b"\xEF\xBB\xBF\n'"),
    (b"\xEF#", b"\xEF#"),
    (b"\xEF\xBB#", b"\xEF\xBB#"),
    (b"\xEF\xBF#", b"\xEF\xBF#"),
    (b"\xEF\n#", b"\xEF\n'"),
    (b"\xEF\xBB\xBF\xEF\xBB\xBF#", b"\xEF\xBB\xBF\xEF\xBB\xBF#"),
    (b"+\n\xEF\xBB\xBF#", b"+\n\xEF\xBB\xBF#"),
    // within a line
    (b"'comment #1\n", b"'comment #1\n"),
    (b"N+player#1\nN-#2\n", b"N+player#1\nN-#2\n"),
    (b"PI,#,+\n", b"PI,#,+\n"),
    (b" #\n", b" #\n"),
];

// What the reader gives of the text, in pieces of at most so many bytes.
fn read_by(
    alloc: Global,
    text: &[u8],
    hash_lines: HashLines,
    size: usize,
) -> Result<Vec<u8>, Fail> {
    let mut reader = HashComments::new(Cursor::new(text), hash_lines);
    let mut buffer = [0; 64];
    let mut read = Vec::new(alloc);
    for _ in 0..100 {
        let taken = reader.read(&mut buffer[..size.min(64)])?;
        read.extend_from_slice(&buffer[..taken])?;
    }
    Ok(read)
}

#[test]
fn hashes_that_begin_lines_are_read(rt: HostRuntime) -> Result<(), Fail> {
    for (text, comments) in TEXTS {
        for size in [1, 2, 3, 64] {
            let read = read_by(rt.alloc(), text, HashLines::Comments, size)?;
            assert!(rt;
                read.as_slice() == *comments,
                "{text:?} in pieces of {size}"
            );
        }
    }
    Ok(())
}

#[test]
fn refused_lines_are_read_as_they_are(rt: HostRuntime) -> Result<(), Fail> {
    for (text, _) in TEXTS {
        for size in [1, 64] {
            let read = read_by(rt.alloc(), text, HashLines::Refused, size)?;
            assert!(rt; read.as_slice() == *text, "{text:?} in pieces of {size}");
        }
    }
    Ok(())
}

// A reader whose every other read fails.
#[derive(Drop)]
struct Unsteady<R> {
    inner: R,
    fails: bool,
}

impl<R: Read> Read for Unsteady<R> {
    ghost remaining = { λ u. R.remaining u.inner };

    fn read(&mut self, buf: &mut [u8]) -> io::Result<usize> {
        self.fails = !self.fails;
        if self.fails {
            return Err(io::Error::from(ErrorKind::TimedOut));
        }
        self.inner.read(buf)
    }
}

#[test]
fn a_failed_read_changes_nothing(rt: HostRuntime) -> Result<(), Fail> {
    let unsteady = Unsteady {
        inner: Cursor::new(b"+\n#\n"),
        fails: false,
    };
    let mut reader = HashComments::new(unsteady, HashLines::Comments);
    let mut byte = [0];
    for expected in b"+\n'\n" {
        let failed = reader.read(&mut byte).err();
        assert!(rt; failed.map(|error| error.kind()) == Some(ErrorKind::TimedOut));
        assert!(rt; reader.read(&mut byte)? == 1);
        assert!(rt; byte[0] == *expected);
    }
    Ok(())
}

#[test]
fn laws_are_called() {
    laws::read_by_places();
}
