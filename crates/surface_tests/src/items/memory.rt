//! The calls that need no memory are made between two marks. `tests/growths` refuses every
//! allocation between them.

use std::alloc::{AllocError, AllocGlobal};
use std::io::Print;
use std::test::Fail;

// A request for this many bytes is a mark. It is refused too.
const MARK: usize = 1_000_003;

fn set_mark(rt: &impl AllocGlobal) {
    let _room: Result<Vec<u8>, AllocError> = Vec::with_capacity(rt.alloc(), MARK);
}

// From here on each allocation is refused.
pub(crate) fn refuse_all(rt: &impl AllocGlobal) {
    set_mark(rt);
}

// From here on none is. Prints `refused` if one was refused before.
pub(crate) fn refuse_no_more(rt: &(impl AllocGlobal + Print)) -> Result<(), Fail> {
    let mut byte: Vec<u8> = Vec::new(rt.alloc());
    let is_refused = byte.push(b'x').is_err();
    set_mark(rt);
    if is_refused {
        println!(rt; "refused")?;
    }
    Ok(())
}
