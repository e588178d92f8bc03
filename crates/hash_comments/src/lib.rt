//! A reader in which lines that begin with `#` are comments of a CSA record.
//!
//! Game servers and tournaments often write their own line into a record, as `#RESIGN` or
//! `#TIME_UP`. CSA V2.2 has no such lines. [`HashComments`] gives the bytes of a reader with each
//! `#` at the beginning of a line as `'`, which begins a comment. No byte moves, so the offset of a
//! byte in the record is its offset in the file.
//!
//! ```text
//! let mut reader = HashComments::new(file, HashLines::Comments);
//! reader.read(&mut buffer)?;  // the file's "#RESIGN\n" comes as "'RESIGN\n"
//! ```
//!
//! A line begins at the front of the text, after a UTF-8 byte order mark at the front, and after
//! each LF and each CR. [`laws`] says the same by the places of a text.
#![tactic(auto)]

mod comments;
pub mod laws;
mod place;

pub use comments::{HashComments, HashLines};
