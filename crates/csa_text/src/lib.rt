//! Reads the statements of CSA records, and writes statements and their parts.
//!
//! The grammar is that of CSA V2.2, as `docs/CSA.md` restricts it. `csa_cutting` cuts bytes into
//! statements, and this crate re-exports its types. `read_item` reads one statement into an `Item`,
//! which borrows from it, or returns a `TextFault`, which names the row of the grammar that the
//! statement breaks. `front_move` and `front_time` read a move or a time from bytes that are not
//! cut yet.
//!
//! ```text
//! match read_item(statement.bytes)? {
//!     Item::Walked(color, m) => println!(rt; "{}", csa_move(color, &m).as_str())?,
//!     Item::Time(thousandths) => println!(rt; "{} s", thousandths / 1000)?,
//!     _ => {}
//! }
//! ```
#![tactic(auto)]

mod calendar;
mod codes;
mod ending;
mod fault;
mod fields;
mod front;
mod item;
pub mod laws;
mod moment;
mod moved;
mod pair;
mod pairs;
mod rank;
mod time;
mod writing;

pub use calendar::Moment;
pub use codes::sign_of;
pub use csa_cutting::{Cut, CutFault, Cutter, LineCutter, LineFault, PieceCutter, Statement};
pub use ending::Ending;
pub use fault::TextFault;
pub use front::{MOVE_SIZE, front_move, front_time};
pub use item::{Item, read_item};
pub use moment::read_moment;
pub use moved::{csa_move, move_bytes};
pub use pair::Pair;
pub use pairs::{Pairs, pair_bytes};
pub use rank::cell_bytes;
pub use time::write_time;
pub use writing::{
    even_head, pieces_head, rank_head, write_ending, write_header, write_name, write_turn,
    write_version,
};
