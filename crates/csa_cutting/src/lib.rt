//! Cuts bytes into the parts that readers work on: the bytes of a CSA record into statements, and
//! any bytes into lines.
//!
//! The grammar is that of CSA V2.2, as `docs/CSA.md` restricts it. `Cutter` cuts a record that lies
//! in memory as a whole, `PieceCutter` one that arrives in pieces, and `LineCutter` cuts pieces
//! into lines. Only `LineCutter` allocates.
//!
//! ```text
//! let mut cutter = Cutter::new(source);
//! while let Some(statement) = cutter.next_statement()? {
//!     println!(rt; "{}: {} bytes", statement.number, statement.bytes.len())?;
//! }
//! ```
#![tactic(auto)]

mod cutter;
pub mod laws;
mod line;
mod piece;
mod scan;
mod units;

pub use cutter::{CutFault, Cutter, Statement};
pub use line::{LineCutter, LineFault};
pub use piece::{Cut, PieceCutter};
