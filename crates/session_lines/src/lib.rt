//! What the session machines share:
//!
//! - [`Lines`] collects the lines to send, each with its line end;
//! - [`read_move_line`] reads the move that a line of the CSA server protocol spells;
//! - [`server_words`] says what the server's other lines mean;
//! - [`texts`] has every text of the CSA server protocol that a machine compares with or sends.
//!
//! ```text
//! let mut lines = Lines::new(alloc);
//! lines.push_timed(b"+7776FU", 12)?;
//! lines.bytes()                   // b"+7776FU,T12\n"
//! read_move_line(b"+7776FU")      // Some((Color::Black, the move from 77 to 76))
//! ```
#![tactic(auto)]

mod lines;
mod move_line;
pub mod server_words;
pub mod texts;

pub use lines::Lines;
pub use move_line::{is_move_line, read_move_line, walked_of, without_last_spaces};
