//! What a shogi board is: squares, pieces, hands and sound positions.
//!
//! A `Position` is always sound: it has no more pieces of each kind than a game has and at most one
//! king a side, and the king of the side that is not to move is not attacked. `Position::even` is
//! the even start; any other position is set up in a `Setup`, piece by piece, and each call there
//! says why a piece may not be added.
//!
//! `Situation::play` makes a move on a position, or names the first of the rules 3 to 10 that it
//! breaks. The other rules, and games as lines of moves, are the subject of `shogi_rules`.
//!
//!     let mut setup = Setup::empty();
//!     setup.place(Color::Black, square, Kind::King)?;
//!     setup.add_hand(Color::White, Kind::Pawn)?;
//!     let position = setup.finish(Color::Black)?;
#![tactic(auto)]

mod board;
mod board_rules;
mod cell;
mod color;
mod danger;
mod direction;
mod even;
mod hand;
mod keys;
mod kind;
mod kinds;
mod landmarks;
pub mod laws;
mod memory;
mod moves;
mod moving;
mod playing;
mod position;
mod rule;
mod setup;
mod situation;
mod square;

pub use color::Color;
pub use hand::Hand;
pub use kind::{Kind, Piece};
pub use memory::OutOfMemory;
pub use moves::Move;
pub use position::{Position, attacked, reaches};
pub use rule::Rule;
pub use setup::{Setup, SetupFault};
pub use situation::Situation;
pub use square::Square;
