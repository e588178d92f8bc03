use shogi_board::{Kind, Square};

/// One pair after `PI`, `P+` or `P-`.
#[derive(Clone, Copy, Debug, PartialEq, Eq)]
pub enum Pair {
    /// A piece of that kind on that square.
    On(Square, Kind),
    /// `00` and a kind: a piece of that kind in the hand.
    InHand(Kind),
    /// `00AL`: all remaining pieces except kings, in the hand.
    Rest,
}
