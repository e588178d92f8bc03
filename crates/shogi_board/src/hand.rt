ghost use Rattle.std.specs.Prelude.{◌≡◌, ◌-◌, ◌%◌, ◌^◌, true, slice_index, slice_set};
ghost use Rattle.shogi_board.specs.Keys.{counts_key};
ghost use Rattle.shogi_board.specs.Pieces.{place_of, is_hand_kind};
ghost use Rattle.shogi_board.specs.Totals.{count_in, no_pieces};

use crate::color::Color;
use crate::keys::counts_key;
use crate::kind::Kind;
use std::marker::Model;

/// The pieces in one side's hand: how many there are of each kind.
#[derive(Clone, Copy, Debug, PartialEq, Eq, PartialOrd, Ord)]
pub struct Hand {
    // in the order of `Kind::place`
    counts: [u8; 7],
}

impl Model for Hand {
    ghost use Rattle.std.specs.Prelude.{List, ℕ};

    ghost Value = { List ℕ };

    ghost view = { λ h. h.counts };

    ghost inverse = { λ d. record { counts = d } };
}

impl Hand {
    /// How many pieces of that kind it holds: 0 for the king and the promoted kinds.
    pub fn count(&self, kind: Kind) -> u8
        ensures value { result ≡ count_in self.now kind }
    {
        if kind.is_hand_kind() {
            self.counts[kind.place()]
        } else {
            0
        }
    }

    // The hand without a piece.
    pub(crate) fn empty() -> Hand
        ensures { result ≡ no_pieces }
    {
        Hand { counts: [0; 7] }
    }

    pub(crate) fn of(counts: [u8; 7]) -> Hand
        ensures { result ≡ counts }
    {
        Hand { counts }
    }

    // What the pieces in it count in a key, if it is the hand of that side.
    pub(crate) fn key(&self, color: Color) -> u64
        ensures { result ≡ counts_key color self.now % 2 ^ 64 }
    {
        counts_key(color, &self.counts)
    }

    // How many pieces it holds whose place is that of the kind: none for the king.
    pub(crate) fn at_place_of(&self, kind: Kind) -> u8
        ensures { result ≡ slice_index self.now (place_of kind) }
    {
        self.counts.get(kind.place()).copied().unwrap_or(0)
    }

    // Sets how many pieces of a kind it holds.
    pub(crate) fn set(&mut self, kind: Kind, count: u8)
        requires { is_hand_kind kind ≡ true }
        ensures { self.new ≡ slice_set self.old (place_of kind) count }
    {
        self.counts[kind.place()] = count;
    }
}
