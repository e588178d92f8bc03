ghost use Rattle.std.specs.Prelude.{◌≡◌, ◌≤◌, None, Some, MatchResult, OnOk, OnErr, IfOk, ◌↔◌, IsTrue};
ghost use Rattle.shogi_board.specs.Cells.{even_cells};
ghost use Rattle.shogi_board.specs.Material.{bag_of, with_bag};
ghost use Rattle.shogi_board.specs.Pieces.{opponent};
ghost use Rattle.shogi_board.specs.Sound.{IsSound};
ghost use Rattle.shogi_board.specs.Totals.{total, limit, IsWithinTotals};
ghost use Rattle.shogi_board.specs.Reach.{InCheck};
ghost use Rattle.shogi_board.specs.Setup.{board_alone, empty_layout, position_of, is_full, place_fault, with_piece, add_fault, take_off_fault, taken_off, take_hand_fault, rest_fault, with_rest, count_with_rest, rest_to, added, taken};
ghost use Rattle.shogi_board.specs.declared.setup.SetupFault.TheVariants.{OpponentInCheck};

use crate::board::Board;
use crate::color::Color;
use crate::hand::Hand;
use crate::kind::{Kind, Piece};
use crate::position::Position;
use crate::square::Square;
use std::marker::Model;
use thiserror::Error;

/// Why a call on a `Setup` was refused.
#[derive(Clone, Copy, Debug, PartialEq, Eq, Error)]
pub enum SetupFault {
    /// The square holds a piece already.
    #[error("S1 SquareTaken")]
    SquareTaken,
    /// There would be more pieces of that kind than a game has.
    #[error("S2 TooMany")]
    TooMany,
    /// That side has a king already.
    #[error("S3 SecondKing")]
    SecondKing,
    /// No hand holds kings or promoted pieces.
    #[error("S4 NotForHand")]
    NotForHand,
    /// The square, or the hand, does not hold that kind.
    #[error("S5 NotThere")]
    NotThere,
    /// The king of the side not to move is attacked.
    #[error("S6 OpponentInCheck")]
    OpponentInCheck,
    /// The rest of the pieces was given to a side before.
    #[error("S7 AfterRest")]
    AfterRest,
}

/// A board and two hands that are being set up, within the number of pieces of a game.
#[derive(Clone, Copy, Debug)]
#[derive_where(PartialEq, Eq)]
pub struct Setup {
    pub(crate) board: Board,
    // how many pieces of each kind are on the board, by `Kind::place`
    #[derive_where(skip(EqHashOrd))]
    pub(crate) counts: [u8; 8],
    pub(crate) black: Hand,
    pub(crate) white: Hand,
    pub(crate) rest_given: bool,
}

impl Model for Setup {
    ghost use Rattle.shogi_board.specs.Layout.{Layout};
    ghost use Rattle.std.specs.Prelude.{◌≡◌};
    ghost use Rattle.shogi_board.specs.Totals.{board_counts, IsWithinTotals};

    ghost Value = { Layout };

    ghost view = { λ s. record {
      material = record { board = s.board; black = s.black; white = s.white };
      rest_given = s.rest_given;
    } };

    ghost invariant = { λ s.
        IsWithinTotals (record { board = s.board; black = s.black; white = s.white })
        × (board_counts s.board ≡ s.counts) };

    ghost inverse = { λ d. record {
      board = d.material.board;
      counts = board_counts d.material.board;
      black = d.material.black;
      white = d.material.white;
      rest_given = d.rest_given;
    } };

    ghost inverse_ok = { λ s h i. record {
      board = s.board;
      counts = h.1 i;
      black = s.black;
      white = s.white;
      rest_given = s.rest_given;
    } };
}

impl Setup {
    /// The empty board and empty hands, the rest not given.
    pub fn empty() -> Setup
        ensures value { result ≡ empty_layout }
    {
        Setup {
            board: Board::empty(),
            counts: [0; 8],
            black: Hand::empty(),
            white: Hand::empty(),
            rest_given: false,
        }
    }

    /// The even board and empty hands, the rest not given.
    pub fn even() -> Setup
        ensures value { result ≡ board_alone even_cells }
    {
        Setup {
            board: Board::even(),
            counts: [18, 4, 4, 4, 4, 2, 2, 2],
            black: Hand::empty(),
            white: Hand::empty(),
            rest_given: false,
        }
    }

    /// Places a piece of that side and kind on the square.
    ///
    /// Refuses, in this order:
    ///
    /// - `AfterRest` if the rest was given;
    /// - `SquareTaken` if the square holds a piece;
    /// - `SecondKing` for a king of a side that has one;
    /// - `TooMany` if all pieces of that kind are placed or in hands already; promoted ones count
    ///   as their unpromoted kind.
    ///
    /// A refused call changes nothing.
    pub fn place(&mut self, color: Color, square: Square, kind: Kind) -> Result<(), SetupFault>
        ensures answer { MatchResult result
            (λ _. place_fault self.old color square kind ≡ None)
            (λ fault. place_fault self.old color square kind ≡ Some fault) }
        ensures changed { OnOk result (self.new ≡ with_piece self.old color square kind) }
        ensures unchanged { OnErr result (self.new ≡ self.old) }
    {
        if self.rest_given {
            return Err(SetupFault::AfterRest);
        }
        if self.board.at(square).is_some() {
            return Err(SetupFault::SquareTaken);
        }
        if kind.is_king() && self.board.has_king(color) {
            return Err(SetupFault::SecondKing);
        }
        if self.is_full(kind) {
            return Err(SetupFault::TooMany);
        }
        self.put(color, square, kind);
        Ok(())
    }

    // Places a piece if it is known that `place` would not refuse it.
    fn put(&mut self, color: Color, square: Square, kind: Kind)
        requires fits { place_fault self.old color square kind ≡ None }
        ensures changed { self.new ≡ with_piece self.old color square kind }
    {
        self.board.put(square, Some(Piece { color, kind }));
        self.counts[kind.place()] += 1;
    }

    /// Adds a piece of that kind to the hand of that side.
    ///
    /// Refuses, in this order: AfterRest if the rest was given; NotForHand for a king or a promoted
    /// kind; TooMany if all pieces of that kind are placed or in hands already. A refused call
    /// changes nothing.
    pub fn add_hand(&mut self, color: Color, kind: Kind) -> Result<(), SetupFault>
        ensures answer { MatchResult result
            (λ _. add_fault self.old kind ≡ None)
            (λ fault. add_fault self.old kind ≡ Some fault) }
        ensures changed { OnOk result (self.new ≡ added self.old color kind) }
        ensures unchanged { OnErr result (self.new ≡ self.old) }
    {
        if self.rest_given {
            return Err(SetupFault::AfterRest);
        }
        if !kind.is_hand_kind() {
            return Err(SetupFault::NotForHand);
        }
        if self.is_full(kind) {
            return Err(SetupFault::TooMany);
        }
        self.put_in_hand(color, kind);
        Ok(())
    }

    // Adds a piece to the hand if it is known that `add_hand` would not refuse it.
    fn put_in_hand(&mut self, color: Color, kind: Kind)
        requires fits { add_fault self.old kind ≡ None }
        ensures changed { self.new ≡ added self.old color kind }
    {
        let mut hand = self.hand(color);
        hand.set(kind, hand.count(kind) + 1);
        self.set_hand(color, hand);
    }

    /// Takes the piece of that kind, of either side, off the square.
    ///
    /// Refuses, in this order: AfterRest if the rest was given; NotThere if the square is empty or
    /// holds another kind. A refused call changes nothing.
    pub fn take_off(&mut self, square: Square, kind: Kind) -> Result<(), SetupFault>
        ensures answer { MatchResult result
            (λ _. take_off_fault self.old square kind ≡ None)
            (λ fault. take_off_fault self.old square kind ≡ Some fault) }
        ensures changed { OnOk result (self.new ≡ taken_off self.old square) }
        ensures unchanged { OnErr result (self.new ≡ self.old) }
    {
        if self.rest_given {
            return Err(SetupFault::AfterRest);
        }
        if !self.board.holds(square, kind) {
            return Err(SetupFault::NotThere);
        }
        self.clear(square, kind);
        Ok(())
    }

    // Takes off a piece if it is known that `take_off` would not refuse it.
    fn clear(&mut self, square: Square, kind: Kind)
        requires fits { take_off_fault self.old square kind ≡ None }
        ensures changed { self.new ≡ taken_off self.old square }
    {
        self.board.put(square, None);
        self.counts[kind.place()] -= 1;
    }

    /// Takes a piece of that kind out of the hand of that side.
    ///
    /// Refuses, in this order: AfterRest if the rest was given; NotThere if the hand holds none of
    /// that kind. A refused call changes nothing.
    pub fn take_hand(&mut self, color: Color, kind: Kind) -> Result<(), SetupFault>
        ensures answer { MatchResult result
            (λ _. take_hand_fault self.old color kind ≡ None)
            (λ fault. take_hand_fault self.old color kind ≡ Some fault) }
        ensures changed { OnOk result (self.new ≡ taken self.old color kind) }
        ensures unchanged { OnErr result (self.new ≡ self.old) }
    {
        if self.rest_given {
            return Err(SetupFault::AfterRest);
        }
        if self.hand(color).count(kind) == 0 {
            return Err(SetupFault::NotThere);
        }
        self.take_from_hand(color, kind);
        Ok(())
    }

    // Takes a piece out of the hand if it is known that `take_hand` would not refuse it.
    fn take_from_hand(&mut self, color: Color, kind: Kind)
        requires fits { take_hand_fault self.old color kind ≡ None }
        ensures changed { self.new ≡ taken self.old color kind }
    {
        let mut hand = self.hand(color);
        hand.set(kind, hand.count(kind) - 1);
        self.set_hand(color, hand);
    }

    /// Gives all pieces that are neither placed nor in a hand to the hand of that side, kings not.
    ///
    /// Refuses AfterRest if the rest was given before, and then changes nothing.
    pub fn give_rest(&mut self, color: Color) -> Result<(), SetupFault>
        ensures answer { MatchResult result
            (λ _. rest_fault self.old ≡ None)
            (λ fault. rest_fault self.old ≡ Some fault) }
        ensures changed { OnOk result (self.new ≡ rest_to self.old color) }
        ensures unchanged { OnErr result (self.new ≡ self.old) }
    {
        if self.rest_given {
            return Err(SetupFault::AfterRest);
        }
        let hand = self.hand_with_rest(color);
        self.set_hand(color, hand);
        self.rest_given = true;
        Ok(())
    }

    /// The position with these pieces and hands and that side to move. The setup stays as it is.
    ///
    /// Refuses OpponentInCheck if the other side has a king and it is attacked, and nothing else.
    pub fn finish(&self, side: Color) -> Result<Position, SetupFault>
        ensures answer { MatchResult result
            (λ p. InCheck self.now.material.board (opponent side) → ⊥)
            (λ fault. InCheck self.now.material.board (opponent side) × (fault ≡ OpponentInCheck)) }
        ensures value { IfOk result (λ p. p ≡ position_of self.now side) }
        ensures sound { IfOk result (λ p. IsSound p) }
        ensures within { IsWithinTotals self.now.material }
    {
        if self.leaves_check(side) {
            return Err(SetupFault::OpponentInCheck);
        }
        Ok(Position::of(self.board, self.black, self.white, side))
    }

    // Whether the other side has a king and it is attacked, with that side to move.
    fn leaves_check(&self, side: Color) -> bool
        ensures value { IsTrue result ↔ InCheck self.now.material.board (opponent side) }
        ensures within { IsWithinTotals self.now.material }
    {
        self.board.checker(!side).is_some()
    }

    fn hand(&self, color: Color) -> Hand
        ensures value { result ≡ bag_of self.now.material color }
        ensures within { IsWithinTotals self.now.material }
    {
        match color {
            Color::Black => self.black,
            Color::White => self.white,
        }
    }

    fn set_hand(&mut self, color: Color, hand: Hand)
        requires { IsWithinTotals (with_bag self.old.material color hand) }
        ensures { self.new ≡ record self.old { material = with_bag self.old.material color hand } }
    {
        match color {
            Color::Black => self.black = hand,
            Color::White => self.white = hand,
        }
    }

    // How many pieces of that kind there are on the board and in the hands.
    fn total(&self, kind: Kind) -> usize
        ensures value { result ≡ total self.now.material kind }
        ensures bound { result ≤ limit kind }
    {
        self.counts[kind.place()] as usize
            + self.black.at_place_of(kind) as usize
            + self.white.at_place_of(kind) as usize
    }

    fn is_full(&self, kind: Kind) -> bool
        ensures { result ≡ is_full self.now kind }
    {
        self.total(kind) >= kind.limit()
    }

    // How many pieces of that kind the hand of that side has with the rest.
    fn count_with_rest(&self, color: Color, kind: Kind) -> u8
        ensures { result ≡ count_with_rest self.now (bag_of self.now.material color) kind }
    {
        let rest = kind.limit() - self.total(kind);
        self.hand(color).count(kind) + rest as u8
    }

    // The hand of that side with all pieces that are not placed yet.
    fn hand_with_rest(&self, color: Color) -> Hand
        ensures { result ≡ with_rest self.now (bag_of self.now.material color) }
    {
        Hand::of([
            self.count_with_rest(color, Kind::Pawn),
            self.count_with_rest(color, Kind::Lance),
            self.count_with_rest(color, Kind::Knight),
            self.count_with_rest(color, Kind::Silver),
            self.count_with_rest(color, Kind::Gold),
            self.count_with_rest(color, Kind::Bishop),
            self.count_with_rest(color, Kind::Rook),
        ])
    }
}
