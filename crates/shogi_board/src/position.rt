ghost use Rattle.std.specs.Prelude.{◌≡◌, ◌↔◌, IsTrue, MatchOption, Some};
ghost use Rattle.shogi_board.specs.Cells.{at, piece, HasPawnOnFile};
ghost use Rattle.shogi_board.specs.Danger.{SeenTowards};
ghost use Rattle.shogi_board.specs.Material.{bag_of};
ghost use Rattle.shogi_board.specs.Keys.{key_of};
ghost use Rattle.shogi_board.specs.KeySteps.{laid};
ghost use Rattle.shogi_board.specs.Placed.{even_start};
ghost use Rattle.shogi_board.specs.Reach.{Reach, Attack, Attacked};
ghost use Rattle.shogi_board.specs.Setup.{layout_of};
ghost use Rattle.shogi_board.specs.Sound.{IsSound};
ghost use Rattle.shogi_board.specs.declared.kind.Kind.TheVariants.{King};
ghost use Rattle.shogi_board.specs.declared.square.Square.{Square};

use crate::board::Board;
use crate::color::Color;
use crate::hand::Hand;
use crate::keys::{EVEN_KEY, side_key};
use crate::kind::Piece;
use crate::setup::Setup;
use crate::square::Square;
use std::marker::Model;

/// A sound position: the board, both hands, and the side to move.
///
/// - There are at most 18 pawns, four each of lances, knights, silvers and golds, and two each of
///   bishops and rooks. Promoted pieces and those in hands are counted.
/// - Each side has at most one king.
/// - The king of the side that is not to move is not attacked.
///
/// Pieces may be missing, kings too.
///
/// Two positions are equal if board, hands and side to move are, and positions are ordered by
/// these.
#[derive(Clone, Copy, Debug)]
#[derive_where(PartialEq, Eq, PartialOrd, Ord)]
pub struct Position {
    pub(crate) board: Board,
    pub(crate) black: Hand,
    pub(crate) white: Hand,
    pub(crate) side: Color,
    #[derive_where(skip(EqHashOrd))]
    pub(crate) key: u64,
}

impl Model for Position {
    ghost use Rattle.shogi_board.specs.Keys.{key_of};
    ghost use Rattle.shogi_board.specs.KeySteps.{IsKeyed};
    ghost use Rattle.shogi_board.specs.Placed.{Placed};

    ghost Value = { Placed };

    ghost view = { λ p. record {
      material = record { board = p.board; black = p.black; white = p.white };
      side = p.side;
    } };

    ghost invariant = { λ p. IsKeyed (record {
      material = record { board = p.board; black = p.black; white = p.white };
      side = p.side;
    }) p.key };

    ghost inverse = { λ d. record {
      board = d.material.board;
      black = d.material.black;
      white = d.material.white;
      side = d.side;
      key = key_of d;
    } };

    ghost inverse_ok = { λ p h i. record {
      board = p.board;
      black = p.black;
      white = p.white;
      side = p.side;
      key = h.key i;
    } };
}

impl Position {
    /// The even position: all pieces in their places, no piece in a hand, black to move.
    pub fn even() -> Position
        ensures value { result ≡ even_start }
    {
        Position {
            board: Board::even(),
            black: Hand::empty(),
            white: Hand::empty(),
            side: Color::Black,
            key: EVEN_KEY,
        }
    }

    // The position of that board and those hands, which is sound.
    pub(crate) fn of(board: Board, black: Hand, white: Hand, side: Color) -> Position
        requires { IsSound (laid board black white side) }
        ensures { result ≡ laid board black white side }
    {
        let hands = black
            .key(Color::Black)
            .wrapping_add(white.key(Color::White));
        Position {
            board,
            black,
            white,
            side,
            key: board.key().wrapping_add(hands).wrapping_add(side_key(side)),
        }
    }

    /// A number that equal positions share: the sum, modulo 2^64, of a number for each piece on its
    /// square, a number for each piece in a hand, and a number for the side to move.
    pub fn key(&self) -> u64
        ensures value { result ≡ key_of self.now }
    {
        self.key
    }

    /// The piece on the square, if there is one.
    pub fn piece_at(&self, square: Square) -> Option<Piece>
        ensures value { result ≡ at self.now.material.board square }
    {
        self.board.at(square)
    }

    /// The hand of that side.
    pub fn hand(&self, color: Color) -> Hand
        ensures value { result ≡ bag_of self.now.material color }
        ensures sound { IsSound self.now }
    {
        match color {
            Color::Black => self.black,
            Color::White => self.white,
        }
    }

    /// The side to move.
    pub fn side(&self) -> Color
        ensures value { result ≡ self.now.side }
        ensures sound { IsSound self.now }
    {
        self.side
    }

    /// The square of that side's king, or None if it has none.
    pub fn king(&self, color: Color) -> Option<Square>
        ensures answer { MatchOption result
            ((s : Square) → at self.now.material.board s ≡ piece color King → ⊥)
            (λ s. at self.now.material.board s ≡ piece color King) }
    {
        self.board.king(color)
    }

    /// Whether an unpromoted pawn of that side is on the file of the square.
    pub fn pawn_on_file(&self, color: Color, square: Square) -> bool
        ensures answer { IsTrue result ↔ HasPawnOnFile self.now.material.board color square }
    {
        self.board.has_pawn_on_file(color, square)
    }

    /// Its pieces and hands as a setup, the rest not given.
    pub fn setup(&self) -> Setup
        ensures value { result ≡ layout_of self.now }
        ensures sound { IsSound self.now }
    {
        Setup {
            board: self.board,
            counts: self.board.counts(),
            black: self.black,
            white: self.white,
            rest_given: false,
        }
    }
}

/// Whether the piece on `from` reaches `to`, whatever is on `to`; false if `from` is empty.
#[inline(always)]
pub fn reaches(position: &Position, from: Square, to: Square) -> bool
    ensures answer { IsTrue result ↔ Reach position.now.material.board from to }
{
    position.board.reaches(from, to)
}

// As `reaches`, for the piece that is on `from`.
#[inline(always)]
pub(crate) fn piece_reaches(position: &Position, piece: Piece, from: Square, to: Square) -> bool
    requires { at position.now.material.board from ≡ Some piece }
    ensures { IsTrue result ↔ Reach position.now.material.board from to }
{
    position.board.piece_reaches(piece, from, to)
}

/// Whether some enemy piece of `color` reaches the square.
pub fn attacked(position: &Position, color: Color, square: Square) -> bool
    ensures answer { IsTrue result ↔ Attacked position.now.material.board color square }
{
    position.board.attacked(color, square)
}

// The square of an enemy piece of `color` that reaches the square, if such a piece can only be in
// sight in the direction in which the other square lies.
#[inline(always)]
pub(crate) fn attacker_towards(
    position: &Position,
    color: Color,
    square: Square,
    other: Square,
) -> Option<Square>
    requires { (a : Square) → Attack position.now.material.board color a square
        → SeenTowards position.now.material.board square other a }
    ensures { MatchOption result
        (Attacked position.now.material.board color square → ⊥)
        (λ a. Attack position.now.material.board color a square) }
{
    position.board.attacker_towards(color, square, other)
}
