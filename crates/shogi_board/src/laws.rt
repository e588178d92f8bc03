//! What a player knows of the definitions that the other contracts cite.
//!
//! A law is a function that does nothing: its contract is the law.

ghost use Rattle.std.specs.Prelude.{◌≡◌, ◌<◌, ◌≤◌, ◌↔◌, ◌⊎◌, ◌++◌, ◌∷◌, [], true, length};
ghost use Rattle.std.specs.Cmp.{IsTotalOrder};
ghost use Rattle.std.specs.Cmp.Lexicographic.{slice_cmp};
ghost use Rattle.std.specs.List.Sorted.{IsStrictlySortedBy};
ghost use Rattle.std.specs.Option.{option_cmp};
ghost use Rattle.std.specs.Ordering.{ordering_then, nat_cmp};
ghost use Rattle.std.specs.declared.cmp.Ordering.TheVariants.{Equal, Less};
ghost use Rattle.shogi_board.specs.Cells.{Cells, at, piece, even_cells};
ghost use Rattle.shogi_board.specs.Layout.{Layout};
ghost use Rattle.shogi_board.specs.Neighbours.{IsAmong, gold_squares, beside, with_cell};
ghost use Rattle.shogi_board.specs.Placed.{Placed, even_start};
ghost use Rattle.shogi_board.specs.Reach.{Reach, InCheck};
ghost use Rattle.shogi_board.specs.Rules.{all_rules};
ghost use Rattle.shogi_board.specs.Same.{same_position};
ghost use Rattle.shogi_board.specs.Setup.{board_alone, position_of};
ghost use Rattle.shogi_board.specs.Sound.{IsSound};
ghost use Rattle.shogi_board.specs.Squares.{rank_of, place};
ghost use Rattle.shogi_board.specs.Totals.{hand_kinds, total, limit};
ghost use Rattle.shogi_board.specs.Turned.{turned, IsTurned};
ghost use Rattle.shogi_board.specs.declared.color.Color.{Color};
ghost use Rattle.shogi_board.specs.declared.color.Color.TheVariants.{Black, White};
ghost use Rattle.shogi_board.specs.declared.kind.Piece.{Piece};
ghost use Rattle.shogi_board.specs.declared.kind.Kind.{Kind};
ghost use Rattle.shogi_board.specs.declared.kind.Kind.TheVariants.{Gold, Bishop, Knight, King, ProPawn, ProLance, ProKnight, ProSilver, Horse, Dragon};
ghost use Rattle.shogi_board.specs.declared.square.Square.{Square};

use crate::color::Color;
use crate::kind::{Kind, Piece};
use crate::position::Position;
use crate::rule::Rule;
use crate::setup::Setup;
use crate::square::Square;

/// Reaching is symmetric: with the board turned round and the sides exchanged, the same pieces
/// reach the same squares.
pub fn reach_turned()
    ensures same { (cells : Cells) (a b c d : Square) → length cells ≡ 81 → IsTurned a c
        → IsTurned b d → Reach cells a b ↔ Reach (turned cells) c d }
{}

/// A gold of black reaches its six squares and no other.
pub fn gold_reaches_six()
    ensures six { (cells : Cells) (a b : Square) → at cells a ≡ piece Black Gold → Reach cells a b
        ↔ IsAmong (gold_squares a) b }
{}

/// A horse reaches what a bishop in its place reaches, and the four squares beside it.
pub fn horse_reaches()
    ensures reach { (cells : Cells) (color : Color) (a b : Square) → length cells ≡ 81
        → Reach (with_cell cells a (piece color Horse)) a b
        ↔ (Reach (with_cell cells a (piece color Bishop)) a b ⊎ IsAmong (beside a) b) }
{}

/// A knight of black on one of the two ranks farthest from black reaches nothing, whatever else is
/// on the board.
pub fn knight_without_move()
    ensures none { (cells : Cells) (a b : Square) → at cells a ≡ piece Black Knight → rank_of a ≤ 2
        → Reach cells a b → ⊥ }
{}

/// The even position is sound, no king in it is attacked, and finishing the even setup gives it.
pub fn even_is_sound()
    ensures sound { IsSound even_start }
    ensures safe { (color : Color) → InCheck even_cells color → ⊥ }
    ensures set_up { position_of (board_alone even_cells) Black ≡ even_start }
{}

/// The even position has as many pieces of each kind as a game may have, promoted ones counted with
/// their unpromoted kind.
pub fn even_is_full()
    ensures full { (kind : Kind) → total even_start.material kind ≡ limit kind }
{}

/// The even board turned round is the same board.
pub fn even_turned()
    ensures same { turned even_cells ≡ even_cells }
{}

/// Two positions are equal exactly if they are the same: each square holds the same, both hands are
/// the same, and the same side is to move.
pub fn equal_positions()
    ensures same { (p q : Placed) → ⟦<Position as PartialEq>⟧.eq p q ≡ same_position p q }
    ensures exact { (p q : Placed) → (⟦<Position as PartialEq>⟧.eq p q ≡ true) ↔ (p ≡ q) }
{}

/// Two setups are equal exactly if boards and hands are, and the rest was given in both or in
/// neither.
pub fn equal_setups()
    ensures exact { (s t : Layout) → (⟦<Setup as PartialEq>⟧.eq s t ≡ true) ↔ (s ≡ t) }
{}

/// Positions are in a total order, in which only equal ones compare as equal: by the board, then by
/// black's hand, then by white's, then by the side to move.
pub fn ordered_positions()
    ensures total { IsTotalOrder ⟦<Position as Ord>⟧.cmp }
    ensures exact { (p q : Placed) → (⟦<Position as Ord>⟧.cmp p q ≡ Equal) ↔ (p ≡ q) }
    ensures by_parts { (p q : Placed) → ⟦<Position as Ord>⟧.cmp p q
        ≡ ordering_then
        (slice_cmp (option_cmp ⟦<Piece as Ord>⟧.cmp) p.material.board q.material.board)
        (ordering_then (slice_cmp nat_cmp p.material.black q.material.black)
        (ordering_then (slice_cmp nat_cmp p.material.white q.material.white)
        (⟦<Color as Ord>⟧.cmp p.side q.side))) }
{}

/// Pieces are in a total order: by their sides, black's first, and then by their kinds, in the
/// order of `Kind`.
pub fn ordered_pieces()
    ensures total { IsTotalOrder ⟦<Piece as Ord>⟧.cmp }
    ensures by_parts { (p q : Piece) → ⟦<Piece as Ord>⟧.cmp p q
        ≡ ordering_then (⟦<Color as Ord>⟧.cmp p.color q.color) (⟦<Kind as Ord>⟧.cmp p.kind q.kind) }
    ensures sides { ⟦<Color as Ord>⟧.cmp Black White ≡ Less }
    ensures kinds { IsStrictlySortedBy ⟦<Kind as Ord>⟧.cmp
        (hand_kinds
        ++ King ∷ ProPawn ∷ ProLance ∷ ProKnight ∷ ProSilver ∷ Horse ∷ Dragon ∷ []) }
{}

/// Squares are in a total order, that of their files and then of their ranks.
pub fn ordered_squares()
    ensures total { IsTotalOrder ⟦<Square as Ord>⟧.cmp }
    ensures by_place { (s t : Square) → (⟦<Square as Ord>⟧.cmp s t ≡ Less) ↔ (place s < place t) }
{}

/// Rules are in the order in which the first broken one is named.
pub fn ordered_rules()
    ensures named { IsStrictlySortedBy ⟦<Rule as Ord>⟧.cmp all_rules }
{}
