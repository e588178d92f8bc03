ghost use Rattle.std.specs.Prelude.{◌≡◌, ◌≢◌, ◌<◌, ◌↔◌, IsTrue, true, false, Some, None};
ghost use Rattle.shogi_board.specs.Cells.{at, piece};
ghost use Rattle.shogi_board.specs.Danger.{ComesFrom};
ghost use Rattle.shogi_board.specs.Material.{bag_of};
ghost use Rattle.shogi_board.specs.After.{after, board_after, with_captured};
ghost use Rattle.shogi_board.specs.Pieces.{is_hand_kind, unpromoted};
ghost use Rattle.shogi_board.specs.Reach.{InCheck};
ghost use Rattle.shogi_board.specs.Setup.{one_less};
ghost use Rattle.shogi_board.specs.Squares.{place};
ghost use Rattle.shogi_board.specs.Totals.{count_in, IsWithinTotals};
ghost use Rattle.shogi_board.specs.declared.kind.Kind.TheVariants.{King};
ghost use Rattle.shogi_board.specs.declared.kind.Piece.{Piece};
ghost use Rattle.shogi_board.specs.declared.moves.Move.TheVariants.{Walk, Put};
ghost use Rattle.shogi_board.specs.declared.square.Square.{Square};

use crate::color::Color;
use crate::danger::Danger;
use crate::hand::Hand;
use crate::keys::{TURN, captured_key, cell_key, held_key, piece_key};
use crate::kind::{Kind, Piece};
use crate::position::Position;
use crate::square::Square;

impl Position {
    // Makes the walk, and passes the turn to the other side. What was on `to` goes to the mover's
    // hand, unpromoted. Returns whether the mover's king is not attacked then; if it is, the
    // position stays as it was. The danger says where that king may be attacked from.
    #[inline(always)]
    pub(crate) fn walk(&mut self, from: Square, to: Square, kind: Kind, danger: Danger) -> bool
        requires apart { place from ≢ place to }
        requires totals { IsWithinTotals (after self.old (Walk from to kind)).material }
        requires captured { (x : Piece) → at self.old.material.board to ≡ Some x
            → is_hand_kind (unpromoted x.kind) ≡ true }
        requires danger { (s : Square)
            → at (board_after self.old (Walk from to kind)) s ≡ piece self.old.side King
            → ComesFrom (board_after self.old (Walk from to kind)) self.old.side s danger }
        ensures answer { IsTrue result
            ↔ (InCheck (board_after self.old (Walk from to kind)) self.old.side → ⊥) }
        ensures value { result ≡ true → self.new ≡ after self.old (Walk from to kind) }
        ensures unchanged { result ≡ false → self.new ≡ self.old }
    {
        let side = self.side;
        let moved = Piece { color: side, kind };
        let left = self.board.cell_at(from);
        let captured = self.board.cell_at(to);
        self.board.put(from, None);
        self.board.put(to, Some(moved));
        if self.board.king_is_attacked(side, danger) {
            self.board.put(to, captured.piece());
            self.board.put(from, left.piece());
            return false;
        }
        let taken = captured.piece();
        self.key = self
            .key
            .wrapping_add(piece_key(to.place(), moved))
            .wrapping_add(captured_key(side, taken))
            .wrapping_sub(cell_key(from.place(), left))
            .wrapping_sub(cell_key(to.place(), captured))
            .wrapping_add(TURN);
        match side {
            Color::Black => add_captured(&mut self.black, taken),
            Color::White => add_captured(&mut self.white, taken),
        }
        self.side = !side;
        true
    }

    // As `walk`, for a drop.
    #[inline(always)]
    pub(crate) fn drop_piece(&mut self, to: Square, kind: Kind, danger: Danger) -> bool
        requires held { 0 < count_in (bag_of self.old.material self.old.side) kind }
        requires empty { at self.old.material.board to ≡ None }
        requires totals { IsWithinTotals (after self.old (Put to kind)).material }
        requires danger { (s : Square)
            → at (board_after self.old (Put to kind)) s ≡ piece self.old.side King
            → ComesFrom (board_after self.old (Put to kind)) self.old.side s danger }
        ensures answer { IsTrue result
            ↔ (InCheck (board_after self.old (Put to kind)) self.old.side → ⊥) }
        ensures value { result ≡ true → self.new ≡ after self.old (Put to kind) }
        ensures unchanged { result ≡ false → self.new ≡ self.old }
    {
        let side = self.side;
        let dropped = Piece { color: side, kind };
        self.board.put(to, Some(dropped));
        if self.board.king_is_attacked(side, danger) {
            self.board.put(to, None);
            return false;
        }
        self.key = self
            .key
            .wrapping_add(piece_key(to.place(), dropped))
            .wrapping_sub(held_key(side, kind.place()))
            .wrapping_add(TURN);
        match side {
            Color::Black => take_one(&mut self.black, kind),
            Color::White => take_one(&mut self.white, kind),
        }
        self.side = !side;
        true
    }
}

// Adds what was captured to the hand, unpromoted.
#[inline(always)]
fn add_captured(hand: &mut Hand, captured: Option<Piece>)
    requires kind { (x : Piece) → captured ≡ Some x → is_hand_kind (unpromoted x.kind) ≡ true }
    requires room { (x : Piece) → captured ≡ Some x → count_in hand.old (unpromoted x.kind) < 255 }
    ensures { hand.new ≡ with_captured hand.old captured }
{
    if let Some(piece) = captured {
        let kind = piece.kind.unpromoted();
        hand.set(kind, hand.count(kind) + 1);
    }
}

// Takes a piece of that kind out of the hand.
fn take_one(hand: &mut Hand, kind: Kind)
    requires held { 0 < count_in hand.old kind }
    requires kind { is_hand_kind kind ≡ true }
    ensures { hand.new ≡ one_less hand.old kind }
{
    hand.set(kind, hand.count(kind) - 1);
}
