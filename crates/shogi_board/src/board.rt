ghost use Rattle.std.specs.Prelude.{◌≡◌, ◌%◌, ◌^◌, ◌≤◌, ◌<◌, ◌↔◌, ◌⊎◌, Any, Contains, IsTrue, MatchOption, None, Some, count_by, nat_lt, slice_index_or, slice_set, length};
ghost use Rattle.shogi_board.specs.Cells.{at, piece, even_cells, no_cells, HasPawnOnFile};
ghost use Rattle.shogi_board.specs.Danger.{ComesFrom, SeenTowards};
ghost use Rattle.shogi_board.specs.Attackers.{AttackInSight, IsAttackedByJump, IsAttackedInLine, KnightAcross};
ghost use Rattle.shogi_board.specs.Keys.{cells_key};
ghost use Rattle.shogi_board.specs.Landmarks.{HasLandmarks, IsKingOf};
ghost use Rattle.shogi_board.specs.Moves.{steps, turned_for, IsRay};
ghost use Rattle.shogi_board.specs.Directions.{Goes};
ghost use Rattle.shogi_board.specs.Pieces.{opponent};
ghost use Rattle.shogi_board.specs.Reach.{Reach, Attack, Attacked, Checks, InCheck, IsClear, Slides, Steps};
ghost use Rattle.shogi_board.specs.Setup.{holds};
ghost use Rattle.shogi_board.specs.Squares.{place, IsAway};
ghost use Rattle.shogi_board.specs.Totals.{board_counts, is_of, kings_of};
ghost use Rattle.shogi_board.specs.declared.kind.Kind.TheVariants.{King, Knight};
ghost use Rattle.shogi_board.specs.declared.square.Square.{Square};

use crate::cell::Cell;
use crate::color::Color;
use crate::danger::Danger;
use crate::direction::{
    BACK, BACK_LEFT, BACK_RIGHT, Direction, FORWARD, FORWARD_LEFT, FORWARD_RIGHT, LEFT, RIGHT,
    jumps,
};
use crate::even::even_cells;
use crate::keys::cell_key;
use crate::kind::{Kind, Piece};
use crate::landmarks::{Landmarks, keep_landmarks};
use crate::square::Square;
use std::marker::Model;

// What is on the squares, and beside that each side's landmarks: where its king is, and which files
// have an unpromoted pawn of it. Each side has one king at most.
#[derive(Clone, Copy, Debug)]
#[derive_where(PartialEq, Eq, PartialOrd, Ord)]
pub struct Board {
    // in the order of the squares
    cells: [Cell; 81],
    #[derive_where(skip(EqHashOrd))]
    black: Landmarks,
    #[derive_where(skip(EqHashOrd))]
    white: Landmarks,
}

impl Model for Board {
    ghost use Rattle.std.specs.Prelude.{List, Option};
    ghost use Rattle.shogi_board.specs.Landmarks.{landmarks_of, HasLandmarks};
    ghost use Rattle.shogi_board.specs.declared.color.Color.TheVariants.{Black, White};
    ghost use Rattle.shogi_board.specs.declared.kind.Piece.{Piece};

    ghost Value = { List (Option Piece) };

    ghost view = { λ b. b.cells };

    ghost invariant = { λ b.
        HasLandmarks b.cells Black b.black × HasLandmarks b.cells White b.white };

    ghost inverse = { λ d. record {
      cells = d;
      black = landmarks_of Black d;
      white = landmarks_of White d;
    } };

    ghost inverse_ok = { λ b h i. record {
      cells = b.cells;
      black = h.0.same i;
      white = h.1.same i;
    } };
}

impl Board {
    pub(crate) fn empty() -> Board
        ensures { result ≡ no_cells }
    {
        let none = Landmarks {
            king: None,
            pawn_files: [false; 9],
        };
        Board {
            cells: [Cell::of(None); 81],
            black: none,
            white: none,
        }
    }

    pub(crate) fn even() -> Board
        ensures { result ≡ even_cells }
    {
        Board {
            cells: even_cells(),
            black: Landmarks {
                king: Some(Square::at_place(44)),
                pawn_files: [true; 9],
            },
            white: Landmarks {
                king: Some(Square::at_place(36)),
                pawn_files: [true; 9],
            },
        }
    }

    // What is on the square of that place.
    #[inline(always)]
    fn cell(&self, place: usize) -> Cell
        requires { place < 81 }
        ensures value { result ≡ slice_index_or self.now place None }
        ensures whole { length self.now ≡ 81 }
    {
        self.cells[place]
    }

    // The piece on the square of that place, if there is one.
    #[inline(always)]
    fn content(&self, place: usize) -> Option<Piece>
        requires { place < 81 }
        ensures value { result ≡ slice_index_or self.now place None }
        ensures whole { length self.now ≡ 81 }
    {
        self.cell(place).piece()
    }

    #[inline(always)]
    pub(crate) fn cell_at(&self, square: Square) -> Cell
        ensures { result ≡ at self.now square }
    {
        self.cell(square.place())
    }

    // What the pieces on the board count in a key.
    pub(crate) fn key(&self) -> u64
        ensures { result ≡ cells_key self.now % 2 ^ 64 }
    {
        let mut key = 0u64;
        for n in 0..81usize {
            key = key.wrapping_add(cell_key(n, self.cell(n)));
        }
        key
    }

    pub(crate) fn at(&self, square: Square) -> Option<Piece>
        ensures { result ≡ at self.now square }
    {
        self.content(square.place())
    }

    // Puts another cell on the square.
    #[inline(always)]
    pub(crate) fn put(&mut self, square: Square, cell: Option<Piece>)
        requires { (color : Color) → kings_of (slice_set self.old (place square) cell) color ≤ 1 }
        ensures { self.new ≡ slice_set self.old (place square) cell }
    {
        let was = self.cell_at(square);
        let cell = Cell::of(cell);
        self.cells[square.place()] = cell;
        if was.is_landmark() || cell.is_landmark() {
            keep_landmarks(&mut self.black, &mut self.white, &self.cells, square, was);
        }
    }

    // How many pieces there are of each kind, by the places of the kinds.
    pub(crate) fn counts(&self) -> [u8; 8]
        ensures { result ≡ board_counts self.now }
    {
        [
            self.count(Kind::Pawn),
            self.count(Kind::Lance),
            self.count(Kind::Knight),
            self.count(Kind::Silver),
            self.count(Kind::Gold),
            self.count(Kind::Bishop),
            self.count(Kind::Rook),
            self.count(Kind::King),
        ]
    }

    // How many pieces of that kind there are, promoted ones counted with their unpromoted kind.
    fn count(&self, kind: Kind) -> u8
        ensures { result ≡ count_by (is_of kind) self.now }
    {
        self.cells
            .iter()
            .filter(|cell| is_of(cell.piece(), kind))
            .count() as u8
    }

    pub(crate) fn has_king(&self, color: Color) -> bool
        ensures { result ≡ nat_lt 0 (kings_of self.now color) }
    {
        self.king(color).is_some()
    }

    pub(crate) fn holds(&self, square: Square, kind: Kind) -> bool
        ensures { result ≡ holds kind (at self.now square) }
    {
        match self.at(square) {
            Some(piece) => piece.kind == kind,
            None => false,
        }
    }

    // The square of the king of that side, if it has one. It has at most one.
    #[inline(always)]
    pub(crate) fn king(&self, color: Color) -> Option<Square>
        ensures king { IsKingOf self.now color result }
        ensures one { kings_of self.now color ≤ 1 }
        ensures whole { length self.now ≡ 81 }
    {
        self.landmarks(color).king
    }

    #[inline(always)]
    fn landmarks(&self, color: Color) -> Landmarks
        ensures { HasLandmarks self.now color result }
    {
        match color {
            Color::Black => self.black,
            Color::White => self.white,
        }
    }

    // Whether an unpromoted pawn of that side is on the file of the square.
    pub(crate) fn has_pawn_on_file(&self, color: Color, square: Square) -> bool
        ensures { IsTrue result ↔ HasPawnOnFile self.now color square }
    {
        self.landmarks(color).pawn_files[square.file() as usize - 1]
    }

    #[inline(always)]
    pub(crate) fn reaches(&self, from: Square, to: Square) -> bool
        ensures { IsTrue result ↔ Reach self.now from to }
    {
        match self.at(from) {
            Some(piece) => self.piece_reaches(piece, from, to),
            None => false,
        }
    }

    // As `reaches`, for the piece that is on the one square.
    #[inline(always)]
    pub(crate) fn piece_reaches(&self, piece: Piece, from: Square, to: Square) -> bool
        requires { at self.now from ≡ Some piece }
        ensures { IsTrue result ↔ Reach self.now from to }
    {
        self.leads(piece, from, to)
    }

    // Whether a step or a ray of the piece leads from one square to the other, by a ray with
    // nothing between.
    #[inline(always)]
    fn leads(&self, piece: Piece, from: Square, to: Square) -> bool
        ensures { IsTrue result ↔ (Steps piece from to ⊎ Slides self.now piece from to) }
    {
        if piece.kind == Kind::Knight {
            return jumps_to(piece.color, from, to);
        }
        let Some(found) = from.towards(to) else {
            return false;
        };
        let turned = found.direction.turned_for(piece.color);
        piece.kind.goes(turned, found.distance)
            && self.is_clear(from, found.direction, found.distance)
    }

    // Whether the squares in that direction are empty up to that distance.
    fn is_clear(&self, from: Square, direction: Direction, distance: u8) -> bool
        requires ray { IsRay direction }
        requires there { (s : Square) × IsAway from direction distance s }
        ensures { IsTrue result ↔ IsClear self.now from direction distance }
    {
        let stride = direction.stride();
        let mut place = from.place();
        for _n in 1..distance {
            place = place + stride - 20;
            if self.content(place).is_some() {
                return false;
            }
        }
        true
    }

    pub(crate) fn attacked(&self, color: Color, square: Square) -> bool
        ensures { IsTrue result ↔ Attacked self.now color square }
    {
        self.attacker(color, square).is_some()
    }

    // Whether an enemy piece of that colour reaches the square, if it is known where such a piece
    // may be.
    #[inline(always)]
    pub(crate) fn attacked_from(&self, color: Color, square: Square, danger: Danger) -> bool
        requires { ComesFrom self.now color square danger }
        ensures { IsTrue result ↔ Attacked self.now color square }
    {
        match danger {
            Danger::Anywhere => self.attacked(color, square),
            Danger::Towards(other) => self.attacker_towards(color, square, other).is_some(),
            Danger::Nowhere => false,
        }
    }

    // The square of such a piece, if it is in sight in the direction of the other square.
    #[inline(always)]
    pub(crate) fn attacker_towards(
        &self,
        color: Color,
        square: Square,
        other: Square,
    ) -> Option<Square>
        requires { (a : Square) → Attack self.now color a square
            → SeenTowards self.now square other a }
        ensures { MatchOption result
            (Attacked self.now color square → ⊥)
            (λ a. Attack self.now color a square) }
    {
        match square.towards(other) {
            Some(found) => self.attacker_from(color, square, found.direction),
            None => None,
        }
    }

    // The square of an enemy piece of that colour that reaches the square.
    pub(crate) fn attacker(&self, color: Color, square: Square) -> Option<Square>
        ensures { MatchOption result
            (Attacked self.now color square → ⊥)
            (λ a. Attack self.now color a square) }
    {
        match self.attacker_by_jump(color, square) {
            Some(from) => Some(from),
            None => self.attacker_in_line(color, square),
        }
    }

    // A piece that attacks the square and is seen from it in one of the eight directions, if there
    // is one. A scan takes half as much in a direction that is known when it is compiled.
    fn attacker_in_line(&self, color: Color, square: Square) -> Option<Square>
        ensures { MatchOption result
            (IsAttackedInLine self.now color square → ⊥)
            (λ a. Attack self.now color a square) }
    {
        self.attacker_from(color, square, FORWARD)
            .or_else(|| self.attacker_from(color, square, BACK))
            .or_else(|| self.attacker_from(color, square, LEFT))
            .or_else(|| self.attacker_from(color, square, RIGHT))
            .or_else(|| self.attacker_from(color, square, FORWARD_LEFT))
            .or_else(|| self.attacker_from(color, square, FORWARD_RIGHT))
            .or_else(|| self.attacker_from(color, square, BACK_LEFT))
            .or_else(|| self.attacker_from(color, square, BACK_RIGHT))
    }

    // A knight that attacks the square, if there is one.
    fn attacker_by_jump(&self, color: Color, square: Square) -> Option<Square>
        ensures { MatchOption result
            (IsAttackedByJump self.now color square → ⊥)
            (λ a. Attack self.now color a square) }
    {
        for direction in jumps() {
            if let Some(from) = self.attacker_across(color, square, direction) {
                return Some(from);
            }
        }
        None
    }

    // The square of the first piece in that direction, if it is an enemy of that colour that
    // reaches the square.
    #[inline(always)]
    fn attacker_from(&self, color: Color, square: Square, direction: Direction) -> Option<Square>
        requires { IsRay direction }
        ensures { MatchOption result
            (AttackInSight self.now color square direction → ⊥)
            (λ a. Attack self.now color a square) }
    {
        let stride = direction.stride();
        let mut place = square.place();
        for n in 1..square.room(direction) + 1 {
            place = place + stride - 20;
            if let Some(piece) = self.content(place) {
                return if is_attacker(piece, color, direction, n) {
                    Some(square_at(place))
                } else {
                    None
                };
            }
        }
        None
    }

    // The square a knight's jump of that direction away, if a knight is there that is an enemy of
    // that colour. It jumps back.
    #[inline(always)]
    fn attacker_across(&self, color: Color, square: Square, direction: Direction) -> Option<Square>
        requires { Contains (steps Knight) direction }
        ensures { MatchOption result
            (KnightAcross self.now color square direction → ⊥)
            (λ a. Attack self.now color a square) }
    {
        let from = square.away(direction.turned_for(color), 1)?;
        if self.cell_at(from).is(!color, Kind::Knight) {
            Some(from)
        } else {
            None
        }
    }

    // The square of an enemy piece that attacks the king of that side.
    pub(crate) fn checker(&self, color: Color) -> Option<Square>
        ensures { MatchOption result (InCheck self.now color → ⊥) (Checks self.now color) }
    {
        match self.king(color) {
            Some(king) => self.attacker(color, king),
            None => None,
        }
    }

    // Whether that side has a king and it is attacked, if it is known where from.
    #[inline(always)]
    pub(crate) fn king_is_attacked(&self, color: Color, danger: Danger) -> bool
        requires { (s : Square) → at self.now s ≡ piece color King
            → ComesFrom self.now color s danger }
        ensures { IsTrue result ↔ InCheck self.now color }
    {
        match self.king(color) {
            Some(king) => self.attacked_from(color, king, danger),
            None => false,
        }
    }
}

// As `Square::at_place`. If it were compiled into a scan, each step would count files and ranks.
#[inline(never)]
fn square_at(n: usize) -> Square
    requires { n < 81 }
    ensures { place result ≡ n }
{
    Square::at_place(n)
}

// Whether a knight of that colour jumps from one square to the other.
fn jumps_to(color: Color, from: Square, to: Square) -> bool
    ensures { IsTrue result ↔ Any (λ d. IsAway from (turned_for color d) 1 to) (steps Knight) }
{
    jumps()
        .iter()
        .any(|d| from.is_away(d.turned_for(color), 1, to))
}

// Whether the piece, seen so far away in that direction, is an enemy of that colour that reaches
// back. Its own way leads the other way round, which its side sees as the attacked side sees this
// one.
#[inline(always)]
fn is_attacker(piece: Piece, color: Color, direction: Direction, distance: u8) -> bool
    requires { IsRay direction }
    ensures { IsTrue result ↔ ((piece.color ≡ opponent color)
        × Goes piece.kind (turned_for color direction) distance) }
{
    piece.color == !color && piece.kind.goes(direction.turned_for(color), distance)
}

fn is_of(cell: Option<Piece>, kind: Kind) -> bool
    ensures { result ≡ is_of kind cell }
{
    match cell {
        Some(piece) => piece.kind.place() == kind.place(),
        None => false,
    }
}
