ghost use Rattle.std.specs.Prelude.{◌≡◌, ◌<◌, ◌↔◌, IsTrue};
ghost use Rattle.shogi_board.specs.Cells.{Cells, HasPawnOnFile};
ghost use Rattle.shogi_board.specs.Landmarks.{has_pawn, HasLandmarks, HasReplaced, IsKingOf, KeepsLandmarks};
ghost use Rattle.shogi_board.specs.declared.color.Color.TheVariants.{Black, White};

use crate::cell::Cell;
use crate::color::Color;
use crate::kind::Kind;
use crate::square::Square;

// Where the king of one side is, and which files, from file 1 on, have an unpromoted pawn of it.
#[derive(Clone, Copy, Debug)]
pub(crate) struct Landmarks {
    pub(crate) king: Option<Square>,
    pub(crate) pawn_files: [bool; 9],
}

// Keeps the landmarks of both sides, once the square holds another cell than it held before. Most
// moves change none, so it is not compiled into each call of `Board::put`.
#[inline(never)]
pub(crate) fn keep_landmarks(
    black: &mut Landmarks,
    white: &mut Landmarks,
    cells: &[Cell; 81],
    square: Square,
    was: Cell,
)
    ensures black { KeepsLandmarks Black square was cells.now black.old black.new }
    ensures white { KeepsLandmarks White square was cells.now white.old white.new }
{
    black.keep(Color::Black, cells, square, was);
    white.keep(Color::White, cells, square, was);
}

impl Landmarks {
    fn keep(&mut self, color: Color, cells: &[Cell; 81], square: Square, was: Cell)
        ensures { KeepsLandmarks color square was cells.now self.old self.new }
    {
        let king = self.king_after(color, cells, square, was);
        let pawn = self.pawn_after(color, cells, square, was);
        self.king = king;
        self.pawn_files[square.file() as usize - 1] = pawn;
    }

    // The square of the king, if there is one, once the square holds another cell.
    fn king_after(
        &self,
        color: Color,
        cells: &[Cell; 81],
        square: Square,
        was: Cell,
    ) -> Option<Square>
        ensures { (before : Cells) → HasReplaced before cells.now square was
            → HasLandmarks before color self.now → IsKingOf cells.now color result }
    {
        if cells[square.place()].is(color, Kind::King) {
            Some(square)
        } else if was.is(color, Kind::King) {
            None
        } else {
            self.king
        }
    }

    // Whether an unpromoted pawn is on the file of the square, once it holds another cell.
    fn pawn_after(&self, color: Color, cells: &[Cell; 81], square: Square, was: Cell) -> bool
        ensures { (before : Cells) → HasReplaced before cells.now square was
            → HasLandmarks before color self.now
            → IsTrue result ↔ HasPawnOnFile cells.now color square }
    {
        let file = square.file() as usize - 1;
        if was.is(color, Kind::Pawn) {
            has_pawn(cells, color, file)
        } else {
            self.pawn_files[file] || cells[square.place()].is(color, Kind::Pawn)
        }
    }
}

// Whether that side has an unpromoted pawn on the file, counted from 0.
fn has_pawn(cells: &[Cell; 81], color: Color, file: usize) -> bool
    requires { file < 9 }
    ensures { result ≡ has_pawn color cells.now file }
{
    let cells = &cells[..];
    cells[9 * file..9 * file + 9]
        .iter()
        .any(|cell| cell.is(color, Kind::Pawn))
}
