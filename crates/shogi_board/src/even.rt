ghost use Rattle.std.specs.Prelude.{◌≡◌};
ghost use Rattle.shogi_board.specs.Cells.{even_cells};

use crate::cell::{Cell, Code};

macro_rules! cells {
    ($($code:ident)*) => {
        [$(Cell { code: Code::$code },)*]
    };
}

// The even board, file by file, from rank 1 to rank 9.
#[rattlefmt::skip]
const EVEN: [Cell; 81] = cells![
    WhiteLance Empty WhitePawn Empty Empty Empty BlackPawn Empty BlackLance
    WhiteKnight WhiteBishop WhitePawn Empty Empty Empty BlackPawn BlackRook BlackKnight
    WhiteSilver Empty WhitePawn Empty Empty Empty BlackPawn Empty BlackSilver
    WhiteGold Empty WhitePawn Empty Empty Empty BlackPawn Empty BlackGold
    WhiteKing Empty WhitePawn Empty Empty Empty BlackPawn Empty BlackKing
    WhiteGold Empty WhitePawn Empty Empty Empty BlackPawn Empty BlackGold
    WhiteSilver Empty WhitePawn Empty Empty Empty BlackPawn Empty BlackSilver
    WhiteKnight WhiteRook WhitePawn Empty Empty Empty BlackPawn BlackBishop BlackKnight
    WhiteLance Empty WhitePawn Empty Empty Empty BlackPawn Empty BlackLance
];

// What is on each square of the even board.
pub(crate) fn even_cells() -> [Cell; 81]
    ensures { result ≡ even_cells }
{
    EVEN
}
