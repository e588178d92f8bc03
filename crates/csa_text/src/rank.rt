ghost use Rattle.std.specs.Prelude.{◌≡◌, ◌++◌, ◌⊎◌, codes, List, Option, length, MatchOption};
ghost use Rattle.std.specs.List.{flat_map};
ghost use Rattle.csa_text.specs.Codes.{cell_text};

use crate::codes::{kind_letters, read_kind, read_sign, sign_of};
use shogi_board::Piece;

// The number of cells in a rank, of bytes in a cell, and of bytes in a rank's cells.
const CELLS: usize = 9;

const CELL: usize = 3;

const RANK: usize = CELL * CELLS;

// The cells of a rank, from file 9 to file 1. If the last cell is empty, its last space may be
// missing.
pub(crate) fn read_rank(bytes: &[u8]) -> Option<[Option<Piece>; CELLS]>
    ensures { MatchOption result
        ((cells : List (Option Piece)) → length cells ≡ 9
        → (bytes.now ≡ flat_map cell_text cells)
        ⊎ (bytes.now ++ codes " " ≡ flat_map cell_text cells) → ⊥)
        (λ cells. (bytes.now ≡ flat_map cell_text cells)
        ⊎ (bytes.now ++ codes " " ≡ flat_map cell_text cells)) }
{
    if bytes.len() == RANK - 1 {
        let mut whole = [b' '; RANK];
        whole[..RANK - 1].copy_from_slice(bytes);
        return read_cells(&whole);
    }
    read_cells(bytes)
}

fn read_cells(bytes: &[u8]) -> Option<[Option<Piece>; CELLS]>
    ensures { MatchOption result
        ((cells : List (Option Piece)) → length cells ≡ 9 → bytes.now ≡ flat_map cell_text cells
        → ⊥)
        (λ cells. bytes.now ≡ flat_map cell_text cells) }
{
    if bytes.len() != RANK {
        return None;
    }
    let mut cells = [None; CELLS];
    for i in 0..CELLS {
        cells[i] = read_cell(&bytes[CELL * i..CELL * i + CELL])?;
    }
    Some(cells)
}

/// The three bytes of a cell of a rank: the sign and the kind of its piece, or a star between
/// spaces. `read_item` reads them back as that cell.
pub fn cell_bytes(cell: Option<Piece>) -> [u8; 3]
    ensures bytes { result ≡ cell_text cell }
{
    let Some(piece) = cell else {
        return *b" * ";
    };
    let [first, second] = kind_letters(piece.kind);
    [sign_of(piece.color), first, second]
}

// What the cell holds, or `None` if the bytes are not a cell.
fn read_cell(bytes: &[u8]) -> Option<Option<Piece>>
    ensures { MatchOption result
        ((cell : Option Piece) → bytes.now ≡ cell_text cell → ⊥)
        (λ cell. bytes.now ≡ cell_text cell) }
{
    match bytes {
        b" * " => Some(None),
        [sign, code @ ..] => Some(Some(Piece {
            color: read_sign(*sign)?,
            kind: read_kind(code)?,
        })),
        _ => None,
    }
}
