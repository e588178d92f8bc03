ghost use Rattle.std.specs.Prelude.{◌≡◌, ◌≤◌, ◌<◌, ◌+◌, ◌++◌, ◌∷◌, ℕ, List, Option, IfSome, MatchBool, MatchOption, length, replicate};
ghost use Rattle.arrayvec.specs.ArrayVec.{array_vec_len};
ghost use Rattle.shogi_board.specs.declared.kind.Piece.{Piece};
ghost use Rattle.usi_text.specs.Boards.{Part, SpellsBoard, SpellsCells, IsPart, part_text, part_cells, ranks_of};
ghost use Rattle.usi_text.specs.Scanning.{ranks_after};

use crate::letters::{piece_of_letter, promoted_of_letter};
use arrayvec::ArrayVec;
use shogi_board::Piece;

// The cells of a board in the order of its text: rank by rank, each from file 9 to file 1.
pub(crate) type Cells = ArrayVec<Option<Piece>, 81>;

// The cells that the text spells.
pub(crate) fn read_board(text: &[u8]) -> Option<Cells>
    ensures size { IfSome result (λ cells. length cells.items ≡ 81) }
    ensures cells { MatchOption result
        ((cells : List (Option Piece)) → SpellsBoard text.now cells → ⊥)
        (λ cells. SpellsBoard text.now cells.items) }
{
    let mut cells = ArrayVec::new();
    let mut rest = Some(text);
    for _ in 0..9u8 {
        let (rank, following) = take_rank(rest?);
        if !read_rank(&mut cells, rank) {
            return None;
        }
        rest = following;
    }
    match rest {
        Some(_) => None,
        None => Some(cells),
    }
}

// The text before the first slash, or all of it, and what follows the slash, if there is one.
fn take_rank(text: &[u8]) -> (&[u8], Option<&[u8]>)
    ensures { ranks_of text.now ≡ result.0.now ∷ ranks_after result.1 }
{
    for (i, b) in text.iter().enumerate() {
        if *b == b'/' {
            return (&text[..i], Some(&text[i + 1..]));
        }
    }
    (text, None)
}

// Adds the nine cells that the text spells. Returns false if it does not spell nine.
fn read_rank(cells: &mut Cells, text: &[u8]) -> bool
    requires room { array_vec_len cells.old + 9 ≤ 81 }
    ensures { MatchBool result
        ((rank : List (Option Piece)) × SpellsCells text.now rank × (length rank ≡ 9)
        × (cells.new.items ≡ cells.old.items ++ rank))
        ((rank : List (Option Piece)) → SpellsCells text.now rank → length rank ≡ 9 → ⊥) }
{
    let end = cells.len() + 9;
    let mut rest = text;
    while !rest.is_empty() {
        let Some((cell, squares, following)) = read_part(rest) else {
            return false;
        };
        if end - cells.len() < squares as usize {
            return false;
        }
        push_squares(cells, cell, squares);
        rest = following;
    }
    cells.len() == end
}

// The part at the front of the text: what is on each of its squares, how many squares they are, and
// what follows it.
fn read_part(text: &[u8]) -> Option<(Option<Piece>, u8, &[u8])>
    ensures shorter { IfSome result (λ r. length r.2.now < length text.now) }
    ensures part { MatchOption result
        ((part : Part) (following : List ℕ)
        → IsPart part → text.now ≡ part_text part ++ following → ⊥)
        (λ r. (part : Part) × IsPart part × (part_cells part ≡ replicate r.1 r.0)
        × (text.now ≡ part_text part ++ r.2.now)) }
{
    match text {
        [digit @ b'1'..=b'9', following @ ..] => Some((None, *digit - b'0', following)),
        [b'+', letter, following @ ..] => Some((Some(promoted_of_letter(*letter)?), 1, following)),
        [letter, following @ ..] => Some((Some(piece_of_letter(*letter)?), 1, following)),
        [] => None,
    }
}

// Adds so many cells, all alike.
fn push_squares(cells: &mut Cells, cell: Option<Piece>, squares: u8)
    requires room { array_vec_len cells.old + squares ≤ 81 }
    ensures { cells.new.items ≡ cells.old.items ++ replicate squares cell }
{
    for _ in 0..squares {
        cells.push(cell);
    }
}
