// The Zobrist key of a position: the sum, modulo 2^64, of a number for each piece on its square, a
// number for each piece in a hand, and a number for the side to move.

ghost use Rattle.std.specs.Prelude.{◌≡◌, ◌%◌, ◌^◌, ◌<◌};
ghost use Rattle.shogi_board.specs.Keys.{mixed, color_number, kind_number, piece_key, cell_key, cells_key, held_key, counts_key, side_key};
ghost use Rattle.shogi_board.specs.KeySteps.{captured_key};

use crate::cell::Cell;
use crate::color::Color;
use crate::kind::{Kind, Piece};

// 2^64 over the golden ratio, odd.
const SPREAD: u64 = 0x9E37_79B9_7F4A_7C15;

// The key of the even position, black to move.
pub(crate) const EVEN_KEY: u64 = 0xCB95_E3C0_4D5D_1129;

// What a key changes by as the turn passes.
pub(crate) const TURN: u64 = 1 << 63;

// A number that stands for another one, far from those of its neighbours.
#[inline(always)]
fn mixed(n: u64) -> u64
    ensures { result ≡ mixed n }
{
    let spread = n.wrapping_mul(SPREAD);
    let folded = spread ^ (spread >> 32);
    let again = folded.wrapping_mul(SPREAD);
    again ^ (again >> 32)
}

#[inline(always)]
fn color_number(color: Color) -> u64
    ensures value { result ≡ color_number color }
    ensures bound { result < 2 }
{
    color as u64
}

#[inline(always)]
fn kind_number(kind: Kind) -> u64
    ensures value { result ≡ kind_number kind }
    ensures bound { result < 14 }
{
    kind as u64
}

// What the piece on the square of that place counts.
#[inline(always)]
pub(crate) fn piece_key(place: usize, piece: Piece) -> u64
    requires { place < 81 }
    ensures { result ≡ piece_key place piece }
{
    mixed((place as u64 * 2 + color_number(piece.color)) * 14 + kind_number(piece.kind) + 17)
}

// What is on the square of that place counts.
#[inline(always)]
pub(crate) fn cell_key(place: usize, cell: Cell) -> u64
    requires { place < 81 }
    ensures { result ≡ cell_key place cell }
{
    let number = cell.number();
    if number == 0 {
        return 0;
    }
    mixed(place as u64 * 28 + number + 16)
}

// What a piece in the hand of that side counts, whose kind has that place.
#[inline(always)]
pub(crate) fn held_key(color: Color, place: usize) -> u64
    requires { place < 8 }
    ensures { result ≡ held_key color place }
{
    mixed(color_number(color) * 8 + place as u64 + 1)
}

// What the hand of that side counts more by a piece that it captures.
#[inline(always)]
pub(crate) fn captured_key(color: Color, captured: Option<Piece>) -> u64
    ensures { result ≡ captured_key color captured }
{
    match captured {
        Some(piece) => held_key(color, piece.kind.place()),
        None => 0,
    }
}

// What the side to move counts.
pub(crate) fn side_key(color: Color) -> u64
    ensures { result ≡ side_key color }
{
    match color {
        Color::Black => 0,
        Color::White => TURN,
    }
}

// What the hand of that side counts.
pub(crate) fn counts_key(color: Color, counts: &[u8; 7]) -> u64
    ensures { result ≡ counts_key color counts.now % 2 ^ 64 }
{
    let mut key = 0u64;
    for n in 0..7usize {
        key = key.wrapping_add(held_key(color, n).wrapping_mul(counts[n] as u64));
    }
    key
}
