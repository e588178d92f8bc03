ghost use Rattle.std.specs.Prelude.{◌≡◌, ◌<◌, ◌++◌, List, Ok, Err, MatchResult, length, map, replicate};
ghost use Rattle.shogi_board.specs.declared.kind.Piece.{Piece};
ghost use Rattle.shogi_board.specs.Placing.{Placing, place_all};
ghost use Rattle.shogi_board.specs.Setup.{empty_layout};
ghost use Rattle.shogi_board.specs.Squares.{place};
ghost use Rattle.usi_text.specs.Hands.{Pile, SpellsHands};
ghost use Rattle.usi_text.specs.Setting.{board_place, cell_placings, hand_placing, hand_placings, set_up, Finishes};

use crate::hands::{is_dash, read_pile};
use shogi_board::{Color, Piece, Position, Setup, SetupFault, Square};

// The position with the pieces of these cells, in the order of a board's text, and of the hands
// that the text spells.
pub(crate) fn set_up_position(
    cells: &[Option<Piece>],
    hands: &[u8],
    side: Color,
) -> Result<Position, SetupFault>
    requires board { length cells.now ≡ 81 }
    ensures { (piles : List Pile) → SpellsHands hands.now piles
        → Finishes (set_up cells.now piles) side result }
{
    let mut setup = board_setup(cells)?;
    add_hands(&mut setup, hands)?;
    setup.finish(side)
}

// The setup with the pieces of these cells.
fn board_setup(cells: &[Option<Piece>]) -> Result<Setup, SetupFault>
    requires board { length cells.now ≡ 81 }
    ensures { (others : List Placing) → MatchResult result
        (λ setup. place_all empty_layout (cell_placings 0 cells.now ++ others)
        ≡ place_all setup others)
        (λ fault. place_all empty_layout (cell_placings 0 cells.now ++ others) ≡ Err fault) }
{
    let mut setup = Setup::empty();
    for (n, cell) in cells.iter().enumerate() {
        if let Some(piece) = cell {
            setup.place(piece.color, board_square(n), piece.kind)?;
        }
    }
    Ok(setup)
}

// The nth square of a board's text, counted from 0.
fn board_square(n: usize) -> Square
    requires { n < 81 }
    ensures { place result ≡ board_place n }
{
    Square::new(9 - (n % 9) as u8, (n / 9) as u8 + 1).unwrap()
}

// Adds the pieces of the hands that the text spells.
fn add_hands(setup: &mut Setup, text: &[u8]) -> Result<(), SetupFault>
    ensures { (piles : List Pile) → SpellsHands text.now piles → MatchResult result
        (λ _. place_all setup.old (hand_placings piles) ≡ Ok setup.new)
        (λ fault. place_all setup.old (hand_placings piles) ≡ Err fault) }
{
    if is_dash(text) {
        return Ok(());
    }
    let mut rest = text;
    while let Some((piece, count, following)) = read_pile(rest) {
        add_pieces(setup, piece, count)?;
        rest = following;
    }
    Ok(())
}

// Adds so many of the piece to the hand of its side.
fn add_pieces(setup: &mut Setup, piece: Piece, count: u8) -> Result<(), SetupFault>
    ensures { (others : List Piece) → MatchResult result
        (λ _. place_all setup.old (map hand_placing (replicate count piece ++ others))
        ≡ place_all setup.new (map hand_placing others))
        (λ fault. place_all setup.old (map hand_placing (replicate count piece ++ others))
        ≡ Err fault) }
{
    for _ in 0..count {
        setup.add_hand(piece.color, piece.kind)?;
    }
    Ok(())
}
