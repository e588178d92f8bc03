ghost use Rattle.std.specs.Prelude.{◌≡◌, ◌≤◌, ◌++◌, length, replicate, OnOk};
ghost use Rattle.std.specs.List.{flat_map};
ghost use Rattle.shogi_board.specs.Cells.{even_cells};
ghost use Rattle.csa_text.specs.Codes.{cell_text};
ghost use Rattle.csa_text.specs.PairTexts.{pairs_text};
ghost use Rattle.csa_text.specs.Saying.{even, rank};
ghost use Rattle.csa_text.specs.declared.pair.Pair.TheVariants.{InHand};
ghost use Rattle.record_game.specs.Canon.{ended_line, start_items, is_from_even, is_part_of, stands_in, missing, rank_cells, rank_items, hand_pairs, hand_items};
ghost use Rattle.csa_record.specs.Starting.{gone};

use crate::laying::{square_at, square_on};
use csa_text::{Pair, cell_bytes, even_head, pair_bytes, pieces_head, rank_head};
use shogi_board::{Color, Hand, Kind, OutOfMemory, Piece, Position, Square};

// Writes `PI` with the missing pieces of the even board, or else the ranks and the hands that are
// not empty.
pub(crate) fn write_start(out: &mut Vec<u8>, start: &Position) -> Result<(), OutOfMemory>
    ensures { OnOk result
        (out.new.items ≡ out.old.items ++ flat_map ended_line (start_items start.now)) }
{
    let black = start.hand(Color::Black);
    let white = start.hand(Color::White);
    if is_from_even(start) {
        return write_even(out, start);
    }
    write_ranks(out, start)?;
    write_hand(out, Color::Black, black)?;
    write_hand(out, Color::White, white)?;
    Ok(())
}

fn is_from_even(start: &Position) -> bool
    requires { length start.now.material.board ≡ 81 }
    ensures { result ≡ is_from_even start.now }
{
    count_held(start.hand(Color::Black)) == 0
        && count_held(start.hand(Color::White)) == 0
        && is_part_of_even(start)
}

fn count_held(hand: Hand) -> u32
    ensures { result ≡ length (hand_pairs hand) }
{
    hand.count(Kind::Rook) as u32
        + hand.count(Kind::Bishop) as u32
        + hand.count(Kind::Gold) as u32
        + hand.count(Kind::Silver) as u32
        + hand.count(Kind::Knight) as u32
        + hand.count(Kind::Lance) as u32
        + hand.count(Kind::Pawn) as u32
}

// Whether each piece is where the even board has it.
fn is_part_of_even(start: &Position) -> bool
    requires { length start.now.material.board ≡ 81 }
    ensures { result ≡ is_part_of start.now.material.board even_cells }
{
    let even = Position::even();
    for n in 0..81usize {
        let square = square_at(n);
        if !stands_in(start.piece_at(square), even.piece_at(square)) {
            return false;
        }
    }
    true
}

fn stands_in(cell: Option<Piece>, other: Option<Piece>) -> bool
    ensures { result ≡ stands_in cell other }
{
    let Some(piece) = cell else {
        return true;
    };
    let Some(held) = other else {
        return false;
    };
    piece.color == held.color && piece.kind == held.kind
}

fn write_even(out: &mut Vec<u8>, start: &Position) -> Result<(), OutOfMemory>
    requires { length start.now.material.board ≡ 81 }
    ensures { OnOk result
        (out.new.items
        ≡ out.old.items ++ ended_line (even (missing 0 even_cells start.now.material.board))) }
{
    out.extend_from_slice(&even_head())?;
    write_missing(out, start)?;
    out.push(b'\n')?;
    Ok(())
}

// Writes a pair for each piece of the even board that the start lacks.
#[tactic(auto, using(crate::proofs::StartText::text_at))]
fn write_missing(out: &mut Vec<u8>, start: &Position) -> Result<(), OutOfMemory>
    requires { length start.now.material.board ≡ 81 }
    ensures { OnOk result
        (out.new.items
        ≡ out.old.items ++ pairs_text (missing 0 even_cells start.now.material.board)) }
{
    let even = Position::even();
    for n in 0..81usize {
        let square = square_at(n);
        write_gone(out, square, even.piece_at(square), start.piece_at(square))?;
    }
    Ok(())
}

fn write_gone(
    out: &mut Vec<u8>,
    square: Square,
    cell: Option<Piece>,
    other: Option<Piece>,
) -> Result<(), OutOfMemory>
    ensures { OnOk result (out.new.items ≡ out.old.items ++ pairs_text (gone square cell other)) }
{
    let Some(piece) = cell else {
        return Ok(());
    };
    if other.is_some() {
        return Ok(());
    }
    out.extend_from_slice(&pair_bytes(Pair::On(square, piece.kind)))?;
    Ok(())
}

fn write_ranks(out: &mut Vec<u8>, start: &Position) -> Result<(), OutOfMemory>
    ensures { OnOk result
        (out.new.items
        ≡ out.old.items ++ flat_map ended_line (rank_items start.now.material.board)) }
{
    for number in 1..10u8 {
        write_rank(out, start, number)?;
    }
    Ok(())
}

fn write_rank(out: &mut Vec<u8>, start: &Position, number: u8) -> Result<(), OutOfMemory>
    requires low { 1 ≤ number }
    requires high { number ≤ 9 }
    ensures { OnOk result
        (out.new.items
        ≡ out.old.items ++ ended_line (rank number (rank_cells start.now.material.board number))) }
{
    out.extend_from_slice(&rank_head(number))?;
    write_cells(out, start, number)?;
    out.push(b'\n')?;
    Ok(())
}

// The cells of a rank, from file 9 to file 1.
fn write_cells(out: &mut Vec<u8>, start: &Position, number: u8) -> Result<(), OutOfMemory>
    requires low { 1 ≤ number }
    requires high { number ≤ 9 }
    ensures { OnOk result
        (out.new.items
        ≡ out.old.items ++ flat_map cell_text (rank_cells start.now.material.board number)) }
{
    for i in 0..9usize {
        let square = square_on(9 - i as u8, number);
        out.extend_from_slice(&cell_bytes(start.piece_at(square)))?;
    }
    Ok(())
}

// An empty hand has no line.
fn write_hand(out: &mut Vec<u8>, color: Color, hand: Hand) -> Result<(), OutOfMemory>
    ensures { OnOk result
        (out.new.items ≡ out.old.items ++ flat_map ended_line (hand_items color hand)) }
{
    if count_held(hand) == 0 {
        return Ok(());
    }
    out.extend_from_slice(&pieces_head(color))?;
    write_pairs(out, hand)?;
    out.push(b'\n')?;
    Ok(())
}

// A pair for each piece of the hand, rooks first.
fn write_pairs(out: &mut Vec<u8>, hand: Hand) -> Result<(), OutOfMemory>
    ensures { OnOk result (out.new.items ≡ out.old.items ++ pairs_text (hand_pairs hand)) }
{
    write_held(out, Kind::Rook, hand.count(Kind::Rook))?;
    write_held(out, Kind::Bishop, hand.count(Kind::Bishop))?;
    write_held(out, Kind::Gold, hand.count(Kind::Gold))?;
    write_held(out, Kind::Silver, hand.count(Kind::Silver))?;
    write_held(out, Kind::Knight, hand.count(Kind::Knight))?;
    write_held(out, Kind::Lance, hand.count(Kind::Lance))?;
    write_held(out, Kind::Pawn, hand.count(Kind::Pawn))?;
    Ok(())
}

fn write_held(out: &mut Vec<u8>, kind: Kind, count: u8) -> Result<(), OutOfMemory>
    ensures { OnOk result
        (out.new.items ≡ out.old.items ++ pairs_text (replicate count (InHand kind))) }
{
    for _ in 0..count {
        out.extend_from_slice(&pair_bytes(Pair::InHand(kind)))?;
    }
    Ok(())
}
