ghost use Rattle.std.specs.Prelude.{◌≡◌, ◌≤◌, ◌++◌, [], ◌∷◌, IfOk, OnOk};
ghost use Rattle.std.specs.List.{flat_map};
ghost use Rattle.shogi_board.specs.Sound.{IsSound};
ghost use Rattle.usi_text.specs.Hands.{pile_text};
ghost use Rattle.usi_text.specs.Letters.{piece_text};
ghost use Rattle.usi_text.specs.Sfen.{Sfen, side_text};
ghost use Rattle.usi_text.specs.SfenText.{sfen_text, board_text, rank_text, pile_of, piles_of, hand_piles, both_piles, hands_text, cell};
ghost use Rattle.usi_text.specs.Words.{words};
ghost use Rattle.usi_text.specs.Scanning.{run_text};

use crate::letters::{is_promoted, side_letter};
use itoa::Buffer;
use shogi_board::{Color, Hand, Kind, OutOfMemory, Piece, Position, Square};
use std::alloc::Global;

/// Writes the SFEN of a position. `read_sfen` reads it back as this position.
///
/// A run of empty squares is one digit. The hands are in the order rook, bishop, gold, silver,
/// knight, lance, pawn, black's first, with a count before the letter from 2 on. The move number is
/// 1. Returns `OutOfMemory` if an allocation fails.
pub fn write_sfen(alloc: Global, position: &Position) -> Result<Vec<u8>, OutOfMemory>
    ensures text { IfOk result (λ text. text.items ≡ sfen_text position.now) }
    ensures again { IfOk result (λ text. Sfen (words text.items) position.now) }
{
    let mut text = Vec::new(alloc);
    push_sfen(&mut text, position)?;
    Ok(text)
}

pub(crate) fn push_sfen(text: &mut Vec<u8>, position: &Position) -> Result<(), OutOfMemory>
    ensures text { OnOk result (text.new.items ≡ text.old.items ++ sfen_text position.now) }
    ensures sound { OnOk result (IsSound position.now) }
{
    push_board(text, position)?;
    text.push(b' ')?;
    text.push(side_byte(position.side()))?;
    text.push(b' ')?;
    push_hands(text, position)?;
    text.extend_from_slice(b" 1")?;
    Ok(())
}

fn side_byte(side: Color) -> u8
    ensures { result ∷ [] ≡ side_text side }
{
    match side {
        Color::Black => b'b',
        Color::White => b'w',
    }
}

fn push_board(text: &mut Vec<u8>, position: &Position) -> Result<(), OutOfMemory>
    ensures { OnOk result
        (text.new.items ≡ text.old.items ++ board_text position.now.material.board) }
{
    push_rank(text, position, 1)?;
    for rank in 2..10u8 {
        text.push(b'/')?;
        push_rank(text, position, rank)?;
    }
    Ok(())
}

// A rank, from file 9 to file 1.
fn push_rank(text: &mut Vec<u8>, position: &Position, rank: u8) -> Result<(), OutOfMemory>
    requires { (1 ≤ rank) × (rank ≤ 9) }
    ensures { OnOk result
        (text.new.items ≡ text.old.items ++ rank_text position.now.material.board rank) }
{
    let mut empty = 0;
    for right in 0..9u8 {
        match cell(position, 9 - right, rank) {
            None => empty += 1,
            Some(piece) => {
                push_run(text, empty)?;
                push_piece(text, piece)?;
                empty = 0;
            }
        }
    }
    push_run(text, empty)
}

// What is on a file and rank.
fn cell(position: &Position, file: u8, rank: u8) -> Option<Piece>
    requires { (1 ≤ file) × (file ≤ 9) × (1 ≤ rank) × (rank ≤ 9) }
    ensures { result ≡ cell position.now.material.board file rank }
{
    position.piece_at(Square::new(file, rank).unwrap())
}

// So many empty squares.
fn push_run(text: &mut Vec<u8>, empty: u8) -> Result<(), OutOfMemory>
    requires { empty ≤ 9 }
    ensures { OnOk result (text.new.items ≡ text.old.items ++ run_text empty) }
{
    if empty > 0 {
        text.push(b'0' + empty)?;
    }
    Ok(())
}

fn push_piece(text: &mut Vec<u8>, piece: Piece) -> Result<(), OutOfMemory>
    ensures { OnOk result (text.new.items ≡ text.old.items ++ piece_text piece) }
{
    if is_promoted(piece.kind) {
        text.push(b'+')?;
    }
    text.push(side_letter(piece))?;
    Ok(())
}

// Both hands, or a dash if they are empty.
fn push_hands(text: &mut Vec<u8>, position: &Position) -> Result<(), OutOfMemory>
    ensures { OnOk result
        (text.new.items ≡ text.old.items ++ hands_text (both_piles position.now)) }
{
    let before = text.len();
    push_hand(text, Color::Black, position.hand(Color::Black))?;
    push_hand(text, Color::White, position.hand(Color::White))?;
    if text.len() == before {
        text.push(b'-')?;
    }
    Ok(())
}

fn push_hand(text: &mut Vec<u8>, color: Color, hand: Hand) -> Result<(), OutOfMemory>
    ensures { OnOk result
        (text.new.items ≡ text.old.items ++ flat_map pile_text (hand_piles color hand)) }
{
    push_kind(text, color, hand, Kind::Rook)?;
    push_kind(text, color, hand, Kind::Bishop)?;
    push_kind(text, color, hand, Kind::Gold)?;
    push_kind(text, color, hand, Kind::Silver)?;
    push_kind(text, color, hand, Kind::Knight)?;
    push_kind(text, color, hand, Kind::Lance)?;
    push_kind(text, color, hand, Kind::Pawn)?;
    Ok(())
}

// A hand's pieces of one kind.
fn push_kind(text: &mut Vec<u8>, color: Color, hand: Hand, kind: Kind) -> Result<(), OutOfMemory>
    ensures { OnOk result
        (text.new.items ≡ text.old.items ++ flat_map pile_text (piles_of color hand kind)) }
{
    push_pile(text, Piece { color, kind }, hand.count(kind))
}

// So many pieces of a hand: nothing for none, and no count for one.
fn push_pile(text: &mut Vec<u8>, piece: Piece, count: u8) -> Result<(), OutOfMemory>
    ensures { OnOk result
        (text.new.items ≡ text.old.items ++ flat_map pile_text (pile_of piece count)) }
{
    if count == 0 {
        return Ok(());
    }
    if count > 1 {
        let mut buffer = Buffer::new();
        text.extend_from_slice(buffer.format(count).as_bytes())?;
    }
    text.push(side_letter(piece))?;
    Ok(())
}
