//! Squares, pieces, positions and moves as the tests write them.
ghost use Rattle.std.specs.Prelude.{◌≤◌, ◌/◌, ◌%◌};

use shogi_board::{Color, Kind, Position, Setup, Square};
use shogi_rules::{Line, Move, after, judge};
use std::test::Fail;

// The square of a number with two digits, such as 55.
pub(crate) fn on(number: u8) -> Square
    requires file { (1 ≤ number / 10) × (number / 10 ≤ 9) }
    requires rank { 1 ≤ number % 10 }
{
    Square::new(number / 10, number % 10).unwrap()
}

fn kind_of(first: u8, second: u8) -> Result<Kind, Fail> {
    Ok(match (first, second) {
        (b'F', b'U') => Kind::Pawn,
        (b'K', b'Y') => Kind::Lance,
        (b'K', b'E') => Kind::Knight,
        (b'G', b'I') => Kind::Silver,
        (b'K', b'I') => Kind::Gold,
        (b'K', b'A') => Kind::Bishop,
        (b'H', b'I') => Kind::Rook,
        (b'O', b'U') => Kind::King,
        (b'T', b'O') => Kind::ProPawn,
        (b'N', b'Y') => Kind::ProLance,
        (b'N', b'K') => Kind::ProKnight,
        (b'N', b'G') => Kind::ProSilver,
        (b'U', b'M') => Kind::Horse,
        (b'R', b'Y') => Kind::Dragon,
        _ => return Err(Fail::from("no kind")),
    })
}

fn color_of(sign: u8) -> Color {
    if sign == b'-' {
        Color::White
    } else {
        Color::Black
    }
}

// The square of two digits, or None for `00`, the hand.
pub(crate) fn square_of(file: u8, rank: u8) -> Option<Square> {
    Square::new(file.wrapping_sub(b'0'), rank.wrapping_sub(b'0'))
}

// Pieces such as `+59OU -00FU `, one byte apart. Square 00 is the hand, and `00AL` is all remaining
// pieces.
pub(crate) fn position(side: Color, pieces: &str) -> Result<Position, Fail> {
    let mut setup = Setup::empty();
    for word in pieces.as_bytes().chunks(6) {
        if let [sign, file, rank, a, b, ..] = word {
            let color = color_of(*sign);
            match square_of(*file, *rank) {
                Some(square) => setup.place(color, square, kind_of(*a, *b)?)?,
                None if *a == b'A' => setup.give_rest(color)?,
                None => setup.add_hand(color, kind_of(*a, *b)?)?,
            }
        }
    }
    Ok(setup.finish(side)?)
}

// A move such as `+7776FU`, with its side. A drop begins with 00.
pub(crate) fn read(word: &[u8]) -> Result<(Color, Move), Fail> {
    if let [sign, f, r, file, rank, a, b, ..] = word {
        let to = square_of(*file, *rank).ok_or("no square")?;
        let kind = kind_of(*a, *b)?;
        let mv = match square_of(*f, *r) {
            Some(from) => Move::Walk { from, to, kind },
            None => Move::Put { to, kind },
        };
        return Ok((color_of(*sign), mv));
    }
    Err(Fail::from("no move"))
}

// Plays moves such as `+7776FU -3334FU `, of eight bytes each.
pub(crate) fn play_all(line: &mut Line, moves: &str) -> Result<(), Fail> {
    for word in moves.as_bytes().chunks(8) {
        let (color, mv) = read(word)?;
        line.play(color, mv)?;
    }
    Ok(())
}

// The position after a legal move.
pub(crate) fn follow(p: &Position, text: &str) -> Result<Position, Fail> {
    let (color, mv) = read(text.as_bytes())?;
    match judge(p, color, &mv) {
        None => Ok(after(p, &mv)),
        Some(_) => Err(Fail::from("no legal move")),
    }
}
