ghost use Rattle.std.specs.Prelude.{◌≡◌, ◌<◌, [], ◌∷◌, true, false, MatchOption};
ghost use Rattle.shogi_board.specs.Pieces.{is_hand_kind, is_promoted};
ghost use Rattle.shogi_board.specs.declared.kind.Kind.{Kind};
ghost use Rattle.shogi_board.specs.declared.kind.Piece.{Piece};
ghost use Rattle.shogi_board.specs.declared.square.Square.{Square};
ghost use Rattle.usi_text.specs.Letters.{square_text, letter, side_letter};

use shogi_board::{Color, Kind, Piece, Square};

// The square that two bytes spell.
pub(crate) fn read_square(file: u8, rank: u8) -> Option<Square>
    ensures { MatchOption result
        ((s : Square) → square_text s ≡ file ∷ rank ∷ [] → ⊥)
        (λ s. square_text s ≡ file ∷ rank ∷ []) }
{
    Square::new(file.checked_sub(b'0')?, rank.checked_sub(b'a' - 1)?)
}

// The capital letter of a kind. A promoted kind has the letter of its unpromoted kind.
pub(crate) fn letter(kind: Kind) -> u8
    ensures value { result ≡ letter kind }
    ensures bound { result < 96 }
{
    match kind {
        Kind::Pawn | Kind::ProPawn => b'P',
        Kind::Lance | Kind::ProLance => b'L',
        Kind::Knight | Kind::ProKnight => b'N',
        Kind::Silver | Kind::ProSilver => b'S',
        Kind::Gold => b'G',
        Kind::Bishop | Kind::Horse => b'B',
        Kind::Rook | Kind::Dragon => b'R',
        Kind::King => b'K',
    }
}

// The letter of a piece: a capital for black, a small letter for white.
pub(crate) fn side_letter(piece: Piece) -> u8
    ensures { result ≡ side_letter piece }
{
    match piece.color {
        Color::Black => letter(piece.kind),
        Color::White => letter(piece.kind) + 32,
    }
}

// Whether it is one of the six promoted kinds.
pub(crate) fn is_promoted(kind: Kind) -> bool
    ensures { result ≡ is_promoted kind }
{
    matches!(
        kind,
        Kind::ProPawn
            | Kind::ProLance
            | Kind::ProKnight
            | Kind::ProSilver
            | Kind::Horse
            | Kind::Dragon
    )
}

// The unpromoted kind with this capital letter.
fn kind_of_letter(byte: u8) -> Option<Kind>
    ensures { MatchOption result
        ((kind : Kind) → is_promoted kind ≡ false → letter kind ≡ byte → ⊥)
        (λ kind. (is_promoted kind ≡ false) × (letter kind ≡ byte)) }
{
    match byte {
        b'P' => Some(Kind::Pawn),
        b'L' => Some(Kind::Lance),
        b'N' => Some(Kind::Knight),
        b'S' => Some(Kind::Silver),
        b'G' => Some(Kind::Gold),
        b'B' => Some(Kind::Bishop),
        b'R' => Some(Kind::Rook),
        b'K' => Some(Kind::King),
        _ => None,
    }
}

// The kind with this capital letter that a hand may hold.
pub(crate) fn held_kind(byte: u8) -> Option<Kind>
    ensures { MatchOption result
        ((kind : Kind) → is_hand_kind kind ≡ true → letter kind ≡ byte → ⊥)
        (λ kind. (is_hand_kind kind ≡ true) × (letter kind ≡ byte)) }
{
    let kind = kind_of_letter(byte)?;
    if kind == Kind::King { None } else { Some(kind) }
}

// The unpromoted piece with this letter: a capital for black, a small letter for white.
pub(crate) fn piece_of_letter(byte: u8) -> Option<Piece>
    ensures { MatchOption result
        ((piece : Piece) → is_promoted piece.kind ≡ false → side_letter piece ≡ byte → ⊥)
        (λ piece. (is_promoted piece.kind ≡ false) × (side_letter piece ≡ byte)) }
{
    let (color, capital) = if byte < b'a' {
        (Color::Black, byte)
    } else {
        (Color::White, byte - 32)
    };
    let kind = kind_of_letter(capital)?;
    Some(Piece { color, kind })
}

// The promoted piece with this letter.
pub(crate) fn promoted_of_letter(byte: u8) -> Option<Piece>
    ensures { MatchOption result
        ((piece : Piece) → is_promoted piece.kind ≡ true → side_letter piece ≡ byte → ⊥)
        (λ piece. (is_promoted piece.kind ≡ true) × (side_letter piece ≡ byte)) }
{
    let piece = piece_of_letter(byte)?;
    let kind = piece.kind.promoted()?;
    Some(Piece { kind, ..piece })
}
