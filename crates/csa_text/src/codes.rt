ghost use Rattle.std.specs.Prelude.{◌≡◌, MatchOption};
ghost use Rattle.csa_text.specs.Codes.{sign, square_text, kind_code};

use shogi_board::{Color, Kind, Square};

/// The sign of a side: `+` for black, `-` for white.
pub fn sign_of(color: Color) -> u8
    ensures sign { result ≡ sign color }
{
    match color {
        Color::Black => b'+',
        Color::White => b'-',
    }
}

// The digits of the file and of the rank.
#[inline(always)]
pub(crate) fn square_digits(square: Square) -> [u8; 2]
    ensures { result ≡ square_text square }
{
    [b'0' + square.file(), b'0' + square.rank()]
}

// The side with this sign.
pub(crate) fn read_sign(byte: u8) -> Option<Color>
    ensures { MatchOption result ((color : Color) → byte ≡ sign color → ⊥)
        (λ color. byte ≡ sign color) }
{
    match byte {
        b'+' => Some(Color::Black),
        b'-' => Some(Color::White),
        _ => None,
    }
}

// The square with this file and rank, two digits.
#[inline(always)]
pub(crate) fn read_square(bytes: &[u8]) -> Option<Square>
    ensures { MatchOption result
        ((square : Square) → bytes.now ≡ square_text square → ⊥)
        (λ square. bytes.now ≡ square_text square) }
{
    let [file, rank] = bytes else {
        return None;
    };
    Square::new(file.checked_sub(b'0')?, rank.checked_sub(b'0')?)
}

// The kind with this code.
#[inline(always)]
pub(crate) fn read_kind(code: &[u8]) -> Option<Kind>
    ensures { MatchOption result
        ((k : Kind) → code.now ≡ kind_code k → ⊥)
        (λ k. code.now ≡ kind_code k) }
{
    match code {
        b"FU" => Some(Kind::Pawn),
        b"KY" => Some(Kind::Lance),
        b"KE" => Some(Kind::Knight),
        b"GI" => Some(Kind::Silver),
        b"KI" => Some(Kind::Gold),
        b"KA" => Some(Kind::Bishop),
        b"HI" => Some(Kind::Rook),
        b"OU" => Some(Kind::King),
        b"TO" => Some(Kind::ProPawn),
        b"NY" => Some(Kind::ProLance),
        b"NK" => Some(Kind::ProKnight),
        b"NG" => Some(Kind::ProSilver),
        b"UM" => Some(Kind::Horse),
        b"RY" => Some(Kind::Dragon),
        _ => None,
    }
}

// The code of the kind.
#[inline(always)]
pub(crate) fn kind_letters(kind: Kind) -> [u8; 2]
    ensures { result ≡ kind_code kind }
{
    match kind {
        Kind::Pawn => *b"FU",
        Kind::Lance => *b"KY",
        Kind::Knight => *b"KE",
        Kind::Silver => *b"GI",
        Kind::Gold => *b"KI",
        Kind::Bishop => *b"KA",
        Kind::Rook => *b"HI",
        Kind::King => *b"OU",
        Kind::ProPawn => *b"TO",
        Kind::ProLance => *b"NY",
        Kind::ProKnight => *b"NK",
        Kind::ProSilver => *b"NG",
        Kind::Horse => *b"UM",
        Kind::Dragon => *b"RY",
    }
}
