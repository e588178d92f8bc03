ghost use Rattle.std.specs.Prelude.{◌≡◌, ◌<◌, ◌++◌, ◌∷◌, [], MatchOption};
ghost use Rattle.arrayvec.specs.ArrayString.{array_string_len};
ghost use Rattle.csa_text.specs.Codes.{squares_text, move_text};
ghost use Rattle.csa_text.specs.Saying.{walked};
ghost use Rattle.csa_text.specs.Spelling.{Spells};

use crate::codes::{kind_letters, read_kind, read_square, sign_of, square_digits};
use arrayvec::ArrayString;
use shogi_board::{Color, Move};

/// The seven bytes of a move in CSA V2.2: the sign of its side, the square that it leaves or `00`
/// for a drop, the square that it goes to, and the kind after the move. `read_item` reads them back
/// as that move.
#[inline(always)]
pub fn move_bytes(color: Color, m: &Move) -> [u8; 7]
    ensures bytes { result ≡ move_text color m.now }
{
    let sign = sign_of(color);
    match *m {
        Move::Walk { from, to, kind } => {
            let [file, rank] = square_digits(from);
            let [to_file, to_rank] = square_digits(to);
            let [first, second] = kind_letters(kind);
            [sign, file, rank, to_file, to_rank, first, second]
        }
        Move::Put { to, kind } => {
            let [to_file, to_rank] = square_digits(to);
            let [first, second] = kind_letters(kind);
            [sign, b'0', b'0', to_file, to_rank, first, second]
        }
    }
}

/// The text of `move_bytes`.
pub fn csa_move(color: Color, m: &Move) -> ArrayString<7>
    ensures spells { Spells result.bytes (walked color m.now) }
{
    let mut text = ArrayString::new();
    for byte in move_bytes(color, m) {
        push_ascii(&mut text, byte);
    }
    text
}

fn push_ascii(text: &mut ArrayString<7>, byte: u8)
    requires room { array_string_len text.old < 7 }
    requires ascii { byte < 128 }
    ensures { text.new.bytes ≡ text.old.bytes ++ byte ∷ [] }
{
    text.push(byte as char);
}

// The move of these six bytes, which follow the sign.
#[inline(always)]
pub(crate) fn read_move(bytes: &[u8]) -> Option<Move>
    ensures { MatchOption result
        ((m : Move) → bytes.now ≡ squares_text m → ⊥)
        (λ m. bytes.now ≡ squares_text m) }
{
    let (from, rest) = bytes.split_at_checked(2)?;
    let (to, code) = rest.split_at_checked(2)?;
    let to = read_square(to)?;
    let kind = read_kind(code)?;
    match from {
        b"00" => Some(Move::Put { to, kind }),
        _ => Some(Move::Walk {
            from: read_square(from)?,
            to,
            kind,
        }),
    }
}
