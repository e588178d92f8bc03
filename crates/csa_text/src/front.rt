// Moves and times at the front of a piece of a record.

ghost use Rattle.std.specs.Prelude.{◌≡◌, ◌<◌, ◌≤◌, ◌∷◌, ℕ, List, IfSome, IfNone, length, take, drop};
ghost use Rattle.csa_cutting.specs.PieceSteps.{IsWord};
ghost use Rattle.csa_text.specs.Fields.{EndsDigits, IsNumber};
ghost use Rattle.csa_text.specs.Saying.{time, walked};
ghost use Rattle.csa_text.specs.Spelling.{Spells};

use crate::codes::read_sign;
use crate::moved::read_move;
use shogi_board::{Color, Move};

/// How many bytes a move has.
pub const MOVE_SIZE: usize = 7;

// The most digits that are read. Nine digits are always below 2^32.
const MOST_DIGITS: usize = 9;

/// The move that the first seven bytes of the piece spell, if they spell one.
#[inline(always)]
pub fn front_move(piece: &[u8]) -> Option<(Color, Move)>
    ensures spells { IfSome result (λ r. Spells (take 7 piece.now) (walked r.0 r.1)) }
    ensures word { IfSome result (λ _. IsWord (take 7 piece.now)) }
    ensures none { IfNone result
        ((color : Color) (m : Move) → Spells (take 7 piece.now) (walked color m) → ⊥) }
{
    let (bytes, _) = piece.split_at_checked(MOVE_SIZE)?;
    let color = read_sign(bytes[0])?;
    Some((color, read_move(&bytes[1..])?))
}

/// The time that the piece begins with, if it begins with `T` and a digit: in thousandths of a
/// second, and how many bytes spell it. Reads whole seconds only: all digits after the `T`, but at
/// most nine.
#[inline(always)]
pub fn front_time(piece: &[u8]) -> Option<(u64, usize)>
    ensures spells { IfSome result (λ r. Spells (take r.1 piece.now) (time r.0)) }
    ensures word { IfSome result (λ r. IsWord (take r.1 piece.now)) }
    ensures short { IfSome result (λ r. r.1 ≤ 10) }
    ensures within { IfSome result (λ r. r.1 ≤ length piece.now) }
    ensures all { IfSome result (λ r. r.1 < 10 → EndsDigits (drop r.1 piece.now)) }
    ensures none { IfNone result ((text : List ℕ) → piece.now ≡ 84 ∷ text → EndsDigits text) }
{
    let (first, text) = piece.split_first()?;
    if *first != b'T' {
        return None;
    }
    let (seconds, digits) = front_digits(text);
    if digits == 0 {
        return None;
    }
    Some((seconds as u64 * 1000, digits + 1))
}

// The number that the digits at the front of the text spell, at most nine of them, and how many
// there are.
#[inline(always)]
fn front_digits(text: &[u8]) -> (u32, usize)
    ensures value { IsNumber 0 9 (take result.1 text.now) result.0 }
    ensures within { result.1 ≤ length text.now }
    ensures few { result.1 ≤ 9 }
    ensures all { result.1 < 9 → EndsDigits (drop result.1 text.now) }
{
    let mut value = 0;
    let mut count = 0;
    while count < MOST_DIGITS && count < text.len() {
        let Some(digit) = (text[count] as char).to_digit(10) else {
            return (value, count);
        };
        value = value * 10 + digit;
        count += 1;
    }
    (value, count)
}
