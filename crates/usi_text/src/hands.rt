ghost use Rattle.std.specs.Prelude.{◌≡◌, ◌↔◌, IsTrue, codes, ◌<◌, ◌++◌, ◌∷◌, ℕ, List, Option, IfSome, MatchBool, MatchOption, length, replicate};
ghost use Rattle.usi_text.specs.Hands.{Pile, SpellsHands, IsPile, IsCount, count_text, pile_text, pile_pieces};
ghost use Rattle.usi_text.specs.Scanning.{IsDigitBefore, HasNoDigit};

use crate::letters::piece_of_letter;
use shogi_board::{Kind, Piece};

// The pile at the front of the text: its piece, how many there are, and what follows it.
pub(crate) fn read_pile(text: &[u8]) -> Option<(Piece, u8, &[u8])>
    ensures shorter { IfSome result (λ r. length r.2.now < length text.now) }
    ensures pile { MatchOption result
        ((pile : Pile) (following : List ℕ)
        → IsPile pile → text.now ≡ pile_text pile ++ following → ⊥)
        (λ r. (pile : Pile) × IsPile pile × (pile_pieces pile ≡ replicate r.1 r.0)
        × (text.now ≡ pile_text pile ++ r.2.now)) }
{
    let (count, rest) = read_count(text);
    let [letter, following @ ..] = rest else {
        return None;
    };
    let piece = piece_of_letter(*letter)?;
    if piece.kind == Kind::King {
        return None;
    }
    Some((piece, count.unwrap_or(1), following))
}

// Whether the text is a dash, which means that no hand has a piece.
pub(crate) fn is_dash(text: &[u8]) -> bool
    ensures { IsTrue result ↔ (text.now ≡ codes "-") }
{
    text == b"-".as_slice()
}

// Whether the text is a dash or piles.
pub(crate) fn is_hands(text: &[u8]) -> bool
    ensures { MatchBool result
        ((piles : List Pile) × SpellsHands text.now piles)
        ((piles : List Pile) → SpellsHands text.now piles → ⊥) }
{
    if is_dash(text) {
        return true;
    }
    if text.is_empty() {
        return false;
    }
    let mut rest = text;
    while let Some((_, _, following)) = read_pile(rest) {
        rest = following;
    }
    rest.is_empty()
}

// The count of one or two digits at the front of the text, if there is one, and what follows it.
fn read_count(text: &[u8]) -> (Option<u8>, &[u8])
    ensures read { IsCount result.0 × (text.now ≡ count_text result.0 ++ result.1.now) }
    ensures only { (count : Option ℕ) (letter : ℕ) (following : List ℕ)
        → IsCount count → 57 < letter
        → text.now ≡ count_text count ++ letter ∷ following
        → (count ≡ result.0) × (letter ∷ following ≡ result.1.now) }
{
    let Some((tens, rest)) = read_digit(text) else {
        return (None, text);
    };
    if tens == 0 {
        return (None, text);
    }
    let Some((ones, following)) = read_digit(rest) else {
        return (Some(tens), rest);
    };
    (Some(tens * 10 + ones), following)
}

// The digit at the front of the text, and what follows it.
fn read_digit(text: &[u8]) -> Option<(u8, &[u8])>
    ensures { MatchOption result (HasNoDigit text.now) (λ r. IsDigitBefore text.now r.0 r.1.now) }
{
    match text {
        [digit @ b'0'..=b'9', following @ ..] => Some((*digit - b'0', following)),
        _ => None,
    }
}
