ghost use Rattle.std.specs.Prelude.{◌≡◌, ◌↔◌, IsTrue, MatchOption, MatchResult};
ghost use Rattle.shogi_board.specs.declared.color.Color.{Color};
ghost use Rattle.usi_text.specs.Sfen.{Sfen, FirstFault, IsNumber, side_text};
ghost use Rattle.usi_text.specs.Words.{words, nth_word};

use crate::boards::read_board;
use crate::fault::SfenFault;
use crate::hands::is_hands;
use crate::setting::set_up_position;
use crate::words::take_word;
use shogi_board::{Color, Position};

/// Reads the position of an SFEN, the notation that USI has for positions.
///
/// Refuses, in this order:
///
/// - `BadBoard`, `BadSide`, `BadHands` and `BadNumber`, by the words of the text; a missing word
///   counts as an empty one;
/// - `Start` with the first refusal of its pieces, `SecondKing` or `TooMany`. They are placed in
///   the order of the text, first on the squares and then in the hands;
/// - `Start(OpponentInCheck)` if the side to move could take the other king.
pub fn read_sfen(text: &[u8]) -> Result<Position, SfenFault>
    ensures stated { MatchResult result
        (λ position. Sfen (words text.now) position)
        (λ fault. FirstFault (words text.now) fault) }
{
    let words = sfen_words(text);
    let cells = read_board(words.board).ok_or(SfenFault::BadBoard)?;
    let side = read_side(words.side).ok_or(SfenFault::BadSide)?;
    if !is_hands(words.hands) {
        return Err(SfenFault::BadHands);
    }
    if !is_number(words.number, words.fifth) {
        return Err(SfenFault::BadNumber);
    }
    Ok(set_up_position(cells.as_slice(), words.hands, side)?)
}

// The first five words of a text. If there are fewer, the others are empty.
#[derive(Clone, Copy)]
struct SfenWords<'a> {
    board: &'a [u8],
    side: &'a [u8],
    hands: &'a [u8],
    number: &'a [u8],
    fifth: &'a [u8],
}

fn sfen_words(text: &[u8]) -> SfenWords<'_>
    ensures board { result.board.now ≡ nth_word (words text.now) 0 }
    ensures side { result.side.now ≡ nth_word (words text.now) 1 }
    ensures hands { result.hands.now ≡ nth_word (words text.now) 2 }
    ensures number { result.number.now ≡ nth_word (words text.now) 3 }
    ensures fifth { result.fifth.now ≡ nth_word (words text.now) 4 }
{
    let (board, rest) = take_word(text);
    let (side, rest) = take_word(rest);
    let (hands, rest) = take_word(rest);
    let (number, rest) = take_word(rest);
    let (fifth, _) = take_word(rest);
    SfenWords {
        board,
        side,
        hands,
        number,
        fifth,
    }
}

fn read_side(word: &[u8]) -> Option<Color>
    ensures { MatchOption result
        ((side : Color) → word.now ≡ side_text side → ⊥)
        (λ side. word.now ≡ side_text side) }
{
    if word == b"b".as_slice() {
        Some(Color::Black)
    } else if word == b"w".as_slice() {
        Some(Color::White)
    } else {
        None
    }
}

// Whether the word is all digits, and no word follows.
fn is_number(word: &[u8], next: &[u8]) -> bool
    ensures { IsTrue result ↔ IsNumber word.now next.now }
{
    word.iter().all(|b| b.is_ascii_digit()) && next.is_empty()
}
