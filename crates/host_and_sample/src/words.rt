ghost use Rattle.std.specs.Prelude.{◌≡◌, ℕ, ◌↔◌, ◌⊎◌, List, [], ◌∷◌, IsTrue};
ghost use Rattle.host_and_sample.specs.Host.{IsWordAndOne};
ghost use Rattle.usi_text.specs.Words.{words, nth_word};

use usi_text::next_word;

// The first word, or the empty text if there is none.
pub(crate) fn first_word(text: &[u8]) -> &[u8]
    ensures { result.now ≡ nth_word (words text.now) 0 }
{
    match next_word(text) {
        Some((word, _)) => word,
        None => &[],
    }
}

// Whether the text is that one word.
pub(crate) fn is_word(text: &[u8], wanted: &[u8]) -> bool
    ensures { IsTrue result ↔ (words text.now ≡ wanted.now ∷ []) }
{
    match next_word(text) {
        Some((word, rest)) => word == wanted && next_word(rest).is_none(),
        None => false,
    }
}

// Whether the text is that word, alone or followed by one more.
pub(crate) fn is_word_and_one(text: &[u8], wanted: &[u8]) -> bool
    ensures { IsTrue result ↔ IsWordAndOne text.now wanted.now }
{
    match next_word(text) {
        Some((word, rest)) => word == wanted && has_at_most_one(rest),
        None => false,
    }
}

// Whether the text has one word or none.
fn has_at_most_one(text: &[u8]) -> bool
    ensures { IsTrue result ↔ ((words text.now ≡ []) ⊎ ((w : List ℕ) × (words text.now ≡ w ∷ []))) }
{
    match next_word(text) {
        Some((_, rest)) => next_word(rest).is_none(),
        None => true,
    }
}
