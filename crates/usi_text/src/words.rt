ghost use Rattle.std.specs.Prelude.{◌≡◌, ◌≢◌, ℕ, ◌≤◌, ◌<◌, ◌==◌, true, false, [], ◌∷◌, drop, length, slice_index, IfSome, MatchOption};
ghost use Rattle.usi_text.specs.Words.{IsAfter, words, nth_word};

/// The first word and what follows it, or `None` if the text has no word. Words are the longest
/// runs of bytes without spaces.
pub fn next_word(text: &[u8]) -> Option<(&[u8], &[u8])>
    ensures word { MatchOption result
        (words text.now ≡ [])
        (λ r. words text.now ≡ r.0.now ∷ words r.1.now) }
    ensures following { IfSome result (λ r. IsAfter text.now r.1.now) }
{
    let (_, text) = text.split_at(spaces_length(text));
    if text.is_empty() {
        return None;
    }
    Some(text.split_at(word_length(text)))
}

// The first word, or the empty text if there is none, and what follows it.
pub(crate) fn take_word(text: &[u8]) -> (&[u8], &[u8])
    ensures word { result.0.now ≡ nth_word (words text.now) 0 }
    ensures rest { words result.1.now ≡ drop 1 (words text.now) }
{
    next_word(text).unwrap_or((&[], &[]))
}

// How many spaces there are at the front of the text.
fn spaces_length(text: &[u8]) -> usize
    ensures within { result ≤ length text.now }
    ensures run { (k : ℕ) → k < result → (slice_index text.now k == 32) ≡ true }
    ensures ends { result < length text.now → (slice_index text.now result == 32) ≢ true }
{
    text.iter().position(|b| *b != b' ').unwrap_or(text.len())
}

// How many bytes there are before the first space, or before the end if there is none.
fn word_length(text: &[u8]) -> usize
    ensures within { result ≤ length text.now }
    ensures run { (k : ℕ) → k < result → (slice_index text.now k == 32) ≡ false }
    ensures ends { result < length text.now → (slice_index text.now result == 32) ≢ false }
{
    text.iter().position(|b| *b == b' ').unwrap_or(text.len())
}
