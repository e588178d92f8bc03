ghost use Rattle.std.specs.Prelude.{◌≡◌, MatchOption, List};
ghost use Rattle.csa_text.specs.declared.pair.Pair.{Pair};
ghost use Rattle.csa_text.specs.PairTexts.{pair_text, pairs_text};
ghost use Rattle.csa_text.specs.PairsOnce.{pairs-prop};

use crate::codes::{kind_letters, read_kind, read_square, square_digits};
use crate::pair::Pair;

// The bytes of a pair.
const PAIR: usize = 4;

/// The pairs after `PI`, `P+` or `P-`, in their order. They borrow from the statement.
#[derive(Clone, Copy, Debug, PartialEq, Eq)]
pub struct Pairs<'a> {
    bytes: &'a [u8],
    pub ghost are_pairs: { (pairs : List Pair) × (bytes.now ≡ pairs_text pairs) } by { pairs-prop bytes.now },
}

impl<'a> Pairs<'a> {
    ghost use Rattle.std.specs.Prelude.{length, ◌↔◌, IsTrue, []};
    ghost use Rattle.std.specs.List.{slice_get};
    ghost use Rattle.csa_text.specs.PairTexts.{AllOnBoard};
    ghost use Rattle.csa_text.specs.Saying.{pairs_of};

    /// How many pairs there are.
    pub fn len(&self) -> usize
        ensures count { result ≡ length (pairs_of self.now) }
    {
        self.bytes.len() / PAIR
    }

    /// Whether there are no pairs.
    pub fn is_empty(&self) -> bool
        ensures none { IsTrue result ↔ (pairs_of self.now ≡ []) }
    {
        self.len() == 0
    }

    /// The pair at this index, counted from 0, or `None` if there are not so many pairs.
    pub fn get(&self, i: usize) -> Option<Pair>
        ensures pair { result ≡ slice_get (pairs_of self.now) i }
    {
        if self.bytes.len() / PAIR <= i {
            return None;
        }
        read_pair(&self.bytes[PAIR * i..PAIR * i + PAIR])
    }

    // The pairs that the bytes spell, if they spell pairs.
    pub(crate) fn read(bytes: &'a [u8]) -> Option<Pairs<'a>>
        ensures { MatchOption result
            ((pairs : List Pair) → bytes.now ≡ pairs_text pairs → ⊥)
            (λ p. bytes.now ≡ pairs_text (pairs_of p)) }
    {
        if bytes.len() % PAIR != 0 {
            return None;
        }
        for i in 0..bytes.len() / PAIR {
            read_pair(&bytes[PAIR * i..PAIR * i + PAIR])?;
        }
        Some(Pairs { bytes })
    }

    // Whether each pair has a square.
    pub(crate) fn are_on_board(&self) -> bool
        ensures { IsTrue result ↔ AllOnBoard (pairs_of self.now) }
    {
        for i in 0..self.len() {
            let Some(Pair::On(..)) = self.get(i) else {
                return false;
            };
        }
        true
    }
}

/// The four bytes of a pair: a square and a kind, `00` and a kind, or `00AL`. `read_item` reads
/// them back as that pair.
pub fn pair_bytes(pair: Pair) -> [u8; 4]
    ensures bytes { result ≡ pair_text pair }
{
    match pair {
        Pair::On(square, kind) => {
            let [file, rank] = square_digits(square);
            let [first, second] = kind_letters(kind);
            [file, rank, first, second]
        }
        Pair::InHand(kind) => {
            let [first, second] = kind_letters(kind);
            [b'0', b'0', first, second]
        }
        Pair::Rest => *b"00AL",
    }
}

// The pair that these bytes spell.
fn read_pair(bytes: &[u8]) -> Option<Pair>
    ensures { MatchOption result
        ((pair : Pair) → bytes.now ≡ pair_text pair → ⊥)
        (λ pair. bytes.now ≡ pair_text pair) }
{
    match bytes {
        b"00AL" => Some(Pair::Rest),
        [b'0', b'0', code @ ..] => Some(Pair::InHand(read_kind(code)?)),
        [file, rank, code @ ..] => Some(Pair::On(read_square(&[*file, *rank])?, read_kind(code)?)),
        _ => None,
    }
}
