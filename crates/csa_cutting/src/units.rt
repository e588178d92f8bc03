//! Finds the next unit of a text, and the bytes of a unit that a statement keeps.

ghost use Rattle.std.specs.Prelude.{◌≡◌, ◌+◌, ℕ, List, [], false, ◌≤◌, ◌<◌, length, drop, not, IfNone, IfSome, MatchOption};
ghost use Rattle.std.specs.List.{position_or_len, prefix_len};
ghost use Rattle.csa_cutting.specs.Cut.{IsNext, IsGap, is_separator, is_blank, takes_line, is_end, statement_bytes, without_last_blanks};
ghost use Rattle.csa_cutting.specs.Cutting.{unit_between};
ghost use Rattle.csa_cutting.specs.PieceSteps.{begins_unspoken};
ghost use Rattle.csa_cutting.specs.Places.{IsFoundIn, IsUnspoken, PassesTo};

use crate::line::{is_line_end, line_length};
use crate::scan::front_length;
use memchr::memchr3_iter;

// The first byte of a comment.
pub(crate) const COMMENT: u8 = b'\'';

// The first bytes of a name and of a header.
const NAME: u8 = b'N';

const HEADER: u8 = b'$';

// The first byte of a time.
const TIME: u8 = b'T';

// The UTF-8 byte order mark.
pub(crate) const BYTE_ORDER_MARK: [u8; 3] = [0xEF, 0xBB, 0xBF];

// Where the bytes so far have led.
#[derive(Clone, Copy, PartialEq, Eq)]
pub(crate) enum Place {
    // at the start, or in the byte order mark
    Mark,
    Gap,
    Unit,
    Comment,
}

// Where the unit of a statement begins.
#[derive(Clone, Copy, PartialEq, Eq)]
pub(crate) enum Origin {
    // in an earlier piece: the held bytes are its front
    EarlierPiece,
    ThisPiece,
}

// The unit of a statement in the piece, from `start` up to and without `end`.
#[derive(Clone, Copy)]
pub(crate) struct Part {
    pub origin: Origin,
    pub start: usize,
    pub end: usize,
}

// What a piece holds next: a statement's unit, or none, and then it leads to this place.
#[derive(Clone, Copy)]
pub(crate) enum Found {
    Part(Part),
    LeadsTo(Place),
}

// Bytes at the front of a text that are part of no statement: how many, and where they lead.
#[derive(Clone, Copy)]
pub(crate) struct Unspoken {
    pub used: usize,
    pub place: Place,
}

// The first statement's unit in the piece from here on, after gaps and comments.
#[inline(always)]
pub(crate) fn first_in(piece: &[u8], from: usize) -> Found
    requires { from ≤ length piece.now }
    ensures { (place : Place) (held : List ℕ) (front : ℕ) → front ≤ from
        → PassesTo place held piece.now front from
        → IsFoundIn place held piece.now front result }
{
    let mut at = from;
    while let Some((start, end)) = next_unit(piece, at) {
        if piece[start] != COMMENT {
            return Found::Part(Part {
                origin: Origin::ThisPiece,
                start,
                end,
            });
        }
        if end == piece.len() {
            return Found::LeadsTo(Place::Comment);
        }
        at = end;
    }
    Found::LeadsTo(Place::Gap)
}

// The separator or the comment that the text begins with.
#[inline(always)]
pub(crate) fn front_unspoken(text: &[u8]) -> Option<Unspoken>
    ensures used { IfSome result (λ front. (0 < front.used) × (front.used ≤ length text.now)) }
    ensures unspoken { (held : List ℕ) → IfSome result (IsUnspoken Place.Gap held text.now) }
    ensures none { IfNone result (begins_unspoken text.now ≡ false) }
{
    let (first, rest) = text.split_first()?;
    if is_separator(*first) {
        return Some(Unspoken {
            used: 1,
            place: Place::Gap,
        });
    }
    if *first != COMMENT {
        return None;
    }
    let Some(end) = comment_end(rest) else {
        return Some(Unspoken {
            used: text.len(),
            place: Place::Comment,
        });
    };
    Some(Unspoken {
        used: end + 1,
        place: Place::Gap,
    })
}

// What is left of a comment at the front of the text, and all separators and comments after it.
#[inline(always)]
pub(crate) fn comments_rest(text: &[u8]) -> Unspoken
    requires { 0 < length text.now }
    ensures some { 0 < result.used }
    ensures unspoken { IsUnspoken Place.Comment [] text.now result }
{
    let Some(end) = comment_end(text) else {
        return Unspoken {
            used: text.len(),
            place: Place::Comment,
        };
    };
    let mut passed = Unspoken {
        used: end,
        place: Place::Gap,
    };
    while passed.place == Place::Gap {
        let Some(next) = front_unspoken(&text[passed.used..]) else {
            return passed;
        };
        passed = Unspoken {
            used: passed.used + next.used,
            place: next.place,
        };
    }
    passed
}

// How many bytes are left of a comment at the front of the text, with the byte that ends it, if
// that is in the text.
#[inline(always)]
fn comment_end(text: &[u8]) -> Option<usize>
    ensures some { IfSome result (λ end. (0 < end) × (end ≤ length text.now)) }
    ensures ends { IfSome result (λ end. IsUnspoken Place.Comment [] text.now
        (record { used = end; place = Place.Gap })) }
    ensures goes_on { IfNone result (IsUnspoken Place.Comment [] text.now
        (record { used = length text.now; place = Place.Comment })) }
{
    let length = unit_length(COMMENT, text);
    if length == text.len() {
        return None;
    }
    Some(length + 1)
}

fn is_separator(b: u8) -> bool
    ensures { result ≡ is_separator b }
{
    is_line_end(b) || b == b',' || is_blank(b)
}

// Whether a unit with this first byte extends to the end of its line.
fn takes_line(first: u8) -> bool
    ensures { result ≡ takes_line first }
{
    first == COMMENT || first == NAME || first == HEADER
}

// Whether a statement that does not take its whole line can contain this byte.
pub(crate) fn is_in_statement(b: u8) -> bool
    ensures { (first : ℕ) → takes_line first ≡ false → result ≡ not (is_end first b) }
{
    !is_line_end(b) && b != b','
}

// How many separators the text begins with.
fn gap_length(text: &[u8]) -> usize
    ensures value { result ≡ prefix_len is_separator text.now }
    ensures within { result ≤ length text.now }
{
    front_length(text, is_separator)
}

// How many bytes of the text come before the one that ends a unit with this first byte.
#[inline(always)]
pub(crate) fn unit_length(first: u8, text: &[u8]) -> usize
    ensures value { result ≡ position_or_len (is_end first) text.now }
    ensures within { result ≤ length text.now }
{
    if takes_line(first) {
        line_length(text)
    } else if first == TIME {
        // A time has so few bytes that looking at each is faster than a search.
        front_length(text, is_in_statement)
    } else {
        plain_length(text)
    }
}

// How many bytes of the text come before a CR, LF or comma, each of which ends a unit that does not
// take its whole line. If the search were inlined, it would take registers from its callers and
// slow them down.
#[inline(never)]
fn plain_length(text: &[u8]) -> usize
    ensures value { (first : ℕ) → takes_line first ≡ false
        → result ≡ position_or_len (is_end first) text.now }
    ensures within { result ≤ length text.now }
{
    memchr3_iter(b'\r', b'\n', b',', text)
        .next()
        .unwrap_or(text.len())
}

// Where the next unit at or after `from` starts and ends. A comment counts as a unit.
#[inline(always)]
fn next_unit(source: &[u8], from: usize) -> Option<(usize, usize)>
    requires { from ≤ length source.now }
    ensures { MatchOption result (IsGap (drop from source.now))
        (λ r. (r.0 < r.1) × (r.1 ≤ length source.now)
        × IsNext from (drop from source.now) (unit_between source.now r.0 r.1)
        (drop r.1 source.now)) }
{
    let start = from + gap_length(&source[from..]);
    if start == source.len() {
        return None;
    }
    let length = unit_length(source[start], &source[start + 1..]);
    Some((start, start + 1 + length))
}

// The bytes of a unit that its statement keeps.
pub(crate) fn handed_out(unit: &[u8]) -> &[u8]
    ensures value { result.now ≡ statement_bytes unit.now }
    ensures place { result.ref_ptr ≡ unit.entry.ref_ptr }
{
    if !ends_blank(unit) {
        return unit;
    }
    match unit.first() {
        Some(&NAME) | Some(&HEADER) => unit,
        _ => without_last_blanks(unit),
    }
}

// Whether the last byte is a space or a tab.
fn ends_blank(bytes: &[u8]) -> bool
    ensures { result ≡ false → without_last_blanks bytes.now ≡ bytes.now }
{
    bytes.last().copied().is_some_and(is_blank)
}

fn is_blank(b: u8) -> bool
    ensures { result ≡ is_blank b }
{
    b == b' ' || b == b'\t'
}

// The bytes without trailing spaces and tabs.
fn without_last_blanks(bytes: &[u8]) -> &[u8]
    ensures value { result.now ≡ without_last_blanks bytes.now }
    ensures place { result.ref_ptr ≡ bytes.entry.ref_ptr }
{
    let mut end = bytes.len();
    while end > 0 && is_blank(bytes[end - 1]) {
        end -= 1;
    }
    &bytes[..end]
}
