// Cutting bytes that come in pieces: a statement may lie in several of them.
//
// Between two steps the cutter keeps where the bytes so far have led to, its place: in the byte
// order mark, in a gap between statements, in a statement, or in a comment. Beside the place it
// holds the bytes of an unfinished statement, at most 4,096. Of a comment it holds none, since a
// comment is not handed out and ends at the next line end, whatever it says.
//
// A step looks for the next statement from that place on. One that begins and ends in the piece is
// lent from there, and nothing is copied. The bytes of any other are held until a piece ends it,
// and it is lent from what is held. The byte order mark is held too, since bytes that begin like
// one may turn out to be a statement.
//
// `take_word` and `take_unspoken` do what a step would in the two cases that are most frequent:
// bytes that the caller has read as a statement already, and what is part of no statement.

ghost use Rattle.std.specs.Prelude.{◌≡◌, ◌+◌, ◌-◌, ◌^◌, ◌<◌, ◌≤◌, ◌++◌, ℕ, List, [], length, take, get_or, true, false, None, Some, Ok, IsSome, IfSome, IfNone, IfOk, IfErr, if◌then◌else◌};
ghost use Rattle.std.specs.Borrow.{sem};
ghost use Rattle.std.specs.Io.BufRead.{Rests};
ghost use Rattle.arrayvec.specs.ArrayVec.{array_vec_len};
ghost use Rattle.csa_cutting.specs.contracts.piece.PieceCutter.{the_row};
ghost use Rattle.csa_cutting.specs.Cut.{statement_bytes, begins_with, is_end, longest_statement};
ghost use Rattle.csa_cutting.specs.PieceCutting.{Leads, fresh, IsOpen};
ghost use Rattle.csa_cutting.specs.PieceSteps.{AfterStep, AfterEnd, Last, IsTooLongAt, IsUsed, IsLentFrom, IsBetween, IsWord, Stepped, begins_unspoken};
ghost use Rattle.csa_cutting.specs.Places.{IsKept, IsFoundIn, IsHeld, IsUnspoken, begins, open_of, kept_of, has_unit};

use crate::cutter::{CutFault, LONGEST_STATEMENT, Statement};
use crate::units::{
    BYTE_ORDER_MARK, COMMENT, Found, Origin, Part, Place, Unspoken, comments_rest, first_in,
    front_unspoken, handed_out, is_in_statement, unit_length,
};
use arrayvec::ArrayVec;
use std::marker::Model;

/// What one step used and found.
#[derive(Clone, Copy, Debug, PartialEq, Eq)]
pub struct Cut<'b> {
    /// How many bytes of the piece were used.
    pub used: usize,
    /// The statement that the last of them ended, if one did.
    pub statement: Option<Statement<'b>>,
}

/// Cuts a record's bytes that arrive in pieces into the statements that a `Cutter` yields for the
/// whole source.
///
/// A statement that lies in one piece together with the byte that ends it is borrowed from that
/// piece. Of an unfinished statement at most 4,096 bytes are held, and of a comment none. Nothing
/// is allocated.
#[derive(Drop)]
pub struct PieceCutter {
    held: ArrayVec<u8, LONGEST_STATEMENT>,
    place: Place,
    fed: u64,
    number: u64,
    refused: Option<u64>,
}

impl Model for PieceCutter {
    ghost use Rattle.csa_cutting.specs.PieceCutting.{PieceCutting};

    ghost Value = { PieceCutting };

    ghost use Rattle.csa_cutting.specs.Places.{begins, open_of, IsKept};

    ghost view = { λ c. record {
      fed = c.fed;
      number = c.number;
      begins = begins c.place;
      unfinished = open_of c.place c.held.items;
      held = c.held.items;
      refused = c.refused;
    } };

    ghost invariant = { λ c. IsKept c.place c.held.items c.fed c.number };
}

impl PieceCutter {
    /// Creates a cutter that has used no bytes.
    pub fn new() -> PieceCutter
        ensures start { result ≡ fresh }
    {
        PieceCutter {
            held: ArrayVec::new(),
            place: Place::Mark,
            fed: 0,
            number: 0,
            refused: None,
        }
    }

    /// Makes this a cutter that has used no bytes.
    pub fn restart(&mut self)
        ensures start { self.new ≡ fresh }
    {
        self.held.clear();
        self.place = Place::Mark;
        self.fed = 0;
        self.number = 0;
        self.refused = None;
    }

    /// How many bytes have been used so far.
    pub fn fed(&self) -> u64
        ensures count { result ≡ self.now.fed }
        ensures little { length self.now.held ≤ longest_statement }
        ensures comment { begins_with 39 self.now.unfinished ≡ true → self.now.held ≡ [] }
        ensures open { IsOpen self.now.unfinished }
    {
        self.fed
    }

    /// How many statements have been yielded so far.
    pub fn statements(&self) -> u64
        ensures count { result ≡ self.now.number }
        ensures few { self.now.number ≤ self.now.fed }
        ensures room { self.now.fed ≤ 2 ^ 63 }
    {
        self.number
    }

    /// Takes bytes from the front of the piece. Returns how many it used, and the statement that
    /// ended there, if one did.
    ///
    /// It stops right after the byte that ends a statement, and uses the whole piece if no
    /// statement ends in it. Pass the rest of the piece to the next call. A statement that begins
    /// in this piece is borrowed from it. At most 2^63 bytes may be passed in all.
    ///
    /// Returns a `CutFault` as soon as a statement has more than 4,096 bytes, and from then on at
    /// each call. A fault changes nothing else in the cutter.
    #[inline(always)]
    pub fn step<'b>(&'b mut self, piece: &'b [u8]) -> Result<Cut<'b>, CutFault>
        requires room { self.old.fed + length piece.now ≤ 2 ^ 63 }
        ensures used { IfOk result (IsUsed piece.now) }
        ensures number { IfOk result
            (λ cut. IfSome cut.statement (λ s. s.number ≡ self.old.number + 1)) }
        ensures lent { IfOk result
            (λ cut. IfSome cut.statement (IsLentFrom piece.entry.ref_ptr self.old.fed)) }
        ensures going { IfOk result (λ _. self.old.refused ≡ None) }
        ensures fault { IfErr result (λ f. f.number ≡ self.old.number + 1) }
        ensures place { IfErr result
            (λ f. IsTooLongAt self.old.refused self.old piece.now f.offset) }
        ensures* after { sem 𝓛
            (Rests the_row self.entry (λ new. AfterStep self.old piece.now result new)) }
    {
        let number = self.number + 1;
        if let Some(offset) = self.refused {
            return Err(CutFault { number, offset });
        }
        let found = match found_in(self.place, self.held.as_slice(), piece) {
            Found::Part(found) => found,
            Found::LeadsTo(place) => {
                self.place = place;
                hold_mark(&mut self.held, place, piece);
                self.fed += piece.len() as u64;
                return Ok(none_ended(piece.len()));
            }
        };
        let end = found.end;
        let part = &piece[found.start..end];
        let kept = kept_length(found.origin, self.held.len());
        let offset = self.fed + found.start as u64 - kept as u64;
        if LONGEST_STATEMENT - kept < part.len() {
            self.refused = Some(offset);
            return Err(CutFault { number, offset });
        }
        keep_held(&mut self.held, found.origin);
        if end == piece.len() {
            hold(&mut self.held, part);
            self.place = Place::Unit;
            self.fed += end as u64;
            return Ok(none_ended(end));
        }
        self.place = Place::Gap;
        self.fed += end as u64 + 1;
        self.number = number;
        if self.held.is_empty() {
            return Ok(ended(end, number, offset, part));
        }
        hold(&mut self.held, part);
        Ok(ended(end, number, offset, self.held.as_slice()))
    }

    /// Takes the first `size` bytes of the piece and the byte after them, as `step` would, if these
    /// bytes are a whole statement: if nothing is unfinished before them, and the byte after them
    /// ends the statement. Returns that statement, or changes nothing and returns `None`.
    ///
    /// The bytes must be 1 to 4,096, contain no separator, and begin no comment, name or header. So
    /// no search for the end of the statement is needed. The statement is borrowed from the piece.
    #[inline(always)]
    pub fn take_word<'b>(&mut self, piece: &'b [u8], size: usize) -> Option<Statement<'b>>
        requires room { self.old.fed + length piece.now ≤ 2 ^ 63 }
        requires word { IsWord (take size piece.now) }
        requires short { size ≤ longest_statement }
        ensures stepped { IfSome result
            (λ s. Stepped self.old piece.now (Ok (record { used = size + 1; statement = Some s }))
            self.new) }
        ensures bytes { IfSome result (λ s. s.bytes.now ≡ take size piece.now) }
        ensures lent { IfSome result (IsLentFrom piece.entry.ref_ptr self.old.fed) }
        ensures none { IfNone result (IsBetween self.old → size < length piece.now
            → is_end (get_or piece.now 0 0) (get_or piece.now size 0) ≡ true → ⊥) }
        ensures same { IfNone result (self.new ≡ self.old) }
    {
        if size >= piece.len() || is_in_statement(piece[size]) {
            return None;
        }
        if self.place != Place::Gap || self.refused.is_some() {
            return None;
        }
        let offset = self.fed;
        self.held.clear();
        self.fed += size as u64 + 1;
        self.number += 1;
        Some(Statement {
            number: self.number,
            offset,
            bytes: &piece[..size],
        })
    }

    /// Takes bytes from the front of the piece that are part of no statement, as `step` would on
    /// its way to the next one: a separator, a comment, or the rest of a comment with all
    /// separators and comments after it. A comment takes the byte that ends it, or all of the piece
    /// if that is not there. Returns how many bytes it used.
    ///
    /// Changes nothing and returns `None` if the piece does not begin so, if a statement or a byte
    /// order mark may be unfinished before it, or if `step` has returned a `CutFault`.
    #[inline(always)]
    pub fn take_unspoken(&mut self, piece: &[u8]) -> Option<usize>
        requires room { self.old.fed + length piece.now ≤ 2 ^ 63 }
        ensures used { IfSome result (λ used. (0 < used) × (used ≤ length piece.now)) }
        ensures leads { IfSome result
            (λ used. Leads self.old (take used piece.now) [] self.new) }
        ensures going { IfSome result (λ _. self.old.refused ≡ None) }
        ensures none { IfNone result (self.old.begins ≡ false → self.old.refused ≡ None
            → 0 < length piece.now
            → begins_unspoken (self.old.unfinished ++ piece.now) ≡ false) }
        ensures same { IfNone result (self.new ≡ self.old) }
    {
        if piece.is_empty() || self.refused.is_some() {
            return None;
        }
        let unspoken = unspoken_in(self.place, piece)?;
        clear_in_comment(&mut self.held, unspoken.place);
        self.place = unspoken.place;
        self.fed += unspoken.used as u64;
        Some(unspoken.used)
    }

    /// Returns the statement that is unfinished at the end of the bytes, if there is one.
    ///
    /// Afterwards the cutter is past that statement, as if its line had ended. Returns a `CutFault`
    /// if `step` has returned one.
    pub fn finish(&mut self) -> Result<Option<Statement<'_>>, CutFault>
        ensures number { IfOk result (λ last. IfSome last (λ s. s.number ≡ self.old.number + 1)) }
        ensures going { IfOk result (λ _. self.old.refused ≡ None) }
        ensures last { IfOk result (λ last. Last self.old last) }
        ensures fault { IfErr result (λ f. f.number ≡ self.old.number + 1) }
        ensures place { IfErr result (λ f. self.old.refused ≡ Some f.offset) }
        ensures* after { sem 𝓛 (Rests the_row self.entry (λ new. AfterEnd self.old result new)) }
    {
        let number = self.number + 1;
        if let Some(offset) = self.refused {
            return Err(CutFault { number, offset });
        }
        let unfinished = is_unfinished(self.place, self.held.as_slice());
        self.place = Place::Gap;
        if !unfinished {
            return Ok(None);
        }
        self.number = number;
        let offset = self.fed - self.held.len() as u64;
        Ok(Some(Statement {
            number,
            offset,
            bytes: handed_out(self.held.as_slice()),
        }))
    }
}

// No statement ended in the bytes that were used.
fn none_ended<'b>(used: usize) -> Cut<'b>
    ensures used { result.used ≡ used }
    ensures statement { result.statement ≡ None }
{
    Cut {
        used,
        statement: None,
    }
}

// The statement whose unit ends there.
fn ended<'b>(end: usize, number: u64, offset: u64, unit: &'b [u8]) -> Cut<'b>
    requires { end < 2 ^ 64 - 1 }
    ensures used { result.used ≡ end + 1 }
    ensures place { IfSome result.statement (λ s. (s.number ≡ number) × (s.offset ≡ offset)) }
    ensures bytes { IfSome result.statement (λ s. s.bytes.now ≡ statement_bytes unit.now) }
    ensures some { IsSome result.statement }
    ensures lent { IfSome result.statement (λ s. s.bytes.ref_ptr ≡ unit.entry.ref_ptr) }
{
    Cut {
        used: end + 1,
        statement: Some(Statement {
            number,
            offset,
            bytes: handed_out(unit),
        }),
    }
}

// What the piece begins with that is part of no statement, if the bytes so far lead to this place.
#[inline(always)]
fn unspoken_in(place: Place, piece: &[u8]) -> Option<Unspoken>
    requires { 0 < length piece.now }
    ensures some { IfSome result (λ unspoken. 0 < unspoken.used) }
    ensures unspoken { (held : List ℕ) → IsHeld place held
        → IfSome result (IsUnspoken place held piece.now) }
    ensures none { (held : List ℕ) → IsHeld place held
        → IfNone result (begins place ≡ false
        → begins_unspoken (open_of place held ++ piece.now) ≡ false) }
{
    if place == Place::Gap {
        return front_unspoken(piece);
    }
    if place != Place::Comment {
        return None;
    }
    Some(comments_rest(piece))
}

// Whether a statement's unit is unfinished.
fn is_unfinished(place: Place, held: &[u8]) -> bool
    ensures { result ≡ has_unit place held.now }
{
    match place {
        Place::Mark => !held.is_empty(),
        Place::Unit => true,
        Place::Gap | Place::Comment => false,
    }
}

// How many of the held bytes belong to a unit that begins there.
fn kept_length(origin: Origin, held_length: usize) -> usize
    ensures { (held : List ℕ) → held_length ≡ length held → result ≡ length (kept_of origin held) }
{
    match origin {
        Origin::EarlierPiece => held_length,
        Origin::ThisPiece => 0,
    }
}

// Keeps the held bytes that belong to a unit that begins there.
fn keep_held(held: &mut ArrayVec<u8, LONGEST_STATEMENT>, origin: Origin)
    ensures { held.new.items ≡ kept_of origin held.old.items }
{
    match origin {
        Origin::EarlierPiece => {}
        Origin::ThisPiece => held.clear(),
    }
}

// Clears what is held where a comment goes on: of a comment nothing is held.
#[inline(always)]
fn clear_in_comment(held: &mut ArrayVec<u8, LONGEST_STATEMENT>, place: Place)
    ensures comment { place ≡ Place.Comment → held.new.items ≡ [] }
    ensures fewer { length held.new.items ≤ length held.old.items }
{
    if place == Place::Comment {
        held.clear();
    }
}

// Holds the bytes of a byte order mark so far, and nothing of a gap or a comment.
fn hold_mark(held: &mut ArrayVec<u8, LONGEST_STATEMENT>, place: Place, piece: &[u8])
    requires { begins place ≡ true → array_vec_len held.old + length piece.now ≤ longest_statement }
    ensures { held.new.items ≡ (if begins place then held.old.items ++ piece.now else []) }
{
    match place {
        Place::Mark => hold(held, piece),
        _ => held.clear(),
    }
}

fn hold(held: &mut ArrayVec<u8, LONGEST_STATEMENT>, part: &[u8])
    requires { array_vec_len held.old + length part.now ≤ longest_statement }
    ensures { held.new.items ≡ held.old.items ++ part.now }
{
    held.try_extend_from_slice(part).unwrap();
}

// The statement's unit that the piece holds next, or where the piece leads if it holds none.
fn found_in(place: Place, held: &[u8], piece: &[u8]) -> Found
    requires { IsHeld place held.now }
    ensures { IsFoundIn place held.now piece.now 0 result }
{
    match place {
        Place::Mark => found_in_mark(held, piece),
        Place::Gap => first_in(piece, 0),
        Place::Unit => Found::Part(Part {
            origin: Origin::EarlierPiece,
            start: 0,
            end: unit_length(held[0], piece),
        }),
        Place::Comment => found_in_comment(piece),
    }
}

// As `found_in`, if the bytes so far end in a comment.
fn found_in_comment(piece: &[u8]) -> Found
    ensures { IsFoundIn Place.Comment [] piece.now 0 result }
{
    let length = unit_length(COMMENT, piece);
    if length == piece.len() {
        return Found::LeadsTo(Place::Comment);
    }
    first_in(piece, length)
}

// As `found_in`, if the bytes so far may be the front of a byte order mark.
fn found_in_mark(held: &[u8], piece: &[u8]) -> Found
    requires { IsHeld Place.Mark held.now }
    ensures { IsFoundIn Place.Mark held.now piece.now 0 result }
{
    let missing = &BYTE_ORDER_MARK[held.len()..];
    if piece.starts_with(missing) {
        first_in(piece, missing.len())
    } else if missing.starts_with(piece) {
        Found::LeadsTo(Place::Mark)
    } else if held.is_empty() && piece[0] != BYTE_ORDER_MARK[0] {
        first_in(piece, 0)
    } else {
        Found::Part(Part {
            origin: Origin::EarlierPiece,
            start: 0,
            end: unit_length(BYTE_ORDER_MARK[0], piece),
        })
    }
}
