ghost use Rattle.std.specs.Prelude.{◌≡◌, ◌≤◌, ◌+◌, [], length, drop, slice_range, IfOk, IfErr, IfNone, MatchOption};
ghost use Rattle.csa_cutting.specs.Cut.{Statements, mark_length, statement_bytes, longest_statement};
ghost use Rattle.csa_cutting.specs.Cutting.{Cutting, ToCome, IfHandedOut, IsTooLong, IsFirstStatement};

use crate::units::{BYTE_ORDER_MARK, Found, first_in, handed_out};
use std::marker::Model;
use thiserror::Error;

// The most bytes that a statement may have, including blanks at its end.
pub(crate) const LONGEST_STATEMENT: usize = 4096;

/// One statement of a record.
#[derive(Clone, Copy, Debug, PartialEq, Eq)]
pub struct Statement<'a> {
    /// Its number, counted from 1. Comments are not counted.
    pub number: u64,
    /// The offset of its first byte in the source, counted from 0. A byte order mark counts too.
    pub offset: u64,
    /// Its bytes: all of them for a name or a header, else without trailing spaces and tabs.
    pub bytes: &'a [u8],
}

/// A statement has more than 4,096 bytes, including blanks at its end: `C1 StatementTooLong`.
#[derive(Clone, Copy, Debug, PartialEq, Eq, Error)]
#[error("statement {number}, offset {offset}: C1 StatementTooLong")]
pub struct CutFault {
    /// The number of the statement, counted from 1.
    pub number: u64,
    /// The offset of its first byte in the source, counted from 0.
    pub offset: u64,
}

/// Cuts a record's bytes into statements, and yields them in order.
///
/// By the grammar of CSA V2.2, CR, LF, commas, spaces and tabs separate statements, and a name
/// (`N`) or a header (`$`) extends to the end of its line. A byte order mark at the very start is
/// skipped, and so are comments (`'`). Nothing is allocated.
#[derive(Drop)]
pub struct Cutter<'a> {
    source: &'a [u8],
    at: usize,
    number: u64,
}

impl<'a> Model for Cutter<'a> {
    ghost use Rattle.std.specs.Prelude.{◌≤◌, length};
    ghost use Rattle.csa_cutting.specs.Cutting.{Cutting};

    ghost Value = { Cutting };

    ghost view = { λ c. record {
      source = c.source.now;
      address = c.source.ref_ptr;
      at = c.at;
      number = c.number;
    } };

    ghost invariant = { λ c. (c.at ≤ length c.source.now) × (c.number ≤ c.at) };
}

impl<'a> Cutter<'a> {
    /// Creates a cutter at the start of the source.
    pub fn new(source: &'a [u8]) -> Cutter<'a>
        ensures source { result.source ≡ source.now }
        ensures address { result.address ≡ source.entry.ref_ptr }
        ensures start { result.at ≡ mark_length source.now }
        ensures number { result.number ≡ 0 }
        ensures within { result.at ≤ length source.now }
    {
        let at = if source.starts_with(BYTE_ORDER_MARK.as_slice()) {
            BYTE_ORDER_MARK.len()
        } else {
            0
        };
        Cutter {
            source,
            at,
            number: 0,
        }
    }

    /// Returns the next statement, or `None` if no statement is left.
    ///
    /// Returns a `CutFault` if the next statement has more than 4,096 bytes. The cutter then does
    /// not move, so each later call returns the same fault.
    pub fn next_statement(&mut self) -> Result<Option<Statement<'a>>, CutFault>
        ensures source { self.new.source ≡ self.old.source }
        ensures address { self.new.address ≡ self.old.address }
        ensures first { IfHandedOut result
            (λ s. IsFirstStatement self.old.source self.old.at s.offset self.new.at) }
        ensures number { IfHandedOut result (λ s. s.number ≡ self.old.number + 1) }
        ensures counted { IfHandedOut result (λ s. self.new.number ≡ s.number) }
        ensures bytes { IfHandedOut result
            (λ s. s.bytes.now
            ≡ statement_bytes (slice_range self.old.source s.offset self.new.at)) }
        ensures lent { IfHandedOut result
            (λ s. s.bytes.ref_ptr ≡ (self.old.address.0, self.old.address.1 + s.offset)) }
        ensures limit { IfHandedOut result (λ s. self.new.at ≤ s.offset + longest_statement) }
        ensures end { IfOk result (λ found. IfNone found (ToCome self.old [])) }
        ensures stays { IfOk result (λ found. IfNone found (self.new ≡ self.old)) }
        ensures fault { IfErr result (λ f. IsTooLong self.old f.number f.offset) }
        ensures still { IfErr result (λ _. self.new ≡ self.old) }
    {
        let Some((start, end)) = next_spoken(self.source, self.at) else {
            return Ok(None);
        };
        let number = self.number + 1;
        let offset = start as u64;
        let unit = &self.source[start..end];
        if unit.len() > LONGEST_STATEMENT {
            return Err(CutFault { number, offset });
        }
        self.at = end;
        self.number = number;
        Ok(Some(Statement {
            number,
            offset,
            bytes: handed_out(unit),
        }))
    }
}

// The next unit at or after `from` that is not a comment.
fn next_spoken(source: &[u8], from: usize) -> Option<(usize, usize)>
    requires { from ≤ length source.now }
    ensures { MatchOption result
        (Statements from (drop from source.now) [])
        (λ r. IsFirstStatement source.now from r.0 r.1) }
{
    match first_in(source, from) {
        Found::Part(unit) => Some((unit.start, unit.end)),
        Found::LeadsTo(_) => None,
    }
}
