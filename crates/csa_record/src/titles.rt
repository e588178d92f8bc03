ghost use Rattle.std.specs.Prelude.{◌≡◌, ◌≢◌, ◌⊎◌, ◌↔◌, ℕ, ◌+◌, ◌<◌, ◌≤◌, ◌∷◌, ◌++◌, is_some, List, [], true, IsTrue, None, Some, length, map, IfSome, IfNone, IsOk, IfOk, IfErr, OnOk, OnErr, MatchOption};
ghost use Rattle.std.specs.List.{flat_map};
ghost use Rattle.shogi_board.specs.declared.color.Color.TheVariants.{Black, White};
ghost use Rattle.csa_text.specs.Fields.{HasNone};
ghost use Rattle.csa_text.specs.Moment.{CalendarMoment, SpellsMoment, moment_text, moment_of};
ghost use Rattle.csa_text.specs.Saying.{header};
ghost use Rattle.csa_text.specs.Statements.{statement_of};
ghost use Rattle.csa_record.specs.Bytes.{name_bytes};
ghost use Rattle.record_game.specs.Answer.{IsAnswer};
ghost use Rattle.record_game.specs.Canon.{ended_line, header_item, name_items, value_text};
ghost use Rattle.record_game.specs.Limits.{IsName, IsOneLine, IsMomentKey, IsEntry, most_headers};
ghost use Rattle.record_game.specs.Says.{IsValue};
ghost use Rattle.record_game.specs.Titles.{untitled, name_of, under, name_fault, header_fault, with_name, with_entry, IsWithHeader};
ghost use Rattle.record_game.specs.Validity.{IsTitled};
ghost use Rattle.csa_record.specs.TitleBytes.{text_of, entry_of, entries_of};
ghost use Rattle.csa_record.specs.HeaderValues.{shown};
ghost use Rattle.csa_cutting.specs.Cut.{longest_statement};

use csa_text::{Moment, read_moment, write_header, write_name};
use record_game::{OrderFault, Why};
use shogi_board::{Color, OutOfMemory};
use std::alloc::Global;
use std::collections::BTreeMap;
use std::marker::Model;

/// The most headers that a record may have.
pub const MAX_HEADERS: usize = 64;

// The value of a header.
#[derive(Drop)]
enum HeaderText {
    Moment(Moment),
    Plain(Vec<u8>),
}

type Headers = BTreeMap<Vec<u8>, HeaderText>;

/// The value of a header: a moment, or any other text.
#[derive(Clone, Copy, Debug, PartialEq, Eq)]
pub enum HeaderValue<'a> {
    /// The moment of a `START_TIME` or `END_TIME`.
    Moment(Moment),
    /// The text, which is not empty and has no CR or LF.
    Plain(&'a [u8]),
}

// The names and the headers of a record.
#[derive(Drop)]
pub(crate) struct Titles {
    alloc: Global,
    black: Option<Vec<u8>>,
    white: Option<Vec<u8>>,
    headers: Headers,
}

impl Model for Titles {
    ghost use Rattle.csa_record.specs.Bytes.{name_bytes};
    ghost use Rattle.record_game.specs.Titles.{Titled};
    ghost use Rattle.record_game.specs.Validity.{IsTitled};
    ghost use Rattle.csa_record.specs.TitleBytes.{entries_of};

    ghost Value = { Titled };

    ghost view = { λ t. record {
      black = name_bytes t.black;
      white = name_bytes t.white;
      headers = entries_of t.headers.entries;
    } };

    ghost invariant = { λ t. IsTitled
        (record {
          black = name_bytes t.black;
          white = name_bytes t.white;
          headers = entries_of t.headers.entries;
        }) };
}

impl Titles {
    // Titles with no name and no header. Allocates nothing.
    pub(crate) fn new(alloc: Global) -> Titles
        ensures { result ≡ untitled }
    {
        Titles {
            alloc,
            black: None,
            white: None,
            headers: BTreeMap::new(alloc),
        }
    }

    // Takes that side's name. An empty name counts as none.
    pub(crate) fn set_name(&mut self, color: Color, text: &[u8]) -> Result<(), Why>
        requires one_line { IsOneLine text.now }
        requires fits { 2 + length text.now ≤ longest_statement }
        ensures answer { IsAnswer (name_fault self.old color text.now) result }
        ensures empty { text.now ≡ [] → IsOk result }
        ensures changed { OnOk result (self.new ≡ with_name self.old color text.now) }
        ensures unchanged { OnErr result (self.new ≡ self.old) }
        ensures titled { IsTitled self.new }
    {
        let alloc = self.alloc;
        if text.is_empty() {
            return Ok(());
        }
        match color {
            Color::Black => fill_name(alloc, &mut self.black, text),
            Color::White => fill_name(alloc, &mut self.white, text),
        }
    }

    // Does nothing: its clause says that the titles are sound, for callers that do not see its
    // fields.
    #[inline(always)]
    pub(crate) fn soundness(&self)
        ensures { IsTitled self.now }
    {
        // what holds of all titles is known once one of their fields is read
        let _alloc = self.alloc;
    }

    // That side's name, if it has one.
    pub(crate) fn name(&self, color: Color) -> Option<&[u8]>
        ensures value { MatchOption result
            (name_of self.now color ≡ None)
            (λ name. name_of self.now color ≡ Some name.now) }
        ensures some { IfSome result (λ name. IsName name.now) }
    {
        let name = match color {
            Color::Black => &self.black,
            Color::White => &self.white,
        };
        Some(name.as_ref()?.as_slice())
    }

    // Takes a header. One with an empty text counts as none.
    pub(crate) fn set_header(&mut self, key: &[u8], text: &[u8]) -> Result<(), Why>
        requires some { key.now ≢ [] }
        requires key_line { IsOneLine key.now }
        requires text_line { IsOneLine text.now }
        requires no_colon { HasNone 58 key.now }
        requires fits { 2 + length key.now + length text.now ≤ longest_statement }
        ensures answer { IsAnswer (header_fault self.old key.now text.now) result }
        ensures empty { text.now ≡ [] → IsOk result }
        ensures changed { OnOk result (IsWithHeader self.old key.now text.now self.new) }
        ensures unchanged { OnErr result (self.new ≡ self.old) }
        ensures titled { IsTitled self.new }
    {
        let alloc = self.alloc;
        if text.is_empty() {
            return Ok(());
        }
        if let Some(fault) = self.order_fault(key) {
            return Err(Why::Order(fault));
        }
        let value = value_under(alloc, key, text)?;
        let key = copied(alloc, key)?;
        self.put(key, value)
    }

    // Why a header with this key is refused, if its text is not empty.
    fn order_fault(&self, key: &[u8]) -> Option<OrderFault>
        ensures fault { (text : List ℕ) → text ≢ [] → MatchOption result
            (header_fault self.now key.now text ≡ None)
            (λ fault. header_fault self.now key.now text ≡ Some (Why.Order fault)) }
        ensures none { IfNone result
            ((under key.now self.now.headers ≡ []) × (length self.now.headers < most_headers)) }
    {
        if self.headers.contains_key(key) {
            return Some(OrderFault::RepeatedHeader);
        }
        if self.headers.len() >= MAX_HEADERS {
            return Some(OrderFault::TooManyHeaders);
        }
        None
    }

    // Puts a header in its place.
    fn put(&mut self, key: Vec<u8>, value: HeaderText) -> Result<(), Why>
        requires entry { IsEntry (entry_of key value) }
        requires new_key { under key.items self.old.headers ≡ [] }
        requires few { length self.old.headers < most_headers }
        ensures ok { OnOk result
            (self.new
            ≡ record self.old { headers = with_entry self.old.headers (entry_of key value) }) }
        ensures why { IfErr result (λ why. why ≡ Why.OutOfMemory) }
        ensures unchanged { OnErr result (self.new ≡ self.old) }
        ensures titled { IsTitled self.new }
    {
        match self.headers.insert(key, value) {
            Ok(_) => Ok(()),
            Err(_) => Err(Why::OutOfMemory),
        }
    }

    // The value of this header, if there is one.
    pub(crate) fn header(&self, key: &[u8]) -> Option<HeaderValue<'_>>
        ensures { MatchOption result
            (under key.now self.now.headers ≡ [])
            (λ value. under key.now self.now.headers
            ≡ record { key = key.now; text = shown value } ∷ []) }
    {
        match self.headers.get(key) {
            Some(HeaderText::Moment(moment)) => Some(HeaderValue::Moment(*moment)),
            Some(HeaderText::Plain(text)) => Some(HeaderValue::Plain(text.as_slice())),
            None => None,
        }
    }

    // Writes the lines of the names, black's first.
    pub(crate) fn write_names(&self, out: &mut Vec<u8>) -> Result<(), OutOfMemory>
        ensures { OnOk result (out.new.items ≡ out.old.items
            ++ flat_map ended_line
            (name_items Black self.now.black ++ name_items White self.now.white)) }
    {
        self.write_name(out, Color::Black)?;
        self.write_name(out, Color::White)
    }

    fn write_name(&self, out: &mut Vec<u8>, color: Color) -> Result<(), OutOfMemory>
        ensures { OnOk result
            (out.new.items
            ≡ out.old.items ++ flat_map ended_line (name_items color (name_of self.now color))) }
    {
        let Some(name) = self.name(color) else {
            return Ok(());
        };
        write_name(out, color, name)?;
        out.push(b'\n')?;
        Ok(())
    }

    // Writes the lines of the headers, in the order of their keys.
    pub(crate) fn write_headers(&self, out: &mut Vec<u8>) -> Result<(), OutOfMemory>
        ensures { OnOk result
            (out.new.items
            ≡ out.old.items ++ flat_map ended_line (map header_item self.now.headers)) }
    {
        write_entries(out, &self.headers)
    }
}

// Sets a name that is not set yet.
fn fill_name(alloc: Global, name: &mut Option<Vec<u8>>, text: &[u8]) -> Result<(), Why>
    ensures ok { OnOk result
        ((name_bytes name.old ≡ None) × (name_bytes name.new ≡ Some text.now)) }
    ensures why { IfErr result
        (λ why. (why ≡ Why.Order OrderFault.RepeatedName) × (is_some (name_bytes name.old) ≡ true)
        ⊎ (why ≡ Why.OutOfMemory) × (name_bytes name.old ≡ None)) }
    ensures unchanged { OnErr result (name.new ≡ name.old) }
{
    if name.is_some() {
        return Err(Why::Order(OrderFault::RepeatedName));
    }
    *name = Some(copied(alloc, text)?);
    Ok(())
}

// A copy of the bytes.
fn copied(alloc: Global, bytes: &[u8]) -> Result<Vec<u8>, Why>
    ensures ok { IfOk result (λ copy. copy.items ≡ bytes.now) }
    ensures err { IfErr result (λ why. why ≡ Why.OutOfMemory) }
{
    Ok(Vec::from_slice(alloc, bytes)?)
}

// The value that the text spells for this key.
fn value_under(alloc: Global, key: &[u8], text: &[u8]) -> Result<HeaderText, Why>
    ensures ok { IfOk result (λ value. IsValue key.now text.now (text_of value)) }
    ensures err { IfErr result (λ why. why ≡ Why.OutOfMemory) }
{
    match moment_under(key, text) {
        Some(moment) => Ok(HeaderText::Moment(moment)),
        None => Ok(HeaderText::Plain(copied(alloc, text)?)),
    }
}

// The moment that the text spells, if the key may have one.
fn moment_under(key: &[u8], text: &[u8]) -> Option<Moment>
    ensures { MatchOption result
        (IsMomentKey key.now → (m : CalendarMoment) → SpellsMoment text.now m → ⊥)
        (λ m. IsMomentKey key.now × SpellsMoment text.now (moment_of m)) }
{
    if !is_moment_key(key) {
        return None;
    }
    read_moment(text)
}

// Whether this key may have a moment as its value.
fn is_moment_key(key: &[u8]) -> bool
    ensures { IsTrue result ↔ IsMomentKey key.now }
{
    key == b"START_TIME".as_slice() || key == b"END_TIME".as_slice()
}

fn write_entries(out: &mut Vec<u8>, headers: &Headers) -> Result<(), OutOfMemory>
    ensures { OnOk result
        (out.new.items
        ≡ out.old.items ++ flat_map ended_line (map header_item (entries_of headers.now.entries))) }
{
    for (key, text) in headers {
        write_entry(out, key.as_slice(), text)?;
        out.push(b'\n')?;
    }
    Ok(())
}

fn write_entry(out: &mut Vec<u8>, key: &[u8], text: &HeaderText) -> Result<(), OutOfMemory>
    ensures { OnOk result
        (out.new.items
        ≡ out.old.items ++ statement_of (header key.now (value_text (text_of text.now)))) }
{
    match text {
        HeaderText::Moment(moment) => write_header(out, key, moment.text().as_bytes()),
        HeaderText::Plain(bytes) => write_header(out, key, bytes.as_slice()),
    }
}
