ghost use Rattle.std.specs.Prelude.{◌≡◌, ◌∷◌, IfOk, IfErr};
ghost use Rattle.csa_text.specs.Codes.{sign};
ghost use Rattle.csa_text.specs.Saying.{Saying, saying_of};
ghost use Rattle.csa_text.specs.Spelling.{Spells, fault_of_row};
ghost use Rattle.csa_text.specs.ItemReading.{IsRead};

use crate::ending::{Ending, read_ending};
use crate::fault::TextFault;
use crate::fields::split_at_byte;
use crate::moved::read_move;
use crate::pairs::Pairs;
use crate::rank::read_rank;
use crate::time::read_time;
use shogi_board::{Color, Move, Piece};

/// What a statement says. It borrows from the statement.
#[derive(Clone, Copy, Debug, PartialEq, Eq)]
pub enum Item<'a> {
    /// `V2`, `V2.1` or `V2.2`.
    Version,
    /// `N+` or `N-`, and the name, which may be empty.
    Name(Color, &'a [u8]),
    /// `$`, the key, `:` and the text. The key is not empty and ends at the first colon.
    Header(&'a [u8], &'a [u8]),
    /// `PI`: the even start, without the pieces of the pairs. Each pair is a square and a kind.
    Even(Pairs<'a>),
    /// `P1` to `P9`: the number of the rank, and its cells from file 9 to file 1.
    Rank(u8, [Option<Piece>; 9]),
    /// `P+` or `P-`: pieces of that side.
    Pieces(Color, Pairs<'a>),
    /// `+` or `-` alone: the side to move.
    Turn(Color),
    /// A move by that side, `+7776FU`, or a drop, `+0055FU`. Any of the 14 kinds may occur in it.
    Walked(Color, Move),
    /// `T` and the time that the preceding move or ending took, in thousandths of a second.
    Time(u64),
    /// `%` and how the game ended.
    Ending(Ending),
}

/// Reads the bytes of one `Statement` as an item of CSA V2.2.
///
/// Refuses bytes that are no item, by how they begin:
///
/// - `BadVersion` for `V`;
/// - `BadHeader` for `$`;
/// - `BadPosition` for `PI`, `P+`, `P-` and `P1` to `P9`;
/// - `BadMove` for `+` and `-`;
/// - `BadTime` for `T`;
/// - `UnknownEnding` for `%`;
/// - `Unknown` for anything else.
///
/// Never returns `StatementTooLong`, which is for the cutter to report.
#[inline(always)]
pub fn read_item(bytes: &[u8]) -> Result<Item<'_>, TextFault>
    ensures item { IfOk result (λ item. Spells bytes.now (saying_of item)) }
    ensures none { IfErr result (λ fault. (saying : Saying) → Spells bytes.now saying → ⊥) }
    ensures fault { IfErr result (λ fault. fault ≡ fault_of_row bytes.now) }
{
    match bytes {
        [b'V', number @ ..] => read_version(number),
        [b'N', name @ ..] => read_name(name),
        [b'$', line @ ..] => read_header(line),
        [b'P', start @ ..] => read_position(start),
        [b'+', squares @ ..] => read_signed(Color::Black, squares),
        [b'-', squares @ ..] => read_signed(Color::White, squares),
        [b'T', text @ ..] => read_time_item(text),
        [b'%', name @ ..] => read_ending_item(name),
        _ => Err(TextFault::Unknown),
    }
}

// After `V`.
fn read_version(number: &[u8]) -> Result<Item<'_>, TextFault>
    ensures { IsRead (86 ∷ number.now) result }
{
    match number {
        b"2" | b"2.1" | b"2.2" => Ok(Item::Version),
        _ => Err(TextFault::BadVersion),
    }
}

// After `N`.
fn read_name(name: &[u8]) -> Result<Item<'_>, TextFault>
    ensures { IsRead (78 ∷ name.now) result }
{
    match name {
        [b'+', text @ ..] => Ok(Item::Name(Color::Black, text)),
        [b'-', text @ ..] => Ok(Item::Name(Color::White, text)),
        _ => Err(TextFault::Unknown),
    }
}

// After `$`.
fn read_header(line: &[u8]) -> Result<Item<'_>, TextFault>
    ensures { IsRead (36 ∷ line.now) result }
{
    let (key, text) = split_at_byte(line, b':').ok_or(TextFault::BadHeader)?;
    if key.is_empty() {
        return Err(TextFault::BadHeader);
    }
    Ok(Item::Header(key, text))
}

// After `P`.
fn read_position(start: &[u8]) -> Result<Item<'_>, TextFault>
    ensures { IsRead (80 ∷ start.now) result }
{
    match start {
        [b'I', pairs @ ..] => read_even(pairs),
        [b'+', pairs @ ..] => read_pieces(Color::Black, pairs),
        [b'-', pairs @ ..] => read_pieces(Color::White, pairs),
        [number @ b'1'..=b'9', cells @ ..] => {
            let cells = read_rank(cells).ok_or(TextFault::BadPosition)?;
            Ok(Item::Rank(*number - b'0', cells))
        }
        _ => Err(TextFault::Unknown),
    }
}

// After `PI`.
fn read_even(pairs: &[u8]) -> Result<Item<'_>, TextFault>
    ensures { IsRead (80 ∷ 73 ∷ pairs.now) result }
{
    let pairs = Pairs::read(pairs).ok_or(TextFault::BadPosition)?;
    if !pairs.are_on_board() {
        return Err(TextFault::BadPosition);
    }
    Ok(Item::Even(pairs))
}

// After `P` and the sign.
fn read_pieces(color: Color, pairs: &[u8]) -> Result<Item<'_>, TextFault>
    ensures { IsRead (80 ∷ sign color ∷ pairs.now) result }
{
    let pairs = Pairs::read(pairs).ok_or(TextFault::BadPosition)?;
    Ok(Item::Pieces(color, pairs))
}

// After a sign.
fn read_signed(color: Color, squares: &[u8]) -> Result<Item<'_>, TextFault>
    ensures { IsRead (sign color ∷ squares.now) result }
{
    if squares.is_empty() {
        return Ok(Item::Turn(color));
    }
    let m = read_move(squares).ok_or(TextFault::BadMove)?;
    Ok(Item::Walked(color, m))
}

// After `T`.
#[inline(always)]
fn read_time_item(text: &[u8]) -> Result<Item<'_>, TextFault>
    ensures { IsRead (84 ∷ text.now) result }
{
    let thousandths = read_time(text).ok_or(TextFault::BadTime)?;
    Ok(Item::Time(thousandths))
}

// After `%`.
fn read_ending_item(name: &[u8]) -> Result<Item<'_>, TextFault>
    ensures { IsRead (37 ∷ name.now) result }
{
    let ending = read_ending(name).ok_or(TextFault::UnknownEnding)?;
    Ok(Item::Ending(ending))
}
