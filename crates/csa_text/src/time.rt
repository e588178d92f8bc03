ghost use Rattle.std.specs.Prelude.{◌≡◌, ℕ, ◌+◌, ◌<◌, ◌++◌, codes, MatchOption, IfSome, OnOk};
ghost use Rattle.csa_text.specs.TimeTexts.{IsSeconds, IsFraction, IsTime, time_text, fraction_text};

use crate::fields::{read_digits, read_number, split_at_byte};
use itoa::Buffer;
use shogi_board::OutOfMemory;

// The time that the text after `T` spells, in thousandths of a second: whole seconds up to
// 4,294,967,295, and optionally a point and one to three digits.
#[inline(always)]
pub(crate) fn read_time(text: &[u8]) -> Option<u64>
    ensures { MatchOption result
        ((thousandths : ℕ) → IsTime text.now thousandths → ⊥)
        (λ thousandths. IsTime text.now thousandths) }
{
    if let Some(seconds) = read_seconds(text) {
        return Some(seconds as u64 * 1000);
    }
    let (digits, following) = split_at_byte(text, b'.')?;
    let seconds = read_seconds(digits)?;
    let fraction = read_fraction(following)?;
    Some(seconds as u64 * 1000 + fraction as u64)
}

// The number that one or more digits spell, or `None` if it is above 4,294,967,295.
fn read_seconds(digits: &[u8]) -> Option<u32>
    ensures { MatchOption result
        ((seconds : ℕ) → IsSeconds digits.now seconds → ⊥)
        (λ seconds. IsSeconds digits.now seconds) }
{
    if digits.is_empty() {
        return None;
    }
    read_digits(digits)
}

// The thousandths that one to three digits after the point spell.
fn read_fraction(digits: &[u8]) -> Option<u16>
    ensures value { MatchOption result
        ((thousandths : ℕ) → IsFraction digits.now thousandths → ⊥)
        (λ thousandths. IsFraction digits.now thousandths) }
    ensures bound { IfSome result (λ thousandths. thousandths < 1000) }
{
    let value = read_number(digits, 1, 3)?;
    Some(match digits.len() {
        1 => value * 100,
        2 => value * 10,
        _ => value,
    })
}

/// Adds the statement of a time in thousandths of a second: `T` and the seconds, without leading
/// zeros in them or trailing zeros after the point.
///
/// Returns `OutOfMemory` if an allocation fails.
#[inline(always)]
pub fn write_time(out: &mut Vec<u8>, thousandths: u64) -> Result<(), OutOfMemory>
    ensures added { OnOk result
        (out.new.items ≡ out.old.items ++ (codes "T" ++ time_text thousandths)) }
{
    let seconds = thousandths / 1000;
    if seconds >= 100 || thousandths % 1000 > 0 {
        return write_any_time(out, thousandths);
    }
    // most moves take whole seconds, and fewer than a hundred
    if seconds < 10 {
        out.extend_from_slice(&[b'T', digit(seconds)])?;
    } else {
        out.extend_from_slice(&[b'T', digit(seconds / 10), digit(seconds % 10)])?;
    }
    Ok(())
}

// As `write_time`, for any time.
#[inline(never)]
fn write_any_time(out: &mut Vec<u8>, thousandths: u64) -> Result<(), OutOfMemory>
    ensures { OnOk result
        (out.new.items ≡ out.old.items ++ (codes "T" ++ time_text thousandths)) }
{
    let mut buffer = Buffer::new();
    out.push(b'T')?;
    out.extend_from_slice(buffer.format(thousandths / 1000).as_bytes())?;
    write_fraction(out, thousandths % 1000)?;
    Ok(())
}

// A point and up to three digits, without trailing zeros; nothing for 0.
fn write_fraction(out: &mut Vec<u8>, n: u64) -> Result<(), OutOfMemory>
    requires { n < 1000 }
    ensures { OnOk result (out.new.items ≡ out.old.items ++ fraction_text n) }
{
    if n == 0 {
        return Ok(());
    }
    if n % 100 == 0 {
        out.extend_from_slice(&[b'.', digit(n / 100)])?;
    } else if n % 10 == 0 {
        out.extend_from_slice(&[b'.', digit(n / 100), digit(n / 10 % 10)])?;
    } else {
        out.extend_from_slice(&[b'.', digit(n / 100), digit(n / 10 % 10), digit(n % 10)])?;
    }
    Ok(())
}

fn digit(n: u64) -> u8
    requires { n < 10 }
    ensures { result ≡ 48 + n }
{
    b'0' + n as u8
}
