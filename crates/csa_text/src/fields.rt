ghost use Rattle.std.specs.Prelude.{◌≡◌, ℕ, ◌+◌, ◌*◌, ◌<◌, ◌≤◌, ◌^◌, length, MatchOption, IfSome};
ghost use Rattle.csa_text.specs.Fields.{IsNumber, HasNone, IsSplit};

// What comes before the first byte of this value, and what follows it.
pub(crate) fn split_at_byte(bytes: &[u8], mark: u8) -> Option<(&[u8], &[u8])>
    ensures { MatchOption result (HasNone mark bytes.now)
        (λ r. IsSplit mark bytes.now r.0.now r.1.now) }
{
    let at = bytes.iter().position(|b| *b == mark)?;
    Some((&bytes[..at], &bytes[at + 1..]))
}

// The number that the bytes spell, if they are that many decimal digits: at least `fewest`, at most
// `most`.
pub(crate) fn read_number(bytes: &[u8], fewest: usize, most: usize) -> Option<u16>
    requires { most ≤ 4 }
    ensures value { MatchOption result
        ((value : ℕ) → IsNumber fewest most bytes.now value → ⊥)
        (λ value. IsNumber fewest most bytes.now value) }
    ensures bound { IfSome result (λ value. value < 10 ^ most) }
{
    if bytes.len() < fewest || most < bytes.len() {
        return None;
    }
    Some(read_digits(bytes)? as u16)
}

// The number that the bytes spell in decimal digits, 0 if there are none, or `None` if it is above
// 4,294,967,295.
pub(crate) fn read_digits(bytes: &[u8]) -> Option<u32>
    ensures { MatchOption result
        ((value : ℕ) → IsNumber 0 (length bytes.now) bytes.now value → 4294967295 < value)
        (λ value. IsNumber 0 (length bytes.now) bytes.now value × (value ≤ 4294967295)) }
{
    let mut value = 0u32;
    for b in bytes {
        let digit = (*b as char).to_digit(10)?;
        value = with_digit(value, digit)?;
    }
    Some(value)
}

// The number with one more digit at its end, or `None` if it is above 4,294,967,295.
fn with_digit(number: u32, digit: u32) -> Option<u32>
    ensures { MatchOption result (4294967295 < number * 10 + digit)
        (λ n. (n ≡ number * 10 + digit) × (n ≤ 4294967295)) }
{
    number.checked_mul(10)?.checked_add(digit)
}
