//! The number of a port in decimal.

ghost use Rattle.std.specs.Prelude.{◌≡◌, ℕ, MatchOption, decimal};
ghost use Rattle.session_setup.specs.Ports.{IsPort};

use itoa::Buffer;
use std::str;

/// The port with these digits, if they are exactly how its number is written: from 1 to 65,535 in
/// decimal, without a sign or zeros before it.
pub fn port_in(digits: &[u8]) -> Option<u16>
    ensures { MatchOption result ((port : ℕ) → IsPort port → digits.now ≡ decimal port → ⊥)
        (λ port. IsPort port × (digits.now ≡ decimal port)) }
{
    let Ok(text) = str::from_utf8(digits) else {
        return None;
    };
    let Ok(port) = text.parse::<u16>() else {
        return None;
    };
    if port == 0 {
        return None;
    }
    let mut written = Buffer::new();
    if written.format(port) != text {
        return None;
    }
    Some(port)
}
