ghost use Rattle.std.specs.Prelude.{ℕ, ◌<◌, ◌≤◌, length, slice_index, true, false};

// How many bytes at the front of the text pass the test.
#[inline(always)]
pub(crate) fn front_length<F: Fn(u8) -> bool>(text: &[u8], passes: F) -> usize
    requires { F.IsAlwaysCallable passes }
    ensures within { result ≤ length text.now }
    ensures front { (k : ℕ) → k < result → F.post passes (slice_index text.now k) true }
    ensures next { result < length text.now → F.post passes (slice_index text.now result) false }
{
    for (i, b) in text.iter().enumerate() {
        if !passes(*b) {
            return i;
        }
    }
    text.len()
}
