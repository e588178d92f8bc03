//! What reading `#` as `'` does, said by the places of a text.

ghost use Rattle.std.specs.Prelude.{◌≡◌, ℕ, ◌<◌, List, length, slice_index};
ghost use Rattle.hash_comments.specs.Hashes.{text_read};
ghost use Rattle.hash_comments.specs.Places.{IsReadAs};
ghost use Rattle.hash_comments.specs.declared.comments.HashLines.TheVariants.{Comments, Refused};

/// No byte moves. With `Comments` only a `#` that begins a line is read as another byte, as `'`.
/// With `Refused` none is.
pub fn read_by_places()
    ensures length { (bytes : List ℕ) → length (text_read Comments bytes) ≡ length bytes }
    ensures comments { (bytes : List ℕ) (k : ℕ) → k < length bytes
        → IsReadAs bytes k (slice_index (text_read Comments bytes) k) }
    ensures refused { (bytes : List ℕ) → text_read Refused bytes ≡ bytes }
{}
