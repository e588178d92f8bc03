ghost use Rattle.std.specs.Prelude.{◌≡◌, ◌++◌, option_map};
ghost use Rattle.hash_comments.specs.Hashes.{hashes_read, text_read};
ghost use Rattle.hash_comments.specs.PieceSteps.{place_after_bytes};
ghost use Rattle.hash_comments.specs.declared.place.Place.TheVariants as place;

use crate::place::Place;
use std::io;
use std::io::Read;

/// How a line that begins with `#` is read.
#[derive(Clone, Copy, PartialEq, Eq)]
pub enum HashLines {
    /// As it is: a reader of CSA records then refuses it.
    Refused,
    /// As a comment: its `#` is read as `'`.
    Comments,
}

/// The bytes of a reader, with lines from `#` read as they are or as comments.
#[derive(Drop)]
pub struct HashComments<R> {
    inner: R,
    hash_lines: HashLines,
    place: Place,
}

impl<R: Read> HashComments<R> {
    /// Creates a reader of what `inner` gives from here on, which is the beginning of the text.
    pub fn new(inner: R, hash_lines: HashLines) -> HashComments<R>
        ensures text { ⟦<HashComments<R> as Read>⟧.remaining result
            ≡ option_map (text_read hash_lines) (R.remaining inner) }
        ensures inner { result.inner ≡ inner }
        ensures hash_lines { result.hash_lines ≡ hash_lines }
        ensures place { result.place ≡ place.Front }
    {
        HashComments {
            inner,
            hash_lines,
            place: Place::Front,
        }
    }
}

impl<R: Read> Read for HashComments<R> {
    ghost use Rattle.std.specs.Option.{option_map};
    ghost use Rattle.hash_comments.specs.Hashes.{bytes_read};

    ghost remaining = { λ c. option_map (bytes_read c.hash_lines c.place) (R.remaining c.inner) };

    fn read(&mut self, buf: &mut [u8]) -> io::Result<usize> {
        let taken = self.inner.read(buf)?;
        if self.hash_lines == HashLines::Comments {
            self.place = read_hashes(&mut buf[..taken], self.place);
        }
        Ok(taken)
    }
}

// Reads the `#` in a piece of the text that begins at that place. Returns the place after it.
fn read_hashes(piece: &mut [u8], place: Place) -> Place
    ensures bytes { piece.new ≡ hashes_read place piece.old }
    ensures place { result ≡ place_after_bytes place piece.old }
{
    let mut here = place;
    for at in 0..piece.len() {
        let byte = piece[at];
        piece[at] = here.read(byte);
        here = here.after(byte);
    }
    here
}
