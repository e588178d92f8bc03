ghost use Rattle.std.specs.Prelude.{◌≡◌};
ghost use Rattle.hash_comments.specs.Hashes.{byte_read, place_after};

// Where the next byte of a text is.
#[derive(Clone, Copy)]
pub enum Place {
    // At the front of the text.
    Front,
    // After the first byte of a byte order mark at the front.
    AfterOneOfMark,
    // After the first two bytes of a byte order mark at the front.
    AfterTwoOfMark,
    // After a byte order mark at the front, or after a byte that ends a line.
    LineStart,
    // Within a line.
    Within,
}

impl Place {
    // Where the byte after this one is.
    pub fn after(self, byte: u8) -> Place
        ensures value { result ≡ place_after self byte }
    {
        match (self, byte) {
            (_, b'\n' | b'\r') => Place::LineStart,
            (Place::Front, 0xEF) => Place::AfterOneOfMark,
            (Place::AfterOneOfMark, 0xBB) => Place::AfterTwoOfMark,
            (Place::AfterTwoOfMark, 0xBF) => Place::LineStart,
            _ => Place::Within,
        }
    }

    // This byte, or `'` for a `#` that begins a line.
    pub fn read(self, byte: u8) -> u8
        ensures value { result ≡ byte_read self byte }
    {
        match (self, byte) {
            (Place::Front | Place::LineStart, b'#') => b'\'',
            _ => byte,
        }
    }
}
