use arrayvec::ArrayString;

/// How a bridge logs in, and the clocks that it gives its engine.
#[derive(Clone, Copy, Debug)]
pub struct Config {
    /// The name to log in with: 1 to 32 bytes from 0x21 to 0x7E.
    pub name: ArrayString<32>,
    /// The password to log in with: 1 to 32 bytes from 0x21 to 0x7E.
    pub password: ArrayString<32>,
    /// Each side's time for the whole game, in milliseconds.
    pub total_ms: u32,
    /// The time for each move once that is used up, in milliseconds.
    pub byoyomi_ms: u32,
}
