use arrayvec::ArrayString;
use shogi_board::Color;

/// The game that a host offers.
#[derive(Clone, Copy, Debug)]
pub struct HostConfig {
    /// The client's side.
    pub client: Color,
    /// The number of moves after which the game ends, 1 to 10,000.
    pub max_moves: u32,
    /// The game's name: 1 to 32 bytes from 0x21 to 0x7E.
    pub id: ArrayString<32>,
    /// The host's name: 1 to 32 bytes from 0x21 to 0x7E.
    pub name: ArrayString<32>,
}
