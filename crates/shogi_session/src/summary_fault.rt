/// Why the lines of a game summary offer no game.
#[derive(Clone, Copy, Debug, PartialEq, Eq)]
pub enum SummaryFault {
    /// A block that `BEGIN` began was not ended.
    OpenBlock,
    /// A player's name has more than 4,094 bytes.
    LongName,
    /// `Your_Turn:` is missing, or names no side.
    NoTurn,
    /// There is no block `BEGIN Position`.
    NoPosition,
    /// There are several blocks `BEGIN Position`.
    SeveralPositions,
    /// The lines of the block `BEGIN Position` are no start position with legal moves, or other
    /// statements stand among them.
    BadPosition,
}
