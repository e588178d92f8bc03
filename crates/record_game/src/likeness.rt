/// What two games must have in common to be taken for one.
#[derive(Clone, Copy, Debug, PartialEq, Eq)]
pub enum Likeness {
    /// The whole game: names, headers, start, moves, times and ending. Their canonical texts are
    /// equal.
    Game,
    /// The start, with its side to move, and the moves.
    Moves,
}
