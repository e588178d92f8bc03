use thiserror::Error;

/// The rules that a move may break, in the order in which the first broken one is named.
#[derive(Clone, Copy, Debug, PartialEq, Eq, PartialOrd, Ord, Error)]
pub enum Rule {
    /// The mover is not the side to move.
    #[error("rule 1 WrongSide")]
    WrongSide,
    /// The position occurs for the fourth time, and the game is over.
    #[error("rule 2 RepetitionOver")]
    RepetitionOver,
    /// The square left has no piece of the mover, or the hand has none of the kind that is dropped.
    #[error("rule 3 NoPiece")]
    NoPiece,
    /// The kind after a walk is neither that of the piece nor its promoted kind.
    #[error("rule 4 WrongKind")]
    WrongKind,
    /// An own piece is on the target; for a drop, any piece.
    #[error("rule 5 Occupied")]
    Occupied,
    /// The piece that walks does not reach the target.
    #[error("rule 6 CannotReach")]
    CannotReach,
    /// A piece promotes on a walk that neither starts nor ends in the mover's last three ranks.
    #[error("rule 7 BadPromotion")]
    BadPromotion,
    /// A pawn, lance or knight would be unpromoted where it has no further move.
    #[error("rule 8 MustPromote")]
    MustPromote,
    /// A pawn is put on a file that holds an own unpromoted pawn.
    #[error("rule 9 DoubledPawn")]
    DoubledPawn,
    /// The mover's king is attacked afterwards.
    #[error("rule 10 LeavesKing")]
    LeavesKing,
    /// A pawn put down mates.
    #[error("rule 11 PawnDropMate")]
    PawnDropMate,
}
