use record_game::Why;
use thiserror::Error;

/// Why a move from the server is not accepted.
#[derive(Clone, Copy, Debug, PartialEq, Eq, Error)]
pub enum MoveCause {
    /// The line is not one move, or the move may not be played.
    #[error("{0}")]
    Refused(Why),
    /// The move is of the client's side, but is not the move that was sent and waits for
    /// confirmation.
    #[error("Unsent")]
    Unsent,
}

/// Why a session failed. Each prints as its number and name, such as `B6 ServerGone`.
#[derive(Clone, Copy, Debug, PartialEq, Eq, Error)]
pub enum SessionFault {
    /// The server refused the name or the password.
    #[error("B1 LoginRefused")]
    LoginRefused,
    /// The game was rejected.
    #[error("B2 Rejected")]
    Rejected,
    /// The game summary describes no game.
    #[error("B3 BadSummary")]
    BadSummary,
    /// The server sent a move that is not accepted.
    #[error("B4 BadServerMove")]
    BadServerMove(MoveCause),
    /// The engine is gone.
    #[error("B5 EngineGone")]
    EngineGone,
    /// The server is gone.
    #[error("B6 ServerGone")]
    ServerGone,
    /// A line exceeded the limit.
    #[error("B7 LineTooLong")]
    LineTooLong,
}
