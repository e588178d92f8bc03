use shogi_rules::Move;

/// How far a bridge is with its engine.
#[derive(Clone, Copy, Debug, PartialEq, Eq)]
pub enum EngineState {
    /// It was sent nothing.
    New,
    /// It was sent `usi`.
    Greeting,
    /// It was sent `isready`.
    Readying,
    /// It waits for a position.
    Ready,
    /// It was asked for a move.
    Thinking,
    /// It was sent `quit`.
    Ended,
}

/// How far a bridge is with its server, whose client it is.
#[derive(Clone, Copy, Debug, PartialEq, Eq)]
pub enum ClientState {
    /// The engine is not ready yet.
    Idle,
    /// `LOGIN` was sent.
    LoggingIn,
    /// It is logged in, and waits for the whole summary of a game.
    Summary,
    /// `AGREE` was sent.
    Agreeing,
    /// The game is in play.
    Playing,
    /// A move, `%TORYO` or `%KACHI` was sent.
    Sent,
    /// The server sent an ending or a reason.
    Reason,
    /// The server sent a result, and `LOGOUT` was sent.
    Closing,
    /// The session is over.
    Ended,
}

/// Which side a bridge waits for.
#[derive(Clone, Copy, Debug, PartialEq, Eq)]
pub enum Waits {
    Engine,
    Server,
    Nobody,
}

/// What a bridge sent the server as its engine's answer.
#[derive(Clone, Copy, Debug, PartialEq, Eq)]
pub enum Answer {
    /// This move.
    Move(Move),
    /// `%TORYO`.
    Toryo,
    /// `%KACHI`.
    Kachi,
}
