use crate::fault::SessionFault;
use session_lines::Lines;

/// What happens to a bridge. Lines have no line end.
#[derive(Clone, Copy, Debug, PartialEq, Eq)]
pub enum Event<'a> {
    /// The session begins.
    Begin,
    /// The engine sent this line.
    EngineLine(&'a [u8]),
    /// The server sent this line.
    ServerLine(&'a [u8]),
    /// The engine is gone, or reading from it or writing to it failed.
    EngineEnd,
    /// The server is gone, or reading from it or writing to it failed.
    ServerEnd,
    /// A line of the engine exceeded the limit.
    EngineLong,
    /// A line of the server exceeded the limit.
    ServerLong,
}

/// The state of a session after an event.
#[derive(Clone, Copy, Debug, PartialEq, Eq)]
pub enum Status {
    /// The session goes on.
    Going,
    /// It ended as it should.
    Done,
    /// It failed.
    Failed(SessionFault),
    /// It failed for lack of memory.
    Lost,
}

/// A bridge's answer to an event.
#[derive(Drop)]
pub struct Out {
    /// The lines to send to the engine.
    pub to_engine: Lines,
    /// The lines to send to the server, after those to the engine.
    pub to_server: Lines,
    /// The state of the session now.
    pub status: Status,
}
