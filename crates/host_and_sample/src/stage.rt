use arrayvec::ArrayVec;
use session_lines::Lines;
use shogi_rules::Line;

// A host's state.
#[derive(Drop)]
pub(crate) enum HostStage {
    // Before login.
    Waiting,
    // After the summary, with the client's name.
    Offering(ArrayVec<u8, 32>),
    // The client is to move.
    Playing(Line),
    // After a result.
    Decided,
    Ended,
}

// The stage after a line, and the answer to it.
#[derive(Drop)]
pub(crate) struct HostReply {
    pub(crate) stage: HostStage,
    pub(crate) lines: Lines,
}
