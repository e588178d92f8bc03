use crate::offer::GameOffer;
use crate::summary_reader::SummaryReader;
use bridge_table::Answer;
use csa_record::Record;
use session_lines::server_words::{EndReason, GameResult};
use shogi_board::Color;

// What the server has said of a game's end, apart from the ending, which the game has.
#[derive(Clone, Copy)]
pub(crate) struct EndReport {
    // Whether the server sent the game's ending.
    pub(crate) ending: bool,
    pub(crate) reason: Option<EndReason>,
}

// How far a game is, from its start on.
#[derive(Clone, Copy)]
pub(crate) enum GameStage {
    Playing,
    Sent(Answer),
    Reason(EndReport),
    Closing(EndReport, GameResult),
    Ended(EndReport, GameResult),
}

// A game that has started: its confirmed moves, its ending as far as that is known, and whether the
// engine slipped.
#[derive(Drop)]
pub(crate) struct Play {
    pub(crate) client: Color,
    pub(crate) game: Record,
    pub(crate) slip: bool,
    pub(crate) stage: GameStage,
}

// How far a bridge is with its server.
#[derive(Drop)]
pub(crate) enum Phase {
    Idle,
    LoggingIn,
    BeforeSummary,
    Summary(SummaryReader),
    Agreeing(GameOffer),
    InGame(Play),
}
