//! The texts of which lines to and from a USI engine are made. SFENs and moves are not among them.

// What an engine is sent.

/// The engine is to greet.
pub const USI: &[u8] = b"usi";

/// The engine is to get ready.
pub const IS_READY: &[u8] = b"isready";

/// A game begins.
pub const NEW_GAME: &[u8] = b"usinewgame";

/// The first word of a position line.
pub const POSITION: &[u8] = b"position";

/// How a position line begins; its start follows.
pub const POSITION_FRONT: &[u8] = b"position ";

/// The first word of a line that asks for a move.
pub const GO: &[u8] = b"go";

/// How a line that asks for a move with clocks begins; black's clock in milliseconds follows.
pub const GO_BLACK_TIME: &[u8] = b"go btime ";

/// White's clock in milliseconds follows.
pub const WHITE_TIME: &[u8] = b" wtime ";

/// The time for each move in milliseconds follows.
pub const BYOYOMI: &[u8] = b" byoyomi ";

/// The engine's side has won.
pub const GAME_WON: &[u8] = b"gameover win";

/// The engine's side has lost.
pub const GAME_LOST: &[u8] = b"gameover lose";

/// Neither side has won.
pub const GAME_DRAWN: &[u8] = b"gameover draw";

/// The engine is to quit.
pub const QUIT: &[u8] = b"quit";

// What an engine answers.

/// The engine's name.
pub const ID_NAME: &[u8] = b"id name shogi";

/// The engine's author.
pub const ID_AUTHOR: &[u8] = b"id author shogi";

/// The engine has greeted.
pub const USI_OK: &[u8] = b"usiok";

/// The engine is ready.
pub const READY_OK: &[u8] = b"readyok";

/// The first word of the line with the engine's move.
pub const BEST_MOVE_WORD: &[u8] = b"bestmove";

/// The engine's move follows.
pub const BEST_MOVE: &[u8] = b"bestmove ";

/// The engine resigns.
pub const NO_BEST_MOVE: &[u8] = b"bestmove resign";

/// In place of the move: the engine resigns.
pub const ENGINE_RESIGNS: &[u8] = b"resign";

/// In place of the move: the engine declares a win.
pub const ENGINE_WINS: &[u8] = b"win";
