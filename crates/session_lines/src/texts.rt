//! The texts that make up the lines of the CSA server protocol.

ghost use Rattle.std.specs.Prelude.{◌≡◌, ◌↔◌, IsTrue};

// The CSA server protocol: what a client sends.

/// A client logs in: name and password follow.
pub const LOGIN: &[u8] = b"LOGIN";

/// A client agrees to a game.
pub const AGREE: &[u8] = b"AGREE";

/// A client rejects a game.
pub const REJECT: &[u8] = b"REJECT";

/// A client resigns.
pub const TORYO: &[u8] = b"%TORYO";

/// A client declares its win by points.
pub const KACHI: &[u8] = b"%KACHI";

/// A client logs out.
pub const LOGOUT: &[u8] = b"LOGOUT";

// What a server answers to these: whole lines, and the parts of others.

/// How the answer to a login begins.
pub const LOGIN_ANSWER: &[u8] = b"LOGIN:";

/// How the answer to an accepted login ends.
pub const OK: &[u8] = b" OK";

/// The answer to a refused login.
pub const LOGIN_INCORRECT: &[u8] = b"LOGIN:incorrect";

/// How the line that starts a game begins.
pub const START: &[u8] = b"START:";

/// How the line that reports a rejected game begins.
pub const REJECTED: &[u8] = b"REJECT:";

/// Comes before the name of who rejected the game.
pub const BY: &[u8] = b" by ";

/// Comes between a text and its seconds.
pub const TIME: &[u8] = b",T";

/// The answer to a logout.
pub const LOGOUT_COMPLETED: &[u8] = b"LOGOUT:completed";

// Its reasons.

/// A side resigned.
pub const RESIGN: &[u8] = b"#RESIGN";

/// A side's time has run out.
pub const TIME_UP: &[u8] = b"#TIME_UP";

/// A side made an illegal move.
pub const ILLEGAL_MOVE: &[u8] = b"#ILLEGAL_MOVE";

/// A position has occurred for the fourth time.
pub const SENNICHITE: &[u8] = b"#SENNICHITE";

/// A position has occurred for the fourth time, by perpetual check.
pub const OUTE_SENNICHITE: &[u8] = b"#OUTE_SENNICHITE";

/// A side declared its win by points.
pub const JISHOGI: &[u8] = b"#JISHOGI";

/// The game has as many moves as it may have.
pub const MAX_MOVES: &[u8] = b"#MAX_MOVES";

// Its results.

/// The client has won.
pub const WIN: &[u8] = b"#WIN";

/// The client has lost.
pub const LOSE: &[u8] = b"#LOSE";

/// The game is drawn.
pub const DRAW: &[u8] = b"#DRAW";

/// The game is over and counts for neither side.
pub const CENSORED: &[u8] = b"#CENSORED";

/// The game was broken off.
pub const CHUDAN: &[u8] = b"#CHUDAN";

// Its game summary.

/// How the first line of a block of the summary begins.
pub const BEGIN: &[u8] = b"BEGIN ";

/// How the last line of a block begins.
pub const END: &[u8] = b"END ";

/// The first line of the summary.
pub const BEGIN_SUMMARY: &[u8] = b"BEGIN Game_Summary";

/// The last line of the summary.
pub const END_SUMMARY: &[u8] = b"END Game_Summary";

/// The title of the block with the start position.
pub const POSITION_TITLE: &[u8] = b"Position";

/// The first line of that block.
pub const BEGIN_POSITION: &[u8] = b"BEGIN Position";

/// The last line of that block.
pub const END_POSITION: &[u8] = b"END Position";

/// The game's name follows.
pub const GAME_ID: &[u8] = b"Game_ID:";

/// Black's name follows.
pub const BLACK_NAME: &[u8] = b"Name+:";

/// White's name follows.
pub const WHITE_NAME: &[u8] = b"Name-:";

/// The client's side follows.
pub const YOUR_TURN: &[u8] = b"Your_Turn:";

/// Black moves first.
pub const BLACK_TO_MOVE: &[u8] = b"To_Move:+";

/// The most moves that the game may have follow.
pub const MOST_MOVES: &[u8] = b"Max_Moves:";

/// The even start.
pub const EVEN_START: &[u8] = b"PI";

/// Black's sign.
pub const BLACK: &[u8] = b"+";

/// White's sign.
pub const WHITE: &[u8] = b"-";

/// Separates words.
pub const SPACE: &[u8] = b" ";

/// Whether the two texts are equal.
pub fn is_same(text: &[u8], wanted: &[u8]) -> bool
    ensures answer { IsTrue result ↔ (text.now ≡ wanted.now) }
{
    text == wanted
}
