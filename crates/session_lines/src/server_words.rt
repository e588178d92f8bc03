//! What the lines of a CSA server mean, apart from moves.

ghost use Rattle.std.specs.Prelude.{◌≡◌, None, Some, MatchOption, bytes_eq};
ghost use Rattle.session_lines.specs.ServerLines.{is_ending_line, is_hash_line, is_login_ok, is_reject_line, is_start_line, outcome_of, reason_of};

use crate::texts;

/// How the game ended for the client.
#[derive(Clone, Copy, Debug, PartialEq, Eq)]
pub enum GameResult {
    /// `#WIN`.
    Win,
    /// `#LOSE`.
    Lose,
    /// `#DRAW`.
    Draw,
    /// `#CENSORED`.
    Censored,
    /// `#CHUDAN`.
    Chudan,
}

/// Why the game ended.
#[derive(Clone, Copy, Debug, PartialEq, Eq)]
pub enum EndReason {
    /// `#RESIGN`.
    Resign,
    /// `#TIME_UP`.
    TimeUp,
    /// `#ILLEGAL_MOVE`.
    IllegalMove,
    /// `#SENNICHITE`.
    Sennichite,
    /// `#OUTE_SENNICHITE`.
    OuteSennichite,
    /// `#JISHOGI`.
    Jishogi,
    /// `#MAX_MOVES`.
    MaxMoves,
    /// Any other line that begins with `#`.
    Other,
}

/// Whether the line begins with `LOGIN:` and ends with ` OK`.
pub fn is_login_ok(line: &[u8]) -> bool
    ensures value { result ≡ is_login_ok line.now }
{
    line.starts_with(texts::LOGIN_ANSWER) && line.ends_with(texts::OK)
}

/// Whether the line begins with `START:`.
pub fn is_start_line(line: &[u8]) -> bool
    ensures value { result ≡ is_start_line line.now }
{
    line.starts_with(texts::START)
}

/// Whether the line begins with `REJECT:`.
pub fn is_reject_line(line: &[u8]) -> bool
    ensures value { result ≡ is_reject_line line.now }
{
    line.starts_with(texts::REJECTED)
}

/// Whether the line begins with `%`: a resignation, a declaration or another ending.
pub fn is_ending_line(line: &[u8]) -> bool
    ensures value { result ≡ is_ending_line line.now }
{
    match line.first() {
        Some(b) => *b == b'%',
        None => false,
    }
}

/// Whether the line begins with `#`: a reason or a result.
pub fn is_hash_line(line: &[u8]) -> bool
    ensures value { result ≡ is_hash_line line.now }
{
    match line.first() {
        Some(b) => *b == b'#',
        None => false,
    }
}

/// The result that the line gives, or None if it is no result.
pub fn read_result(line: &[u8]) -> Option<GameResult>
    ensures value { MatchOption result
        (outcome_of line.now ≡ None)
        (λ r. outcome_of line.now ≡ Some r) }
{
    if is_text(line, texts::WIN) {
        Some(GameResult::Win)
    } else if is_text(line, texts::LOSE) {
        Some(GameResult::Lose)
    } else if is_text(line, texts::DRAW) {
        Some(GameResult::Draw)
    } else if is_text(line, texts::CENSORED) {
        Some(GameResult::Censored)
    } else if is_text(line, texts::CHUDAN) {
        Some(GameResult::Chudan)
    } else {
        None
    }
}

/// The reason that the line gives. A line that is no known reason gives `Other`.
pub fn read_reason(line: &[u8]) -> EndReason
    ensures value { result ≡ reason_of line.now }
{
    if is_text(line, texts::RESIGN) {
        EndReason::Resign
    } else if is_text(line, texts::TIME_UP) {
        EndReason::TimeUp
    } else if is_text(line, texts::ILLEGAL_MOVE) {
        EndReason::IllegalMove
    } else if is_text(line, texts::SENNICHITE) {
        EndReason::Sennichite
    } else if is_text(line, texts::OUTE_SENNICHITE) {
        EndReason::OuteSennichite
    } else if is_text(line, texts::JISHOGI) {
        EndReason::Jishogi
    } else if is_text(line, texts::MAX_MOVES) {
        EndReason::MaxMoves
    } else {
        EndReason::Other
    }
}

fn is_text(line: &[u8], text: &[u8]) -> bool
    ensures { result ≡ bytes_eq line.now text.now }
{
    line == text
}
