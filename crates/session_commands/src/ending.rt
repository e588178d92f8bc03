//! How a session ended, in words for its log and for a terminal.

ghost use Rattle.std.specs.Prelude.{◌≡◌, ◌⊎◌, ◌↔◌, ◌<◌, ◌≤◌, ◌++◌, ◌∷◌, [], true, false, Some, IfOk, IsTrue, MatchOption, codes, length, string_bytes, take};
ghost use Rattle.bridge_table.specs.declared.event.Status.{Status};
ghost use Rattle.bridge_table.specs.declared.fault.SessionFault.{SessionFault};
ghost use Rattle.bridge_table.specs.declared.state.ClientState.{ClientState};
ghost use Rattle.csa_cutting.specs.Cut.{begins_with};
ghost use Rattle.session_commands.specs.Endings.{IsBeforeResult, IsEnding, IsReason, IsResult, SaysInGame, SaysOfEnd, cause_text, end_text, fault_line, gone_peer, kept_with, last_line, nothing_said, quoted, quoted_byte, refusal_verb, refused_line, result_line, result_lines, slip_lines, with_long};
ghost use Rattle.session_commands.specs.Words.{bad_summary_line, gone_line, long_line, slip_line, summary_words};
ghost use Rattle.session_commands.specs.declared.bridging.Peer.{Peer};
ghost use Rattle.session_commands.specs.declared.ending.EndEvent.{EndEvent};
ghost use Rattle.shogi_session.specs.State.{client_state, slip_of, summary};
ghost use Rattle.shogi_session.specs.Summary.{Offer, SummaryContent, TellsOffer};
ghost use Rattle.shogi_session.specs.SummaryFaults.{HasSummaryFault};

use crate::bridging::Peer;
use crate::fault_words::{match_words, session_words, why_words};
use arrayvec::ArrayString;
use record_game::Why;
use session_setup::MatchFault;
use shogi_session::{Bridge, ClientState, MoveCause, SessionFault, Status, SummaryFault};
use std::alloc::{AllocError, Global};
use std::marker::Model;

/// The front of a line; each byte that is no printable ASCII is `?`.
pub type Excerpt = ArrayString<256>;

// How many bytes of a line are quoted.
const LONGEST: usize = 256;

/// How far a bridge is.
#[derive(Clone, Copy)]
pub struct Snapshot {
    /// With its server.
    pub client: ClientState,
    /// Whether its engine has slipped.
    pub slip: bool,
    /// Why the summary that its server sends, so far, offers no game.
    pub summary: Option<SummaryFault>,
}

impl Snapshot {
    /// How far the bridge is now.
    pub fn of(bridge: &Bridge) -> Snapshot
        ensures client { result.client ≡ client_state bridge.now.state.client }
        ensures slip { result.slip ≡ slip_of bridge.now.state.client }
        ensures summary { MatchOption result.summary
            ((h : SummaryContent) → bridge.now.state.client ≡ summary h
            → (o : Offer) × TellsOffer h o)
            (HasSummaryFault bridge.now.state.client) }
    {
        Snapshot {
            client: bridge.client_state(),
            slip: bridge.slip(),
            summary: bridge.summary_fault(),
        }
    }
}

/// Why a line of the server failed the session.
#[derive(Clone, Copy)]
pub struct LineRefusal {
    /// The session's fault.
    pub fault: SessionFault,
    /// Why the summary offers no game, if the line ended one.
    pub summary: Option<SummaryFault>,
}

/// What a line says of the end of a game.
#[derive(Clone, Copy)]
pub enum EndEvent {
    /// The engine's answer was no legal move, so that the bridge resigned for it.
    Slip,
    /// The server sent an ending.
    Ending,
    /// The server sent a reason.
    Reason,
    /// The server sent a result.
    Result,
    /// The server's line failed the session.
    Refused(LineRefusal),
}

/// What a line from that peer says of the end, if it led the bridge from one snapshot to the other
/// and to this status.
pub fn end_in(
    before: Snapshot,
    after: Snapshot,
    peer: Peer,
    line: &[u8],
    status: Status,
) -> Option<EndEvent>
    ensures { MatchOption result
        ((event : EndEvent) → SaysOfEnd before after line.now peer status event → ⊥)
        (SaysOfEnd before after line.now peer status) }
{
    match peer {
        Peer::Engine => engine_event(before, after),
        Peer::Server => match status {
            Status::Failed(fault) => Some(EndEvent::Refused(LineRefusal {
                fault,
                summary: after.summary,
            })),
            Status::Going => game_event(before.client, after.client, line),
            Status::Done => game_event(before.client, after.client, line),
            Status::Lost => game_event(before.client, after.client, line),
        },
    }
}

// What a line of the engine says of the end.
fn engine_event(before: Snapshot, after: Snapshot) -> Option<EndEvent>
    ensures { MatchOption result ((after.slip ≡ true) × (before.slip ≡ false) → ⊥)
        (λ event. (after.slip ≡ true) × (before.slip ≡ false) × (event ≡ EndEvent.Slip)) }
{
    if !after.slip || before.slip {
        return None;
    }
    Some(EndEvent::Slip)
}

// What a line of the server says of the end of a game.
fn game_event(before: ClientState, after: ClientState, line: &[u8]) -> Option<EndEvent>
    ensures { MatchOption result ((event : EndEvent) → SaysInGame before after line.now event → ⊥)
        (SaysInGame before after line.now) }
{
    if is_ending(before, after, line) {
        return Some(EndEvent::Ending);
    }
    if is_reason(before, after, line) {
        return Some(EndEvent::Reason);
    }
    if is_result(before, after, line) {
        return Some(EndEvent::Result);
    }
    None
}

// Whether the line is an ending. Once there is a reason, an ending is passed over.
fn is_ending(before: ClientState, after: ClientState, line: &[u8]) -> bool
    ensures { IsTrue result ↔ IsEnding before after line.now }
{
    is_in_play(before) && after == ClientState::Reason && begins_with(line, b'%')
}

fn is_reason(before: ClientState, after: ClientState, line: &[u8]) -> bool
    ensures { IsTrue result ↔ IsReason before after line.now }
{
    is_before_result(before) && after == ClientState::Reason && begins_with(line, b'#')
}

fn is_result(before: ClientState, after: ClientState, line: &[u8]) -> bool
    ensures { IsTrue result ↔ IsResult before after line.now }
{
    is_before_result(before) && after == ClientState::Closing && begins_with(line, b'#')
}

/// Whether the game is in play.
pub fn is_in_play(state: ClientState) -> bool
    ensures { IsTrue result ↔ ((state ≡ ClientState.Playing) ⊎ (state ≡ ClientState.Sent)) }
{
    match state {
        ClientState::Playing | ClientState::Sent => true,
        _ => false,
    }
}

fn is_before_result(state: ClientState) -> bool
    ensures { IsTrue result ↔ IsBeforeResult state }
{
    is_in_play(state) || state == ClientState::Reason
}

fn begins_with(line: &[u8], byte: u8) -> bool
    ensures { result ≡ begins_with byte line.now }
{
    match line.first() {
        Some(b) => *b == byte,
        None => false,
    }
}

/// What is kept of a session, to say at its end how it ended.
#[derive(Drop)]
pub struct EndNotes {
    slip: Option<Excerpt>,
    // The first reason, and the result.
    reason: Option<Excerpt>,
    result: Option<Excerpt>,
    // The line of the server that failed the session, and why.
    refused: Option<(Excerpt, LineRefusal)>,
    // The peer whose line was too long.
    long: Option<Peer>,
}

impl Model for EndNotes {
    ghost use Rattle.std.specs.Prelude.{option_map};
    ghost use Rattle.session_commands.specs.Endings.{Ended};

    ghost Value = { Ended };

    ghost view = { λ e. record {
      slip = option_map (λ line. line.bytes) e.slip;
      reason = option_map (λ line. line.bytes) e.reason;
      outcome = option_map (λ line. line.bytes) e.result;
      refused = option_map (λ r. (r.0.bytes, r.1)) e.refused;
      long = e.long;
    } };
}

impl EndNotes {
    /// Nothing is said of the end yet.
    pub fn new() -> EndNotes
        ensures { result ≡ nothing_said }
    {
        EndNotes {
            slip: None,
            reason: None,
            result: None,
            refused: None,
            long: None,
        }
    }

    /// Keeps what a line says of the end. Of several reasons the first is kept.
    pub fn keep(&mut self, event: EndEvent, line: &[u8])
        ensures { self.new ≡ kept_with event (quoted line.now) self.old }
    {
        let line = excerpt_of(line);
        match event {
            EndEvent::Slip => self.slip = Some(line),
            EndEvent::Ending => {}
            EndEvent::Reason => {
                if self.reason.is_none() {
                    self.reason = Some(line);
                }
            }
            EndEvent::Result => self.result = Some(line),
            EndEvent::Refused(refusal) => self.refused = Some((line, refusal)),
        }
    }

    /// Keeps that a line of this peer was too long.
    pub fn keep_long(&mut self, peer: Peer)
        ensures { self.new ≡ with_long peer self.old }
    {
        self.long = Some(peer);
    }

    /// How the session ended: a line each for the slip, for the result, and for the fault. Returns
    /// an error if an allocation fails.
    pub fn text(&self, alloc: Global, played: Result<(), MatchFault>) -> Result<String, AllocError>
        ensures { IfOk result (λ text. string_bytes text ≡ end_text self.now played) }
    {
        let slip = self.slip_lines(alloc)?;
        let result = self.result_lines(alloc)?;
        let last = self.last_line(alloc, played)?;
        format!(in alloc; "{slip}{result}{last}")
    }

    // The line of the slip, if there is one.
    fn slip_lines(&self, alloc: Global) -> Result<String, AllocError>
        ensures { IfOk result (λ text. string_bytes text ≡ slip_lines self.now.slip) }
    {
        match &self.slip {
            Some(line) => slip_line(alloc, line.as_str()),
            None => Ok(String::new(alloc)),
        }
    }

    // The line of the result, with the reason, if there is one.
    fn result_lines(&self, alloc: Global) -> Result<String, AllocError>
        ensures { IfOk result (λ text.
            string_bytes text ≡ result_lines self.now.reason self.now.outcome) }
    {
        match &self.result {
            Some(line) => self.result_line(alloc, line.as_str()),
            None => Ok(String::new(alloc)),
        }
    }

    // The line of this result, with the reason, if there is one.
    fn result_line(&self, alloc: Global, line: &str) -> Result<String, AllocError>
        ensures { IfOk result (λ text. string_bytes text ≡ result_line self.now.reason line.now) }
    {
        match &self.reason {
            Some(reason) => {
                let reason = reason.as_str();
                format!(in alloc; "result: {line} after {reason}\n")
            }
            None => format!(in alloc; "result: {line}\n"),
        }
    }

    // The line about the server's line that was refused, about the peer whose line was too long, or
    // else about the fault.
    fn last_line(&self, alloc: Global, played: Result<(), MatchFault>) -> Result<String, AllocError>
        ensures { IfOk result (λ text.
            string_bytes text ≡ last_line self.now.refused self.now.long played) }
    {
        match (&self.refused, self.long, played) {
            (Some((line, refusal)), _, _) => refused_line(alloc, line.as_str(), *refusal),
            (None, Some(peer), _) => {
                let line = long_line(peer);
                format!(in alloc; "{line}\n")
            }
            (None, None, Err(fault)) => fault_line(alloc, fault),
            (None, None, Ok(())) => Ok(String::new(alloc)),
        }
    }
}

/// The line of a slip. Returns an error if an allocation fails.
pub fn slip_line(alloc: Global, line: &str) -> Result<String, AllocError>
    ensures { IfOk result (λ text. string_bytes text ≡ slip_line line.now) }
{
    format!(in alloc; "slip: {line} is no legal move of this game\n")
}

/// What is said about a line of this peer that is too long.
pub fn long_line(peer: Peer) -> &'static str
    ensures { result.now ≡ long_line peer }
{
    match peer {
        Peer::Engine => "B7: the engine wrote a line of more than 65536 bytes",
        Peer::Server => "B7: the server sent a line of more than 65536 bytes",
    }
}

// The line about a fault that no line of a peer shows.
fn fault_line(alloc: Global, fault: MatchFault) -> Result<String, AllocError>
    ensures { IfOk result (λ text. string_bytes text ≡ fault_line (gone_peer fault) fault) }
{
    let words = match gone_peer(fault) {
        Some(peer) => gone_line(peer),
        None => match_words(fault),
    };
    format!(in alloc; "{words}\n")
}

/// The peer whose end is this fault.
pub fn gone_peer(fault: MatchFault) -> Option<Peer>
    ensures { result ≡ gone_peer fault }
{
    match fault {
        MatchFault::Session(SessionFault::EngineGone) => Some(Peer::Engine),
        MatchFault::Session(SessionFault::ServerGone) => Some(Peer::Server),
        MatchFault::Session(
            SessionFault::LoginRefused
            | SessionFault::Rejected
            | SessionFault::BadSummary
            | SessionFault::BadServerMove(_)
            | SessionFault::LineTooLong,
        ) => None,
        MatchFault::Endless | MatchFault::Write | MatchFault::OutOfMemory => None,
    }
}

/// What is said about this peer if its end failed the session.
pub fn gone_line(peer: Peer) -> &'static str
    ensures { result.now ≡ gone_line peer }
{
    match peer {
        Peer::Engine => "B5: the engine ended",
        Peer::Server => "B6: the connection to the server ended",
    }
}

/// The line about a line of the server that failed the session. Returns an error if an allocation
/// fails.
pub fn refused_line(alloc: Global, line: &str, refusal: LineRefusal) -> Result<String, AllocError>
    ensures { IfOk result (λ text.
        string_bytes text ≡ refused_line refusal.fault refusal.summary line.now) }
{
    let fault = refusal.fault;
    match fault {
        SessionFault::BadServerMove(cause) => refused_move_line(alloc, line, cause),
        SessionFault::LoginRefused => format!(in alloc; "B1: the server sent {line}\n"),
        SessionFault::Rejected => format!(in alloc; "B2: the server sent {line}\n"),
        SessionFault::BadSummary => bad_summary_line(alloc, line, refusal.summary),
        SessionFault::EngineGone | SessionFault::ServerGone | SessionFault::LineTooLong => {
            let words = session_words(fault);
            format!(in alloc; "{words}\n")
        }
    }
}

// The line of the server's line that ended a summary which offers no game.
fn bad_summary_line(
    alloc: Global,
    line: &str,
    cause: Option<SummaryFault>,
) -> Result<String, AllocError>
    ensures { IfOk result (λ text. string_bytes text ≡ bad_summary_line cause line.now) }
{
    match cause {
        Some(cause) => {
            let words = summary_words(cause);
            format!(in alloc; "B3: the server sent {line}: {words}\n")
        }
        None => format!(in alloc; "B3: the server sent {line}\n"),
    }
}

/// What is said about a summary that offers no game.
pub fn summary_words(cause: SummaryFault) -> &'static str
    ensures { result.now ≡ summary_words cause }
{
    match cause {
        SummaryFault::OpenBlock => "a block has no END line",
        SummaryFault::LongName => "a name has more than 4094 bytes",
        SummaryFault::NoTurn => "Your_Turn is neither + nor -",
        SummaryFault::NoPosition => "there is no position block",
        SummaryFault::SeveralPositions => "there are several position blocks",
        SummaryFault::BadPosition => "the position block is no position with legal moves",
    }
}

// The line of a move of the server that is refused.
fn refused_move_line(alloc: Global, line: &str, cause: MoveCause) -> Result<String, AllocError>
    ensures { IfOk result (λ text.
        string_bytes text ≡ codes "B4: " ++ (line.now ++ cause_text cause)) }
{
    let cause = cause_text(alloc, cause)?;
    format!(in alloc; "B4: {line}{cause}")
}

// Why a move of the server is refused, and LF.
fn cause_text(alloc: Global, cause: MoveCause) -> Result<String, AllocError>
    ensures { IfOk result (λ text. string_bytes text ≡ cause_text cause) }
{
    match cause {
        MoveCause::Refused(why) => {
            let verb = refusal_verb(why);
            let words = why_words(why);
            format!(in alloc; "{verb}{words}\n")
        }
        MoveCause::Unsent => {
            format!(in alloc; " is a move of the engine's side that it did not send\n")
        }
    }
}

// What is said of a move that is refused for this cause, before the words of the cause.
fn refusal_verb(why: Why) -> &'static str
    ensures { result.now ≡ refusal_verb why }
{
    match why {
        Why::Rule(_) => " breaks ",
        Why::Text(_) | Why::Order(_) | Why::Start(_) | Why::OutOfMemory | Why::Failed => {
            " is refused: "
        }
    }
}

/// The front of a line, without spaces at its end.
pub fn excerpt_of(line: &[u8]) -> Excerpt
    ensures { result.bytes ≡ quoted line.now }
{
    let shown = first_bytes(session_lines::without_last_spaces(line));
    let mut front = Excerpt::new();
    for byte in shown {
        push_quoted(&mut front, *byte);
    }
    front
}

// As many bytes of a line as are quoted.
fn first_bytes(line: &[u8]) -> &[u8]
    ensures value { result.now ≡ take 256 line.now }
    ensures bound { length result.now ≤ 256 }
{
    if line.len() <= LONGEST {
        line
    } else {
        &line[..LONGEST]
    }
}

fn push_quoted(front: &mut Excerpt, byte: u8)
    requires { length front.old.bytes < 256 }
    ensures { front.new.bytes ≡ front.old.bytes ++ quoted_byte byte ∷ [] }
{
    front.push(quoted_byte(byte));
}

// The byte as a character, or `?` if it is no printable ASCII.
fn quoted_byte(byte: u8) -> char
    ensures value { result ≡ quoted_byte byte }
    ensures ascii { result < 128 }
{
    if byte < 32 || byte > 126 {
        '?'
    } else {
        char::from(byte)
    }
}
