//! A line on standard error for each move of a running game, and for what ends it.

ghost use Rattle.std.specs.Prelude.{◌≡◌, ◌⊎◌, ◌↔◌, ◌+◌, ◌++◌, ◌∷◌, [], ◌<◌, ◌≤◌, ◌^◌, ℕ, codes, length, true, false, None, Some, IfOk, IfSome, IsTrue, option_map, string_bytes};
ghost use Rattle.std.specs.List.{position_or_len};
ghost use Rattle.session_commands.specs.Comments.{is_quote, without_comment};
ghost use Rattle.session_commands.specs.Endings.{IsKeptAfter, end_text, nothing_said, quoted, with_long};
ghost use Rattle.session_commands.specs.Plays.{by_peer};
ghost use Rattle.session_commands.specs.Showing.{IsCountOf, IsShownEnd, IsShownEnding, ended_line, ended_peer, with_last};
ghost use Rattle.session_lines.specs.MoveLines.{is_move_line};
ghost use Rattle.shogi_session.specs.State.{client_state};

use crate::bridging::{Ends, Peer};
use crate::ending::{self, EndEvent, EndNotes, Excerpt, Snapshot};
use session_lines::is_move_line;
use session_setup::MatchFault;
use shogi_session::{Bridge, ClientState, Status};
use std::alloc::{AllocError, Global};
use std::io::Eprint;
use std::marker::{Model, PhantomData};
use std::str;

/// Says to the user how a game goes on. An error is ignored.
pub trait SaysLines {
    ghost use Rattle.std.specs.Prelude.{◌++◌, ◌∷◌, [], ℕ, List, codes, decimal};

    // This was said, or could not be.
    ghost said: { List ℕ → Type 0 };

    /// Says the line.
    fn say_line(&self, line: &str)
        ensures { said (line.now ++ 10 ∷ []) };

    /// Says the text, which has its line ends.
    fn say_text(&self, text: &str)
        ensures { said text.now };

    /// Says the line after the number of a move.
    fn say_move(&self, number: u64, line: &str)
        ensures { said (decimal number ++ (codes " " ++ (line.now ++ 10 ∷ []))) };

    /// Says the words about a peer that ended after this line.
    fn say_after(&self, words: &str, line: &str)
        ensures { said (words.now ++ (codes " after " ++ (line.now ++ 10 ∷ []))) };
}

// No contract can say what standard error shows.
impl<R: Eprint> SaysLines for R {
    ghost use Rattle.std.specs.Prelude.{⊤};

    ghost said = { λ text. ⊤ };

    fn say_line(&self, line: &str) {
        let _ = self.eprintln(line);
    }

    fn say_text(&self, text: &str) {
        let _ = self.eprint(text);
    }

    fn say_move(&self, number: u64, line: &str) {
        let _ = self.eprintln(format_args!("{number} {line}"));
    }

    fn say_after(&self, words: &str, line: &str) {
        let _ = self.eprintln(format_args!("{words} after {line}"));
    }
}

/// Where a game between these ends is shown, if it is: standard error.
///
/// It writes no text that it is given. What is shown is fixed words, and through a `Progress` what
/// came from the ends.
#[derive(Drop)]
pub struct Screen<'a, R, E> {
    rt: &'a R,
    is_shown: bool,
    ends: PhantomData<E>,
}

impl<'a, R, E> Model for Screen<'a, R, E> {
    ghost use Rattle.std.specs.Prelude.{Bool};

    ghost Value = { Bool };

    ghost view = { λ s. s.is_shown };
}

impl<'a, R, E> Screen<'a, R, E> {
    /// The standard error of that runtime. Nothing is shown there unless `is_shown`.
    pub fn new(rt: &'a R, is_shown: bool) -> Screen<'a, R, E>
        ensures shown { result ≡ is_shown }
    {
        Screen {
            rt,
            is_shown,
            ends: PhantomData,
        }
    }
}

impl<R: SaysLines, E> Screen<'_, R, E> {
    /// Says that the server is waited for, if anything is shown. An error of standard error is
    /// ignored.
    pub fn say_server_waited_for(&self)
        ensures { self.now ≡ true → R.said (codes "waiting for the server" ++ 10 ∷ []) }
    {
        if self.is_shown {
            self.rt.say_line("waiting for the server");
        }
    }
}

/// The moves that are shown of a running game: the number of the last one that was, and how the
/// game ended.
#[derive(Drop)]
pub struct Progress<'a, R, E> {
    rt: &'a R,
    is_shown: bool,
    ends: PhantomData<E>,
    moves: Option<u64>,
    ending: EndNotes,
    // The last line of each peer.
    engine_line: Option<Excerpt>,
    server_line: Option<Excerpt>,
}

impl<'a, R, E> Model for Progress<'a, R, E> {
    ghost use Rattle.std.specs.Prelude.{option_map};
    ghost use Rattle.session_commands.specs.Showing.{Showing};

    ghost Value = { Showing };

    ghost view = { λ p. record {
      is_on = p.is_shown;
      moves = p.moves;
      ended = p.ending;
      last = record {
        engine = option_map (λ line. line.bytes) p.engine_line;
        server = option_map (λ line. line.bytes) p.server_line;
      };
    } };
}

impl<'a, R, E> Progress<'a, R, E> {
    /// No move has been shown yet.
    pub fn new(screen: &Screen<'a, R, E>) -> Progress<'a, R, E>
        ensures on { result.is_on ≡ screen.now }
        ensures moves { result.moves ≡ None }
        ensures ended { result.ended ≡ nothing_said }
        ensures last { result.last ≡ record { engine = None; server = None } }
    {
        Progress {
            rt: screen.rt,
            is_shown: screen.is_shown,
            ends: PhantomData,
            moves: None,
            ending: EndNotes::new(),
            engine_line: None,
            server_line: None,
        }
    }

    /// Whether the bridge's next line may be a move to show.
    pub fn is_on(&self, bridge: &Bridge) -> bool
        ensures answer { IsTrue result ↔ (self.now.is_on ≡ true)
            × ((client_state bridge.now.state.client ≡ ClientState.Playing)
            ⊎ (client_state bridge.now.state.client ≡ ClientState.Sent)) }
    {
        self.is_shown && ending::is_in_play(bridge.client_state())
    }

    // Keeps a line as the last one of its peer.
    fn keep_line(&mut self, peer: Peer, line: &[u8])
        ensures { self.new
            ≡ record self.old { last = with_last peer (quoted line.now) self.old.last } }
    {
        let line = ending::excerpt_of(line);
        match peer {
            Peer::Engine => self.engine_line = Some(line),
            Peer::Server => self.server_line = Some(line),
        }
    }

    // The last line of this peer, if one came.
    fn last_line(&self, peer: Peer) -> &Option<Excerpt>
        ensures { option_map (λ line. line.bytes) result.now
            ≡ by_peer peer self.now.last.engine self.now.last.server }
    {
        match peer {
            Peer::Engine => &self.engine_line,
            Peer::Server => &self.server_line,
        }
    }

    // The peer whose end is to be shown.
    fn ended_peer(&self, played: Result<(), MatchFault>) -> Option<Peer>
        ensures { result ≡ ended_peer self.now.is_on played }
    {
        match played {
            Err(fault) if self.is_shown => ending::gone_peer(fault),
            _ => None,
        }
    }

    /// How the session ended, in lines for its log. Returns an error if an allocation fails.
    pub fn end_text(
        &self,
        alloc: Global,
        played: Result<(), MatchFault>,
    ) -> Result<String, AllocError>
        ensures { IfOk result (λ text. string_bytes text ≡ end_text self.now.ended played) }
    {
        self.ending.text(alloc, played)
    }
}

impl<R: SaysLines + AllocGlobal, E: Ends> Progress<'_, R, E> {
    /// Says that the engine is waited for, if moves are shown. An error of standard error is
    /// ignored.
    pub fn begin(&self)
        ensures { self.now.is_on ≡ true
            → R.said (codes "waiting for the engine" ++ 10 ∷ []) }
    {
        self.say("waiting for the engine");
    }

    /// If the last line from the server, which the bridge took, is a move, shows its number, the
    /// move and its time. An error of standard error is ignored.
    pub fn show(&mut self, bridge: &Bridge, ends: &E)
        ensures on { self.new.is_on ≡ self.old.is_on }
        ensures last { self.new.last ≡ self.old.last }
        ensures ended { self.new.ended ≡ self.old.ended }
        ensures counted { (n : ℕ) → is_move_line (E.last_line ends.now Peer.Server) ≡ true
            → self.old.moves ≡ Some n → n + 1 < 2 ^ 64 → self.new.moves ≡ Some (n + 1) }
        ensures first { is_move_line (E.last_line ends.now Peer.Server) ≡ true
            → self.old.moves ≡ None
            → (n : ℕ) × (self.new.moves ≡ Some n) × IsCountOf bridge.now.state.client n }
        ensures other { is_move_line (E.last_line ends.now Peer.Server) ≡ false
            → self.new ≡ self.old }
    {
        let line = ends.line(Peer::Server);
        if !is_move_line(line) {
            return;
        }
        let number = match self.moves {
            Some(moves) => moves.saturating_add(1),
            None => first_number(bridge),
        };
        self.moves = Some(number);
        if let Ok(text) = str::from_utf8(without_comment(line)) {
            self.rt.say_move(number, text);
        }
    }

    /// Keeps what the last line from that peer says of the end, if it led the bridge from one
    /// snapshot to the other and to this status. Shows it too, if moves are shown. An error of
    /// standard error is ignored.
    pub fn watch(&mut self, before: Snapshot, after: Snapshot, ends: &E, peer: Peer, status: Status)
        ensures showing { (self.new.is_on ≡ self.old.is_on) × (self.new.moves ≡ self.old.moves) }
        ensures last { self.new.last
            ≡ with_last peer (quoted (E.last_line ends.now peer)) self.old.last }
        ensures ended { IsKeptAfter before after (E.last_line ends.now peer) peer status
            self.old.ended self.new.ended }
    {
        let line = ends.line(peer);
        if before.client == ClientState::Idle && after.client != before.client {
            self.say("waiting for the server to begin a game");
        }
        self.keep_line(peer, line);
        let Some(event) = ending::end_in(before, after, peer, line, status) else {
            return;
        };
        self.ending.keep(event, line);
        self.show_end(event, line);
    }

    // Shows a line, if moves are shown.
    fn say(&self, line: &str)
        ensures { self.now.is_on ≡ true → R.said (line.now ++ 10 ∷ []) }
    {
        if self.is_shown {
            self.rt.say_line(line);
        }
    }

    // Shows what a line says of the end, if moves are shown.
    fn show_end(&self, event: EndEvent, line: &[u8]) {
        if self.is_shown {
            if let Ok(text) = shown_end(self.rt.alloc(), event, line) {
                self.rt.say_text(text.as_str());
            }
        }
    }

    /// Keeps that a line of this peer is too long. Shows it too, if moves are shown. An error of
    /// standard error is ignored.
    pub fn watch_long(&mut self, peer: Peer)
        ensures showing { (self.new.is_on ≡ self.old.is_on) × (self.new.moves ≡ self.old.moves) }
        ensures last { self.new.last ≡ self.old.last }
        ensures ended { self.new.ended ≡ with_long peer self.old.ended }
    {
        self.ending.keep_long(peer);
        self.say(ending::long_line(peer));
    }

    /// Says which peer has ended, and its last line, if that is why the session failed and moves
    /// are shown. An error of standard error is ignored.
    pub fn finish(&self, played: Result<(), MatchFault>)
        ensures { IfSome (ended_peer self.now.is_on played) (λ peer. R.said (ended_line peer
            (by_peer peer self.now.last.engine self.now.last.server))) }
    {
        let Some(peer) = self.ended_peer(played) else {
            return;
        };
        let words = ending::gone_line(peer);
        match self.last_line(peer) {
            Some(line) => self.rt.say_after(words, line.as_str()),
            None => self.rt.say_line(words),
        }
    }
}

// What is shown of a line that says this of the end: of a reason and a result the line without its
// comment. Returns an error if an allocation fails.
fn shown_end(alloc: Global, event: EndEvent, line: &[u8]) -> Result<String, AllocError>
    ensures { IfOk result (λ text. IsShownEnd event line.now (string_bytes text)) }
{
    let whole = ending::excerpt_of(line);
    match event {
        EndEvent::Slip => ending::slip_line(alloc, whole.as_str()),
        EndEvent::Refused(refusal) => ending::refused_line(alloc, whole.as_str(), refusal),
        EndEvent::Ending => shown_ending(alloc, ending::excerpt_of(without_comment(line)).as_str()),
        EndEvent::Reason | EndEvent::Result => {
            let front = ending::excerpt_of(without_comment(line));
            format!(in alloc; "{front}\n")
        }
    }
}

// The ending and its seconds, with a space between.
fn shown_ending(alloc: Global, line: &str) -> Result<String, AllocError>
    ensures { IfOk result (λ text. IsShownEnding line.now (string_bytes text)) }
{
    match line.split_once(",T") {
        Some((ending, seconds)) => format!(in alloc; "{ending} {seconds}\n"),
        None => format!(in alloc; "{line}\n"),
    }
}

// The number of the last move of the bridge's game, or 0 if it has none.
fn first_number(bridge: &Bridge) -> u64
    ensures { IsCountOf bridge.now.state.client result }
{
    match bridge.moves() {
        Some(moves) => moves as u64,
        None => 0,
    }
}

// The line up to its comment, without the comma before that.
fn without_comment(line: &[u8]) -> &[u8]
    ensures { result.now ≡ without_comment line.now }
{
    let shown = &line[..comment_start(line)];
    shown.strip_suffix(b",".as_slice()).unwrap_or(shown)
}

// The offset of the line's comment, or the line's length.
fn comment_start(line: &[u8]) -> usize
    ensures value { result ≡ position_or_len is_quote line.now }
    ensures within { result ≤ length line.now }
{
    for (i, b) in line.iter().enumerate() {
        if is_quote(*b) {
            return i;
        }
    }
    line.len()
}

fn is_quote(b: u8) -> bool
    ensures { result ≡ is_quote b }
{
    b == b'\''
}
