//! A bridge, and the lines that pass between it, its engine and its server.

ghost use Rattle.std.specs.Prelude.{◌≡◌, ◌↔◌, IsErrOf, IsTrue, IfErr, IfOk, OnOk, OnErr};
ghost use Rattle.csa_cutting.specs.Lines.{HasNoLineEnd};
ghost use Rattle.session_commands.specs.Plays.{Delivers, History, Sends, end_of, event_from, peer_for};
ghost use Rattle.session_commands.specs.Holding.{TookAll};
ghost use Rattle.session_commands.specs.Noting.{ComesNext, IsKeptOf, Noted, NotedBefore, NotedEndless};
ghost use Rattle.session_commands.specs.PlayedLogs.{PlaysLegally, handed, happened};
ghost use Rattle.session_commands.specs.LackOfMemoryLogs.{SentLegally, sent_before};
ghost use Rattle.session_commands.specs.LackOfMemory.{GoneRunsOut, NextRunsOut, PlayRunsOut, SendRunsOut};
ghost use Rattle.std.specs.Io.KnownBytes.{Appends};
ghost use Rattle.session_commands.specs.declared.bridging.Peer.{Peer};
ghost use Rattle.session_setup.specs.declared.fault.MatchFault.{MatchFault};
ghost use Rattle.bridge_table.specs.declared.event.Status.{Status};
ghost use Rattle.shogi_session.specs.Promises.{HoldsLine, Session, event_of};
ghost use Rattle.shogi_session.specs.State.{first_state, waits_for};
ghost use Rattle.bridge_table.specs.declared.event.Status.TheVariants.{Done, Failed};

use crate::ending::Snapshot;
use crate::laws::{played_moves_are_legal, sent_lines_are_held};
use crate::progress::{Progress, SaysLines};
use record_commands::incoming::{Incoming, LineEvent};
use record_commands::{WriteFault, streams};
use session_setup::MatchFault;
use shogi_board::OutOfMemory;
use shogi_session::{Bridge, Event, Out, SessionFault, Status, Waits};
use std::io::{Read, Write};

/// One of the two peers of a bridge.
#[derive(Clone, Copy)]
pub enum Peer {
    /// The engine.
    Engine,
    /// The server.
    Server,
}

/// Where the lines of a bridge's engine and server come from, and where the bridge's lines go.
pub trait Ends {
    ghost use Rattle.std.specs.Prelude.{ℕ, List, Option};
    ghost use Rattle.session_setup.specs.Faults.{IsFileFault};
    ghost use Rattle.session_commands.specs.Holding.{KeepsBoth, KeepsOther, TakesLines};
    ghost use Rattle.session_commands.specs.declared.bridging.Peer.{Peer};
    ghost use Rattle.shogi_session.specs.Events.{Event as Taken};

    // The last line from that peer.
    ghost last_line: { Self → Peer → List ℕ };

    // What the writer for that peer holds, if it is known.
    ghost held: { Self → Peer → Option (List ℕ) };

    // This event came from that peer.
    ghost came: { Self → Peer → Taken → Self → Type 0 };

    // An allocation failed for what came from that peer.
    ghost missed: { Self → Peer → Self → Type 0 };

    // The peer took these lines.
    ghost went: { Self → Peer → List ℕ → Self → Type 0 };

    // The peer did not take these lines, or only some of them.
    ghost gone: { Self → Peer → List ℕ → Self → Type 0 };

    /// Reads what comes next from that peer. A line is then in `line`.
    ///
    /// Returns `OutOfMemory` if an allocation fails.
    fn receive(&mut self, peer: Peer) -> Result<LineEvent, OutOfMemory>
        ensures came { IfOk result (λ what. came self.old peer
            (event_from peer what (last_line self.new peer)) self.new) }
        ensures line { IfOk result (λ what. what ≡ LineEvent.Line
            → HasNoLineEnd (last_line self.new peer)) }
        ensures missed { OnErr result (missed self.old peer self.new) };

    /// The last line from that peer, without its line end.
    fn line(&self, peer: Peer) -> &[u8]
        ensures value { result.now ≡ last_line self.now peer };

    /// Sends the peer these lines, with their line ends. Refuses `WriteFault` if it did not take
    /// them all.
    fn send(&mut self, peer: Peer, lines: &[u8]) -> Result<(), WriteFault>
        ensures went { OnOk result (went self.old peer lines.now self.new) }
        ensures gone { OnErr result (gone self.old peer lines.now self.new) };

    // This was said of the session, and all that passed was logged, if there is a log.
    ghost closed: { Self → List ℕ → Self → Type 0 };

    // At most the beginning of this was added to the log.
    ghost unclosed: { Self → List ℕ → Self → Type 0 };

    /// Adds to the log, if there is one, how the session ended. If the log lacks this, or something
    /// that passed before, refuses `Write`, or `OutOfMemory` if an allocation failed for it.
    fn close(&mut self, text: &[u8]) -> Result<(), MatchFault>
        ensures closed { OnOk result (closed self.old text.now self.new) }
        ensures unclosed { OnErr result (unclosed self.old text.now self.new) }
        ensures faults { IfErr result IsFileFault };

    // A writer holds the lines that its peer takes, and nothing else is added to it, unless the
    // peer does not take its lines.
    ghost takes_lines: { TakesLines held went };

    ghost went_keeps: { KeepsOther held went };

    ghost gone_keeps: { KeepsOther held gone };

    ghost came_keeps: { KeepsBoth held came };

    ghost missed_keeps: { KeepsBoth held (λ e peer _ f. missed e peer f) };
}

/// The streams of a bridge's engine or server.
#[derive(Drop)]
pub struct Side<R: Read + Drop, W: Write + Drop> {
    /// The lines that come from it.
    pub lines: Incoming<R>,
    /// The writer for the lines that go to it.
    pub writer: W,
}

/// The streams of both.
#[derive(Drop)]
pub struct Sides<ER: Read + Drop, EW: Write + Drop, SR: Read + Drop, SW: Write + Drop> {
    /// The engine's.
    pub engine: Side<ER, EW>,
    /// The server's.
    pub server: Side<SR, SW>,
}

// What comes from a side is the next of its reader's bytes. What it takes is added to the bytes of
// its writer, if these are known. The rest of both sides is unchanged.
impl<ER: Read + Drop, EW: Write + Drop, SR: Read + Drop, SW: Write + Drop> Ends
    for Sides<ER, EW, SR, SW> {
    ghost use Rattle.std.specs.Io.KnownBytes.{Appends};
    ghost use Rattle.session_commands.specs.SideLaws.{last_of_three, last_of_two, last_two_of_three, other_side, side_read, side_takes};
    ghost use Rattle.session_commands.specs.Plays.{Comes, OfPeer, by_peer};
    ghost use Rattle.session_commands.specs.declared.bridging.Peer.TheVariants.{Engine, Server};
    ghost use Rattle.std.specs.Prelude.{◌≡◌};

    ghost last_line = { λ s peer. by_peer peer s.engine.lines.line s.server.lines.line };

    ghost held = { λ s peer. by_peer peer (EW.contents s.engine.writer)
        (SW.contents s.server.writer) };

    ghost came = { λ s peer event t. OfPeer peer
        (Comes Engine s.engine.lines t.engine.lines event
        × (t.engine.writer ≡ s.engine.writer) × (t.server ≡ s.server))
        (Comes Server s.server.lines t.server.lines event
        × (t.server.writer ≡ s.server.writer) × (t.engine ≡ s.engine)) };

    ghost missed = { λ s peer t. OfPeer peer
        ((t.engine.writer ≡ s.engine.writer) × (t.server ≡ s.server))
        ((t.server.writer ≡ s.server.writer) × (t.engine ≡ s.engine)) };

    ghost went = { λ s peer lines t. OfPeer peer
        (Appends (EW.contents s.engine.writer) (EW.contents t.engine.writer) lines
        × (t.engine.lines ≡ s.engine.lines) × (t.server ≡ s.server))
        (Appends (SW.contents s.server.writer) (SW.contents t.server.writer) lines
        × (t.server.lines ≡ s.server.lines) × (t.engine ≡ s.engine)) };

    ghost gone = { λ s peer lines t. OfPeer peer
        ((t.engine.lines ≡ s.engine.lines) × (t.server ≡ s.server))
        ((t.server.lines ≡ s.server.lines) × (t.engine ≡ s.engine)) };

    // There is no log, so closing it is never refused.
    ghost closed = { λ s text t. t ≡ s };

    ghost unclosed = { λ s text t. ⊥ };

    fn receive(&mut self, peer: Peer) -> Result<LineEvent, OutOfMemory> {
        match peer {
            Peer::Engine => self.engine.lines.read_line(),
            Peer::Server => self.server.lines.read_line(),
        }
    }

    fn line(&self, peer: Peer) -> &[u8] {
        match peer {
            Peer::Engine => self.engine.lines.line(),
            Peer::Server => self.server.lines.line(),
        }
    }

    fn send(&mut self, peer: Peer, lines: &[u8]) -> Result<(), WriteFault> {
        match peer {
            Peer::Engine => streams::write_all(&mut self.engine.writer, lines),
            Peer::Server => streams::write_all(&mut self.server.writer, lines),
        }
    }

    fn close(&mut self, _text: &[u8]) -> Result<(), MatchFault> {
        Ok(())
    }

    ghost takes_lines = { λ s t peer lines. side_takes
        (t.engine.lines ≡ s.engine.lines) (t.server ≡ s.server)
        (t.server.lines ≡ s.server.lines) (t.engine ≡ s.engine)
        (EW.contents s.engine.writer) (EW.contents t.engine.writer)
        (SW.contents s.server.writer) (SW.contents t.server.writer) lines peer };

    ghost went_keeps = { λ s t peer other lines went. other_side
        s.engine t.engine s.server t.server
        (λ side. EW.contents side.writer) (λ side. SW.contents side.writer) peer other
        (last_of_three
        (Appends (EW.contents s.engine.writer) (EW.contents t.engine.writer) lines)
        (t.engine.lines ≡ s.engine.lines) (t.server ≡ s.server)
        (Appends (SW.contents s.server.writer) (SW.contents t.server.writer) lines)
        (t.server.lines ≡ s.server.lines) (t.engine ≡ s.engine) peer went) };

    ghost gone_keeps = { λ s t peer other lines gone. other_side
        s.engine t.engine s.server t.server
        (λ side. EW.contents side.writer) (λ side. SW.contents side.writer) peer other
        (last_of_two (t.engine.lines ≡ s.engine.lines) (t.server ≡ s.server)
        (t.server.lines ≡ s.server.lines) (t.engine ≡ s.engine) peer gone) };

    ghost came_keeps = { λ s t peer other event came. side_read
        s.engine t.engine s.server t.server (λ side. side.writer) (λ side. side.writer)
        EW.contents SW.contents peer other
        (last_two_of_three (Comes Engine s.engine.lines t.engine.lines event)
        (t.engine.writer ≡ s.engine.writer) (t.server ≡ s.server)
        (Comes Server s.server.lines t.server.lines event)
        (t.server.writer ≡ s.server.writer) (t.engine ≡ s.engine) peer came) };

    ghost missed_keeps = { λ s t peer other event missed. side_read
        s.engine t.engine s.server t.server (λ side. side.writer) (λ side. side.writer)
        EW.contents SW.contents peer other missed };
}

/// Plays a session. The bridge takes each line of the side that it waits for, and its answer is
/// sent before the next line is read, the engine's part first. A side whose read or write fails is
/// gone. What each line says of the end is kept.
///
/// Refuses `Session` if the session fails, `OutOfMemory` if an allocation fails, and `Endless` if
/// the session goes on for 2^64 - 1 rounds.
pub fn play<R: SaysLines + AllocGlobal, E: Ends>(
    bridge: &mut Bridge,
    ends: &mut E,
    progress: &mut Progress<'_, R, E>,
) -> Result<(), MatchFault>
    ensures done { OnOk result (Noted E.came E.went E.gone ends.old bridge.old
        progress.old.ended ends.new bridge.new progress.new.ended Done) }
    ensures failed { (fault : SessionFault) → IsErrOf result (MatchFault.Session fault)
        → Noted E.came E.went E.gone ends.old bridge.old
        progress.old.ended ends.new bridge.new progress.new.ended (Failed fault) }
    ensures out_of_memory { IsErrOf result MatchFault.OutOfMemory
        → NotedBefore E.came E.missed E.went E.gone ends.old bridge.old
        progress.old.ended ends.new bridge.new progress.new.ended }
    ensures legal { (f : E) (t : Session) (status : Status)
        (played : History E.came E.went E.gone ends.old bridge.old f t status)
        → bridge.old.state ≡ first_state
        → PlaysLegally bridge.old.config (happened played) (handed Peer.Server played) t.state }
    ensures legal_out_of_memory { (f : E) (t : Session)
        (lack : PlayRunsOut E.came E.missed E.went E.gone ends.old bridge.old f t)
        → bridge.old.state ≡ first_state
        → SentLegally bridge.old.config (sent_before bridge.old t lack) }
    ensures held { (peer : Peer) (f : E) (t : Session) (status : Status)
        (played : History E.came E.went E.gone ends.old bridge.old f t status)
        → TookAll peer played
        → Appends (E.held ends.old peer) (E.held f peer) (handed peer played) }
    ensures unwritten { IsErrOf result MatchFault.Write → ⊥ }
    ensures endless { IsErrOf result MatchFault.Endless
        → NotedEndless E.came E.went E.gone ends.old bridge.old
        progress.old.ended ends.new bridge.new progress.new.ended }
{
    played_moves_are_legal::<E>();
    sent_lines_are_held::<E>();
    let mut out = bridge.step(Event::Begin)?;
    for _rounds in 0..u64::MAX {
        match send(bridge, ends, &out)? {
            Status::Going => {}
            Status::Done => return Ok(()),
            Status::Failed(fault) => return Err(MatchFault::Session(fault)),
            Status::Lost => return Err(MatchFault::OutOfMemory),
        }
        out = step_next(bridge, ends, progress)?;
    }
    Err(MatchFault::Endless)
}

// Sends the answer of a step. Returns the session's status after that.
#[tactic(auto, using(crate::proofs::LackOfMemory::server_lacks))]
fn send<E: Ends>(bridge: &mut Bridge, ends: &mut E, out: &Out) -> Result<Status, OutOfMemory>
    ensures sent { IfOk result (λ status. Sends E.went E.gone out.now.to_engine
        out.now.to_server ends.old bridge.old out.now.status ends.new bridge.new status) }
    ensures out_of_memory { OnErr result (SendRunsOut E.went E.gone out.now.to_engine
        out.now.to_server ends.old bridge.old out.now.status ends.new bridge.new) }
{
    let status = deliver(
        bridge,
        ends,
        Peer::Engine,
        out.to_engine.bytes(),
        out.status,
    )?;
    deliver(bridge, ends, Peer::Server, out.to_server.bytes(), status)
}

// Sends the peer the lines for it, if there are any. Returns the session's status after that. A
// peer that does not take them is gone.
fn deliver<E: Ends>(
    bridge: &mut Bridge,
    ends: &mut E,
    peer: Peer,
    lines: &[u8],
    status: Status,
) -> Result<Status, OutOfMemory>
    ensures delivered { IfOk result (λ after. Delivers
        E.went E.gone peer lines.now ends.old bridge.old status ends.new bridge.new after) }
    ensures out_of_memory { OnErr result
        (GoneRunsOut E.gone peer lines.now ends.old bridge.old ends.new bridge.new) }
{
    if lines.is_empty() {
        return Ok(status);
    }
    match ends.send(peer, lines) {
        Ok(()) => Ok(status),
        Err(WriteFault) => Ok(bridge.step(end_event(peer))?.status),
    }
}

fn end_event(peer: Peer) -> Event<'static>
    ensures { event_of result ≡ end_of peer }
{
    match peer {
        Peer::Engine => Event::EngineEnd,
        Peer::Server => Event::ServerEnd,
    }
}

// The step for what comes next from the peer that the bridge waits for.
fn step_next<R: SaysLines + AllocGlobal, E: Ends>(
    bridge: &mut Bridge,
    ends: &mut E,
    progress: &mut Progress<'_, R, E>,
) -> Result<Out, OutOfMemory>
    ensures came { IfOk result (λ out. ComesNext E.came ends.old bridge.old progress.old.ended
        out.to_engine out.to_server out.status ends.new bridge.new progress.new.ended) }
    ensures out_of_memory { OnErr result
        (NextRunsOut E.came E.missed ends.old bridge.old ends.new bridge.new) }
    ensures kept { OnErr result (progress.new.ended ≡ progress.old.ended) }
{
    let peer = peer_of(bridge.waits_for());
    let read = ends.receive(peer)?;
    let line = ends.line(peer);
    let was_on = progress.is_on(bridge);
    let before = Snapshot::of(bridge);
    let out = bridge.step(event(peer, read, line))?;
    let after = Snapshot::of(bridge);
    let is_move = was_on && is_shown(peer, read, out.status);
    show_move(progress, bridge, is_move, ends);
    keep_end(progress, before, after, ends, peer, read, out.status);
    Ok(out)
}

// Shows the last line from the server, if it may be a move that the bridge accepted.
fn show_move<R: SaysLines + AllocGlobal, E: Ends>(
    progress: &mut Progress<'_, R, E>,
    bridge: &Bridge,
    is_move: bool,
    ends: &E,
)
    ensures { progress.new.ended ≡ progress.old.ended }
{
    if is_move {
        progress.show(bridge, ends);
    }
}

// Keeps what came from the peer, if it says something of the end.
fn keep_end<R: SaysLines + AllocGlobal, E: Ends>(
    progress: &mut Progress<'_, R, E>,
    before: Snapshot,
    after: Snapshot,
    ends: &E,
    peer: Peer,
    read: LineEvent,
    status: Status,
)
    ensures { IsKeptOf before after (E.last_line ends.now peer) peer status
        progress.old.ended progress.new.ended read }
{
    match read {
        LineEvent::Line => progress.watch(before, after, ends, peer, status),
        LineEvent::Long => progress.watch_long(peer),
        LineEvent::End | LineEvent::Failed => {}
    }
}

fn peer_of(waits: Waits) -> Peer
    ensures { result ≡ peer_for waits }
{
    match waits {
        Waits::Engine => Peer::Engine,
        Waits::Server | Waits::Nobody => Peer::Server,
    }
}

// What came from the peer, as an event.
fn event(peer: Peer, read: LineEvent, line: &[u8]) -> Event<'_>
    requires { read ≡ LineEvent.Line → HasNoLineEnd line.now }
    ensures event { event_of result ≡ event_from peer read line.now }
    ensures line { HoldsLine (event_of result) }
{
    match (peer, read) {
        (Peer::Engine, LineEvent::Line) => Event::EngineLine(line),
        (Peer::Engine, LineEvent::End | LineEvent::Failed) => Event::EngineEnd,
        (Peer::Engine, LineEvent::Long) => Event::EngineLong,
        (Peer::Server, LineEvent::Line) => Event::ServerLine(line),
        (Peer::Server, LineEvent::End | LineEvent::Failed) => Event::ServerEnd,
        (Peer::Server, LineEvent::Long) => Event::ServerLong,
    }
}

// Whether what came may be a move that the bridge accepted.
fn is_shown(peer: Peer, read: LineEvent, status: Status) -> bool
    ensures { IsTrue result ↔ (peer ≡ Peer.Server)
        × (read ≡ LineEvent.Line) × (status ≡ Status.Going) }
{
    match (peer, read, status) {
        (Peer::Server, LineEvent::Line, Status::Going) => true,
        _ => false,
    }
}
