ghost use Rattle.std.specs.Prelude.{◌≡◌, ◌↔◌, Some, None, IsOk, IsTrue, IfOk, IfSome, OnErr, MatchOption, MatchResult};
ghost use Rattle.csa_record.specs.Game.{Game};
ghost use Rattle.csa_record.specs.Tells.{Tells};
ghost use Rattle.bridge_table.specs.declared.config.Config.{Config};
ghost use Rattle.bridge_table.specs.declared.event.Status.TheVariants.{Going, Lost};
ghost use Rattle.bridge_table.specs.declared.state.EngineState.{EngineState};
ghost use Rattle.bridge_table.specs.declared.state.EngineState.TheVariants.{Ended, New};
ghost use Rattle.bridge_table.specs.Events.{Out as TableOut, begin, engine_end, server_end, trimmed};
ghost use Rattle.shogi_session.specs.Phases.{IsPhase, Reacts, Stays, client_of, staged};
ghost use Rattle.shogi_session.specs.Configs.{IsConfig};
ghost use Rattle.bridge_table.specs.GameSoFar.{HasMoves, game_of};
ghost use Rattle.bridge_table.specs.Promises.{HoldsLine, IsGameText, KeepsGame, SameStates, StepRow, event_of};
ghost use Rattle.bridge_table.specs.State.{Client, Match, client_state, first_state, slip_of, summary, waits_for};
ghost use Rattle.bridge_table.specs.Summary.{Offer, SummaryContent, TellsOffer};
ghost use Rattle.shogi_session.specs.SummaryFaults.{HasSummaryFault};
ghost use Rattle.session_lines.specs.Texts.{text_of};

use crate::answers::{failed, no_lines, silent, tell_engine};
use crate::engine_side::take_engine_line;
use crate::phase::{GameStage, Phase};
use crate::server_side::take_server_line;
use crate::summary_fault::SummaryFault;
use bridge_table::{ClientState, Config, EngineState, Event, Out, SessionFault, Status, Waits};
use csa_record::write;
use session_lines::without_last_spaces;
use shogi_board::OutOfMemory;
use std::alloc::Global;
use std::marker::Model;
use usi_text::texts as usi_texts;

/// A client of a CSA server that plays with a USI engine.
///
/// It speaks the CSA server protocol with the server and USI with the engine, and takes one line or
/// other event per call. Each move that it sends is legal, and none is sent while one waits for
/// confirmation.
#[derive(Drop)]
pub struct Bridge {
    alloc: Global,
    config: Config,
    engine: EngineState,
    phase: Phase,
    status: Status,
}

impl Model for Bridge {
    ghost use Rattle.shogi_session.specs.Phases.{IsPhase, client_of};
    ghost use Rattle.bridge_table.specs.Promises.{Session};

    ghost Value = { Session };

    ghost view = { λ b. record {
      config = b.config;
      state = record { engine = b.engine; client = client_of b.phase; status = b.status };
    } };

    ghost invariant = { λ b. IsPhase b.phase };
}

impl Bridge {
    /// A bridge to which nothing has happened. Allocates nothing, and always returns `Ok`.
    pub fn new(alloc: Global, config: &Config) -> Result<Bridge, OutOfMemory>
        requires config { IsConfig config.now }
        ensures made { IsOk result }
        ensures config { IfOk result (λ b. b.config ≡ config.now) }
        ensures state { IfOk result (λ b. b.state ≡ first_state) }
    {
        Ok(Bridge {
            alloc,
            config: *config,
            engine: EngineState::New,
            phase: Phase::Idle,
            status: Status::Going,
        })
    }

    /// Takes an event. Its line has no line end; spaces at the end of the line do not count.
    /// Returns the lines to send, those to the engine first, and the session's status.
    ///
    /// After a fault, no lines are sent, then or later; both states stay.
    ///
    /// Returns `OutOfMemory` if an allocation fails, or if the lines of a position block come to
    /// more than 2^63 bytes. The session is `Lost` then: both states stay, and no lines are sent
    /// later. Once the session is over, every call returns `Ok`.
    pub fn step(&mut self, event: Event<'_>) -> Result<Out, OutOfMemory>
        requires line { HoldsLine (event_of event) }
        ensures row { IfOk result
            (λ answered. (out : TableOut) × StepRow self.old (event_of event.entry) out self.new) }
        ensures to_engine { IfOk result (λ answered. (out : TableOut)
            → StepRow self.old (event_of event.entry) out self.new
            → answered.to_engine ≡ text_of out.to_engine) }
        ensures to_server { IfOk result (λ answered. (out : TableOut)
            → StepRow self.old (event_of event.entry) out self.new
            → answered.to_server ≡ text_of out.to_server) }
        ensures status { IfOk result (λ answered. answered.status ≡ self.new.state.status) }
        ensures config { self.new.config ≡ self.old.config }
        ensures going { OnErr result (self.old.state.status ≡ Going) }
        ensures lost { OnErr result (self.new.state.status ≡ Lost) }
        ensures states { OnErr result (SameStates self.old.state self.new.state) }
        ensures slip { OnErr result
            (slip_of self.new.state.client ≡ slip_of self.old.state.client) }
        ensures game { OnErr result (KeepsGame self.old.config self.old.state
            (trimmed (event_of event.entry)) self.new.state) }
    {
        if !is_going(self.status) {
            return Ok(silent(self.alloc, self.status));
        }
        match answer(
            self.alloc,
            &self.config,
            &mut self.engine,
            &mut self.phase,
            event,
        ) {
            Ok(out) => {
                self.status = out.status;
                Ok(out)
            }
            Err(fault) => {
                self.status = Status::Lost;
                Err(fault)
            }
        }
    }

    /// Which side the bridge waits for.
    pub fn waits_for(&self) -> Waits
        ensures value { result ≡ waits_for self.now.state }
    {
        if self.status != Status::Going {
            return Waits::Nobody;
        }
        match self.engine {
            EngineState::New => Waits::Nobody,
            EngineState::Greeting | EngineState::Readying => Waits::Engine,
            EngineState::Ready | EngineState::Ended => Waits::Server,
            EngineState::Thinking => {
                if self.client_state() == ClientState::Playing {
                    Waits::Engine
                } else {
                    Waits::Server
                }
            }
        }
    }

    /// How far the bridge is with its engine.
    pub fn engine_state(&self) -> EngineState
        ensures value { result ≡ self.now.state.engine }
    {
        self.engine
    }

    /// How far the bridge is with its server.
    pub fn client_state(&self) -> ClientState
        ensures value { result ≡ client_state self.now.state.client }
    {
        match &self.phase {
            Phase::Idle => ClientState::Idle,
            Phase::LoggingIn => ClientState::LoggingIn,
            Phase::BeforeSummary | Phase::Summary(_) => ClientState::Summary,
            Phase::Agreeing(_) => ClientState::Agreeing,
            Phase::InGame(play) => state_of(play.stage),
        }
    }

    /// Whether an answer of the engine in the game was no legal move, so that `%TORYO` was sent.
    /// Once true, it stays true.
    pub fn slip(&self) -> bool
        ensures value { result ≡ slip_of self.now.state.client }
    {
        match &self.phase {
            Phase::InGame(play) => play.slip,
            _ => false,
        }
    }

    /// Why the summary that the server sends, so far, offers no game. After `B3 BadSummary` this is
    /// its cause. None if the summary offers one, and outside of a summary.
    pub fn summary_fault(&self) -> Option<SummaryFault>
        ensures { MatchOption result
            ((h : SummaryContent) → self.now.state.client ≡ summary h
            → (o : Offer) × TellsOffer h o)
            (HasSummaryFault self.now.state.client) }
    {
        match &self.phase {
            Phase::Summary(reader) => reader.fault(),
            _ => None,
        }
    }

    /// The number of confirmed moves of the game, or None before a summary was accepted.
    pub fn moves(&self) -> Option<usize>
        ensures { MatchOption result (game_of self.now.state.client ≡ None)
            (HasMoves self.now.state.client) }
    {
        match &self.phase {
            Phase::Agreeing(offer) => Some(offer.game.line().moves().len()),
            Phase::InGame(play) => Some(play.game.line().moves().len()),
            _ => None,
        }
    }

    /// The canonical text of the game so far, or None before a summary was accepted. It has the
    /// names, the start, the confirmed moves, and the ending that the server sent or that follows
    /// from the reason and the result. It is a whole record even if the session has failed or is
    /// lost.
    ///
    /// Returns `OutOfMemory` if an allocation fails.
    pub fn game_text(&self) -> Result<Option<Vec<u8>>, OutOfMemory>
        ensures game { IfOk result (λ found. MatchOption found (IsGameText self.now.state None)
            (λ text. IsGameText self.now.state (Some text.items))) }
        ensures whole { IfOk result (λ found. IfSome found
            (λ text. (g : Game) × Tells text.items g)) }
    {
        match &self.phase {
            Phase::Agreeing(offer) => Ok(Some(write(self.alloc, &offer.game)?)),
            Phase::InGame(play) => Ok(Some(write(self.alloc, &play.game)?)),
            _ => Ok(None),
        }
    }
}

fn is_going(status: Status) -> bool
    ensures { IsTrue result ↔ (status ≡ Going) }
{
    match status {
        Status::Going => true,
        _ => false,
    }
}

fn state_of(stage: GameStage) -> ClientState
    ensures { (g : Match) (game : Game) → result ≡ client_state (staged g game stage) }
{
    match stage {
        GameStage::Playing => ClientState::Playing,
        GameStage::Sent(_) => ClientState::Sent,
        GameStage::Reason(_) => ClientState::Reason,
        GameStage::Closing(_, _) => ClientState::Closing,
        GameStage::Ended(_, _) => ClientState::Ended,
    }
}

// Answers an event while the session goes on.
fn answer(
    alloc: Global,
    config: &Config,
    engine: &mut EngineState,
    phase: &mut Phase,
    event: Event<'_>,
) -> Result<Out, OutOfMemory>
    requires phase { IsPhase phase.old }
    requires line { HoldsLine (event_of event) }
    ensures keeps { IsPhase phase.new }
    ensures answer { MatchResult result
        (λ out. Reacts config.now engine.old
        (client_of phase.old) (trimmed (event_of event.entry)) out engine.new (client_of phase.new))
        (λ fault. Stays config.now engine.old
        (client_of phase.old) (trimmed (event_of event.entry)) engine.new (client_of phase.new)) }
{
    match event {
        Event::Begin => begin(alloc, engine),
        Event::EngineLine(line) => take_engine_line(
            alloc,
            config,
            engine,
            phase,
            without_last_spaces(line),
        ),
        Event::ServerLine(line) => take_server_line(
            alloc,
            config,
            engine,
            phase,
            without_last_spaces(line),
        ),
        Event::EngineEnd => Ok(lose_engine(alloc, *engine)),
        Event::ServerEnd => Ok(lose_server(alloc, phase)),
        Event::EngineLong | Event::ServerLong => Ok(failed(alloc, SessionFault::LineTooLong)),
    }
}

fn begin(alloc: Global, engine: &mut EngineState) -> Result<Out, OutOfMemory>
    ensures { (c : Config) (client : Client) → MatchResult result
        (λ out. Reacts c engine.old client begin out engine.new client)
        (λ fault. engine.new ≡ engine.old) }
{
    if !is_new(*engine) {
        return Ok(no_lines(alloc));
    }
    let out = tell_engine(alloc, usi_texts::USI)?;
    *engine = EngineState::Greeting;
    Ok(out)
}

fn is_new(engine: EngineState) -> bool
    ensures { IsTrue result ↔ (engine ≡ New) }
{
    match engine {
        EngineState::New => true,
        _ => false,
    }
}

fn has_ended(engine: EngineState) -> bool
    ensures { IsTrue result ↔ (engine ≡ Ended) }
{
    match engine {
        EngineState::Ended => true,
        _ => false,
    }
}

// The engine is gone.
fn lose_engine(alloc: Global, engine: EngineState) -> Out
    ensures { (c : Config) (client : Client)
        → Reacts c engine client engine_end result engine client }
{
    if has_ended(engine) {
        return no_lines(alloc);
    }
    failed(alloc, SessionFault::EngineGone)
}

// The server is gone, which ends a session that has a result.
fn lose_server(alloc: Global, phase: &mut Phase) -> Out
    requires phase { IsPhase phase.old }
    ensures keeps { IsPhase phase.new }
    ensures answer { (c : Config) (engine : EngineState)
        → Reacts c engine (client_of phase.old) server_end result engine (client_of phase.new) }
{
    match phase {
        Phase::InGame(play) => match play.stage {
            GameStage::Closing(stated, game_result) => {
                play.stage = GameStage::Ended(stated, game_result);
                silent(alloc, Status::Done)
            }
            GameStage::Ended(_, _) => no_lines(alloc),
            _ => failed(alloc, SessionFault::ServerGone),
        },
        _ => failed(alloc, SessionFault::ServerGone),
    }
}
