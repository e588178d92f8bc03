ghost use Rattle.std.specs.Prelude.{◌≡◌, ℕ, List, [], false, None, IfOk, OnErr, OnOk, MatchResult};
ghost use Rattle.csa_record.specs.Limits.{IsOneLine};
ghost use Rattle.bridge_table.specs.declared.config.Config.{Config};
ghost use Rattle.shogi_session.specs.declared.offer.GameOffer.{GameOffer};
ghost use Rattle.shogi_session.specs.declared.phase.Phase.TheVariants.{Agreeing, BeforeSummary, InGame, LoggingIn};
ghost use Rattle.bridge_table.specs.declared.state.EngineState.{EngineState};
ghost use Rattle.bridge_table.specs.declared.event.Status.TheVariants.{Going};
ghost use Rattle.bridge_table.specs.Events.{server_line};
ghost use Rattle.session_lines.specs.LineTexts as texts;
ghost use Rattle.usi_text.specs.EngineTexts as usi_texts;
ghost use Rattle.shogi_session.specs.Phases.{PlayGoesOn, IsPhase, IsPlay, Reacts, Stays, begun, client_of, play_client};
ghost use Rattle.bridge_table.specs.State as state;
ghost use Rattle.session_lines.specs.ServerLines.{is_start_line};
ghost use Rattle.bridge_table.specs.Summary.{CountsAs, SummaryContent, Offer};
ghost use Rattle.session_lines.specs.Texts.{ended_line};

use crate::answers::{failed, no_lines, silent, tell_server};
use crate::in_play::{ask_engine, take_end, take_line_in_play};
use crate::offer::GameOffer;
use crate::phase::{GameStage, Phase, Play};
use crate::summary_reader::SummaryReader;
use bridge_table::{Config, EngineState, Out, SessionFault, Status};
use session_lines::server_words::{is_hash_line, is_login_ok, is_reject_line, is_start_line};
use session_lines::texts::is_same;
use session_lines::{Lines, texts};
use shogi_board::OutOfMemory;
use std::alloc::Global;
use std::mem;
use usi_text::texts as usi_texts;

// Takes a line of the server, without the spaces at its end.
pub(crate) fn take_server_line(
    alloc: Global,
    config: &Config,
    engine: &mut EngineState,
    phase: &mut Phase,
    line: &[u8],
) -> Result<Out, OutOfMemory>
    requires phase { IsPhase phase.old }
    requires line { IsOneLine line.now }
    ensures keeps { IsPhase phase.new }
    ensures answer { MatchResult result
        (λ out. Reacts config.now engine.old
        (client_of phase.old) (server_line line.now) out engine.new (client_of phase.new))
        (λ fault. Stays config.now engine.old
        (client_of phase.old) (server_line line.now) engine.new (client_of phase.new)) }
{
    match phase {
        Phase::Idle => Ok(no_lines(alloc)),
        Phase::LoggingIn => Ok(take_login_answer(alloc, phase, line)),
        Phase::BeforeSummary => Ok(take_begin_line(alloc, phase, line)),
        Phase::Summary(reader) => {
            if is_same(line, texts::END_SUMMARY) {
                end_summary(alloc, phase)
            } else {
                take_summary_line(alloc, reader, line)
            }
        }
        Phase::Agreeing(offer) => {
            if !is_start_line(line) {
                return Ok(take_line_before_start(alloc, line));
            }
            let out = ask_first(alloc, config, engine, offer)?;
            start(phase);
            Ok(out)
        }
        Phase::InGame(play) => take_game_line(alloc, config, engine, play, line),
    }
}

// Waits for the answer to `LOGIN`.
fn take_login_answer(alloc: Global, phase: &mut Phase, line: &[u8]) -> Out
    requires { phase.old ≡ LoggingIn }
    ensures keeps { IsPhase phase.new }
    ensures answer { (c : Config) (engine : EngineState) → Reacts c engine
        (client_of phase.old) (server_line line.now) result engine (client_of phase.new) }
{
    if is_login_ok(line) {
        *phase = Phase::BeforeSummary;
        return no_lines(alloc);
    }
    if is_same(line, texts::LOGIN_INCORRECT) {
        return failed(alloc, SessionFault::LoginRefused);
    }
    no_lines(alloc)
}

// Waits for a summary.
fn take_begin_line(alloc: Global, phase: &mut Phase, line: &[u8]) -> Out
    requires { phase.old ≡ BeforeSummary }
    ensures keeps { IsPhase phase.new }
    ensures answer { (c : Config) (engine : EngineState) → Reacts c engine
        (client_of phase.old) (server_line line.now) result engine (client_of phase.new) }
{
    if !is_same(line, texts::BEGIN_SUMMARY) {
        return no_lines(alloc);
    }
    *phase = Phase::Summary(SummaryReader::new(alloc));
    no_lines(alloc)
}

// Takes a line of a summary, not its last. If an allocation fails, the lines before it are lost.
fn take_summary_line(
    alloc: Global,
    reader: &mut SummaryReader,
    line: &[u8],
) -> Result<Out, OutOfMemory>
    requires line { IsOneLine line.now }
    requires not_last { line.now ≡ texts.end_summary → ⊥ }
    requires counts { (lines : List (List ℕ)) × CountsAs lines reader.old }
    ensures keeps { (lines : List (List ℕ)) × CountsAs lines reader.new }
    ensures answer { IfOk result (λ out. (c : Config) (engine : EngineState) → Reacts c engine
        (state.summary reader.old) (server_line line.now) out engine (state.summary reader.new)) }
{
    match reader.take(line) {
        Ok(()) => Ok(no_lines(alloc)),
        Err(fault) => {
            *reader = SummaryReader::new(alloc);
            Err(fault)
        }
    }
}

// Takes the last line of a summary. If an allocation fails, the lines before it are lost.
fn end_summary(alloc: Global, phase: &mut Phase) -> Result<Out, OutOfMemory>
    requires phase { IsPhase phase.old }
    requires summary { (h : SummaryContent) × (client_of phase.old ≡ state.summary h) }
    ensures keeps { IsPhase phase.new }
    ensures answer { (c : Config) (engine : EngineState) → IfOk result
        (λ out. Reacts c engine (client_of phase.old)
        (server_line texts.end_summary) out engine (client_of phase.new)) }
    ensures given_up { OnErr result (client_of phase.new ≡ state.before_summary) }
{
    let Phase::Summary(reader) = phase else {
        return Ok(no_lines(alloc));
    };
    match reader.finish() {
        Ok(Some(offer)) => agree(alloc, phase, offer),
        Ok(None) => Ok(failed(alloc, SessionFault::BadSummary)),
        Err(fault) => {
            *phase = Phase::BeforeSummary;
            Err(fault)
        }
    }
}

// Agrees to the game that was offered.
fn agree(alloc: Global, phase: &mut Phase, offer: GameOffer) -> Result<Out, OutOfMemory>
    ensures phase { OnOk result (phase.new ≡ Agreeing offer) }
    ensures engine { IfOk result (λ out. out.to_engine ≡ []) }
    ensures server { IfOk result (λ out. out.to_server ≡ ended_line texts.agree) }
    ensures status { IfOk result (λ out. out.status ≡ Going) }
    ensures given_up { OnErr result (phase.new ≡ BeforeSummary) }
{
    match tell_server(alloc, texts::AGREE) {
        Ok(out) => {
            *phase = Phase::Agreeing(offer);
            Ok(out)
        }
        Err(fault) => {
            *phase = Phase::BeforeSummary;
            Err(fault)
        }
    }
}

// Takes a line after `AGREE` that does not start the game.
fn take_line_before_start(alloc: Global, line: &[u8]) -> Out
    requires { is_start_line line.now ≡ false }
    ensures { (c : Config) (engine : EngineState) (o : Offer) → Reacts c engine
        (state.agreeing o) (server_line line.now) result engine (state.agreeing o) }
{
    if is_reject_line(line) {
        return failed(alloc, SessionFault::Rejected);
    }
    no_lines(alloc)
}

// Tells the engine that a game starts, and asks it if its side is to move and may.
fn ask_first(
    alloc: Global,
    config: &Config,
    engine: &mut EngineState,
    offer: &GameOffer,
) -> Result<Out, OutOfMemory>
    requires { offer.now.game.ending ≡ None }
    ensures goes_on { IfOk result (λ out. PlayGoesOn config.now engine.old
        (begun offer.now) (ended_line usi_texts.new_game) out engine.new (begun offer.now)) }
    ensures engine { OnErr result (engine.new ≡ engine.old) }
{
    let lines = Lines::one(alloc, usi_texts::NEW_GAME)?;
    ask_engine(alloc, config, engine, offer.client, &offer.game, lines)
}

// Starts the game that was offered.
fn start(phase: &mut Phase)
    ensures { (o : GameOffer) → phase.old ≡ Agreeing o → phase.new ≡ InGame (begun o) }
{
    *phase = match mem::replace(phase, Phase::Idle) {
        Phase::Agreeing(offer) => Phase::InGame(Play {
            client: offer.client,
            game: offer.game,
            slip: false,
            stage: GameStage::Playing,
        }),
        other => other,
    };
}

// Takes a line after the start of the game.
fn take_game_line(
    alloc: Global,
    config: &Config,
    engine: &mut EngineState,
    play: &mut Play,
    line: &[u8],
) -> Result<Out, OutOfMemory>
    requires { IsPlay play.old }
    ensures keeps { IsPlay play.new }
    ensures answer { MatchResult result
        (λ out. Reacts config.now engine.old
        (play_client play.old) (server_line line.now) out engine.new (play_client play.new))
        (λ fault. Stays config.now engine.old
        (play_client play.old) (server_line line.now) engine.new (play_client play.new)) }
{
    match play.stage {
        GameStage::Playing | GameStage::Sent(_) => take_line_in_play(
            alloc, config, engine, play, line,
        ),
        GameStage::Reason(stated) => {
            if is_hash_line(line) {
                take_end(alloc, engine, play, stated, line)
            } else {
                Ok(no_lines(alloc))
            }
        }
        GameStage::Closing(stated, game_result) => {
            if is_same(line, texts::LOGOUT_COMPLETED) {
                play.stage = GameStage::Ended(stated, game_result);
                Ok(silent(alloc, Status::Done))
            } else {
                Ok(no_lines(alloc))
            }
        }
        GameStage::Ended(_, _) => Ok(no_lines(alloc)),
    }
}
