ghost use Rattle.std.specs.Prelude.{◌≡◌, ◌↔◌, ℕ, List, [], IfOk, IsTrue, MatchResult, true};
ghost use Rattle.bridge_table.specs.declared.config.Config.{Config};
ghost use Rattle.bridge_table.specs.declared.state.Answer.{Answer};
ghost use Rattle.bridge_table.specs.declared.event.Status.TheVariants.{Going};
ghost use Rattle.shogi_session.specs.declared.phase.GameStage.TheVariants.{Playing};
ghost use Rattle.bridge_table.specs.declared.state.EngineState.TheVariants.{Greeting, Readying, Thinking};
ghost use Rattle.bridge_table.specs.Events.{engine_line};
ghost use Rattle.shogi_session.specs.Phases.{IsPhase, IsPlay, Reacts, Same, answer_for, client_of, play_client};
ghost use Rattle.bridge_table.specs.Row.{IsBestMove, answer_text, login_line};
ghost use Rattle.bridge_table.specs.State.{Client, client_state};
ghost use Rattle.bridge_table.specs.declared.state.ClientState.TheVariants as clients;
ghost use Rattle.session_lines.specs.Texts.{ended_line};
ghost use Rattle.usi_text.specs.declared.engine.EngineWord.TheVariants.{ReadyOk, UsiOk};
ghost use Rattle.usi_text.specs.Engine.{LineSays};
ghost use Rattle.usi_text.specs.Words.{words};

use crate::answers::{no_lines, tell_engine, tell_server};
use crate::best_move::{BestMove, read_best_move};
use crate::phase::{GameStage, Phase, Play};
use bridge_table::{Answer, Config, EngineState, Out, Status};
use csa_text::csa_move;
use session_lines::{Lines, texts};
use shogi_board::{Color, OutOfMemory};
use std::alloc::Global;
use usi_text::{EngineWord, read_engine_line, texts as usi_texts};

// Takes a line of the engine, without the spaces at its end.
pub(crate) fn take_engine_line(
    alloc: Global,
    config: &Config,
    engine: &mut EngineState,
    phase: &mut Phase,
    line: &[u8],
) -> Result<Out, OutOfMemory>
    requires phase { IsPhase phase.old }
    ensures keeps { IsPhase phase.new }
    ensures answer { MatchResult result
        (λ out. Reacts config.now engine.old
        (client_of phase.old) (engine_line line.now) out engine.new (client_of phase.new))
        (λ fault. Same engine.old (client_of phase.old) engine.new (client_of phase.new)) }
{
    match *engine {
        EngineState::Greeting => greet(alloc, engine, line),
        EngineState::Readying => log_in(alloc, config, engine, phase, line),
        EngineState::Thinking => take_line_of_thinking(alloc, engine, phase, line),
        EngineState::New | EngineState::Ready | EngineState::Ended => Ok(no_lines(alloc)),
    }
}

// Waits for `usiok`, and then sends `isready`.
fn greet(alloc: Global, engine: &mut EngineState, line: &[u8]) -> Result<Out, OutOfMemory>
    requires { engine.old ≡ Greeting }
    ensures { (c : Config) (client : Client) → MatchResult result
        (λ out. Reacts c engine.old client (engine_line line.now) out engine.new client)
        (λ fault. Same engine.old client engine.new client) }
{
    if !is_usi_ok(line) {
        return Ok(no_lines(alloc));
    }
    let out = tell_engine(alloc, usi_texts::IS_READY)?;
    *engine = EngineState::Readying;
    Ok(out)
}

// Whether the line is `usiok`.
fn is_usi_ok(line: &[u8]) -> bool
    ensures { IsTrue result ↔ LineSays (words line.now) UsiOk }
{
    match read_engine_line(line) {
        EngineWord::UsiOk => true,
        _ => false,
    }
}

// Whether the line is `readyok`.
fn is_ready_ok(line: &[u8]) -> bool
    ensures { IsTrue result ↔ LineSays (words line.now) ReadyOk }
{
    match read_engine_line(line) {
        EngineWord::ReadyOk => true,
        _ => false,
    }
}

// Waits for `readyok`, and then logs in.
fn log_in(
    alloc: Global,
    config: &Config,
    engine: &mut EngineState,
    phase: &mut Phase,
    line: &[u8],
) -> Result<Out, OutOfMemory>
    requires state { engine.old ≡ Readying }
    requires phase { IsPhase phase.old }
    ensures keeps { IsPhase phase.new }
    ensures answer { MatchResult result
        (λ out. Reacts config.now engine.old
        (client_of phase.old) (engine_line line.now) out engine.new (client_of phase.new))
        (λ fault. Same engine.old (client_of phase.old) engine.new (client_of phase.new)) }
{
    if !is_ready_ok(line) {
        return Ok(no_lines(alloc));
    }
    let out = login(alloc, config)?;
    *engine = EngineState::Ready;
    *phase = Phase::LoggingIn;
    Ok(out)
}

// `LOGIN`, the name and the password.
fn login(alloc: Global, config: &Config) -> Result<Out, OutOfMemory>
    ensures engine { IfOk result (λ out. out.to_engine ≡ []) }
    ensures server { IfOk result (λ out. out.to_server ≡ ended_line (login_line config.now)) }
    ensures status { IfOk result (λ out. out.status ≡ Going) }
{
    let mut lines = Lines::new(alloc);
    lines.push_part(texts::LOGIN)?;
    lines.push_part(texts::SPACE)?;
    lines.push_part(config.name.as_str().as_bytes())?;
    lines.push_joined(texts::SPACE, config.password.as_str().as_bytes())?;
    Ok(Out {
        to_engine: Lines::new(alloc),
        to_server: lines,
        status: Status::Going,
    })
}

// Takes a line of an engine that was asked for a move. If its game is no longer in play, it is
// ready for the next.
fn take_line_of_thinking(
    alloc: Global,
    engine: &mut EngineState,
    phase: &mut Phase,
    line: &[u8],
) -> Result<Out, OutOfMemory>
    requires state { engine.old ≡ Thinking }
    requires phase { IsPhase phase.old }
    ensures keeps { IsPhase phase.new }
    ensures answer { (c : Config) → MatchResult result
        (λ out. Reacts c engine.old (client_of phase.old)
        (engine_line line.now) out engine.new (client_of phase.new))
        (λ fault. Same engine.old (client_of phase.old) engine.new (client_of phase.new)) }
{
    match phase {
        Phase::InGame(play) => {
            if is_playing(play.stage) {
                take_answer(alloc, engine, play, line)
            } else {
                Ok(take_late_line(alloc, engine, line))
            }
        }
        Phase::Idle
        | Phase::LoggingIn
        | Phase::BeforeSummary
        | Phase::Summary(_)
        | Phase::Agreeing(_) => Ok(take_late_line(alloc, engine, line)),
    }
}

fn is_playing(stage: GameStage) -> bool
    ensures { IsTrue result ↔ (stage ≡ Playing) }
{
    match stage {
        GameStage::Playing => true,
        _ => false,
    }
}

// Takes a line of an engine whose game is no longer in play: after its answer it is ready for the
// next.
fn take_late_line(alloc: Global, engine: &mut EngineState, line: &[u8]) -> Out
    requires { engine.old ≡ Thinking }
    ensures { (c : Config) (client : Client) → (client_state client ≡ clients.Playing → ⊥)
        → Reacts c engine.old client (engine_line line.now) result engine.new client }
{
    if !is_best_move(line) {
        return no_lines(alloc);
    }
    *engine = EngineState::Ready;
    no_lines(alloc)
}

// Whether the first word of the line is `bestmove`.
fn is_best_move(line: &[u8]) -> bool
    ensures { IsTrue result ↔ ((word : List ℕ) × IsBestMove line.now word) }
{
    match read_engine_line(line) {
        EngineWord::Best(_) | EngineWord::Resign | EngineWord::Win => true,
        EngineWord::UsiOk | EngineWord::ReadyOk | EngineWord::Other => false,
    }
}

// Sends the server the engine's answer.
fn take_answer(
    alloc: Global,
    engine: &mut EngineState,
    play: &mut Play,
    line: &[u8],
) -> Result<Out, OutOfMemory>
    requires state { engine.old ≡ Thinking }
    requires stage { play.old.stage ≡ Playing }
    requires play { IsPlay play.old }
    ensures keeps { IsPlay play.new }
    ensures answer { (c : Config) → MatchResult result
        (λ out. Reacts c engine.old (play_client play.old)
        (engine_line line.now) out engine.new (play_client play.new))
        (λ fault. Same engine.old (play_client play.old) engine.new (play_client play.new)) }
{
    let Some(best) = read_best_move(&play.game.line().now(), line) else {
        return Ok(no_lines(alloc));
    };
    let answer = answer_for(best);
    let out = say(alloc, play.client, answer)?;
    play.slip = has_slipped(best, play.slip);
    play.stage = GameStage::Sent(answer);
    *engine = EngineState::Ready;
    Ok(out)
}

// Sends the server an answer of the engine, which plays this side.
fn say(alloc: Global, client: Color, answer: Answer) -> Result<Out, OutOfMemory>
    ensures engine { IfOk result (λ out. out.to_engine ≡ []) }
    ensures server { IfOk result (λ out. out.to_server ≡ ended_line (answer_text client answer)) }
    ensures status { IfOk result (λ out. out.status ≡ Going) }
{
    match answer {
        Answer::Move(mv) => tell_server(alloc, csa_move(client, &mv).as_str().as_bytes()),
        Answer::Toryo => tell_server(alloc, texts::TORYO),
        Answer::Kachi => tell_server(alloc, texts::KACHI),
    }
}

// What is sent for what the engine says. A slip resigns.
fn answer_for(best: BestMove) -> Answer
    ensures { result ≡ answer_for best }
{
    match best {
        BestMove::Answer(answer) => answer,
        BestMove::Slip => Answer::Toryo,
    }
}

// Whether the engine has slipped, this time included.
fn has_slipped(best: BestMove, before: bool) -> bool
    ensures slips { best ≡ BestMove.Slip → result ≡ true }
    ensures answers { (answer : Answer) → best ≡ BestMove.Answer answer → result ≡ before }
{
    match best {
        BestMove::Answer(_) => before,
        BestMove::Slip => true,
    }
}
