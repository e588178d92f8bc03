// A game that has started: what the server's lines do to it.
//
// `server_side::take_game_line` passes each line on by the stage of the game. While the game is in
// play (`Playing`, `Sent`), `take_line_in_play` takes it, by its first byte:
//
// | Byte | Function | What it does |
// | --- | --- | --- |
// | `+`, `-` | `take_move` | plays the move, and play goes on; or the session fails |
// | `%` | `keep_ending` | keeps the ending if the line spells one, and goes to `Reason` |
// | `#` | `take_end` | keeps a reason and goes to `Reason`; or takes a result, to `Closing` |
//
// In `Reason` only lines that begin with `#` count, and `take_end` takes them too. The engine's
// answers are not here: `engine_side::take_answer` sends them, and goes to `Sent`.
//
// A move is read (`read_server_move`), judged by the game (`Line::fault`) and compared with the one
// that was sent (`is_expected`), in this order; the first that fails names the fault. After that
// `confirm` plays it, and asks the engine if its side is to move and may (`ask_engine`, which also
// does so at the start of a game).
//
// The stage and the engine's state change after the lines to send are made, so both stay if memory
// is refused. Only the move is played before: the engine is asked about the position after it.

ghost use Rattle.std.specs.Prelude.{◌≡◌, ◌↔◌, ◌≤◌, ℕ, true, Option, None, Some, is_some, [], ◌∷◌, map, IsTrue, IfOk, IfSome, OnOk, OnErr, MatchResult};
ghost use Rattle.csa_record.specs.Limits.{longest_time};
ghost use Rattle.csa_record.specs.Game.{Game, move_of};
ghost use Rattle.shogi_rules.specs.Play.{Answers};
ghost use Rattle.bridge_table.specs.declared.config.Config.{Config};
ghost use Rattle.bridge_table.specs.declared.event.Status.TheVariants.{Failed, Going};
ghost use Rattle.bridge_table.specs.declared.fault.MoveCause.TheVariants.{Refused};
ghost use Rattle.bridge_table.specs.declared.fault.SessionFault.TheVariants.{BadServerMove};
ghost use Rattle.bridge_table.specs.declared.state.Answer.TheVariants as given;
ghost use Rattle.shogi_session.specs.declared.phase.Play.{Play};
ghost use Rattle.shogi_session.specs.declared.phase.GameStage.TheVariants.{Playing};
ghost use Rattle.bridge_table.specs.Events.{server_line};
ghost use Rattle.session_lines.specs.LineTexts as texts;
ghost use Rattle.usi_text.specs.EngineTexts as usi_texts;
ghost use Rattle.session_lines.specs.MoveLines.{is_move_line};
ghost use Rattle.shogi_session.specs.Asked.{engine_after};
ghost use Rattle.shogi_session.specs.Phases.{Confirms, PlayGoesOn, IsOn, IsPlay, KeepsEnding, Reacts, Same, Stays, TellsEnd, closed, finish_of, match_in, play_client, waiting_in};
ghost use Rattle.bridge_table.specs.Row.{IsExpected, gameover_line, with_reason};
ghost use Rattle.session_lines.specs.ServerLines.{is_hash_line};
ghost use Rattle.bridge_table.specs.State.{game_with, match_line};
ghost use Rattle.session_lines.specs.Texts.{text_of};

use crate::answers::{failed, no_lines, to_engine};
use crate::asking::{Question, ask};
use crate::game_end::ending_by;
use crate::phase::{EndReport, GameStage, Play};
use crate::server_lines::{read_server_ending, read_server_move};
use bridge_table::{Answer, Config, EngineState, MoveCause, Out, SessionFault, Status};
use csa_record::{Record, Why};
use csa_text::Ending;
use session_lines::server_words::{
    EndReason, GameResult, is_ending_line, is_hash_line, read_reason, read_result,
};
use session_lines::{Lines, is_move_line, texts};
use shogi_board::{Color, OutOfMemory};
use shogi_rules::Move;
use std::alloc::Global;
use usi_text::texts as usi_texts;

// Takes a line of the server while the game is in play.
pub(crate) fn take_line_in_play(
    alloc: Global,
    config: &Config,
    engine: &mut EngineState,
    play: &mut Play,
    line: &[u8],
) -> Result<Out, OutOfMemory>
    requires on { IsOn play.old.stage }
    requires play { IsPlay play.old }
    ensures keeps { IsPlay play.new }
    ensures answer { MatchResult result
        (λ out. Reacts config.now engine.old
        (play_client play.old) (server_line line.now) out engine.new (play_client play.new))
        (λ fault. Stays config.now engine.old
        (play_client play.old) (server_line line.now) engine.new (play_client play.new)) }
{
    if is_move_line(line) {
        return take_move(alloc, config, engine, play, line);
    }
    if is_hash_line(line) {
        let stated = EndReport {
            ending: false,
            reason: None,
        };
        return take_end(alloc, engine, play, stated, line);
    }
    if is_ending_line(line) {
        keep_ending(play, line);
        return Ok(no_lines(alloc));
    }
    Ok(no_lines(alloc))
}

// Keeps the ending that the line spells, if it spells one.
fn keep_ending(play: &mut Play, line: &[u8])
    requires { play.old.game.ending ≡ None }
    ensures { KeepsEnding play.old line.now play.new }
{
    let Some((ending, time)) = read_server_ending(line) else {
        return;
    };
    end_with(play, ending, time);
    play.stage = GameStage::Reason(EndReport {
        ending: true,
        reason: None,
    });
}

// Adds this ending to the game, which has none.
fn end_with(play: &mut Play, ending: Ending, time: Option<u64>)
    requires none { play.old.game.ending ≡ None }
    requires time { IfSome time (λ t. t ≤ longest_time) }
    ensures { play.new ≡ record play.old {
      game = record play.old.game { ending = Some (record { ending = ending; time = time }) };
    } }
{
    let _ = play.game.close(ending);
    if let Some(thousandths) = time {
        let _ = play.game.set_time(thousandths);
    }
}

// Takes a line that begins with `+` or `-`.
fn take_move(
    alloc: Global,
    config: &Config,
    engine: &mut EngineState,
    play: &mut Play,
    line: &[u8],
) -> Result<Out, OutOfMemory>
    requires on { IsOn play.old.stage }
    requires play { IsPlay play.old }
    requires from_a_sign { is_move_line line.now ≡ true }
    ensures keeps { IsPlay play.new }
    ensures answer { MatchResult result
        (λ out. Reacts config.now engine.old
        (play_client play.old) (server_line line.now) out engine.new (play_client play.new))
        (λ fault. Stays config.now engine.old
        (play_client play.old) (server_line line.now) engine.new (play_client play.new)) }
{
    let (color, mv, time) = match read_server_move(line) {
        Ok(stated) => stated,
        Err(fault) => return Ok(refuse(alloc, Why::Text(fault))),
    };
    match play.game.line().fault(color, &mv) {
        Some(fault) => Ok(refuse(alloc, Why::from(fault))),
        None => {
            if is_expected(play, color, mv) {
                confirm(alloc, config, engine, play, color, mv, time)
            } else {
                Ok(failed(alloc, SessionFault::BadServerMove(MoveCause::Unsent)))
            }
        }
    }
}

fn refuse(alloc: Global, why: Why) -> Out
    ensures engine { result.to_engine ≡ [] }
    ensures server { result.to_server ≡ [] }
    ensures status { result.status ≡ Failed (BadServerMove (Refused why)) }
{
    failed(alloc, SessionFault::BadServerMove(MoveCause::Refused(why)))
}

// Whether the move is of the other side, or was sent and waits for confirmation.
fn is_expected(play: &Play, color: Color, mv: Move) -> bool
    ensures { (time : Option ℕ) → IsTrue result ↔ IsExpected
        (record { game = match_in play.now; waiting = waiting_in play.now.stage })
        color (record { move = mv; time = time }) }
{
    color != play.client || is_waiting(play.stage, mv)
}

// Whether that move was sent and waits for confirmation.
fn is_waiting(stage: GameStage, mv: Move) -> bool
    ensures { IsTrue result ↔ (waiting_in stage ≡ Some mv) }
{
    match stage {
        GameStage::Sent(answer) => is_move(answer, mv),
        GameStage::Playing
        | GameStage::Reason(_)
        | GameStage::Closing(_, _)
        | GameStage::Ended(_, _) => false,
    }
}

// Whether the answer is that move.
fn is_move(answer: Answer, mv: Move) -> bool
    ensures { IsTrue result ↔ (answer ≡ given.Move mv) }
{
    match answer {
        Answer::Move(sent) => is_same(sent, mv),
        Answer::Toryo | Answer::Kachi => false,
    }
}

// Whether the two moves are the same.
fn is_same(first: Move, second: Move) -> bool
    ensures { IsTrue result ↔ (first ≡ second) }
{
    first == second
}

// Plays the move, which may be played, and asks the engine if its side is to move then.
fn confirm(
    alloc: Global,
    config: &Config,
    engine: &mut EngineState,
    play: &mut Play,
    color: Color,
    mv: Move,
    time: Option<u64>,
) -> Result<Out, OutOfMemory>
    requires none { play.old.game.ending ≡ None }
    requires may { Answers (match_line (match_in play.old)) color mv None }
    requires time { IfSome time (λ t. t ≤ longest_time) }
    ensures { Confirms config.now engine.old play.old
        (record { move = mv; time = time }) result engine.new play.new }
{
    play_move(&mut play.game, color, mv, time)?;
    let out = ask_engine(
        alloc,
        config,
        engine,
        play.client,
        &play.game,
        Lines::new(alloc),
    )?;
    play.stage = GameStage::Playing;
    Ok(out)
}

// Adds the move with its time to the game, if it may be played.
fn play_move(
    game: &mut Record,
    color: Color,
    mv: Move,
    time: Option<u64>,
) -> Result<(), OutOfMemory>
    requires none { game.old.ending ≡ None }
    requires may { Answers (record { start = game.old.start; moves = map move_of game.old.moves })
        color mv None }
    requires time { IfSome time (λ t. t ≤ longest_time) }
    ensures ok { OnOk result
        (game.new ≡ game_with game.old (record { move = mv; time = time } ∷ [])) }
    ensures err { OnErr result (game.new ≡ game.old) }
{
    if game.play(color, mv).is_err() {
        return Err(OutOfMemory);
    }
    if let Some(thousandths) = time {
        let _ = game.set_time(thousandths);
    }
    Ok(())
}

// Adds to these lines those that ask the engine, if its side is to move and may. Play goes on.
pub(crate) fn ask_engine(
    alloc: Global,
    config: &Config,
    engine: &mut EngineState,
    client: Color,
    game: &Record,
    lines: Lines,
) -> Result<Out, OutOfMemory>
    requires { game.now.ending ≡ None }
    ensures goes_on { IfOk result (λ out. (p : Play) → p.client ≡ client → p.game ≡ game.now
        → PlayGoesOn config.now engine.old p lines out engine.new (record p { stage = Playing })) }
    ensures engine { OnErr result (engine.new ≡ engine.old) }
{
    let mut lines = lines;
    let question = ask(&mut lines, alloc, config, client, game)?;
    *engine = engine_after(*engine, question);
    Ok(to_engine(alloc, lines))
}

// The engine's state after it was asked, or was not.
fn engine_after(engine: EngineState, question: Question) -> EngineState
    ensures { result ≡ engine_after question engine }
{
    match question {
        Question::Asked => EngineState::Thinking,
        Question::NotAsked => engine,
    }
}

// Takes a line that begins with `#`, by what the server said of the end before.
pub(crate) fn take_end(
    alloc: Global,
    engine: &mut EngineState,
    play: &mut Play,
    stated: EndReport,
    line: &[u8],
) -> Result<Out, OutOfMemory>
    requires stated { TellsEnd play.old.stage stated }
    requires play { IsPlay play.old }
    requires hash { is_hash_line line.now ≡ true }
    ensures keeps { IsPlay play.new }
    ensures answer { (c : Config) → MatchResult result
        (λ out. Reacts c engine.old (play_client play.old)
        (server_line line.now) out engine.new (play_client play.new))
        (λ fault. Same engine.old (play_client play.old) engine.new (play_client play.new)) }
{
    match read_result(line) {
        Some(game_result) => {
            let out = say_end(alloc, game_result)?;
            play.stage = GameStage::Closing(end_report(play, stated.reason), game_result);
            close(play, stated.reason, game_result);
            *engine = EngineState::Ended;
            Ok(out)
        }
        None => {
            play.stage = GameStage::Reason(with_reason(stated, read_reason(line)));
            Ok(no_lines(alloc))
        }
    }
}

// Adds the reason, if there is none yet.
fn with_reason(stated: EndReport, reason: EndReason) -> EndReport
    ensures ending { result.ending ≡ stated.ending }
    ensures reason { (game : Game)
        → finish_of game result ≡ with_reason (finish_of game stated) reason }
{
    EndReport {
        ending: stated.ending,
        reason: Some(stated.reason.unwrap_or(reason)),
    }
}

// What the server said of the end: this reason, and the ending that the game has.
fn end_report(play: &Play, reason: Option<EndReason>) -> EndReport
    ensures ending { result.ending ≡ is_some play.now.game.ending }
    ensures reason { result.reason ≡ reason }
{
    EndReport {
        ending: play.game.ending().is_some(),
        reason,
    }
}

// Adds to the game the ending that follows from the reason and the result, if it has none.
fn close(play: &mut Play, reason: Option<EndReason>, game_result: GameResult)
    ensures { play.new ≡ record play.old { game = closed play.old reason game_result } }
{
    if let Some(ending) = ending_by(play.client, reason, game_result) {
        let _ = play.game.close(ending);
    }
}

// Tells the engine and the server that the game is over.
fn say_end(alloc: Global, game_result: GameResult) -> Result<Out, OutOfMemory>
    ensures engine { IfOk result
        (λ out. out.to_engine ≡ text_of (gameover_line game_result ∷ usi_texts.quit ∷ [])) }
    ensures server { IfOk result (λ out. out.to_server ≡ text_of (texts.logout ∷ [])) }
    ensures status { IfOk result (λ out. out.status ≡ Going) }
{
    let mut to_engine = Lines::one(alloc, gameover_line(game_result))?;
    to_engine.push(usi_texts::QUIT)?;
    let to_server = Lines::one(alloc, texts::LOGOUT)?;
    Ok(Out {
        to_engine,
        to_server,
        status: Status::Going,
    })
}

fn gameover_line(game_result: GameResult) -> &'static [u8]
    ensures { result.now ≡ gameover_line game_result }
{
    match game_result {
        GameResult::Win => usi_texts::GAME_WON,
        GameResult::Lose => usi_texts::GAME_LOST,
        GameResult::Draw | GameResult::Censored | GameResult::Chudan => usi_texts::GAME_DRAWN,
    }
}
