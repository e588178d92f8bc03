ghost use Rattle.std.specs.Prelude.{◌≡◌, ◌++◌, ◌∷◌, [], ℕ, List, ◌≤◌, ◌↔◌, IsOk, IsTrue, IfOk, OnErr};
ghost use Rattle.host_and_sample.specs.Host.{IsHostConfig, waiting, offered, ended, summary_lines};
ghost use Rattle.host_and_sample.specs.declared.config.HostConfig.{HostConfig};
ghost use Rattle.host_and_sample.specs.Hosting.{HostRowText, StepRow};
ghost use Rattle.host_and_sample.specs.HostAnswers.{Begins, state_of};
ghost use Rattle.session_lines.specs.LineTexts as texts;
ghost use Rattle.session_lines.specs.Texts.{text_of};
ghost use Rattle.shogi_rules.specs.Positions.{max_moves};

use crate::config::HostConfig;
use crate::login::{is_login, push_summary, read_login};
use crate::playing::{answer_in_play, move_host};
use crate::stage::{HostReply, HostStage};
use crate::words::{first_word, is_word_and_one};
use arrayvec::ArrayVec;
use session_lines::texts::is_same;
use session_lines::{Lines, texts, without_last_spaces};
use shogi_board::{Color, OutOfMemory, Position};
use shogi_rules::Line;
use std::alloc::Global;
use std::marker::Model;
use std::mem;

/// The server's side of one game, in which it is the opponent too: it offers the even start with
/// black to move, and plays the first legal move.
///
/// It speaks the CSA server protocol with one client, one line per call.
#[derive(Drop)]
pub struct Host {
    alloc: Global,
    config: HostConfig,
    stage: HostStage,
}

impl Model for Host {
    ghost use Rattle.std.specs.Prelude.{◌≤◌};
    ghost use Rattle.host_and_sample.specs.Hosting.{HostSession};
    ghost use Rattle.host_and_sample.specs.HostAnswers.{state_of};
    ghost use Rattle.shogi_rules.specs.Positions.{max_moves};

    ghost Value = { HostSession };

    ghost view = { λ h. record { config = h.config; state = state_of h.stage } };

    ghost invariant = { λ h. h.config.max_moves ≤ max_moves };
}

/// What a host answers to a line.
#[derive(Drop)]
pub struct HostOut {
    /// The lines to send to the client.
    pub to_client: Lines,
    /// Whether the session is over. No line is answered after that.
    pub ended: bool,
}

impl Host {
    /// A host before login. Allocates nothing, and always returns `Ok`.
    pub fn new(alloc: Global, config: &HostConfig) -> Result<Host, OutOfMemory>
        requires config { IsHostConfig config.now }
        ensures made { IsOk result }
        ensures config { IfOk result (λ h. h.config ≡ config.now) }
        ensures state { IfOk result (λ h. h.state ≡ waiting) }
    {
        Ok(Host {
            alloc,
            config: *config,
            stage: HostStage::Waiting,
        })
    }

    /// Answers a line. `line` has no line end; spaces at its end do not count. `seconds` is the
    /// time that the client took for it.
    ///
    /// - Before login, `LOGIN name password` gives `LOGIN:name OK` and the game summary. Another
    ///   line whose first word is `LOGIN` gives `LOGIN:incorrect`.
    /// - After the summary, `AGREE` gives `START:` and the game's name. `REJECT` gives `REJECT:`,
    ///   and ends the session.
    /// - In the game, a legal move is sent back with its time, and the host's move follows. Another
    ///   line that begins with `+` or `-` loses. `%TORYO` resigns. `%KACHI` wins; the declaration
    ///   is not judged.
    /// - The host resigns if it has no legal move. The game also ends at a repetition or a
    ///   perpetual check, and after the last move that it may have.
    /// - `LOGOUT` gives `LOGOUT:completed`, and ends the session.
    /// - Other lines are skipped.
    ///
    /// Returns `OutOfMemory` if an allocation fails; the session is over then. Once it is over,
    /// every call returns `Ok` without lines.
    pub fn step(&mut self, line: &[u8], seconds: u32) -> Result<HostOut, OutOfMemory>
        ensures row { IfOk result
            (λ out. (lines : List (List ℕ)) × StepRow self.old line.now seconds lines self.new) }
        ensures to_client { IfOk result (λ out. (lines : List (List ℕ))
            → StepRow self.old line.now seconds lines self.new → out.to_client ≡ text_of lines) }
        ensures config { self.new.config ≡ self.old.config }
        ensures ended { IfOk result (λ out. IsTrue out.ended ↔ (self.new.state ≡ ended)) }
        ensures lost { OnErr result (self.new.state ≡ ended) }
        ensures over { self.old.state ≡ ended → IsOk result }
        ensures silent { self.old.state ≡ ended → IfOk result (λ out. out.to_client ≡ []) }
        ensures stays { self.old.state ≡ ended → self.new.state ≡ ended }
    {
        let stage = mem::replace(&mut self.stage, HostStage::Ended);
        let reply = answer(
            self.alloc,
            &self.config,
            stage,
            without_last_spaces(line),
            seconds,
        )?;
        let ended = is_ended(&reply.stage);
        self.stage = reply.stage;
        Ok(HostOut {
            to_client: reply.lines,
            ended,
        })
    }
}

fn is_ended(stage: &HostStage) -> bool
    ensures { IsTrue result ↔ (state_of stage.now ≡ ended) }
{
    match stage {
        HostStage::Ended => true,
        _ => false,
    }
}

// Answers a line without its last spaces. `stage` is the stage before it.
fn answer(
    alloc: Global,
    config: &HostConfig,
    stage: HostStage,
    line: &[u8],
    seconds: u32,
) -> Result<HostReply, OutOfMemory>
    requires { config.now.max_moves ≤ max_moves }
    ensures row { IfOk result
        (λ r. HostRowText config.now (state_of stage) line.now seconds r.lines (state_of r.stage)) }
    ensures over { state_of stage ≡ ended → IsOk result }
{
    if is_same(line, texts::LOGOUT) {
        return log_out(alloc, stage);
    }
    match stage {
        HostStage::Waiting => log_in(alloc, config, line),
        HostStage::Offering(name) => agree(alloc, config, name, line),
        HostStage::Playing(game) => answer_in_play(alloc, config, game, line, seconds),
        HostStage::Decided => Ok(HostReply {
            stage: HostStage::Decided,
            lines: Lines::new(alloc),
        }),
        HostStage::Ended => Ok(HostReply {
            stage: HostStage::Ended,
            lines: Lines::new(alloc),
        }),
    }
}

// Answers `LOGOUT`.
fn log_out(alloc: Global, stage: HostStage) -> Result<HostReply, OutOfMemory>
    ensures row { (config : HostConfig) (seconds : ℕ) → IfOk result
        (λ r. HostRowText config (state_of stage) texts.logout seconds r.lines (state_of r.stage)) }
    ensures over { state_of stage ≡ ended → IsOk result }
{
    if is_ended(&stage) {
        return Ok(HostReply {
            stage,
            lines: Lines::new(alloc),
        });
    }
    Ok(HostReply {
        stage: HostStage::Ended,
        lines: Lines::one(alloc, texts::LOGOUT_COMPLETED)?,
    })
}

// Answers a line before login. It is not `LOGOUT`.
fn log_in(alloc: Global, config: &HostConfig, line: &[u8]) -> Result<HostReply, OutOfMemory>
    requires { line.now ≡ texts.logout → ⊥ }
    ensures { (seconds : ℕ) → IfOk result
        (λ r. HostRowText config.now waiting line.now seconds r.lines (state_of r.stage)) }
{
    match read_login(line) {
        Some(name) => offer(alloc, config, name),
        None => {
            if is_login(first_word(line)) {
                Ok(HostReply {
                    stage: HostStage::Waiting,
                    lines: Lines::one(alloc, texts::LOGIN_INCORRECT)?,
                })
            } else {
                Ok(HostReply {
                    stage: HostStage::Waiting,
                    lines: Lines::new(alloc),
                })
            }
        }
    }
}

// Accepts the login, and offers the game to the client of that name.
fn offer(
    alloc: Global,
    config: &HostConfig,
    name: ArrayVec<u8, 32>,
) -> Result<HostReply, OutOfMemory>
    ensures { IfOk result (λ r. (state_of r.stage ≡ offered name.items)
        × (r.lines ≡ text_of ((texts.login_answer ++ (name.items ++ texts.ok))
        ∷ summary_lines config.now name.items))) }
{
    let mut lines = Lines::new(alloc);
    lines.push_part(texts::LOGIN_ANSWER)?;
    lines.push_joined(name.as_slice(), texts::OK)?;
    push_summary(&mut lines, config, name.as_slice())?;
    Ok(HostReply {
        stage: HostStage::Offering(name),
        lines,
    })
}

// Answers a line after the summary. It is not `LOGOUT`.
fn agree(
    alloc: Global,
    config: &HostConfig,
    name: ArrayVec<u8, 32>,
    line: &[u8],
) -> Result<HostReply, OutOfMemory>
    requires few { config.now.max_moves ≤ max_moves }
    requires stays { line.now ≡ texts.logout → ⊥ }
    ensures { (seconds : ℕ) → IfOk result
        (λ r. HostRowText config.now (offered name.items) line.now seconds r.lines
        (state_of r.stage)) }
{
    if is_word_and_one(line, texts::AGREE) {
        begin(alloc, config)
    } else if is_word_and_one(line, texts::REJECT) {
        reject(alloc, config, name.as_slice())
    } else {
        Ok(HostReply {
            stage: HostStage::Offering(name),
            lines: Lines::new(alloc),
        })
    }
}

// Says that the client of that name rejected the game.
fn reject(alloc: Global, config: &HostConfig, name: &[u8]) -> Result<HostReply, OutOfMemory>
    ensures { IfOk result (λ r. (state_of r.stage ≡ ended)
        × (r.lines ≡ text_of ((texts.rejected ++ (config.now.id.bytes ++ (texts.by ++ name.now)))
        ∷ []))) }
{
    let mut lines = Lines::new(alloc);
    lines.push_part(texts::REJECTED)?;
    lines.push_part(config.id.as_str().as_bytes())?;
    lines.push_joined(texts::BY, name)?;
    Ok(HostReply {
        stage: HostStage::Ended,
        lines,
    })
}

// Begins the game, with the host's move if the host has black.
fn begin(alloc: Global, config: &HostConfig) -> Result<HostReply, OutOfMemory>
    requires { config.now.max_moves ≤ max_moves }
    ensures { IfOk result (λ r. Begins config.now r.lines (state_of r.stage)) }
{
    let mut lines = Lines::new(alloc);
    lines.push_joined(texts::START, config.id.as_str().as_bytes())?;
    let game = Line::new(alloc, Position::even())?;
    match config.client {
        Color::Black => Ok(HostReply {
            stage: HostStage::Playing(game),
            lines,
        }),
        Color::White => move_host(config, game, lines),
    }
}
