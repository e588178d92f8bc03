//! A machine that answers each line that comes over a wire, before more is received.

ghost use Rattle.std.specs.Prelude.{◌≡◌, ◌<◌, ◌≤◌, ◌↔◌, ℕ, List, length, IfOk, IfErr, IfSome};
ghost use Rattle.session_commands.specs.Talking.{EndsTalk, IsReply, TakesNext, TakesPiece};
ghost use Rattle.session_commands.specs.Talks.{BreaksOff, HasAnswered, IsUnsent, state_of};
ghost use Rattle.session_commands.specs.declared.talk.MachineState.{MachineState};

use crate::wire::Wire;
use csa_cutting::LineCutter;
use csa_record::PIECE;
use record_commands::streams;
use session_setup::TalkFault;
use shogi_board::OutOfMemory;
use shogi_session::{Host, HostOut, Sample, SampleOut};
use std::alloc::Global;

/// Whether a machine answers more lines.
#[derive(Clone, Copy)]
pub enum MachineState {
    /// It answers the next one.
    Running,
    /// It has ended, and answers none.
    Ended,
}

/// What answers lines, as the sample engine does: with the lines to send, and whether it has ended.
pub trait Machine {
    // The machine, a line, the bytes of its answer, whether the machine has ended, and the machine
    // after it.
    ghost answers: { Self → List ℕ → List ℕ → MachineState → Self → Type 0 };

    /// Answers a line. `line` has no line end. Returns `OutOfMemory` if an allocation fails.
    fn answer(&mut self, line: &[u8]) -> Result<SampleOut, OutOfMemory>
        ensures answer { IfOk result
            (λ reply. answers self.old line.now reply.lines (state_of reply.ended) self.new) };
}

impl Machine for Sample {
    ghost use Rattle.shogi_session.specs.Sample.{SampleRowText, quit};

    ghost answers = { (λ s line text state t. SampleRowText s line text t
        × ((state ≡ MachineState.Ended) ↔ (t ≡ quit))) };

    fn answer(&mut self, line: &[u8]) -> Result<SampleOut, OutOfMemory> {
        self.step(line)
    }
}

// Each move of the client counts as 0 seconds.
impl Machine for Host {
    ghost use Rattle.shogi_session.specs.Host.{ended};
    ghost use Rattle.shogi_session.specs.Hosting.{HostRowText};
    ghost use Rattle.shogi_session.specs.Texts.{without_last_spaces};

    ghost answers = { (λ s line text state t.
        HostRowText s.config s.state (without_last_spaces line) 0 text t.state
        × (t.config ≡ s.config) × ((state ≡ MachineState.Ended) ↔ (t.state ≡ ended))) };

    fn answer(&mut self, line: &[u8]) -> Result<SampleOut, OutOfMemory> {
        let HostOut { to_client, ended } = self.step(line, 0)?;
        Ok(SampleOut {
            lines: to_client,
            ended,
        })
    }
}

/// Answers each line that comes over the wire before more is received, until the machine ends or
/// the wire does. Returns whether the machine has ended.
///
/// Refuses `LineTooLong` as soon as a line has more than 65,536 bytes, `Read` if no more can be
/// received or 2^64 - 1 pieces came without an end, `Write` if an answer cannot be sent, and
/// `OutOfMemory`.
pub fn answer_all<M: Machine, X: Wire>(
    alloc: Global,
    machine: &mut M,
    wire: &mut X,
) -> Result<MachineState, TalkFault>
    ensures answered { IfOk result (λ state. HasAnswered
        X.came X.ends X.went M.answers wire.old machine.old state wire.new machine.new) }
    ensures breaks_off { IfErr result (λ fault. BreaksOff
        X.came X.ends X.went X.silent X.blocked M.answers wire.old machine.old fault wire.new) }
{
    let mut cutter = LineCutter::new(alloc, streams::LONGEST_LINE);
    let mut buffer = [0u8; PIECE];
    for _pieces in 0..u64::MAX {
        let taken = wire.receive(&mut buffer)?;
        if taken == 0 {
            return answer_last(&mut cutter, machine, wire);
        }
        match answer_piece(&mut cutter, machine, wire, &buffer[..taken])? {
            MachineState::Running => {}
            MachineState::Ended => return Ok(MachineState::Ended),
        }
    }
    Err(TalkFault::Read)
}

// Answers the unfinished line at the end of what came, if there is one. Returns whether the machine
// has ended.
fn answer_last<M: Machine, X: Wire>(
    cutter: &mut LineCutter,
    machine: &mut M,
    wire: &mut X,
) -> Result<MachineState, TalkFault>
    ensures talk { EndsTalk X.came X.ends X.went
        X.silent X.blocked M.answers cutter.old wire.old machine.old result wire.new machine.new }
{
    let last = match cutter.finish() {
        Ok(last) => last,
        Err(fault) => return Err(TalkFault::from(fault)),
    };
    match last {
        Some(line) => answer(machine, wire, line),
        None => Ok(MachineState::Running),
    }
}

// Answers the lines that end in the piece. Returns whether the machine has ended.
fn answer_piece<M: Machine, X: Wire>(
    cutter: &mut LineCutter,
    machine: &mut M,
    wire: &mut X,
    piece: &[u8],
) -> Result<MachineState, TalkFault>
    ensures talk { TakesPiece X.came X.ends X.went X.silent X.blocked
        M.answers cutter.old piece.now wire.old machine.old result cutter.new wire.new machine.new }
{
    let mut used = 0;
    while used < piece.len() {
        let Some(more) = answer_next(cutter, machine, wire, &piece[used..])? else {
            return Ok(MachineState::Ended);
        };
        used += more;
    }
    Ok(MachineState::Running)
}

// Answers the line that ends in the piece, if one does. Returns how many bytes of the piece were
// used, or None if the machine has ended.
fn answer_next<M: Machine, X: Wire>(
    cutter: &mut LineCutter,
    machine: &mut M,
    wire: &mut X,
    piece: &[u8],
) -> Result<Option<usize>, TalkFault>
    requires { 0 < length piece.now }
    ensures used { IfOk result (λ r. IfSome r (λ used. (0 < used) × (used ≤ length piece.now))) }
    ensures next { TakesNext X.came X.ends X.went X.silent X.blocked
        M.answers cutter.old piece.now wire.old machine.old result cutter.new wire.new machine.new }
{
    let (used, line) = match cutter.step(piece) {
        Ok(step) => step,
        Err(fault) => return Err(TalkFault::from(fault)),
    };
    let Some(line) = line else {
        return Ok(Some(used));
    };
    match answer(machine, wire, line)? {
        MachineState::Running => Ok(Some(used)),
        MachineState::Ended => Ok(None),
    }
}

// Answers a line. Returns whether the machine has ended.
fn answer<M: Machine, X: Wire>(
    machine: &mut M,
    wire: &mut X,
    line: &[u8],
) -> Result<MachineState, TalkFault>
    ensures replied { IfOk result (λ state.
        IsReply X.went M.answers wire.old machine.old line.now state wire.new machine.new) }
    ensures unsent { IfErr result
        (λ fault. IsUnsent X.blocked M.answers wire.old machine.old line.now wire.new fault) }
{
    let Ok(reply) = machine.answer(line) else {
        return Err(TalkFault::OutOfMemory);
    };
    wire.send(reply.lines.bytes())?;
    Ok(state_of(reply.ended))
}

fn state_of(ended: bool) -> MachineState
    ensures { result ≡ state_of ended }
{
    if ended {
        MachineState::Ended
    } else {
        MachineState::Running
    }
}
