//! A USI engine on standard input and output, which plays the first legal move.

ghost use Rattle.std.specs.Prelude.{◌≡◌, None, IfErr, OnOk};
ghost use Rattle.session_commands.specs.Talks.{BreaksOff, BytesCome, BytesGo, BytesStop, EndComes, HasAnswered, NothingComes, Passing};
ghost use Rattle.session_commands.specs.declared.talk.MachineState.{MachineState};
ghost use Rattle.shogi_session.specs.Sample.{SampleState, keeps};

use crate::talk::{self, Machine};
use crate::wire::{Exchange, Wire};
use session_setup::TalkFault;
use shogi_session::Sample;
use std::alloc::Global;
use std::io;

/// Answers each line of standard input before the next one is read, until `quit` or the end of the
/// input.
///
/// Refuses as `talk::answer_all` does.
pub fn run<R: Input + Print + AllocGlobal>(rt: &R) -> Result<(), TalkFault>
    ensures answered { OnOk result ((before after : Passing) × (state : MachineState)
        × (engine : SampleState) × HasAnswered BytesCome EndComes BytesGo
        ⟦<Sample as Machine>⟧.answers before (keeps None) state after engine) }
    ensures breaks_off { IfErr result (λ fault. (before after : Passing)
        × BreaksOff BytesCome EndComes BytesGo NothingComes BytesStop
        ⟦<Sample as Machine>⟧.answers before (keeps None) fault after) }
{
    let mut wire = Exchange::new(rt.reader(), io::writer(rt));
    answer(rt.alloc(), &mut wire)
}

// Answers the lines of the wire, with an engine that keeps no game yet.
fn answer<X: Wire>(alloc: Global, wire: &mut X) -> Result<(), TalkFault>
    ensures answered { OnOk result ((state : MachineState) × (engine : SampleState)
        × HasAnswered X.came X.ends X.went
        ⟦<Sample as Machine>⟧.answers wire.old (keeps None) state wire.new engine) }
    ensures breaks_off { IfErr result (λ fault. BreaksOff X.came X.ends X.went X.silent X.blocked
        ⟦<Sample as Machine>⟧.answers wire.old (keeps None) fault wire.new) }
{
    talk::answer_all(alloc, &mut Sample::new(alloc), wire)?;
    Ok(())
}
