//! The canonical text of a record.

ghost use Rattle.std.specs.Prelude.{◌≡◌, ◌≢◌, ℕ, ◌+◌, ◌-◌, ◌^◌, ◌<◌, true, List, Ok, IfErr, IsErrOf, OnOk};
ghost use Rattle.std.specs.Io.KnownBytes.{Keeps};
ghost use Rattle.csa_record.specs.Flow.{AppendsFront};
ghost use Rattle.csa_record.specs.declared.flow.FlowFault.{FlowFault};
ghost use Rattle.record_commands.specs.Inputs.{IsOpenedAs, NamesFile, path_of};
ghost use Rattle.record_commands.specs.Reports.{FailsToReport, GetsRecord};
ghost use Rattle.record_commands.specs.Printing.{Reports};
ghost use Rattle.record_commands.specs.Words.{IsCanonical};
ghost use Rattle.record_game.specs.Canon.{canon};
ghost use Rattle.record_game.specs.Game.{Game};
ghost use Rattle.record_game.specs.Refused.{Refused};

use crate::inputs::{self, Inputs, RuntimeInputs};
use csa_record::{FlowFault, Reading, Refusal, Sink, Writing};
use hash_comments::{HashComments, HashLines};
use std::alloc::Global;
use std::io;
use std::rt::Files;

/// Prints the canonical text of the CSA V2.2 record in the file. If no file is named, or the name
/// is `-`, standard input is read. `hash_lines` says how lines that begin with `#` are read.
/// Nothing is printed before the whole record is accepted.
///
/// Refuses `ReadFault` if the file cannot be opened, and then as `csa_record::normalise` does.
pub fn run<R: Files + Input + Print + AllocGlobal>(
    rt: &R,
    file: Option<&str>,
    hash_lines: HashLines,
) -> Result<(), FlowFault>
    ensures refused { (r : Refusal) → IsErrOf result (FlowFault.Refused r)
        → (bytes : List ℕ) × Refused bytes r.number r.offset r.why }
    ensures fails { IfErr result (FailsToReport
        (GetsRecord (NamesFile (path_of file.entry)) (IsOpenedAs (path_of file.entry) hash_lines)
        ⟦<HashComments<inputs::Input<Box<R::Reader>, R::File>> as io::Read>⟧.remaining)
        IsCanonical) }
{
    normal(
        rt.alloc(),
        &RuntimeInputs::new(rt, hash_lines),
        file,
        &mut Writing::new(io::writer(rt)),
    )
}

// Writes that text of the record of the file, or of standard input, to the sink.
fn normal<I: Inputs, T: Sink>(
    alloc: Global,
    inputs: &I,
    file: Option<&str>,
    sink: &mut T,
) -> Result<(), FlowFault>
    requires countable { T.failed sink.old < 2 ^ 64 - 1 }
    ensures accepted { OnOk result
        (Reports (GetsRecord (I.opens_not inputs.now (path_of file.entry))
        (I.opens inputs.now (path_of file.entry)) I.Input.Read.remaining)
        IsCanonical (T.held sink.old) (T.held sink.new)) }
    ensures settled { OnOk result (T.settled sink.new ≡ true) }
    ensures fails { IfErr result (FailsToReport
        (GetsRecord (I.opens_not inputs.now (path_of file.entry))
        (I.opens inputs.now (path_of file.entry)) I.Input.Read.remaining)
        IsCanonical) }
    // After a failed write the sink holds the front of the text.
    ensures cut_short { IsErrOf result FlowFault.WriteFault
        → (game : Game) × GetsRecord (I.opens_not inputs.now (path_of file.entry))
        (I.opens inputs.now (path_of file.entry)) I.Input.Read.remaining (Ok game)
        × AppendsFront (T.held sink.old) (T.held sink.new) (canon game) }
    ensures write_fault { IsErrOf result FlowFault.WriteFault
        → T.failed sink.new ≡ T.failed sink.old + 1 }
    ensures sink_quiet { (IsErrOf result FlowFault.WriteFault → ⊥)
        → T.failed sink.new ≡ T.failed sink.old }
    ensures unwritten { IfErr result
        (λ fault. fault ≢ FlowFault.WriteFault → Keeps (T.held sink.old) (T.held sink.new)) }
{
    let input = inputs.open(file)?;
    csa_record::normalise(alloc, &mut Reading::new(input), sink)
}
