//! The position line of a record.

ghost use Rattle.std.specs.Prelude.{ℕ, List, IfErr, IfOk, IsErrOf};
ghost use Rattle.csa_record.specs.declared.flow.FlowFault.{FlowFault};
ghost use Rattle.record_commands.specs.Inputs.{IsOpenedAs, NamesFile, path_of};
ghost use Rattle.record_commands.specs.Reports.{FailsToReport, GetsRecord};
ghost use Rattle.record_commands.specs.Words.{IsPositionText};
ghost use Rattle.record_game.specs.Refused.{Refused};

use crate::inputs;
use crate::report::{self, RecordText};
use csa_record::{FlowFault, Record, Refusal};
use hash_comments::{HashComments, HashLines};
use shogi_board::OutOfMemory;
use std::alloc::Global;
use std::io;
use std::rt::Files;

/// Prints the USI position line of the start and the moves of the CSA V2.2 record in the file, and
/// LF. If no file is named, or the name is `-`, standard input is read. `hash_lines` says how lines
/// that begin with `#` are read.
///
/// Refuses `Refused` if the record is refused, `ReadFault` if it cannot be read, `OutOfMemory`, and
/// `WriteFault` if the line cannot be written to standard output.
pub fn run<R: Files + Input + Print + AllocGlobal>(
    rt: &R,
    file: Option<&str>,
    hash_lines: HashLines,
) -> Result<(), FlowFault>
    ensures refused { (r : Refusal) → IsErrOf result (FlowFault.Refused r)
        → (bytes : List ℕ) × Refused bytes r.number r.offset r.why }
    ensures fails { IfErr result (FailsToReport
        (GetsRecord (NamesFile (path_of file.entry)) (IsOpenedAs (path_of file.entry) hash_lines)
        ⟦<HashComments<inputs::Input<Box<R::Reader>, R::File>> as io::Read>⟧.remaining)
        IsPositionText) }
{
    report::run(rt, RecordText::PositionLine, file, hash_lines)
}

// The position line of the game's start and moves, and LF.
pub fn position_text(alloc: Global, game: &Record) -> Result<Vec<u8>, OutOfMemory>
    ensures { IfOk result (λ text. IsPositionText game.now text.items) }
{
    let mut line = usi_text::position_line(alloc, game.line())?;
    line.push(b'\n')?;
    Ok(line)
}
