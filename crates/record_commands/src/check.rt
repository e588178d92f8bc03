//! Whether a record is accepted, how many moves it has, and the state of the game after them.

ghost use Rattle.std.specs.Prelude.{◌≡◌, ℕ, List, string_bytes, IfErr, IfOk, IsErrOf};
ghost use Rattle.csa_record.specs.declared.flow.FlowFault.{FlowFault};
ghost use Rattle.record_game.specs.Refused.{Refused};
ghost use Rattle.record_commands.specs.Inputs.{IsOpenedAs, NamesFile, path_of};
ghost use Rattle.record_commands.specs.Reports.{FailsToReport, GetsRecord};
ghost use Rattle.record_commands.specs.Words.{IsAcceptedLine, accepted_line, word_of};

use crate::inputs;
use crate::report::{self, RecordText};
use csa_record::{FlowFault, Record, Refusal};
use hash_comments::{HashComments, HashLines};
use shogi_board::Color;
use shogi_rules::Verdict;
use std::alloc::{AllocError, Global};
use std::io;
use std::rt::Files;

/// Prints `accepted N V`: the number of moves of the CSA V2.2 record in the file, and the word for
/// the state of the game after them. If no file is named, or the name is `-`, standard input is
/// read. `hash_lines` says how lines that begin with `#` are read.
///
/// Refuses `Refused` if the record is refused, `ReadFault` if it cannot be read, `OutOfMemory`, and
/// `WriteFault` if the line cannot be written to standard output.
pub fn run<R: Files + Input + Print + AllocGlobal>(
    rt: &R,
    file: Option<&str>,
    hash_lines: HashLines,
) -> Result<(), FlowFault>
    ensures refused { (r : Refusal) → IsErrOf result (FlowFault.Refused r)
        → (bytes : List ℕ) × Refused bytes r.number r.offset r.why }
    ensures fails { IfErr result (FailsToReport
        (GetsRecord (NamesFile (path_of file.entry)) (IsOpenedAs (path_of file.entry) hash_lines)
        ⟦<HashComments<inputs::Input<Box<R::Reader>, R::File>> as io::Read>⟧.remaining)
        IsAcceptedLine) }
{
    report::run(rt, RecordText::Accepted, file, hash_lines)
}

/// The line of an accepted record, `accepted N V`, and LF.
///
/// Returns an error if an allocation fails.
pub fn accepted(alloc: Global, game: &Record) -> Result<String, AllocError>
    ensures { IfOk result (λ text. IsAcceptedLine game.now (string_bytes text)) }
{
    let line = game.line();
    accepted_line(alloc, line.moves().len(), line.verdict())
}

fn accepted_line(alloc: Global, moves: usize, verdict: Verdict) -> Result<String, AllocError>
    ensures { IfOk result (λ text. string_bytes text ≡ accepted_line moves verdict) }
{
    let word = word(verdict);
    format!(in alloc; "accepted {moves} {word}\n")
}

// The word for the state of a game; for a perpetual check, with the sign of the side that lost.
fn word(verdict: Verdict) -> &'static str
    ensures { result.now ≡ word_of verdict }
{
    match verdict {
        Verdict::Ongoing => "ongoing",
        Verdict::Mate => "mate",
        Verdict::NoMove => "no-move",
        Verdict::Repetition => "repetition",
        Verdict::Perpetual(Color::Black) => "perpetual+",
        Verdict::Perpetual(Color::White) => "perpetual-",
    }
}
