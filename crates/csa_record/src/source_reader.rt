ghost use Rattle.std.specs.Prelude.{◌≡◌, true, ◌-◌, ◌^◌, ◌<◌, [], IfOk, IsErrOf};
ghost use Rattle.csa_record.specs.declared.flow.FlowFault.{FlowFault};
ghost use Rattle.csa_record.specs.RecordReading.{HasRead};
ghost use Rattle.csa_record.specs.Flow.{GaveGame, IsRefusal, IsFaultless, FailsRead, ReadsRecord};

use crate::flow::{FlowFault, PIECE, feed_all};
use crate::laying::Laying;
use crate::record::Record;
use crate::record_reader::RecordReader;
use crate::source::Source;
use record_game::Refusal;
use std::alloc::Global;
use std::marker::Model;

/// Reads the CSA records that sources give, one source after another. It does what `read_from` does
/// for each, but keeps its buffers from one to the next.
#[derive(Drop)]
pub struct SourceReader {
    alloc: Global,
    // what is laid out before any statement: a copy takes less than a new one
    laying: Laying,
    // as if new between two records
    reader: RecordReader,
    buffer: [u8; PIECE],
}

impl Model for SourceReader {
    ghost use Rattle.std.specs.Prelude.{[]};
    ghost use Rattle.csa_record.specs.RecordReading.{RecordReading, HasRead};
    ghost use Rattle.record_game.specs.Laying.{Lays};

    ghost Value = { RecordReading };

    ghost view = { λ s. s.reader };

    ghost invariant = { λ s. HasRead [] s.reader × Lays [] s.laying };
}

impl SourceReader {
    /// Creates a reader that has read no source. Allocates nothing.
    pub fn new(alloc: Global) -> SourceReader
        ensures start { HasRead [] result }
    {
        SourceReader {
            alloc,
            laying: Laying::new(),
            reader: RecordReader::new(alloc),
            buffer: [0; PIECE],
        }
    }

    /// Reads the CSA record that a source gives, as `read_from` does, with the same refusals. After
    /// that the reader is as if new, whatever it returned. Only to be called if the source has
    /// failed fewer than 2^64 - 1 times so far.
    pub fn read<S: Source>(&mut self, source: &mut S) -> Result<Record, FlowFault>
        requires countable { S.failed source.old < 2 ^ 64 - 1 }
        ensures stated { IfOk result (λ g. GaveGame (S.known source.old) (S.known source.new) g) }
        ensures ended { IfOk result (λ _. S.ended source.new ≡ true) }
        ensures refused { (r : Refusal) → IsErrOf result (FlowFault.Refused r)
            → IsRefusal (S.known source.old) (S.known source.new) (S.ended source.new) r }
        ensures read_fault { IsErrOf result FlowFault.ReadFault
            → FailsRead (S.known source.old) (S.known source.new)
            (S.failed source.old) (S.failed source.new) }
        ensures unended { IsErrOf result FlowFault.ReadFault
            → S.ended source.new ≡ S.ended source.old }
        ensures quiet { (IsErrOf result FlowFault.ReadFault → ⊥)
            → S.failed source.new ≡ S.failed source.old }
        ensures memory { IsErrOf result FlowFault.OutOfMemory
            → IsFaultless (S.known source.old) (S.known source.new) (S.ended source.new) }
        ensures no_write { IsErrOf result FlowFault.WriteFault → ⊥ }
        ensures anew { HasRead [] self.new }
    {
        self.read_next(source)
    }

    // Reads the record, and makes the reader as if new.
    fn read_next<S: Source>(&mut self, source: &mut S) -> Result<Record, FlowFault>
        requires { S.failed source.old < 2 ^ 64 - 1 }
        ensures read { ReadsRecord (S.known source.old) (S.known source.new) (S.ended source.new)
            (S.failed source.old) (S.failed source.new) result }
        ensures unended { IsErrOf result FlowFault.ReadFault
            → S.ended source.new ≡ S.ended source.old }
        ensures anew { HasRead [] self.new }
    {
        let fed = feed_all(source, &mut self.reader, &mut self.buffer);
        let ended = self.reader.finish_anew(self.alloc, self.laying);
        fed?;
        match ended {
            Ok(record) => Ok(record),
            Err(refusal) => Err(FlowFault::from(refusal)),
        }
    }
}
