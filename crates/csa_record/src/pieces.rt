ghost use Rattle.std.specs.Prelude.{◌≡◌, ◌≢◌, ◌^◌, ◌≤◌, length, Ok, Err, IfOk, IfErr};
ghost use Rattle.csa_record.specs.RecordReading.{bytes_of};
ghost use Rattle.record_game.specs.Pieces.{joined, ReadsPieces};
ghost use Rattle.record_game.specs.Refused.{FaultlessTo};

use crate::record::Record;
use crate::record_reader::RecordReader;
use record_game::{Refusal, Why};
use std::alloc::Global;

/// Reads a CSA record that is cut into these pieces, of at most 2^63 bytes in all.
///
/// However it is cut, returns what `read` returns for the bytes of all pieces, memory aside: the
/// game, or the first statement with a fault, its offset in bytes, and the fault. Returns
/// `Why::OutOfMemory` if an allocation fails, which means that no statement up to that point has a
/// fault.
pub fn read_pieces(alloc: Global, pieces: &[&[u8]]) -> Result<Record, Refusal>
    requires room { length (joined (bytes_of pieces.now)) ≤ 2 ^ 63 }
    ensures stated { IfOk result (λ g. ReadsPieces (bytes_of pieces.now) (Ok g)) }
    ensures refused { IfErr result
        (λ r. r.why ≢ Why.OutOfMemory → ReadsPieces (bytes_of pieces.now) (Err r)) }
    ensures memory { IfErr result
        (λ r. r.why ≡ Why.OutOfMemory
        → FaultlessTo (joined (bytes_of pieces.now)) r.number r.offset) }
{
    let mut reader = RecordReader::new(alloc);
    for piece in pieces {
        reader.feed(piece)?;
    }
    reader.finish()
}
