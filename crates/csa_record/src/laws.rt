//! The laws of `record_game`, and what the state of a reader says of the bytes that it was fed.

ghost use Rattle.std.specs.Prelude.{ℕ, List};
ghost use Rattle.csa_record.specs.RecordReading.{RecordReading, HasRead};
ghost use Rattle.record_game.specs.Closed.{AreFaultless};

pub use record_game::laws::{
    canon_equal, canon_tells, cuttings_alike, headers_anywhere, laid_out, moved_headers, one_game,
    one_refusal, refused_when_closed, told_once, union_placed,
};

/// If a reader was fed bytes and not refused, none of their closed statements has a fault.
pub fn read_so_far()
    ensures faultless { (bytes : List ℕ) (reader : RecordReading) → HasRead bytes reader
        → AreFaultless bytes }
{}
