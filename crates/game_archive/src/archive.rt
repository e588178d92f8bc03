ghost use Rattle.std.specs.Prelude.{◌≡◌, ◌≢◌, ◌<◌, ℕ, IfErr, Result};
ghost use Rattle.csa_record.specs.declared.flow.FlowFault.{FlowFault};
ghost use Rattle.game_archive.specs.Readings.{Noted, ReadAlike, noted_after};
ghost use Rattle.record_game.specs.Game.{Game};

use csa_record::{FlowFault, Record};
use std::alloc::Global;

/// Records that can each be read again and again, such as those in the files of a folder.
pub trait Archive {
    // What a reading of the entry at this place may come to.
    ghost reads: { Self → ℕ → Result Game FlowFault → Type 0 };

    // What is noted of the readings so far: those that failed, and those of a refused record.
    ghost noted: { Self → Noted };

    // How many entries it has.
    ghost size: { Self → ℕ };

    /// How many entries it has.
    fn len(&self) -> usize
        ensures value { result ≡ size self.now };

    /// Reads the record of the entry at this place, from its beginning. Places are counted from 0.
    ///
    /// Refuses `Refused` if the record is refused, `ReadFault` if it cannot be read, and
    /// `OutOfMemory`. Only to be called if there is such an entry.
    fn read_record(&mut self, alloc: Global, at: usize) -> Result<Record, FlowFault>
        requires within { at < size self.old }
        ensures reads { reads self.old at result }
        ensures no_write { IfErr result (λ fault. fault ≢ FlowFault.WriteFault) }
        ensures noted { noted self.new ≡ noted_after (noted self.old) at result }
        ensures size { size self.new ≡ size self.old }
        ensures alike { ReadAlike (reads self.old) (reads self.new) };
}

/// What is shown while an archive is read.
pub trait Watch {
    /// The entry at this place is done. Entries are done in their order.
    fn entry_done(&mut self, at: usize);
}
