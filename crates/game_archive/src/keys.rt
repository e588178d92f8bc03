//! The key of an entry: the text that it has in common with the entries that are like it, and with
//! no others.

ghost use Rattle.std.specs.Prelude.{◌≡◌, ◌≢◌, ◌<◌, ◌↔◌, ℕ, List, Err, IfErr, IfOk, IsErrOf, IsTrue};
ghost use Rattle.csa_record.specs.declared.flow.FlowFault.{FlowFault};
ghost use Rattle.record_game.specs.Refused.{Refused};
ghost use Rattle.game_archive.specs.Keying.{IsKeyOf};
ghost use Rattle.game_archive.specs.Knowing.{HasKey, HadKey};
ghost use Rattle.game_archive.specs.Alike.{GivesOnly};
ghost use Rattle.game_archive.specs.Readings.{ReadAlike, noted_after};

use crate::archive::Archive;
use csa_record::{FlowFault, Record, Refusal, write};
use record_game::Likeness;
use shogi_board::OutOfMemory;
use std::alloc::Global;
use usi_text::position_line;

/// The key of the entry at this place.
///
/// Refuses `Refused` if its record is refused, `ReadFault` if it cannot be read, and `OutOfMemory`.
pub(crate) fn key_at<A: Archive>(
    alloc: Global,
    archive: &mut A,
    likeness: Likeness,
    at: usize,
) -> Result<Vec<u8>, FlowFault>
    requires within { at < A.size archive.old }
    ensures text { (bytes : List ℕ) → GivesOnly (A.reads archive.old at) bytes
        → IfOk result (λ text. HasKey likeness bytes text.items) }
    ensures read { IfOk result (λ text. HadKey likeness (A.reads archive.old) at text.items) }
    ensures refused { (bytes : List ℕ) (r : Refusal) → GivesOnly (A.reads archive.old at) bytes
        → IsErrOf result (FlowFault.Refused r) → Refused bytes r.number r.offset r.why }
    ensures fault { IfErr result
        (λ fault. fault ≢ FlowFault.OutOfMemory → A.reads archive.old at (Err fault)) }
    ensures noted { A.noted archive.new ≡ noted_after (A.noted archive.old) at result }
    ensures size { A.size archive.new ≡ A.size archive.old }
    ensures alike { ReadAlike (A.reads archive.old) (A.reads archive.new) }
{
    let record = archive.read_record(alloc, at)?;
    match key_of(alloc, likeness, &record) {
        Ok(key) => Ok(key),
        Err(_) => Err(FlowFault::OutOfMemory),
    }
}

// The key of a game.
fn key_of(alloc: Global, likeness: Likeness, game: &Record) -> Result<Vec<u8>, OutOfMemory>
    ensures { IfOk result (λ key. IsKeyOf likeness game.now key.items) }
{
    match likeness {
        Likeness::Game => write(alloc, game),
        Likeness::Moves => position_line(alloc, game.line()),
    }
}

/// Whether the entry at this place, read again, has this key. Refuses as `key_at` does.
pub(crate) fn has_key<A: Archive>(
    alloc: Global,
    archive: &mut A,
    likeness: Likeness,
    at: usize,
    key: &[u8],
) -> Result<bool, FlowFault>
    requires within { at < A.size archive.old }
    ensures same { (bytes : List ℕ) → GivesOnly (A.reads archive.old at) bytes
        → IfOk result (λ same. IsTrue same ↔ HasKey likeness bytes key.now) }
    ensures fault { IfErr result
        (λ fault. fault ≢ FlowFault.OutOfMemory → A.reads archive.old at (Err fault)) }
    ensures noted { A.noted archive.new ≡ noted_after (A.noted archive.old) at result }
    ensures size { A.size archive.new ≡ A.size archive.old }
    ensures alike { ReadAlike (A.reads archive.old) (A.reads archive.new) }
{
    let own = key_at(alloc, archive, likeness, at)?;
    Ok(own.as_slice() == key)
}
