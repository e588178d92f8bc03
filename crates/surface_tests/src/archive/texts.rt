//! An archive of texts in memory, whose bytes are known: of these the whole contract of `group` is
//! shown to hold.

ghost use Rattle.std.specs.Prelude.{◌≡◌, ◌≢◌, IfErr, IfOk, length};
ghost use Rattle.csa_record.specs.declared.flow.FlowFault.{FlowFault};
ghost use Rattle.game_archive.specs.Alike.{ReadsAs};
ghost use Rattle.game_archive.specs.Unreadable.{IsExact};
ghost use Rattle.surface_tests.specs.Texts.{bytes_at};

use crate::archive::shelf::Last;
use csa_record::{FlowFault, Reading, Record, read_from};
use game_archive::{Archive, Likeness, Placing, group};
use shogi_board::OutOfMemory;
use std::alloc::Global;

// Texts, and the places of those that could not be read, and of those that were refused.
#[derive(Drop)]
pub struct Texts<'a> {
    pub texts: &'a [&'a [u8]],
    pub failed: Vec<usize>,
    pub refused: Vec<usize>,
}

impl<'a> Texts<'a> {
    pub fn new(alloc: Global, texts: &'a [&'a [u8]]) -> Texts<'a> {
        Texts {
            texts,
            failed: Vec::new(alloc),
            refused: Vec::new(alloc),
        }
    }
}

impl Archive for Texts<'_> {
    ghost use Rattle.game_archive.specs.Alike.{ReadsAs};
    ghost use Rattle.surface_tests.specs.Texts.{bytes_at};

    ghost reads = { λ archive at result. ReadsAs (bytes_at archive.texts.now at) result };

    ghost noted = { λ archive. record {
      failed = archive.failed.items;
      refused = archive.refused.items;
    } };

    ghost size = { λ archive. length archive.texts.now };

    fn len(&self) -> usize {
        self.texts.len()
    }

    fn read_record(&mut self, alloc: Global, at: usize) -> Result<Record, FlowFault> {
        let result = record_of(alloc, self.texts[at]);
        let noted = match &result {
            Err(FlowFault::ReadFault) => self.failed.push(at),
            Err(FlowFault::Refused(_)) => self.refused.push(at),
            _ => Ok(()),
        };
        if noted.is_err() {
            return Err(FlowFault::OutOfMemory);
        }
        result
    }
}

// The record in this text.
fn record_of(alloc: Global, text: &[u8]) -> Result<Record, FlowFault>
    ensures reads { ReadsAs text.now result }
    ensures no_write { IfErr result (λ fault. fault ≢ FlowFault.WriteFault) }
{
    read_from(alloc, &mut Reading::new(text))
}

// If no reading failed, the groups are those of the texts, and no premise is left.
pub fn exact_groups(
    alloc: Global,
    texts: &mut Texts<'_>,
    likeness: Likeness,
) -> Result<Vec<Placing>, OutOfMemory>
    ensures exact { IfOk result (λ placings. texts.new.failed.items ≡ texts.old.failed.items
        → IsExact likeness (bytes_at texts.old.texts.now) placings.items) }
{
    group(alloc, texts, likeness, &mut Last { at: None })
}
