//! Lists the groups that have two entries or more.

ghost use Rattle.std.specs.Prelude.{◌↔◌, ℕ, IfOk, IsTrue};
ghost use Rattle.std.specs.BTreeSet.{contains};
ghost use Rattle.std.specs.Ordering.{nat_cmp};
ghost use Rattle.game_archive.specs.Listing.{IsInOrder, IsShared, ListsOnce, ListsShared};

use crate::grouping::Placing;
use shogi_board::OutOfMemory;
use std::alloc::Global;
use std::collections::BTreeSet;

/// The entries that are in a group with others, by the placings that `group` gave: for each the
/// first entry of its group, and itself.
///
/// Groups come in the order of their first entries, and the entries of a group in their order.
/// Returns `OutOfMemory` if an allocation fails.
pub fn copies(alloc: Global, placings: &[Placing]) -> Result<Vec<(usize, usize)>, OutOfMemory>
    ensures members { IfOk result (λ pairs. ListsShared placings.now pairs.items) }
    ensures once { IfOk result (λ pairs. ListsOnce pairs.items) }
    ensures sorted { IfOk result (λ pairs. IsInOrder pairs.items) }
{
    let shared = shared_leaders(alloc, placings)?;
    let mut pairs = Vec::new(alloc);
    for at in 0..placings.len() {
        if let Placing::Group(leader) = placings[at] {
            if shared.contains(&leader) {
                pairs.push((leader, at))?;
            }
        }
    }
    pairs.sort()?;
    Ok(pairs)
}

// The leaders in whose groups there are others.
fn shared_leaders(alloc: Global, placings: &[Placing]) -> Result<BTreeSet<usize>, OutOfMemory>
    ensures { IfOk result (λ shared. (leader : ℕ)
        → (IsTrue (contains nat_cmp shared leader) ↔ IsShared placings.now leader)) }
{
    let mut shared = BTreeSet::new(alloc);
    for at in 0..placings.len() {
        if let Placing::Group(leader) = placings[at] {
            if leader != at {
                shared.insert(leader)?;
            }
        }
    }
    Ok(shared)
}
