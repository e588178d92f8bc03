// How often each position of a line occurs, and where it occurred first.
//
// Each position has one entry. A new entry comes after the others, so the entries are in the order
// of first places. Links lead to them, as in search trees: 1,024 links, one for each value of a
// key's first 10 bits, lead to the roots of as many trees. Each entry has two links more, one to
// the positions that are less and one to those that are greater. Nothing is turned to balance the
// trees.
//
// Positions are ordered by their keys first, and as positions are if their keys are equal. The keys
// of positions that follow each other lie far apart, so the trees stay flat. A record made for it
// could make a tree deep, but 10,000 moves bound what a search takes. `docs/SPEED.md` has the
// measurements.

ghost use Rattle.std.specs.Prelude.{◌≡◌, ◌+◌, ◌++◌, ◌<◌, ◌≤◌, [], ◌∷◌, List, MatchResult, Some, OnOk, OnErr, IfOk, length, slice_get};
ghost use Rattle.shogi_board.specs.Placed.{Placed};
ghost use Rattle.shogi_rules.specs.Counting.{AreCounts, StandsAt};
ghost use Rattle.shogi_rules.specs.Positions.{max_moves};
ghost use Rattle.shogi_rules.specs.Searching.{order, IsFree, IsTree};

use shogi_board::Position;
use std::alloc::{AllocError, Global};
use std::cmp::Ordering;
use std::marker::Model;

// How many entries, turns and moves there is room for from the start: most games have fewer moves.
pub(crate) const FIRST_ROOM: usize = 320;

// How many links of the search trees there are before there is an entry: one for each value of a
// key's first 10 bits.
const FIRST_LINKS: usize = 1024;

// A position, how often it occurs, and its first place, counted from 0.
#[derive(Drop)]
pub(crate) struct Entry {
    pub position: Position,
    pub count: u32,
    pub first: u32,
}

impl Entry {
    // How the position is ordered to this one's.
    #[inline(always)]
    fn order(&self, position: &Position) -> Ordering
        ensures { result ≡ order position.now self.now.position }
    {
        match position.key().cmp(&self.position.key()) {
            Ordering::Equal if *position == self.position => Ordering::Equal,
            Ordering::Equal => position.cmp(&self.position),
            order => order,
        }
    }
}

// The index of the position's entry in the search trees, or else of the link that is to lead to it.
fn search(entries: &[Entry], links: &[u16], position: &Position) -> Result<usize, usize>
    requires { IsTree entries.now links.now }
    ensures { MatchResult result
        (λ n. (n < length entries.now) × StandsAt entries.now n position.now)
        (λ link. IsFree entries.now links.now position.now link) }
{
    let mut link = (position.key() >> 54) as usize;
    while links[link] > 0 {
        let n = links[link] as usize - 1;
        match entries[n].order(position) {
            Ordering::Less => link = FIRST_LINKS + 2 * n,
            Ordering::Equal => return Ok(n),
            Ordering::Greater => link = FIRST_LINKS + 2 * n + 1,
        }
    }
    Err(link)
}

// An ordered map from each position to how often it occurs and where first. A new position comes
// after the others.
#[derive(Drop)]
pub(crate) struct Occurrences {
    entries: Vec<Entry>,
    // of the search trees: 1 and the index of the entry that each link leads to, or 0
    links: Vec<u16>,
}

impl Model for Occurrences {
    ghost use Rattle.std.specs.Prelude.{List};
    ghost use Rattle.shogi_rules.specs.Searching.{IsTree};
    ghost use Rattle.shogi_rules.specs.declared.occurrences.Entry.{Entry as Counted};

    ghost Value = { List Counted };

    ghost view = { λ c. c.entries.items };

    ghost invariant = { λ c. IsTree c.entries.items c.links.items };
}

impl Occurrences {
    pub(crate) fn new(alloc: Global) -> Result<Occurrences, AllocError>
        ensures { IfOk result (λ c. c ≡ []) }
    {
        let mut links = Vec::with_capacity(alloc, FIRST_LINKS + 2 * FIRST_ROOM)?;
        links.extend_from_slice(&[0u16; FIRST_LINKS])?;
        Ok(Occurrences {
            entries: Vec::with_capacity(alloc, FIRST_ROOM)?,
            links,
        })
    }

    // The entry with that index.
    pub(crate) fn entry(&self, n: usize) -> &Entry
        requires { n < length self.now }
        ensures { slice_get self.now n ≡ Some result.now }
    {
        &self.entries[n]
    }

    // Counts the position once more, with so many positions before it, and returns the index of its
    // entry. If an allocation fails, nothing changes.
    #[inline(always)]
    pub(crate) fn add(&mut self, position: &Position, before: usize) -> Result<usize, AllocError>
        requires counted { (ps : List Placed) × (length ps ≡ before) × AreCounts ps self.old }
        requires few { before ≤ max_moves }
        ensures ok { OnOk result ((ps : List Placed) → length ps ≡ before → AreCounts ps self.old
            → AreCounts (ps ++ position.now ∷ []) self.new) }
        ensures place { IfOk result (λ n.
            (n < length self.new) × StandsAt self.new n position.now) }
        ensures err { OnErr result (self.new ≡ self.old) }
    {
        let link = match search(&self.entries, &self.links, position) {
            Ok(n) => {
                self.entries[n].count += 1;
                return Ok(n);
            }
            Err(link) => link,
        };
        let n = self.entries.len();
        self.entries.reserve(1)?;
        self.links.reserve(2)?;
        self.links[link] = n as u16 + 1;
        self.links.push_reserved(0);
        self.links.push_reserved(0);
        self.entries.push_reserved(Entry {
            position: *position,
            count: 1,
            first: before as u32,
        });
        Ok(n)
    }
}
