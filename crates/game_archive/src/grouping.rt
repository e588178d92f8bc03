//! Puts the entries of an archive into groups.
//!
//! The entries are read once each, in order. Of each group the first entry is kept: at the digest
//! of its key, or, if another group's first entry has that digest, in a list. An entry is compared
//! with the first entry that has its digest, and with those of the list, by reading these again. So
//! at most a digest and a place are kept of each entry (`KeepsFew`), and no text.

ghost use Rattle.std.specs.Prelude.{◌≡◌, ◌≢◌, ◌+◌, ◌<◌, ◌≤◌, ℕ, List, [], ◌∷◌, ◌++◌, length, MatchOption, IfErr, IfOk, IfSome, OnOk};
ghost use Rattle.csa_record.specs.declared.flow.FlowFault.{FlowFault};
ghost use Rattle.game_archive.specs.Knowing.{HasKey, AddsLeader, HadKey, HoldsDigests, HoldsLeaders, IsNotCompared, KeepsCauses, KeepsCount, KeepsFew, KnowsGroups, LeadsNone};
ghost use Rattle.game_archive.specs.Alike.{GiveBytes};
ghost use Rattle.game_archive.specs.Groups.{HasLeader, IsGrouped, outside};
ghost use Rattle.game_archive.specs.Readings.{Noted, ReadAlike, how_many};
ghost use Rattle.game_archive.specs.Unreadable.{HaveCauses, HaveCausesBetween, IsExact};
ghost use Rattle.game_archive.specs.declared.grouping.Placing.{Placing};
ghost use Rattle.record_game.specs.declared.likeness.Likeness.{Likeness};
ghost use Rattle.sha2.specs.Sha256.{sha256};

use crate::archive::{Archive, Watch};
use crate::digester::{Digester, Sha256Digester};
use crate::keys;
use csa_record::{FlowFault, Refusal};
use record_game::Likeness;
use shogi_board::OutOfMemory;
use std::alloc::Global;
use std::collections::BTreeMap;

/// Where an entry belongs.
#[derive(Clone, Copy, Debug, PartialEq, Eq)]
pub enum Placing {
    /// In the group whose first entry is at this place.
    Group(usize),
    /// In none: its record is refused.
    Refused(Refusal),
    /// In none: it could not be read; or an earlier entry, with which it was to be compared, could
    /// not be read again, or was refused then.
    Unreadable,
}

/// Says of each entry, in order, which group it is in. SHA-256 digests narrow the search.
///
/// Two entries are in one group exactly if they are alike, as long as no reading fails and each
/// entry gives the same bytes each time that it is read. If a reading fails, that still holds of
/// the entries that are in groups. If an entry changes, those that are compared with it may be in
/// another group or in none. An entry is `Unreadable` only if its reading failed, or that of the
/// first entry of an earlier group with which it was compared, or that one was refused then. These
/// two have one digest, if no two groups have.
///
/// Calls the watch after each entry. Returns `OutOfMemory` if an allocation fails.
pub fn group<A: Archive, W: Watch>(
    alloc: Global,
    archive: &mut A,
    likeness: Likeness,
    watch: &mut W,
) -> Result<Vec<Placing>, OutOfMemory>
    ensures whole { IfOk result (λ placings. length placings.items ≡ A.size archive.old) }
    ensures grouped { IfOk result (λ placings. (bytes : ℕ → List ℕ)
        → GiveBytes (A.size archive.old) (A.reads archive.old) bytes
        → IsGrouped likeness bytes placings.items) }
    // The readings that failed or were refused in this call are those for which entries are in no
    // group, in order.
    ensures causes { IfOk result (λ placings.
        HaveCausesBetween likeness sha256 (A.reads archive.old)
        (A.noted archive.old) (A.noted archive.new) placings.items) }
    // As many entries are in no group as readings of this call failed or were refused.
    ensures counted { IfOk result (λ placings. how_many (A.noted archive.new)
        ≡ how_many (A.noted archive.old) + outside placings.items) }
    // If no reading failed in this call and each entry gives the same bytes each time, none is
    // unreadable.
    ensures exact { IfOk result (λ placings. (bytes : ℕ → List ℕ)
        → GiveBytes (A.size archive.old) (A.reads archive.old) bytes
        → (A.noted archive.new).failed ≡ (A.noted archive.old).failed
        → IsExact likeness bytes placings.items) }
{
    group_by(alloc, archive, likeness, &Sha256Digester, watch)
}

/// As `group`, with other digests.
pub fn group_by<A: Archive, D: Digester, W: Watch>(
    alloc: Global,
    archive: &mut A,
    likeness: Likeness,
    digester: &D,
    watch: &mut W,
) -> Result<Vec<Placing>, OutOfMemory>
    ensures whole { IfOk result (λ placings. length placings.items ≡ A.size archive.old) }
    ensures grouped { IfOk result (λ placings. (bytes : ℕ → List ℕ)
        → GiveBytes (A.size archive.old) (A.reads archive.old) bytes
        → IsGrouped likeness bytes placings.items) }
    // The readings that failed or were refused in this call are those for which entries are in no
    // group, in order.
    ensures causes { IfOk result (λ placings.
        HaveCausesBetween likeness (D.digest_of digester.now) (A.reads archive.old)
        (A.noted archive.old) (A.noted archive.new) placings.items) }
    // As many entries are in no group as readings of this call failed or were refused.
    ensures counted { IfOk result (λ placings. how_many (A.noted archive.new)
        ≡ how_many (A.noted archive.old) + outside placings.items) }
    // If no reading failed in this call and each entry gives the same bytes each time, none is
    // unreadable.
    ensures exact { IfOk result (λ placings. (bytes : ℕ → List ℕ)
        → GiveBytes (A.size archive.old) (A.reads archive.old) bytes
        → (A.noted archive.new).failed ≡ (A.noted archive.old).failed
        → IsExact likeness bytes placings.items) }
{
    let mut groups = Groups {
        placings: Vec::new(alloc),
        by_digest: BTreeMap::new(alloc),
        colliding: Vec::new(alloc),
    };
    for at in 0..archive.len() {
        groups.place_next(alloc, archive, likeness, digester)?;
        watch.entry_done(at);
    }
    Ok(groups.placings)
}

// The entries so far, in groups.
#[derive(Drop)]
struct Groups {
    placings: Vec<Placing>,
    // The first entry of a group, at the digest of its key.
    by_digest: BTreeMap<[u8; 32], usize>,
    // The first entries of the groups whose digest was already that of another group.
    colliding: Vec<usize>,
}

impl Groups {
    // Places the next entry.
    fn place_next<A: Archive, D: Digester>(
        &mut self,
        alloc: Global,
        archive: &mut A,
        likeness: Likeness,
        digester: &D,
    ) -> Result<(), OutOfMemory>
        requires within { length self.old.placings.items < A.size archive.old }
        requires leaders { HoldsLeaders
            self.old.placings.items self.old.by_digest self.old.colliding.items }
        requires digests { HoldsDigests likeness (D.digest_of digester.now) (A.reads archive.old)
            self.old.placings.items self.old.by_digest self.old.colliding.items }
        ensures more { OnOk result
            (length self.new.placings.items ≡ length self.old.placings.items + 1) }
        ensures leaders { OnOk result (HoldsLeaders
            self.new.placings.items self.new.by_digest self.new.colliding.items) }
        ensures digests { OnOk result (HoldsDigests
            likeness (D.digest_of digester.now) (A.reads archive.old)
            self.new.placings.items self.new.by_digest self.new.colliding.items) }
        ensures groups { (bytes : ℕ → List ℕ)
            → GiveBytes (A.size archive.old) (A.reads archive.old) bytes
            → KnowsGroups likeness bytes (D.digest_of digester.now)
            self.old.placings.items self.old.by_digest self.old.colliding.items
            → OnOk result (KnowsGroups likeness bytes (D.digest_of digester.now)
            self.new.placings.items self.new.by_digest self.new.colliding.items) }
        ensures causes { (since : Noted)
            → HaveCauses likeness (D.digest_of digester.now) (A.reads archive.old) since
            self.old.placings.items
            → OnOk result (KeepsCauses likeness (D.digest_of digester.now) (A.reads archive.old)
            (A.noted archive.old) (A.noted archive.new) since self.new.placings.items) }
        ensures counted { OnOk result (KeepsCount (A.noted archive.old) (A.noted archive.new)
            self.old.placings.items self.new.placings.items) }
        ensures few { KeepsFew
            self.old.placings.items self.old.by_digest self.old.colliding.items
            → OnOk result (KeepsFew
            self.new.placings.items self.new.by_digest self.new.colliding.items) }
        ensures size { A.size archive.new ≡ A.size archive.old }
        ensures alike { ReadAlike (A.reads archive.old) (A.reads archive.new) }
    {
        match keys::key_at(alloc, archive, likeness, self.placings.len()) {
            Ok(key) => self.place_key(alloc, archive, likeness, digester, &key),
            Err(FlowFault::Refused(refusal)) => Ok(self.placings.push(Placing::Refused(refusal))?),
            Err(FlowFault::ReadFault) => Ok(self.placings.push(Placing::Unreadable)?),
            Err(FlowFault::WriteFault | FlowFault::OutOfMemory) => Err(OutOfMemory),
        }
    }

    // Places the next entry, which has this key.
    fn place_key<A: Archive, D: Digester>(
        &mut self,
        alloc: Global,
        archive: &mut A,
        likeness: Likeness,
        digester: &D,
        key: &[u8],
    ) -> Result<(), OutOfMemory>
        requires within { length self.old.placings.items < A.size archive.old }
        requires read { HadKey likeness (A.reads archive.old) (length self.old.placings.items)
            key.now }
        requires leaders { HoldsLeaders
            self.old.placings.items self.old.by_digest self.old.colliding.items }
        requires digests { HoldsDigests likeness (D.digest_of digester.now) (A.reads archive.old)
            self.old.placings.items self.old.by_digest self.old.colliding.items }
        ensures more { OnOk result
            (length self.new.placings.items ≡ length self.old.placings.items + 1) }
        ensures leaders { OnOk result (HoldsLeaders
            self.new.placings.items self.new.by_digest self.new.colliding.items) }
        ensures digests { OnOk result (HoldsDigests
            likeness (D.digest_of digester.now) (A.reads archive.old)
            self.new.placings.items self.new.by_digest self.new.colliding.items) }
        ensures groups { (bytes : ℕ → List ℕ)
            → GiveBytes (A.size archive.old) (A.reads archive.old) bytes
            → HasKey likeness (bytes (length self.old.placings.items)) key.now
            → KnowsGroups likeness bytes (D.digest_of digester.now)
            self.old.placings.items self.old.by_digest self.old.colliding.items
            → OnOk result (KnowsGroups likeness bytes (D.digest_of digester.now)
            self.new.placings.items self.new.by_digest self.new.colliding.items) }
        ensures causes { (since : Noted)
            → HaveCauses likeness (D.digest_of digester.now) (A.reads archive.old) since
            self.old.placings.items
            → OnOk result (KeepsCauses likeness (D.digest_of digester.now) (A.reads archive.old)
            (A.noted archive.old) (A.noted archive.new) since self.new.placings.items) }
        ensures counted { OnOk result (KeepsCount (A.noted archive.old) (A.noted archive.new)
            self.old.placings.items self.new.placings.items) }
        ensures few { KeepsFew
            self.old.placings.items self.old.by_digest self.old.colliding.items
            → OnOk result (KeepsFew
            self.new.placings.items self.new.by_digest self.new.colliding.items) }
        ensures size { A.size archive.new ≡ A.size archive.old }
        ensures alike { ReadAlike (A.reads archive.old) (A.reads archive.new) }
    {
        let digest = digester.digest(key);
        match self.find(alloc, archive, likeness, &digest, key) {
            Ok(Some(leader)) => Ok(self.placings.push(Placing::Group(leader))?),
            Ok(None) => self.begin(&digest),
            // The first entry of a group was accepted before, and is refused now: it has changed.
            Err(FlowFault::Refused(_)) => Ok(self.placings.push(Placing::Unreadable)?),
            Err(FlowFault::ReadFault) => Ok(self.placings.push(Placing::Unreadable)?),
            Err(FlowFault::WriteFault | FlowFault::OutOfMemory) => Err(OutOfMemory),
        }
    }

    // The first entry of the group with this key, if there is one.
    fn find<A: Archive>(
        &self,
        alloc: Global,
        archive: &mut A,
        likeness: Likeness,
        digest: &[u8; 32],
        key: &[u8],
    ) -> Result<Option<usize>, FlowFault>
        requires within { length self.now.placings.items ≤ A.size archive.old }
        requires leaders { HoldsLeaders
            self.now.placings.items self.now.by_digest self.now.colliding.items }
        ensures leader { IfOk result (λ found. IfSome found
            (λ leader. HasLeader self.now.placings.items leader leader)) }
        ensures found { (bytes : ℕ → List ℕ)
            → GiveBytes (A.size archive.old) (A.reads archive.old) bytes
            → IfOk result (λ found. MatchOption found
            (LeadsNone likeness bytes digest.now
            self.now.by_digest self.now.colliding.items key.now)
            (λ leader. HasKey likeness (bytes leader) key.now)) }
        ensures fault { (digest_of : List ℕ → List ℕ)
            → HoldsDigests likeness digest_of (A.reads archive.old)
            self.now.placings.items self.now.by_digest self.now.colliding.items
            → IfErr result (λ fault. fault ≢ FlowFault.OutOfMemory
            → IsNotCompared likeness digest_of (A.reads archive.old)
            (A.noted archive.old) (A.noted archive.new)
            self.now.placings.items digest.now fault) }
        ensures quiet { OnOk result (A.noted archive.new ≡ A.noted archive.old) }
        ensures size { A.size archive.new ≡ A.size archive.old }
        ensures alike { ReadAlike (A.reads archive.old) (A.reads archive.new) }
    {
        if let Some(leader) = self.by_digest.get(digest) {
            if keys::has_key(alloc, archive, likeness, *leader, key)? {
                return Ok(Some(*leader));
            }
        }
        for k in 0..self.colliding.len() {
            let leader = self.colliding[k];
            if keys::has_key(alloc, archive, likeness, leader, key)? {
                return Ok(Some(leader));
            }
        }
        Ok(None)
    }

    // Begins a group with the next entry.
    fn begin(&mut self, digest: &[u8; 32]) -> Result<(), OutOfMemory>
        requires leaders { HoldsLeaders
            self.old.placings.items self.old.by_digest self.old.colliding.items }
        ensures more { OnOk result
            (length self.new.placings.items ≡ length self.old.placings.items + 1) }
        ensures leaders { OnOk result (HoldsLeaders
            self.new.placings.items self.new.by_digest self.new.colliding.items) }
        ensures groups { (likeness : Likeness) (bytes : ℕ → List ℕ) (digest_of : List ℕ → List ℕ)
            (key : List ℕ) → digest.now ≡ digest_of key
            → HasKey likeness (bytes (length self.old.placings.items)) key
            → LeadsNone likeness bytes digest.now self.old.by_digest self.old.colliding.items key
            → KnowsGroups likeness bytes digest_of
            self.old.placings.items self.old.by_digest self.old.colliding.items
            → OnOk result (KnowsGroups likeness bytes digest_of
            self.new.placings.items self.new.by_digest self.new.colliding.items) }
        ensures placed { OnOk result (self.new.placings.items ≡ self.old.placings.items
            ++ Placing.Group (length self.old.placings.items) ∷ []) }
        ensures added { OnOk result (AddsLeader self.old.by_digest self.old.colliding.items
            (length self.old.placings.items) digest.now
            self.new.by_digest self.new.colliding.items) }
        ensures few { KeepsFew
            self.old.placings.items self.old.by_digest self.old.colliding.items
            → OnOk result (KeepsFew
            self.new.placings.items self.new.by_digest self.new.colliding.items) }
    {
        let at = self.placings.len();
        self.placings.push(Placing::Group(at))?;
        if self.by_digest.contains_key(digest) {
            self.colliding.push(at)?;
        } else {
            self.by_digest.insert(*digest, at)?;
        }
        Ok(())
    }
}
