//! Indexes built from the signs of records.
ghost use Rattle.std.specs.Prelude.{◌≡◌, ◌≤◌, ◌<◌, ◌+◌, ◌*◌, ◌^◌, ℕ, List, length, map, Option, None, is_some, IfOk, IfSome, OnOk, IsErrOf, true, if◌then◌else◌};
ghost use Rattle.global_defs.specs.declared.limits.TheConstants.{MOST_REGIONS};
ghost use Rattle.disk_defs.specs.Disk.{Reads, MayFailUncounted};
ghost use Rattle.global_defs.specs.Entry as defs;
ghost use Rattle.global_defs.specs.Prefix as prefix;
ghost use Rattle.journal_defs.specs.Journal as journal;
ghost use Rattle.journal_defs.specs.Sequence as sequences;
ghost use Rattle.journal_defs.specs.Surviving as surviving;
ghost use Rattle.mupip_recover.specs.Stamps.{AreStarts};
ghost use Rattle.entry_index.specs.Among.{ArePlaced};
ghost use Rattle.entry_index.specs.Indexes.{AreSigns, Indexes, IsNext};
ghost use Rattle.entry_index.specs.Table.{AreSigned, AddsRow};
ghost use Rattle.entry_index.specs.Parts.{InFiles};

use crate::completing::{is_complete, place_in};
use crate::error::IndexError;
use crate::index::EntryIndex;
use crate::placed::PlacedSign;
use crate::signed_part::PartSign;
use crate::table::{SignTable, count_all};
use gvn_key::NoMemory;
use gvn_model::Reigns;
use instance_file::InstanceRecords;
use mupip_recover::{Cuts, starts_of};
use repl_disk::Disk;
use std::alloc::Global;

/// Adds the places of the parts of an entry, one a region.
fn push_places(row: &[Option<PartSign>], made: &mut EntryIndex) -> Result<(), NoMemory>
    ensures row { OnOk result (AddsRow row.now made.old.regions true made.old.places.items made.new.places.items) }
    ensures regions { made.new.regions ≡ made.old.regions }
{
    for region in 0..made.regions {
        made.places.push(place_in(row, region))?;
    }
    Ok(())
}

/// Whether some reign has begun by the entry of a number, by the starts that [`starts_of`] gives.
pub(crate) fn has_begun(starts: &[u64], number: u64) -> bool
    ensures { (rs : List defs.Reign) → AreStarts rs starts.now → result ≡ is_some (prefix.stamp_at number rs) }
{
    !starts.is_empty() && starts[0] <= number
}

/// Adds the row of the entry of a number, by its signs, where it's complete and a reign had begun by then, and answers whether it is.
pub(crate) fn add_row<D: Disk>(
    alloc: Global,
    disk: &mut D,
    row: &[Option<PartSign>],
    starts: &[u64],
    number: u64,
    made: &mut EntryIndex,
) -> Result<bool, IndexError>
    requires few { made.old.regions ≤ MOST_REGIONS }
    ensures added { IfOk result (λ more. IfSome (D.disk disk.old).content (λ files. (part : ℕ → Option journal.Part) → AreSigned files row.now number part → ((r : ℕ) → made.old.regions ≤ r → part r ≡ None)
        → (rs : List defs.Reign) → AreStarts rs starts.now → IsNext files rs number part more made.old.places.items made.new.places.items)) }
    ensures many { IfOk result (λ more. length made.new.places.items ≡ (if more then length made.old.places.items + made.old.regions else length made.old.places.items)) }
    ensures row { IfOk result (λ more. AddsRow row.now made.old.regions more made.old.places.items made.new.places.items) }
    ensures regions { made.new.regions ≡ made.old.regions }
    ensures outside { (file offset : ℕ) → IsErrOf result (IndexError.NotAFile file offset) → IfSome (D.disk disk.old).content (λ files. (part : ℕ → Option journal.Part) → AreSigned files row.now number part → ((r : ℕ) → made.old.regions ≤ r → part r ≡ None) → ⊥) }
    ensures reads { Reads (D.disk disk.old) (D.disk disk.new) }
    ensures faults { MayFailUncounted (D.disk disk.old).faults (D.disk disk.new).faults (IsErrOf result IndexError.Failed) }
{
    if !has_begun(starts, number) {
        return Ok(false);
    }
    let complete = is_complete(alloc, disk, row, number, made.regions)?;
    if !complete {
        return Ok(false);
    }
    push_places(row, made)?;
    Ok(true)
}

impl EntryIndex {
    /// The index of the sequence that the records with these signs stand for. `history` has the surviving reigns, and `signs` a list for
    /// each region, from region 0 on, in journal order.
    ///
    /// The signs are gone through once. The records of an entry are read again only where the positions of its updates don't lie in rows,
    /// one region after the other.
    ///
    /// # Errors
    /// `NotAFile`, with the file and the place of a part, only where the files don't have there what the signs say; `Failed` only where
    /// the disk's count rose; and `NoMemory`.
    pub fn build<D: Disk>(
        alloc: Global,
        disk: &mut D,
        instance: &InstanceRecords,
        history: &Reigns,
        signs: &[Vec<PlacedSign>],
    ) -> Result<EntryIndex, IndexError>
        requires history { history.now ≡ surviving.reigns instance.now }
        requires few { length signs.now ≤ MOST_REGIONS }
        ensures sequence { IfOk result (λ made. IfSome (D.disk disk.old).content (λ files. (journal : ℕ → List sequences.Placed) → AreSigns files (map (λ s. s.items) signs.now) journal
            → (seq : defs.Sequence) × sequences.IsSequence (record { instance = instance.now; journal = journal }) seq × Indexes (InFiles files) (surviving.reigns instance.now) made seq)) }
        ensures regions { IfOk result (λ made. made.regions ≡ length signs.now) }
        ensures rows { IfOk result (λ made. (rows : ℕ) × (length made.places.items ≡ made.regions * rows)) }
        ensures placed { IfOk result (λ made. ArePlaced instance.now (map (λ s. s.items) signs.now) made) }
        ensures outside { (file offset : ℕ) → IsErrOf result (IndexError.NotAFile file offset) → IfSome (D.disk disk.old).content (λ files. (journal : ℕ → List sequences.Placed) → AreSigns files (map (λ s. s.items) signs.now) journal → ⊥) }
        ensures reads { Reads (D.disk disk.old) (D.disk disk.new) }
        ensures faults { MayFailUncounted (D.disk disk.old).faults (D.disk disk.new).faults (IsErrOf result IndexError.Failed) }
    {
        let cuts = Cuts::of(alloc, instance)?;
        let Some(places) = count_all(signs) else {
            return Err(IndexError::NoMemory);
        };
        let table = SignTable::of(alloc, &cuts, places, signs)?;
        let reigns = history.as_slice();
        let starts = starts_of(alloc, reigns)?;
        let mut made = EntryIndex {
            regions: signs.len() as u8,
            places: Vec::new(alloc),
        };
        let mut row = Vec::new(alloc);
        for place in 0..places {
            table.fill(place, &mut row)?;
            let more = add_row(alloc, disk, &row, &starts, place as u64 + 1, &mut made)?;
            if !more {
                return Ok(made);
            }
        }
        Ok(made)
    }
}
