//! Indexes of entries.
ghost use Rattle.std.specs.Prelude.{◌≡◌, ◌⊎◌, ◌+◌, ◌-◌, ◌*◌, ◌/◌, ◌≤◌, ◌<◌, ◌++◌, ℕ, List, length, take, drop, slice_get, None, IfOk, IfSome, OnOk, OnErr, IsErrOf};
ghost use Rattle.std.specs.Option.{option_map};
ghost use Rattle.global_defs.specs.declared.limits.TheConstants.{MOST_REGIONS};
ghost use Rattle.disk_defs.specs.Disk.{Reads, MayFailUncounted};
ghost use Rattle.global_defs.specs.Entry as defs;
ghost use Rattle.global_defs.specs.Fields.{IsTransaction};
ghost use Rattle.gvn_model.specs.Entries.{entry_value, transaction_value};
ghost use Rattle.mupip_recover.specs.Stamps.{AreStarts};
ghost use Rattle.entry_index.specs.Found.{entry_count};
ghost use Rattle.entry_index.specs.Indexes.{Indexes};
ghost use Rattle.entry_index.specs.Parts.{InFiles};
ghost use Rattle.entry_index.specs.Rows.{HasRowRoom};

use crate::error::IndexError;
use crate::place::PartPlace;
use crate::reading::{first_place, read_transaction};
use gvn_key::NoMemory;
use gvn_model::{Entry, Reigns, Transaction};
use mupip_recover::stamp_at;
use repl_disk::Disk;
use std::alloc::Global;

/// Where the entries of a site stand in its journals: for each, by its number from 1 on, a row of places, one a region.
///
/// Its fields are there for contracts: `Indexes` says of which sequence it is.
#[derive(Debug, Drop)]
pub struct EntryIndex {
    /// How many regions there are, at most 8.
    pub regions: u8,
    /// Row by row.
    pub places: Vec<PartPlace>,
}

impl EntryIndex {
    /// How many entries there are.
    pub fn len(&self) -> u64
        ensures rows { 1 ≤ self.now.regions → result ≡ length self.now.places.items / self.now.regions }
        ensures none { self.now.regions ≡ 0 → result ≡ 0 }
        ensures count { result ≡ entry_count self.now }
    {
        if self.regions == 0 {
            return 0;
        }
        self.places.len() as u64 / u64::from(self.regions)
    }

    /// The row of an entry, where there is one.
    fn row(&self, number: u64) -> Option<&[PartPlace]>
        requires { 1 ≤ number }
        ensures found { IfSome result (λ row. row.now ≡ take self.now.regions (drop (self.now.regions * (number - 1)) self.now.places.items)) }
        ensures within { IfSome result (λ row. self.now.regions * number ≤ length self.now.places.items) }
        ensures some { IfSome result (λ row. 1 ≤ self.now.regions) }
        ensures past { result ≡ None → (self.now.regions ≡ 0) ⊎ (length self.now.places.items < self.now.regions * number) }
    {
        if self.regions == 0 {
            return None;
        }
        let end = number.checked_mul(u64::from(self.regions))?;
        if end > self.places.len() as u64 {
            return None;
        }
        let end = end as usize;
        Some(&self.places[end - usize::from(self.regions)..end])
    }

    /// The entry of a number, from 1 on, read from its places; `None` where there is none. It reads the records of its parts alone.
    ///
    /// `history` has the surviving reigns, and `starts` what [`mupip_recover::starts_of`] gives for these.
    ///
    /// # Errors
    /// `NotAFile`, with the file and the place of a part, only where the files don't have there what the index says; `Failed` only where
    /// the disk's count rose; and `NoMemory`.
    pub fn read<D: Disk>(
        &self,
        alloc: Global,
        disk: &mut D,
        history: &Reigns,
        starts: &[u64],
        number: u64,
    ) -> Result<Option<Entry>, IndexError>
        requires starts { AreStarts history.now starts.now }
        requires first { 1 ≤ number }
        requires regions { self.now.regions ≤ MOST_REGIONS }
        ensures entry { IfOk result (λ found. IfSome (D.disk disk.old).content (λ files. (seq : defs.Sequence) → Indexes (InFiles files) history.now self.now seq
            → option_map entry_value found ≡ slice_get seq (number - 1))) }
        ensures number { IfOk result (λ found. IfSome found (λ e. e.number ≡ number)) }
        ensures outside { (file offset : ℕ) → IsErrOf result (IndexError.NotAFile file offset) → IfSome (D.disk disk.old).content (λ files. (seq : defs.Sequence) → Indexes (InFiles files) history.now self.now seq → ⊥) }
        ensures reads { Reads (D.disk disk.old) (D.disk disk.new) }
        ensures faults { MayFailUncounted (D.disk disk.old).faults (D.disk disk.new).faults (IsErrOf result IndexError.Failed) }
    {
        let Some(row) = self.row(number) else {
            return Ok(None);
        };
        let Some(stamp) = stamp_at(history.as_slice(), starts, number) else {
            return Ok(None);
        };
        let Some(transaction) = read_transaction(alloc, disk, row, number)? else {
            let (file, offset) = first_place(row);
            return Err(IndexError::NotAFile { file, offset });
        };
        Ok(Some(Entry {
            number,
            stamp: stamp.copy()?,
            transaction,
        }))
    }

    /// What the entry of a number, from 1 on, does, read from its places; `None` where there is none. It reads the records of its parts
    /// alone, and asks for no reign.
    ///
    /// # Errors
    /// Those of [`read`](EntryIndex::read).
    pub fn transaction<D: Disk>(
        &self,
        alloc: Global,
        disk: &mut D,
        number: u64,
    ) -> Result<Option<Transaction>, IndexError>
        requires first { 1 ≤ number }
        requires regions { self.now.regions ≤ MOST_REGIONS }
        ensures entry { IfOk result (λ found. IfSome (D.disk disk.old).content (λ files. (history : List defs.Reign) (seq : defs.Sequence) → Indexes (InFiles files) history self.now seq
            → option_map transaction_value found ≡ option_map (λ (e : defs.Entry). e.transaction) (slice_get seq (number - 1)))) }
        // whatever the disk tells, it is a transaction of its form, and there is one exactly where the index has its row
        ensures form { IfOk result (λ found. IfSome found (λ t. IsTransaction (transaction_value t))) }
        ensures none { IfOk result (λ found. found ≡ None → entry_count self.now < number) }
        ensures past { entry_count self.now < number → IfOk result (λ found. found ≡ None) }
        ensures outside { (file offset : ℕ) → IsErrOf result (IndexError.NotAFile file offset) → IfSome (D.disk disk.old).content (λ files. (history : List defs.Reign) (seq : defs.Sequence) → Indexes (InFiles files) history self.now seq → ⊥) }
        ensures reads { Reads (D.disk disk.old) (D.disk disk.new) }
        ensures faults { MayFailUncounted (D.disk disk.old).faults (D.disk disk.new).faults (IsErrOf result IndexError.Failed) }
    {
        let Some(row) = self.row(number) else {
            return Ok(None);
        };
        match read_transaction(alloc, disk, row, number)? {
            Some(transaction) => Ok(Some(transaction)),
            None => {
                let (file, offset) = first_place(row);
                Err(IndexError::NotAFile { file, offset })
            }
        }
    }

    /// Adds the row of one entry more: a place for each region. Without memory the index is as before.
    pub fn push(&mut self, row: &[PartPlace]) -> Result<(), NoMemory>
        requires { length row.now ≡ self.old.regions }
        ensures ok { OnOk result (self.new.places.items ≡ self.old.places.items ++ row.now) }
        ensures regions { self.new.regions ≡ self.old.regions }
        ensures err { OnErr result (self.new.places.items ≡ self.old.places.items) }
    {
        self.places.extend_from_slice(row)?;
        Ok(())
    }

    /// Takes the memory for the row of one entry more. It adds none.
    pub fn reserve(&mut self) -> Result<(), NoMemory>
        ensures room { OnOk result (HasRowRoom self.new) }
        ensures same { (self.new.regions ≡ self.old.regions) × (self.new.places.items ≡ self.old.places.items) }
    {
        self.places.reserve(usize::from(self.regions))?;
        Ok(())
    }

    /// Adds the row of one entry more, for which there is room. It takes no memory.
    pub fn push_reserved(&mut self, row: &[PartPlace])
        requires room { HasRowRoom self.old }
        requires row { length row.now ≡ self.old.regions }
        ensures places { self.new.places.items ≡ self.old.places.items ++ row.now }
        ensures regions { self.new.regions ≡ self.old.regions }
    {
        if self.places.extend_from_slice(row).is_err() {
            unreachable!();
        }
    }

    /// Keeps the rows of so many first entries, at most.
    pub fn truncate(&mut self, number: u64)
        ensures places { self.new.places.items ≡ take (self.old.regions * number) self.old.places.items }
        ensures regions { self.new.regions ≡ self.old.regions }
    {
        let kept = number.saturating_mul(u64::from(self.regions));
        if kept < self.places.len() as u64 {
            self.places.truncate(kept as usize);
        }
    }
}
