//! Entries into the index and the regions.
ghost use Rattle.std.specs.Prelude.{◌≡◌, ◌≤◌, ◌<◌, ℕ, fold, get_or, OnOk, OnErr};
ghost use Rattle.global_defs.specs.Entry.{apply};
ghost use Rattle.global_defs.specs.Fields.{IsTransaction};
ghost use Rattle.gvn_model.specs.Entries.{transaction_value};
ghost use Rattle.entry_index.specs.Parts as places;
ghost use Rattle.entry_index.specs.Rows.{HasRowRoom};
ghost use Rattle.region_store.specs.Joined.{joined, AreChanged, HasRoomFor};
ghost use Rattle.site_store.specs.Committing.{IsSameMemory, IsSameSite, AddsPlaces, next_place};

use crate::memory::Memory;
use entry_index::{NOWHERE, PartPlace};
use gvn_key::NoMemory;
use gvn_model::Transaction;
use region_journals::RegionJournals;
use tp_commit::PartRecords;

/// How many regions there may be.
const MOST_REGIONS: usize = global_defs::limits::MOST_REGIONS as usize;

/// Where a region's part of the next entry will stand: behind all that its newest journal has, or nowhere where it has no part.
fn next_place(journals: &RegionJournals, parts: &PartRecords, region: u8) -> PartPlace
    requires { region < MOST_REGIONS }
    ensures { result ≡ next_place parts.now journals.now.journals.items region }
{
    let behind = journals.journals.get(usize::from(region));
    match (parts.record(region), behind) {
        (Some(_), Some(behind)) => PartPlace {
            generation: behind.journal.generation,
            offset: behind.journal.gated.end,
        },
        _ => NOWHERE,
    }
}

/// Where the parts of the next entry will stand, by region.
fn next_places(journals: &RegionJournals, parts: &PartRecords) -> [PartPlace; MOST_REGIONS]
    ensures { (r : ℕ) → r < MOST_REGIONS → get_or result r places.NOWHERE ≡ next_place parts.now journals.now.journals.items r }
{
    let mut row = [NOWHERE; MOST_REGIONS];
    for region in 0..MOST_REGIONS {
        row[region] = next_place(journals, parts, region as u8);
    }
    row
}

impl Memory {
    /// Takes the memory for the places of an entry and for its updates. Nothing has changed but what room there is.
    pub(crate) fn reserve(&mut self, t: &Transaction) -> Result<(), NoMemory>
        ensures room { OnOk result (HasRowRoom self.new.entries × HasRoomFor self.new.globals t.now.updates) }
        ensures kept { IsSameMemory self.old self.new }
        ensures changed { AreChanged self.old.globals self.new.globals }
        ensures same { IsSameSite self.old self.new }
        ensures journals { self.new.journals ≡ self.old.journals }
    {
        self.globals.reserve(t.updates.as_slice())?;
        self.entries.reserve()
    }

    /// Adds the places where the parts of an entry will stand, and makes its updates. It takes no memory.
    pub(crate) fn remember(&mut self, t: &Transaction, parts: &PartRecords)
        requires form { IsTransaction (transaction_value t.now) }
        requires few { self.old.entries.regions ≤ MOST_REGIONS }
        requires room { HasRowRoom self.old.entries × HasRoomFor self.old.globals t.now.updates }
        ensures entries { AddsPlaces parts.now self.new.journals.journals.items self.old.entries self.new.entries }
        ensures globals { joined self.new.globals ≡ fold apply (joined self.old.globals) t.now.updates }
        ensures changed { AreChanged self.old.globals self.new.globals }
        ensures same { IsSameSite self.old self.new }
        ensures journals { self.new.journals ≡ self.old.journals }
    {
        let row = next_places(&self.journals, parts);
        let regions = usize::from(self.entries.regions);
        self.entries.push_reserved(&row[..regions]);
        self.globals.make(t.updates.as_slice());
    }
}
