//! From records to entries.
ghost use Rattle.std.specs.Prelude.{◌≡◌, ◌+◌, ◌<◌, ◌^◌, map, IfOk, IfSome};
ghost use Rattle.std.specs.List.{AllByRecursion, enumerate_from};
ghost use Rattle.global_defs.specs.Fields.{IsTransaction};
ghost use Rattle.std.specs.Option.{option_map};
ghost use Rattle.journal_defs.specs.Surviving as surviving;
ghost use Rattle.journal_defs.specs.Sequence.{IsSequence};
ghost use Rattle.gvn_model.specs.Entries.{entry_value};
ghost use Rattle.gvn_model.specs.Reigns.{reign_value};
ghost use Rattle.mupip_recover.specs.Site.{AreInForm, site_records};
ghost use Rattle.mupip_recover.specs.Stamps.{AreStarts};
ghost use Rattle.mupip_recover.specs.Entries.{entry_at, AreFirst};

use super::completing::transaction_at;
use super::cuts::Cuts;
use super::stamps::{stamp_at, starts_of};
use super::table::{Table, count_all};
use gvn_key::NoMemory;
use gvn_model::{Entries, Entry, Reign, Reigns};
use instance_file::InstanceRecords;
use jnl_record::PlacedRecord;
use std::alloc::Global;

/// The entry at a place, where it is complete and a reign had begun by then.
fn entry_of(
    alloc: Global,
    table: &Table,
    reigns: &[Reign],
    starts: &[u64],
    place: usize,
) -> Result<Option<Entry>, NoMemory>
    requires starts { AreStarts (map reign_value reigns.now) starts.now }
    requires place { place + 1 < 2 ^ 64 }
    ensures entry { IfOk result (λ found. option_map entry_value found ≡ entry_at table.now (map reign_value reigns.now) (place + 1)) }
    ensures number { IfOk result (λ found. IfSome found (λ e. e.number ≡ place + 1)) }
{
    let number = place as u64 + 1;
    let Some(stamp) = stamp_at(reigns, starts, number) else {
        return Ok(None);
    };
    let Some(transaction) = transaction_at(alloc, table, place)? else {
        return Ok(None);
    };
    Ok(Some(Entry {
        number,
        stamp: stamp.copy()?,
        transaction,
    }))
}

/// The first entries of a table of so many places, up to one that isn't complete.
fn entries_of(
    alloc: Global,
    table: &Table,
    reigns: &[Reign],
    starts: &[u64],
    places: usize,
) -> Result<Entries, NoMemory>
    requires starts { AreStarts (map reign_value reigns.now) starts.now }
    ensures first { IfOk result (λ made. AreFirst table.now (map reign_value reigns.now) places (map (λ e. e.1) made)) }
    ensures numbered { IfOk result (λ made. made ≡ enumerate_from 1 (map (λ e. e.1) made)) }
{
    let mut made = Entries::new(alloc);
    for place in 0..places {
        let Some(entry) = entry_of(alloc, table, reigns, starts, place)? else {
            return Ok(made);
        };
        made.push(entry)?;
    }
    Ok(made)
}

/// What the records of a site stand for: its sequence. `history` has the surviving reigns, and `journals` a list for each region,
/// from region 0 on, in journal order.
///
/// The records are gone through once. Which cuts a record has to survive is looked up by its generation.
pub fn recover(
    alloc: Global,
    instance: &InstanceRecords,
    history: &Reigns,
    journals: &[Vec<PlacedRecord>],
) -> Result<Entries, NoMemory>
    requires { history.now ≡ surviving.reigns instance.now }
    ensures sequence { IfOk result (λ made. IsSequence (site_records instance.now (map (λ j. j.items) journals.now)) (map (λ e. e.1) made)) }
    ensures numbered { IfOk result (λ made. made ≡ enumerate_from 1 (map (λ e. e.1) made)) }
    ensures forms { AllByRecursion AreInForm (map (λ j. j.items) journals.now) → IfOk result (λ made. AllByRecursion (λ e. IsTransaction e.transaction) (map (λ e. e.1) made)) }
{
    let cuts = Cuts::of(alloc, instance)?;
    let Some(places) = count_all(journals) else {
        return Err(NoMemory);
    };
    let table = Table::of(alloc, &cuts, places, journals)?;
    let reigns = history.as_slice();
    let starts = starts_of(alloc, reigns)?;
    entries_of(alloc, &table, reigns, &starts, places)
}
