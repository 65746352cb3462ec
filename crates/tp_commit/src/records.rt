//! The parts of a transaction, as records.
ghost use Rattle.std.specs.Prelude.{◌≡◌, ◌<◌, ◌≤◌, ◌^◌, ℕ, List, [], map, length, get_or, None, option_map, IfOk, IfSome};
ghost use Rattle.std.specs.List.{AllByRecursion};
ghost use Rattle.global_defs.specs.declared.limits.TheConstants.{LONGEST_BODY, MOST_REGIONS};
ghost use Rattle.global_defs.specs.Fields.{IsNumber, IsTransaction};
ghost use Rattle.global_defs.specs.Entry as defs;
ghost use Rattle.gvn_model.specs.Entries.{transaction_value};
ghost use Rattle.journal_defs.specs.Fit.{region_of_update};
ghost use Rattle.journal_defs.specs.Journal.{IsInForm, spelled_record};
ghost use Rattle.journal_defs.specs.Split.{split, mask_of, with_items, IsSplit};
ghost use Rattle.jnl_record.specs.Values.{record_value, IsFirstVersion};
ghost use Rattle.tp_commit.specs.Parts.{recorded, IsReady};

use crate::lists::{items_by_region, mask_by};
use global_dir::Directory;
use gvn_key::NoMemory;
use gvn_model::{Items, Transaction};
use jnl_record::JnlRecord;
use std::alloc::Global;
use std::marker::Model;

/// The parts of a transaction as an entry: the TCOM record of each region that has one.
#[derive(Debug, Drop)]
pub struct PartRecords {
    mask: u8,
    records: Vec<Option<JnlRecord>>,
}

impl Model for PartRecords {
    ghost use Rattle.std.specs.Prelude.{map, option_map};
    ghost use Rattle.std.specs.List.{AllByRecursion};
    ghost use Rattle.jnl_record.specs.Values.{record_value};
    ghost use Rattle.tp_commit.specs.Parts as defs;

    ghost Value = { defs.PartRecords };

    ghost view = { λ p. record { mask = p.mask; records = map (λ x. option_map record_value x) p.records.items } };

    ghost invariant = { λ p. AllByRecursion defs.IsReady p.records.items };
}

/// The record of the part of these items, where there are any.
fn record_of(number: u64, mask: u8, t: &Transaction, items: Items) -> Option<JnlRecord>
    requires { length t.now.updates < 2 ^ 16 }
    ensures { option_map record_value result ≡ recorded (with_items number mask (transaction_value t.now) items) }
{
    if items.is_empty() {
        return None;
    }
    Some(JnlRecord::Tcom {
        number,
        mask,
        origin: t.origin,
        count: t.updates.len() as u16,
        items,
    })
}

/// The records of the parts of lists of items.
fn records_by(
    alloc: Global,
    number: u64,
    mask: u8,
    t: &Transaction,
    lists: Vec<Items>,
) -> Result<Vec<Option<JnlRecord>>, NoMemory>
    requires { length t.now.updates < 2 ^ 16 }
    ensures { IfOk result (λ made. map (λ x. option_map record_value x) made.items ≡ map (λ (xs : List defs.Item). recorded (with_items number mask (transaction_value t.now) xs)) lists.items) }
{
    let mut records = Vec::with_capacity(alloc, lists.len())?;
    for items in lists {
        records.push(record_of(number, mask, t, items))?;
    }
    Ok(records)
}

/// A transaction of its form is split by its regions: each update has one of those that there are, and the mask is that of those
/// that have a part. It does nothing.
fn split_holds(t: &Transaction, directory: &Directory)
    requires { IsTransaction (transaction_value t.now) }
    ensures split { IsSplit (region_of_update directory.now.patterns) (mask_of (region_of_update directory.now.patterns) t.now.updates) (transaction_value t.now) }
    ensures no_other { (n mask r : ℕ) → directory.now.regions ≤ r → split (region_of_update directory.now.patterns) n mask (transaction_value t.now) r ≡ None }
{
    let _regions = directory.regions();
}

/// The parts of a transaction of its form, as the entry with that number: each update stands in the region of its name, at its
/// position in the transaction. It goes over the updates once, and copies each once.
pub fn entry_records(
    alloc: Global,
    number: u64,
    t: &Transaction,
    directory: &Directory,
) -> Result<PartRecords, NoMemory>
    requires number { IsNumber number }
    requires form { IsTransaction (transaction_value t.now) }
    ensures mask { IfOk result (λ made. made.mask ≡ mask_of (region_of_update directory.now.patterns) t.now.updates) }
    ensures each { IfOk result (λ made. (r : ℕ) → r < MOST_REGIONS → get_or made.records r None ≡ recorded (split (region_of_update directory.now.patterns) number (mask_of (region_of_update directory.now.patterns) t.now.updates) (transaction_value t.now) r)) }
    ensures split { IsSplit (region_of_update directory.now.patterns) (mask_of (region_of_update directory.now.patterns) t.now.updates) (transaction_value t.now) }
    ensures no_other { (n mask r : ℕ) → directory.now.regions ≤ r → split (region_of_update directory.now.patterns) n mask (transaction_value t.now) r ≡ None }
{
    split_holds(t, directory);
    let lists = items_by_region(alloc, &t.updates, directory, directory.regions())?;
    let mask = mask_by(&lists);
    let records = records_by(alloc, number, mask, t, lists)?;
    Ok(PartRecords { mask, records })
}

impl PartRecords {
    /// Which regions have a part: bit r stands for region r.
    pub fn mask(&self) -> u8
        ensures { result ≡ self.now.mask }
    {
        self.mask
    }

    /// The record of a region's part, as a journal takes it, `None` where the region has none.
    pub fn record(&self, region: u8) -> Option<&JnlRecord>
        ensures value { option_map (λ x. record_value x.now) result ≡ get_or self.now.records region None }
        ensures form { IfSome result (λ x. IsInForm (record_value x.now)) }
        ensures version { IfSome result (λ x. IsFirstVersion x.now) }
        ensures short { IfSome result (λ x. length (spelled_record (record_value x.now)) ≤ LONGEST_BODY) }
    {
        let region = usize::from(region);
        if self.records.len() <= region {
            return None;
        }
        self.records[region].as_ref()
    }
}
