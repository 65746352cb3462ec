//! Which reigns the CUTs behind them leave, in one walk from the last record to the first.
ghost use Rattle.std.specs.Prelude.{◌≡◌, ◌-◌, ◌^◌, ℕ, List, length, map, IfOk};
ghost use Rattle.std.specs.Option.{option_map};
ghost use Rattle.global_defs.specs.Rising.{StartsRise};
ghost use Rattle.gvn_model.specs.Reigns.{reign_value};
ghost use Rattle.journal_defs.specs.Instance as defs;
ghost use Rattle.journal_defs.specs.Surviving as surviving;
ghost use Rattle.instance_file.specs.Values.{record_value};
ghost use Rattle.instance_file.specs.Walks.{IsWrongReign, bound, bound_with, bounds_behind, surviving_in};

use super::record::InstanceRecord;
use gvn_key::NoMemory;
use gvn_model::{Reign, Reigns};
use std::alloc::Global;

/// The greatest start that a record and those behind it leave, where those behind leave the starts up to `later`.
fn bound_before(first: &InstanceRecord, later: u64) -> u64
    ensures { result ≡ bound_with (record_value first.now) later }
{
    match first {
        InstanceRecord::Cut { length, .. } => (*length).min(later),
        _ => later,
    }
}

/// For each record the greatest start that all records behind it leave.
pub fn bounds_of(alloc: Global, records: &[InstanceRecord]) -> Result<Vec<u64>, NoMemory>
    ensures { IfOk result (λ made. made.items ≡ bounds_behind (map record_value records.now)) }
{
    let mut made = Vec::with_capacity(alloc, records.len())?;
    let mut bound = u64::MAX;
    for record in records.iter().rev() {
        made.push(bound)?;
        bound = bound_before(record, bound);
    }
    made.reverse();
    Ok(made)
}

/// The reign that a record is, where those behind it leave the starts up to `later` and it survives them.
fn survivor(first: &InstanceRecord, later: u64) -> Option<&Reign>
    ensures { (behind : List defs.InstanceRecord) → later ≡ bound behind → option_map (λ r. reign_value r.now) result ≡ surviving_in behind (record_value first.now) }
{
    match first {
        InstanceRecord::Reign(reign) if reign.start <= later => Some(reign),
        _ => None,
    }
}

/// The reigns that no later CUT dropped.
pub fn surviving_reigns(
    alloc: Global,
    records: &[InstanceRecord],
    bounds: &[u64],
) -> Result<Reigns, NoMemory>
    requires { bounds.now ≡ bounds_behind (map record_value records.now) }
    ensures { IfOk result (λ made. made ≡ surviving.reigns (map record_value records.now)) }
{
    let mut made = Reigns::new(alloc);
    for i in 0..records.len() {
        if let Some(reign) = survivor(&records[i], bounds[i]) {
            made.push(reign.copy()?)?;
        }
    }
    Ok(made)
}

/// The place, among these, of the first surviving reign that doesn't begin past the one before it.
pub fn wrong_reign(records: &[InstanceRecord], bounds: &[u64], places: &[u64]) -> u64
    requires bounds { bounds.now ≡ bounds_behind (map record_value records.now) }
    requires many { length places.now ≡ length records.now }
    requires falls { StartsRise 0 (surviving.reigns (map record_value records.now)) → ⊥ }
    ensures { IsWrongReign (map record_value records.now) places.now result }
{
    let mut low = 0;
    for i in 0..records.len() {
        if let Some(reign) = survivor(&records[i], bounds[i]) {
            if reign.start <= low {
                return places[i];
            }
            low = reign.start;
        }
    }
    unreachable!()
}
