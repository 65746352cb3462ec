//! The records of each kind, by what stands behind the kind.
ghost use Rattle.std.specs.Prelude.{◌∷◌, ◌≤◌, ◌^◌, ◌↔◌, IsTrue, IfOk};
ghost use Rattle.std.specs.Option.{option_map};
ghost use Rattle.journal_defs.specs.Instance.{spelled_record, IsInForm};
ghost use Rattle.repl_fields.specs.Reading.{ReadsField};
ghost use Rattle.instance_file.specs.Values.{record_value};

use super::fields::{read_flag, read_global_name, read_regions, read_site_name};
use super::record::InstanceRecord;
use global_defs::limits::{MOST_GENERATIONS, MOST_REGIONS, NUMBERS_END};
use gvn_key::{Bytes, NoMemory};
use gvn_model::{Reign, Stamp};
use repl_fields::{read_u8, read_u32, read_u64};
use std::alloc::Global;

/// The only version of the layout.
const VERSION: u8 = 1;

/// A CREATE by its fields, and what follows them.
pub fn read_create(alloc: Global, bytes: &[u8]) -> Result<Option<(InstanceRecord, &[u8])>, NoMemory>
    ensures { IfOk result (λ found. ReadsField IsInForm spelled_record (1 ∷ bytes.now) (option_map (λ p. (record_value p.0, p.1.now)) found)) }
{
    let Some((VERSION, rest)) = read_u8(bytes) else {
        return Ok(None);
    };
    let Some((name, rest)) = read_site_name(rest) else {
        return Ok(None);
    };
    let Some((count, rest)) = read_u8(rest) else {
        return Ok(None);
    };
    if count == 0 || MOST_REGIONS < count {
        return Ok(None);
    }
    let Some((regions, rest)) = read_regions(alloc, count, rest)? else {
        return Ok(None);
    };
    let name = Bytes::of(alloc, name)?;
    Ok(Some((InstanceRecord::Create { name, regions }, rest)))
}

/// Whether a reign may have this cycle and this start.
fn is_in_range(cycle: u32, start: u64) -> bool
    ensures { IsTrue result ↔ ((1 ≤ cycle) × (1 ≤ start) × (start ≤ NUMBERS_END)) }
{
    cycle >= 1 && (1..=NUMBERS_END).contains(&start)
}

/// A REIGN by its fields, and what follows them.
pub fn read_reign(alloc: Global, bytes: &[u8]) -> Result<Option<(InstanceRecord, &[u8])>, NoMemory>
    ensures { IfOk result (λ found. ReadsField IsInForm spelled_record (2 ∷ bytes.now) (option_map (λ p. (record_value p.0, p.1.now)) found)) }
{
    let Some((root, rest)) = read_site_name(bytes) else {
        return Ok(None);
    };
    let Some((cycle, rest)) = read_u32(rest) else {
        return Ok(None);
    };
    let Some((start, rest)) = read_u64(rest) else {
        return Ok(None);
    };
    if !is_in_range(cycle, start) {
        return Ok(None);
    }
    let root = Bytes::of(alloc, root)?;
    let reign = Reign {
        stamp: Stamp { root, cycle },
        start,
    };
    Ok(Some((InstanceRecord::Reign(reign), rest)))
}

/// A CUT by its fields, and what follows them.
pub fn read_cut(bytes: &[u8]) -> Option<(InstanceRecord, &[u8])>
    ensures { ReadsField IsInForm spelled_record (3 ∷ bytes.now) (option_map (λ p. (record_value p.0, p.1.now)) result) }
{
    let (length, rest) = read_u64(bytes)?;
    let (generation, rest) = read_u32(rest)?;
    if length >= NUMBERS_END || generation == 0 || MOST_GENERATIONS < generation {
        return None;
    }
    Some((InstanceRecord::Cut { length, generation }, rest))
}

/// A MAP by its fields, and what follows them.
pub fn read_map(alloc: Global, bytes: &[u8]) -> Result<Option<(InstanceRecord, &[u8])>, NoMemory>
    ensures { IfOk result (λ found. ReadsField IsInForm spelled_record (4 ∷ bytes.now) (option_map (λ p. (record_value p.0, p.1.now)) found)) }
{
    let Some((region, rest)) = read_u8(bytes) else {
        return Ok(None);
    };
    let Some((star, rest)) = read_flag(rest) else {
        return Ok(None);
    };
    let Some((name, rest)) = read_global_name(rest) else {
        return Ok(None);
    };
    if MOST_REGIONS <= region {
        return Ok(None);
    }
    let name = Bytes::of(alloc, name)?;
    Ok(Some((InstanceRecord::Map { region, star, name }, rest)))
}

/// A MODE by its fields, and what follows them.
pub fn read_mode(bytes: &[u8]) -> Option<(InstanceRecord, &[u8])>
    ensures { ReadsField IsInForm spelled_record (5 ∷ bytes.now) (option_map (λ p. (record_value p.0, p.1.now)) result) }
{
    let (region, rest) = read_u8(bytes)?;
    let (before, rest) = read_flag(rest)?;
    if MOST_REGIONS <= region {
        return None;
    }
    Some((InstanceRecord::Mode { region, before }, rest))
}
