//! TCOM records, by what stands behind their kind.
ghost use Rattle.std.specs.Prelude.{◌∷◌, ◌≤◌, ◌↔◌, IsTrue, IfOk, IfSome};
ghost use Rattle.std.specs.Option.{option_map};
ghost use Rattle.std.specs.List.{flat_map};
ghost use Rattle.journal_defs.specs.Journal.{spelled_item, spelled_record, IsItem, IsInForm};
ghost use Rattle.gvn_model.specs.Items.{item_value};
ghost use Rattle.repl_fields.specs.Reading.{ReadsField};
ghost use Rattle.jnl_record.specs.Values.{record_value, IsFirstVersion};
ghost use Rattle.jnl_record.specs.Heads.{IsHead, spelled_head, AreItems};

use super::record::JnlRecord;
use global_defs::limits::{MOST_UPDATERS, MOST_UPDATES, NUMBERS_END};
use gvn_key::NoMemory;
use gvn_model::{Item, Items, Origin};
use repl_fields::{read_u8, read_u16, read_u32, read_u64, read_update};
use std::alloc::Global;

/// How a TCOM begins, behind its kind.
#[derive(Clone, Copy, Drop)]
pub struct Head {
    pub number: u64,
    pub mask: u8,
    pub origin: Origin,
    /// How many updates the whole transaction has.
    pub count: u16,
    /// How many items follow.
    pub items: u16,
}

impl Head {
    /// Whether each field is in its range.
    fn is_valid(self) -> bool
        ensures { IsTrue result ↔ IsHead self }
    {
        (1..NUMBERS_END).contains(&self.number)
            && (1..=MOST_UPDATERS).contains(&self.origin.updater)
            && self.origin.serial >= 1
            && (1..=MOST_UPDATES).contains(&self.count)
    }
}

/// How a TCOM begins, and what follows.
fn read_head(bytes: &[u8]) -> Option<(Head, &[u8])>
    ensures { ReadsField IsHead spelled_head bytes.now (option_map (λ p. (p.0, p.1.now)) result) }
{
    let (number, rest) = read_u64(bytes)?;
    let (mask, rest) = read_u8(rest)?;
    let (updater, rest) = read_u8(rest)?;
    let (serial, rest) = read_u32(rest)?;
    let (count, rest) = read_u16(rest)?;
    let (items, rest) = read_u16(rest)?;
    let head = Head {
        number,
        mask,
        origin: Origin { updater, serial },
        count,
        items,
    };
    if head.is_valid() {
        Some((head, rest))
    } else {
        None
    }
}

/// An item of a transaction of `count` updates with a position from `low` on, and what follows it.
fn read_item(
    alloc: Global,
    low: u16,
    count: u16,
    bytes: &[u8],
) -> Result<Option<(Item, &[u8])>, NoMemory>
    ensures { IfOk result (λ found. ReadsField (λ i. (low ≤ i.position) × IsItem count i) spelled_item bytes.now (option_map (λ p. (item_value p.0, p.1.now)) found)) }
{
    let Some((4, rest)) = read_u8(bytes) else {
        return Ok(None);
    };
    let Some((position, rest)) = read_u16(rest) else {
        return Ok(None);
    };
    if position < low || count <= position {
        return Ok(None);
    }
    let Some((update, rest)) = read_update(alloc, rest)? else {
        return Ok(None);
    };
    Ok(Some((Item { position, update }, rest)))
}

/// So many items of a transaction of `count` updates, with rising positions, and what follows them.
fn read_items(
    alloc: Global,
    n: u16,
    count: u16,
    bytes: &[u8],
) -> Result<Option<(Items, &[u8])>, NoMemory>
    ensures { IfOk result (λ found. ReadsField (AreItems 0 n count) (flat_map spelled_item) bytes.now (option_map (λ p. (p.0, p.1.now)) found)) }
{
    let mut items = Items::new(alloc);
    let mut low = 0;
    let mut rest = bytes;
    for _ in 0..n {
        let Some((item, others)) = read_item(alloc, low, count, rest)? else {
            return Ok(None);
        };
        low = item.position + 1;
        items.push(item)?;
        rest = others;
    }
    Ok(Some((items, rest)))
}

/// A TCOM by its fields, and what follows them.
pub fn read_part(alloc: Global, bytes: &[u8]) -> Result<Option<(JnlRecord, &[u8])>, NoMemory>
    ensures read { IfOk result (λ found. ReadsField IsInForm spelled_record (5 ∷ bytes.now) (option_map (λ p. (record_value p.0, p.1.now)) found)) }
    ensures version { IfOk result (λ found. IfSome found (λ p. IsFirstVersion p.0)) }
{
    let Some((head, rest)) = read_head(bytes) else {
        return Ok(None);
    };
    let Some((items, rest)) = read_items(alloc, head.items, head.count, rest)? else {
        return Ok(None);
    };
    let record = JnlRecord::Tcom {
        number: head.number,
        mask: head.mask,
        origin: head.origin,
        count: head.count,
        items,
    };
    Ok(Some((record, rest)))
}
