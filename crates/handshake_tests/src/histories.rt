// Histories.
ghost use Rattle.std.specs.Prelude.{◌≡◌, IfOk};
ghost use Rattle.std.specs.List.{AllByRecursion};
ghost use Rattle.global_defs.specs.Fields.{IsReign};
ghost use Rattle.gvn_model.specs.Entries.{history_value};
ghost use Rattle.gvn_model.specs.Reigns.{reign_value};

use gvn_key::Bytes;
use gvn_model::{History, Reign, Reigns, Stamp};
use std::alloc::Global;
use std::test::Fail;

/// A reign: its root's name, its cycle, and the number of its first entry.
pub type Record = (u8, u32, u64);

// The number behind the last one that a reign may begin with.
const STARTS_END: u64 = (1 << 40) + 1;

pub fn reign(alloc: Global, record: Record) -> Result<Reign, Fail>
    ensures { IfOk result (λ r. IsReign (reign_value r)) }
{
    let (letter, cycle, start) = record;
    if !letter.is_ascii_alphabetic() || cycle == 0 || start == 0 || start >= STARTS_END {
        return Err("no reign")?;
    }
    let root = Bytes::of(alloc, &[letter])?;
    Ok(Reign {
        stamp: Stamp { root, cycle },
        start,
    })
}

pub fn history(alloc: Global, length: u64, records: &[Record]) -> Result<History, Fail>
    ensures length { IfOk result (λ h. h.length ≡ length) }
    ensures form { IfOk result (λ h. AllByRecursion IsReign (history_value h).reigns) }
{
    let mut reigns = Reigns::new(alloc);
    for record in records {
        reigns.push(reign(alloc, *record)?)?;
    }
    Ok(History { length, reigns })
}

/// So many reigns of one entry each.
pub fn many(alloc: Global, count: u32) -> Result<History, Fail>
    ensures length { IfOk result (λ h. h.length ≡ count) }
    ensures form { IfOk result (λ h. AllByRecursion IsReign (history_value h).reigns) }
{
    let mut reigns = Reigns::new(alloc);
    for i in 0..count {
        reigns.push(reign(alloc, (b'A', i + 1, u64::from(i) + 1))?)?;
    }
    Ok(History {
        length: u64::from(count),
        reigns,
    })
}
