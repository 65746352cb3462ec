// Histories.
ghost use Rattle.std.specs.Prelude.{◌≡◌, IfOk};
ghost use Rattle.std.specs.List.{AllByRecursion};
ghost use Rattle.global_defs.specs.Fields.{IsReign};
ghost use Rattle.global_defs.specs.Rising.{StartsRise};
ghost use Rattle.gvn_model.specs.Entries.{history_value};
ghost use Rattle.gvn_model.specs.Reigns.{reign_value};

use gvn_key::{Bytes, NoMemory};
use gvn_model::{History, Reign, Reigns, Stamp};
use std::alloc::Global;
use thiserror::Error;

/// A reign: its root's name, which is one letter, its cycle, and the number of its first entry.
pub type Record = (u8, u32, u64);

/// Why a stand-in wasn't made.
#[derive(Clone, Copy, Debug, PartialEq, Eq, Error)]
pub enum StandError {
    /// No reign is like that, or it begins no later than the one before.
    #[error("no reign")]
    NoReign,
    /// An entry would be too large.
    #[error("too large")]
    TooLarge,
    /// Memory was refused.
    #[error("out of memory")]
    NoMemory,
}

impl From<NoMemory> for StandError {
    ghost use Rattle.std.specs.Prelude.{◌≡◌};
    ghost use Rattle.ship_stands.specs.declared.histories.StandError.TheVariants as errors;

    ghost from_gives = { λ _ e. e ≡ errors.NoMemory };

    fn from(_: NoMemory) -> Self {
        StandError::NoMemory
    }
}

// The number behind the last one that a reign may begin with.
const STARTS_END: u64 = (1 << 40) + 1;

fn reign(alloc: Global, told: Record) -> Result<Reign, StandError>
    ensures form { IfOk result (λ r. IsReign (reign_value r)) }
    ensures start { IfOk result (λ r. r.start ≡ told.2) }
{
    let (letter, cycle, start) = told;
    if !letter.is_ascii_alphabetic() || cycle == 0 || start == 0 || start >= STARTS_END {
        return Err(StandError::NoReign);
    }
    let root = Bytes::of(alloc, &[letter])?;
    Ok(Reign {
        stamp: Stamp { root, cycle },
        start,
    })
}

/// A history of so many entries and these reigns.
pub fn history(alloc: Global, length: u64, records: &[Record]) -> Result<History, StandError>
    ensures length { IfOk result (λ h. h.length ≡ length) }
    ensures form { IfOk result (λ h. AllByRecursion IsReign (history_value h).reigns) }
    ensures rising { IfOk result (λ h. StartsRise 0 (history_value h).reigns) }
{
    let mut reigns = Reigns::new(alloc);
    let mut last = 0;
    for told in records {
        let reign = reign(alloc, *told)?;
        if reign.start <= last {
            return Err(StandError::NoReign);
        }
        last = reign.start;
        reigns.push(reign)?;
    }
    Ok(History { length, reigns })
}
