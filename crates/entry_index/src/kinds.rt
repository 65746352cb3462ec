//! What the records of fixed fields say, by what stands behind their kind.
ghost use Rattle.std.specs.Prelude.{◌≡◌, ◌∷◌, Bool, [], ℕ};
ghost use Rattle.std.specs.Option.{option_map};
ghost use Rattle.entry_index.specs.Fields.{Reads, truth};
ghost use Rattle.entry_index.specs.Telling.{TellsSign};

use crate::sign::Sign;
use global_defs::limits::{BLOCK, MOST_GENERATIONS, MOST_REGIONS, NUMBERS_END};
use jnl_record::VERSION;
use repl_fields::{read_u8, read_u32, read_u64};

/// A byte that is 1 for true and 0 for false, and what follows it.
fn read_flag(bytes: &[u8]) -> Option<(bool, &[u8])>
    ensures { Reads truth bytes.now (option_map (λ p. (p.0, p.1.now)) result) }
{
    match bytes {
        [0, rest @ ..] => Some((false, rest)),
        [1, rest @ ..] => Some((true, rest)),
        _ => None,
    }
}

/// What a PINI says.
pub fn start_sign(bytes: &[u8]) -> Option<Sign>
    ensures { TellsSign (1 ∷ bytes.now) result }
{
    let (version, rest) = read_u8(bytes)?;
    let (region, rest) = read_u8(rest)?;
    let (before, rest) = read_flag(rest)?;
    let (generation, rest) = read_u32(rest)?;
    let (previous, rest) = read_u32(rest)?;
    if version != VERSION
        || MOST_REGIONS <= region
        || MOST_GENERATIONS < generation
        || generation <= previous
    {
        return None;
    }
    if !rest.is_empty() {
        return None;
    }
    Some(Sign::Pini {
        region,
        before,
        generation,
        previous,
    })
}

/// What an EPOCH says.
pub fn mark_sign(bytes: &[u8]) -> Option<Sign>
    ensures { TellsSign (2 ∷ bytes.now) result }
{
    let (closing, rest) = read_flag(bytes)?;
    let (number, rest) = read_u64(rest)?;
    let (blocks, rest) = read_u32(rest)?;
    if number >= NUMBERS_END {
        return None;
    }
    if !rest.is_empty() {
        return None;
    }
    Some(Sign::Epoch {
        closing,
        number,
        blocks,
    })
}

/// What a PBLK says.
pub fn before_sign(bytes: &[u8]) -> Option<Sign>
    ensures { TellsSign (3 ∷ bytes.now) result }
{
    let (block, image) = read_u32(bytes)?;
    if image.len() == BLOCK {
        Some(Sign::Pblk { block })
    } else {
        None
    }
}
