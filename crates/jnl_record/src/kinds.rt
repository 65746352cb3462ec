//! The records of fixed fields, by what stands behind their kind.
ghost use Rattle.std.specs.Prelude.{◌∷◌, IfOk, IfSome};
ghost use Rattle.std.specs.Option.{option_map};
ghost use Rattle.journal_defs.specs.Journal.{spelled_record, IsInForm};
ghost use Rattle.repl_fields.specs.Reading.{ReadsField};
ghost use Rattle.jnl_record.specs.Values.{record_value, IsFirstVersion};

use super::fields::{read_flag, read_image};
use super::record::JnlRecord;
use global_defs::limits::{MOST_GENERATIONS, MOST_REGIONS, NUMBERS_END};
use gvn_key::{Bytes, NoMemory};
use repl_fields::{read_u8, read_u32, read_u64};
use std::alloc::Global;

/// The only version of the layout of a journal (docs/FORMATS.md, journal records).
pub const VERSION: u8 = 1;

/// A PINI by its fields, and what follows them.
pub fn read_start(bytes: &[u8]) -> Option<(JnlRecord, &[u8])>
    ensures read { ReadsField IsInForm spelled_record (1 ∷ bytes.now) (option_map (λ p. (record_value p.0, p.1.now)) result) }
    ensures version { IfSome result (λ p. IsFirstVersion p.0) }
{
    let (version, rest) = read_u8(bytes)?;
    let (region, rest) = read_u8(rest)?;
    let (before, rest) = read_flag(rest)?;
    let (generation, rest) = read_u32(rest)?;
    let (previous, rest) = read_u32(rest)?;
    if version != VERSION
        || MOST_REGIONS <= region
        || MOST_GENERATIONS < generation
        || generation <= previous
    {
        return None;
    }
    let record = JnlRecord::Pini {
        version,
        region,
        before,
        generation,
        previous,
    };
    Some((record, rest))
}

/// An EPOCH by its fields, and what follows them.
pub fn read_mark(bytes: &[u8]) -> Option<(JnlRecord, &[u8])>
    ensures read { ReadsField IsInForm spelled_record (2 ∷ bytes.now) (option_map (λ p. (record_value p.0, p.1.now)) result) }
    ensures version { IfSome result (λ p. IsFirstVersion p.0) }
{
    let (closing, rest) = read_flag(bytes)?;
    let (number, rest) = read_u64(rest)?;
    let (blocks, rest) = read_u32(rest)?;
    if number >= NUMBERS_END {
        return None;
    }
    let record = JnlRecord::Epoch {
        closing,
        number,
        blocks,
    };
    Some((record, rest))
}

/// A PBLK by its fields, and what follows them.
pub fn read_before(alloc: Global, bytes: &[u8]) -> Result<Option<(JnlRecord, &[u8])>, NoMemory>
    ensures read { IfOk result (λ found. ReadsField IsInForm spelled_record (3 ∷ bytes.now) (option_map (λ p. (record_value p.0, p.1.now)) found)) }
    ensures version { IfOk result (λ found. IfSome found (λ p. IsFirstVersion p.0)) }
{
    let Some((block, rest)) = read_u32(bytes) else {
        return Ok(None);
    };
    let Some((image, rest)) = read_image(rest) else {
        return Ok(None);
    };
    let image = Bytes::of(alloc, image)?;
    Ok(Some((JnlRecord::Pblk { block, image }, rest)))
}
