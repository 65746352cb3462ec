//! Records, out of bytes.
ghost use Rattle.std.specs.Prelude.{◌∷◌, IfOk, MatchOption};
ghost use Rattle.std.specs.Option.{option_map};
ghost use Rattle.journal_defs.specs.Instance as defs;
ghost use Rattle.journal_defs.specs.Instance.{spelled_record, IsInForm, IsInstanceBody};
ghost use Rattle.repl_fields.specs.Reading.{ReadsField};
ghost use Rattle.instance_file.specs.Values.{record_value};

use super::kinds::{read_create, read_cut, read_map, read_mode, read_reign};
use super::record::InstanceRecord;
use gvn_key::NoMemory;
use repl_fields::read_u8;
use std::alloc::Global;

/// A record of this kind, by what stands behind the kind, and what follows it.
fn read_kind(
    alloc: Global,
    kind: u8,
    bytes: &[u8],
) -> Result<Option<(InstanceRecord, &[u8])>, NoMemory>
    ensures { IfOk result (λ found. ReadsField IsInForm spelled_record (kind ∷ bytes.now) (option_map (λ p. (record_value p.0, p.1.now)) found)) }
{
    match kind {
        1 => read_create(alloc, bytes),
        2 => read_reign(alloc, bytes),
        3 => Ok(read_cut(bytes)),
        4 => read_map(alloc, bytes),
        5 => Ok(read_mode(bytes)),
        _ => Ok(None),
    }
}

/// A record, and what follows it.
fn read_record(alloc: Global, bytes: &[u8]) -> Result<Option<(InstanceRecord, &[u8])>, NoMemory>
    ensures { IfOk result (λ found. ReadsField IsInForm spelled_record bytes.now (option_map (λ p. (record_value p.0, p.1.now)) found)) }
{
    match read_u8(bytes) {
        None => Ok(None),
        Some((kind, rest)) => read_kind(alloc, kind, rest),
    }
}

/// The record whose body these bytes are, or `None` exactly where they are none's.
pub fn decode(alloc: Global, body: &[u8]) -> Result<Option<InstanceRecord>, NoMemory>
    ensures { IfOk result (λ found. MatchOption found ((r : defs.InstanceRecord) → IsInstanceBody body.now r → ⊥) (λ r. IsInstanceBody body.now (record_value r))) }
{
    let Some((record, rest)) = read_record(alloc, body)? else {
        return Ok(None);
    };
    if rest.is_empty() {
        Ok(Some(record))
    } else {
        Ok(None)
    }
}
