//! Records, out of bytes.
ghost use Rattle.std.specs.Prelude.{◌≡◌, ◌∷◌, ℕ, IfOk, IfSome, IsErrOf};
ghost use Rattle.std.specs.Option.{option_map};
ghost use Rattle.journal_defs.specs.Journal.{JournalRecord, spelled_record, IsInForm, IsJournalBody};
ghost use Rattle.repl_fields.specs.Reading.{ReadsField};
ghost use Rattle.jnl_record.specs.Values.{record_value, IsFirstVersion};

use super::kinds::{read_before, read_mark, read_start};
use super::parts::read_part;
use super::record::{JnlRecord, RecordError};
use gvn_key::NoMemory;
use repl_fields::read_u8;
use std::alloc::Global;

/// A record of this kind, by what stands behind the kind, and what follows it.
fn read_kind(alloc: Global, kind: u8, bytes: &[u8]) -> Result<Option<(JnlRecord, &[u8])>, NoMemory>
    ensures read { IfOk result (λ found. ReadsField IsInForm spelled_record (kind ∷ bytes.now) (option_map (λ p. (record_value p.0, p.1.now)) found)) }
    ensures version { IfOk result (λ found. IfSome found (λ p. IsFirstVersion p.0)) }
{
    match kind {
        1 => Ok(read_start(bytes)),
        2 => Ok(read_mark(bytes)),
        3 => read_before(alloc, bytes),
        5 => read_part(alloc, bytes),
        _ => Ok(None),
    }
}

/// A record, and what follows it.
fn read_record(alloc: Global, bytes: &[u8]) -> Result<Option<(JnlRecord, &[u8])>, NoMemory>
    ensures read { IfOk result (λ found. ReadsField IsInForm spelled_record bytes.now (option_map (λ p. (record_value p.0, p.1.now)) found)) }
    ensures version { IfOk result (λ found. IfSome found (λ p. IsFirstVersion p.0)) }
{
    match read_u8(bytes) {
        None => Ok(None),
        Some((kind, rest)) => read_kind(alloc, kind, rest),
    }
}

/// The record whose body these bytes are. `offset` is the body's place, which the refusal names.
pub fn decode(alloc: Global, body: &[u8], offset: u64) -> Result<JnlRecord, RecordError>
    ensures found { IfOk result (λ r. IsJournalBody body.now (record_value r)) }
    ensures version { IfOk result IsFirstVersion }
    ensures refused { (at : ℕ) → IsErrOf result (RecordError.NotARecord at) → (r : JournalRecord) → IsJournalBody body.now r → ⊥ }
    ensures place { (at : ℕ) → IsErrOf result (RecordError.NotARecord at) → at ≡ offset }
{
    let refusal = RecordError::NotARecord { offset };
    let Some((record, rest)) = read_record(alloc, body)? else {
        return Err(refusal);
    };
    if rest.is_empty() {
        Ok(record)
    } else {
        Err(refusal)
    }
}
