//! Updates that are passed over.
ghost use Rattle.std.specs.Prelude.{◌∷◌};
ghost use Rattle.std.specs.Option.{option_map};
ghost use Rattle.repl_fields.specs.Reading.{ReadsField};
ghost use Rattle.entry_index.specs.Fields.{Skips, key, value, pair, update};

use global_defs::limits::LONGEST_VALUE;
use gvn_key::is_key;
use repl_fields::{read_long, read_short, read_u8};

/// What follows a key behind its length.
#[inline(always)]
fn past_key(bytes: &[u8]) -> Option<&[u8]>
    ensures { Skips key bytes.now (option_map (λ rest. rest.now) result) }
{
    let (code, rest) = read_short(bytes)?;
    if is_key(code) { Some(rest) } else { None }
}

/// What follows a value behind its length.
#[inline(always)]
fn past_value(bytes: &[u8]) -> Option<&[u8]>
    ensures { Skips value bytes.now (option_map (λ rest. rest.now) result) }
{
    let (text, rest) = read_long(bytes)?;
    if text.len() <= LONGEST_VALUE {
        Some(rest)
    } else {
        None
    }
}

/// What follows a key and a value.
#[inline(always)]
fn past_pair(bytes: &[u8]) -> Option<&[u8]>
    ensures { Skips pair bytes.now (option_map (λ rest. rest.now) result) }
{
    let rest = past_key(bytes)?;
    past_value(rest)
}

/// What follows an update of this kind, by what stands behind the kind.
#[inline(always)]
fn past_kind(kind: u8, bytes: &[u8]) -> Option<&[u8]>
    ensures { Skips update (kind ∷ bytes.now) (option_map (λ rest. rest.now) result) }
{
    match kind {
        1 => past_pair(bytes),
        2 => past_key(bytes),
        3 => past_key(bytes),
        _ => None,
    }
}

/// What follows an update.
#[inline(always)]
pub fn past_update(bytes: &[u8]) -> Option<&[u8]>
    ensures { Skips update bytes.now (option_map (λ rest. rest.now) result) }
{
    let (kind, rest) = read_u8(bytes)?;
    past_kind(kind, rest)
}
