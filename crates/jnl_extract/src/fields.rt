//! The fields of an entry's lines.
ghost use Rattle.std.specs.Prelude.{◌≡◌, ◌<◌, ◌≤◌, ◌^◌, ◌++◌, ◌∷◌, ℕ, decimal, IfOk, MatchOption};
ghost use Rattle.global_defs.specs.Entry as defs;
ghost use Rattle.global_defs.specs.Fields.{IsStamp, IsOrigin};
ghost use Rattle.gvn_model.specs.Reigns.{stamp_value};
ghost use Rattle.gvn_model.specs.Entries.{origin_value};
ghost use Rattle.gvn_model.specs.Numbered.{numbered};
ghost use Rattle.jnl_extract.specs.Lines as lines;
ghost use Rattle.jnl_extract.specs.Lines.{stamp_text, origin_text, FieldsAre, IsHead, same_head};
ghost use Rattle.jnl_extract.specs.Values.{head_value};

use super::cut::{cut, is_site_name, read_number};
use gvn_key::{Bytes, NoMemory};
use gvn_model::{Entry, Origin, Stamp};
use std::alloc::Global;

/// How many updaters there may be.
const MOST_UPDATERS: u64 = global_defs::limits::MOST_UPDATERS as u64;

/// The greatest cycle, and the greatest serial.
const LAST_OF_FOUR_BYTES: u64 = 0xffff_ffff;

/// What each line of an entry has: its number, its stamp and its origin.
#[derive(Debug, Drop)]
pub(crate) struct Head {
    /// The entry's number.
    pub number: u64,
    /// The reign in which it was made.
    pub stamp: Stamp,
    /// The job.
    pub origin: Origin,
}

/// Two numbers with a point between them.
fn read_pair(text: &[u8]) -> Option<(u64, u64)>
    ensures { MatchOption result ((m n : ℕ) → m < 2 ^ 64 → n < 2 ^ 64 → text.now ≡ decimal m ++ 46 ∷ decimal n → ⊥)
        (λ p. (p.0 < 2 ^ 64) × (p.1 < 2 ^ 64) × (text.now ≡ decimal p.0 ++ 46 ∷ decimal p.1)) }
{
    match cut(text, b'.') {
        None => None,
        Some((first, second)) => match read_number(first) {
            None => None,
            Some(m) => match read_number(second) {
                None => None,
                Some(n) => Some((m, n)),
            },
        },
    }
}

/// An updater and a serial that there are.
fn origin_of(updater: u64, serial: u64) -> Option<Origin>
    ensures { MatchOption result ((1 ≤ updater) → (updater ≤ MOST_UPDATERS) → (1 ≤ serial) → (serial < 2 ^ 32) → ⊥)
        (λ o. IsOrigin (origin_value o) × (o.updater ≡ updater) × (o.serial ≡ serial)) }
{
    if updater == 0 || MOST_UPDATERS < updater || serial == 0 || LAST_OF_FOUR_BYTES < serial {
        return None;
    }
    Some(Origin {
        updater: updater as u8,
        serial: serial as u32,
    })
}

/// The origin of its text.
fn read_origin(text: &[u8]) -> Option<Origin>
    ensures { MatchOption result ((o : defs.Origin) → IsOrigin o → text.now ≡ origin_text o → ⊥)
        (λ o. IsOrigin (origin_value o) × (text.now ≡ origin_text (origin_value o))) }
{
    match read_pair(text) {
        None => None,
        Some(pair) => match origin_of(pair.0, pair.1) {
            None => None,
            Some(origin) => Some(origin),
        },
    }
}

/// A cycle from 1 to 2 ^ 32 - 1, by its digits.
fn read_cycle(text: &[u8]) -> Option<u32>
    ensures { MatchOption result ((k : ℕ) → 1 ≤ k → k < 2 ^ 32 → text.now ≡ decimal k → ⊥)
        (λ k. (1 ≤ k) × (k < 2 ^ 32) × (text.now ≡ decimal k)) }
{
    match read_number(text) {
        None => None,
        Some(number) => {
            if number == 0 || LAST_OF_FOUR_BYTES < number {
                return None;
            }
            Some(number as u32)
        }
    }
}

/// The stamp of its text.
fn read_stamp(alloc: Global, text: &[u8]) -> Result<Option<Stamp>, NoMemory>
    ensures { IfOk result (λ found. MatchOption found ((s : defs.Stamp) → IsStamp s → text.now ≡ stamp_text s → ⊥)
        (λ s. IsStamp (stamp_value s) × (text.now ≡ stamp_text (stamp_value s)))) }
{
    match cut(text, b'.') {
        None => Ok(None),
        Some((name, digits)) => {
            if !is_site_name(name) {
                return Ok(None);
            }
            match read_cycle(digits) {
                None => Ok(None),
                Some(cycle) => {
                    let root = Bytes::of(alloc, name)?;
                    Ok(Some(Stamp { root, cycle }))
                }
            }
        }
    }
}

/// A number, a stamp and an origin, each by its text.
pub(crate) fn read_head(
    alloc: Global,
    number: &[u8],
    stamp: &[u8],
    origin: &[u8],
) -> Result<Option<Head>, NoMemory>
    ensures { IfOk result (λ found. MatchOption found ((h : lines.Head) → IsHead h → FieldsAre h number.now stamp.now origin.now → ⊥)
        (λ h. IsHead (head_value h) × FieldsAre (head_value h) number.now stamp.now origin.now)) }
{
    match read_number(number) {
        None => Ok(None),
        Some(number) => match read_origin(origin) {
            None => Ok(None),
            Some(origin) => match read_stamp(alloc, stamp)? {
                None => Ok(None),
                Some(stamp) => Ok(Some(Head {
                    number,
                    stamp,
                    origin,
                })),
            },
        },
    }
}

/// Whether these are the fields of this entry.
pub(crate) fn same_head(entry: &Entry, head: &Head) -> bool
    ensures { result ≡ same_head (numbered entry.now) (head_value head.now) }
{
    entry.number == head.number
        && entry.stamp.root.as_slice() == head.stamp.root.as_slice()
        && entry.stamp.cycle == head.stamp.cycle
        && entry.transaction.origin.updater == head.origin.updater
        && entry.transaction.origin.serial == head.origin.serial
}
