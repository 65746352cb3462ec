//! An ENTRY that is whole in the bytes at hand, read at once: its head tells its length, so no byte is looked at before.
ghost use Rattle.std.specs.Prelude.{◌≡◌, ◌<◌, ◌≤◌, ◌^◌, [], ◌∷◌, ◌++◌, length, IfOk, IfSome, IsTrue};
ghost use Rattle.global_defs.specs.declared.limits.TheConstants.{MOST_UPDATERS, MOST_UPDATES, NUMBERS_END};
ghost use Rattle.global_defs.specs.Fields.{IsUpdate, spelled_update};
ghost use Rattle.gvn_key.specs.Terms.{update_value};
ghost use Rattle.repl_wire.specs.Values.{frame_value};
ghost use Rattle.repl_wire.specs.Wholes.{StandBefore, IsEntryOf, StandsFirst};

use super::frame::Frame;
use global_defs::limits::LONGEST_BODY;
use gvn_key::NoMemory;
use gvn_key::terms::Update;
use gvn_model::{Origin, Transaction, Updates};
use repl_fields::{read_key, read_u8, read_u16, read_u32, read_u64, read_update, read_value};
use std::alloc::Global;

/// The last number of 40 bits.
const LAST: u64 = global_defs::limits::NUMBERS_END - 1;

/// How many bytes stand before a frame's body.
const HEAD: usize = 5;

/// The SET behind whose kind these bytes stand, and what follows it.
#[tactic(auto, using(crate::proofs::Wholes::set_stands))]
fn set_behind(alloc: Global, bytes: &[u8]) -> Result<Option<(Update, &[u8])>, NoMemory>
    ensures form { IfOk result (λ found. IfSome found (λ p. IsUpdate (update_value p.0))) }
    ensures cut { IfOk result (λ found. IfSome found (λ p. 1 ∷ bytes.now ≡ spelled_update (update_value p.0) ++ p.1.now)) }
{
    let Some((key, rest)) = read_key(alloc, bytes)? else {
        return Ok(None);
    };
    let Some((value, behind)) = read_value(alloc, rest)? else {
        return Ok(None);
    };
    Ok(Some((Update::Set(key, value), behind)))
}

/// The update at the front, and what follows it. A SET, as nearly all are, is read in one go.
fn update_first(alloc: Global, bytes: &[u8]) -> Result<Option<(Update, &[u8])>, NoMemory>
    ensures form { IfOk result (λ found. IfSome found (λ p. IsUpdate (update_value p.0))) }
    ensures cut { IfOk result (λ found. IfSome found (λ p. bytes.now ≡ spelled_update (update_value p.0) ++ p.1.now)) }
{
    let Some((kind, rest)) = read_u8(bytes) else {
        return Ok(None);
    };
    if kind == 1 {
        return set_behind(alloc, rest);
    }
    let Some((update, behind)) = read_update(alloc, bytes)? else {
        return Ok(None);
    };
    Ok(Some((update, behind)))
}

/// Adds so many updates at the front: what follows them, where so many stand there.
#[inline(always)]
fn updates_first<'a>(
    alloc: Global,
    count: u16,
    bytes: &'a [u8],
    updates: &mut Updates,
) -> Result<Option<&'a [u8]>, NoMemory>
    requires { updates.old ≡ [] }
    ensures count { IfOk result (λ found. IfSome found (λ _. length updates.new ≡ count)) }
    ensures stand { IfOk result (λ found. IfSome found (λ rest. StandBefore updates.new bytes.now rest.now)) }
{
    let mut rest = bytes;
    for _ in 0..count {
        let Some((update, behind)) = update_first(alloc, rest)? else {
            return Ok(None);
        };
        updates.push(update)?;
        rest = behind;
    }
    Ok(Some(rest))
}

/// Whether an entry may have this number, this origin and so many updates.
fn may_head(number: u64, updater: u8, serial: u32, count: u16) -> bool
    ensures number { IsTrue result → (1 ≤ number) × (number < NUMBERS_END) }
    ensures updater { IsTrue result → (1 ≤ updater) × (updater ≤ MOST_UPDATERS) }
    ensures serial { IsTrue result → (1 ≤ serial) × (serial < 2 ^ 32) }
    ensures count { IsTrue result → (1 ≤ count) × (count ≤ MOST_UPDATES) }
{
    1 <= number
        && number <= LAST
        && 1 <= updater
        && updater <= 64
        && 1 <= serial
        && 1 <= count
        && count <= 256
}

/// The ENTRY whose body these bytes are, if they are one's.
fn entry_of(alloc: Global, bytes: &[u8]) -> Result<Option<Frame>, NoMemory>
    ensures { IfOk result (λ found. IfSome found (λ frame. IsEntryOf (frame_value frame) bytes.now)) }
{
    let Some((number, rest)) = read_u64(bytes) else {
        return Ok(None);
    };
    let Some((updater, rest)) = read_u8(rest) else {
        return Ok(None);
    };
    let Some((serial, rest)) = read_u32(rest) else {
        return Ok(None);
    };
    let Some((count, rest)) = read_u16(rest) else {
        return Ok(None);
    };
    if !may_head(number, updater, serial, count) {
        return Ok(None);
    }
    // room for one more, so that a list of one update isn't as large as a key, of which many are made beside it
    let mut updates = Updates::with_capacity(alloc, usize::from(count) + 1)?;
    let Some(rest) = updates_first(alloc, count, rest, &mut updates)? else {
        return Ok(None);
    };
    if rest.len() > 0 {
        return Ok(None);
    }
    let origin = Origin { updater, serial };
    Ok(Some(Frame::Entry(number, Transaction { origin, updates })))
}

/// The ENTRY at the front and how many bytes it has, where all of them are there and are one's. It tells nothing of other bytes.
pub fn whole_entry(alloc: Global, bytes: &[u8]) -> Result<Option<(Frame, usize)>, NoMemory>
    ensures { IfOk result (λ found. IfSome found (λ p. StandsFirst (frame_value p.0) p.1 bytes.now)) }
{
    let Some((kind, rest)) = read_u8(bytes) else {
        return Ok(None);
    };
    let Some((length, rest)) = read_u32(rest) else {
        return Ok(None);
    };
    if kind != 5 || LONGEST_BODY < length || rest.len() < length as usize {
        return Ok(None);
    }
    let (body, _) = rest.split_at(length as usize);
    match entry_of(alloc, body)? {
        None => Ok(None),
        Some(frame) => Ok(Some((frame, HEAD + body.len()))),
    }
}
