//! Frames from bytes of which a scan has told that they are one.
ghost use Rattle.std.specs.Prelude.{◌≡◌, ◌++◌, ◌≤◌, ◌<◌, ◌^◌, ◌∷◌, ℕ, List, length, Some, IfOk, IsTrue, map};
ghost use Rattle.std.specs.Option.{option_map};
ghost use Rattle.std.specs.List.{flat_map, AllByRecursion};
ghost use Rattle.global_defs.specs.declared.limits.TheConstants.{NUMBERS_END};
ghost use Rattle.global_defs.specs.Fields.{IsReign, IsUpdate, IsTransaction, spelled_update};
ghost use Rattle.std.specs.Int.{to_be_bytes, w64};
ghost use Rattle.global_defs.specs.Entry as entries;
ghost use Rattle.global_defs.specs.Prefix as prefix;
ghost use Rattle.gvn_key.specs.Terms.{update_value};
ghost use Rattle.gvn_model.specs.Reigns.{reign_value};
ghost use Rattle.gvn_model.specs.Entries.{transaction_value};
ghost use Rattle.wire_defs.specs.Frames as defs;
ghost use Rattle.wire_defs.specs.Frames.{spelled_frame, spelled_reign, entry_bytes, frame_body, IsFrame, HasFields};
ghost use Rattle.repl_wire.specs.Values.{frame_value};
ghost use Rattle.repl_wire.specs.Finds.{Finds};

use super::frame::Frame;
use gvn_key::{Bytes, NoMemory};
use gvn_model::{History, Origin, Reign, Reigns, Stamp, Transaction, Updates};
use repl_fields::{read_short, read_u8, read_u16, read_u32, read_u64, read_update};
use std::alloc::Global;

/// The reign at the front, and what follows it.
#[tactic(auto, using(crate::proofs::Found::no_cycle, crate::proofs::Found::no_start))]
fn read_reign(alloc: Global, bytes: &[u8]) -> Result<Option<(Reign, &[u8])>, NoMemory>
    ensures { IfOk result (λ found. Finds IsReign spelled_reign bytes.now (option_map (λ p. (reign_value p.0, p.1.now)) found)) }
{
    let Some((root, rest)) = read_short(bytes) else {
        return Ok(None);
    };
    let Some((cycle, rest)) = read_u32(rest) else {
        return Ok(None);
    };
    let Some((start, rest)) = read_u64(rest) else {
        return Ok(None);
    };
    let root = Bytes::of(alloc, root)?;
    Ok(Some((
        Reign {
            stamp: Stamp { root, cycle },
            start,
        },
        rest,
    )))
}

/// So many reigns, where nothing follows them.
fn read_reigns(alloc: Global, count: u32, bytes: &[u8]) -> Result<Option<Reigns>, NoMemory>
    ensures { IfOk result (λ found. (rs : List entries.Reign) → AllByRecursion IsReign rs → length rs ≡ count → bytes.now ≡ flat_map spelled_reign rs → found ≡ Some rs) }
{
    let mut reigns = Reigns::new(alloc);
    let mut rest = bytes;
    for _ in 0..count {
        let Some((reign, behind)) = read_reign(alloc, rest)? else {
            return Ok(None);
        };
        reigns.push(reign)?;
        rest = behind;
    }
    Ok(Some(reigns))
}

/// So many updates, where nothing follows them.
fn read_updates(alloc: Global, count: u16, bytes: &[u8]) -> Result<Option<Updates>, NoMemory>
    ensures { IfOk result (λ found. (us : List entries.Update) → AllByRecursion IsUpdate us → length us ≡ count → bytes.now ≡ flat_map spelled_update us → found ≡ Some us) }
{
    let mut updates = Updates::with_capacity(alloc, usize::from(count))?;
    let mut rest = bytes;
    for _ in 0..count {
        let Some((update, behind)) = read_update(alloc, rest)? else {
            return Ok(None);
        };
        updates.push(update)?;
        rest = behind;
    }
    Ok(Some(updates))
}

/// A HELLO by its body.
#[tactic(auto, using(crate::proofs::Found::hello_parts, crate::proofs::Found::short_name))]
fn read_hello(alloc: Global, bytes: &[u8]) -> Result<Option<Frame>, NoMemory>
    ensures { IfOk result (λ found. (version : ℕ) (name : List ℕ) (history : prefix.History) → HasFields (defs.Hello version name history)
        → bytes.now ≡ frame_body (defs.Hello version name history) → option_map frame_value found ≡ Some (defs.Hello version name history)) }
{
    let Some((version, rest)) = read_u8(bytes) else {
        return Ok(None);
    };
    let Some((name, rest)) = read_short(rest) else {
        return Ok(None);
    };
    let Some((length, rest)) = read_u64(rest) else {
        return Ok(None);
    };
    let Some((count, rest)) = read_u32(rest) else {
        return Ok(None);
    };
    let Some(reigns) = read_reigns(alloc, count, rest)? else {
        return Ok(None);
    };
    let name = Bytes::of(alloc, name)?;
    let history = History { length, reigns };
    Ok(Some(Frame::Hello {
        version,
        name,
        history,
    }))
}

/// An entry by its bytes.
#[tactic(auto, using(crate::proofs::Found::entry_parts))]
fn read_entry(alloc: Global, bytes: &[u8]) -> Result<Option<Frame>, NoMemory>
    ensures { IfOk result (λ found. (n : ℕ) (t : entries.Transaction) → HasFields (defs.Entry n t) → bytes.now ≡ entry_bytes n t
        → option_map frame_value found ≡ Some (defs.Entry n t)) }
{
    let Some((number, rest)) = read_u64(bytes) else {
        return Ok(None);
    };
    let Some((updater, rest)) = read_u8(rest) else {
        return Ok(None);
    };
    let Some((serial, rest)) = read_u32(rest) else {
        return Ok(None);
    };
    let Some((count, rest)) = read_u16(rest) else {
        return Ok(None);
    };
    let Some(updates) = read_updates(alloc, count, rest)? else {
        return Ok(None);
    };
    let origin = Origin { updater, serial };
    Ok(Some(Frame::Entry(number, Transaction { origin, updates })))
}

/// A reign by its bytes.
fn read_history(alloc: Global, bytes: &[u8]) -> Result<Option<Frame>, NoMemory>
    ensures { IfOk result (λ found. (r : entries.Reign) → IsReign r → bytes.now ≡ spelled_reign r → option_map frame_value found ≡ Some (defs.History r)) }
{
    match read_reign(alloc, bytes)? {
        Some((reign, _)) => Ok(Some(Frame::History(reign))),
        None => Ok(None),
    }
}

/// A number by its bytes.
fn read_alone(bytes: &[u8]) -> Option<u64>
    ensures { (n : ℕ) → n < 2 ^ 64 → bytes.now ≡ to_be_bytes w64 n → result ≡ Some n }
{
    match read_u64(bytes) {
        None => None,
        Some((n, _)) => Some(n),
    }
}

/// A BYE by its body.
fn read_bye(bytes: &[u8]) -> Option<Frame>
    ensures { (n : ℕ) → n < NUMBERS_END → bytes.now ≡ to_be_bytes w64 n → option_map frame_value result ≡ Some (defs.Bye n) }
{
    match read_alone(bytes) {
        None => None,
        Some(n) => Some(Frame::Bye(n)),
    }
}

/// A frame by its type and its body.
fn read_body(alloc: Global, kind: u8, body: &[u8]) -> Result<Option<Frame>, NoMemory>
    ensures { IfOk result (λ found. (f : defs.Frame) → HasFields f → kind ≡ defs.frame_type f → body.now ≡ frame_body f → option_map frame_value found ≡ Some f) }
{
    match kind {
        1 => read_hello(alloc, body),
        2 => Ok(read_alone(body).map(Frame::Resume)),
        3 => Ok(read_alone(body).map(Frame::RollbackFirst)),
        4 => read_history(alloc, body),
        5 => read_entry(alloc, body),
        6 => Ok(read_bye(body)),
        _ => Ok(None),
    }
}

/// The frame whose bytes these are.
pub fn read_frame(alloc: Global, bytes: &[u8]) -> Result<Option<Frame>, NoMemory>
    ensures { IfOk result (λ found. (f : defs.Frame) → IsFrame f → bytes.now ≡ spelled_frame f → option_map frame_value found ≡ Some f) }
{
    let [kind, _, _, _, _, body @ ..] = bytes else {
        return Ok(None);
    };
    read_body(alloc, *kind, body)
}
