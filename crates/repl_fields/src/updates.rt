// Keys and updates.
ghost use Rattle.std.specs.Prelude.{◌≡◌, ℕ, List, ◌++◌, ◌∷◌, ◌≤◌, ◌<◌, ◌^◌, length, IsTrue, IfOk, OnOk, OnErr};
ghost use Rattle.std.specs.Option.{option_map};
ghost use Rattle.global_defs.specs.Key as defs;
ghost use Rattle.global_defs.specs.Valid.{is_key};
ghost use Rattle.global_defs.specs.Encoded.{encoded};
ghost use Rattle.global_defs.specs.Fields.{short, long, spelled_update, IsUpdate};
ghost use Rattle.global_defs.specs.Prefix.{IsPrefix};
ghost use Rattle.gvn_key.specs.Decoding.{Decodes};
ghost use Rattle.gvn_key.specs.Terms.{update_value};
ghost use Rattle.repl_fields.specs.Reading.{ReadsField};

use super::numbers::read_u8;
use super::pieces::{read_long, read_short};
use global_defs::limits::LONGEST_VALUE;
use gvn_key::terms::Update;
use gvn_key::{Bytes, Key, NoMemory, is_key};
use std::alloc::Global;

/// The key that has these bytes as its encoded form, `None` where no key has them. Keys of the commonest forms are told at once.
fn decode_key(alloc: Global, code: &[u8]) -> Result<Option<Key>, NoMemory>
    ensures { IfOk result (λ found. Decodes code.now found) }
{
    if !is_key(code) {
        return Ok(None);
    }
    Ok(Some(Key::of_code(alloc, code)?))
}

/// A key behind its length, and what follows it.
#[tactic(auto, using(crate::proofs::Tagged::no_key_read))]
pub fn read_key(alloc: Global, bytes: &[u8]) -> Result<Option<(Key, &[u8])>, NoMemory>
    ensures { IfOk result (λ found. ReadsField (λ k. IsTrue (is_key k)) (λ k. short (encoded k)) bytes.now (option_map (λ p. (p.0, p.1.now)) found)) }
{
    match read_short(bytes) {
        None => Ok(None),
        Some((code, rest)) => match decode_key(alloc, code)? {
            None => Ok(None),
            Some(key) => Ok(Some((key, rest))),
        },
    }
}

/// A value behind its length, and what follows it.
pub fn read_value(alloc: Global, bytes: &[u8]) -> Result<Option<(Bytes, &[u8])>, NoMemory>
    ensures { IfOk result (λ found. ReadsField (λ v. length v ≤ LONGEST_VALUE) long bytes.now (option_map (λ p. (p.0, p.1.now)) found)) }
{
    match read_long(bytes) {
        None => Ok(None),
        Some((value, rest)) => {
            if LONGEST_VALUE < value.len() {
                return Ok(None);
            }
            Ok(Some((Bytes::of(alloc, value)?, rest)))
        }
    }
}

/// A key and a value, each behind its length, and what follows them.
fn read_pair(alloc: Global, bytes: &[u8]) -> Result<Option<(Key, Bytes, &[u8])>, NoMemory>
    ensures { IfOk result (λ found. ReadsField (λ (u : defs.Key × List ℕ). IsTrue (is_key u.0) × (length u.1 ≤ LONGEST_VALUE)) (λ u. short (encoded u.0) ++ long u.1)
        bytes.now (option_map (λ p. ((p.0, p.1), p.2.now)) found)) }
{
    let Some((key, rest)) = read_key(alloc, bytes)? else {
        return Ok(None);
    };
    let Some((value, rest)) = read_value(alloc, rest)? else {
        return Ok(None);
    };
    Ok(Some((key, value, rest)))
}

/// An update of this kind, by what stands behind the kind.
#[tactic(auto, using(crate::proofs::Tagged::set_read, crate::proofs::Tagged::kill_read, crate::proofs::Tagged::zkill_read, crate::proofs::Tagged::no_kind))]
fn read_kind(alloc: Global, kind: u8, bytes: &[u8]) -> Result<Option<(Update, &[u8])>, NoMemory>
    ensures { IfOk result (λ found. ReadsField IsUpdate spelled_update (kind ∷ bytes.now) (option_map (λ p. (update_value p.0, p.1.now)) found)) }
{
    if kind == 1 {
        return match read_pair(alloc, bytes)? {
            None => Ok(None),
            Some((key, value, rest)) => Ok(Some((Update::Set(key, value), rest))),
        };
    }
    if kind == 2 {
        return match read_key(alloc, bytes)? {
            None => Ok(None),
            Some((key, rest)) => Ok(Some((Update::Kill(key), rest))),
        };
    }
    if kind == 3 {
        return match read_key(alloc, bytes)? {
            None => Ok(None),
            Some((key, rest)) => Ok(Some((Update::ZKill(key), rest))),
        };
    }
    Ok(None)
}

/// An update, and what follows it: 01 SET, 02 KILL or 03 ZKILL, the key behind its length, and for SET the value behind its length.
pub fn read_update(alloc: Global, bytes: &[u8]) -> Result<Option<(Update, &[u8])>, NoMemory>
    ensures { IfOk result (λ found. ReadsField IsUpdate spelled_update bytes.now (option_map (λ p. (update_value p.0, p.1.now)) found)) }
{
    match read_u8(bytes) {
        None => Ok(None),
        Some((kind, rest)) => read_kind(alloc, kind, rest),
    }
}

/// Adds bytes behind their length of one byte at the end. After [`NoMemory`] a part of them may have been added.
pub fn write_short(bytes: &[u8], out: &mut Bytes) -> Result<(), NoMemory>
    requires { length bytes.now < 2 ^ 8 }
    ensures ok { OnOk result (out.new ≡ out.old ++ short bytes.now) }
    ensures err { OnErr result (IsPrefix out.old out.new) }
{
    out.push_all(&[bytes.len() as u8])?;
    out.push_all(bytes)
}

/// Adds bytes behind their length of two bytes at the end. After [`NoMemory`] a part of them may have been added.
pub fn write_long(bytes: &[u8], out: &mut Bytes) -> Result<(), NoMemory>
    requires { length bytes.now < 2 ^ 16 }
    ensures ok { OnOk result (out.new ≡ out.old ++ long bytes.now) }
    ensures err { OnErr result (IsPrefix out.old out.new) }
{
    out.push_all(&(bytes.len() as u16).to_be_bytes())?;
    out.push_all(bytes)
}

/// Adds an update at the end, as `read_update` reads it. After [`NoMemory`] a part of it may have been added.
pub fn write_update(update: &Update, out: &mut Bytes) -> Result<(), NoMemory>
    requires { IsUpdate (update_value update.now) }
    ensures ok { OnOk result (out.new ≡ out.old ++ spelled_update (update_value update.now)) }
    ensures err { OnErr result (IsPrefix out.old out.new) }
{
    match update {
        Update::Set(key, value) => {
            out.push_all(&[1])?;
            write_short(key.as_encoded(), out)?;
            write_long(value.as_slice(), out)
        }
        Update::Kill(key) => {
            out.push_all(&[2])?;
            write_short(key.as_encoded(), out)
        }
        Update::ZKill(key) => {
            out.push_all(&[3])?;
            write_short(key.as_encoded(), out)
        }
    }
}
