//! Fields that records alone have.
ghost use Rattle.std.specs.Prelude.{◌≡◌, ◌∷◌, ◌↔◌, [], Bool, IsTrue, IfOk, map};
ghost use Rattle.std.specs.Option.{option_map};
ghost use Rattle.std.specs.List.{list_all, flat_map};
ghost use Rattle.global_defs.specs.Fields.{flag, short, IsSiteName};
ghost use Rattle.gvn_model.specs.Regions.{named_region};
ghost use Rattle.std.specs.Char.{is_ascii_alphanumeric};
ghost use Rattle.journal_defs.specs.Instance.{spelled_region};
ghost use Rattle.repl_fields.specs.Reading.{ReadsField};
ghost use Rattle.instance_file.specs.Fields.{IsGlobalName, IsRegion, AreRegions};

use global_defs::limits::LONGEST_NAME;
use gvn_key::{Bytes, NoMemory};
use gvn_model::NamedModes;
use repl_fields::read_short;
use std::alloc::Global;

/// How many characters the name of a site, a root or a region may have behind its first.
const MOST_BEHIND: usize = 14;

/// Whether all bytes are letters and digits.
fn all_alphanumeric(bytes: &[u8]) -> bool
    ensures { result ≡ list_all is_ascii_alphanumeric bytes.now }
{
    bytes.iter().all(|byte| byte.is_ascii_alphanumeric())
}

/// Whether bytes are the name of a site, a root or a region: a letter, and then letters and digits, at most 15 characters.
pub fn is_site_name(bytes: &[u8]) -> bool
    ensures { IsTrue result ↔ IsSiteName bytes.now }
{
    match bytes {
        [first, rest @ ..] => {
            first.is_ascii_alphabetic() && all_alphanumeric(rest) && rest.len() <= MOST_BEHIND
        }
        [] => false,
    }
}

/// Whether bytes are the name of a global: a percent sign or a letter, and then letters and digits, at most 31 characters.
pub fn is_global_name(bytes: &[u8]) -> bool
    ensures { IsTrue result ↔ IsGlobalName bytes.now }
{
    match bytes {
        [first, rest @ ..] => {
            (*first == b'%' || first.is_ascii_alphabetic())
                && all_alphanumeric(rest)
                && rest.len() < LONGEST_NAME
        }
        [] => false,
    }
}

/// A byte that is 1 for true and 0 for false, and what follows it.
pub fn read_flag(bytes: &[u8]) -> Option<(bool, &[u8])>
    ensures { ReadsField (λ (_ : Bool). Unit {0}) (λ b. flag b ∷ []) bytes.now (option_map (λ p. (p.0, p.1.now)) result) }
{
    match bytes {
        [0, rest @ ..] => Some((false, rest)),
        [1, rest @ ..] => Some((true, rest)),
        _ => None,
    }
}

/// The name of a site, a root or a region behind its length, and what follows it.
pub fn read_site_name(bytes: &[u8]) -> Option<(&[u8], &[u8])>
    ensures { ReadsField IsSiteName short bytes.now (option_map (λ p. (p.0.now, p.1.now)) result) }
{
    let (name, rest) = read_short(bytes)?;
    if is_site_name(name) {
        Some((name, rest))
    } else {
        None
    }
}

/// The name of a global behind its length, and what follows it.
pub fn read_global_name(bytes: &[u8]) -> Option<(&[u8], &[u8])>
    ensures { ReadsField IsGlobalName short bytes.now (option_map (λ p. (p.0.now, p.1.now)) result) }
{
    let (name, rest) = read_short(bytes)?;
    if is_global_name(name) {
        Some((name, rest))
    } else {
        None
    }
}

/// A region's name and its mode, and what follows them.
fn read_region(bytes: &[u8]) -> Option<(&[u8], bool, &[u8])>
    ensures { ReadsField IsRegion spelled_region bytes.now (option_map (λ p. (named_region (p.0.now, p.1), p.2.now)) result) }
{
    let (name, rest) = read_site_name(bytes)?;
    let (before, rest) = read_flag(rest)?;
    Some((name, before, rest))
}

/// So many regions, and what follows them.
pub fn read_regions(
    alloc: Global,
    n: u8,
    bytes: &[u8],
) -> Result<Option<(NamedModes, &[u8])>, NoMemory>
    ensures { IfOk result (λ found. ReadsField (AreRegions n) (flat_map spelled_region) bytes.now (option_map (λ p. (map named_region p.0, p.1.now)) found)) }
{
    let mut regions = NamedModes::new(alloc);
    let mut rest = bytes;
    for _ in 0..n {
        let Some((name, before, others)) = read_region(rest) else {
            return Ok(None);
        };
        regions.push((Bytes::of(alloc, name)?, before))?;
        rest = others;
    }
    Ok(Some((regions, rest)))
}
