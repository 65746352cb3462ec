// The regions that a CREATE names.
ghost use Rattle.std.specs.Prelude.{◌≡◌, ◌≤◌, ◌++◌, ◌∷◌, [], true, length, map, IfOk, OnOk};
ghost use Rattle.std.specs.List.{list_all, list_any, IsDistinct};
ghost use Rattle.std.specs.Str.{bytes_eq};
ghost use Rattle.gvn_model.specs.Regions.{named_region};
ghost use Rattle.command_defs.specs.Commands.{region_named, region_form, regions_behind, regions_reading};
ghost use Rattle.command_defs.specs.Parts.{taken, is_name};
ghost use Rattle.repl_script.specs.Reads.{Reads};

use super::fault::{Fault, bad};
use super::forms::is_name;
use super::parts::{cut_part, ended};
use gvn_key::{Bytes, NoMemory};
use gvn_model::NamedModes;
use std::alloc::Global;

/// How many regions a site may have.
const MOST_REGIONS: usize = global_defs::limits::MOST_REGIONS as usize;

/// What stands behind the name of a region whose journal has no before-images.
const NO_IMAGES: &[u8] = b":NOBEFORE";

/// Whether one of these regions has that name.
fn is_among(regions: &[(Bytes, bool)], name: &[u8]) -> bool
    ensures { result ≡ list_any (λ r. bytes_eq r.name name.now) (map named_region regions.now) }
{
    for (region, _) in regions {
        if region.as_slice() == name {
            return true;
        }
    }
    false
}

/// What a part names as a region: its name, and whether its journal has before-images.
fn region_named(part: &[u8]) -> (&[u8], bool)
    ensures { named_region (result.0.now, result.1) ≡ region_named part.now }
{
    match part.strip_suffix(NO_IMAGES) {
        Some(name) => (name, false),
        None => (part, true),
    }
}

/// A region that a part names, and what is left behind it.
#[derive(Clone, Copy)]
struct Named<'a> {
    /// The region's name.
    name: &'a [u8],
    /// Whether its journal has before-images.
    before: bool,
    /// What is left behind the part and the spaces.
    behind: &'a [u8],
}

/// A region with a name that none of these has.
fn region<'a>(among: &[(Bytes, bool)], len: u16, left: &'a [u8]) -> Result<Named<'a>, Fault>
    ensures { Reads (λ named. (named_region (named.name.now, named.before), named.behind.now)) (taken (region_form (map named_region among.now)) len left.now) result }
{
    let cut = cut_part(left);
    let (name, before) = region_named(cut.part);
    if left.is_empty() || !is_name(name) || is_among(among, name) {
        return Err(bad(len, left));
    }
    Ok(Named {
        name,
        before,
        behind: cut.behind,
    })
}

/// Adds a region.
fn add_region(
    alloc: Global,
    regions: &mut NamedModes,
    name: &[u8],
    before: bool,
) -> Result<(), NoMemory>
    ensures { OnOk result (map named_region regions.new ≡ map named_region regions.old ++ named_region (name.now, before) ∷ []) }
{
    regions.push((Bytes::of(alloc, name)?, before))?;
    Ok(())
}

/// Regions, and behind the first one each more that the line names.
fn more_regions(
    alloc: Global,
    mut regions: NamedModes,
    len: u16,
    left: &[u8],
) -> Result<NamedModes, Fault>
    ensures { Reads (λ all. map named_region all) (regions_behind 7 len left.now (map named_region regions)) result }
{
    let mut rest = left;
    for _count in 1..MOST_REGIONS {
        if rest.is_empty() {
            return Ok(regions);
        }
        let next = region(regions.as_slice(), len, rest)?;
        add_region(alloc, &mut regions, next.name, next.before)?;
        rest = next.behind;
    }
    ended(len, rest)?;
    Ok(regions)
}

/// One to eight regions of different names.
pub fn read_regions(alloc: Global, len: u16, left: &[u8]) -> Result<NamedModes, Fault>
    ensures reading { Reads (λ regions. map named_region regions) (regions_reading len left.now) result }
    ensures names { IfOk result (λ regions. list_all (λ r. is_name r.name) (map named_region regions) ≡ true) }
    ensures some { IfOk result (λ regions. 1 ≤ length (map named_region regions)) }
    ensures few { IfOk result (λ regions. length (map named_region regions) ≤ 8) }
    ensures different { IfOk result (λ regions. IsDistinct bytes_eq (map (λ r. r.name) (map named_region regions))) }
{
    let first = region(&[], len, left)?;
    let mut regions = NamedModes::new(alloc);
    add_region(alloc, &mut regions, first.name, first.before)?;
    more_regions(alloc, regions, len, first.behind)
}
