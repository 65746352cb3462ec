// MAP.
ghost use Rattle.std.specs.Prelude.{◌≡◌, ◌<◌, ◌≤◌, take, map, length, IfSome, IfOk, OnOk, OnErr, true, Some, None};
ghost use Rattle.global_defs.specs.declared.limits.TheConstants.{MOST_REGIONS};
ghost use Rattle.disk_defs.specs.Disk.{IsDurable};
ghost use Rattle.global_defs.specs.Pattern.{is_pattern};
ghost use Rattle.journal_defs.specs.Numbers.{INSTANCE};
ghost use Rattle.journal_defs.specs.Instance.{generation, regions, site_name};
ghost use Rattle.journal_defs.specs.Stands.{IsInstance};
ghost use Rattle.site_defs.specs.Lists.{first_where};
ghost use Rattle.site_defs.specs.Contents.{Contents, same_name};
ghost use Rattle.site_defs.specs.Limits.{region_number};
ghost use Rattle.site_defs.specs.Stands.{IsSite, Stands};
ghost use Rattle.site_store.specs.Finding.{IsFound};
ghost use Rattle.site_making.specs.Finding.{IsFoundIn};
ghost use Rattle.site_store.specs.Opening.{region_value};
ghost use Rattle.world_defs.specs.rows.Map.{map_pattern, unmapped_by};
ghost use Rattle.world_defs.specs.Meaning.{row_at};
ghost use Rattle.site_runner.specs.Ending.{down, down_after, is_done_at};
ghost use Rattle.site_runner.specs.Executes.{Leaves};
ghost use Rattle.site_runner.specs.Sites.{IsReadySlot};
ghost use Rattle.site_runner.specs.Steps.{ExecutesAt, IsCutAt};
ghost use Rattle.site_runner.specs.Mapping.{IsUnmappedIn, MapsAt, IsCutSeen};

use super::answering::{damaged, fail, refuse};
use super::cause::Cause;
use super::ending::{Ended, closed};
use super::slot::Slot;
use super::text::write_line;
use global_dir::DirError;
use gvn_key::{Bytes, NoMemory};
use instance_file::InstanceLog;
use repl_disk::Disk;
use site_making::{FoundSite, find};
use site_store::{Layout, SiteError};
use std::alloc::Global;
use world_laws::leftovers::leftovers_hold;

/// Whether the site that was found has this name.
pub fn is_named(found: &Layout, name: &[u8]) -> bool
    ensures { result ≡ same_name found.now.name name.now }
{
    found.name.as_slice() == name
}

/// The number of the first region with that name.
pub fn region_named(found: &Layout, name: &[u8]) -> Option<u8>
    ensures number { result ≡ first_where (λ r. same_name r.name name.now) (map region_value (take found.now.directory.regions found.now.regions.items)) }
    ensures inside { IfSome result (λ number. number < found.now.directory.regions) }
{
    let count = usize::from(found.directory.regions()).min(found.regions.len());
    for (number, region) in found.regions[..count].iter().enumerate() {
        if region.name.as_slice() == name {
            return Some(number as u8);
        }
    }
    None
}

/// Maps a pattern to a region of the site that was found, which has nothing against it.
fn map_there<D: Disk>(
    alloc: Global,
    disk: &mut D,
    name: &[u8],
    log: InstanceLog,
    number: u8,
    region: &Bytes,
    pattern: &[u8],
    text: &mut Bytes,
) -> Result<Ended, NoMemory>
    requires form { is_pattern pattern.now ≡ true }
    requires free { IfSome (D.disk disk.old).content (λ files. (c : Contents) → IsSite files c → IsUnmappedIn region.now number pattern.now c) }
    requires named { (c : Contents) × (region_number region.now c ≡ Some number) }
    requires inside { number < length (regions log.records) }
    requires few { length (regions log.records) ≤ MOST_REGIONS }
    requires undrawn { generation log.records ≡ 0 }
    requires called { site_name log.records ≡ name.now }
    requires unmapped { unmapped_by region.now pattern.now log.records ≡ None }
    requires told { IfSome (D.disk disk.old).content (λ files. IsInstance (files INSTANCE) log.records) }
    requires durable { IfSome (D.disk disk.old).content (λ files. IsDurable (D.disk disk.old) INSTANCE (files INSTANCE)) }
    ensures done { IfOk result (λ ended. MapsAt region.now pattern.now (D.disk disk.old) (down name.now) (D.disk disk.new) (down_after name.now ended) text.old text.new (is_done_at ended)) }
    ensures cut_off { OnErr result (IsCutSeen region.now pattern.now (D.disk disk.old) (down name.now) (D.disk disk.new)) }
{
    leftovers_hold();
    match site_making::map_logged(alloc, disk, log, number, pattern) {
        Ok(()) => {
            write_line(text, name, b"MAPPED")?;
            Ok(Ended::Done)
        }
        Err(SiteError::Failed { fault }) => fail(text, name, fault),
        Err(SiteError::NotAFile { file, offset }) => { damaged(text, name, file, offset) }
        Err(_) => Err(NoMemory),
    }
}

/// Maps a pattern to a region of the site that was found. Where another site's instance file stands, it isn't this site's.
fn map_found<D: Disk>(
    alloc: Global,
    disk: &mut D,
    name: &[u8],
    found: FoundSite,
    region: Bytes,
    pattern: &[u8],
    text: &mut Bytes,
) -> Result<Ended, NoMemory>
    requires form { is_pattern pattern.now ≡ true }
    requires found { IfSome (D.disk disk.old).content (λ files. (c : Contents) → Stands files c → IsFound c (Some found.layout)) }
    requires told { IsFoundIn (D.disk disk.old) found }
    ensures done { IfOk result (λ ended. MapsAt region pattern.now (D.disk disk.old) (down name.now) (D.disk disk.new) (down_after name.now ended) text.old text.new (is_done_at ended)) }
    ensures cut_off { OnErr result (IsCutSeen region pattern.now (D.disk disk.old) (down name.now) (D.disk disk.new)) }
{
    leftovers_hold();
    let FoundSite { mut layout, log } = found;
    if !is_named(&layout, name) {
        return damaged(text, name, 0, 0);
    }
    if layout.generation > 0 {
        return refuse(text, name, &Cause::Started);
    }
    let Some(number) = region_named(&layout, region.as_slice()) else {
        return refuse(text, name, &Cause::NoRegion { region });
    };
    match layout.directory.map(number, pattern) {
        Ok(()) => map_there(alloc, disk, name, log, number, &region, pattern, text),
        Err(DirError::TwiceMapped) => refuse(text, name, &Cause::TwiceMapped),
        Err(_) => Err(NoMemory),
    }
}

/// Maps a pattern to a region of a site that is down.
fn map_down<D: Disk>(
    alloc: Global,
    disk: &mut D,
    name: &[u8],
    region: Bytes,
    pattern: &[u8],
    text: &mut Bytes,
) -> Result<Ended, NoMemory>
    requires form { is_pattern pattern.now ≡ true }
    ensures done { IfOk result (λ ended. ExecutesAt (map_pattern region pattern.now name.now) (D.disk disk.old) (down name.now) (D.disk disk.new) (down_after name.now ended) text.old text.new (is_done_at ended)) }
    ensures cut_off { OnErr result (IsCutAt (map_pattern region pattern.now name.now) (D.disk disk.old) (down name.now) (D.disk disk.new)) }
{
    leftovers_hold();
    match find(alloc, disk) {
        Ok(Some(found)) => map_found(alloc, disk, name, found, region, pattern, text),
        Ok(None) => damaged(text, name, 0, 0),
        Err(SiteError::Failed { fault }) => fail(text, name, fault),
        Err(SiteError::NotAFile { file, offset }) => { damaged(text, name, file, offset) }
        Err(_) => Err(NoMemory),
    }
}

/// Maps a pattern to a region of a site that is down.
pub fn map<D: Disk>(
    alloc: Global,
    mut disk: D,
    name: Bytes,
    region: Bytes,
    pattern: &[u8],
    text: &mut Bytes,
) -> (Slot<D>, Result<Ended, NoMemory>)
    requires { is_pattern pattern.now ≡ true }
    ensures ready { OnOk result.1 (IsReadySlot D.disk result.0) }
    ensures left { Leaves D.disk (row_at (map_pattern region pattern.now)) (Slot.Down disk name) result text.old text.new }
{
    let ended = map_down(alloc, &mut disk, name.as_slice(), region, pattern, text);
    closed(disk, name, ended)
}
