// SET JOURNAL.
ghost use Rattle.std.specs.Prelude.{◌≡◌, ◌<◌, ◌≤◌, length, IfSome, IfOk, OnOk, OnErr, Some};
ghost use Rattle.global_defs.specs.declared.limits.TheConstants.{MOST_REGIONS};
ghost use Rattle.disk_defs.specs.Disk.{IsDurable};
ghost use Rattle.journal_defs.specs.Numbers.{INSTANCE};
ghost use Rattle.journal_defs.specs.Instance.{regions, site_name};
ghost use Rattle.journal_defs.specs.Stands.{IsInstance};
ghost use Rattle.site_defs.specs.Contents.{Contents};
ghost use Rattle.site_defs.specs.Limits.{region_number};
ghost use Rattle.site_defs.specs.Stands.{IsSite, Stands};
ghost use Rattle.site_store.specs.Finding.{IsFound};
ghost use Rattle.site_making.specs.Finding.{IsFoundIn};
ghost use Rattle.world_defs.specs.rows.SetJournal as rows;
ghost use Rattle.world_defs.specs.rows.SetJournal.{unset_by};
ghost use Rattle.site_runner.specs.Setting.{SetsAt, IsCutSet};
ghost use Rattle.world_defs.specs.Meaning.{row_at};
ghost use Rattle.site_runner.specs.Ending.{down, down_after, is_done_at};
ghost use Rattle.site_runner.specs.Executes.{Leaves};
ghost use Rattle.site_runner.specs.Sites.{IsReadySlot};
ghost use Rattle.site_runner.specs.Steps.{ExecutesAt, IsCutAt};

use super::answering::{damaged, fail, refuse};
use super::cause::Cause;
use super::ending::{Ended, closed};
use super::mapping::{is_named, region_named};
use super::slot::Slot;
use super::text::write_mode;
use gvn_key::{Bytes, NoMemory};
use instance_file::InstanceLog;
use mupip_rollback::{RollError, set_mode_logged};
use repl_disk::Disk;
use site_making::{FoundSite, find};
use site_store::SiteError;
use std::alloc::Global;
use world_laws::leftovers::leftovers_hold;

/// Sets the mode of a region of the site that was found.
fn set_there<D: Disk>(
    alloc: Global,
    disk: &mut D,
    name: &[u8],
    log: InstanceLog,
    number: u8,
    region: &Bytes,
    before: bool,
    text: &mut Bytes,
) -> Result<Ended, NoMemory>
    requires there { IfSome (D.disk disk.old).content (λ files. (c : Contents) → IsSite files c → region_number region.now c ≡ Some number) }
    requires named { (c : Contents) × (region_number region.now c ≡ Some number) }
    requires inside { number < length (regions log.records) }
    requires few { length (regions log.records) ≤ MOST_REGIONS }
    requires called { site_name log.records ≡ name.now }
    requires unset { unset_by region.now log.records ≡ None }
    requires told { IfSome (D.disk disk.old).content (λ files. IsInstance (files INSTANCE) log.records) }
    requires durable { IfSome (D.disk disk.old).content (λ files. IsDurable (D.disk disk.old) INSTANCE (files INSTANCE)) }
    ensures done { IfOk result (λ ended. SetsAt region.now before (D.disk disk.old) (down name.now) (D.disk disk.new) (down_after name.now ended) text.old text.new (is_done_at ended)) }
    ensures cut_off { OnErr result (IsCutSet region.now before (D.disk disk.old) (down name.now) (D.disk disk.new)) }
{
    leftovers_hold();
    match set_mode_logged(alloc, disk, log, number, before) {
        Ok(()) => {
            write_mode(text, name, region.as_slice(), before)?;
            Ok(Ended::Done)
        }
        Err(RollError::Failed { fault }) => fail(text, name, fault),
        Err(RollError::NotAFile { file, offset }) => { damaged(text, name, file, offset) }
        Err(_) => Err(NoMemory),
    }
}

/// Sets the mode of a region of the site that was found. Where another site's instance file stands, it isn't this site's.
fn set_found<D: Disk>(
    alloc: Global,
    disk: &mut D,
    name: &[u8],
    found: FoundSite,
    region: Bytes,
    before: bool,
    text: &mut Bytes,
) -> Result<Ended, NoMemory>
    requires found { IfSome (D.disk disk.old).content (λ files. (c : Contents) → Stands files c → IsFound c (Some found.layout)) }
    requires told { IsFoundIn (D.disk disk.old) found }
    ensures done { IfOk result (λ ended. SetsAt region before (D.disk disk.old) (down name.now) (D.disk disk.new) (down_after name.now ended) text.old text.new (is_done_at ended)) }
    ensures cut_off { OnErr result (IsCutSet region before (D.disk disk.old) (down name.now) (D.disk disk.new)) }
{
    leftovers_hold();
    let FoundSite { layout, log } = found;
    if !is_named(&layout, name) {
        return damaged(text, name, 0, 0);
    }
    match region_named(&layout, region.as_slice()) {
        None => refuse(text, name, &Cause::NoRegion { region }),
        Some(number) => set_there(alloc, disk, name, log, number, &region, before, text),
    }
}

/// Sets the mode of a region of a site that is down.
fn set_down<D: Disk>(
    alloc: Global,
    disk: &mut D,
    name: &[u8],
    region: Bytes,
    before: bool,
    text: &mut Bytes,
) -> Result<Ended, NoMemory>
    ensures done { IfOk result (λ ended. ExecutesAt (rows.set_journal region before name.now) (D.disk disk.old) (down name.now) (D.disk disk.new) (down_after name.now ended) text.old text.new (is_done_at ended)) }
    ensures cut_off { OnErr result (IsCutAt (rows.set_journal region before name.now) (D.disk disk.old) (down name.now) (D.disk disk.new)) }
{
    leftovers_hold();
    match find(alloc, disk) {
        Ok(Some(found)) => set_found(alloc, disk, name, found, region, before, text),
        Ok(None) => damaged(text, name, 0, 0),
        Err(SiteError::Failed { fault }) => fail(text, name, fault),
        Err(SiteError::NotAFile { file, offset }) => { damaged(text, name, file, offset) }
        Err(_) => Err(NoMemory),
    }
}

/// Has the later generations of a region of a site that is down keep images, or not.
pub fn set_journal<D: Disk>(
    alloc: Global,
    mut disk: D,
    name: Bytes,
    region: Bytes,
    before: bool,
    text: &mut Bytes,
) -> (Slot<D>, Result<Ended, NoMemory>)
    ensures ready { OnOk result.1 (IsReadySlot D.disk result.0) }
    ensures left { Leaves D.disk (row_at (rows.set_journal region before)) (Slot.Down disk name) result text.old text.new }
{
    let ended = set_down(alloc, &mut disk, name.as_slice(), region, before, text);
    closed(disk, name, ended)
}
