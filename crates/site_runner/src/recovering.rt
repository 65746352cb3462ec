// RECOVER, backward and forward.
ghost use Rattle.std.specs.Prelude.{◌≡◌, ◌≤◌, ℕ, false, List, length, IfOk, IfSome, OnOk, OnErr, IsErrOf, IsSome};
ghost use Rattle.site_defs.specs.Limits.{LAST_GENERATION};
ghost use Rattle.disk_defs.specs.Disk.{AtEachMoment, MayFail};
ghost use Rattle.journal_defs.specs.Numbers.{INSTANCE};
ghost use Rattle.journal_defs.specs.Instance.{InstanceRecord, generation};
ghost use Rattle.journal_defs.specs.Stands.{IsInstance};
ghost use Rattle.site_defs.specs.Contents.{Contents, Leftover};
ghost use Rattle.site_defs.specs.Forward.{recovered_as};
ghost use Rattle.site_defs.specs.Stands.{IsSite, HasLeft};
ghost use Rattle.site_store.specs.Needing.{HaveFirstWithout};
ghost use Rattle.site_store.specs.Opening.{EachStands};
ghost use Rattle.site_store.specs.Refusing.{IsUnwritten};
ghost use Rattle.mupip_rollback.specs.Rolling.{StandsFor, MayBeRecoveredAs, MayBeRecoveredWithAs};
ghost use Rattle.world_defs.specs.rows.Recover as rows;
ghost use Rattle.world_defs.specs.rows.Recover.{IsUnrecovered};
ghost use Rattle.site_runner.specs.Recovering.{IsHeldFor};
ghost use Rattle.world_defs.specs.Meaning.{row_at};
ghost use Rattle.site_runner.specs.Ending.{down, down_after, is_done_at};
ghost use Rattle.site_runner.specs.Executes.{Leaves};
ghost use Rattle.site_runner.specs.Sites.{IsReadySlot};
ghost use Rattle.site_runner.specs.Steps.{ExecutesAt, IsCutAt};

use super::answering::{damaged, fail, refuse};
use super::cause::Cause;
use super::ending::{Ended, closed};
use super::refusing::{Needing, refuse_region};
use super::slot::Slot;
use super::text::write_numbered;
use gvn_key::{Bytes, NoMemory};
use mupip_rollback::{RollError, recover_backward, recover_forward};
use repl_disk::Disk;
use std::alloc::Global;
use world_laws::leftovers::leftovers_hold;

/// Recovers the site that stands on a disk, with its blocks made anew or not.
fn recover_on<D: Disk>(alloc: Global, disk: &mut D, anew: bool) -> Result<u64, RollError>
    ensures read { IfOk result (λ n. (c : Contents) × (n ≡ length c.sequence)) }
    ensures told { IfOk result (λ _. IfSome (D.disk disk.old).content (λ files. (c : Contents) (left : Leftover) → IsSite files c → HasLeft files c left → EachStands (D.disk disk.old) → StandsFor (D.disk disk.new) (recovered_as anew left.broken c))) }
    ensures held { IfOk result (λ n. IfSome (D.disk disk.old).content (IsHeldFor anew n)) }
    ensures limit { IsErrOf result RollError.GenLimit → IfSome (D.disk disk.old).content (λ files. (rs : List InstanceRecord) → IsInstance (files INSTANCE) rs → LAST_GENERATION ≤ generation rs) }
    ensures limit_told { IsErrOf result RollError.GenLimit → IfSome (D.disk disk.old).content (λ files. (rs : List InstanceRecord) × IsInstance (files INSTANCE) rs × (LAST_GENERATION ≤ generation rs)) }
    ensures unwritten { IsErrOf result RollError.GenLimit → IsUnwritten (D.disk disk.old) (D.disk disk.new) }
    ensures backward { (region : ℕ) → IsErrOf result (RollError.NeedForward region) → anew ≡ false }
    ensures needs { (region : ℕ) → IsErrOf result (RollError.NeedForward region) → IfSome (D.disk disk.old).content (λ files. HaveFirstWithout files region) }
    ensures untouched { (region : ℕ) → IsErrOf result (RollError.NeedForward region) → IsUnwritten (D.disk disk.old) (D.disk disk.new) }
    ensures place { (file offset : ℕ) → IsErrOf result (RollError.NotAFile file offset) → IfSome (D.disk disk.old).content (IsUnrecovered anew file offset) }
    ensures refused { (file offset : ℕ) → IsErrOf result (RollError.NotAFile file offset) → IfSome (D.disk disk.old).content (λ _. IsUnwritten (D.disk disk.old) (D.disk disk.new)) }
    ensures outside { (file offset : ℕ) → IsErrOf result (RollError.NotAFile file offset) → IfSome (D.disk disk.old).content (λ files. (c : Contents) → IsSite files c → ⊥) }
    ensures any_moment { IfSome (D.disk disk.old).content (λ files. (c : Contents) (left : Leftover) → IsSite files c → HasLeft files c left → EachStands (D.disk disk.old) → AtEachMoment (D.disk disk.old) (D.disk disk.new) (MayBeRecoveredAs anew (D.disk disk.old) left.broken)) }
    // each with what was broken in its own image
    ensures left { IfSome (D.disk disk.old).content (λ files. (c : Contents) → IsSite files c → EachStands (D.disk disk.old) → AtEachMoment (D.disk disk.old) (D.disk disk.new) (MayBeRecoveredWithAs anew (D.disk disk.old))) }
    ensures still_told { IsSome (D.disk disk.old).content → IsSome (D.disk disk.new).content }
    ensures simulated { (D.disk disk.new).simulated ≡ (D.disk disk.old).simulated }
    ensures faults { MayFail (D.disk disk.old).faults (D.disk disk.new).faults (λ fault. IsErrOf result (RollError.Failed fault)) }
{
    if anew {
        recover_forward(alloc, disk)
    } else {
        recover_backward(alloc, disk)
    }
}

/// Recovers a site that is down. Answers whether that was done.
fn recover_down<D: Disk>(
    alloc: Global,
    disk: &mut D,
    name: &[u8],
    anew: bool,
    text: &mut Bytes,
) -> Result<Ended, NoMemory>
    ensures done { IfOk result (λ ended. ExecutesAt (rows.recover anew name.now) (D.disk disk.old) (down name.now) (D.disk disk.new) (down_after name.now ended) text.old text.new (is_done_at ended)) }
    ensures cut_off { OnErr result (IsCutAt (rows.recover anew name.now) (D.disk disk.old) (down name.now) (D.disk disk.new)) }
{
    leftovers_hold();
    match recover_on(alloc, disk, anew) {
        Ok(count) => {
            write_numbered(text, name, b"RECOVERED ", count)?;
            Ok(Ended::Done)
        }
        Err(RollError::GenLimit) => refuse(text, name, &Cause::GenLimit),
        Err(RollError::NeedForward { region }) => {
            refuse_region(alloc, disk, name, region, Needing::Opening, text)
        }
        Err(RollError::Failed { fault }) => fail(text, name, fault),
        Err(RollError::NotAFile { file, offset }) => { damaged(text, name, file, offset) }
        Err(_) => Err(NoMemory),
    }
}

/// Opens a site that is down and closes it again, with its blocks made anew or not, and shows how many entries it has.
pub fn recover<D: Disk>(
    alloc: Global,
    mut disk: D,
    name: Bytes,
    anew: bool,
    text: &mut Bytes,
) -> (Slot<D>, Result<Ended, NoMemory>)
    ensures ready { OnOk result.1 (IsReadySlot D.disk result.0) }
    ensures left { Leaves D.disk (row_at (rows.recover anew)) (Slot.Down disk name) result text.old text.new }
{
    let ended = recover_down(alloc, &mut disk, name.as_slice(), anew, text);
    closed(disk, name, ended)
}
