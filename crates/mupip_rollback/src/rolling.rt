//! Rolling a site back.
ghost use Rattle.std.specs.Prelude.{◌≡◌, ◌≤◌, ◌<◌, ◌+◌, ℕ, List, length, min, IfOk, IfSome, OnOk, IsErrOf, IsSome};
ghost use Rattle.site_defs.specs.Limits.{LAST_GENERATION};
ghost use Rattle.disk_defs.specs.Disk.{Files, Image, AtEachMoment, MayFail};
ghost use Rattle.entry_index.specs.Found.{entry_count};
ghost use Rattle.global_defs.specs.Entry.{Sequence};
ghost use Rattle.journal_defs.specs.Instance as defs;
ghost use Rattle.journal_defs.specs.Instance.{generation};
ghost use Rattle.journal_defs.specs.Numbers.{INSTANCE};
ghost use Rattle.journal_defs.specs.Sequence.{Records, IsSequence};
ghost use Rattle.journal_defs.specs.Stands.{IsInstance, AreRecords};
ghost use Rattle.site_defs.specs.Contents.{Contents, Leftover};
ghost use Rattle.site_defs.specs.OutsideBlocks.{IsOutsideRollback};
ghost use Rattle.site_defs.specs.Rolling.{rolled, MayRollBack};
ghost use Rattle.site_defs.specs.Stands.{IsSite, HasLeft};
ghost use Rattle.site_store.specs.Needing.{IsFirstWithout, NoneIsWithout};
ghost use Rattle.site_store.specs.Opening.{EachStands};
ghost use Rattle.site_store.specs.Refusing.{IsUnwritten};
ghost use Rattle.mupip_rollback.specs.Preparing.{IsPrepared};
ghost use Rattle.mupip_rollback.specs.Rolling.{StandsFor, MayStandRolled, MayBeRolledBack, MayBeRolledBackWith};

use super::cutting::{begin_kept, set_aside};
use super::error::{RollError, in_site};
use super::preparing::{Prepared, prepare};
use repl_disk::Disk;
use std::alloc::Global;

/// What a rollback left.
#[derive(Clone, Copy, Debug, PartialEq, Eq)]
pub struct Rolled {
    /// How many entries stay.
    pub kept: u64,
    /// The generation of the lost-transaction file, which has the others.
    pub lost: u32,
}

/// Rolls a site back that was prepared for it: both CUTs, the lost-transaction file between them, and the closing epoch.
fn roll<D: Disk>(alloc: Global, disk: &mut D, prepared: Prepared) -> Result<(), RollError>
    requires prepared { IsPrepared (D.disk disk.old) prepared }
    ensures done { OnOk result (IfSome (D.disk disk.old).content (λ _. (c : Contents) → ((f : Files) → Image (D.disk disk.old) f → IsSite f c) → StandsFor (D.disk disk.new) (rolled (entry_count prepared.kept.entries) prepared.broken c))) }
    ensures any_moment { IfSome (D.disk disk.old).content (λ _. (c : Contents) → ((f : Files) → Image (D.disk disk.old) f → IsSite f c) → AtEachMoment (D.disk disk.old) (D.disk disk.new) (MayStandRolled (entry_count prepared.kept.entries) (record { contents = c; broken = prepared.broken }))) }
    ensures limit { IsErrOf result RollError.GenLimit → ⊥ }
    ensures without { (region generation : ℕ) → IsErrOf result (RollError.NoBeforeImage region generation) → ⊥ }
    ensures no_forward { (region : ℕ) → IsErrOf result (RollError.NeedForward region) → ⊥ }
    ensures outside { (file offset : ℕ) → IsErrOf result (RollError.NotAFile file offset) → IfSome (D.disk disk.old).content (λ _. ⊥) }
    ensures still_told { IsSome (D.disk disk.old).content → IsSome (D.disk disk.new).content }
    ensures simulated { (D.disk disk.new).simulated ≡ (D.disk disk.old).simulated }
    ensures faults { MayFail (D.disk disk.old).faults (D.disk disk.new).faults (λ fault. IsErrOf result (RollError.Failed fault)) }
{
    let Prepared {
        log,
        length,
        broken,
        lost,
        kept,
    } = prepared;
    let instance = set_aside(alloc, disk, log, length, broken.as_slice(), lost.as_slice())?;
    let mut site = begin_kept(alloc, disk, instance, kept)?;
    match site.epoch(alloc, disk, true) {
        Ok(()) => Ok(()),
        Err(error) => Err(in_site(error)),
    }
}

/// Rolls the site that stands on a disk back to its first entries, so many as `to` or all where there are fewer: it reads all of the site's
/// files, writes down what is broken behind the entries and draws a generation with a CUT of all of them, writes the extract of those
/// that are to go into the lost-transaction file of that generation, draws the next one with a CUT of those that stay, begins it, and
/// takes a closing epoch.
///
/// # Errors
/// `GenLimit` exactly where 65,534 generations were drawn; `NoBeforeImage` exactly where a region needs forward recovery for the entries
/// that are to stay, with the first such region and its first generation without images; `NotAFile` with the first file that is outside
/// the formats and the place of what can't stand there, or with file 0 and offset 0 where no site stands there. Nothing was written then.
/// `Failed` only where the disk's count rose; a crash then finds all entries, or those that stay. `NoMemory`. It never answers `NeedForward`.
pub fn rollback<D: Disk>(alloc: Global, disk: &mut D, to: u64) -> Result<Rolled, RollError>
    ensures read { IfOk result (λ rolled. (c : Contents) × (rolled.kept ≡ min to (length c.sequence)) × (rolled.lost ≡ generation c.instance + 1)) }
    ensures told { IfOk result (λ _. IfSome (D.disk disk.old).content (λ files. (c : Contents) (left : Leftover) → IsSite files c → HasLeft files c left → EachStands (D.disk disk.old) → StandsFor (D.disk disk.new) (rolled (min to (length c.sequence)) left.broken c))) }
    // whether the files are a fit site's or not
    ensures held { IfOk result (λ rolled. IfSome (D.disk disk.old).content (λ files. (u : Records) × (seq : Sequence) × AreRecords files u × IsSequence u seq × (rolled.kept ≡ min to (length seq)) × (rolled.lost ≡ generation u.instance + 1) × (generation u.instance < LAST_GENERATION) × NoneIsWithout u (min to (length seq)))) }
    ensures limit { IsErrOf result RollError.GenLimit → IfSome (D.disk disk.old).content (λ files. (rs : List defs.InstanceRecord) → IsInstance (files INSTANCE) rs → LAST_GENERATION ≤ generation rs) }
    ensures limit_told { IsErrOf result RollError.GenLimit → IfSome (D.disk disk.old).content (λ files. (rs : List defs.InstanceRecord) × IsInstance (files INSTANCE) rs × (LAST_GENERATION ≤ generation rs)) }
    ensures unwritten { IsErrOf result RollError.GenLimit → IsUnwritten (D.disk disk.old) (D.disk disk.new) }
    ensures without { (region g : ℕ) → IsErrOf result (RollError.NoBeforeImage region g) → IfSome (D.disk disk.old).content (λ files. (u : Records) × (seq : Sequence) × AreRecords files u × IsSequence u seq × (generation u.instance < LAST_GENERATION) × IsFirstWithout u (min to (length seq)) region g) }
    ensures untouched { (region generation : ℕ) → IsErrOf result (RollError.NoBeforeImage region generation) → IsUnwritten (D.disk disk.old) (D.disk disk.new) }
    ensures no_forward { (region : ℕ) → IsErrOf result (RollError.NeedForward region) → ⊥ }
    ensures place { (file offset : ℕ) → IsErrOf result (RollError.NotAFile file offset) → IfSome (D.disk disk.old).content (λ files. IsOutsideRollback to files file offset) }
    ensures refused { (file offset : ℕ) → IsErrOf result (RollError.NotAFile file offset) → IfSome (D.disk disk.old).content (λ _. IsUnwritten (D.disk disk.old) (D.disk disk.new)) }
    ensures outside { (file offset : ℕ) → IsErrOf result (RollError.NotAFile file offset) → IfSome (D.disk disk.old).content (λ files. (c : Contents) → IsSite files c → ⊥) }
    ensures any_moment { IfSome (D.disk disk.old).content (λ files. (c : Contents) (left : Leftover) → IsSite files c → HasLeft files c left → EachStands (D.disk disk.old) → AtEachMoment (D.disk disk.old) (D.disk disk.new) (MayBeRolledBack (D.disk disk.old) to left.broken)) }
    // each with what was broken in its own image
    ensures left { IfSome (D.disk disk.old).content (λ files. (c : Contents) → IsSite files c → EachStands (D.disk disk.old) → AtEachMoment (D.disk disk.old) (D.disk disk.new) (MayBeRolledBackWith (D.disk disk.old) to)) }
    ensures still_told { IsSome (D.disk disk.old).content → IsSome (D.disk disk.new).content }
    ensures stands { IfSome (D.disk disk.old).content (λ files. (c : Contents) (left : Leftover) → IsSite files c → HasLeft files c left → EachStands (D.disk disk.old) → IfSome (D.disk disk.new).content (λ now. (o : Contents) × MayRollBack (min to (length c.sequence)) left.broken c o × IsSite now o)) }
    ensures simulated { (D.disk disk.new).simulated ≡ (D.disk disk.old).simulated }
    ensures faults { MayFail (D.disk disk.old).faults (D.disk disk.new).faults (λ fault. IsErrOf result (RollError.Failed fault)) }
{
    let prepared = prepare(alloc, disk, to)?;
    let rolled = Rolled {
        kept: prepared.kept.entries.len(),
        lost: prepared.log.records.generation() + 1,
    };
    roll(alloc, disk, prepared)?;
    Ok(rolled)
}
