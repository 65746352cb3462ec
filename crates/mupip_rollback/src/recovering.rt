//! Recovering a site backward, and forward.
ghost use Rattle.std.specs.Prelude.{◌≡◌, ◌⊎◌, ◌≤◌, ◌<◌, ℕ, true, List, length, IfOk, IfSome, OnErr, IsErrOf, IsSome};
ghost use Rattle.site_defs.specs.Limits.{LAST_GENERATION};
ghost use Rattle.disk_defs.specs.Disk.{AtEachMoment, MayFail};
ghost use Rattle.global_defs.specs.Entry.{Sequence};
ghost use Rattle.journal_defs.specs.Instance as defs;
ghost use Rattle.journal_defs.specs.Instance.{generation};
ghost use Rattle.journal_defs.specs.Numbers.{INSTANCE};
ghost use Rattle.journal_defs.specs.Sequence.{Records, IsSequence};
ghost use Rattle.journal_defs.specs.Stands.{IsInstance, AreRecords};
ghost use Rattle.site_defs.specs.Behind.{IsSiteWith};
ghost use Rattle.site_defs.specs.Contents.{Contents, Leftover, Standing, bare};
ghost use Rattle.site_defs.specs.Epochs.{marked, MayMark, MayMarkLeft};
ghost use Rattle.site_defs.specs.Forward.{recovered_as, MayRecoverAs};
ghost use Rattle.site_defs.specs.Opening.{opened, MayOpen};
ghost use Rattle.site_defs.specs.Outside.{IsOutsideSite};
ghost use Rattle.site_defs.specs.OutsideBlocks.{IsOutsideOpening};
ghost use Rattle.site_defs.specs.Stands.{IsSite, HasLeft};
ghost use Rattle.site_store.specs.Needing.{NoneIsWithout, HaveFirstWithout};
ghost use Rattle.site_store.specs.Opening.{EachStands};
ghost use Rattle.site_store.specs.Refusing.{IsUnwritten};
ghost use Rattle.site_store.specs.Site.{IsReady, IsOpen, count_of};
ghost use Rattle.mupip_rollback.specs.Rolling.{StandsFor, MayBeRecovered, MayBeRecoveredAs, MayBeRecoveredWith, MayBeRecoveredWithAs};

use super::error::{RollError, in_site};
use repl_disk::Disk;
use site_store::{Memory, open_as};
use std::alloc::Global;

/// Closes a site that was just opened with an epoch of all entries. Answers how many there are.
fn close<D: Disk>(alloc: Global, disk: &mut D, mut site: Memory) -> Result<u64, RollError>
    requires ready { IsReady (D.disk disk.old) site }
    ensures length { IfOk result (λ n. n ≡ count_of site) }
    ensures done { IfOk result (λ _. (c : Contents) → IsOpen (D.disk disk.old) true c (length c.sequence) site → StandsFor (D.disk disk.new) (marked c)) }
    ensures any_moment { (c : Contents) → IsOpen (D.disk disk.old) true c (length c.sequence) site → AtEachMoment (D.disk disk.old) (D.disk disk.new) (λ f. (o : Contents) × MayMark c o × IsSite f o) }
    ensures left { (c : Contents) → IsOpen (D.disk disk.old) true c (length c.sequence) site → AtEachMoment (D.disk disk.old) (D.disk disk.new) (λ f. (o : Standing) × MayMarkLeft (bare c) o × IsSiteWith f o) }
    ensures stands { (c : Contents) → IsOpen (D.disk disk.old) true c (length c.sequence) site → IfSome (D.disk disk.new).content (λ f. (o : Contents) × MayMark c o × IsSite f o) }
    ensures still_told { IsSome (D.disk disk.old).content → IsSome (D.disk disk.new).content }
    ensures simulated { (D.disk disk.new).simulated ≡ (D.disk disk.old).simulated }
    ensures faults { MayFail (D.disk disk.old).faults (D.disk disk.new).faults (λ fault. IsErrOf result (RollError.Failed fault)) }
    ensures causes { OnErr result (((fault : ℕ) × IsErrOf result (RollError.Failed fault)) ⊎ IsErrOf result RollError.NoMemory) }
{
    match site.epoch(alloc, disk, true) {
        Ok(()) => Ok(site.entries.len()),
        Err(error) => Err(in_site(error)),
    }
}

/// Recovers the site that stands on a disk backward: opens it, which writes down what is broken behind its entries and begins the next
/// generation, and closes it with an epoch of all entries. Answers how many there are.
///
/// # Errors
/// `GenLimit` exactly where 65,534 generations were drawn; `NeedForward` exactly where a region needs forward recovery for all entries,
/// with the first such region, and [`recover_forward`] recovers such a site; `NotAFile` with the first file that is outside the formats
/// and the place of what can't stand there, or with file 0 and offset 0 where no site stands there. Nothing was written then. `Failed`
/// only where the disk's count rose. `NoMemory`. It never answers `NoBeforeImage`.
pub fn recover_backward<D: Disk>(alloc: Global, disk: &mut D) -> Result<u64, RollError>
    ensures read { IfOk result (λ n. (c : Contents) × (n ≡ length c.sequence)) }
    ensures told { IfOk result (λ _. IfSome (D.disk disk.old).content (λ files. (c : Contents) (left : Leftover) → IsSite files c → HasLeft files c left → EachStands (D.disk disk.old) → StandsFor (D.disk disk.new) (marked (opened left.broken c)))) }
    // whether the files are a fit site's or not
    ensures held { IfOk result (λ n. IfSome (D.disk disk.old).content (λ files. (u : Records) × (seq : Sequence) × AreRecords files u × IsSequence u seq × (n ≡ length seq) × (generation u.instance < LAST_GENERATION) × NoneIsWithout u (length seq))) }
    ensures limit { IsErrOf result RollError.GenLimit → IfSome (D.disk disk.old).content (λ files. (rs : List defs.InstanceRecord) → IsInstance (files INSTANCE) rs → LAST_GENERATION ≤ generation rs) }
    ensures limit_told { IsErrOf result RollError.GenLimit → IfSome (D.disk disk.old).content (λ files. (rs : List defs.InstanceRecord) × IsInstance (files INSTANCE) rs × (LAST_GENERATION ≤ generation rs)) }
    ensures needs { (region : ℕ) → IsErrOf result (RollError.NeedForward region) → IfSome (D.disk disk.old).content (λ files. HaveFirstWithout files region) }
    ensures untouched { (region : ℕ) → IsErrOf result (RollError.NeedForward region) → IsUnwritten (D.disk disk.old) (D.disk disk.new) }
    ensures unwritten { IsErrOf result RollError.GenLimit → IsUnwritten (D.disk disk.old) (D.disk disk.new) }
    ensures without { (region generation : ℕ) → IsErrOf result (RollError.NoBeforeImage region generation) → ⊥ }
    ensures place { (file offset : ℕ) → IsErrOf result (RollError.NotAFile file offset) → IfSome (D.disk disk.old).content (λ files. IsOutsideOpening files file offset) }
    ensures refused { (file offset : ℕ) → IsErrOf result (RollError.NotAFile file offset) → IfSome (D.disk disk.old).content (λ _. IsUnwritten (D.disk disk.old) (D.disk disk.new)) }
    ensures outside { (file offset : ℕ) → IsErrOf result (RollError.NotAFile file offset) → IfSome (D.disk disk.old).content (λ files. (c : Contents) → IsSite files c → ⊥) }
    ensures any_moment { IfSome (D.disk disk.old).content (λ files. (c : Contents) (left : Leftover) → IsSite files c → HasLeft files c left → EachStands (D.disk disk.old) → AtEachMoment (D.disk disk.old) (D.disk disk.new) (MayBeRecovered (D.disk disk.old) left.broken)) }
    // each with what was broken in its own image
    ensures left { IfSome (D.disk disk.old).content (λ files. (c : Contents) → IsSite files c → EachStands (D.disk disk.old) → AtEachMoment (D.disk disk.old) (D.disk disk.new) (MayBeRecoveredWith (D.disk disk.old))) }
    ensures still_told { IsSome (D.disk disk.old).content → IsSome (D.disk disk.new).content }
    ensures stands { IfSome (D.disk disk.old).content (λ files. (c : Contents) (left : Leftover) → IsSite files c → HasLeft files c left → EachStands (D.disk disk.old) → IfSome (D.disk disk.new).content (λ now. (o : Contents) × (MayOpen left.broken c o ⊎ MayMark (opened left.broken c) o) × IsSite now o)) }
    ensures simulated { (D.disk disk.new).simulated ≡ (D.disk disk.old).simulated }
    ensures faults { MayFail (D.disk disk.old).faults (D.disk disk.new).faults (λ fault. IsErrOf result (RollError.Failed fault)) }
{
    match open_as(alloc, disk, false) {
        Ok(site) => close(alloc, disk, site),
        Err(error) => Err(in_site(error)),
    }
}

/// Recovers the site that stands on a disk forward: opens it from its journals alone, which writes down what is broken behind its entries
/// and begins the next generation, without images in any region; makes the blocks anew from all entries; and closes it with an epoch of
/// these. Answers how many there are.
///
/// # Errors
/// `GenLimit` exactly where 65,534 generations were drawn; `NotAFile` with the first file that is outside the formats, of which the blocks
/// are no part, and the place of what can't stand there, or with file 0 and offset 0 where no site stands there. Nothing was written
/// then. `Failed` only where the disk's count rose; a crash then finds all entries, and perhaps regions that need forward recovery.
/// `NoMemory`. It never answers `NoBeforeImage` or `NeedForward`.
pub fn recover_forward<D: Disk>(alloc: Global, disk: &mut D) -> Result<u64, RollError>
    ensures read { IfOk result (λ n. (c : Contents) × (n ≡ length c.sequence)) }
    ensures told { IfOk result (λ _. IfSome (D.disk disk.old).content (λ files. (c : Contents) (left : Leftover) → IsSite files c → HasLeft files c left → EachStands (D.disk disk.old) → StandsFor (D.disk disk.new) (recovered_as true left.broken c))) }
    // whether the files are a fit site's or not
    ensures held { IfOk result (λ n. IfSome (D.disk disk.old).content (λ files. (u : Records) × (seq : Sequence) × AreRecords files u × IsSequence u seq × (n ≡ length seq) × (generation u.instance < LAST_GENERATION))) }
    ensures limit { IsErrOf result RollError.GenLimit → IfSome (D.disk disk.old).content (λ files. (rs : List defs.InstanceRecord) → IsInstance (files INSTANCE) rs → LAST_GENERATION ≤ generation rs) }
    ensures limit_told { IsErrOf result RollError.GenLimit → IfSome (D.disk disk.old).content (λ files. (rs : List defs.InstanceRecord) × IsInstance (files INSTANCE) rs × (LAST_GENERATION ≤ generation rs)) }
    ensures unwritten { IsErrOf result RollError.GenLimit → IsUnwritten (D.disk disk.old) (D.disk disk.new) }
    ensures without { (region generation : ℕ) → IsErrOf result (RollError.NoBeforeImage region generation) → ⊥ }
    ensures no_forward { (region : ℕ) → IsErrOf result (RollError.NeedForward region) → ⊥ }
    ensures place { (file offset : ℕ) → IsErrOf result (RollError.NotAFile file offset) → IfSome (D.disk disk.old).content (λ files. IsOutsideSite files file offset) }
    ensures refused { (file offset : ℕ) → IsErrOf result (RollError.NotAFile file offset) → IfSome (D.disk disk.old).content (λ _. IsUnwritten (D.disk disk.old) (D.disk disk.new)) }
    ensures outside { (file offset : ℕ) → IsErrOf result (RollError.NotAFile file offset) → IfSome (D.disk disk.old).content (λ files. (c : Contents) → IsSite files c → ⊥) }
    ensures any_moment { IfSome (D.disk disk.old).content (λ files. (c : Contents) (left : Leftover) → IsSite files c → HasLeft files c left → EachStands (D.disk disk.old) → AtEachMoment (D.disk disk.old) (D.disk disk.new) (MayBeRecoveredAs true (D.disk disk.old) left.broken)) }
    // each with what was broken in its own image
    ensures left { IfSome (D.disk disk.old).content (λ files. (c : Contents) → IsSite files c → EachStands (D.disk disk.old) → AtEachMoment (D.disk disk.old) (D.disk disk.new) (MayBeRecoveredWithAs true (D.disk disk.old))) }
    ensures still_told { IsSome (D.disk disk.old).content → IsSome (D.disk disk.new).content }
    ensures stands { IfSome (D.disk disk.old).content (λ files. (c : Contents) (left : Leftover) → IsSite files c → HasLeft files c left → EachStands (D.disk disk.old) → IfSome (D.disk disk.new).content (λ now. (o : Contents) × MayRecoverAs true left.broken c o × IsSite now o)) }
    ensures simulated { (D.disk disk.new).simulated ≡ (D.disk disk.old).simulated }
    ensures faults { MayFail (D.disk disk.old).faults (D.disk disk.new).faults (λ fault. IsErrOf result (RollError.Failed fault)) }
{
    match open_as(alloc, disk, true) {
        Ok(site) => close(alloc, disk, site),
        Err(error) => Err(in_site(error)),
    }
}
