//! Opening a site.
ghost use Rattle.std.specs.Prelude.{◌≡◌, ◌≤◌, ◌<◌, ℕ, List, true, false, length, map, IfOk, IfSome, OnOk, IsErrOf, IsSome};
ghost use Rattle.site_defs.specs.Limits.{LAST_GENERATION};
ghost use Rattle.disk_defs.specs.Disk.{Image, AtEachMoment, MayFail};
ghost use Rattle.journal_defs.specs.Instance as defs;
ghost use Rattle.journal_defs.specs.Instance.{generation};
ghost use Rattle.journal_defs.specs.Numbers.{INSTANCE};
ghost use Rattle.global_defs.specs.Entry.{Sequence};
ghost use Rattle.journal_defs.specs.Sequence.{Records, IsSequence};
ghost use Rattle.journal_defs.specs.Stands.{IsInstance, AreRecords};
ghost use Rattle.site_defs.specs.Contents.{Contents, Leftover};
ghost use Rattle.site_defs.specs.Forward.{opened_as, MayOpenAs};
ghost use Rattle.site_defs.specs.Outside.{IsOutsideSite};
ghost use Rattle.site_defs.specs.Stands.{IsSite, HasLeft};
ghost use Rattle.site_defs.specs.OutsideBlocks.{IsOutsideOpening};
ghost use Rattle.site_store.specs.Needing.{NoneIsWithout, HaveFirstWithout};
ghost use Rattle.site_store.specs.Refusing.{IsUnwritten};
ghost use Rattle.site_store.specs.Site.{Remembers, IsReady, IsOpen, WasOpened, WasOpenedFrom};
ghost use Rattle.site_store.specs.Opening.{MayBeOpenAs, MayBeOpenWithAs, EachStands};

use crate::error::SiteError;
use crate::memory::Memory;
use crate::preparing::{StandingSite, read_standing};
use gvn_key::NoMemory;
use jnl_file::Journal;
use region_journals::{RegionJournal, RegionJournals};
use repl_disk::Disk;
use site_files::draw;
use std::alloc::Global;

/// Journals that have just begun, to which nothing was appended.
fn newest_journals(alloc: Global, begun: Vec<Journal>) -> Result<RegionJournals, NoMemory>
    ensures { IfOk result (λ made. made.journals.items ≡ map (λ j. record { journal = j; appended = false }) begun.items) }
{
    let journals = begun
        .into_iter()
        .map(|journal| RegionJournal {
            journal,
            appended: false,
        })
        .collect(alloc)?;
    Ok(RegionJournals { journals })
}

/// Opens the site that stands on a disk: syncs and reads its files, writes down what is broken behind its sequence, cuts at the
/// length of that, and begins the next generation in each region. It opens it on the blocks of its regions; or anew, from its journals
/// alone: then it doesn't read the blocks, makes the updates of all entries again, in memory, and begins the generation without images in
/// each region, which needs forward recovery until the next epoch.
///
/// # Errors
/// `GenLimit` exactly where 65,534 generations were drawn; `NeedForward` exactly where a region needs forward recovery for all entries and
/// the regions aren't made anew, with the first such region. `NotAFile` with the first file that is outside the formats, of which the
/// blocks are no part where they are made anew, and the place of what can't stand there, or with file 0 and offset 0 where no site stands
/// there. Nothing was written then. `Failed` only where the disk's count rose. `NoMemory`.
pub fn open_as<D: Disk>(alloc: Global, disk: &mut D, anew: bool) -> Result<Memory, SiteError>
    ensures ready { IfOk result (λ s. IsReady (D.disk disk.new) s) }
    ensures read { IfOk result (λ s. (c : Contents) × (broken : List ℕ) × Remembers (opened_as anew broken c) (length c.sequence) s) }
    ensures told { IfOk result (λ s. IfSome (D.disk disk.old).content (λ files. (c : Contents) (left : Leftover) → IsSite files c → HasLeft files c left → EachStands (D.disk disk.old) → IsOpen (D.disk disk.new) true (opened_as anew left.broken c) (length c.sequence) s)) }
    // whether the files are a fit site's or not
    ensures found { IfOk result (λ s. IfSome (D.disk disk.old).content (λ files. (u : Records) (seq : Sequence) → AreRecords files u → IsSequence u seq → WasOpenedFrom u seq s)) }
    ensures held { IfOk result (λ s. IfSome (D.disk disk.old).content (λ files. (u : Records) × (seq : Sequence) × AreRecords files u × IsSequence u seq × WasOpenedFrom u seq s × (anew ≡ false → NoneIsWithout u (length seq)))) }
    ensures opened { IfOk result WasOpened }
    ensures drawn { OnOk result (IfSome (D.disk disk.old).content (λ files. (rs : List defs.InstanceRecord) → IsInstance (files INSTANCE) rs → generation rs < LAST_GENERATION)) }
    ensures limit { IsErrOf result SiteError.GenLimit → IfSome (D.disk disk.old).content (λ files. (rs : List defs.InstanceRecord) → IsInstance (files INSTANCE) rs → LAST_GENERATION ≤ generation rs) }
    ensures limit_told { IsErrOf result SiteError.GenLimit → IfSome (D.disk disk.old).content (λ files. (rs : List defs.InstanceRecord) × IsInstance (files INSTANCE) rs × (LAST_GENERATION ≤ generation rs)) }
    ensures needs { (region : ℕ) → IsErrOf result (SiteError.NeedForward region) → IfSome (D.disk disk.old).content (λ files. HaveFirstWithout files region) }
    ensures needs_unwritten { (region : ℕ) → IsErrOf result (SiteError.NeedForward region) → IsUnwritten (D.disk disk.old) (D.disk disk.new) }
    ensures needs_none { anew ≡ true → (region : ℕ) → IsErrOf result (SiteError.NeedForward region) → ⊥ }
    ensures unwritten { IsErrOf result SiteError.GenLimit → (D.disk disk.new).content ≡ (D.disk disk.old).content }
    ensures untouched { IsErrOf result SiteError.GenLimit → AtEachMoment (D.disk disk.old) (D.disk disk.new) (Image (D.disk disk.old)) }
    ensures place { (file offset : ℕ) → IsErrOf result (SiteError.NotAFile file offset) → IfSome (D.disk disk.old).content (λ files. IsOutsideOpening files file offset) }
    ensures place_anew { anew ≡ true → (file offset : ℕ) → IsErrOf result (SiteError.NotAFile file offset) → IfSome (D.disk disk.old).content (λ files. IsOutsideSite files file offset) }
    ensures refused { (file offset : ℕ) → IsErrOf result (SiteError.NotAFile file offset) → IfSome (D.disk disk.old).content (λ _. IsUnwritten (D.disk disk.old) (D.disk disk.new)) }
    ensures outside { (file offset : ℕ) → IsErrOf result (SiteError.NotAFile file offset) → IfSome (D.disk disk.old).content (λ files. (c : Contents) → IsSite files c → ⊥) }
    ensures any_moment { IfSome (D.disk disk.old).content (λ files. (c : Contents) (left : Leftover) → IsSite files c → HasLeft files c left → AtEachMoment (D.disk disk.old) (D.disk disk.new) (MayBeOpenAs anew (D.disk disk.old) left.broken)) }
    // each with what was broken in its own image
    ensures left { IfSome (D.disk disk.old).content (λ files. (c : Contents) → IsSite files c → AtEachMoment (D.disk disk.old) (D.disk disk.new) (MayBeOpenWithAs anew (D.disk disk.old))) }
    ensures still_told { IsSome (D.disk disk.old).content → IsSome (D.disk disk.new).content }
    ensures stands { IfSome (D.disk disk.old).content (λ files. (c : Contents) (left : Leftover) → IsSite files c → HasLeft files c left → IfSome (D.disk disk.new).content (λ now. (o : Contents) × MayOpenAs anew left.broken c o × IsSite now o)) }
    ensures simulated { (D.disk disk.new).simulated ≡ (D.disk disk.old).simulated }
    ensures faults { MayFail (D.disk disk.old).faults (D.disk disk.new).faults (λ fault. IsErrOf result (SiteError.Failed fault)) }
    ensures other_errors { IsErrOf result SiteError.SeqLimit → ⊥ }
    ensures no_full { (nodes : ℕ) → IsErrOf result (SiteError.Full nodes) → ⊥ }
    ensures no_reign_limit { IsErrOf result SiteError.ReignLimit → ⊥ }
    ensures no_stop { (fault : ℕ) → IsErrOf result (SiteError.Stopped fault) → ⊥ }
{
    let standing = read_standing(alloc, disk, anew)?;
    let StandingSite {
        log,
        layout,
        last_began,
        entries,
        globals,
        broken,
    } = standing;
    let length = entries.len();
    let text = broken.as_slice();
    let drawn = draw(alloc, disk, log, length, text, &last_began, anew)?;
    Ok(Memory {
        instance: drawn.instance,
        layout,
        journals: newest_journals(alloc, drawn.journals)?,
        entries,
        globals,
        hardened: length,
        stamp: None,
    })
}
