//! Files that are synced before a site is opened.
ghost use Rattle.std.specs.Prelude.{◌≡◌, ◌⊎◌, ◌≤◌, ◌<◌, ℕ, IfSome, OnOk, OnErr, IsErrOf};
ghost use Rattle.global_defs.specs.declared.limits.TheConstants.{MOST_GENERATIONS, MOST_REGIONS};
ghost use Rattle.disk_defs.specs.Disk.{Image, IsDurable, AtEachMoment, MayFail};
ghost use Rattle.site_store.specs.Opening.{AreBothDurable, AreTextsDurable, AreDatabasesDurable};

use crate::error::SiteError;
use gated_file::{GateError, sync_file};
use journal_defs::files::{BROKEN_FILES, DATABASE_FILES, LOST_FILES};
use repl_disk::Disk;

/// Syncs a file that isn't read by gates.
fn sync_whole<D: Disk>(disk: &mut D, file: u32) -> Result<(), SiteError>
    ensures durable { OnOk result (IfSome (D.disk disk.old).content (λ files. IsDurable (D.disk disk.new) file (files file))) }
    ensures content { (D.disk disk.new).content ≡ (D.disk disk.old).content }
    ensures any_moment { AtEachMoment (D.disk disk.old) (D.disk disk.new) (Image (D.disk disk.old)) }
    ensures simulated { (D.disk disk.new).simulated ≡ (D.disk disk.old).simulated }
    ensures faults { MayFail (D.disk disk.old).faults (D.disk disk.new).faults (λ fault. IsErrOf result (SiteError.Failed fault)) }
    ensures causes { OnErr result (((fault : ℕ) × IsErrOf result (SiteError.Failed fault)) ⊎ IsErrOf result SiteError.NoMemory) }
{
    match sync_file(disk, file) {
        Ok(()) => Ok(()),
        Err(GateError::Failed) => Err(SiteError::Failed {
            fault: disk.faults(),
        }),
        Err(GateError::NotARecord { .. } | GateError::NoMemory) => Err(SiteError::NoMemory),
    }
}

/// Syncs the broken-transaction file and the lost-transaction file of a generation.
fn sync_both<D: Disk>(disk: &mut D, generation: u32) -> Result<(), SiteError>
    requires { generation ≤ MOST_GENERATIONS }
    ensures durable { OnOk result (IfSome (D.disk disk.old).content (AreBothDurable (D.disk disk.new) generation)) }
    ensures content { (D.disk disk.new).content ≡ (D.disk disk.old).content }
    ensures any_moment { AtEachMoment (D.disk disk.old) (D.disk disk.new) (Image (D.disk disk.old)) }
    ensures simulated { (D.disk disk.new).simulated ≡ (D.disk disk.old).simulated }
    ensures faults { MayFail (D.disk disk.old).faults (D.disk disk.new).faults (λ fault. IsErrOf result (SiteError.Failed fault)) }
    ensures causes { OnErr result (((fault : ℕ) × IsErrOf result (SiteError.Failed fault)) ⊎ IsErrOf result SiteError.NoMemory) }
{
    sync_whole(disk, BROKEN_FILES + generation)?;
    sync_whole(disk, LOST_FILES + generation)
}

/// Syncs the broken-transaction and the lost-transaction files of the first generations.
pub(crate) fn sync_texts<D: Disk>(disk: &mut D, generations: u32) -> Result<(), SiteError>
    requires { generations < MOST_GENERATIONS }
    ensures durable { OnOk result (IfSome (D.disk disk.old).content (AreTextsDurable (D.disk disk.new) generations)) }
    ensures content { (D.disk disk.new).content ≡ (D.disk disk.old).content }
    ensures any_moment { AtEachMoment (D.disk disk.old) (D.disk disk.new) (Image (D.disk disk.old)) }
    ensures simulated { (D.disk disk.new).simulated ≡ (D.disk disk.old).simulated }
    ensures faults { MayFail (D.disk disk.old).faults (D.disk disk.new).faults (λ fault. IsErrOf result (SiteError.Failed fault)) }
    ensures causes { OnErr result (((fault : ℕ) × IsErrOf result (SiteError.Failed fault)) ⊎ IsErrOf result SiteError.NoMemory) }
{
    for earlier in 0..generations {
        sync_both(disk, earlier + 1)?;
    }
    Ok(())
}

/// Syncs the database files of the first regions.
pub(crate) fn sync_databases<D: Disk>(disk: &mut D, regions: u32) -> Result<(), SiteError>
    requires { regions ≤ MOST_REGIONS }
    ensures durable { OnOk result (IfSome (D.disk disk.old).content (AreDatabasesDurable (D.disk disk.new) regions)) }
    ensures content { (D.disk disk.new).content ≡ (D.disk disk.old).content }
    ensures any_moment { AtEachMoment (D.disk disk.old) (D.disk disk.new) (Image (D.disk disk.old)) }
    ensures simulated { (D.disk disk.new).simulated ≡ (D.disk disk.old).simulated }
    ensures faults { MayFail (D.disk disk.old).faults (D.disk disk.new).faults (λ fault. IsErrOf result (SiteError.Failed fault)) }
    ensures causes { OnErr result (((fault : ℕ) × IsErrOf result (SiteError.Failed fault)) ⊎ IsErrOf result SiteError.NoMemory) }
{
    for region in 0..regions {
        sync_whole(disk, DATABASE_FILES + region)?;
    }
    Ok(())
}
