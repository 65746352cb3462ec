//! The images of blocks that an entry is about to change.
ghost use Rattle.std.specs.Prelude.{◌⊎◌, ◌<◌, ℕ, length, OnOk, OnErr, IsErrOf};
ghost use Rattle.disk_defs.specs.Disk.{MayFail};
ghost use Rattle.disk_defs.specs.Frames.{OthersStay};
ghost use Rattle.site_store.specs.Committing.{HasLogged, HasSameState, AreLoggingMoments, IsSameSite, IsOwnJournal};
ghost use Rattle.site_store.specs.Site.{IsReady};

use crate::epochs::answered;
use crate::error::SiteError;
use crate::memory::Memory;
use gvn_key::terms::Update;
use region_epochs::log_first_image;
use repl_disk::Disk;
use std::alloc::Global;

impl Memory {
    /// Appends the image of a block to its region's journal where the block needs one before it's written. Without memory nothing more
    /// waits.
    fn log_first_image<D: Disk>(
        &mut self,
        alloc: Global,
        disk: &mut D,
        region: usize,
        block: u32,
    ) -> Result<(), SiteError>
        requires ready { IsReady (D.disk disk.old) self.old }
        requires inside { region < length self.old.globals.regions }
        ensures logged { OnOk result (HasLogged (D.disk disk.old) (D.disk disk.new) self.old self.new) }
        ensures goes_on { IsErrOf result SiteError.NoMemory → HasLogged (D.disk disk.old) (D.disk disk.new) self.old self.new }
        ensures same { IsSameSite self.old self.new }
        ensures still { (fault : ℕ) → IsErrOf result (SiteError.Failed fault) → HasSameState self.old self.new }
        ensures moments { AreLoggingMoments (D.disk disk.old) (D.disk disk.new) self.old }
        ensures frame { OthersStay (IsOwnJournal self.old) (D.disk disk.old) (D.disk disk.new) }
        ensures faults { MayFail (D.disk disk.old).faults (D.disk disk.new).faults (λ fault. IsErrOf result (SiteError.Failed fault)) }
        ensures causes { OnErr result (((fault : ℕ) × IsErrOf result (SiteError.Failed fault)) ⊎ IsErrOf result SiteError.NoMemory) }
    {
        let logged = log_first_image(
            alloc,
            disk,
            &mut self.journals,
            &mut self.globals,
            region,
            block,
        );
        answered(logged, disk.faults())
    }

    /// Appends the images that these blocks of a region need.
    fn log_blocks<D: Disk>(
        &mut self,
        alloc: Global,
        disk: &mut D,
        region: usize,
        blocks: &[u32],
    ) -> Result<(), SiteError>
        requires ready { IsReady (D.disk disk.old) self.old }
        requires inside { region < length self.old.globals.regions }
        ensures logged { OnOk result (HasLogged (D.disk disk.old) (D.disk disk.new) self.old self.new) }
        ensures goes_on { IsErrOf result SiteError.NoMemory → HasLogged (D.disk disk.old) (D.disk disk.new) self.old self.new }
        ensures same { IsSameSite self.old self.new }
        ensures still { (fault : ℕ) → IsErrOf result (SiteError.Failed fault) → HasSameState self.old self.new }
        ensures moments { AreLoggingMoments (D.disk disk.old) (D.disk disk.new) self.old }
        ensures frame { OthersStay (IsOwnJournal self.old) (D.disk disk.old) (D.disk disk.new) }
        ensures faults { MayFail (D.disk disk.old).faults (D.disk disk.new).faults (λ fault. IsErrOf result (SiteError.Failed fault)) }
        ensures causes { OnErr result (((fault : ℕ) × IsErrOf result (SiteError.Failed fault)) ⊎ IsErrOf result SiteError.NoMemory) }
    {
        for block in blocks {
            self.log_first_image(alloc, disk, region, *block)?;
        }
        Ok(())
    }

    /// Appends the images of the blocks that an update is about to change first behind its region's epoch.
    fn log_touched<D: Disk>(
        &mut self,
        alloc: Global,
        disk: &mut D,
        update: &Update,
    ) -> Result<(), SiteError>
        requires ready { IsReady (D.disk disk.old) self.old }
        ensures logged { OnOk result (HasLogged (D.disk disk.old) (D.disk disk.new) self.old self.new) }
        ensures goes_on { IsErrOf result SiteError.NoMemory → HasLogged (D.disk disk.old) (D.disk disk.new) self.old self.new }
        ensures same { IsSameSite self.old self.new }
        ensures still { (fault : ℕ) → IsErrOf result (SiteError.Failed fault) → HasSameState self.old self.new }
        ensures moments { AreLoggingMoments (D.disk disk.old) (D.disk disk.new) self.old }
        ensures frame { OthersStay (IsOwnJournal self.old) (D.disk disk.old) (D.disk disk.new) }
        ensures faults { MayFail (D.disk disk.old).faults (D.disk disk.new).faults (λ fault. IsErrOf result (SiteError.Failed fault)) }
        ensures causes { OnErr result (((fault : ℕ) × IsErrOf result (SiteError.Failed fault)) ⊎ IsErrOf result SiteError.NoMemory) }
    {
        let region = self.globals.number_of(update);
        let blocks = self.globals.unlogged(region, alloc, update)?;
        self.log_blocks(alloc, disk, region, blocks.as_slice())
    }

    /// Appends the images of the blocks that these updates are about to change first behind their regions' epochs.
    pub(crate) fn log_all_touched<D: Disk>(
        &mut self,
        alloc: Global,
        disk: &mut D,
        updates: &[Update],
    ) -> Result<(), SiteError>
        requires ready { IsReady (D.disk disk.old) self.old }
        ensures logged { OnOk result (HasLogged (D.disk disk.old) (D.disk disk.new) self.old self.new) }
        ensures goes_on { IsErrOf result SiteError.NoMemory → HasLogged (D.disk disk.old) (D.disk disk.new) self.old self.new }
        ensures same { IsSameSite self.old self.new }
        ensures still { (fault : ℕ) → IsErrOf result (SiteError.Failed fault) → HasSameState self.old self.new }
        ensures moments { AreLoggingMoments (D.disk disk.old) (D.disk disk.new) self.old }
        ensures frame { OthersStay (IsOwnJournal self.old) (D.disk disk.old) (D.disk disk.new) }
        ensures faults { MayFail (D.disk disk.old).faults (D.disk disk.new).faults (λ fault. IsErrOf result (SiteError.Failed fault)) }
        ensures causes { OnErr result (((fault : ℕ) × IsErrOf result (SiteError.Failed fault)) ⊎ IsErrOf result SiteError.NoMemory) }
    {
        for update in updates {
            self.log_touched(alloc, disk, update)?;
        }
        Ok(())
    }
}
