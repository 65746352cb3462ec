//! Deciding jobs one after another.
ghost use Rattle.std.specs.Prelude.{◌≡◌, ◌≤◌, Bool, OnOk, IfErr};
ghost use Rattle.disk_defs.specs.Disk.{Rose};
ghost use Rattle.site_defs.specs.Contents.{Contents};
ghost use Rattle.site_defs.specs.Fronts.{turn_of};
ghost use Rattle.site_store.specs.Site.{HasReign};
ghost use Rattle.site_store.specs.Owning.{disk_of, memory_of, IsGoing};
ghost use Rattle.repl_section.specs.Reigns.{Reigns, stamp_of};
ghost use Rattle.repl_section.specs.Deciding.{HasDecided, Breaks, WithholdsNone, IsFault};

use crate::error::DecideError;
use crate::reign::Reign;
use crate::sink::ReplySink;
use crate::source::JobSource;
use repl_disk::Disk;
use std::alloc::Global;
use thiserror::Error;

/// Why a section was not decided to its end.
#[derive(Clone, Copy, Debug, PartialEq, Eq, Error)]
pub enum RunError {
    /// A call of the disk failed: its count of faults has risen. So many picks have no reply.
    #[error("a disk call failed, with {undecided} jobs undecided")]
    Failed { undecided: u64 },
    /// There was no memory.
    #[error("out of memory")]
    NoMemory,
}

impl<D: Disk> Reign<D> {
    /// Decides, for each updater of the order in turn, the next of its jobs, and gives the replies, each once its entry is hardened. An
    /// updater without a job is passed over. A job of more than 256 updates or with a value of more than 1,500 bytes, an updater that isn't from 1 to 64
    /// and a serial that is past 2^32 - 1 take more memory than there is.
    ///
    /// # Errors
    /// `Failed` only where the disk's count rose: the jobs before the one that failed have their replies, and the others are counted. The
    /// reign is of no more use then. `NoMemory`, and then it isn't either.
    pub fn run<J: JobSource, S: ReplySink>(
        &mut self,
        alloc: Global,
        jobs: &mut J,
        order: &[u8],
        sink: &mut S,
    ) -> Result<(), RunError>
        requires ready { IsGoing D.disk self.old.site }
        requires reign { HasReign (memory_of self.old.site) }
        ensures ready { OnOk result (IsGoing D.disk self.new.site) }
        ensures reign { OnOk result (HasReign (memory_of self.new.site)) }
        ensures stamp { (memory_of self.new.site).stamp ≡ (memory_of self.old.site).stamp }
        ensures done { OnOk result ((told : Bool) (c : Contents) → Reigns (D.disk (disk_of self.old.site)) told c self.old → HasDecided (D.disk (disk_of self.new.site)) told c (J.jobs jobs.old) order.now self.old self.new (S.gave sink.old sink.new)) }
        ensures left { OnOk result ((told : Bool) (c : Contents) → Reigns (D.disk (disk_of self.old.site)) told c self.old → J.jobs jobs.new ≡ (turn_of (stamp_of self.old) self.old.serials (J.jobs jobs.old) order.now c.sequence).left) }
        ensures breaks { IfErr result (λ e. (told : Bool) (c : Contents) → Reigns (D.disk (disk_of self.old.site)) told c self.old → Breaks e (D.disk (disk_of self.new.site)) (stamp_of self.old) told c (J.jobs jobs.old) order.now self.old.serials (S.gave sink.old sink.new)) }
        // where the disk failed all jobs before the one that failed have their replies
        ensures withholds_none { IfErr result (λ e. (told : Bool) (c : Contents) → Reigns (D.disk (disk_of self.old.site)) told c self.old → WithholdsNone e (D.disk (disk_of self.new.site)) (stamp_of self.old) told c (J.jobs jobs.old) order.now self.old.serials (S.gave sink.old sink.new)) }
        ensures simulated { (D.disk (disk_of self.new.site)).simulated ≡ (D.disk (disk_of self.old.site)).simulated }
        ensures later { (D.disk (disk_of self.old.site)).faults ≤ (D.disk (disk_of self.new.site)).faults }
        ensures cause { IfErr result (λ e. IsFault e → Rose (D.disk (disk_of self.old.site)).faults (D.disk (disk_of self.new.site)).faults) }
    {
        let mut undecided = order.len() as u64;
        for updater in order {
            let Some(job) = jobs.take_next(*updater) else {
                continue;
            };
            match self.settle(alloc, *updater, job, sink) {
                Ok(()) => undecided -= 1,
                Err(DecideError::Failed) => return Err(RunError::Failed { undecided }),
                Err(DecideError::NoMemory) => return Err(RunError::NoMemory),
            }
        }
        Ok(())
    }
}
