//! Deciding one job, with all that its reply waits for.
ghost use Rattle.std.specs.Prelude.{◌≡◌, ◌≤◌, ℕ, Bool, true, IfSome, IsSome, OnOk, OnErr, IsErrOf};
ghost use Rattle.disk_defs.specs.Disk.{Files, Image, MayFailUncounted};
ghost use Rattle.global_defs.specs.Evaluation.{eval};
ghost use Rattle.gvn_model.specs.Jobs.{job_value};
ghost use Rattle.site_defs.specs.Contents.{Contents, Standing};
ghost use Rattle.site_defs.specs.Fronts.{IsFrontOf};
ghost use Rattle.site_defs.specs.Stands.{IsSite};
ghost use Rattle.site_defs.specs.Behind.{IsFrontLeft, IsSiteWith};
ghost use Rattle.site_store.specs.Site.{IsOpen, HasReign, count_of};
ghost use Rattle.site_store.specs.Owning.{disk_of, memory_of, IsGoing};
ghost use Rattle.repl_section.specs.Replies.{named};
ghost use Rattle.repl_section.specs.Reigns.{Reigns, stamp_of};
ghost use Rattle.repl_section.specs.Deciding.{outcome, hardened_for, HasCome, Appends, MayHave, LeavesPick};
ghost use Rattle.region_store.specs.Joined.{joined};

use crate::decision::Decision;
use crate::error::DecideError;
use crate::reign::Reign;
use crate::sink::ReplySink;
use gvn_model::Job;
use repl_disk::Disk;
use std::alloc::Global;

impl<D: Disk> Reign<D> {
    /// Hardens all that was entered, where a decision's reply waits for it.
    fn harden_for(&mut self, decision: &Decision) -> Result<(), DecideError>
        requires ready { IsGoing D.disk self.old.site }
        requires reign { HasReign (memory_of self.old.site) }
        requires entered { IfSome (named decision.now.reply) (λ number. number ≤ count_of (memory_of self.old.site)) }
        ensures ready { OnOk result (IsGoing D.disk self.new.site) }
        ensures reign { HasReign (memory_of self.new.site) }
        ensures done { OnOk result ((told : Bool) (c : Contents) (h : ℕ) → IsOpen (D.disk (disk_of self.old.site)) told c h (memory_of self.old.site) → IsOpen (D.disk (disk_of self.new.site)) told c (hardened_for (named decision.now.reply) c h) (memory_of self.new.site)) }
        ensures hardened { OnOk result (IfSome (named decision.now.reply) (λ number. number ≤ (memory_of self.new.site).hardened)) }
        ensures waited { OnErr result (IsSome (named decision.now.reply)) }
        ensures stamp { (memory_of self.new.site).stamp ≡ (memory_of self.old.site).stamp }
        ensures serials { self.new.serials ≡ self.old.serials }
        ensures still_told { IsSome (D.disk (disk_of self.old.site)).content → IsSome (D.disk (disk_of self.new.site)).content }
        ensures images { IsSome (named decision.now.reply) → (c : Contents) (h : ℕ) → IsOpen (D.disk (disk_of self.old.site)) true c h (memory_of self.old.site) → (f : Files) → Image (D.disk (disk_of self.new.site)) f → (o : Contents) × IsFrontOf c.sequence h c o × IsSite f o }
        ensures left { IsSome (named decision.now.reply) → (c : Contents) (h : ℕ) → IsOpen (D.disk (disk_of self.old.site)) true c h (memory_of self.old.site) → (f : Files) → Image (D.disk (disk_of self.new.site)) f → (o : Standing) × IsFrontLeft c.sequence h c o × IsSiteWith f o }
        ensures simulated { (D.disk (disk_of self.new.site)).simulated ≡ (D.disk (disk_of self.old.site)).simulated }
        ensures faults { MayFailUncounted (D.disk (disk_of self.old.site)).faults (D.disk (disk_of self.new.site)).faults (IsErrOf result DecideError.Failed) }
    {
        match decision.entry() {
            Some(_) => self.harden(),
            None => Ok(()),
        }
    }

    /// Decides an updater's job where all entries are hardened: decides it, hardens its entry, if it has one, and releases its reply.
    ///
    /// # Errors
    /// `Failed` only where the disk's count rose; an entry may stand or not, and no reply was given. `NoMemory`. The reign is of no
    /// more use after both.
    pub(crate) fn settle<S: ReplySink>(
        &mut self,
        alloc: Global,
        updater: u8,
        job: Job,
        sink: &mut S,
    ) -> Result<(), DecideError>
        requires ready { IsGoing D.disk self.old.site }
        requires reign { HasReign (memory_of self.old.site) }
        ensures ready { OnOk result (IsGoing D.disk self.new.site) }
        ensures reign { OnOk result (HasReign (memory_of self.new.site)) }
        ensures stamp { (memory_of self.new.site).stamp ≡ (memory_of self.old.site).stamp }
        ensures done { OnOk result ((told : Bool) (c : Contents) → Reigns (D.disk (disk_of self.old.site)) told c self.old → HasCome (D.disk (disk_of self.new.site)) told c (outcome (stamp_of self.old) self.old.serials c.sequence updater (eval (job_value job) (joined (memory_of self.old.site).globals))) self.new (S.gave sink.old sink.new)) }
        ensures appends { IsErrOf result DecideError.Failed → (told : Bool) (c : Contents) → Reigns (D.disk (disk_of self.old.site)) told c self.old → Appends c.sequence (outcome (stamp_of self.old) self.old.serials c.sequence updater (eval (job_value job) (joined (memory_of self.old.site).globals))) }
        ensures may_have { (c : Contents) → Reigns (D.disk (disk_of self.old.site)) true c self.old → MayHave (D.disk (disk_of self.new.site)) c (outcome (stamp_of self.old) self.old.serials c.sequence updater (eval (job_value job) (joined (memory_of self.old.site).globals))).sequence }
        ensures leaves { (c : Contents) → Reigns (D.disk (disk_of self.old.site)) true c self.old → LeavesPick (D.disk (disk_of self.new.site)) c (outcome (stamp_of self.old) self.old.serials c.sequence updater (eval (job_value job) (joined (memory_of self.old.site).globals))).sequence }
        ensures untold { IsErrOf result DecideError.Failed → sink.new ≡ sink.old }
        ensures simulated { (D.disk (disk_of self.new.site)).simulated ≡ (D.disk (disk_of self.old.site)).simulated }
        ensures faults { MayFailUncounted (D.disk (disk_of self.old.site)).faults (D.disk (disk_of self.new.site)).faults (IsErrOf result DecideError.Failed) }
    {
        let decision = self.decide(alloc, updater, job)?;
        self.harden_for(&decision)?;
        self.release(decision, sink)?;
        Ok(())
    }
}
