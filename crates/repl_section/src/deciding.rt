//! Deciding one job.
ghost use Rattle.std.specs.Prelude.{◌≡◌, ◌≤◌, ◌<◌, ◌+◌, ◌-◌, ◌^◌, ℕ, Bool, true, length, set, IfOk, IfSome, OnOk, IsErrOf};
ghost use Rattle.global_defs.specs.declared.limits.TheConstants.{NUMBERS_END};
ghost use Rattle.disk_defs.specs.Disk.{MayFailUncounted};
ghost use Rattle.global_defs.specs.Fields.{IsOrigin};
ghost use Rattle.global_defs.specs.Evaluation.{eval};
ghost use Rattle.global_defs.specs.Evaluation as evaluation;
ghost use Rattle.global_defs.specs.Serial.{serial_at};
ghost use Rattle.gvn_model.specs.Entries.{origin_value};
ghost use Rattle.gvn_model.specs.Jobs.{job_value, evaluated_value};
ghost use Rattle.site_defs.specs.Contents.{Contents};
ghost use Rattle.site_store.specs.Site.{IsOpen, HasReign, HasRoomFor, count_of};
ghost use Rattle.site_store.specs.Owning.{disk_of, memory_of, IsGoing};
ghost use Rattle.repl_section.specs.Replies.{named, replied_value};
ghost use Rattle.repl_section.specs.Reigns.{stamp_of};
ghost use Rattle.repl_section.specs.Deciding.{outcome, FitsIn, ComesTo, Appends, StandsAt};
ghost use Rattle.region_store.specs.Joined.{joined};

use crate::decision::Decision;
use crate::error::DecideError;
use crate::fitting::all_fit;
use crate::reign::Reign;
use global_defs::limits::MOST_UPDATERS;
use gvn_eval::eval_owned;
use gvn_model::{Answers, Cause, Evaluated, Job, Origin, Reply, Transaction, Updates};
use repl_disk::Disk;
use std::alloc::Global;

/// The number of the last entry that there may be.
const LAST_NUMBER: u64 = global_defs::limits::NUMBERS_END - 1;

impl<D: Disk> Reign<D> {
    /// The origin of an updater's next job, where there is such an updater and such a serial.
    fn next_origin(&self, updater: u8) -> Option<Origin>
        ensures updater { IfSome result (λ o. o.updater ≡ updater) }
        ensures serial { IfSome result (λ o. o.serial ≡ serial_at self.now.serials updater) }
        ensures valid { IfSome result (λ o. IsOrigin (origin_value o)) }
    {
        if updater == 0 || MOST_UPDATERS < updater {
            return None;
        }
        let serial = self.serials[usize::from(updater - 1)];
        if serial == 0 || u64::from(u32::MAX) < serial {
            return None;
        }
        Some(Origin {
            updater,
            serial: serial as u32,
        })
    }

    /// Raises the next serial of a job's updater past the job's, and makes the decision that the job has this reply.
    fn answer(&mut self, origin: Origin, reply: Reply) -> Decision
        requires { IsOrigin (origin_value origin) }
        ensures serials { self.new.serials ≡ set self.old.serials (origin.updater - 1) (origin.serial + 1) }
        ensures same { self.new ≡ record self.old { serials = self.new.serials } }
        ensures decision { result ≡ replied_value origin reply }
    {
        self.serials[usize::from(origin.updater - 1)] = u64::from(origin.serial) + 1;
        Decision::of(origin, reply)
    }

    /// Decides a job that makes these updates: makes them the next entry, which isn't hardened yet.
    fn commit(
        &mut self,
        origin: Origin,
        updates: Updates,
        answers: Answers,
    ) -> Result<Decision, DecideError>
        requires ready { IsGoing D.disk self.old.site }
        requires reign { HasReign (memory_of self.old.site) }
        requires origin { IsOrigin (origin_value origin) }
        requires serial { origin.serial ≡ serial_at self.old.serials origin.updater }
        requires some { 1 ≤ length updates }
        requires room { count_of (memory_of self.old.site) + 1 < NUMBERS_END }
        requires nodes { HasRoomFor (joined (memory_of self.old.site).globals) updates }
        ensures ready { OnOk result (IsGoing D.disk self.new.site) }
        ensures reign { OnOk result (HasReign (memory_of self.new.site)) }
        ensures stamp { (memory_of self.new.site).stamp ≡ (memory_of self.old.site).stamp }
        ensures done { IfOk result (λ decision. (told : Bool) (c : Contents) (h : ℕ) → IsOpen (D.disk (disk_of self.old.site)) told c h (memory_of self.old.site) → ComesTo (D.disk (disk_of self.new.site)) told c h (outcome (stamp_of self.old) self.old.serials c.sequence origin.updater (evaluation.Done updates answers)) self.new decision) }
        ensures entered { IfOk result (λ decision. IfSome (named decision.reply) (λ number. number ≤ count_of (memory_of self.new.site))) }
        ensures grown { OnOk result (count_of (memory_of self.old.site) ≤ count_of (memory_of self.new.site)) }
        ensures stands { (c : Contents) (h : ℕ) → IsOpen (D.disk (disk_of self.old.site)) true c h (memory_of self.old.site) → StandsAt (D.disk (disk_of self.new.site)) c h }
        ensures simulated { (D.disk (disk_of self.new.site)).simulated ≡ (D.disk (disk_of self.old.site)).simulated }
        ensures faults { MayFailUncounted (D.disk (disk_of self.old.site)).faults (D.disk (disk_of self.new.site)).faults (IsErrOf result DecideError.Failed) }
    {
        if !all_fit(&updates) {
            return Err(DecideError::NoMemory);
        }
        let number = self.enter(Transaction { origin, updates })?;
        Ok(self.answer(origin, Reply::Seq(number, answers)))
    }

    /// Decides a job that was evaluated so on the site's globals.
    fn conclude(&mut self, origin: Origin, evaluated: Evaluated) -> Result<Decision, DecideError>
        requires ready { IsGoing D.disk self.old.site }
        requires reign { HasReign (memory_of self.old.site) }
        requires origin { IsOrigin (origin_value origin) }
        requires serial { origin.serial ≡ serial_at self.old.serials origin.updater }
        requires nodes { FitsIn (joined (memory_of self.old.site).globals) (evaluated_value evaluated) }
        ensures ready { OnOk result (IsGoing D.disk self.new.site) }
        ensures reign { OnOk result (HasReign (memory_of self.new.site)) }
        ensures stamp { (memory_of self.new.site).stamp ≡ (memory_of self.old.site).stamp }
        ensures done { IfOk result (λ decision. (told : Bool) (c : Contents) (h : ℕ) → IsOpen (D.disk (disk_of self.old.site)) told c h (memory_of self.old.site) → ComesTo (D.disk (disk_of self.new.site)) told c h (outcome (stamp_of self.old) self.old.serials c.sequence origin.updater (evaluated_value evaluated)) self.new decision) }
        ensures entered { IfOk result (λ decision. IfSome (named decision.reply) (λ number. number ≤ count_of (memory_of self.new.site))) }
        ensures grown { OnOk result (count_of (memory_of self.old.site) ≤ count_of (memory_of self.new.site)) }
        ensures appends { IsErrOf result DecideError.Failed → (told : Bool) (c : Contents) (h : ℕ) → IsOpen (D.disk (disk_of self.old.site)) told c h (memory_of self.old.site) → Appends c.sequence (outcome (stamp_of self.old) self.old.serials c.sequence origin.updater (evaluated_value evaluated)) }
        ensures stands { (c : Contents) (h : ℕ) → IsOpen (D.disk (disk_of self.old.site)) true c h (memory_of self.old.site) → StandsAt (D.disk (disk_of self.new.site)) c h }
        ensures simulated { (D.disk (disk_of self.new.site)).simulated ≡ (D.disk (disk_of self.old.site)).simulated }
        ensures faults { MayFailUncounted (D.disk (disk_of self.old.site)).faults (D.disk (disk_of self.new.site)).faults (IsErrOf result DecideError.Failed) }
    {
        let reply = match evaluated {
            Evaluated::RolledBack(cause) => Reply::RolledBack(cause),
            Evaluated::Done { updates, answers } => {
                if updates.is_empty() {
                    Reply::Read(answers)
                } else if LAST_NUMBER <= self.site.sequence_length() {
                    Reply::RolledBack(Cause::SeqLimit)
                } else {
                    return self.commit(origin, updates, answers);
                }
            }
        };
        Ok(self.answer(origin, reply))
    }

    /// Decides an updater's job: evaluates it on the globals, and makes its updates, if it has some, the site's next entry, which isn't
    /// hardened yet. A job of more than 256 updates or with a value of more than 1,500 bytes, an updater that isn't from 1 to 64 and a
    /// serial that is past 2^32 - 1 take more memory than there is.
    ///
    /// # Errors
    /// `Failed` only where the disk's count rose, and `NoMemory`. The reign is of no more use then; what was hardened stands, and
    /// nothing else.
    pub fn decide(&mut self, alloc: Global, updater: u8, job: Job) -> Result<Decision, DecideError>
        requires ready { IsGoing D.disk self.old.site }
        requires reign { HasReign (memory_of self.old.site) }
        ensures ready { OnOk result (IsGoing D.disk self.new.site) }
        ensures reign { OnOk result (HasReign (memory_of self.new.site)) }
        ensures stamp { (memory_of self.new.site).stamp ≡ (memory_of self.old.site).stamp }
        ensures done { IfOk result (λ decision. (told : Bool) (c : Contents) (h : ℕ) → IsOpen (D.disk (disk_of self.old.site)) told c h (memory_of self.old.site) → ComesTo (D.disk (disk_of self.new.site)) told c h (outcome (stamp_of self.old) self.old.serials c.sequence updater (eval (job_value job) (joined (memory_of self.old.site).globals))) self.new decision) }
        ensures entered { IfOk result (λ decision. IfSome (named decision.reply) (λ number. number ≤ count_of (memory_of self.new.site))) }
        ensures grown { OnOk result (count_of (memory_of self.old.site) ≤ count_of (memory_of self.new.site)) }
        ensures appends { IsErrOf result DecideError.Failed → (told : Bool) (c : Contents) (h : ℕ) → IsOpen (D.disk (disk_of self.old.site)) told c h (memory_of self.old.site) → Appends c.sequence (outcome (stamp_of self.old) self.old.serials c.sequence updater (eval (job_value job) (joined (memory_of self.old.site).globals))) }
        ensures stands { (c : Contents) (h : ℕ) → IsOpen (D.disk (disk_of self.old.site)) true c h (memory_of self.old.site) → StandsAt (D.disk (disk_of self.new.site)) c h }
        ensures simulated { (D.disk (disk_of self.new.site)).simulated ≡ (D.disk (disk_of self.old.site)).simulated }
        ensures faults { MayFailUncounted (D.disk (disk_of self.old.site)).faults (D.disk (disk_of self.new.site)).faults (IsErrOf result DecideError.Failed) }
    {
        let Some(origin) = self.next_origin(updater) else {
            return Err(DecideError::NoMemory);
        };
        let evaluated = eval_owned(alloc, job, origin, &self.site)?;
        self.conclude(origin, evaluated)
    }
}
