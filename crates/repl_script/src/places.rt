// The jobs of all updaters, where the last ones that have none are left out.
ghost use Rattle.std.specs.Prelude.{◌≡◌, ◌-◌, ◌<◌, ◌≤◌, ◌∷◌, ◌++◌, [], length, get_or, set, replicate, OnOk, OnErr};
ghost use Rattle.global_defs.specs.declared.limits.TheConstants.{MOST_UPDATERS};
ghost use Rattle.command_defs.specs.Sections.{last_job, longer};
ghost use Rattle.gvn_key.specs.Terms.{statement_value};
ghost use Rattle.gvn_model.specs.Jobs.{job_value};
ghost use Rattle.repl_script.specs.Places.{at_all};

use gvn_key::NoMemory;
use gvn_key::terms::Statement;
use gvn_model::{Job, JobQueue, Jobs};
use std::alloc::Global;

/// No updater has a job. It takes no memory yet.
pub fn no_jobs(alloc: Global) -> Jobs
    ensures { at_all result ≡ replicate 64 [] }
{
    Jobs::new(alloc)
}

/// Makes places for the updaters up to this one, where they are left out.
fn make_places(alloc: Global, jobs: &mut Jobs, updater: u8) -> Result<(), NoMemory>
    requires { updater ≤ MOST_UPDATERS }
    ensures same { at_all jobs.new ≡ at_all jobs.old }
    ensures there { OnOk result (updater ≤ length jobs.new) }
{
    for _place in jobs.len()..usize::from(updater) {
        jobs.push(JobQueue::new(alloc))?;
    }
    Ok(())
}

/// Adds a job behind the others of an updater.
pub fn put_job(alloc: Global, jobs: &mut Jobs, updater: u8, job: Job) -> Result<(), NoMemory>
    requires { (0 < updater) × (updater ≤ MOST_UPDATERS) }
    ensures jobs { OnOk result (at_all jobs.new ≡ set (at_all jobs.old) (updater - 1) (get_or (at_all jobs.old) (updater - 1) [] ++ job_value job ∷ [])) }
    ensures kept { OnErr result (at_all jobs.new ≡ at_all jobs.old) }
{
    make_places(alloc, jobs, updater)?;
    jobs.add(updater, job)
}

/// Adds a statement to the last job of an updater that has one.
pub fn put_statement(jobs: &mut Jobs, updater: u8, statement: Statement) -> Result<(), NoMemory>
    requires updater { 0 < updater }
    requires job { 0 < length (get_or (at_all jobs.old) (updater - 1) []) }
    ensures ok { OnOk result (at_all jobs.new ≡ set (at_all jobs.old) (updater - 1) (longer (get_or (at_all jobs.old) (updater - 1) []) (statement_value statement))) }
    ensures err { OnErr result (at_all jobs.new ≡ at_all jobs.old) }
{
    jobs.add_statement(updater, statement)
}

/// The last job of an updater that has one.
pub fn last_of(jobs: &Jobs, updater: u8) -> &Job
    requires updater { 0 < updater }
    requires job { 0 < length (get_or (at_all jobs.now) (updater - 1) []) }
    ensures { job_value result.now ≡ last_job (get_or (at_all jobs.now) (updater - 1) []) }
{
    let own = jobs.item(usize::from(updater - 1));
    let last = own.item(own.len() - 1);
    last
}
