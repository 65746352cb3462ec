// Jobs by the updaters that ask for them.
ghost use Rattle.std.specs.Prelude.{◌≡◌, ◌==◌, ◌<◌, ◌≤◌, ◌-◌, [], ◌∷◌, ◌++◌, length, get_or, set, Some, option_map, slice_get, IfOk, OnOk, OnErr};
ghost use Rattle.global_defs.specs.Serial.{next_job, without_next};
ghost use Rattle.gvn_key.specs.Terms.{statement_value};
ghost use Rattle.gvn_model.specs.Jobs.{job_value};
ghost use Rattle.gvn_model.specs.Queues.{with_statement};

use super::job::Job;
use super::queue::JobQueue;
use gvn_key::NoMemory;
use gvn_key::terms::Statement;
use std::alloc::Global;
use std::marker::Model;

/// The jobs of each updater, those of updater `u`, from 1, at place `u - 1`. A call that answers [`NoMemory`] changes
/// nothing.
#[derive(Debug, Drop)]
pub struct Jobs {
    items: Vec<JobQueue>,
}

impl Model for Jobs {
    ghost use Rattle.std.specs.Prelude.{List};
    ghost use Rattle.global_defs.specs.Jobs as defs;

    ghost Value = { List (List defs.Job) };

    ghost view = { λ j. j.items.items };
}

impl Jobs {
    /// No updaters. It takes no memory yet.
    pub fn new(alloc: Global) -> Self
        ensures { result ≡ [] }
    {
        Jobs {
            items: Vec::new(alloc),
        }
    }

    /// No updaters, with room for so many.
    pub fn with_capacity(alloc: Global, updaters: usize) -> Result<Self, NoMemory>
        ensures { IfOk result (λ made. made ≡ []) }
    {
        Ok(Jobs {
            items: Vec::with_capacity(alloc, updaters)?,
        })
    }

    /// How many updaters there are.
    pub fn len(&self) -> usize
        ensures { result ≡ length self.now }
    {
        self.items.len()
    }

    /// Whether there is no updater.
    pub fn is_empty(&self) -> bool
        ensures { result ≡ (length self.now == 0) }
    {
        self.items.is_empty()
    }

    /// The jobs of the updater at place `i`, from 0.
    pub fn item(&self, i: usize) -> &JobQueue
        requires { i < length self.now }
        ensures { slice_get self.now i ≡ Some result.now }
    {
        &self.items[i]
    }

    /// The jobs of all updaters.
    pub fn as_slice(&self) -> &[JobQueue]
        ensures { result.now ≡ self.now }
    {
        &self.items
    }

    /// Adds an updater with its jobs.
    pub fn push(&mut self, jobs: JobQueue) -> Result<(), NoMemory>
        ensures ok { OnOk result (self.new ≡ self.old ++ jobs ∷ []) }
        ensures err { OnErr result (self.new ≡ self.old) }
    {
        self.items.push(jobs)?;
        Ok(())
    }

    /// Adds a job behind the others of this updater, from 1.
    pub fn add(&mut self, updater: u8, job: Job) -> Result<(), NoMemory>
        requires { (0 < updater) × (updater ≤ length self.old) }
        ensures ok { OnOk result (self.new ≡ set self.old (updater - 1) (get_or self.old (updater - 1) [] ++ job_value job ∷ [])) }
        ensures err { OnErr result (self.new ≡ self.old) }
    {
        self.items[usize::from(updater - 1)].push(job)
    }

    /// Adds a statement at the end of the last job of this updater, from 1.
    pub fn add_statement(&mut self, updater: u8, statement: Statement) -> Result<(), NoMemory>
        requires updater { (0 < updater) × (updater ≤ length self.old) }
        requires job { 0 < length (get_or self.old (updater - 1) []) }
        ensures ok { OnOk result (self.new ≡ set self.old (updater - 1) (with_statement (get_or self.old (updater - 1) []) (statement_value statement))) }
        ensures err { OnErr result (self.new ≡ self.old) }
    {
        self.items[usize::from(updater - 1)].push_statement(statement)
    }

    /// Takes the first job of this updater, from 1, if it has one. A 0 is taken as 1.
    pub fn take_next(&mut self, updater: u8) -> Option<Job>
        ensures job { option_map job_value result ≡ next_job updater self.old }
        ensures left { self.new ≡ without_next updater self.old }
    {
        match self.items.get_mut(usize::from(updater.saturating_sub(1))) {
            Some(jobs) => jobs.take_first(),
            None => None,
        }
    }

    /// An equal list.
    pub fn copy(&self) -> Result<Self, NoMemory>
        ensures { IfOk result (λ made. made ≡ self.now) }
    {
        Ok(Jobs {
            items: copy_all(*self.items.allocator(), &self.items)?,
        })
    }
}

fn copy_all(alloc: Global, jobs: &[JobQueue]) -> Result<Vec<JobQueue>, NoMemory>
    ensures { IfOk result (λ made. made.items ≡ jobs.now) }
{
    let mut made = Vec::new(alloc);
    for queue in jobs {
        made.push(queue.copy()?)?;
    }
    Ok(made)
}
