// The jobs of one updater.
ghost use Rattle.std.specs.Prelude.{◌≡◌, ◌==◌, ◌<◌, [], ◌∷◌, ◌++◌, length, drop, Some, option_map, slice_get, IfOk, OnOk, OnErr};
ghost use Rattle.gvn_key.specs.Terms.{statement_value};
ghost use Rattle.gvn_model.specs.Jobs.{job_value};
ghost use Rattle.gvn_model.specs.Queues.{with_statement};

use super::job::Job;
use gvn_key::NoMemory;
use gvn_key::terms::Statement;
use std::alloc::Global;
use std::collections::VecDeque;
use std::marker::Model;

/// Jobs of one updater, which are done from the front. A call that answers [`NoMemory`] changes nothing.
#[derive(Debug, Drop)]
pub struct JobQueue {
    items: VecDeque<Job>,
}

impl Model for JobQueue {
    ghost use Rattle.std.specs.Prelude.{List, map};
    ghost use Rattle.global_defs.specs.Jobs as defs;
    ghost use Rattle.gvn_model.specs.Jobs.{job_value};

    ghost Value = { List defs.Job };

    ghost view = { λ q. map job_value q.items.items };
}

impl JobQueue {
    /// No jobs. It takes no memory yet.
    pub fn new(alloc: Global) -> Self
        ensures { result ≡ [] }
    {
        JobQueue {
            items: VecDeque::new(alloc),
        }
    }

    /// How many jobs there are.
    pub fn len(&self) -> usize
        ensures { result ≡ length self.now }
    {
        self.items.len()
    }

    /// Whether there is no job.
    pub fn is_empty(&self) -> bool
        ensures { result ≡ (length self.now == 0) }
    {
        self.items.is_empty()
    }

    /// The job at place `i`, from 0.
    pub fn item(&self, i: usize) -> &Job
        requires { i < length self.now }
        ensures { slice_get self.now i ≡ Some (job_value result.now) }
    {
        &self.items[i]
    }

    /// Adds a job at the end.
    pub fn push(&mut self, job: Job) -> Result<(), NoMemory>
        ensures ok { OnOk result (self.new ≡ self.old ++ job_value job ∷ []) }
        ensures err { OnErr result (self.new ≡ self.old) }
    {
        self.items.push_back(job)?;
        Ok(())
    }

    /// Adds a statement at the end of the last job.
    pub fn push_statement(&mut self, statement: Statement) -> Result<(), NoMemory>
        requires { 0 < length self.old }
        ensures ok { OnOk result (self.new ≡ with_statement self.old (statement_value statement)) }
        ensures err { OnErr result (self.new ≡ self.old) }
    {
        let last = self.items.len() - 1;
        self.items[last].statements.push(statement)
    }

    /// Takes the first job away, if there is one.
    pub fn take_first(&mut self) -> Option<Job>
        ensures first { option_map job_value result ≡ slice_get self.old 0 }
        ensures rest { self.new ≡ drop 1 self.old }
    {
        self.items.pop_front()
    }

    /// An equal list.
    pub fn copy(&self) -> Result<Self, NoMemory>
        ensures { IfOk result (λ made. made ≡ self.now) }
    {
        let mut made = JobQueue::new(*self.items.allocator());
        for i in 0..self.len() {
            made.push(self.item(i).copy()?)?;
        }
        Ok(made)
    }
}
