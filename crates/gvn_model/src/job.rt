// Jobs, and what becomes of them.
ghost use Rattle.std.specs.Prelude.{◌≡◌, IfOk};

use super::statements::{Answers, Statements};
use super::updates::Updates;
use gvn_key::NoMemory;

/// One statement, or those of a transaction.
#[derive(Debug, Drop)]
pub struct Job {
    pub statements: Statements,
}

impl Job {
    /// An equal job.
    pub fn copy(&self) -> Result<Self, NoMemory>
        ensures { IfOk result (λ made. made ≡ self.now) }
    {
        Ok(Job {
            statements: self.statements.copy()?,
        })
    }
}

/// Why a job is rolled back.
#[derive(Clone, Copy, Debug, PartialEq, Eq)]
pub enum Cause {
    /// A check failed.
    Check,
    /// A value that is counted with, or a sum, is no canonical integer of at most 18 digits.
    NotNum,
    /// More than 100,000 nodes would stand after an update.
    Full,
    /// The sequence is as long as one can be.
    SeqLimit,
}

/// What a job does on globals.
#[derive(Debug, Drop)]
pub enum Evaluated {
    /// Its updates and answers, where no statement has a cause.
    Done { updates: Updates, answers: Answers },
    /// The cause of the first statement that has one.
    RolledBack(Cause),
}

/// What became of a job.
#[derive(Debug, Drop)]
pub enum Reply {
    /// It became the entry of that number.
    Seq(u64, Answers),
    /// It had no updates.
    Read(Answers),
    /// It was rolled back.
    RolledBack(Cause),
}
