// Entries and their parts.
ghost use Rattle.std.specs.Prelude.{◌≡◌, IfOk};

use super::reign::Stamp;
use super::updates::Updates;
use gvn_key::NoMemory;

/// Who made a job, and the place of the job among that updater's jobs.
#[derive(Clone, Copy, Debug, PartialEq, Eq)]
pub struct Origin {
    /// The updater, from 1 to 64.
    pub updater: u8,
    /// Counts the updater's jobs since the primary was started, from 1.
    pub serial: u32,
}

/// The updates of one job, which are applied together.
#[derive(Debug, Drop)]
pub struct Transaction {
    /// The job.
    pub origin: Origin,
    /// What it changes, in order.
    pub updates: Updates,
}

impl Transaction {
    /// An equal transaction.
    pub fn copy(&self) -> Result<Self, NoMemory>
        ensures { IfOk result (λ made. made ≡ self.now) }
    {
        Ok(Transaction {
            origin: self.origin,
            updates: self.updates.copy()?,
        })
    }
}

/// A transaction with its place in a sequence.
#[derive(Debug, Drop)]
pub struct Entry {
    /// Its place, from 1: the journal sequence number.
    pub number: u64,
    /// The reign in which it was made.
    pub stamp: Stamp,
    /// What was done.
    pub transaction: Transaction,
}

impl Entry {
    /// An equal entry.
    pub fn copy(&self) -> Result<Self, NoMemory>
        ensures { IfOk result (λ made. made ≡ self.now) }
    {
        Ok(Entry {
            number: self.number,
            stamp: self.stamp.copy()?,
            transaction: self.transaction.copy()?,
        })
    }
}
