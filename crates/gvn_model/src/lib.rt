//! Statements and jobs, transactions, entries and reigns: what a section runs, a journal keeps and a replication link carries.
#![tactic(auto)]

mod entries;
mod entry;
mod history;
mod items;
mod job;
mod jobs;
mod named_modes;
mod queue;
mod reign;
mod statements;
mod updates;

pub use entries::Entries;
pub use entry::{Entry, Origin, Transaction};
pub use history::{History, Reigns};
pub use items::{Item, Items};
pub use job::{Cause, Evaluated, Job, Reply};
pub use jobs::Jobs;
pub use named_modes::NamedModes;
pub use queue::JobQueue;
pub use reign::{Reign, Stamp};
pub use statements::{Answers, Statements};
pub use updates::Updates;
