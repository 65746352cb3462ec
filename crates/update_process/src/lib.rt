//! The Update Process: it applies entries that came from a primary to a site, each once and in order of their numbers.
#![tactic(auto)]

mod reigns;
mod sink;
mod update;

pub use sink::{ApplyError, EntrySink};
pub use update::{Applied, UpdateError, apply_next};
