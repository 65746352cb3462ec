//! One region's journal of one generation, as a list of records on a disk.
//!
//! A journal is a gated file of records that begins with the PINI of its region and generation. Records are prepared,
//! which takes all memory, then appended behind closed gates, and hardened together. Whatever a crash leaves, the file
//! has the hardened records and perhaps the first few of those that were being hardened. The journals of all generations are
//! read as one list.
#![tactic(auto)]

mod error;
mod generations;
mod journal;
pub mod laws;
mod reading;

pub use error::{GenerationsError, JournalError};
pub use generations::{Generations, is_unbegun, read_generations};
pub use journal::{Journal, journal_file};
