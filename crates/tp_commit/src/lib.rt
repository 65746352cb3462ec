//! A transaction as parts, one a region, and the records of them that the journals of its regions take.
#![tactic(auto)]

mod lists;
mod parts;
mod records;
mod updates;

pub use parts::{Part, Parts, split_regions};
pub use records::{PartRecords, entry_records};
