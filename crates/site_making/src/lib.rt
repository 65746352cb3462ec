//! What is done on the disk of a site that isn't open: it is found, given patterns, and its history is read.
#![tactic(auto)]

mod finding;
mod history;
mod mapping;

pub use finding::{FoundSite, find, inspect};
pub use history::history_of;
pub use mapping::{map, map_logged};
