//! The newest journals of a site, one a region.
//!
//! The parts of an entry are appended to the journals of their regions, behind closed gates, and all that was appended is hardened
//! together. Whatever a crash leaves at any moment, each journal has its hardened records and perhaps the first few of those that
//! were being hardened, so the files stand for a front of the entries.
#![tactic(auto)]

mod appending;
mod hardening;
mod journals;
pub mod laws;
mod logging;
mod preparing;

pub use journals::{RegionJournal, RegionJournals};
