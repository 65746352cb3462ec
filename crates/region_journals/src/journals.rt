//! The newest journals of a site.
use jnl_file::Journal;

/// A region's newest journal.
#[derive(Drop)]
pub struct RegionJournal {
    pub journal: Journal,
    /// Whether something was appended since the last hardening.
    pub appended: bool,
}

/// The newest journals of a site, by region from 0 on: at most 8, all of one generation.
#[derive(Drop)]
pub struct RegionJournals {
    pub journals: Vec<RegionJournal>,
}
