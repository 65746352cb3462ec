//! A site in memory.

use crate::layout::Layout;
use entry_index::EntryIndex;
use gvn_model::Stamp;
use instance_file::Instance;
use region_journals::RegionJournals;
use region_store::Regions;

/// What an open site has in memory, beside its disk: what its files stand for, and its files, open for calls.
///
/// Its fields are there for contracts: `IsOpen` says what they have to do with the disk, and a field that was changed by hand
/// leaves nothing of it.
#[derive(Drop)]
pub struct Memory {
    pub instance: Instance,
    /// What the instance file says of the site.
    pub layout: Layout,
    /// The journals of the newest generation, by region.
    pub journals: RegionJournals,
    /// Where the parts of its entries stand.
    pub entries: EntryIndex,
    /// The site's regions on their blocks: all nodes.
    pub globals: Regions,
    /// How many entries are on the disk for good.
    pub hardened: u64,
    /// The reign that was begun since the site was opened.
    pub stamp: Option<Stamp>,
}
