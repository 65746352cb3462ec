//! A reign in memory.
use repl_disk::Disk;
use site_store::Site;

/// What a primary has open: its site, under a reign that was begun, and the next serials of its updaters.
#[derive(Drop)]
pub struct Reign<D: Disk> {
    pub site: Site<D>,
    /// The next serials of the updaters, updater u at place u - 1.
    pub serials: [u64; 64],
}
