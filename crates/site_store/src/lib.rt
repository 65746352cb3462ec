//! A site on its disk: made, mapped, opened again and again, and given entries.
//!
//! A site has an instance file, and in each of its one to eight regions a journal for each generation and a database file of blocks.
//! Opening reads what the files stand for, goes back in each region to its last epoch, and makes the updates of the entries behind it
//! again, all in memory; it writes down what is broken behind the sequence, cuts there, and begins the next generation in each region, so
//! that whatever a crash left past the sequence never counts again. An open site has in memory where each entry's parts stand, and its
//! globals in the blocks of its regions. Entries are committed, which appends the parts of each to the journals of its regions, and
//! hardened together; an epoch writes the blocks that changed to the database files. Whatever a crash leaves at any moment, the files stand
//! for the hardened entries and perhaps the first few of those that were being hardened, each of them whole.
#![tactic(auto)]

mod committing;
mod entering;
mod epochs;
mod error;
mod finding;
mod fitting;
mod following;
mod imaging;
mod laws;
mod layout;
mod memory;
mod needing;
mod opening;
mod preparing;
mod reading;
mod reigning;
mod shipping;
mod showing;
mod site;
mod syncing;

pub use error::SiteError;
pub use finding::in_instance;
pub use laws::nothing_is_left;
pub use layout::{Layout, RegionSpec, layout_of};
pub use memory::Memory;
pub use needing::first_needing;
pub use opening::open_as;
pub use preparing::{FoundFiles, StandingSite, find_files, stand};
pub use reading::read_file;
pub use showing::write_entry;
pub use site::Site;
