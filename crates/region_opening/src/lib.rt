//! The regions of a site are opened for a target, as the signs of its records and the index of its entries say.
//!
//! # What it keeps
//!
//! - [`open_regions`] takes each region back to the epoch that its journals have chosen for the target, in memory alone, and makes the
//!   updates of the entries behind it up to the target. A region that needs forward recovery begins empty, and all of these updates
//!   are made.
//! - On a site that is sound the regions have the parts of the state of the entries up to the target. Where the blocks of a region are
//!   outside the format, or hold nodes that can't be its own, it is told by its file and place.
//! - [`rebuild_regions`] makes them anew from the entries alone, and reads no block.
//! - [`first_without_images`] tells the first region that needs forward recovery for the target, and by which generation.
//! - [`chosen_epoch`] and [`first_without`] choose an epoch, and a generation without images behind it, by the signs of a region's records.
//!
//! # Modules
//!
//! `epoch` and `forward` choose by signs, and `starting` says from where a region is opened. `images` reads the images behind that place,
//! `checking` says whether the nodes there may be the region's own. `entries` reads entries, and `replaying` makes their updates. `opening`
//! opens one region and all of them, and `rebuilding` all of them anew. `needing` looks for one that needs forward recovery.
#![tactic(auto)]

mod checking;
mod entries;
mod epoch;
mod forward;
mod images;
mod needing;
mod opening;
mod rebuilding;
mod replaying;
mod starting;

pub use epoch::{EpochAt, chosen_epoch};
pub use forward::first_without;
pub use needing::{WithoutImages, first_without_images};
pub use opening::open_regions;
pub use rebuilding::rebuild_regions;
