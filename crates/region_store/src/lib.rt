//! The globals of a site on the blocks of its database files: one region's part, and all regions seen as one map.
//!
//! # What it keeps
//!
//! - [`Region::open`] goes back to an epoch: it lays the oldest images behind the epoch over the file's blocks, in memory alone, and
//!   makes the updates of the entries behind the epoch. It writes nothing.
//! - A block whose leaf may differ from the file is marked. [`Region::apply`] marks the blocks that it changes, and makes a list of
//!   updates whole or not at all.
//! - [`Regions`] answers as the map of all nodes does, by asking the region of a name alone, which the global directory gives it.
//! - [`Regions::reserve`] takes the memory for a list of updates in each region, and [`Regions::make`] makes each update in the region of
//!   its name without memory.
//! - [`Regions::log_changed`], [`Regions::mark_logged`], [`Regions::flush`] and [`Regions::begin_epoch`] bring one region from an epoch
//!   to the next, and leave the others.
//!
//! # Modules
//!
//! `reading` reads blocks as they stood at an epoch. `region` is a region and `flushing` its steps of writing out. `laws` says what
//! blocks say of its globals, and what comes back of a file that was written in part. `regions` is the regions of a site, `counting`
//! counts nodes and SETs in them, and `merging` puts their lists together.
#![tactic(auto)]

mod counting;
mod error;
mod flushing;
mod laws;
mod merging;
mod reading;
mod region;
mod regions;

pub use error::RegionError;
pub use laws::{flushing_holds, outside_holds};
pub use region::Region;
pub use regions::Regions;
