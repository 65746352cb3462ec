//! A site's newest journals and regions on blocks, brought to an epoch together.
//!
//! # What it keeps
//!
//! - [`take_epoch`] logs the images that each region needs, hardens them, writes the regions' changed blocks out, and hardens an EPOCH of
//!   each region. Whatever a crash leaves at any moment, the files stand for the same entries.
//! - [`log_first_image`] appends the image of one block to its region's journal ahead of that, when the block is about to change first.
//!
//! # Modules
//!
//! `epoch` is the whole call. `images` is the list of images that wait for a journal, `imaging` logs them in all regions and
//! `logging` one of them, `flushing` writes all regions out and `closing` ends the epoch before.
#![tactic(auto)]

mod closing;
mod epoch;
mod error;
mod flushing;
mod images;
mod imaging;
mod logging;

pub use epoch::take_epoch;
pub use error::EpochError;
pub use logging::log_first_image;
