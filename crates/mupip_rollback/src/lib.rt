//! Rolling a site back to its first entries, and recovering it backward or forward (GT.M: MUPIP JOURNAL -ROLLBACK and -RECOVER).
//!
//! # What it keeps
//!
//! - [`rollback`] leaves the first entries of a site that is down, and the extract of the others in a lost-transaction file. Whatever a
//!   crash leaves at any moment, the files stand for all entries, or for those that stay with the file whole.
//! - [`recover_backward`] opens a site and closes it again: what is broken behind its entries is written down, and each region has an
//!   epoch of all of them. It refuses where a region needs forward recovery.
//! - [`recover_forward`] does so with blocks that are made anew from all entries.
//! - [`fetchresync`] rolls a site back to what it shares with a primary, by the primary's answer.
//! - [`set_mode`] sets how a region of a site that is down is journaled from its next generation on.
#![tactic(auto)]

mod cutting;
mod error;
mod preparing;
mod recovering;
mod resyncing;
mod rolling;
mod setting;

pub use error::RollError;
pub use recovering::{recover_backward, recover_forward};
pub use resyncing::fetchresync;
pub use rolling::{Rolled, rollback};
pub use setting::{set_mode, set_mode_logged};
