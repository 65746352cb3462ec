//! Laws of shipping: a direction's bytes have one place at most where they are bad, what a primary sends as bytes are its frames, and the
//! entries of what was received are the first of those that were sent.
//!
//! Each function does nothing: its contract states laws over the definitions of `ship_defs`. A crate that needs one of them calls its
//! function.
#![tactic(auto)]

mod entries;
mod places;
mod shipped;

pub use entries::{bytes_are_frames, entries_once, prefixes};
pub use places::{grows, not_both, one_place};
pub use shipped::shipped_is_admitted;
