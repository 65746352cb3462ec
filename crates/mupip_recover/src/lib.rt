//! What the open records of a site stand for: its sequence of entries.
//!
//! Nothing here reads a disk. The records come as lists: those of the instance file, and those of each region's journals.
#![tactic(auto)]

mod broken;
mod completing;
mod cuts;
mod epoch;
mod forward;
mod minima;
mod part;
mod recovering;
mod slots;
mod stamps;
mod surviving;
mod table;

pub use broken::write_broken;
pub use completing::transaction_at;
pub use cuts::Cuts;
pub use epoch::{EpochAt, chosen_epoch};
pub use forward::first_without;
pub use part::Part;
pub use recovering::recover;
pub use stamps::{stamp_at, starts_of};
pub use surviving::survives;
pub use table::Table;
