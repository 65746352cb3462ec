//! How far two sites' sequences are the same, found from their reigns alone, and what holds of sites
//! while entries are made, shipped and rolled back.
//!
//! [`common`] is the one call with code. Each other function does nothing: its contract states laws
//! over the definitions of `lineage_defs` alone, for all worlds and all events. A crate that needs one
//! of them calls its function.
#![tactic(auto)]

mod beginnings;
mod histories;
mod lineage;
mod outcomes;
mod reigns;
mod resync;
mod rows;
mod runs;

pub use beginnings::worlds_begin_fit;
pub use histories::histories_hold;
pub use lineage::lineage_holds;
pub use outcomes::outcomes_hold;
pub use reigns::{reigns_hold, stamps_hold};
pub use resync::common;
pub use rows::{parting_holds, switch_holds};
pub use runs::{runs_hold, steps_hold};
