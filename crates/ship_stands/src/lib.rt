//! Small stand-ins for the two sites of a session: a primary whose entries are all alike, and a secondary that keeps no nodes.
//!
//! They are for tests and measures. Neither one's memory grows with what is shipped, but for the secondary's reigns.
#![tactic(auto)]

mod histories;
mod primary;
mod site;
mod story;
mod transactions;

pub use histories::{Record, StandError, history};
pub use primary::{Primary, Unread};
pub use site::{Site, Stopped};
pub use transactions::apply_some;
