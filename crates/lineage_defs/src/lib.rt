//! Definitions: sites while entries are made, shipped and rolled back, what may happen to them, and
//! what holds whatever happens. There is no code here but laws, each the contract of a function that
//! does nothing.
#![tactic(auto)]

mod cases;

pub use cases::{histories_differ, reigns_begin_once, sequences_disagree, steps_are_refused};
