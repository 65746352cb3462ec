//! Definitions: what a site takes of another one's entries, and what a fault leaves of that. There is no code here but laws, each the contract of a
//! function that does nothing.
#![tactic(auto)]

mod laws;

pub use laws::{reigns_begin_apart, taking_goes_on};
