//! What a primary and a secondary say on a connection: definitions, and what they come to on small connections.
#![tactic(auto)]

mod cases;

pub use cases::{
    connections_end, entries_arrive, frames_are_in_order, reigns_are_announced,
    secondaries_are_answered,
};
