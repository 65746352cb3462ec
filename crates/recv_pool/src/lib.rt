//! The receive pool: entries on their way from a Receiver Server to an Update Process, in order, over a ring of a fixed size.
//!
//! The two ends may be in two threads. What is taken is of its form, without a look at the other end.
#![tactic(auto)]

mod arrived;
mod pool;

pub use arrived::{Arrived, OfForm};
pub use pool::{PoolIn, PoolOut, beside, make, show};
