//! Blocks of a database file: sorted cells of encoded keys and values, both ways between memory and bytes.
#![tactic(auto)]

mod block;
mod bytes;
mod cells;
mod error;
mod places;
mod reading;
mod sizes;

pub use block::Block;
pub use error::BlockError;
