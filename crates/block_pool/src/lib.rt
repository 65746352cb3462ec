//! The blocks of a database file by their numbers, with marks of those that may differ from the file.
#![tactic(auto)]

mod error;
mod pool;

pub use error::PoolError;
pub use pool::BlockPool;
