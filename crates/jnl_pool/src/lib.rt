//! The journal pool: a circular buffer of entries. The writer puts entries without waiting for any reader; a reader reads
//! without a lock, and one load of the claimed count tells it whether what it copied had been overwritten.
#![tactic(auto)]

pub mod answer;
pub mod pool;
pub mod reader;
pub mod writer;

pub use answer::ReadAnswer;
pub use pool::Pool;
pub use pool_rule::table::NoMemory;
pub use reader::Reader;
pub use writer::Writer;
