//! Lines of a source, which is read ahead in pieces of 4,096 bytes.
#![tactic(auto)]

mod ahead;
mod line;

pub use ahead::ReadAhead;
pub use line::{LineEnd, LineError};
