//! Where bytes come from and go to, over memory and over std's readers and writers.
//!
//! Each stream counts its faults. A call answers [`Failed`] only where that count rose in it, so
//! whoever reports a failure can name its cause.
#![tactic(auto)]

mod memory;
mod standard;
mod stream;

pub use memory::{MemSink, MemSource};
pub use standard::{StdSink, StdSource};
pub use stream::{Failed, NoMemory, Sink, Source};
