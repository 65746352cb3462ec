//! Gated files: records behind gate bytes, of which a crash leaves a prefix.
//!
//! A record is appended behind a closed gate, synced, and only then is its gate opened. So whatever a crash leaves, the
//! file stands for its hardened records and perhaps the first few of those that were being opened.
#![tactic(auto)]

mod attach;
mod error;
mod gated;
mod read;

pub use attach::{see_gates, sync_file};
pub use error::GateError;
pub use gated::Gated;
