//! Laws of whole runs.
//!
//! Each function does nothing: its contract states laws over the definitions of `world_defs` and `world_laws`, for all worlds, commands and
//! answers. A crate that needs one of them calls its function.
#![tactic(auto)]

pub mod entries;
pub mod epochs;
pub mod faults;
pub mod leftovers;
pub mod needs;
pub mod rollbacks;
