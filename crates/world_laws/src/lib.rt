//! Laws of worlds.
//!
//! Each function does nothing: its contract states laws over the definitions of `world_defs` alone, for all worlds, commands and
//! answers. A crate that needs one of them calls its function.
#![tactic(auto)]

pub mod beginnings;
pub mod epochs;
pub mod fitness;
pub mod leftovers;
pub mod needs;
pub mod settling;
