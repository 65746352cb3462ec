//! Globals as a map from keys in M collation, and what a job sees of them.
#![tactic(auto)]

mod globals;
mod lookup;
mod overlay;
mod together;
mod undoing;

pub use globals::{Globals, Listed};
pub use lookup::Lookup;
pub use overlay::Overlay;
