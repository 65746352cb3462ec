//! Blocks as they were before a change: which were logged since an epoch, and what undoing gives.
#![tactic(auto)]

mod error;
mod imaged;
mod laws;
mod undo;

pub use error::ImageError;
pub use imaged::{Imaged, Log};
pub use laws::{knowing_holds, undo_holds, undoing_holds};
pub use undo::Undo;
