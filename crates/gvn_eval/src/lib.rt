//! What a job does on globals: each statement on what the earlier ones have left.
#![tactic(auto)]

mod evaluation;
mod progress;
mod sets;

pub use evaluation::{eval, eval_owned};
