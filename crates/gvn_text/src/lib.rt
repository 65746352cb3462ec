//! Statements of a job as text, both ways.
#![tactic(auto)]

mod fault;
mod levels;
mod parts;
mod read;
mod values;
mod write;

pub use fault::{Fault, TextError};
pub use read::{read_located, read_statement};
pub use write::write_statement;
