//! Definitions: a script's statements as text. There is no code here but laws, each the contract of a function that does
//! nothing.
#![tactic(auto)]

mod statements;
mod vectors;

pub use statements::statements_are_read_as_spelled;
pub use vectors::statements_hold;
