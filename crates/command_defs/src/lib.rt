//! Definitions: a script's lines and the commands that they spell. There is no code here but laws, each the contract of a
//! function that does nothing.
#![tactic(auto)]

mod laws;
mod vectors;

pub use laws::{
    blank_lines_and_comments_are_ignored, commands_are_read_as_spelled, commands_are_whole,
    ends_are_ignored, sections_are_read_as_spelled,
};
pub use vectors::{commands_hold, lines_hold, sections_hold, transactions_hold};
