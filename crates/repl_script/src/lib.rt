//! Reads a script line by line: its commands, and the line and column of the first fault.
#![tactic(auto)]

mod command;
mod error;
mod fault;
mod forms;
mod orders;
mod parts;
mod places;
mod regions;
mod script;
mod section;

pub use command::Command;
pub use error::ScriptError;
pub use script::Script;
