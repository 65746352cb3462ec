//! The words behind the program's name: which are a command line, and what they ask for.
#![tactic(auto)]

mod grammar;
mod laws;
mod reading;
mod settings;

pub use grammar::is_command_line;
pub use laws::words_are_read_as_asked;
pub use reading::words;
pub use settings::{Words, WordsError};
