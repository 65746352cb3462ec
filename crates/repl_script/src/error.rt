//! Why lines are no script.
use thiserror::Error;

/// Why lines are no script.
#[derive(Clone, Copy, Debug, PartialEq, Eq, Error)]
pub enum ScriptError {
    /// The line of that number, from 1, is the first that is outside the grammar. The column, from 1, is that of the first byte
    /// of the first part that is missing, is too much, or isn't of its form or within its limits.
    #[error("line {line} is bad at column {column}")]
    BadLine { line: u32, column: u32 },
    /// There are more than 100,000 lines.
    #[error("the script is too long")]
    ScriptTooLong,
    /// There was no memory.
    #[error("out of memory")]
    NoMemory,
}
