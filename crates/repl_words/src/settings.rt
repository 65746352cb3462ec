//! What words ask for.
ghost use Rattle.std.specs.Prelude.{◌≡◌};

use thiserror::Error;

/// What the words behind the program's name ask for.
#[derive(Drop)]
pub enum Words {
    /// A run, over the disks of a folder, or over disks in memory where none is named.
    Run { folder: Option<String> },
}

/// Why words are refused.
#[derive(Clone, Copy, Debug, PartialEq, Eq, Error)]
pub enum WordsError {
    /// They are no command line.
    #[error("no command line")]
    BadWords,
    /// There was no memory.
    #[error("out of memory")]
    NoMemory,
}
