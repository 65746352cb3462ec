//! Why entries can't be told.
ghost use Rattle.std.specs.Prelude.{◌≡◌};
ghost use Rattle.entry_index.specs.Errors.{error_in};

use gvn_key::NoMemory;
use jnl_file::JournalError;
use thiserror::Error;

/// Why building an index, or reading an entry by it, gave up.
#[derive(Clone, Copy, Debug, PartialEq, Eq, Error)]
pub enum IndexError {
    /// A call of the disk failed: its count of faults has risen.
    #[error("a disk call failed")]
    Failed,
    /// At this place of this file, in bytes from its start, doesn't stand the part of an entry that should.
    #[error("file {file} has not the part of an entry at {offset}")]
    NotAFile { file: u32, offset: u64 },
    /// There was no memory.
    #[error("out of memory")]
    NoMemory,
}

impl From<NoMemory> for IndexError {
    ghost use Rattle.std.specs.Prelude.{◌≡◌};
    ghost use Rattle.entry_index.specs.declared.error.IndexError.TheVariants.{NoMemory};

    ghost from_gives = { λ _ e. e ≡ NoMemory };

    fn from(_: NoMemory) -> Self {
        IndexError::NoMemory
    }
}

/// An error of the journal in this file.
pub fn in_file(file: u32, error: JournalError) -> IndexError
    ensures { result ≡ error_in file error }
{
    match error {
        JournalError::Failed => IndexError::Failed,
        JournalError::NotARecord { offset } => IndexError::NotAFile { file, offset },
        JournalError::NoMemory => IndexError::NoMemory,
    }
}
