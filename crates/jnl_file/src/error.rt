//! What the calls of a journal answer where they can't do their work.
use gated_file::GateError;
use gvn_key::NoMemory;
use jnl_record::RecordError;
use thiserror::Error;

/// Why a call of a journal gave up.
#[derive(Clone, Copy, Debug, PartialEq, Eq, Error)]
pub enum JournalError {
    /// A call of the disk failed: its count of faults has risen.
    #[error("a disk call failed")]
    Failed,
    /// At this place, in bytes from the file's start, stands no gate of the format, or a body that is no record's or that
    /// of a record that can't stand there.
    #[error("no record of the journal at {offset}")]
    NotARecord { offset: u64 },
    /// There was no memory.
    #[error("out of memory")]
    NoMemory,
}

impl From<GateError> for JournalError {
    ghost use Rattle.std.specs.Prelude.{◌≡◌};
    ghost use Rattle.jnl_file.specs.Errors.{gate_error};

    ghost from_gives = { λ given e. e ≡ gate_error given };

    fn from(error: GateError) -> Self {
        match error {
            GateError::Failed => JournalError::Failed,
            GateError::NotARecord { offset } => JournalError::NotARecord { offset },
            GateError::NoMemory => JournalError::NoMemory,
        }
    }
}

impl From<RecordError> for JournalError {
    ghost use Rattle.std.specs.Prelude.{◌≡◌};
    ghost use Rattle.jnl_file.specs.Errors.{record_error};

    ghost from_gives = { λ given e. e ≡ record_error given };

    fn from(error: RecordError) -> Self {
        match error {
            RecordError::NotARecord { offset } => JournalError::NotARecord { offset },
            RecordError::NoMemory => JournalError::NoMemory,
        }
    }
}

impl From<NoMemory> for JournalError {
    ghost use Rattle.std.specs.Prelude.{◌≡◌};
    ghost use Rattle.jnl_file.specs.declared.error.JournalError.TheVariants.{NoMemory};

    ghost from_gives = { λ _ e. e ≡ NoMemory };

    fn from(_: NoMemory) -> Self {
        JournalError::NoMemory
    }
}

/// Why reading a region's journals gave up.
#[derive(Clone, Copy, Debug, PartialEq, Eq, Error)]
pub enum GenerationsError {
    /// A call of the disk failed: its count of faults has risen.
    #[error("a disk call failed")]
    Failed,
    /// At this place of this file, in bytes from its start, stands no gate of the format, or a body that is no record's or
    /// that of a record that can't stand there.
    #[error("file {file} is no journal at {offset}")]
    NotAFile { file: u32, offset: u64 },
    /// There was no memory.
    #[error("out of memory")]
    NoMemory,
}
