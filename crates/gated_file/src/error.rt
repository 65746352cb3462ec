//! What the calls of a gated file answer where they can't do their work.
use gvn_key::NoMemory;
use repl_disk::Failed;
use thiserror::Error;

/// Why a call of a gated file gave up.
#[derive(Clone, Copy, Debug, PartialEq, Eq, Error)]
pub enum GateError {
    /// A call of the disk failed: its count of faults has risen.
    #[error("a disk call failed")]
    Failed,
    /// At this place, in bytes from the file's start, stands an open gate whose length is out of range, or whose body and
    /// next gate pass the file's end.
    #[error("no record at {offset}")]
    NotARecord { offset: u64 },
    /// There was no memory.
    #[error("out of memory")]
    NoMemory,
}

impl From<Failed> for GateError {
    ghost use Rattle.std.specs.Prelude.{◌≡◌};
    ghost use Rattle.gated_file.specs.declared.error.GateError.TheVariants.{Failed};

    ghost from_gives = { λ _ e. e ≡ Failed };

    fn from(_: Failed) -> Self {
        GateError::Failed
    }
}

impl From<NoMemory> for GateError {
    ghost use Rattle.std.specs.Prelude.{◌≡◌};
    ghost use Rattle.gated_file.specs.declared.error.GateError.TheVariants.{NoMemory};

    ghost from_gives = { λ _ e. e ≡ NoMemory };

    fn from(_: NoMemory) -> Self {
        GateError::NoMemory
    }
}
