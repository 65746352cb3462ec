//! What deciding a job answers when it is not done.
use gvn_key::NoMemory;
use thiserror::Error;

/// Why a job was not decided, or is not known to be.
#[derive(Clone, Copy, Debug, PartialEq, Eq, Error)]
pub enum DecideError {
    /// A call of the disk failed: its count of faults has risen.
    #[error("a disk call failed")]
    Failed,
    /// There was no memory.
    #[error("out of memory")]
    NoMemory,
}

impl From<NoMemory> for DecideError {
    ghost use Rattle.std.specs.Prelude.{◌≡◌};
    ghost use Rattle.repl_section.specs.declared.error.DecideError.TheVariants.{NoMemory};

    ghost from_gives = { λ _ e. e ≡ NoMemory };

    fn from(_: NoMemory) -> Self {
        DecideError::NoMemory
    }
}
