//! What the calls of an instance file answer where they can't do their work.
use gated_file::GateError;
use gvn_key::NoMemory;
use thiserror::Error;

/// Why a call of an instance file gave up.
#[derive(Clone, Copy, Debug, PartialEq, Eq, Error)]
pub enum InstanceError {
    /// A call of the disk failed: its count of faults has risen.
    #[error("a disk call failed")]
    Failed,
    /// At this place, in bytes from the file's start, stands no gate of the format, or a body that is no record's or that
    /// of a record that can't stand there.
    #[error("no record of the instance file at {offset}")]
    NotARecord { offset: u64 },
    /// There was no memory.
    #[error("out of memory")]
    NoMemory,
}

impl From<GateError> for InstanceError {
    ghost use Rattle.std.specs.Prelude.{◌≡◌};
    ghost use Rattle.instance_file.specs.Errors.{gate_error};

    ghost from_gives = { λ given e. e ≡ gate_error given };

    fn from(error: GateError) -> Self {
        match error {
            GateError::Failed => InstanceError::Failed,
            GateError::NotARecord { offset } => InstanceError::NotARecord { offset },
            GateError::NoMemory => InstanceError::NoMemory,
        }
    }
}

impl From<NoMemory> for InstanceError {
    ghost use Rattle.std.specs.Prelude.{◌≡◌};
    ghost use Rattle.instance_file.specs.declared.error.InstanceError.TheVariants.{NoMemory};

    ghost from_gives = { λ _ e. e ≡ NoMemory };

    fn from(_: NoMemory) -> Self {
        InstanceError::NoMemory
    }
}
