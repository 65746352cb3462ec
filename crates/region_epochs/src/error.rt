//! Why no epoch was taken.
use gvn_key::NoMemory;
use jnl_file::JournalError;
use region_store::RegionError;
use thiserror::Error;

/// Why a site wasn't brought to an epoch.
#[derive(Clone, Copy, Debug, PartialEq, Eq, Error)]
pub enum EpochError {
    /// A call of the disk failed: its count of faults has risen.
    #[error("a disk call failed")]
    Failed,
    /// There was no memory.
    #[error("out of memory")]
    NoMemory,
}

impl From<JournalError> for EpochError {
    ghost use Rattle.std.specs.Prelude.{◌≡◌};
    ghost use Rattle.region_epochs.specs.Errors.{from_journal};

    ghost from_gives = { λ given e. e ≡ from_journal given };

    fn from(error: JournalError) -> Self {
        match error {
            JournalError::Failed | JournalError::NotARecord { .. } => EpochError::Failed,
            JournalError::NoMemory => EpochError::NoMemory,
        }
    }
}

impl From<RegionError> for EpochError {
    ghost use Rattle.std.specs.Prelude.{◌≡◌};
    ghost use Rattle.region_epochs.specs.Errors.{from_region};

    ghost from_gives = { λ given e. e ≡ from_region given };

    fn from(error: RegionError) -> Self {
        match error {
            RegionError::Failed { .. } | RegionError::NotAFile { .. } => EpochError::Failed,
            RegionError::NoMemory => EpochError::NoMemory,
        }
    }
}

impl From<NoMemory> for EpochError {
    ghost use Rattle.std.specs.Prelude.{◌≡◌};
    ghost use Rattle.region_epochs.specs.declared.error.EpochError.TheVariants.{NoMemory};

    ghost from_gives = { λ _ e. e ≡ NoMemory };

    fn from(_: NoMemory) -> Self {
        EpochError::NoMemory
    }
}
