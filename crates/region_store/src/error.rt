//! What the calls of a region answer where they can't.
use gvn_key::NoMemory;
use thiserror::Error;

/// Why a region's call failed.
#[derive(Clone, Copy, Debug, PartialEq, Eq, Error)]
pub enum RegionError {
    /// A call of the disk failed, and this is its count of faults since.
    #[error("a disk call failed: fault {fault}")]
    Failed { fault: u64 },
    /// The block at this offset of the database file is outside the format.
    #[error("file {file} is outside the format at {offset}")]
    NotAFile { file: u32, offset: u64 },
    /// There was no memory.
    #[error("out of memory")]
    NoMemory,
}

impl From<NoMemory> for RegionError {
    ghost use Rattle.std.specs.Prelude.{◌≡◌};
    ghost use Rattle.region_store.specs.declared.error.RegionError.TheVariants.{NoMemory};

    ghost from_gives = { λ _ e. e ≡ NoMemory };

    fn from(_: NoMemory) -> Self {
        RegionError::NoMemory
    }
}
