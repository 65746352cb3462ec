//! What reading a block answers where it is none.
use gvn_key::NoMemory;
use std::alloc::AllocError;
use thiserror::Error;

/// Why bytes gave no block.
#[derive(Clone, Copy, Debug, PartialEq, Eq, Error)]
pub enum BlockError {
    /// These are the bytes of no block. The offset is where they stand, as the caller told it.
    #[error("no block at {offset}")]
    NotABlock { offset: u64 },
    /// There was no memory.
    #[error("out of memory")]
    NoMemory,
}

impl From<NoMemory> for BlockError {
    ghost use Rattle.std.specs.Prelude.{◌≡◌};
    ghost use Rattle.block_fmt.specs.declared.error.BlockError.TheVariants.{NoMemory};

    ghost from_gives = { λ _ e. e ≡ NoMemory };

    fn from(_: NoMemory) -> Self {
        BlockError::NoMemory
    }
}

impl From<AllocError> for BlockError {
    ghost use Rattle.std.specs.Prelude.{◌≡◌};
    ghost use Rattle.block_fmt.specs.declared.error.BlockError.TheVariants.{NoMemory};

    ghost from_gives = { λ _ e. e ≡ NoMemory };

    fn from(_: AllocError) -> Self {
        BlockError::NoMemory
    }
}
