//! What opening answers where blocks hold no globals.
use gvn_key::NoMemory;
use std::alloc::{AllocError, AllocFailed};
use thiserror::Error;

/// Why blocks hold no globals.
#[derive(Clone, Copy, Debug, PartialEq, Eq, Error)]
pub enum ChainError {
    /// The chain of leaves breaks at this block: it isn't there, or it has no cells behind the first one, or its first key isn't past
    /// those before it.
    #[error("the chain of leaves breaks at block {block}")]
    Broken { block: u32 },
    /// There was no memory.
    #[error("out of memory")]
    NoMemory,
}

impl From<NoMemory> for ChainError {
    ghost use Rattle.std.specs.Prelude.{◌≡◌};
    ghost use Rattle.gvt_leaf.specs.declared.error.ChainError.TheVariants.{NoMemory};

    ghost from_gives = { λ _ e. e ≡ NoMemory };

    fn from(_: NoMemory) -> Self {
        ChainError::NoMemory
    }
}

impl From<AllocError> for ChainError {
    ghost use Rattle.std.specs.Prelude.{◌≡◌};
    ghost use Rattle.gvt_leaf.specs.declared.error.ChainError.TheVariants.{NoMemory};

    ghost from_gives = { λ _ e. e ≡ NoMemory };

    fn from(_: AllocError) -> Self {
        ChainError::NoMemory
    }
}

impl<T: Drop> From<AllocFailed<T>> for ChainError {
    ghost use Rattle.std.specs.Prelude.{◌≡◌};
    ghost use Rattle.gvt_leaf.specs.declared.error.ChainError.TheVariants.{NoMemory};

    ghost from_gives = { λ _ e. e ≡ NoMemory };

    fn from(_: AllocFailed<T>) -> Self {
        ChainError::NoMemory
    }
}
