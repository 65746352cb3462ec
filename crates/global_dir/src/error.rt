//! Why a pattern isn't mapped.
use gvn_key::NoMemory;
use thiserror::Error;

/// Why a pattern isn't mapped: the first cause in this order, or want of memory.
#[derive(Clone, Copy, Debug, PartialEq, Eq, Error)]
pub enum DirError {
    /// The text is no global's name of at most 31 characters with perhaps one star behind it.
    #[error("not a name, nor a name and a star")]
    BadPattern,
    /// No region has that number.
    #[error("there is no such region")]
    NoRegion,
    /// The pattern has a region already.
    #[error("the pattern is mapped already")]
    TwiceMapped,
    /// There was no memory.
    #[error("out of memory")]
    NoMemory,
}

impl From<NoMemory> for DirError {
    ghost use Rattle.std.specs.Prelude.{◌≡◌};
    ghost use Rattle.global_dir.specs.declared.error.DirError.TheVariants.{NoMemory};

    ghost from_gives = { λ _ e. e ≡ NoMemory };

    fn from(_: NoMemory) -> Self {
        DirError::NoMemory
    }
}
