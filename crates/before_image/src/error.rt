//! What logging an image answers where it can't.
use gvn_key::NoMemory;
use repl_disk::Failed;
use thiserror::Error;

/// Why an image wasn't logged.
#[derive(Clone, Copy, Debug, PartialEq, Eq, Error)]
pub enum ImageError {
    /// A call of the disk failed: its count of faults has risen.
    #[error("a disk call failed")]
    Failed,
    /// There was no memory.
    #[error("out of memory")]
    NoMemory,
}

impl From<Failed> for ImageError {
    ghost use Rattle.std.specs.Prelude.{◌≡◌};
    ghost use Rattle.before_image.specs.declared.error.ImageError.TheVariants.{Failed};

    ghost from_gives = { λ _ e. e ≡ Failed };

    fn from(_: Failed) -> Self {
        ImageError::Failed
    }
}

impl From<NoMemory> for ImageError {
    ghost use Rattle.std.specs.Prelude.{◌≡◌};
    ghost use Rattle.before_image.specs.declared.error.ImageError.TheVariants.{NoMemory};

    ghost from_gives = { λ _ e. e ≡ NoMemory };

    fn from(_: NoMemory) -> Self {
        ImageError::NoMemory
    }
}
