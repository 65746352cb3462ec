//! What calls on a site's files answer when they can't do what they are for.
use gvn_key::NoMemory;
use thiserror::Error;

/// Why a call did not do what it is for.
#[derive(Clone, Copy, Debug, PartialEq, Eq, Error)]
pub enum FilesError {
    /// A call of the disk failed, the one of that number on it.
    #[error("call {fault} of the disk failed")]
    Failed { fault: u64 },
    /// There is no generation left for the site's journals.
    #[error("there is no generation left")]
    GenLimit,
    /// A file is outside the formats at that place; with file 0 and offset 0 perhaps the instance file has no record, or a MAP
    /// in it names no region of the site.
    #[error("file {file} is outside its format at {offset}")]
    NotAFile { file: u32, offset: u64 },
    /// There was no memory.
    #[error("out of memory")]
    NoMemory,
}

impl From<NoMemory> for FilesError {
    ghost use Rattle.std.specs.Prelude.{◌≡◌};
    ghost use Rattle.site_files.specs.declared.error.FilesError.TheVariants.{NoMemory};

    ghost from_gives = { λ _ e. e ≡ NoMemory };

    fn from(_: NoMemory) -> Self {
        FilesError::NoMemory
    }
}
