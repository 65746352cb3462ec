//! What a site's calls answer when they can't do what they are for.
use gvn_key::NoMemory;
use region_store::RegionError;
use site_files::FilesError;
use thiserror::Error;

/// Why a call of a site did not do what it is for.
#[derive(Clone, Copy, Debug, PartialEq, Eq, Error)]
pub enum SiteError {
    /// A call of the disk failed, the one of that number on it.
    #[error("call {fault} of the disk failed")]
    Failed { fault: u64 },
    /// A call before failed, the one of that number on the disk.
    #[error("call {fault} of the disk failed before")]
    Stopped { fault: u64 },
    /// More nodes would stand after one of the updates than there may be.
    #[error("{nodes} nodes are more than there may be")]
    Full { nodes: u32 },
    /// The sequence has as many entries as there may be.
    #[error("there is no number left for an entry")]
    SeqLimit,
    /// There is no generation left for the site's journals.
    #[error("there is no generation left")]
    GenLimit,
    /// There is no reign left, or no cycle.
    #[error("there is no reign left")]
    ReignLimit,
    /// The region of that number, from 0 on, is the first that needs forward recovery for all entries: a generation of it that keeps no
    /// images has a record behind its last epoch.
    #[error("region {region} needs forward recovery")]
    NeedForward { region: u8 },
    /// A file is outside the formats at that place, or the instance file has no record.
    #[error("file {file} is outside its format at {offset}")]
    NotAFile { file: u32, offset: u64 },
    /// There was no memory.
    #[error("out of memory")]
    NoMemory,
}

impl From<NoMemory> for SiteError {
    ghost use Rattle.std.specs.Prelude.{◌≡◌};
    ghost use Rattle.site_store.specs.declared.error.SiteError.TheVariants.{NoMemory};

    ghost from_gives = { λ _ e. e ≡ NoMemory };

    fn from(_: NoMemory) -> Self {
        SiteError::NoMemory
    }
}

impl From<FilesError> for SiteError {
    ghost use Rattle.std.specs.Prelude.{◌≡◌};
    ghost use Rattle.site_store.specs.Errors.{files_error};

    ghost from_gives = { λ x e. e ≡ files_error x };

    fn from(error: FilesError) -> Self {
        match error {
            FilesError::Failed { fault } => SiteError::Failed { fault },
            FilesError::GenLimit => SiteError::GenLimit,
            FilesError::NotAFile { file, offset } => SiteError::NotAFile { file, offset },
            FilesError::NoMemory => SiteError::NoMemory,
        }
    }
}

impl From<RegionError> for SiteError {
    ghost use Rattle.std.specs.Prelude.{◌≡◌};
    ghost use Rattle.site_store.specs.Errors.{region_error};

    ghost from_gives = { λ x e. e ≡ region_error x };

    fn from(error: RegionError) -> Self {
        match error {
            RegionError::Failed { fault } => SiteError::Failed { fault },
            RegionError::NotAFile { file, offset } => SiteError::NotAFile { file, offset },
            RegionError::NoMemory => SiteError::NoMemory,
        }
    }
}
