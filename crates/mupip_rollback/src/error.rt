//! Why a site wasn't rolled back or recovered.
ghost use Rattle.std.specs.Prelude.{◌≡◌};
ghost use Rattle.mupip_rollback.specs.Errors.{IsOfOpening, site_error, files_error};

use gvn_key::NoMemory;
use site_files::FilesError;
use site_store::SiteError;
use thiserror::Error;

/// Why a site was not rolled back, or not recovered.
#[derive(Clone, Copy, Debug, PartialEq, Eq, Error)]
pub enum RollError {
    /// A call of the disk failed, the one of that number on it.
    #[error("call {fault} of the disk failed")]
    Failed { fault: u64 },
    /// The region of that number, from 0 on, needs forward recovery for what is to stay, first for that generation, which keeps no images.
    #[error("region {region} keeps no images in generation {generation}")]
    NoBeforeImage { region: u8, generation: u32 },
    /// The region of that number, from 0 on, is the first that needs forward recovery for all entries.
    #[error("region {region} needs forward recovery")]
    NeedForward { region: u8 },
    /// There is no generation left for the site's journals.
    #[error("there is no generation left")]
    GenLimit,
    /// A file is outside the formats at that place, or the instance file has no record.
    #[error("file {file} is outside its format at {offset}")]
    NotAFile { file: u32, offset: u64 },
    /// There was no memory.
    #[error("out of memory")]
    NoMemory,
}

impl From<NoMemory> for RollError {
    ghost use Rattle.std.specs.Prelude.{◌≡◌};
    ghost use Rattle.mupip_rollback.specs.declared.error.RollError.TheVariants.{NoMemory};

    ghost from_gives = { λ _ e. e ≡ NoMemory };

    fn from(_: NoMemory) -> Self {
        RollError::NoMemory
    }
}

/// An error of an opening or of an epoch.
pub(crate) fn in_site(error: SiteError) -> RollError
    requires { IsOfOpening error }
    ensures { result ≡ site_error error }
{
    match error {
        SiteError::Failed { fault } => RollError::Failed { fault },
        SiteError::GenLimit => RollError::GenLimit,
        SiteError::NeedForward { region } => RollError::NeedForward { region },
        SiteError::NotAFile { file, offset } => RollError::NotAFile { file, offset },
        SiteError::NoMemory => RollError::NoMemory,
        SiteError::Stopped { .. }
        | SiteError::Full { .. }
        | SiteError::SeqLimit
        | SiteError::ReignLimit => unreachable!(),
    }
}

/// An error of the site's files.
pub(crate) fn in_files(error: FilesError) -> RollError
    ensures { result ≡ files_error error }
{
    match error {
        FilesError::Failed { fault } => RollError::Failed { fault },
        FilesError::GenLimit => RollError::GenLimit,
        FilesError::NotAFile { file, offset } => RollError::NotAFile { file, offset },
        FilesError::NoMemory => RollError::NoMemory,
    }
}
