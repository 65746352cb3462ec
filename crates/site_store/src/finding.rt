//! Errors of the instance file.
ghost use Rattle.std.specs.Prelude.{◌≡◌};
ghost use Rattle.site_store.specs.Errors.{instance_error};

use crate::error::SiteError;
use instance_file::InstanceError;

/// An error of the instance file, on a disk with this count of faults.
pub fn in_instance(error: InstanceError, fault: u64) -> SiteError
    ensures { result ≡ instance_error fault error }
{
    match error {
        InstanceError::Failed => SiteError::Failed { fault },
        InstanceError::NotARecord { offset } => SiteError::NotAFile { file: 0, offset },
        InstanceError::NoMemory => SiteError::NoMemory,
    }
}
