//! Why a text is no version.

ghost use Rattle.std.specs.Prelude.{◌≡◌};
ghost use Rattle.version_norm.specs.declared.fault.VersionFault.TheVariants.{OutOfMemory};

use std::alloc::{AllocError, AllocFailed};
use thiserror::Error;

/// Why a text is no version.
#[derive(Clone, Copy, Debug, PartialEq, Eq, Error)]
pub enum VersionFault {
    /// The text is a date, as `2010-01-02`.
    #[error("a date is no version")]
    DateVersion,
    /// The text is neither a version nor a date.
    #[error("not a version")]
    NotAVersion,
    /// There was no memory for the answer.
    #[error("out of memory")]
    OutOfMemory,
}

impl From<AllocError> for VersionFault {
    ghost from_gives = { λ _ e. e ≡ OutOfMemory };

    fn from(_fault: AllocError) -> VersionFault {
        VersionFault::OutOfMemory
    }
}

impl<T: Drop> From<AllocFailed<T>> for VersionFault {
    ghost from_gives = { λ _ e. e ≡ OutOfMemory };

    fn from(_fault: AllocFailed<T>) -> VersionFault {
        VersionFault::OutOfMemory
    }
}
