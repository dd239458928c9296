//! Why a document is no manifest.

ghost use Rattle.std.specs.Prelude.{◌≡◌};
ghost use Rattle.manifest_read.specs.declared.fault.FieldFault.TheVariants.{OutOfMemory};

use path_name::{Name, Text};
use std::alloc::{AllocError, AllocFailed};
use thiserror::Error;

/// Why a document is no manifest, or no entry of a lock. Places are JSON pointers (RFC 6901).
#[derive(Debug, PartialEq, Eq, Drop, Error)]
pub enum FieldFault {
    /// The value there has another form than its key asks for, or a key that must be there is missing.
    #[error("a bad field")]
    BadField(Text),
    /// What is written there means something that isn't offered.
    #[error("not offered")]
    NotOffered(Text),
    /// A package has this name, at whose place in `vendor` other files are written.
    #[error("a reserved name")]
    ReservedName(Name),
    /// There was no memory for the answer.
    #[error("out of memory")]
    OutOfMemory,
}

impl From<AllocError> for FieldFault {
    ghost from_gives = { λ _ e. e ≡ OutOfMemory };

    fn from(_fault: AllocError) -> FieldFault {
        FieldFault::OutOfMemory
    }
}

impl<T: Drop> From<AllocFailed<T>> for FieldFault {
    ghost from_gives = { λ _ e. e ≡ OutOfMemory };

    fn from(_fault: AllocFailed<T>) -> FieldFault {
        FieldFault::OutOfMemory
    }
}
