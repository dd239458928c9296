//! Why a call of the system has no answer.

ghost use Rattle.std.specs.Prelude.{◌≡◌};
ghost use Rattle.tree_std.specs.declared.trouble.Trouble.TheVariants.{OutOfMemory};

use std::alloc::{AllocError, AllocFailed};
use std::io;
use std::io::ErrorKind;

/// Why a call of the system has no answer.
#[derive(Clone, Copy, Debug, PartialEq, Eq)]
pub enum Trouble {
    /// Nothing is at the path, or its name is longer than the system has names.
    Absent,
    /// Memory ran out.
    OutOfMemory,
    /// The system failed.
    Failed,
}

impl From<io::Error> for Trouble {
    ghost use Rattle.std.specs.IoError.{error_kind};
    ghost use Rattle.tree_std.specs.Reading.{trouble_of};

    ghost from_gives = { λ error e. e ≡ trouble_of (error_kind error) };

    fn from(error: io::Error) -> Trouble {
        match error.kind() {
            ErrorKind::NotFound
            | ErrorKind::NotADirectory
            | ErrorKind::FilesystemLoop
            | ErrorKind::InvalidFilename => Trouble::Absent,
            ErrorKind::OutOfMemory => Trouble::OutOfMemory,
            _ => Trouble::Failed,
        }
    }
}

impl From<AllocError> for Trouble {
    ghost from_gives = { λ _ e. e ≡ OutOfMemory };

    fn from(_error: AllocError) -> Trouble {
        Trouble::OutOfMemory
    }
}

impl<T: Drop> From<AllocFailed<T>> for Trouble {
    ghost from_gives = { λ _ e. e ≡ OutOfMemory };

    fn from(_error: AllocFailed<T>) -> Trouble {
        Trouble::OutOfMemory
    }
}
