//! Why a text is no path.

ghost use Rattle.std.specs.Prelude.{◌≡◌};
ghost use Rattle.path_name.specs.declared.fault.PathFault.TheVariants.{OutOfMemory};

use std::alloc::{AllocError, AllocFailed};
use thiserror::Error;

/// Why a text is no path, or a folder can't be resolved. Places count bytes of the text from 0.
#[derive(Clone, Copy, Debug, PartialEq, Eq, Error)]
pub enum PathFault {
    /// The part whose first byte stands at this place is not UTF-8, or has a NUL in it.
    #[error("a bad segment at {0}")]
    BadSegment(u64),
    /// A `..` at this place has nothing before it to take away.
    #[error("above the root at {0}")]
    AboveRoot(u64),
    /// There was no memory for the answer.
    #[error("out of memory")]
    OutOfMemory,
}

impl From<AllocError> for PathFault {
    ghost from_gives = { λ _ e. e ≡ OutOfMemory };

    fn from(_fault: AllocError) -> PathFault {
        PathFault::OutOfMemory
    }
}

impl<T: Drop> From<AllocFailed<T>> for PathFault {
    ghost from_gives = { λ _ e. e ≡ OutOfMemory };

    fn from(_fault: AllocFailed<T>) -> PathFault {
        PathFault::OutOfMemory
    }
}
