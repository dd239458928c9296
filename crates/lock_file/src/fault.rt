//! Why a lock makes no pool.

ghost use Rattle.std.specs.Prelude.{◌≡◌};
ghost use Rattle.lock_file.specs.declared.fault.LockPoolFault.TheVariants.{OutOfMemory};

use path_name::Name;
use std::alloc::{AllocError, AllocFailed};
use thiserror::Error;

/// Why a lock makes no pool.
#[derive(Debug, PartialEq, Eq, Drop, Error)]
pub enum LockPoolFault {
    /// The url of the package of this name leads above the tree's root.
    #[error("a url leaves the tree")]
    AboveRoot(Name),
    /// There was no memory for the answer.
    #[error("out of memory")]
    OutOfMemory,
}

impl From<AllocError> for LockPoolFault {
    ghost from_gives = { λ _ e. e ≡ OutOfMemory };

    fn from(_fault: AllocError) -> LockPoolFault {
        LockPoolFault::OutOfMemory
    }
}

impl<T: Drop> From<AllocFailed<T>> for LockPoolFault {
    ghost from_gives = { λ _ e. e ≡ OutOfMemory };

    fn from(_fault: AllocFailed<T>) -> LockPoolFault {
        LockPoolFault::OutOfMemory
    }
}
