//! Why a call of a device has no answer.

ghost use Rattle.std.specs.Prelude.{◌≡◌};
ghost use Rattle.tree_dev.specs.declared.fault.TreeFault.TheVariants as faults;

use std::alloc::{AllocError, AllocFailed};
use thiserror::Error;

/// The device failed. It comes only where the device's count of faults rose.
#[derive(Clone, Copy, Debug, PartialEq, Eq, Error)]
#[error("the device failed")]
pub struct Failed;

/// Why a call that allocates has no answer.
#[derive(Clone, Copy, Debug, PartialEq, Eq, Error)]
pub enum TreeFault {
    /// The device failed. It comes only where the device's count of faults rose.
    #[error("the device failed")]
    Failed,
    /// There was no memory for the answer. Nothing changed.
    #[error("out of memory")]
    OutOfMemory,
}

impl From<Failed> for TreeFault {
    ghost from_gives = { λ _ e. e ≡ faults.Failed };

    fn from(_fault: Failed) -> TreeFault {
        TreeFault::Failed
    }
}

impl From<AllocError> for TreeFault {
    ghost from_gives = { λ _ e. e ≡ faults.OutOfMemory };

    fn from(_fault: AllocError) -> TreeFault {
        TreeFault::OutOfMemory
    }
}

impl<T: Drop> From<AllocFailed<T>> for TreeFault {
    ghost from_gives = { λ _ e. e ≡ faults.OutOfMemory };

    fn from(_fault: AllocFailed<T>) -> TreeFault {
        TreeFault::OutOfMemory
    }
}
