//! Why a name is not looked up.

ghost use Rattle.std.specs.Prelude.{◌≡◌};
ghost use Rattle.class_lookup.specs.declared.fault.LookupFault.TheVariants.{DeviceFault, OutOfMemory};

use std::alloc::{AllocError, AllocFailed};
use thiserror::Error;
use tree_dev::Failed;

/// Why a name is not looked up.
#[derive(Clone, Copy, Debug, PartialEq, Eq, Error)]
pub enum LookupFault {
    /// The text is no class name.
    #[error("not a class name")]
    BadName,
    /// The device failed. It comes only where the device's count of faults rose.
    #[error("device fault")]
    DeviceFault,
    /// There was no memory for the answer.
    #[error("out of memory")]
    OutOfMemory,
}

impl From<Failed> for LookupFault {
    ghost from_gives = { λ _ e. e ≡ DeviceFault };

    fn from(_fault: Failed) -> LookupFault {
        LookupFault::DeviceFault
    }
}

impl From<AllocError> for LookupFault {
    ghost from_gives = { λ _ e. e ≡ OutOfMemory };

    fn from(_fault: AllocError) -> LookupFault {
        LookupFault::OutOfMemory
    }
}

impl<T: Drop> From<AllocFailed<T>> for LookupFault {
    ghost from_gives = { λ _ e. e ≡ OutOfMemory };

    fn from(_fault: AllocFailed<T>) -> LookupFault {
        LookupFault::OutOfMemory
    }
}
