//! Why a project is not claimed, or its claim not released.

ghost use Rattle.std.specs.Prelude.{◌≡◌};
ghost use Rattle.vendor_journal.specs.Faults.{fault_of_removal};
ghost use Rattle.vendor_journal.specs.declared.hold_fault.ClaimFault.TheVariants.{DeviceFault, OutOfMemory};

use install_world::RemoveFault;
use path_name::Path;
use std::alloc::{AllocError, AllocFailed};
use thiserror::Error;
use tree_dev::Failed;

/// Why a project is not claimed, or its claim not released.
#[derive(Debug, PartialEq, Eq, Drop, Error)]
pub enum ClaimFault {
    /// Something is at `.install`: an install is at work, or was stopped.
    #[error("unfinished")]
    Unfinished,
    /// The entry at this path is not as it must be: no folder is above `.install`, or an entry in it changed.
    #[error("vanished")]
    Vanished(Path),
    /// The device failed. It comes only where the device's count of faults rose.
    #[error("device fault")]
    DeviceFault,
    /// There was no memory for the paths.
    #[error("out of memory")]
    OutOfMemory,
}

impl From<Failed> for ClaimFault {
    ghost from_gives = { λ _ e. e ≡ DeviceFault };

    fn from(_fault: Failed) -> ClaimFault {
        ClaimFault::DeviceFault
    }
}

impl From<RemoveFault> for ClaimFault {
    ghost from_gives = { λ fault e. e ≡ fault_of_removal fault };

    fn from(fault: RemoveFault) -> ClaimFault {
        match fault {
            RemoveFault::Vanished(at) => ClaimFault::Vanished(at),
            RemoveFault::DeviceFault => ClaimFault::DeviceFault,
            RemoveFault::OutOfMemory => ClaimFault::OutOfMemory,
        }
    }
}

impl From<AllocError> for ClaimFault {
    ghost from_gives = { λ _ e. e ≡ OutOfMemory };

    fn from(_fault: AllocError) -> ClaimFault {
        ClaimFault::OutOfMemory
    }
}

impl<T: Drop> From<AllocFailed<T>> for ClaimFault {
    ghost from_gives = { λ _ e. e ≡ OutOfMemory };

    fn from(_fault: AllocFailed<T>) -> ClaimFault {
        ClaimFault::OutOfMemory
    }
}
