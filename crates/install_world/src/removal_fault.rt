//! Why a folder is not removed.

ghost use Rattle.std.specs.Prelude.{◌≡◌};
ghost use Rattle.install_world.specs.Removals.{fault_of_tree};
ghost use Rattle.install_world.specs.declared.removal_fault.RemoveFault.TheVariants.{DeviceFault, OutOfMemory};

use path_name::Path;
use std::alloc::{AllocError, AllocFailed};
use thiserror::Error;
use tree_dev::{Failed, TreeFault};

/// Why a folder is not removed with all that is in it. What was removed before stays removed.
#[derive(Debug, PartialEq, Eq, Drop, Error)]
pub enum RemoveFault {
    /// The entry at this path is not as earlier calls left it.
    #[error("vanished")]
    Vanished(Path),
    /// The device failed. It comes only where the device's count of faults rose.
    #[error("device fault")]
    DeviceFault,
    /// There was no memory for the paths.
    #[error("out of memory")]
    OutOfMemory,
}

impl From<Failed> for RemoveFault {
    ghost from_gives = { λ _ e. e ≡ DeviceFault };

    fn from(_fault: Failed) -> RemoveFault {
        RemoveFault::DeviceFault
    }
}

impl From<TreeFault> for RemoveFault {
    ghost from_gives = { λ fault e. e ≡ fault_of_tree fault };

    fn from(fault: TreeFault) -> RemoveFault {
        match fault {
            TreeFault::Failed => RemoveFault::DeviceFault,
            TreeFault::OutOfMemory => RemoveFault::OutOfMemory,
        }
    }
}

impl From<AllocError> for RemoveFault {
    ghost from_gives = { λ _ e. e ≡ OutOfMemory };

    fn from(_fault: AllocError) -> RemoveFault {
        RemoveFault::OutOfMemory
    }
}

impl<T: Drop> From<AllocFailed<T>> for RemoveFault {
    ghost from_gives = { λ _ e. e ≡ OutOfMemory };

    fn from(_fault: AllocFailed<T>) -> RemoveFault {
        RemoveFault::OutOfMemory
    }
}
