//! Why a part is not finished.

ghost use Rattle.std.specs.Prelude.{◌≡◌};
ghost use Rattle.install_world.specs.PartFaults.{fault_of_removal};
ghost use Rattle.install_world.specs.declared.part_fault.PartFault.TheVariants.{DeviceFault, OutOfMemory};

use crate::RemoveFault;
use path_name::Path;
use std::alloc::{AllocError, AllocFailed};
use thiserror::Error;
use tree_dev::Failed;

/// Why a part is not finished. The parts before it are.
#[derive(Debug, PartialEq, Eq, Drop, Error)]
pub enum PartFault {
    /// A folder is needed at this path, and another kind of entry is there.
    #[error("wrong kind")]
    OtherEntry(Path),
    /// The entry at this path is not as earlier calls left it.
    #[error("vanished")]
    Vanished(Path),
    /// The device failed. It comes only where the device's count of faults rose.
    #[error("device fault")]
    DeviceFault,
    /// There was no memory for the names.
    #[error("out of memory")]
    OutOfMemory,
}

impl From<Failed> for PartFault {
    ghost from_gives = { λ _ e. e ≡ DeviceFault };

    fn from(_fault: Failed) -> PartFault {
        PartFault::DeviceFault
    }
}

impl From<RemoveFault> for PartFault {
    ghost from_gives = { λ fault e. e ≡ fault_of_removal fault };

    fn from(fault: RemoveFault) -> PartFault {
        match fault {
            RemoveFault::Vanished(at) => PartFault::Vanished(at),
            RemoveFault::DeviceFault => PartFault::DeviceFault,
            RemoveFault::OutOfMemory => PartFault::OutOfMemory,
        }
    }
}

impl From<AllocError> for PartFault {
    ghost from_gives = { λ _ e. e ≡ OutOfMemory };

    fn from(_fault: AllocError) -> PartFault {
        PartFault::OutOfMemory
    }
}

impl<T: Drop> From<AllocFailed<T>> for PartFault {
    ghost from_gives = { λ _ e. e ≡ OutOfMemory };

    fn from(_fault: AllocFailed<T>) -> PartFault {
        PartFault::OutOfMemory
    }
}
