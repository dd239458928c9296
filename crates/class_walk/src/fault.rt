//! Why a search for classes ends without an answer.

ghost use Rattle.std.specs.Prelude.{◌≡◌};
ghost use Rattle.tree_dev.specs.declared.fault.TreeFault.{TreeFault};
ghost use Rattle.class_walk.specs.Faults.{fault_of_tree};
ghost use Rattle.class_walk.specs.declared.fault.WalkFault.TheVariants as faults;

use path_name::Path;
use std::alloc::{AllocError, AllocFailed};
use thiserror::Error;
use tree_dev::{Failed, LimitKind, TreeFault};

/// Why a search for classes ends without an answer.
#[derive(Debug, PartialEq, Eq, Drop, Error)]
pub enum WalkFault {
    /// Nothing is at this path, which a `classmap` lists.
    #[error("a listed path is missing")]
    ClassmapMissing(Path),
    /// What stands at this path is walked, and is neither a file nor a folder.
    #[error("an entry of another kind")]
    OtherEntry(Path),
    /// A counted quantity passes its limit.
    #[error("a limit was passed")]
    Limit(LimitKind),
    /// An entry was shown by an earlier call and then was not there.
    #[error("an entry vanished")]
    Vanished(Path),
    /// The device failed. It comes only where the device's count of faults rose.
    #[error("device fault")]
    DeviceFault,
    /// There was no memory for the work.
    #[error("out of memory")]
    OutOfMemory,
}

impl From<Failed> for WalkFault {
    ghost from_gives = { λ _ e. e ≡ faults.DeviceFault };

    fn from(_fault: Failed) -> WalkFault {
        WalkFault::DeviceFault
    }
}

impl From<TreeFault> for WalkFault {
    ghost from_gives = { λ f e. e ≡ fault_of_tree f };

    fn from(fault: TreeFault) -> WalkFault {
        match fault {
            TreeFault::Failed => WalkFault::DeviceFault,
            TreeFault::OutOfMemory => WalkFault::OutOfMemory,
        }
    }
}

impl From<AllocError> for WalkFault {
    ghost from_gives = { λ _ e. e ≡ faults.OutOfMemory };

    fn from(_fault: AllocError) -> WalkFault {
        WalkFault::OutOfMemory
    }
}

impl<T: Drop> From<AllocFailed<T>> for WalkFault {
    ghost from_gives = { λ _ e. e ≡ faults.OutOfMemory };

    fn from(_fault: AllocFailed<T>) -> WalkFault {
        WalkFault::OutOfMemory
    }
}
