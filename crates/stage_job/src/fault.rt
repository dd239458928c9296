//! Why a job is not staged.

ghost use Rattle.std.specs.Prelude.{◌≡◌};
ghost use Rattle.tree_dev.specs.declared.fault.TreeFault.{TreeFault};
ghost use Rattle.stage_job.specs.Faults.{fault_of_tree};
ghost use Rattle.stage_job.specs.declared.fault.StageFault.TheVariants as faults;

use path_name::{Path, Text};
use std::alloc::{AllocError, AllocFailed};
use thiserror::Error;
use tree_dev::{Failed, LimitKind, TreeFault};

/// Why a job is not staged.
#[derive(Debug, PartialEq, Eq, Drop, Error)]
pub enum StageFault {
    /// Nothing is at the path, given by its text, of a package that is to be copied.
    #[error("a package's folder is missing")]
    MissingPath(Text),
    /// What stands at the path must be a folder and is none, or is to be copied and is neither a file nor a folder.
    #[error("an entry of another kind")]
    OtherEntry(Path),
    /// A counted quantity passes its limit.
    #[error("a limit was passed")]
    Limit(LimitKind),
    /// An entry that an earlier call showed or made is not there, or one is there where nothing was.
    #[error("an entry vanished")]
    Vanished(Path),
    /// The device failed. It comes only where the device's count of faults rose.
    #[error("device fault")]
    DeviceFault,
    /// There was no memory for the work.
    #[error("out of memory")]
    OutOfMemory,
}

impl From<Failed> for StageFault {
    ghost from_gives = { λ _ e. e ≡ faults.DeviceFault };

    fn from(_fault: Failed) -> StageFault {
        StageFault::DeviceFault
    }
}

impl From<TreeFault> for StageFault {
    ghost from_gives = { λ f e. e ≡ fault_of_tree f };

    fn from(fault: TreeFault) -> StageFault {
        match fault {
            TreeFault::Failed => StageFault::DeviceFault,
            TreeFault::OutOfMemory => StageFault::OutOfMemory,
        }
    }
}

impl From<AllocError> for StageFault {
    ghost from_gives = { λ _ e. e ≡ faults.OutOfMemory };

    fn from(_fault: AllocError) -> StageFault {
        StageFault::OutOfMemory
    }
}

impl<T: Drop> From<AllocFailed<T>> for StageFault {
    ghost from_gives = { λ _ e. e ≡ faults.OutOfMemory };

    fn from(_fault: AllocFailed<T>) -> StageFault {
        StageFault::OutOfMemory
    }
}
