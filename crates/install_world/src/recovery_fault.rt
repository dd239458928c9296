//! What recovery did, and why it did not.

ghost use Rattle.std.specs.Prelude.{◌≡◌};
ghost use Rattle.install_world.specs.Recovery.{fault_of_journal, fault_of_part, fault_of_removal, fault_of_tree};
ghost use Rattle.install_world.specs.declared.recovery_fault.RecoverFault.TheVariants.{DeviceFault, OutOfMemory};

use crate::{JournalFault, PartFault, RemoveFault};
use path_name::Path;
use std::alloc::{AllocError, AllocFailed};
use thiserror::Error;
use tree_dev::{Failed, LimitKind, TreeFault};

/// What recovery found and did.
#[derive(Clone, Copy, Debug, PartialEq, Eq)]
pub enum Recovered {
    /// No install was begun.
    NothingToDo,
    /// An install that was not committed was taken away.
    Removed,
    /// An install that was committed was finished.
    Finished,
}

/// Why an install is not finished. Recovery can be run again.
#[derive(Debug, PartialEq, Eq, Drop, Error)]
pub enum RecoverFault {
    /// `.install/journal` is no journal from this place on. Nothing was changed.
    #[error("bad journal")]
    BadJournal(u64),
    /// A file or folder is needed at this path, and another kind of entry is there.
    #[error("wrong kind")]
    OtherEntry(Path),
    /// The entry at this path is not as earlier calls left it.
    #[error("vanished")]
    Vanished(Path),
    /// `.install/journal` passes the limit of a file's bytes.
    #[error("limit")]
    Limit(LimitKind),
    /// The device failed. It comes only where the device's count of faults rose.
    #[error("device fault")]
    DeviceFault,
    /// There was no memory for the names and the journal.
    #[error("out of memory")]
    OutOfMemory,
}

impl From<Failed> for RecoverFault {
    ghost from_gives = { λ _ e. e ≡ DeviceFault };

    fn from(_fault: Failed) -> RecoverFault {
        RecoverFault::DeviceFault
    }
}

impl From<TreeFault> for RecoverFault {
    ghost from_gives = { λ fault e. e ≡ fault_of_tree fault };

    fn from(fault: TreeFault) -> RecoverFault {
        match fault {
            TreeFault::Failed => RecoverFault::DeviceFault,
            TreeFault::OutOfMemory => RecoverFault::OutOfMemory,
        }
    }
}

impl From<RemoveFault> for RecoverFault {
    ghost from_gives = { λ fault e. e ≡ fault_of_removal fault };

    fn from(fault: RemoveFault) -> RecoverFault {
        match fault {
            RemoveFault::Vanished(at) => RecoverFault::Vanished(at),
            RemoveFault::DeviceFault => RecoverFault::DeviceFault,
            RemoveFault::OutOfMemory => RecoverFault::OutOfMemory,
        }
    }
}

impl From<PartFault> for RecoverFault {
    ghost from_gives = { λ fault e. e ≡ fault_of_part fault };

    fn from(fault: PartFault) -> RecoverFault {
        match fault {
            PartFault::OtherEntry(at) => RecoverFault::OtherEntry(at),
            PartFault::Vanished(at) => RecoverFault::Vanished(at),
            PartFault::DeviceFault => RecoverFault::DeviceFault,
            PartFault::OutOfMemory => RecoverFault::OutOfMemory,
        }
    }
}

impl From<JournalFault> for RecoverFault {
    ghost from_gives = { λ fault e. e ≡ fault_of_journal fault };

    fn from(fault: JournalFault) -> RecoverFault {
        match fault {
            JournalFault::BadJournal(at) => RecoverFault::BadJournal(at),
            JournalFault::OutOfMemory => RecoverFault::OutOfMemory,
        }
    }
}

impl From<AllocError> for RecoverFault {
    ghost from_gives = { λ _ e. e ≡ OutOfMemory };

    fn from(_fault: AllocError) -> RecoverFault {
        RecoverFault::OutOfMemory
    }
}

impl<T: Drop> From<AllocFailed<T>> for RecoverFault {
    ghost from_gives = { λ _ e. e ≡ OutOfMemory };

    fn from(_fault: AllocFailed<T>) -> RecoverFault {
        RecoverFault::OutOfMemory
    }
}
