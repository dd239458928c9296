//! Why an install was not committed to its end.

ghost use Rattle.std.specs.Prelude.{◌≡◌};
ghost use Rattle.vendor_journal.specs.declared.commit_fault.CommitFault.TheVariants.{DeviceFault};

use thiserror::Error;
use tree_dev::Failed;

/// Why an install was not committed to its end. Recovery finishes it, or takes it away.
#[derive(Debug, PartialEq, Eq, Drop, Error)]
pub enum CommitFault {
    /// The device failed. It comes only where the device's count of faults rose.
    #[error("device fault")]
    DeviceFault,
    /// A call found no place for its change: at the part of this number, or at the journal where it is the number of
    /// parts. It stands still at the last u32.
    #[error("vanished")]
    Vanished(u32),
}

impl From<Failed> for CommitFault {
    ghost from_gives = { λ _ e. e ≡ DeviceFault };

    fn from(_fault: Failed) -> CommitFault {
        CommitFault::DeviceFault
    }
}
