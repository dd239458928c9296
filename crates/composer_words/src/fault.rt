//! Why words are no command.

ghost use Rattle.std.specs.Prelude.{◌≡◌};
ghost use Rattle.composer_words.specs.declared.fault.WordsFault.TheVariants.{OutOfMemory};

use std::alloc::{AllocError, AllocFailed};
use thiserror::Error;

/// Why words are no command.
#[derive(Clone, Copy, Debug, PartialEq, Eq, Error)]
pub enum WordsFault {
    /// The command line does not take the words, DIR is no path, or N is not one to three digits that stand
    /// for a number from 1 to 400.
    #[error("usage: composer [-d DIR] COMMAND")]
    Usage,
    /// There was no memory for the answer.
    #[error("out of memory")]
    OutOfMemory,
}

impl From<AllocError> for WordsFault {
    ghost from_gives = { λ _ e. e ≡ OutOfMemory };

    fn from(_fault: AllocError) -> WordsFault {
        WordsFault::OutOfMemory
    }
}

impl<T: Drop> From<AllocFailed<T>> for WordsFault {
    ghost from_gives = { λ _ e. e ≡ OutOfMemory };

    fn from(_fault: AllocFailed<T>) -> WordsFault {
        WordsFault::OutOfMemory
    }
}

impl From<path_name::PathFault> for WordsFault {
    ghost use Rattle.composer_words.specs.Faults.{fault_of_path};

    ghost from_gives = { λ fault e. e ≡ fault_of_path fault };

    fn from(fault: path_name::PathFault) -> WordsFault {
        match fault {
            path_name::PathFault::OutOfMemory => WordsFault::OutOfMemory,
            path_name::PathFault::BadSegment(_) => WordsFault::Usage,
            path_name::PathFault::AboveRoot(_) => WordsFault::Usage,
        }
    }
}

impl From<clap::Error> for WordsFault {
    ghost use Rattle.clap.specs.Words.{kind_of};
    ghost use Rattle.composer_words.specs.Faults.{fault_of_kind};

    ghost from_gives = { λ fault e. e ≡ fault_of_kind (kind_of fault) };

    fn from(fault: clap::Error) -> WordsFault {
        match fault.kind() {
            clap::error::ErrorKind::OutOfMemory => WordsFault::OutOfMemory,
            _ => WordsFault::Usage,
        }
    }
}
