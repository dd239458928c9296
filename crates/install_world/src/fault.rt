//! Why a text is no journal.

ghost use Rattle.std.specs.Prelude.{◌≡◌};
ghost use Rattle.install_world.specs.declared.fault.JournalFault.TheVariants.{OutOfMemory};

use std::alloc::{AllocError, AllocFailed};
use thiserror::Error;

/// Why a text is no journal. Places count its bytes from 0.
#[derive(Clone, Copy, Debug, PartialEq, Eq, Error)]
pub enum JournalFault {
    /// The first line that is not as it must be begins at this place. It is the text's length where the text
    /// ends after a whole line before `end`, and the place behind the LF of `end` where more follows.
    #[error("bad journal at {0}")]
    BadJournal(u64),
    /// There was no memory for the answer.
    #[error("out of memory")]
    OutOfMemory,
}

impl From<AllocError> for JournalFault {
    ghost from_gives = { λ _ e. e ≡ OutOfMemory };

    fn from(_fault: AllocError) -> JournalFault {
        JournalFault::OutOfMemory
    }
}

impl<T: Drop> From<AllocFailed<T>> for JournalFault {
    ghost from_gives = { λ _ e. e ≡ OutOfMemory };

    fn from(_fault: AllocFailed<T>) -> JournalFault {
        JournalFault::OutOfMemory
    }
}
