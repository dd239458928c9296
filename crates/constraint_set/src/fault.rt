//! Why a text is no constraint.

ghost use Rattle.std.specs.Prelude.{◌≡◌};
ghost use Rattle.constraint_set.specs.declared.fault.ConstraintFault.TheVariants.{OutOfMemory};

use std::alloc::{AllocError, AllocFailed};
use thiserror::Error;

/// Why a text is no constraint. Places count bytes of the text from 0.
#[derive(Clone, Copy, Debug, PartialEq, Eq, Error)]
pub enum ConstraintFault {
    /// The word at this place is `as`, between two words: an inline alias, as in `dev-main as 1.0`.
    #[error("an inline alias at {0}")]
    InlineAlias(u64),
    /// No rule reads the part that begins at this place, or a part is missing there.
    #[error("a bad constraint at {0}")]
    BadConstraint(u64),
    /// There was no memory for the answer.
    #[error("out of memory")]
    OutOfMemory,
}

impl From<AllocError> for ConstraintFault {
    ghost from_gives = { λ _ e. e ≡ OutOfMemory };

    fn from(_fault: AllocError) -> ConstraintFault {
        ConstraintFault::OutOfMemory
    }
}

impl<T: Drop> From<AllocFailed<T>> for ConstraintFault {
    ghost from_gives = { λ _ e. e ≡ OutOfMemory };

    fn from(_fault: AllocFailed<T>) -> ConstraintFault {
        ConstraintFault::OutOfMemory
    }
}
