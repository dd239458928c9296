//! Why a text is no JSON.

ghost use Rattle.std.specs.Prelude.{◌≡◌};
ghost use Rattle.json_ordered.specs.declared.fault.JsonFault.TheVariants.{OutOfMemory};

use std::alloc::{AllocError, AllocFailed};
use thiserror::Error;

/// Why a text has no JSON value. Places count bytes of the text from 0. A text that is not UTF-8 is
/// `NotUtf8`, whatever else is wrong with it; else the fault is the one that stands furthest left.
#[derive(Clone, Copy, Debug, PartialEq, Eq, Error)]
pub enum JsonFault {
    /// The first ill-formed sequence begins at this place: what stands before is UTF-8, and nothing longer is.
    #[error("not UTF-8 at {0}")]
    NotUtf8(u64),
    /// The text before this place begins some JSON text of RFC 8259, and nothing longer does. Where the
    /// text ends too early, the place is its length.
    #[error("a syntax fault at {0}")]
    Syntax(u64),
    /// The `[` or `{` at this place opens the 129th level of arrays and objects.
    #[error("too deep at {0}")]
    TooDeep(u64),
    /// There was no memory for the answer.
    #[error("out of memory")]
    OutOfMemory,
}

impl From<AllocError> for JsonFault {
    ghost from_gives = { λ _ e. e ≡ OutOfMemory };

    fn from(_fault: AllocError) -> JsonFault {
        JsonFault::OutOfMemory
    }
}

impl<T: Drop> From<AllocFailed<T>> for JsonFault {
    ghost from_gives = { λ _ e. e ≡ OutOfMemory };

    fn from(_fault: AllocFailed<T>) -> JsonFault {
        JsonFault::OutOfMemory
    }
}
