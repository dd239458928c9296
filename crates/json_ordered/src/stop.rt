//! Where reading stops.

ghost use Rattle.std.specs.Prelude.{◌≡◌};
ghost use Rattle.json_ordered.specs.declared.stop.Stop.TheVariants.{OutOfMemory};

use std::alloc::{AllocError, AllocFailed};

/// Why reading stops, with how many bytes of the text stand from the place on.
#[derive(Clone, Copy, Debug, PartialEq, Eq)]
pub(crate) enum Stop {
    /// No JSON text goes on with the byte at the place, or with the end there.
    Syntax(usize),
    /// The bracket at the place opens one level too many.
    TooDeep(usize),
    OutOfMemory,
}

impl From<AllocError> for Stop {
    ghost from_gives = { λ _ e. e ≡ OutOfMemory };

    fn from(_fault: AllocError) -> Stop {
        Stop::OutOfMemory
    }
}

impl<T: Drop> From<AllocFailed<T>> for Stop {
    ghost from_gives = { λ _ e. e ≡ OutOfMemory };

    fn from(_fault: AllocFailed<T>) -> Stop {
        Stop::OutOfMemory
    }
}
