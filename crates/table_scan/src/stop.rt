//! Where reading stops.

ghost use Rattle.std.specs.Prelude.{◌≡◌};
ghost use Rattle.table_scan.specs.declared.stop.Stop.TheVariants.{OutOfMemory};

use std::alloc::{AllocError, AllocFailed};

/// Why reading stops.
#[derive(Clone, Copy)]
pub enum Stop {
    /// No table goes on with the token at the place, or with the end there. So many bytes of the text stand
    /// from it on.
    Bad(usize),
    /// There was no memory.
    OutOfMemory,
}

impl From<AllocError> for Stop {
    ghost from_gives = { λ _ e. e ≡ OutOfMemory };

    fn from(_fault: AllocError) -> Stop {
        Stop::OutOfMemory
    }
}

impl<T: Drop> From<AllocFailed<T>> for Stop {
    ghost from_gives = { λ _ e. e ≡ OutOfMemory };

    fn from(_fault: AllocFailed<T>) -> Stop {
        Stop::OutOfMemory
    }
}
