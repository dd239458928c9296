//! Why a pool isn't loaded.

ghost use Rattle.std.specs.Prelude.{◌≡◌};
ghost use Rattle.pkg_pool.specs.Outcomes.{fault_of_tree};
ghost use Rattle.pkg_pool.specs.declared.fault.PoolFault.TheVariants.{DeviceFault, OutOfMemory};

use path_name::{Name, Path, Text};
use std::alloc::{AllocError, AllocFailed};
use thiserror::Error;
use tree_dev::{Failed, LimitKind, TreeFault};

/// What is wrong in a composer.json. Places count its bytes from 0.
#[derive(Debug, PartialEq, Eq, Drop, Error)]
pub enum ManifestFault {
    /// The text is not UTF-8: the first ill-formed sequence begins at this place.
    #[error("not UTF-8 at {0}")]
    NotUtf8(u64),
    /// The text is no JSON (RFC 8259): what stands before this place begins some JSON text, and nothing longer does.
    #[error("a syntax fault at {0}")]
    Syntax(u64),
    /// The bracket at this place opens more levels of arrays and objects than are allowed.
    #[error("too deep at {0}")]
    TooDeep(u64),
    /// The value at this pointer (RFC 6901) has another form than its key asks for, or is missing.
    #[error("a bad field")]
    BadField(Text),
    /// The package has a name at whose place in `vendor` other files are written.
    #[error("a reserved name")]
    ReservedName(Name),
}

/// Why a pool isn't loaded.
#[derive(Debug, PartialEq, Eq, Drop, Error)]
pub enum PoolFault {
    /// There is no folder where a url without `*` leads: the folder's path, as a text. Or a url leads above the root:
    /// the url as it is written.
    #[error("a missing path")]
    MissingPath(Text),
    /// The composer.json at this path is no manifest of a package.
    #[error("a bad manifest")]
    BadManifest(Path, ManifestFault),
    /// What is written in the composer.json at this path, at this pointer (RFC 6901), isn't offered.
    #[error("not offered")]
    NotOffered(Path, Text),
    /// What stands at this path is of another kind than it must be.
    #[error("another kind of entry")]
    OtherEntry(Path),
    /// A counted quantity passed its limit.
    #[error("a limit")]
    Limit(LimitKind),
    /// What was at this path is there no longer. It never comes: what is gone when it is looked at is absent.
    #[error("vanished")]
    Vanished(Path),
    /// The device failed. It comes only where the device's count of faults rose.
    #[error("device fault")]
    DeviceFault,
    /// There was no memory for the answer.
    #[error("out of memory")]
    OutOfMemory,
}

impl From<Failed> for PoolFault {
    ghost from_gives = { λ _ e. e ≡ DeviceFault };

    fn from(_fault: Failed) -> PoolFault {
        PoolFault::DeviceFault
    }
}

impl From<TreeFault> for PoolFault {
    ghost from_gives = { λ fault e. e ≡ fault_of_tree fault };

    fn from(fault: TreeFault) -> PoolFault {
        match fault {
            TreeFault::Failed => PoolFault::DeviceFault,
            TreeFault::OutOfMemory => PoolFault::OutOfMemory,
        }
    }
}

impl From<AllocError> for PoolFault {
    ghost from_gives = { λ _ e. e ≡ OutOfMemory };

    fn from(_fault: AllocError) -> PoolFault {
        PoolFault::OutOfMemory
    }
}

impl<T: Drop> From<AllocFailed<T>> for PoolFault {
    ghost from_gives = { λ _ e. e ≡ OutOfMemory };

    fn from(_fault: AllocFailed<T>) -> PoolFault {
        PoolFault::OutOfMemory
    }
}
