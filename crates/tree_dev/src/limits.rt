//! How much of anything a command takes.

use path_name::{Name, Path};

/// The bytes of a file that is read, mirrored, scanned or written: 64 MiB at most.
pub const FILE_BYTES: u64 = 67_108_864;
/// The segments of an entry below the folder where its walk or mirroring began.
pub const DEPTH: u64 = 64;
/// The entries that are listed in one command.
pub const ENTRIES: u32 = 1_000_000;
/// The candidates of a pool, or the packages of a lock.
pub const PACKAGES: u32 = 4_096;
/// The candidates of one name in a pool.
pub const CANDIDATES: u32 = 512;
/// The bytes of all composer.json files that are read for one pool: 64 MiB at most.
pub const POOL_BYTES: u64 = 67_108_864;
/// The greatest generation of a project.
pub const LAST_GENERATION: u64 = u64::MAX;

/// The limit that a counted quantity passed.
#[derive(Debug, PartialEq, Eq, Drop)]
pub enum LimitKind {
    /// The file at this path passes `FILE_BYTES`.
    FileBytes(Path),
    /// The entry at this path lies deeper than `DEPTH`.
    Depth(Path),
    /// More than `ENTRIES` entries would be listed.
    Entries,
    /// There are more than `PACKAGES` packages.
    Packages,
    /// There are more than `CANDIDATES` candidates of this name.
    Candidates(Name),
    /// The manifests of one pool pass `POOL_BYTES`.
    PoolBytes,
    /// The generation would pass `LAST_GENERATION`.
    Generation,
}

/// The number of entries that a command may still list: `ENTRIES` at its start. A call that takes it
/// lowers it by the number of entries that it listed.
#[derive(Clone, Copy, Debug, PartialEq, Eq)]
pub struct Entries {
    /// How many are left.
    pub left: u32,
}
