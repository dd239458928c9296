//! How much a pool may hold.

/// The segments of an entry below the folder in which the first `*` of a url is matched.
pub const DEPTH: usize = 64;
/// The candidates of a pool.
pub const PACKAGES: usize = 4_096;
/// The candidates of one name.
pub const CANDIDATES: usize = 512;
/// The bytes of all composer.json files that are read for one pool: 64 MiB at most.
pub const POOL_BYTES: u64 = 67_108_864;
