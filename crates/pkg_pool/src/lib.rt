//! The packages of a project's path repositories, and which of them its root allows, by the rules of Composer's
//! documentation ("Repositories", "Path"; "Stability constraints").
#![tactic(auto)]

mod expand;
mod fault;
mod gather;
mod laws;
mod limits;
mod loading;
mod manifest;
mod origin;
mod pool;
mod stability;

pub use fault::{ManifestFault, PoolFault};
pub use laws::{manifests_have_paths, pools_have_what_counts, urls_name_their_matches};
pub use limits::{CANDIDATES, DEPTH, PACKAGES, POOL_BYTES};
pub use loading::load;
pub use pool::{Candidate, Pool};
pub use stability::{RootFlags, allowed, version_meets};

#[cfg(test)]
mod tests;
