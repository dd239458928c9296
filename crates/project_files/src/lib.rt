//! What the files of a project say: its composer.json, its composer.lock, the packages that are installed, and the state of
//! its tables, each read whole or refused.
#![tactic(auto)]

mod documents;
mod installed_packages;
mod locks;
mod manifests;
pub mod places;
mod state;
mod texts;

pub use installed_packages::installed;
pub use locks::{pool_of, project_lock};
pub use manifests::{ProjectManifest, project_manifest};
pub use state::generation;
pub use texts::text_at;
