//! Locks and installed.json, as Composer 2 writes them for path repositories.
#![tactic(auto)]

mod dist;
mod document;
mod entries;
mod fault;
mod installed;
mod installed_printing;
mod laws;
mod lists;
mod lock_pool;
mod package_doc;
mod plan_lock;
mod printing;
mod rows;
mod runtime;
mod types;
mod written;

pub use document::from_doc;
pub use fault::LockPoolFault;
pub use installed::installed_from_doc;
pub use installed_printing::print_installed;
pub use laws::{pools_are_documented, valid_plans_have_own_names};
pub use lock_pool::pool_of;
pub use plan_lock::lock_of;
pub use printing::print;
pub use types::{FlagRow, Installed, Lock, Locked, PlatformLink};

#[cfg(test)]
mod tests;
