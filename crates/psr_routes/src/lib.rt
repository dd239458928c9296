//! In which order packages stand, which rows their autoload rules give, and in which order the paths of a class are tried,
//! by PSR-4, PSR-0 and Composer's documentation ("autoload").
#![tactic(auto)]

mod laws;
mod lookups;
mod needs;
mod order;
mod queue;
mod rows;
mod types;

pub use laws::{order_of_packages, prefixes_of_rows};
pub use lookups::{candidates, row_path};
pub use order::package_order;
pub use rows::routes;
pub use types::Placed;

#[cfg(test)]
mod tests;
