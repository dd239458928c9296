//! Which names classes have, which path an autoload row gives a class, and in which order rows are tried, by PSR-4,
//! PSR-0 and Composer's documentation ("autoload").
#![tactic(auto)]

mod class_names;
mod laws;
mod row_places;
mod types;

pub use class_names::is_class_name;
pub use laws::{candidates_by_rows, order_of_candidates, prefixes_of_one_name, psr4_prefixes};
pub use row_places::{class_path, is_route_prefix};
pub use types::{Route, RouteKind};

#[cfg(test)]
mod tests;
