//! The autoload tables of a project, plain, optimised and authoritative, by Composer's documentation ("autoload"; "Optimize
//! the autoloader"), PSR-4 and PSR-0.
#![tactic(auto)]

mod building;
mod class_map;
mod file_rows;
mod jobs;
mod laws;
mod prefixes;
mod sources;

pub use building::tables;
pub use laws::{
    authoritative_tables, class_maps, optimised_tables, plain_tables, tables_can_be_printed,
    tables_lie_below, walks_of_rows_come_last,
};

#[cfg(test)]
mod tests;
