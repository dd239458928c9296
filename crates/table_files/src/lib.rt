//! The files that are written with the autoload tables of a project: their mode and generation, the packages in their places,
//! the texts, and the lines that tell of them.
#![tactic(auto)]

mod building;
mod counts;
mod entries;
mod members;
mod modes;
mod written;

pub use building::{NewTables, Setting, new_tables};
pub use counts::put_counts;
pub use entries::all_entries;
pub use members::members_in_place;
pub use modes::{generation_behind, mode_of, next_generation};
pub use written::{FilePlace, WrittenFile, parts_of, texts_of, written_files};

#[cfg(test)]
mod tests;
