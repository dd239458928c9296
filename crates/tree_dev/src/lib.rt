//! The disk as every layer sees it: a tree of entries that is read one entry at a time, and sinks for
//! what a command prints.
#![tactic(auto)]

mod applying;
mod call_set;
mod change;
mod change_laws;
mod did;
mod disk_laws;
#[cfg(test)]
mod disk_loops;
mod entry;
mod fault;
mod files;
mod fitting;
mod laws;
mod limits;
mod listing;
mod log;
mod memory;
mod memory_disk;
mod memory_sink;
mod moves;
mod placing;
mod remade;
mod renaming;
mod shared;
mod sink;
mod stored;
mod tree;

pub use change::Change;
pub use change_laws::{
    a_change_leaves_a_tree, a_change_leaves_others, an_empty_folder_can_be_removed,
    changes_apart_commute, names_are_the_entries, what_a_change_leaves,
};
pub use did::{Did, Made};
pub use disk_laws::{
    barrier_leaves_one, change_adds_its_images, first_moment_counts, images_are_trees,
    later_moments, lost_changes_are_an_image, reading_is_an_image, reading_keeps_images,
    same_or_any_bytes, since_grows, steady_calls, steady_stretches, stretches_join, through_calls,
    whole_images_were_read,
};
pub use entry::{Entry, Kind, ListAnswer, ReadAnswer};
pub use fault::{Failed, TreeFault};
pub use laws::{
    limits_have_their_numbers, no_call_is_a_reading, part_of_first_piece, part_of_second_piece,
    put_changes_no_more, put_leaves_a_tree, two_pieces_are_one, two_readings_are_one,
};
pub use limits::{Entries, FILE_BYTES, LimitKind};
pub use memory::MemoryTree;
pub use memory_sink::MemorySink;
pub use shared::SharedText;
pub use sink::Sink;
pub use tree::Tree;

#[cfg(test)]
mod tests;
