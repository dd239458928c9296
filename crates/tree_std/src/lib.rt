//! The real disk and the standard streams as the devices of `tree_dev`.
#![tactic(auto)]

mod folder;
mod folder_tree;
mod listing;
mod reading;
mod std_sink;
mod system;
mod trouble;
mod way;
mod writing;

pub use folder_tree::FolderTree;
pub use std_sink::StdSink;

#[cfg(test)]
mod tests;
