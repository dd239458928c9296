//! How many files an install writes, from what is wanted to its commit.
#![tactic(auto)]

mod laws;

pub use laws::installs_write_few_files;

#[cfg(test)]
mod tests;
