//! What an install has to change of a project: the parts whose targets do not hold already what they are to hold, and the
//! entries of `vendor` that are to go.
#![tactic(auto)]

mod beside;
mod counts;
mod joined;
mod laws;
mod listing;
mod needed;
mod search;
mod standing;
mod unneeded;

pub use laws::{
    few_files_are_written, gone_parts_are_topmost, jobs_make_the_wanted, jobs_write_what_differs,
    parts_are_wanted, written_files_stand_alone,
};
pub use search::moves;

#[cfg(test)]
mod tests;
