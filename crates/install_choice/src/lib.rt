//! What `install` and `update` are to install: the packages of the lock that stands, or those of a new plan with its lock.
#![tactic(auto)]

mod choosing;
mod chosen;
mod laws;
mod planning;
mod refusals;
mod standing_lock;
mod warning;

pub use choosing::{chosen_to_install, chosen_to_update};
pub use chosen::Chosen;
pub use laws::{
    installs_without_a_lock_update, new_locks_are_met, no_plan_is_no_valid_set,
    standing_locks_are_met, updates_take_first_choices,
};

#[cfg(test)]
mod tests;
