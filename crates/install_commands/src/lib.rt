//! The commands that change a project, each under a claim: what is wanted is read and made ready beside the project, and
//! then committed by a journal, so that a crash at any moment leaves the old project, or the new one, or what recovery makes
//! one of them.
#![tactic(auto)]

mod claimed;
mod recovering;
mod refusals;
mod work;

pub use claimed::{claim_project, end_work};
pub use recovering::recover;
pub use refusals::refusal_of_staging;
pub use work::Work;

#[cfg(test)]
mod tests;
