//! What a valid plan is, its check, and the plan of first choices, by the rules of Composer's documentation ("The
//! composer.json schema", "Package links"; "Repositories", "Path").
#![tactic(auto)]

mod by_name;
mod checking;
mod facts;
mod index;
mod laws;
mod members;
mod offers;
mod platform;
mod preferred;
mod ranks;
mod rivals;
mod rule;

pub use checking::check;
pub use index::Index;
pub use laws::{
    dead_ends, first_choices, fitting, larger_sets, link_names, new_choices, preferences,
    smaller_sets,
};
pub use offers::{Offer, Standing};
pub use preferred::alternatives;
pub use rivals::Rivals;
pub use rule::{Rule, Selection, Verdict};

#[cfg(test)]
mod tests;
