//! Versions: their normal form, their order, their stability and their text, by the rules of Composer's
//! documentation ("Versions and constraints") and of its library composer/semver.
#![tactic(auto)]

mod fault;
mod laws;
mod normal_form;
mod normal_text;
mod numbered;
mod order;
mod pieces;
mod version;
mod written;

pub use fault::VersionFault;
pub use laws::{
    classical_versions, cuts, grade_order, next_versions, normal_texts, numbered_branches, rules,
    version_order, version_texts,
};
pub use normal_form::{before_flag, normalise};
pub use normal_text::print;
pub use order::{compare, compare_numbered};
pub use version::{
    Grade, Modifier, Numbered, Numbers, Stage, Version, numbered_stability, stability,
};
pub use written::{
    Classical, Position, WrittenNumbers, classical_version, read_written_numbers, trim,
};

#[cfg(test)]
mod tests;
