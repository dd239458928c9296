//! JSON texts, read in order (RFC 8259).
#![tactic(auto)]

mod blanks;
mod doc;
mod equality;
mod escape;
mod fault;
mod frame;
mod hash_form;
mod json;
mod members;
mod number;
mod pretty;
mod room;
mod scan;
mod seed;
mod start;
mod step;
mod stop;
mod string;
mod values;

pub use doc::Doc;
pub use fault::JsonFault;
pub use hash_form::{add_hash_form, print_hash_form};
pub use json::{laws, read};
pub use pretty::print_pretty;
pub use values::LEVELS;

#[cfg(test)]
mod tests;
