//! How commands end without their answer: every refusal, with its status and its line on the error stream, in one table.
#![tactic(auto)]

mod message;
mod refusal;
mod status;

pub use message::{error_line, memory_line, output_line, put_rule};
pub use refusal::{BrokenRule, DocumentFault, NamedFile, Place, Refusal};
pub use status::status_of;

#[cfg(test)]
mod tests;
