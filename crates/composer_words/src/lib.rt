//! The command that the words behind the program's name mean.
#![tactic(auto)]

mod chosen;
mod fault;
mod laws;
mod meaning;
mod number;
mod simple_command;

pub use chosen::{Chosen, Task, Ways};
pub use fault::WordsFault;
pub use laws::refusals;
pub use meaning::command;

#[cfg(test)]
mod tests;
