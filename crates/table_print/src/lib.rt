//! The texts of the tables that an autoloader reads, and of the autoloader itself.
#![tactic(auto)]

mod autoload;
mod below;
mod parts;
mod printing;
mod quoted;
mod roots;
mod rows;
mod state;

pub use autoload::autoload_text;
pub use below::lie_below;
pub use printing::print;

#[cfg(test)]
mod tests;
