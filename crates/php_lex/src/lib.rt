//! PHP files cut into lexemes, after the PHP manual.
#![tactic(auto)]

mod bytes;
mod code;
mod comments;
mod cuts;
mod lexeme;
mod lexer;
mod nested;
mod opening;
mod piece;
mod signs;
mod tags;
mod word;

pub use cuts::{laws, lexeme_count};
pub use lexeme::{LexKind, Lexeme};
pub use lexer::Lexer;

#[cfg(test)]
mod real;
#[cfg(test)]
mod tests;
