//! The tables that an autoloader reads, from their texts.
#![tactic(auto)]

mod gap;
mod head;
mod laws;
mod list;
mod mark;
mod names;
mod number;
mod quoted;
mod repeats;
mod roots;
mod rows;
mod state;
mod stop;
mod table;
mod types;

pub use laws::{table_texts, token_lists};
pub use names::table_name;
pub use table::read;
pub use types::{
    ClassRow, FileRow, Mode, PrefixRow, State, TableFault, TableFile, TableTexts, Tables,
};

#[cfg(test)]
mod tests;
