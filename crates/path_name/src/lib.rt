//! The words of every layer: byte strings, lists, and paths below a root.
#![tactic(auto)]

mod bytes;
mod decimals;
mod fault;
mod folder_ref;
mod items;
mod joined;
mod laws;
mod name;
mod path;
mod reading;
mod text;

pub use bytes::{
    after_blanks, continues_identifier, is_blank, is_digit, is_identifier, lower, starts_identifier,
};
pub use decimals::{is_number, push_number, read_number};
pub use fault::PathFault;
pub use folder_ref::FolderRef;
pub use items::Items;
pub use joined::is_segment;
pub use laws::{
    decimal_texts_are_read, path_is_segments, path_texts_are_read, texts_lead_to_paths,
};
pub use name::Name;
pub use path::Path;
pub use text::Text;

#[cfg(test)]
mod tests;
