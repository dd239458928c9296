//! The content hash of a manifest, and ids of texts.
#![tactic(auto)]

mod ids;
mod text;

pub use ids::{content_hash, text_id};
pub use text::hashed_text;

#[cfg(test)]
mod tests;
