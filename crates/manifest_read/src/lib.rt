//! Manifests: what a composer.json says, and what an entry of a lock or of installed.json says, by the rules of
//! Composer's documentation ("The composer.json schema").
#![tactic(auto)]

mod autoload;
mod config;
mod copies;
mod document;
mod fault;
pub mod fields;
mod key;
mod laws;
mod links;
mod names;
mod package;
mod pointer;
mod repositories;
mod settings;
mod small_name;
mod types;
mod values;

pub use document::from_doc;
pub use fault::FieldFault;
pub use laws::{name_grammar, pointers, well_formed};
pub use package::{Head, package_from_doc, read_head};
pub use types::{
    Autoload, Link, Manifest, Package, PathText, PlatformRow, PrefixDirs, Repository, Role,
};

#[cfg(test)]
mod root_tests;
#[cfg(test)]
mod samples;
#[cfg(test)]
mod tests;
