//! The parts by which documents of Composer are read: keys, values by their form, and pointers to what is at fault.

pub use crate::config::switch;
pub use crate::key::Key;
pub use crate::pointer::{bad_field, below, not_offered};
pub use crate::repositories::{begins_with_slash, folder, path_type};
pub use crate::settings::minimum;
pub use crate::values::{boolean, items, list, object, owned_text, pairs, text, value};
