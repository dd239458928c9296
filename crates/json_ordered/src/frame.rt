//! What is open around a place.

use crate::doc::Doc;
use path_name::Name;

/// An array or object that is open, with what has come of it so far.
#[derive(Drop)]
pub(crate) enum Frame {
    Array {
        items: Vec<Doc>,
    },
    /// Members in the order in which they came, repeated names too, and the name whose value comes.
    Object {
        members: Vec<(Name, Doc)>,
        name: Vec<u8>,
    },
}
