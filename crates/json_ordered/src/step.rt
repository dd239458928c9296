//! How far reading has come.

use crate::doc::Doc;

/// What the place behind the last bytes is.
#[derive(Drop)]
pub(crate) enum Step {
    /// A value has ended.
    Ended(Doc),
    /// A value comes.
    Coming,
}
