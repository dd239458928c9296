//! What a journal says.

use crate::Target;
use path_name::Items;

/// What a journal says: what an install that was committed is to do.
#[derive(Debug, PartialEq, Eq, Drop)]
pub struct Journal {
    /// The generation of the project once it is done, at least 1.
    pub generation: u64,
    /// The targets of the job, in the order of its parts.
    pub targets: Items<Target>,
}
