//! The versions of a journal's text.

/// A version of a journal's text.
#[derive(Clone, Copy, Debug, PartialEq, Eq)]
pub enum Version {
    /// Parts that put something in place alone. It is still read.
    One,
    /// With parts that take a target away. It is the version that is written.
    Two,
}
