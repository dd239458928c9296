//! Autoload rows.

use path_name::{Name, Path};

/// By which standard a row leads from a class to its file.
#[derive(Clone, Copy, Debug, PartialEq, Eq)]
pub enum RouteKind {
    /// PSR-4: what follows the prefix is the path below the folder.
    Psr4,
    /// PSR-0: the whole name is the path below the folder, and a `_` in the class's own name parts it too.
    Psr0,
}

/// An autoload row: classes whose name begins with the prefix are looked for below the folder.
#[derive(Debug, PartialEq, Eq, Drop)]
pub struct Route {
    /// By which standard.
    pub kind: RouteKind,
    /// The prefix, without leading `\`. One of PSR-4 is empty or ends in `\`.
    pub prefix: Name,
    /// The folder, as it is shown.
    pub folder: Path,
}
