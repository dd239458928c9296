//! The targets of a job.

ghost use Rattle.std.specs.Prelude.{◌↔◌, IsTrue};
ghost use Rattle.install_world.specs.Targets.{IsTargetPath};

use path_name::Path;

/// The place of a part of a job, counted from the project's folder.
#[derive(Debug, PartialEq, Eq, Drop)]
pub struct Target {
    /// `composer.lock`, `vendor`, or a path below `vendor`.
    pub path: Path,
    /// Whether the part takes away what stands there. Else it puts something there in place of it.
    pub gone: bool,
}

/// Whether a path can be a target: it is `composer.lock` or `vendor`, or lies below `vendor`.
pub fn is_target_path(path: &Path) -> bool
    ensures { IsTrue result ↔ IsTargetPath path.now }
{
    let text = path.text();
    match path.first() {
        None => false,
        Some(first) => first == b"vendor".as_slice() || text == b"composer.lock".as_slice(),
    }
}
