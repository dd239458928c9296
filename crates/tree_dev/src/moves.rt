//! Many entries that are put into a tree in memory, or none of them.

ghost use Rattle.std.specs.Prelude.{◌≡◌, ℕ, OnOk, OnErr, take};
ghost use Rattle.std.specs.FinMap as map;
ghost use Rattle.tree_dev.specs.Moves.{paths_of, with_all, without_all};
ghost use Rattle.tree_dev.specs.Stored.{entry_of};

use crate::files::Files;
use crate::stored::Stored;
use path_name::Path;
use std::alloc::{AllocError, Global};

/// An entry and its path.
#[derive(Debug, Drop)]
pub struct Placed {
    /// The path.
    pub at: Path,
    /// What stands there.
    pub entry: Stored,
}

/// Puts an entry at its path. Its one refusal is want of memory, which changes nothing.
fn put_one(files: &mut Files, alloc: Global, placed: &Placed) -> Result<(), AllocError>
    ensures ok { OnOk result (files.new ≡ map.insert files.old placed.now.at (entry_of placed.now.entry)) }
    ensures err { OnErr result (files.new ≡ files.old) }
{
    files.insert(placed.at.copy(alloc)?, placed.entry.share()?)
}

/// Takes away what is at these paths.
pub fn remove_all(files: &mut Files, paths: &[Path])
    ensures { files.new ≡ without_all files.old paths.now }
{
    for path in paths {
        files.remove(path);
    }
}

/// Takes away what is at the paths of these entries.
pub fn remove_placed(files: &mut Files, entries: &[Placed])
    ensures { files.new ≡ without_all files.old (paths_of entries.now) }
{
    for placed in entries {
        files.remove(&placed.at);
    }
}

/// Puts entries at their paths. Its one refusal is want of memory, and then those that were put are taken away.
pub fn put_all(files: &mut Files, alloc: Global, entries: &[Placed]) -> Result<(), AllocError>
    ensures ok { OnOk result (files.new ≡ with_all files.old entries.now) }
    ensures err { OnErr result ((n : ℕ) × (files.new ≡ without_all (with_all files.old (take n entries.now)) (paths_of (take n entries.now)))) }
{
    for (done, placed) in entries.iter().enumerate() {
        if let Err(fault) = put_one(files, alloc, placed) {
            remove_placed(files, &entries[..done]);
            return Err(fault);
        }
    }
    Ok(())
}
