//! Loops over any device, which show that each of their exits goes by one line: one that keeps a stretch steady, and one
//! through which every tree that a crash may leave passes.

ghost use Rattle.std.specs.Prelude.{◌≡◌, All, Option, None};
ghost use Rattle.tree_dev.specs.Trees.{behind};
ghost use Rattle.tree_dev.specs.declared.entry.Entry.{Entry};
ghost use Rattle.tree_dev.specs.Steady.{EachImage, HasAt, IsStaged, IsWhole, Steady, Through};

use crate::{Did, Kind, Made, ReadAnswer, Tree, TreeFault};
use path_name::Path;
use std::alloc::Global;

/// Makes a folder, and copies a file into a place of `.install`.
fn copy_one<T: Tree>(
    alloc: Global,
    tree: &mut T,
    project: &Path,
    folder: &Path,
    from: &Path,
    to: &Path,
) -> Result<bool, TreeFault>
    requires folder { IsStaged project.now folder.now }
    requires to { IsStaged project.now to.now }
    ensures { Steady project.now (T.meaning tree.old) (T.meaning tree.new) }
{
    if tree.make_dir(folder)? == Made::Misplaced {
        return Ok(false);
    }
    match tree.read(alloc, from, 1000)? {
        ReadAnswer::Bytes(bytes) => {
            let did = tree.write(to, bytes.as_slice())?;
            Ok(did == Did::Done)
        }
        _ => Ok(false),
    }
}

/// Copies a file to several places of `.install`.
pub fn copy_all<T: Tree>(
    alloc: Global,
    tree: &mut T,
    project: &Path,
    folder: &Path,
    from: &Path,
    places: &[Path],
) -> Result<bool, TreeFault>
    requires folder { IsStaged project.now folder.now }
    requires places { All (IsStaged project.now) places.now }
    ensures { Steady project.now (T.meaning tree.old) (T.meaning tree.new) }
{
    for to in places {
        if !copy_one(alloc, tree, project, folder, from, to)? {
            return Ok(false);
        }
    }
    tree.barrier()?;
    Ok(true)
}

/// Moves what is there from one place to another, both apart from a path that is kept.
fn move_one<T: Tree>(tree: &mut T, kept: &Path, from: &Path, to: &Path) -> Result<bool, TreeFault>
    requires whole { IsWhole (T.meaning tree.old).disks.now }
    requires from_apart { behind from.now kept.now ≡ None }
    requires to_apart { behind to.now kept.now ≡ None }
    ensures whole { IsWhole (T.meaning tree.new).disks.now }
    ensures through { (entry : Option Entry) → EachImage (T.meaning tree.old) (HasAt kept.now entry) → Through (T.meaning tree.old) (T.meaning tree.new) (HasAt kept.now entry) }
{
    match tree.stat(from)? {
        Kind::Absent => Ok(false),
        _ => Ok(tree.rename(from, to)? == Did::Done),
    }
}

/// Moves each of several entries, and keeps what stands at a path in whatever a crash may leave.
pub fn move_all<T: Tree>(
    tree: &mut T,
    kept: &Path,
    from: &[Path],
    to: &Path,
) -> Result<bool, TreeFault>
    requires whole { IsWhole (T.meaning tree.old).disks.now }
    requires from_apart { All (λ at. behind at kept.now ≡ None) from.now }
    requires to_apart { behind to.now kept.now ≡ None }
    ensures through { (entry : Option Entry) → EachImage (T.meaning tree.old) (HasAt kept.now entry) → Through (T.meaning tree.old) (T.meaning tree.new) (HasAt kept.now entry) }
{
    for at in from {
        if !move_one(tree, kept, at, to)? {
            return Ok(false);
        }
    }
    tree.barrier()?;
    Ok(true)
}
