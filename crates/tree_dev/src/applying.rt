//! What changes make of the entries of a tree in memory.

ghost use Rattle.std.specs.Prelude.{◌≡◌, true, OnOk, OnErr};
ghost use Rattle.tree_dev.specs.Trees.{IsTree};
ghost use Rattle.tree_dev.specs.Changes.{changed, has_place, renamed};
ghost use Rattle.tree_dev.specs.declared.change.Change.TheVariants as changes;

use crate::files::Files;
use crate::stored::Stored;
use crate::{Change, renaming};
use path_name::Path;
use std::alloc::{AllocError, Global};

/// Moves all that stands at and below one path to another. Its one refusal is want of memory, which changes
/// nothing.
fn rename(files: &mut Files, alloc: Global, from: &Path, to: &Path) -> Result<(), AllocError>
    requires tree { IsTree files.old }
    requires place { has_place files.old (changes.Renamed from.now to.now) ≡ true }
    ensures ok { OnOk result (files.new ≡ renamed files.old from.now to.now) }
    ensures err { OnErr result (files.new ≡ files.old) }
{
    if files.contains(to) {
        renaming::rename_to_file(files, alloc, from, to)
    } else {
        renaming::rename_to_free(files, alloc, from, to)
    }
}

/// Makes a change that has a place. Its one refusal is want of memory, which changes nothing.
#[tactic(auto, unfolding(crate::specs::Changes::written, crate::specs::Changes::with_folder, crate::specs::Changes::removed))]
pub fn apply(files: &mut Files, alloc: Global, change: &Change) -> Result<(), AllocError>
    requires tree { IsTree files.old }
    requires place { has_place files.old change.now ≡ true }
    ensures ok { OnOk result (files.new ≡ changed files.old change.now) }
    ensures err { OnErr result (files.new ≡ files.old) }
{
    match change {
        Change::Written(at, bytes) => files.insert(at.copy(alloc)?, Stored::File(bytes.share()?)),
        Change::FolderMade(at) => files.insert(at.copy(alloc)?, Stored::Folder),
        Change::Renamed(from, to) => rename(files, alloc, from, to),
        Change::FileRemoved(at) | Change::FolderRemoved(at) => {
            files.remove(at);
            Ok(())
        }
    }
}
