//! What stands in a tree: the old project or the new one, and what is around it.

use super::jobs::{BESIDE, KEPT, Place, Staged};
use path_name::{Name, Path};
use std::alloc::Global;
use std::test::Fail;
use tree_dev::{Kind, ListAnswer, MemoryTree, ReadAnswer, Tree};

/// Whether a file holds this text; with none, whether no file is there.
fn holds(
    alloc: Global,
    tree: &mut MemoryTree,
    at: &str,
    text: Option<&'static str>,
) -> Result<bool, Fail> {
    match (
        tree.read(alloc, &Path::read(alloc, at.as_bytes())?, 99)?,
        text,
    ) {
        (ReadAnswer::Bytes(found), Some(text)) => Ok(found.as_slice() == text.as_bytes()),
        (ReadAnswer::Bytes(_), None) => Ok(false),
        (_, text) => Ok(text.is_none()),
    }
}

/// Whether each file is as in the new project, or as in the old one.
fn are(alloc: Global, tree: &mut MemoryTree, places: &[Place], new: bool) -> Result<bool, Fail> {
    for place in places {
        let text = if new { place.new } else { place.old };
        if !holds(alloc, tree, place.at, text)? {
            return Ok(false);
        }
    }
    Ok(true)
}

/// Whether an entry of this kind is at a path.
pub fn is_kind(alloc: Global, tree: &mut MemoryTree, at: &str, kind: Kind) -> Result<bool, Fail> {
    Ok(tree.stat(&Path::read(alloc, at.as_bytes())?)? == kind)
}

/// Whether each of these names is one that may stand there.
fn may_stand(names: &[Name]) -> bool {
    for name in names {
        if !BESIDE
            .iter()
            .any(|known| known.as_bytes() == name.as_slice())
        {
            return false;
        }
    }
    true
}

/// Whether nothing else stands beside each other.
fn has_no_more(alloc: Global, tree: &mut MemoryTree) -> Result<bool, Fail> {
    match tree.list(alloc, &Path::root(alloc), 99)? {
        ListAnswer::Names(names) => Ok(may_stand(names.as_slice())),
        _ => Ok(false),
    }
}

/// Whether what no job touches is as before, and nothing came to it.
fn is_kept(alloc: Global, tree: &mut MemoryTree) -> Result<bool, Fail> {
    for (at, text) in &KEPT {
        if !holds(alloc, tree, *at, Some(*text))? {
            return Ok(false);
        }
    }
    Ok(is_kind(alloc, tree, "empty", Kind::Folder)? && has_no_more(alloc, tree)?)
}

/// Whether the project is the new one, or, if it may be, the old one; and all around it is as before.
pub fn is_whole(
    alloc: Global,
    tree: &mut MemoryTree,
    staged: &Staged,
    may_be_old: bool,
) -> Result<bool, Fail> {
    if !is_kept(alloc, tree)? {
        return Ok(false);
    }
    if are(alloc, tree, staged.places, true)? {
        return Ok(true);
    }
    Ok(may_be_old && are(alloc, tree, staged.places, false)?)
}
