//! All that stands in a tree in memory, taken down and put up again.

use path_name::{Path, Text};
use std::alloc::Global;
use std::test::Fail;
use tree_dev::{Entry, ListAnswer, MemoryTree, ReadAnswer, Tree};

/// A file that stands.
#[derive(Debug, PartialEq, Eq, Drop)]
pub struct File {
    at: Path,
    text: Text,
}

/// The files and folders of a tree.
#[derive(Debug, Drop)]
pub struct Standing {
    /// The files.
    pub files: Vec<File>,
    folders: Vec<Path>,
}

/// Adds what is at a path, and what is ahead if it is a folder.
fn add(
    alloc: Global,
    tree: &mut MemoryTree,
    at: Path,
    ahead: &mut Vec<Path>,
    standing: &mut Standing,
) -> Result<(), Fail> {
    if let ReadAnswer::Bytes(text) = tree.read(alloc, &at, 100_000)? {
        standing.files.push(File { at, text })?;
        return Ok(());
    }
    if let ListAnswer::Names(names) = tree.list(alloc, &at, 1_000)? {
        for name in names.as_slice() {
            ahead.push(at.follow(alloc, name.as_slice())?)?;
        }
    }
    standing.folders.push(at)?;
    Ok(())
}

/// What stands in a tree; at most the first thousand entries of it.
pub fn standing_in(alloc: Global, tree: &mut MemoryTree) -> Result<Standing, Fail> {
    let mut standing = Standing {
        files: Vec::new(alloc),
        folders: Vec::new(alloc),
    };
    let mut ahead = Vec::new(alloc);
    ahead.push(Path::root(alloc))?;
    for _ in 0..1_000u32 {
        if let Some(at) = ahead.pop() {
            add(alloc, tree, at, &mut ahead, &mut standing)?;
        }
    }
    Ok(standing)
}

/// A tree in which this stands.
pub fn tree_with(alloc: Global, standing: &Standing) -> Result<MemoryTree, Fail> {
    let mut tree = MemoryTree::new(alloc)?;
    for at in &standing.folders {
        tree.put(alloc, at, Entry::Folder)?;
    }
    for file in &standing.files {
        tree.put(alloc, &file.at, Entry::File(file.text.copy(alloc)?))?;
    }
    Ok(tree)
}
