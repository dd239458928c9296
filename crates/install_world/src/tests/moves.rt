//! Parts that are moved, and a folder that is removed, in a tree in memory.

use crate::{PartPlaces, move_part, remove_folder};
use path_name::{Path, Text};
use std::alloc::Global;
use std::process::Abort;
use std::test::Fail;
use tree_dev::{Did, Entry, Kind, MemoryTree, Tree};

/// Files that stand: what is staged, what is at the targets, and what was kept.
const FILES: [&[u8]; 5] = [
    b".install/new/0/a",
    b".install/old/k/f",
    b"vendor/x/b",
    b"vendor/y/c",
    b"app.php",
];

/// The moves that are made, in order: of which target and part, and whether it is to be gone.
const MOVES: [(&[u8], &[u8], bool); 3] = [
    (b"vendor/x", b"0", false),
    (b"vendor/x", b"0", false),
    (b"vendor/y", b"1", true),
];

/// What then stands.
const MOVED: [(&[u8], Kind); 5] = [
    (b"vendor/x/a", Kind::File),
    (b".install/old/0/b", Kind::File),
    (b".install/new/0", Kind::Absent),
    (b"vendor/y", Kind::Absent),
    (b".install/old/1/c", Kind::File),
];

/// What stands once `.install` was removed.
const AFTER: [(&[u8], Kind); 3] = [
    (b"vendor/x/a", Kind::File),
    (b"app.php", Kind::File),
    (b".install", Kind::Absent),
];

fn path(alloc: Global, text: &[u8]) -> Result<Path, Fail> {
    Ok(Path::read(alloc, text)?)
}

fn put_file(alloc: Global, tree: &mut MemoryTree, at: &[u8]) -> Result<(), Fail> {
    let file = Entry::File(Text::of(Vec::from_slice(alloc, b"x")?));
    tree.put(alloc, &path(alloc, at)?, file)?;
    Ok(())
}

fn project(alloc: Global) -> Result<MemoryTree, Fail> {
    let mut tree = MemoryTree::new(alloc)?;
    for at in &FILES {
        put_file(alloc, &mut tree, at)?;
    }
    Ok(tree)
}

fn places(alloc: Global, target: &[u8], number: &[u8]) -> Result<PartPlaces, Fail> {
    Ok(PartPlaces {
        target: path(alloc, target)?,
        staged: path(alloc, b".install/new")?.follow(alloc, number)?,
        kept: path(alloc, b".install/old")?.follow(alloc, number)?,
    })
}

fn is_moved(
    alloc: Global,
    tree: &mut MemoryTree,
    target: &[u8],
    number: &[u8],
    gone: bool,
) -> Result<bool, Fail> {
    let places = places(alloc, target, number)?;
    Ok(move_part(tree, &places, gone)? == Did::Done)
}

fn are_moved(alloc: Global, tree: &mut MemoryTree) -> Result<bool, Fail> {
    for (target, number, gone) in &MOVES {
        if !is_moved(alloc, tree, target, number, *gone)? {
            return Ok(false);
        }
    }
    Ok(true)
}

fn is_kind(alloc: Global, tree: &mut MemoryTree, at: &[u8], kind: Kind) -> Result<bool, Fail> {
    Ok(tree.stat(&path(alloc, at)?)? == kind)
}

fn stands(
    alloc: Global,
    tree: &mut MemoryTree,
    rows: &[(&'static [u8], Kind)],
) -> Result<bool, Fail> {
    for (at, kind) in rows {
        if !is_kind(alloc, tree, at, *kind)? {
            return Ok(false);
        }
    }
    Ok(true)
}

#[test]
fn parts_are_moved(rt: HostRuntime) -> Result<(), Fail> {
    let alloc = rt.alloc();
    let mut tree = project(alloc)?;
    assert!(rt; are_moved(alloc, &mut tree)?);
    assert!(rt; stands(alloc, &mut tree, &MOVED)?);
    Ok(())
}

#[test]
fn folders_are_removed(rt: HostRuntime) -> Result<(), Fail> {
    let alloc = rt.alloc();
    let mut tree = project(alloc)?;
    assert!(rt; are_moved(alloc, &mut tree)?);
    remove_folder(alloc, &mut tree, &path(alloc, b".install")?)?;
    assert!(rt; stands(alloc, &mut tree, &AFTER)?);
    Ok(())
}
