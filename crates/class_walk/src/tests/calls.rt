//! How many calls of the device a walk takes.

use crate::tests::places::job_of;
use crate::{Scanned, walk};
use path_name::{Path, Text, push_number};
use std::alloc::Global;
use tree_dev::{Entries, Entry, MemoryTree};

/// Puts a file with this number into the folder with that number.
fn put_file(
    alloc: Global,
    tree: &mut MemoryTree,
    folder: u32,
    file: u32,
    ending: &[u8],
) -> Option<()> {
    let mut text = Vec::from_slice(alloc, b"lib/").ok()?;
    push_number(&mut text, folder as u64).ok()?;
    text.extend_from_slice(b"/F").ok()?;
    push_number(&mut text, file as u64).ok()?;
    text.extend_from_slice(ending).ok()?;
    let at = Path::read(alloc, text.as_slice()).ok()?;
    let file = Entry::File(Text::copy_of(alloc, b"<?php class F {}").ok()?);
    tree.put(alloc, &at, file).ok()?;
    Some(())
}

/// Puts a hundred files that are scanned into a folder, and one that is not.
fn put_folder(alloc: Global, tree: &mut MemoryTree, folder: u32) -> Option<()> {
    for file in 0..100 {
        put_file(alloc, tree, folder, file, b".php")?;
    }
    put_file(alloc, tree, folder, 100, b".txt")
}

fn tree_of(alloc: Global, folders: u32) -> Option<MemoryTree> {
    let mut tree = MemoryTree::new(alloc).ok()?;
    for folder in 0..folders {
        put_folder(alloc, &mut tree, folder)?;
    }
    Some(tree)
}

fn found(alloc: Global, tree: &mut MemoryTree) -> Option<Vec<Scanned>> {
    let mut left = Entries { left: 1_000_000 };
    walk(
        alloc,
        tree,
        &[job_of(alloc, "lib", "listed")?],
        &[],
        &mut left,
    )
    .ok()
}

/// How many calls a walk takes over a hundred folders of a hundred files that are scanned and one that is not.
fn calls(alloc: Global) -> Option<u64> {
    let mut tree = tree_of(alloc, 100)?;
    let found = found(alloc, &mut tree)?;
    if found.len() == 10_000 {
        Some(tree.calls())
    } else {
        None
    }
}

/// One call for each file that is scanned, one for each other file, two for each folder.
#[test]
fn calls_of_a_walk(rt: HostRuntime) {
    assert_eq!(rt; calls(rt.alloc()), Some(10_000 + 100 + 2 * 101));
}
