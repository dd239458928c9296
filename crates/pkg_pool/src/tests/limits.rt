//! Pools at the number of each limit, and one past it.

use super::{told_over, tree_of};
use crate::tests::rows::TWO_PACKAGES;
use path_name::{Path, Text, push_number};
use std::alloc::{AllocError, Global};
use std::process::Abort;
use std::test::Fail;
use tree_dev::{Did, Entries, Entry, MemoryTree};

/// A piece of text, so many times.
fn repeated(alloc: Global, piece: &[u8], times: u32) -> Result<Vec<u8>, AllocError> {
    let mut text = Vec::new(alloc);
    for _ in 0..times {
        text.extend_from_slice(piece)?;
    }
    Ok(text)
}

/// A first piece of text, a number, and a last piece.
fn numbered(alloc: Global, first: &[u8], number: u32, last: &[u8]) -> Result<Vec<u8>, AllocError> {
    let mut text = Vec::from_slice(alloc, first)?;
    push_number(&mut text, number as u64)?;
    text.extend_from_slice(last)?;
    Ok(text)
}

fn put_file(
    rt: &impl Abort,
    alloc: Global,
    tree: &mut MemoryTree,
    path: &[u8],
    text: &[u8],
) -> Result<(), Fail> {
    let file = Entry::File(Text::copy_of(alloc, text)?);
    assert_eq!(rt;
        tree.put(alloc, &Path::read(alloc, path)?, file)?,
        Did::Done
    );
    Ok(())
}

/// Whether what is told of a pool over a tree begins so, for a url and so many entries that may be listed; and how many
/// are left.
fn begins(
    rt: &impl Abort,
    alloc: Global,
    tree: &mut MemoryTree,
    url: &[u8],
    left: u32,
    wanted: &[u8],
) -> Result<u32, Fail> {
    let mut root = Vec::from_slice(alloc, b"{\"repositories\":[{\"type\":\"path\",\"url\":\"")?;
    root.extend_from_slice(url)?;
    root.extend_from_slice(b"\"}]}")?;
    let mut left = Entries { left };
    let lines = told_over(alloc, tree, b".", root.as_slice(), &mut left)?;
    assert!(rt; lines.as_slice().starts_with(wanted));
    Ok(left.left)
}

#[test]
fn entries(rt: HostRuntime) -> Result<(), Fail> {
    let mut tree = tree_of(&rt, rt.alloc(), &TWO_PACKAGES)?;
    let left = begins(
        &rt,
        rt.alloc(),
        &mut tree,
        b"p/*",
        3,
        b"x/y 1.0.0 p/a p/a 0\nacme/mail 1.0.0 p/b p/b 0\n",
    )?;
    assert_eq!(rt; left, 0);
    begins(&rt, rt.alloc(), &mut tree, b"p/*", 2, b"entries")?;
    Ok(())
}

#[test]
fn depth(rt: HostRuntime) -> Result<(), Fail> {
    let alloc = rt.alloc();
    let mut tree = MemoryTree::new(alloc)?;
    let mut path = repeated(alloc, b"d/", 64)?;
    path.extend_from_slice(b"composer.json")?;
    put_file(
        &rt,
        alloc,
        &mut tree,
        path.as_slice(),
        b"{\"name\":\"d/d\"}",
    )?;
    let most = repeated(alloc, b"*/", 64)?;
    begins(
        &rt,
        alloc,
        &mut tree,
        most.as_slice(),
        1000,
        b"d/d dev-main d/d/",
    )?;
    let more = repeated(alloc, b"*/", 65)?;
    begins(&rt, alloc, &mut tree, more.as_slice(), 1000, b"depth d/d/")?;
    Ok(())
}

/// Puts packages of one name in a tree, with numbers as their versions.
fn put_versions(
    rt: &impl Abort,
    alloc: Global,
    tree: &mut MemoryTree,
    from: u32,
    to: u32,
) -> Result<(), Fail> {
    for number in from..to {
        let path = numbered(alloc, b"p/", number, b"/composer.json")?;
        let text = numbered(
            alloc,
            b"{\"name\":\"x/y\",\"version\":\"1.0.",
            number,
            b"\"}",
        )?;
        put_file(rt, alloc, tree, path.as_slice(), text.as_slice())?;
    }
    Ok(())
}

#[test]
fn candidates(rt: HostRuntime) -> Result<(), Fail> {
    let mut tree = MemoryTree::new(rt.alloc())?;
    put_versions(&rt, rt.alloc(), &mut tree, 0, 512)?;
    begins(&rt, rt.alloc(), &mut tree, b"p/*", 1000, b"x/y 1.0.")?;
    put_versions(&rt, rt.alloc(), &mut tree, 512, 513)?;
    begins(&rt, rt.alloc(), &mut tree, b"p/*", 1000, b"candidates x/y")?;
    Ok(())
}

/// Puts packages in a tree, with numbers in their names.
fn put_names(
    rt: &impl Abort,
    alloc: Global,
    tree: &mut MemoryTree,
    from: u32,
    to: u32,
) -> Result<(), Fail> {
    for number in from..to {
        let path = numbered(alloc, b"p/", number, b"/composer.json")?;
        let text = numbered(alloc, b"{\"name\":\"x/y", number, b"\"}")?;
        put_file(rt, alloc, tree, path.as_slice(), text.as_slice())?;
    }
    Ok(())
}

#[test]
fn packages(rt: HostRuntime) -> Result<(), Fail> {
    let mut tree = MemoryTree::new(rt.alloc())?;
    put_names(&rt, rt.alloc(), &mut tree, 0, 4_096)?;
    begins(
        &rt,
        rt.alloc(),
        &mut tree,
        b"p/*",
        9_999,
        b"x/y0 dev-main p/0 ",
    )?;
    put_names(&rt, rt.alloc(), &mut tree, 4_096, 4_097)?;
    begins(&rt, rt.alloc(), &mut tree, b"p/*", 9_999, b"packages")?;
    Ok(())
}

/// Puts a composer.json of so many bytes, which is no UTF-8 from its first byte on.
fn put_long(
    rt: &impl Abort,
    alloc: Global,
    tree: &mut MemoryTree,
    path: &[u8],
    len: usize,
) -> Result<(), Fail> {
    let mut text = Vec::new(alloc);
    text.resize(len, 0xff)?;
    let file = Entry::File(Text::of(text));
    assert_eq!(rt;
        tree.put(alloc, &Path::read(alloc, path)?, file)?,
        Did::Done
    );
    Ok(())
}

/// Whether what is told begins so of a package whose composer.json has so many bytes.
fn begins_with(rt: &impl Abort, alloc: Global, len: usize, wanted: &[u8]) -> Result<(), Fail> {
    let mut tree = MemoryTree::new(alloc)?;
    put_long(rt, alloc, &mut tree, b"p/composer.json", len)?;
    begins(rt, alloc, &mut tree, b"p", 9, wanted)?;
    Ok(())
}

#[test]
fn bytes_of_a_file(rt: HostRuntime) -> Result<(), Fail> {
    begins_with(&rt, rt.alloc(), 67_108_864, b"utf8 p/composer.json 0")
}

#[test]
fn a_file_of_one_byte_more(rt: HostRuntime) -> Result<(), Fail> {
    begins_with(&rt, rt.alloc(), 67_108_865, b"file bytes p/composer.json")
}

/// Whether what is told begins so of a package whose composer.json has 14 bytes, and another one with so many.
fn begins_behind(rt: &impl Abort, alloc: Global, len: usize, wanted: &[u8]) -> Result<(), Fail> {
    let mut tree = MemoryTree::new(alloc)?;
    put_file(
        rt,
        alloc,
        &mut tree,
        b"p/a/composer.json",
        b"{\"name\":\"a/a\"}",
    )?;
    put_long(rt, alloc, &mut tree, b"p/b/composer.json", len)?;
    begins(rt, alloc, &mut tree, b"p/*", 9, wanted)?;
    Ok(())
}

#[test]
fn bytes_of_a_pool(rt: HostRuntime) -> Result<(), Fail> {
    begins_behind(&rt, rt.alloc(), 67_108_850, b"utf8 p/b/composer.json 0")
}

#[test]
fn a_pool_of_one_byte_more(rt: HostRuntime) -> Result<(), Fail> {
    begins_behind(&rt, rt.alloc(), 67_108_851, b"pool bytes")
}
