//! What crashes leave: each image of short runs, worked out by hand.

use super::{Call, first_wrong};
use crate::{Did, Kind, Made, MemoryTree, ReadAnswer, Tree};
use path_name::Path;
use std::alloc::Global;
use std::test::Fail;

/// The bytes that torn files hold.
const TORN: &[u8] = b"?";

/// The paths that the runs use, in order.
const PATHS: [&[u8]; 11] = [
    b"a", b"b", b"d", b"d/x", b"e", b"e/x", b"e/y", b"f", b"f/x", b"f/y", b"g",
];

/// What a crash leaves that keeps so many changes: each file with its bytes and each folder, with bytes whole and torn.
#[derive(Clone, Copy)]
struct Image(&'static [u8], &'static [u8]);

/// A write, a rename and a folder.
const NEW_CALLS: [Call; 3] = [
    Call::Write(b"a", b"1", Did::Done),
    Call::Rename(b"a", b"b", Did::Done),
    Call::MakeDir(b"d", Made::New),
];

const NEW_IMAGES: [Image; 4] = [
    Image(b"", b""),
    Image(b"a=1 ", b"a=? "),
    Image(b"b=1 ", b"b=? "),
    Image(b"b=1 d/ ", b"b=? d/ "),
];

/// The same name written before a barrier, after it, and once its file was moved away.
const AGAIN_CALLS: [Call; 6] = [
    Call::Write(b"a", b"1", Did::Done),
    Call::Barrier(1),
    Call::Write(b"a", b"2", Did::Done),
    Call::Rename(b"a", b"b", Did::Done),
    Call::Write(b"a", b"3", Did::Done),
    Call::RemoveFile(b"b", Did::Done),
];

const AGAIN_IMAGES: [Image; 5] = [
    Image(b"a=1 ", b"a=1 "),
    Image(b"a=2 ", b"a=? "),
    Image(b"b=2 ", b"b=? "),
    Image(b"a=3 b=2 ", b"a=? b=? "),
    Image(b"a=3 ", b"a=? "),
];

/// A folder moved with what is in it, a file put over another one, and the folder moved on.
const MOVED_CALLS: [Call; 9] = [
    Call::Write(b"a", b"1", Did::Done),
    Call::MakeDir(b"d", Made::New),
    Call::Write(b"d/x", b"2", Did::Done),
    Call::Barrier(3),
    Call::Rename(b"d", b"e", Did::Done),
    Call::Write(b"e/y", b"3", Did::Done),
    Call::Rename(b"a", b"e/x", Did::Done),
    Call::Rename(b"e", b"f", Did::Done),
    Call::RemoveFile(b"f/y", Did::Done),
];

const MOVED_IMAGES: [Image; 6] = [
    Image(b"a=1 d/ d/x=2 ", b"a=1 d/ d/x=2 "),
    Image(b"a=1 e/ e/x=2 ", b"a=1 e/ e/x=2 "),
    Image(b"a=1 e/ e/x=2 e/y=3 ", b"a=1 e/ e/x=2 e/y=? "),
    Image(b"e/ e/x=1 e/y=3 ", b"e/ e/x=1 e/y=? "),
    Image(b"f/ f/x=1 f/y=3 ", b"f/ f/x=1 f/y=? "),
    Image(b"f/ f/x=1 ", b"f/ f/x=1 "),
];

/// A folder made, filled, emptied and removed.
const GONE_CALLS: [Call; 4] = [
    Call::MakeDir(b"d", Made::New),
    Call::Write(b"d/x", b"1", Did::Done),
    Call::RemoveFile(b"d/x", Did::Done),
    Call::RemoveDir(b"d", Did::Done),
];

const GONE_IMAGES: [Image; 5] = [
    Image(b"", b""),
    Image(b"d/ ", b"d/ "),
    Image(b"d/ d/x=1 ", b"d/ d/x=? "),
    Image(b"d/ ", b"d/ "),
    Image(b"", b""),
];

/// A barrier at the end.
const SAFE_CALLS: [Call; 3] = [
    Call::Write(b"a", b"1", Did::Done),
    Call::Rename(b"a", b"g", Did::Done),
    Call::Barrier(2),
];

const SAFE_IMAGES: [Image; 1] = [Image(b"g=1 ", b"g=1 ")];

/// Adds what stands at a path to a text.
fn note(alloc: Global, tree: &mut MemoryTree, at: &[u8], text: &mut Vec<u8>) -> Result<(), Fail> {
    let path = Path::read(alloc, at)?;
    match tree.read(alloc, &path, 9)? {
        ReadAnswer::Bytes(bytes) => {
            text.extend_from_slice(at)?;
            text.push(b'=')?;
            text.extend_from_slice(bytes.as_slice())?;
            text.push(b' ')?;
        }
        _ => {
            if tree.stat(&path)? == Kind::Folder {
                text.extend_from_slice(at)?;
                text.extend_from_slice(b"/ ")?;
            }
        }
    }
    Ok(())
}

/// Whether a tree holds exactly these entries.
fn reads_as(alloc: Global, tree: &mut MemoryTree, expected: &[u8]) -> Result<bool, Fail> {
    let mut text = Vec::new(alloc);
    for at in PATHS {
        note(alloc, tree, at, &mut text)?;
    }
    Ok(text.as_slice() == expected)
}

/// Whether a run that crashes leaves these entries.
fn leaves(
    alloc: Global,
    calls: &[Call],
    applied: u64,
    torn: Option<&[u8]>,
    expected: &[u8],
) -> Result<bool, Fail> {
    let mut tree = MemoryTree::new(alloc)?;
    if first_wrong(alloc, &mut tree, calls).is_some() || tree.pending() < applied {
        return Ok(false);
    }
    tree.crash(alloc, applied, torn)?;
    Ok(tree.pending() == 0 && reads_as(alloc, &mut tree, expected)?)
}

/// Whether a run has as many changes pending as there are images after the first.
fn has_images(alloc: Global, calls: &[Call], images: &[Image]) -> Result<bool, Fail> {
    let mut tree = MemoryTree::new(alloc)?;
    let all_right = first_wrong(alloc, &mut tree, calls).is_none();
    Ok(all_right && tree.pending().saturating_add(1) == images.len() as u64)
}

/// Whether a run leaves each of these images, with bytes whole and torn.
fn leaves_all(alloc: Global, calls: &[Call], images: &[Image]) -> Result<bool, Fail> {
    for (applied, image) in images.iter().enumerate() {
        if !leaves(alloc, calls, applied as u64, None, image.0)? {
            return Ok(false);
        }
        if !leaves(alloc, calls, applied as u64, Some(TORN), image.1)? {
            return Ok(false);
        }
    }
    has_images(alloc, calls, images)
}

#[test]
fn crashes_of_runs(rt: HostRuntime) -> Result<(), Fail> {
    let alloc = rt.alloc();
    assert!(rt; leaves_all(alloc, &NEW_CALLS, &NEW_IMAGES)?);
    assert!(rt; leaves_all(alloc, &AGAIN_CALLS, &AGAIN_IMAGES)?);
    assert!(rt; leaves_all(alloc, &MOVED_CALLS, &MOVED_IMAGES)?);
    assert!(rt; leaves_all(alloc, &GONE_CALLS, &GONE_IMAGES)?);
    assert!(rt; leaves_all(alloc, &SAFE_CALLS, &SAFE_IMAGES)?);
    Ok(())
}

/// What follows a crash that kept two of the first run's changes, torn: `b=? `.
const LATER_CALLS: [Call; 3] = [
    Call::Read(b"b", TORN),
    Call::Write(b"a", b"4", Did::Done),
    Call::Rename(b"b", b"f", Did::Done),
];

/// Whether a tree that has crashed crashes once more, from what the first crash left.
fn crashes_again(alloc: Global) -> Result<bool, Fail> {
    let mut tree = MemoryTree::new(alloc)?;
    let first = first_wrong(alloc, &mut tree, &NEW_CALLS).is_none();
    if !first || tree.pending() < 2 {
        return Ok(false);
    }
    tree.crash(alloc, 2, Some(TORN))?;
    let second = first_wrong(alloc, &mut tree, &LATER_CALLS).is_none();
    if !second || tree.pending() < 1 {
        return Ok(false);
    }
    tree.crash(alloc, 1, None)?;
    reads_as(alloc, &mut tree, b"a=4 b=? ")
}

/// Whether a tree that was to fail answers again after a crash, and keeps what a failed barrier did not settle pending.
fn answers_again(alloc: Global) -> Result<bool, Fail> {
    let mut tree = MemoryTree::new(alloc)?;
    let done = first_wrong(alloc, &mut tree, &NEW_CALLS).is_none();
    tree.fail_at(alloc, &[9])?;
    tree.stop_at(4);
    if !done || tree.barrier().is_ok() || tree.pending() != 3 {
        return Ok(false);
    }
    tree.crash(alloc, 1, None)?;
    reads_as(alloc, &mut tree, b"a=1 ")
}

#[test]
fn crashes_in_a_row(rt: HostRuntime) -> Result<(), Fail> {
    assert!(rt; crashes_again(rt.alloc())?);
    assert!(rt; answers_again(rt.alloc())?);
    Ok(())
}
