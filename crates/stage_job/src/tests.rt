mod jobs;
mod quiet;

use crate::StageFault;
use jobs::staged;
use path_name::{Path, Text};
use quiet::Quiet;
use std::alloc::Global;
use std::test::Fail;
use tree_dev::{Did, Entry, FILE_BYTES, LimitKind, MemoryTree, ReadAnswer, Tree};

/// What stands at a path.
#[derive(Clone, Copy, PartialEq, Eq)]
enum Content {
    File(&'static [u8]),
    Folder,
    Other,
    Absent,
}

/// What staging answers: how many entries may still be listed, or why nothing is staged.
#[derive(Clone, Copy)]
enum Outcome {
    Staged(u32),
    MissingPath(&'static [u8]),
    OtherEntry(&'static [u8]),
    TooLong(&'static [u8]),
    TooDeep,
    TooMany,
    Vanished(&'static [u8]),
}

/// Two packages, how many entries may be listed, and what comes of it.
#[derive(Clone, Copy)]
struct Row(&'static [u8], &'static [u8], u32, Outcome);

/// A project `p` that an install has claimed, packages, and what is none.
const START: [(&[u8], Content); 17] = [
    (b"p/.install", Content::Folder),
    (b"p/composer.json", Content::File(b"{}")),
    (b"p/vendor/b/x", Content::File(b"x")),
    (b"s/.git/HEAD", Content::File(b"h")),
    (b"s/.install/f", Content::File(b"f")),
    (b"s/empty", Content::Folder),
    (b"s/src/.git/c", Content::File(b"c")),
    (b"s/src/a", Content::File(b"a")),
    (b"s/src/vendor/v", Content::File(b"v")),
    (b"s/vendor/w", Content::File(b"w")),
    (b"none/.git/HEAD", Content::File(b"")),
    (b"none/vendor/w", Content::Other),
    (b"file", Content::File(b"")),
    (b"link", Content::Other),
    (b"linked/a", Content::File(b"")),
    (b"linked/l", Content::Other),
    (b"linked/z", Content::Other),
];

/// What stands in the project once the package `s` is staged twice.
const STAGED: [(&[u8], Content); 27] = [
    (b"p/.install/new/0", Content::File(b"lock")),
    (b"p/.install/new/1/.git", Content::Absent),
    (b"p/.install/new/1/.install", Content::Absent),
    (b"p/.install/new/1/empty", Content::Folder),
    (b"p/.install/new/1/src/.git/c", Content::File(b"c")),
    (b"p/.install/new/1/src/a", Content::File(b"a")),
    (b"p/.install/new/1/src/vendor/v", Content::File(b"v")),
    (b"p/.install/new/1/vendor", Content::Absent),
    (b"p/.install/new/2", Content::Absent),
    (b"p/.install/new/3/x/empty", Content::Folder),
    (b"p/.install/new/3/x/src/vendor/v", Content::File(b"v")),
    (b"p/.install/new/3/x/vendor", Content::Absent),
    (b"p/.install/new/3/y", Content::Folder),
    (b"p/.install/new/3/y/z", Content::File(b"z")),
    (b"p/.install/new/4", Content::Absent),
    (b"p/.install/old", Content::Folder),
    (b"p/.install/journal", Content::Absent),
    (b"p/.install/journal.tmp", Content::Absent),
    (b"p/composer.json", Content::File(b"{}")),
    (b"p/composer.lock", Content::Absent),
    (b"p/vendor", Content::Folder),
    (b"p/vendor/a", Content::Absent),
    (b"p/vendor/b/x", Content::File(b"x")),
    (b"p/vendor/c", Content::Absent),
    (b"s/vendor/w", Content::File(b"w")),
    (b"s/.git/HEAD", Content::File(b"h")),
    (b"s/src/a", Content::File(b"a")),
];

/// What stands outside of `.install` whatever comes of it.
const KEPT: [(&[u8], Content); 8] = [
    (b"p/.install/journal", Content::Absent),
    (b"p/composer.json", Content::File(b"{}")),
    (b"p/composer.lock", Content::Absent),
    (b"p/vendor/a", Content::Absent),
    (b"p/vendor/b/x", Content::File(b"x")),
    (b"p/vendor/c", Content::Absent),
    (b"s/src/a", Content::File(b"a")),
    (b"linked/a", Content::File(b"")),
];

/// Each refusal comes before what a later part would be refused for.
const ROWS: [Row; 15] = [
    Row(b"s", b"s", 20, Outcome::Staged(0)),
    Row(b"s", b"s", 99, Outcome::Staged(79)),
    Row(b"none", b"s", 12, Outcome::Staged(0)),
    Row(b"edge", b"s", 99, Outcome::Staged(25)),
    Row(b"absent", b"file", 99, Outcome::MissingPath(b"absent")),
    Row(b"file", b"absent", 99, Outcome::OtherEntry(b"file")),
    Row(b"link", b"file", 99, Outcome::OtherEntry(b"link")),
    Row(b"linked", b"deep", 99, Outcome::OtherEntry(b"linked/l")),
    Row(b"deep", b"linked", 99, Outcome::TooDeep),
    Row(b"long", b"deep", 99, Outcome::TooLong(b"long/f")),
    Row(b"s", b"absent", 4, Outcome::TooMany),
    Row(b"s", b"absent", 5, Outcome::TooMany),
    Row(b"s", b"absent", 10, Outcome::MissingPath(b"absent")),
    Row(b"s", b"s", 19, Outcome::TooMany),
    Row(b"s", b"linked", 99, Outcome::OtherEntry(b"linked/l")),
];

/// The entry of `deep` that lies 65 segments below it, or of `edge` that lies 64 below.
fn deep_text(alloc: Global, name: &[u8], levels: u32) -> Option<Vec<u8>> {
    let mut text = Vec::from_slice(alloc, name).ok()?;
    for _ in 0..levels {
        text.extend_from_slice(b"/a").ok()?;
    }
    Some(text)
}

fn put(alloc: Global, tree: &mut MemoryTree, at: &[u8], entry: Entry) -> Option<()> {
    let path = Path::read(alloc, at).ok()?;
    match tree.put(alloc, &path, entry).ok()? {
        Did::Done => Some(()),
        Did::Misplaced => None,
    }
}

fn entry(alloc: Global, content: Content) -> Option<Entry> {
    match content {
        Content::File(bytes) => Some(Entry::File(Text::copy_of(alloc, bytes).ok()?)),
        Content::Folder => Some(Entry::Folder),
        Content::Other => Some(Entry::Other),
        Content::Absent => None,
    }
}

/// The tree that each row begins with.
fn start(alloc: Global) -> Option<MemoryTree> {
    let mut tree = MemoryTree::new(alloc).ok()?;
    for (at, content) in START {
        put(alloc, &mut tree, at, entry(alloc, content)?)?;
    }
    let edge = deep_text(alloc, b"edge", 64)?;
    put(alloc, &mut tree, edge.as_slice(), Entry::Folder)?;
    let deep = deep_text(alloc, b"deep", 65)?;
    put(alloc, &mut tree, deep.as_slice(), Entry::Folder)?;
    Some(tree)
}

/// Puts a file that is one byte too long.
fn put_long(alloc: Global, tree: &mut MemoryTree) -> Option<()> {
    let mut bytes = Vec::new(alloc);
    bytes.resize(FILE_BYTES as usize + 1, 0).ok()?;
    put(alloc, tree, b"long/f", Entry::File(Text::of(bytes)))
}

fn stands(alloc: Global, tree: &mut MemoryTree, at: &[u8], content: Content) -> bool {
    let Ok(path) = Path::read(alloc, at) else {
        return false;
    };
    match (tree.read(alloc, &path, 9), content) {
        (Ok(ReadAnswer::Bytes(bytes)), Content::File(expected)) => bytes.as_slice() == expected,
        (Ok(ReadAnswer::NotFile), Content::Folder) => true,
        (Ok(ReadAnswer::Absent), Content::Absent) => true,
        _ => false,
    }
}

/// The first path at which something else stands.
fn first_wrong(
    alloc: Global,
    tree: &mut MemoryTree,
    rows: &[(&'static [u8], Content)],
) -> Option<&'static [u8]> {
    for (at, content) in rows {
        if !stands(alloc, tree, at, *content) {
            return Some(*at);
        }
    }
    None
}

/// Why staging ends as a row says.
fn fault(alloc: Global, outcome: Outcome) -> Option<StageFault> {
    match outcome {
        Outcome::Staged(_) => None,
        Outcome::MissingPath(text) => {
            Some(StageFault::MissingPath(Text::copy_of(alloc, text).ok()?))
        }
        Outcome::OtherEntry(at) => Some(StageFault::OtherEntry(Path::read(alloc, at).ok()?)),
        Outcome::TooLong(at) => Some(StageFault::Limit(LimitKind::FileBytes(Path::read(
            alloc, at,
        ).ok()?))),
        Outcome::TooDeep => {
            let text = deep_text(alloc, b"deep", 65)?;
            let path = Path::read(alloc, text.as_slice()).ok()?;
            Some(StageFault::Limit(LimitKind::Depth(path)))
        }
        Outcome::TooMany => Some(StageFault::Limit(LimitKind::Entries)),
        Outcome::Vanished(at) => Some(StageFault::Vanished(Path::read(alloc, at).ok()?)),
    }
}

fn is_expected(
    alloc: Global,
    answer: &Result<(), StageFault>,
    left: u32,
    outcome: Outcome,
) -> bool {
    match (answer, outcome) {
        (Ok(()), Outcome::Staged(expected)) => left == expected,
        (Err(found), outcome) => match fault(alloc, outcome) {
            Some(expected) => *found == expected,
            None => false,
        },
        _ => false,
    }
}

/// Whether a row comes out as it says.
fn passes(alloc: Global, device: &mut Quiet, row: Row) -> bool {
    match staged(alloc, device, row.0, row.1, row.2) {
        None => false,
        Some((answer, left)) => {
            is_expected(alloc, &answer, left, row.3)
                && first_wrong(alloc, &mut device.tree, &KEPT).is_none()
        }
    }
}

#[test]
fn packages_are_staged(rt: HostRuntime) -> Result<(), Fail> {
    let alloc = rt.alloc();
    let tree = start(alloc).expect(&rt, "a tree");
    let mut device = Quiet::over(tree, None);
    assert!(rt; passes(alloc, &mut device, Row(b"s", b"s", 20, Outcome::Staged(0))));
    assert_eq!(rt; first_wrong(alloc, &mut device.tree, &STAGED), None);
    assert_eq!(rt; device.tree.pending(), 0);
    assert_eq!(rt; device.tree.writes(), 8);
    Ok(())
}

#[test]
fn first_refusal_counts(rt: HostRuntime) -> Result<(), Fail> {
    let alloc = rt.alloc();
    for (number, row) in ROWS.iter().enumerate() {
        let mut tree = start(alloc).expect(&rt, "a tree");
        if row.0 == b"long".as_slice() {
            put_long(alloc, &mut tree).expect(&rt, "a long file");
        }
        let mut device = Quiet::over(tree, None);
        assert!(rt; passes(alloc, &mut device, *row), "row {number}");
    }
    Ok(())
}

#[test]
fn entries_vanish(rt: HostRuntime) -> Result<(), Fail> {
    let alloc = rt.alloc();
    let tree = start(alloc).expect(&rt, "a tree");
    let hidden = Path::read(alloc, b"s/src/a")?;
    let mut device = Quiet::over(tree, Some(hidden));
    let row = Row(b"s", b"s", 99, Outcome::Vanished(b"s/src/a"));
    let Some((answer, left)) = staged(alloc, &mut device, row.0, row.1, row.2) else {
        panic!(rt; "no job");
    };
    assert!(rt; is_expected(alloc, &answer, left, row.3));
    Ok(())
}

/// Whether staging whose call of this number fails answers a fault, and a crash then that keeps part of what is pending
/// leaves the project as it was.
fn fails_well(alloc: Global, call: u64, quarters: u64, torn: Option<&[u8]>) -> Option<bool> {
    let mut tree = start(alloc)?;
    tree.fail_at(alloc, &[call]).ok()?;
    let mut device = Quiet::over(tree, None);
    let (answer, _) = staged(alloc, &mut device, b"s", b"s", 99)?;
    let pending = device.tree.pending();
    let applied = (pending / 4).saturating_mul(quarters).min(pending);
    device.tree.crash(alloc, applied, torn).ok()?;
    let kept = first_wrong(alloc, &mut device.tree, &KEPT).is_none();
    Some(kept && answer == Err(StageFault::DeviceFault))
}

/// How many calls staging makes.
fn calls(alloc: Global) -> Option<u64> {
    let mut device = Quiet::over(start(alloc)?, None);
    let (answer, _) = staged(alloc, &mut device, b"s", b"s", 99)?;
    match answer {
        Ok(()) => Some(device.tree.calls()),
        Err(_) => None,
    }
}

#[test]
fn each_call_fails(rt: HostRuntime) -> Result<(), Fail> {
    let alloc = rt.alloc();
    let calls = calls(alloc).expect(&rt, "a job");
    for call in 1..=calls {
        for quarters in 0..=4 {
            assert_eq!(rt; fails_well(alloc, call, quarters, None), Some(true));
            assert_eq!(rt; fails_well(alloc, call, quarters, Some(b"?")), Some(true));
        }
    }
    Ok(())
}
