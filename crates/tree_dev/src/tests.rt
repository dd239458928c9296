mod crashes;

use crate::{
    Did, Entry, Failed, Kind, ListAnswer, Made, MemorySink, MemoryTree, ReadAnswer, Sink, Tree,
    TreeFault,
};
use path_name::{Path, Text};
use std::alloc::{AllocError, Global};
use std::process::Abort;
use std::test::Fail;

/// An entry without its memory.
#[derive(Clone, Copy)]
enum Content {
    File(&'static [u8]),
    Folder,
    Other,
}

/// What is expected of reading.
#[derive(Clone, Copy)]
enum Expected {
    Bytes(&'static [u8]),
    Absent,
    NotFile,
    TooLong,
}

fn text(alloc: Global, bytes: &[u8]) -> Result<Text, AllocError> {
    Ok(Text::of(Vec::from_slice(alloc, bytes)?))
}

fn entry(alloc: Global, content: Content) -> Result<Entry, AllocError> {
    match content {
        Content::File(bytes) => Ok(Entry::File(text(alloc, bytes)?)),
        Content::Folder => Ok(Entry::Folder),
        Content::Other => Ok(Entry::Other),
    }
}

fn answer(alloc: Global, expected: Expected) -> Result<ReadAnswer, AllocError> {
    match expected {
        Expected::Bytes(bytes) => Ok(ReadAnswer::Bytes(text(alloc, bytes)?)),
        Expected::Absent => Ok(ReadAnswer::Absent),
        Expected::NotFile => Ok(ReadAnswer::NotFile),
        Expected::TooLong => Ok(ReadAnswer::TooLong),
    }
}

/// Paths, what is put there, and the answers.
const PUTS: [(&[u8], Content, Did); 16] = [
    (b"a/b/c", Content::File(b"xy"), Did::Done),
    (b"a/b", Content::File(b"x"), Did::Misplaced),
    (b"a/b", Content::Other, Did::Misplaced),
    (b"a/b", Content::Folder, Did::Done),
    (b"a/b/c/d", Content::File(b"x"), Did::Misplaced),
    (b"a/b/c/d/e", Content::Folder, Did::Misplaced),
    (b".", Content::Folder, Did::Misplaced),
    (b"a/b/c", Content::File(b"z"), Did::Done),
    (b"a/l", Content::Other, Did::Done),
    (b"a/l/x", Content::Folder, Did::Misplaced),
    (b"a/l", Content::File(b""), Did::Done),
    (b"e/f/g", Content::Folder, Did::Done),
    (b"o", Content::File(b"o"), Did::Done),
    (b"o", Content::Other, Did::Done),
    (b"p", Content::File(b"p"), Did::Done),
    (b"p", Content::Folder, Did::Done),
];

/// Paths, what is there then, how many bytes are allowed, and what reading answers.
const LOOKS: [(&[u8], Kind, u64, Expected); 15] = [
    (b".", Kind::Folder, 9, Expected::NotFile),
    (b"a", Kind::Folder, 9, Expected::NotFile),
    (b"a/b", Kind::Folder, 9, Expected::NotFile),
    (b"a/b/c", Kind::File, 1, Expected::Bytes(b"z")),
    (b"a/b/c", Kind::File, 0, Expected::TooLong),
    (b"a/b/c/d", Kind::Absent, 9, Expected::Absent),
    (b"a/b/d", Kind::Absent, 9, Expected::Absent),
    (b"a/l", Kind::File, 0, Expected::Bytes(b"")),
    (b"a/l/x", Kind::Absent, 9, Expected::Absent),
    (b"b", Kind::Absent, 9, Expected::Absent),
    (b"e", Kind::Folder, 9, Expected::NotFile),
    (b"e/f/g", Kind::Folder, 9, Expected::NotFile),
    (b"e/f/g/h", Kind::Absent, 9, Expected::Absent),
    (b"o", Kind::Other, 9, Expected::NotFile),
    (b"p", Kind::Folder, 9, Expected::NotFile),
];

fn put_row(
    rt: &impl Abort,
    alloc: Global,
    tree: &mut MemoryTree,
    at: &[u8],
    content: Content,
    did: Did,
) -> Result<(), Fail> {
    let path = Path::read(alloc, at)?;
    assert_eq!(rt; tree.put(alloc, &path, entry(alloc, content)?)?, did);
    Ok(())
}

fn look_row(
    rt: &impl Abort,
    alloc: Global,
    tree: &mut MemoryTree,
    at: &[u8],
    kind: Kind,
    most: u64,
    expected: Expected,
) -> Result<(), Fail> {
    let path = Path::read(alloc, at)?;
    assert_eq!(rt; tree.stat(&path)?, kind);
    assert_eq!(rt; tree.read(alloc, &path, most)?, answer(alloc, expected)?);
    Ok(())
}

#[test]
fn puts_and_looks(rt: HostRuntime) -> Result<(), Fail> {
    let alloc = rt.alloc();
    let mut tree = MemoryTree::new(alloc)?;
    for (at, content, did) in PUTS {
        put_row(&rt, alloc, &mut tree, at, content, did)?;
    }
    for (at, kind, most, expected) in LOOKS {
        look_row(&rt, alloc, &mut tree, at, kind, most, expected)?;
    }
    assert_eq!(rt; tree.calls(), 30);
    Ok(())
}

#[test]
fn fails_where_told(rt: HostRuntime) -> Result<(), Fail> {
    let alloc = rt.alloc();
    let mut tree = MemoryTree::new(alloc)?;
    let root = Path::root(alloc);
    tree.fail_at(alloc, &[9])?;
    tree.fail_at(alloc, &[4, 2])?;
    assert_eq!(rt; tree.stat(&root), Ok(Kind::Folder));
    assert_eq!(rt; tree.read(alloc, &root, 1), Err(TreeFault::Failed));
    assert_eq!(rt; tree.read(alloc, &root, 1), Ok(ReadAnswer::NotFile));
    assert_eq!(rt; tree.stat(&root), Err(Failed));
    for _ in 0..5 {
        assert_eq!(rt; tree.stat(&root), Ok(Kind::Folder));
    }
    assert_eq!(rt; tree.calls(), 9);
    Ok(())
}

#[test]
fn sinks_take_pieces(rt: HostRuntime) -> Result<(), Fail> {
    let alloc = rt.alloc();
    let mut out = MemorySink::new(alloc, Some(3))?;
    for (piece, result) in [
        (b"ab".as_slice(), Ok(())),
        (b"c".as_slice(), Ok(())),
        (b"d".as_slice(), Err(Failed)),
        (b"e".as_slice(), Err(Failed)),
    ] {
        assert_eq!(rt; out.put(piece), result);
    }
    assert_eq!(rt; out.bytes(), b"abc".as_slice());
    assert_eq!(rt; out.short(), 0);

    let mut errs = MemorySink::new(alloc, None)?;
    assert_eq!(rt; errs.put(b"f"), Ok(()));
    assert_eq!(rt; errs.bytes(), b"f".as_slice());
    Ok(())
}

/// A call of a device and what is expected of it.
#[derive(Clone, Copy)]
enum Call {
    List(&'static [u8], u32, Listed),
    Read(&'static [u8], &'static [u8]),
    Write(&'static [u8], &'static [u8], Did),
    MakeDir(&'static [u8], Made),
    Rename(&'static [u8], &'static [u8], Did),
    RemoveFile(&'static [u8], Did),
    RemoveDir(&'static [u8], Did),
    Barrier(u64),
}

/// What is expected of a listing: its names, each followed by a blank.
#[derive(Clone, Copy)]
enum Listed {
    Names(&'static [u8]),
    Absent,
    NotFolder,
    TooMany,
}

/// Calls that write, on the tree of `START`.
const WRITES: [Call; 11] = [
    Call::Write(b"f/x", b"1", Did::Misplaced),
    Call::Write(b"o/x", b"1", Did::Misplaced),
    Call::Write(b"none/x", b"1", Did::Misplaced),
    Call::Write(b".", b"1", Did::Misplaced),
    Call::Write(b"d", b"1", Did::Misplaced),
    Call::Write(b"o", b"1", Did::Misplaced),
    Call::Write(b"d/new", b"12", Did::Done),
    Call::Write(b"d/new", b"3", Did::Done),
    Call::Read(b"d/new", b"3"),
    Call::Write(b"g", b"", Did::Done),
    Call::Read(b"g", b""),
];

/// Calls that make folders, after these.
const FOLDERS: [Call; 10] = [
    Call::MakeDir(b".", Made::Exists),
    Call::MakeDir(b"d", Made::Exists),
    Call::MakeDir(b"f", Made::Exists),
    Call::MakeDir(b"o", Made::Exists),
    Call::MakeDir(b"none/x", Made::Misplaced),
    Call::MakeDir(b"f/x", Made::Misplaced),
    Call::MakeDir(b"o/x", Made::Misplaced),
    Call::MakeDir(b"d/.hidden", Made::New),
    Call::MakeDir(b"d/.hidden", Made::Exists),
    Call::MakeDir(b"d/.hidden/deep", Made::New),
];

/// Calls that list, after these.
const LISTS: [Call; 9] = [
    Call::List(b"d", 9, Listed::Names(b".hidden a new ")),
    Call::List(b"d", 3, Listed::Names(b".hidden a new ")),
    Call::List(b"d", 2, Listed::TooMany),
    Call::List(b"d/.hidden/deep", 0, Listed::Names(b"")),
    Call::List(b"f", 9, Listed::NotFolder),
    Call::List(b"o", 9, Listed::NotFolder),
    Call::List(b"none", 9, Listed::Absent),
    Call::List(b"f/x", 9, Listed::Absent),
    Call::List(b".", 9, Listed::Names(b"d f g o ")),
];

/// Calls that rename, and what is there then, after these.
const RENAMES: [Call; 24] = [
    Call::Rename(b"none", b"x", Did::Misplaced),
    Call::Rename(b"d", b"d", Did::Misplaced),
    Call::Rename(b"d", b"d/a/x", Did::Misplaced),
    Call::Rename(b".", b"x", Did::Misplaced),
    Call::Rename(b"d", b".", Did::Misplaced),
    Call::Rename(b"d", b"none/x", Did::Misplaced),
    Call::Rename(b"d", b"f/x", Did::Misplaced),
    Call::Rename(b"d", b"f", Did::Misplaced),
    Call::Rename(b"f", b"d", Did::Misplaced),
    Call::Rename(b"f", b"o", Did::Misplaced),
    Call::Rename(b"o", b"f", Did::Misplaced),
    Call::Rename(b"d/a", b"d/.hidden", Did::Misplaced),
    Call::Rename(b"f", b"g", Did::Done),
    Call::Read(b"g", b"f"),
    Call::Rename(b"o", b"d/o", Did::Done),
    Call::Rename(b"d", b"e", Did::Done),
    Call::List(b"d", 9, Listed::Absent),
    Call::List(b".", 9, Listed::Names(b"e g ")),
    Call::List(b"e", 9, Listed::Names(b".hidden a new o ")),
    Call::List(b"e/.hidden", 9, Listed::Names(b"deep ")),
    Call::Read(b"e/new", b"3"),
    Call::Read(b"e/a/b", b"ab"),
    Call::Rename(b"e/a", b"e/b", Did::Done),
    Call::Read(b"e/b/b", b"ab"),
];

/// Calls that take away, and barriers, after these.
const REMOVALS: [Call; 17] = [
    Call::RemoveFile(b".", Did::Misplaced),
    Call::RemoveFile(b"e", Did::Misplaced),
    Call::RemoveFile(b"none", Did::Misplaced),
    Call::RemoveFile(b"e/new", Did::Done),
    Call::RemoveFile(b"e/new", Did::Misplaced),
    Call::RemoveFile(b"e/o", Did::Done),
    Call::RemoveDir(b".", Did::Misplaced),
    Call::RemoveDir(b"g", Did::Misplaced),
    Call::RemoveDir(b"none", Did::Misplaced),
    Call::RemoveDir(b"e", Did::Misplaced),
    Call::RemoveDir(b"e/.hidden", Did::Misplaced),
    Call::RemoveDir(b"e/.hidden/deep", Did::Done),
    Call::RemoveDir(b"e/.hidden", Did::Done),
    Call::List(b"e", 1, Listed::Names(b"b ")),
    Call::Barrier(13),
    Call::Barrier(0),
    Call::List(b".", u32::MAX, Listed::Names(b"e g ")),
];

/// The tree that the calls begin with.
const START: [(&[u8], Content); 3] = [
    (b"d/a/b", Content::File(b"ab")),
    (b"f", Content::File(b"f")),
    (b"o", Content::Other),
];

fn has_names(found: &[path_name::Name], expected: &[u8]) -> bool {
    let mut rest = expected;
    for name in found {
        let Some(after) = rest.strip_prefix(name.as_slice()) else {
            return false;
        };
        match after {
            [b' ', more @ ..] => rest = more,
            _ => return false,
        }
    }
    rest.is_empty()
}

fn is_listed(answer: Result<ListAnswer, TreeFault>, expected: Listed) -> bool {
    match (answer, expected) {
        (Ok(ListAnswer::Names(names)), Listed::Names(expected)) => {
            has_names(names.as_slice(), expected)
        }
        (Ok(ListAnswer::Absent), Listed::Absent) => true,
        (Ok(ListAnswer::NotFolder), Listed::NotFolder) => true,
        (Ok(ListAnswer::TooMany), Listed::TooMany) => true,
        _ => false,
    }
}

fn has_bytes(answer: Result<ReadAnswer, TreeFault>, expected: &[u8]) -> bool {
    match answer {
        Ok(ReadAnswer::Bytes(bytes)) => bytes.as_slice() == expected,
        _ => false,
    }
}

fn renames(alloc: Global, tree: &mut MemoryTree, from: &[u8], to: &[u8], did: Did) -> bool {
    let Ok(from) = Path::read(alloc, from) else {
        return false;
    };
    let Ok(to) = Path::read(alloc, to) else {
        return false;
    };
    tree.rename(&from, &to) == Ok(did)
}

fn settles(tree: &mut MemoryTree, pending: u64) -> bool {
    tree.pending() == pending && tree.barrier() == Ok(()) && tree.pending() == 0
}

/// The calls at one path.
fn passes_at(alloc: Global, tree: &mut MemoryTree, at: &[u8], call: Call) -> bool {
    let Ok(path) = Path::read(alloc, at) else {
        return false;
    };
    match call {
        Call::List(_, most, listed) => is_listed(tree.list(alloc, &path, most), listed),
        Call::Read(_, bytes) => has_bytes(tree.read(alloc, &path, 99), bytes),
        Call::Write(_, bytes, did) => tree.write(&path, bytes) == Ok(did),
        Call::MakeDir(_, made) => tree.make_dir(&path) == Ok(made),
        Call::RemoveFile(_, did) => tree.remove_file(&path) == Ok(did),
        Call::RemoveDir(_, did) => tree.remove_dir(&path) == Ok(did),
        Call::Rename(_, _, _) | Call::Barrier(_) => false,
    }
}

fn passes(alloc: Global, tree: &mut MemoryTree, call: Call) -> bool {
    match call {
        Call::Rename(from, to, did) => renames(alloc, tree, from, to, did),
        Call::Barrier(pending) => settles(tree, pending),
        Call::List(at, _, _)
        | Call::Read(at, _)
        | Call::Write(at, _, _)
        | Call::MakeDir(at, _)
        | Call::RemoveFile(at, _)
        | Call::RemoveDir(at, _) => passes_at(alloc, tree, at, call),
    }
}

fn starts(alloc: Global, tree: &mut MemoryTree, at: &[u8], content: Content) -> bool {
    let Ok(path) = Path::read(alloc, at) else {
        return false;
    };
    let Ok(entry) = entry(alloc, content) else {
        return false;
    };
    tree.put(alloc, &path, entry) == Ok(Did::Done)
}

/// The place of the first call that is not answered as expected.
fn first_wrong(alloc: Global, tree: &mut MemoryTree, calls: &[Call]) -> Option<usize> {
    for (at, call) in calls.iter().enumerate() {
        if !passes(alloc, tree, *call) {
            return Some(at);
        }
    }
    None
}

#[test]
fn answers_of_calls(rt: HostRuntime) -> Result<(), Fail> {
    let alloc = rt.alloc();
    let mut tree = MemoryTree::new(alloc)?;
    for (at, content) in START {
        assert!(rt; starts(alloc, &mut tree, at, content));
    }
    assert_eq!(rt; first_wrong(alloc, &mut tree, &WRITES), None);
    assert_eq!(rt; first_wrong(alloc, &mut tree, &FOLDERS), None);
    assert_eq!(rt; first_wrong(alloc, &mut tree, &LISTS), None);
    assert_eq!(rt; first_wrong(alloc, &mut tree, &RENAMES), None);
    assert_eq!(rt; first_wrong(alloc, &mut tree, &REMOVALS), None);
    assert_eq!(rt; tree.writes(), 9);
    assert_eq!(rt; tree.short(), 0);
    assert_eq!(rt; tree.calls(), 71);
    Ok(())
}

/// A path of 100,000 segments, each `a`.
fn deep_path(alloc: Global) -> Result<Path, Fail> {
    let mut text = Vec::new(alloc);
    for _ in 0..100_000 {
        text.extend_from_slice(b"a/")?;
    }
    Ok(Path::read(alloc, text.as_slice())?)
}

#[test]
fn deep_paths_are_looked_at(rt: HostRuntime) -> Result<(), Fail> {
    let alloc = rt.alloc();
    let mut tree = MemoryTree::new(alloc)?;
    let deep = deep_path(alloc)?;
    assert!(rt; starts(alloc, &mut tree, b"a", Content::File(b"")));
    assert_eq!(rt; tree.put(alloc, &deep, Entry::Folder)?, Did::Misplaced);
    assert_eq!(rt; tree.make_dir(&deep), Ok(Made::Misplaced));
    tree.stop_at(3);
    assert_eq!(rt; tree.stat(&deep), Ok(Kind::Absent));
    assert_eq!(rt; tree.stat(&deep), Err(Failed));
    assert_eq!(rt; tree.barrier(), Err(Failed));
    Ok(())
}
