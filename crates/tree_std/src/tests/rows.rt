//! The same rows over a tree in memory and over a real folder.

use super::table::{AFTER, BEFORE, CHANGES, Content, LOOKS, Listed, MISPLACED, Read, Row};
use crate::{FolderTree, StdSink};
use path_name::{Path, Text};
use std::alloc::Global;
use std::os::unix::fs::symlink;
use std::process::Abort;
use std::rt::Files;
use std::test::Fail;
use std::{fs, io};
use tree_dev::{Did, Entry, Kind, ListAnswer, MemoryTree, ReadAnswer, Sink, Tree};

fn read_answer(alloc: Global, expected: Read) -> Result<ReadAnswer, Fail> {
    match expected {
        Read::Bytes(bytes) => Ok(ReadAnswer::Bytes(Text::copy_of(alloc, bytes)?)),
        Read::Absent => Ok(ReadAnswer::Absent),
        Read::NotFile => Ok(ReadAnswer::NotFile),
        Read::TooLong => Ok(ReadAnswer::TooLong),
    }
}

/// The names of a folder, each followed by a blank.
fn names_text(alloc: Global, answer: &ListAnswer) -> Result<Vec<u8>, Fail> {
    let mut text = Vec::new(alloc);
    if let ListAnswer::Names(names) = answer {
        for name in names.as_slice() {
            text.extend_from_slice(name.as_slice())?;
            text.push(b' ')?;
        }
    }
    Ok(text)
}

fn listed(alloc: Global, answer: &ListAnswer, expected: Listed) -> Result<bool, Fail> {
    let names = names_text(alloc, answer)?;
    Ok(match (answer, expected) {
        (ListAnswer::Names(_), Listed::Names(wanted)) => names.as_slice() == wanted,
        (ListAnswer::Absent, Listed::Absent) => true,
        (ListAnswer::NotFolder, Listed::NotFolder) => true,
        (ListAnswer::TooMany, Listed::TooMany) => true,
        _ => false,
    })
}

fn path(alloc: Global, text: &[u8]) -> Result<Path, Fail> {
    Ok(Path::read(alloc, text)?)
}

/// Whether a call gives the row's answer.
fn answers<T: Tree>(alloc: Global, tree: &mut T, row: Row) -> Result<bool, Fail> {
    match row {
        Row::Stat(at, kind) => Ok(tree.stat(&path(alloc, at)?)? == kind),
        Row::List(at, most, expected) => {
            let found = tree.list(alloc, &path(alloc, at)?, most)?;
            listed(alloc, &found, expected)
        }
        Row::Read(at, most, expected) => {
            let found = tree.read(alloc, &path(alloc, at)?, most)?;
            Ok(found == read_answer(alloc, expected)?)
        }
        _ => changes(alloc, tree, row),
    }
}

/// The same of a call that may change the tree.
fn changes<T: Tree>(alloc: Global, tree: &mut T, row: Row) -> Result<bool, Fail> {
    match row {
        Row::Write(at, bytes, did) => Ok(tree.write(&path(alloc, at)?, bytes)? == did),
        Row::MakeDir(at, made) => Ok(tree.make_dir(&path(alloc, at)?)? == made),
        Row::Rename(from, to, did) => {
            Ok(tree.rename(&path(alloc, from)?, &path(alloc, to)?)? == did)
        }
        Row::RemoveFile(at, did) => Ok(tree.remove_file(&path(alloc, at)?)? == did),
        Row::RemoveDir(at, did) => Ok(tree.remove_dir(&path(alloc, at)?)? == did),
        _ => Ok(tree.barrier().is_ok()),
    }
}

fn take<T: Tree>(
    rt: &impl Abort,
    alloc: Global,
    tree: &mut T,
    name: &str,
    rows: &[Row],
) -> Result<(), Fail> {
    for (at, row) in rows.iter().enumerate() {
        let as_expected = answers(alloc, tree, *row)?;
        assert!(rt; as_expected, "row {at} of {name}");
    }
    Ok(())
}

/// Every answer of every row.
fn take_all<T: Tree>(rt: &impl Abort, alloc: Global, tree: &mut T) -> Result<(), Fail> {
    take(rt, alloc, tree, "LOOKS", &LOOKS)?;
    take(rt, alloc, tree, "MISPLACED", &MISPLACED)?;
    take(rt, alloc, tree, "LOOKS, again", &LOOKS)?;
    take(rt, alloc, tree, "CHANGES", &CHANGES)
}

fn make(rt: &HostRuntime, at: &str, content: Content) -> io::Result<()> {
    match content {
        Content::File(bytes) => fs::write(rt, at, bytes),
        Content::Folder => fs::create_dir(rt, at),
        Content::Link(to) => symlink(rt, to, at),
    }
}

/// Whether an entry is there, looked at by std's own calls.
fn is_there<R: Files + AllocGlobal>(rt: &R, at: &str, content: Content) -> io::Result<bool> {
    let found = fs::symlink_metadata(rt, at)?;
    Ok(match content {
        Content::File(bytes) => found.is_file() && fs::read(rt, at)?.as_slice() == bytes,
        Content::Folder => found.is_dir(),
        Content::Link(to) => fs::read_link(rt, at)?.as_path().to_str() == Some(to),
    })
}

/// How many entries a folder has, by std's own call.
fn entries_of(rt: &HostRuntime, folder: &str) -> io::Result<usize> {
    let mut entries = 0usize;
    for entry in fs::read_dir(rt, folder)? {
        let _entry = entry?;
        entries = entries.saturating_add(1);
    }
    Ok(entries)
}

/// How many entries are below the test's folder, where its folders are those of the list.
fn all_entries(rt: &HostRuntime, list: &[(&str, Content)]) -> io::Result<usize> {
    let mut entries = entries_of(rt, "tree_test")?;
    for (at, content) in list {
        if let Content::Folder = content {
            entries = entries.saturating_add(entries_of(rt, at)?);
        }
    }
    Ok(entries)
}

/// Makes the test's folder anew.
fn make_all(rt: &HostRuntime) -> io::Result<()> {
    let _ = fs::remove_dir_all(rt, "tree_test");
    for (at, content) in &BEFORE {
        make(rt, at, *content)?;
    }
    Ok(())
}

/// Whether the test's folder holds the entries of the last list, and no others.
fn are_there(rt: &HostRuntime) -> io::Result<bool> {
    for (at, content) in &AFTER {
        if !is_there(rt, at, *content)? {
            return Ok(false);
        }
    }
    Ok(all_entries(rt, &AFTER)? == AFTER.len())
}

#[test]
fn rows_over_a_real_folder(rt: HostRuntime) -> Result<(), Fail> {
    make_all(&rt)?;
    take_all(&rt, rt.alloc(), &mut FolderTree::new(&rt))?;
    assert!(rt; are_there(&rt)?);
    fs::remove_dir_all(&rt, "tree_test")?;
    Ok(())
}

fn entry(alloc: Global, content: Content) -> Result<Entry, Fail> {
    match content {
        Content::File(bytes) => Ok(Entry::File(Text::copy_of(alloc, bytes)?)),
        Content::Folder => Ok(Entry::Folder),
        Content::Link(_) => Ok(Entry::Other),
    }
}

/// Whether an entry is there, looked at by the tree's own calls.
fn holds<T: Tree>(
    alloc: Global,
    tree: &mut T,
    at: &'static str,
    content: Content,
) -> Result<bool, Fail> {
    let at = at.as_bytes();
    match content {
        Content::File(bytes) => answers(alloc, tree, Row::Read(at, u64::MAX, Read::Bytes(bytes))),
        Content::Folder => answers(alloc, tree, Row::Stat(at, Kind::Folder)),
        Content::Link(_) => answers(alloc, tree, Row::Stat(at, Kind::Other)),
    }
}

/// A tree in memory with the entries of the first list.
fn filled(alloc: Global) -> Result<MemoryTree, Fail> {
    let mut tree = MemoryTree::new(alloc)?;
    for (at, content) in &BEFORE {
        let _did = tree.put(alloc, &path(alloc, at.as_bytes())?, entry(alloc, *content)?)?;
    }
    Ok(tree)
}

/// Whether a tree holds the entries of the last list.
fn holds_all<T: Tree>(alloc: Global, tree: &mut T) -> Result<bool, Fail> {
    for (at, content) in &AFTER {
        if !holds(alloc, tree, at, *content)? {
            return Ok(false);
        }
    }
    Ok(true)
}

#[test]
fn rows_over_a_tree_in_memory(rt: HostRuntime) -> Result<(), Fail> {
    let mut tree = filled(rt.alloc())?;
    take_all(&rt, rt.alloc(), &mut tree)?;
    assert!(rt; holds_all(rt.alloc(), &mut tree)?);
    Ok(())
}

/// Whether a rename from one name of a file to another leaves the second alone.
fn moves_a_name(rt: &HostRuntime) -> Result<bool, Fail> {
    let from = path(rt.alloc(), b"names_test/a")?;
    let to = path(rt.alloc(), b"names_test/b")?;
    let moved = FolderTree::new(rt).rename(&from, &to)?;
    let there = is_there(rt, "names_test/b", Content::File(b"one"))?;
    Ok(moved == Did::Done && there && entries_of(rt, "names_test")? == 1)
}

#[test]
fn two_names_of_one_file(rt: HostRuntime) -> Result<(), Fail> {
    let _ = fs::remove_dir_all(&rt, "names_test");
    fs::create_dir(&rt, "names_test")?;
    fs::write(&rt, "names_test/a", b"one".as_slice())?;
    fs::hard_link(&rt, "names_test/a", "names_test/b")?;
    assert!(rt; moves_a_name(&rt)?);
    fs::remove_dir_all(&rt, "names_test")?;
    Ok(())
}

#[test]
fn lines_reach_the_streams(rt: HostRuntime) -> Result<(), Fail> {
    let mut out = StdSink::new(rt.stdout());
    out.put(b"a line\n")?;
    let mut errs = StdSink::new(rt.stderr());
    errs.put(b"another line\n")?;
    Ok(())
}
