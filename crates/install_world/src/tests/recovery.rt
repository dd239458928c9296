//! Installs that were cut off, recovered in a tree in memory.

use crate::{RecoverFault, Recovered, finish_install};
use path_name::{Path, Text};
use std::alloc::Global;
use std::process::Abort;
use std::test::Fail;
use tree_dev::{Entry, MemoryTree, ReadAnswer, Tree};

/// A file by its path and its bytes.
#[derive(Clone, Copy)]
struct File(&'static [u8], &'static [u8]);

/// What recovery did, or why it did not.
#[derive(Clone, Copy, Debug, PartialEq, Eq)]
enum Outcome {
    Did(Recovered),
    BadJournal(u64),
    OtherEntry,
}

/// A job whose parts are each at another point: a folder over a folder, not begun; one taken away; one that is done;
/// one that is to be gone; a file over a file; a file below a folder that is missing; one with an entry in the way; and one that
/// is to be gone, and is not there.
static CUT_OFF: [File; 15] = [
    File(
        b".install/journal",
        b"install-journal 2\ngeneration 7\nmove 0 76656e646f722f61\nmove 1 76656e646f722f62\nmove 2 76656e646f722f63\ngone 3 76656e646f722f64\nmove 4 636f6d706f7365722e6c6f636b\nmove 5 76656e646f722f652f66\nmove 6 76656e646f722f68\ngone 7 76656e646f722f692f6a\nend\n",
    ),
    File(b".install/new/0/f", b"new"),
    File(b".install/new/1/g", b"new"),
    File(b".install/new/4", b"new"),
    File(b".install/new/5", b"new"),
    File(b".install/new/6/f", b"new"),
    File(b".install/old/1/f", b"old"),
    File(b".install/old/6/x/y", b"old"),
    File(b"vendor/a/f", b"old"),
    File(b"vendor/a/g", b"old"),
    File(b"vendor/c/f", b"new"),
    File(b"vendor/d/f", b"old"),
    File(b"vendor/h/f", b"old"),
    File(b"composer.lock", b"old"),
    File(b"app.php", b"app"),
];

/// The files that then stand, and, with no bytes, paths at which nothing is.
static FINISHED: [File; 13] = [
    File(b"vendor/a/f", b"new"),
    File(b"vendor/a/g", b""),
    File(b"vendor/b/g", b"new"),
    File(b"vendor/b/f", b""),
    File(b"vendor/c/f", b"new"),
    File(b"vendor/d", b""),
    File(b"composer.lock", b"new"),
    File(b"vendor/e/f", b"new"),
    File(b"vendor/h/f", b"new"),
    File(b"vendor/h/x", b""),
    File(b"vendor/i", b""),
    File(b"app.php", b"app"),
    File(b".install", b""),
];

/// A job whose second part goes below a file, and its third is not begun.
static BLOCKED: [File; 5] = [
    File(
        b".install/journal",
        b"install-journal 2\ngeneration 1\nmove 0 636f6d706f7365722e6c6f636b\nmove 1 76656e646f722f612f62\nmove 2 76656e646f722f63\nend\n",
    ),
    File(b".install/new/0", b"new"),
    File(b".install/new/1/f", b"new"),
    File(b".install/new/2/f", b"new"),
    File(b"vendor/a", b"old"),
];

/// What stands once its first part is done: the others are not begun.
static FIRST_DONE: [File; 6] = [
    File(b"composer.lock", b"new"),
    File(b".install/new/0", b""),
    File(b".install/new/1/f", b"new"),
    File(b".install/new/2/f", b"new"),
    File(b"vendor/a", b"old"),
    File(b"vendor/c", b""),
];

/// A file where the folder is to be that keeps what is taken away. Of the parts of a job, a file over a file and a new folder,
/// none needs it.
static NOTHING_KEPT: [File; 5] = [
    File(
        b".install/journal",
        b"install-journal 2\ngeneration 1\nmove 0 636f6d706f7365722e6c6f636b\nmove 1 76656e646f722f63\nend\n",
    ),
    File(b".install/new/0", b"new"),
    File(b".install/new/1/f", b"new"),
    File(b".install/old", b"x"),
    File(b"composer.lock", b"old"),
];

/// What then stands.
static BOTH_DONE: [File; 3] = [
    File(b"composer.lock", b"new"),
    File(b"vendor/c/f", b"new"),
    File(b".install", b""),
];

/// The same where the second part is to be gone, and so is to be kept.
static ONE_KEPT: [File; 5] = [
    File(
        b".install/journal",
        b"install-journal 2\ngeneration 1\nmove 0 636f6d706f7365722e6c6f636b\ngone 1 76656e646f722f63\nend\n",
    ),
    File(b".install/new/0", b"new"),
    File(b".install/old", b"x"),
    File(b"composer.lock", b"old"),
    File(b"vendor/c/f", b"old"),
];

/// What then stands.
static ONE_DONE: [File; 3] = [
    File(b"composer.lock", b"new"),
    File(b"vendor/c/f", b"old"),
    File(b".install/old", b"x"),
];

/// A file that stands alone, and what recovery does with its tree.
static ALONE: [(File, Outcome); 6] = [
    (
        File(b"vendor/a/f", b"old"),
        Outcome::Did(Recovered::NothingToDo),
    ),
    (
        File(b".install/new/0/f", b"new"),
        Outcome::Did(Recovered::Removed),
    ),
    (
        File(b".install/journal", b"install-journal 1\n"),
        Outcome::BadJournal(18),
    ),
    (File(b".install/journal", b""), Outcome::BadJournal(0)),
    (File(b".install", b"x"), Outcome::OtherEntry),
    (File(b".install/journal/x", b"x"), Outcome::OtherEntry),
];

fn put_file(alloc: Global, tree: &mut MemoryTree, file: File) -> Result<(), Fail> {
    let entry = Entry::File(Text::of(Vec::from_slice(alloc, file.1)?));
    tree.put(alloc, &Path::read(alloc, file.0)?, entry)?;
    Ok(())
}

fn tree_of(alloc: Global, files: &[File]) -> Result<MemoryTree, Fail> {
    let mut tree = MemoryTree::new(alloc)?;
    for file in files {
        put_file(alloc, &mut tree, *file)?;
    }
    Ok(tree)
}

fn recover_in(alloc: Global, tree: &mut MemoryTree) -> Result<Outcome, Fail> {
    match finish_install(alloc, tree, &Path::root(alloc)) {
        Ok(did) => Ok(Outcome::Did(did)),
        Err(RecoverFault::BadJournal(at)) => Ok(Outcome::BadJournal(at)),
        Err(RecoverFault::OtherEntry(_)) => Ok(Outcome::OtherEntry),
        Err(fault) => Err(fault)?,
    }
}

fn ends_as(alloc: Global, file: File, expected: Outcome) -> Result<bool, Fail> {
    let mut tree = tree_of(alloc, &[file])?;
    Ok(recover_in(alloc, &mut tree)? == expected)
}

fn stands(alloc: Global, tree: &mut MemoryTree, file: File) -> Result<bool, Fail> {
    match tree.read(alloc, &Path::read(alloc, file.0)?, 16)? {
        ReadAnswer::Bytes(text) => Ok(text.as_slice() == file.1),
        ReadAnswer::Absent => Ok(file.1.is_empty()),
        _ => Ok(false),
    }
}

fn all_stand(alloc: Global, tree: &mut MemoryTree, files: &[File]) -> Result<bool, Fail> {
    for file in files {
        if !stands(alloc, tree, *file)? {
            return Ok(false);
        }
    }
    Ok(true)
}

#[test]
fn cut_off_installs_are_finished(rt: HostRuntime) -> Result<(), Fail> {
    let alloc = rt.alloc();
    let mut tree = tree_of(alloc, &CUT_OFF)?;
    assert!(rt; recover_in(alloc, &mut tree)? == Outcome::Did(Recovered::Finished));
    assert!(rt; all_stand(alloc, &mut tree, &FINISHED)?);
    Ok(())
}

#[test]
fn outcomes_of_recovery(rt: HostRuntime) -> Result<(), Fail> {
    let alloc = rt.alloc();
    for (file, expected) in &ALONE {
        assert!(rt; ends_as(alloc, *file, *expected)?);
    }
    Ok(())
}

#[test]
fn parts_before_a_blocked_one_are_done(rt: HostRuntime) -> Result<(), Fail> {
    let alloc = rt.alloc();
    let mut tree = tree_of(alloc, &BLOCKED)?;
    assert!(rt; recover_in(alloc, &mut tree)? == Outcome::OtherEntry);
    assert!(rt; all_stand(alloc, &mut tree, &FIRST_DONE)?);
    Ok(())
}

#[test]
fn folder_of_kept_parts_is_asked_for_where_one_is_kept(rt: HostRuntime) -> Result<(), Fail> {
    let alloc = rt.alloc();
    let mut tree = tree_of(alloc, &NOTHING_KEPT)?;
    assert!(rt; recover_in(alloc, &mut tree)? == Outcome::Did(Recovered::Finished));
    assert!(rt; all_stand(alloc, &mut tree, &BOTH_DONE)?);
    let mut tree = tree_of(alloc, &ONE_KEPT)?;
    assert!(rt; recover_in(alloc, &mut tree)? == Outcome::OtherEntry);
    assert!(rt; all_stand(alloc, &mut tree, &ONE_DONE)?);
    Ok(())
}
