//! What is chosen over trees in memory.

mod rows;

use crate::{Chosen, chosen_to_install, chosen_to_update};
use lock_file::Locked;
use path_name::{Path, Text};
use rows::{LOCKED, PLANNED, REFUSED, Row};
use run_answers::{Refusal, error_line};
use std::alloc::Global;
use std::process::Abort;
use std::test::Fail;
use tree_dev::{Entries, Entry, MemorySink, MemoryTree};

fn tree_of(alloc: Global, row: &Row) -> Result<MemoryTree, Fail> {
    let mut tree = MemoryTree::new(alloc)?;
    for (at, text) in row.files {
        let entry = Entry::File(Text::of(Vec::from_slice(alloc, text.as_bytes())?));
        tree.put(alloc, &Path::read(alloc, at.as_bytes())?, entry)?;
    }
    Ok(tree)
}

fn put_names(lines: &mut Vec<u8>, label: &[u8], some: &[Locked]) -> Result<(), Fail> {
    for locked in some {
        lines.extend_from_slice(label)?;
        lines.extend_from_slice(locked.package.name.as_slice())?;
        lines.push(b' ')?;
        lines.extend_from_slice(locked.package.version_text.as_slice())?;
        lines.push(b'\n')?;
    }
    Ok(())
}

/// A line for each package of the lock, and whether the lock is new.
fn lines_of(alloc: Global, chosen: &Chosen) -> Result<Vec<u8>, Fail> {
    let mut lines = Vec::new(alloc);
    put_names(&mut lines, b"package ", chosen.lock.packages.as_slice())?;
    put_names(&mut lines, b"dev ", chosen.lock.packages_dev.as_slice())?;
    if chosen.text.is_some() {
        lines.extend_from_slice(b"new\n")?;
    }
    Ok(lines)
}

/// What is chosen, or the line of the refusal.
fn answer(alloc: Global, ended: Result<Chosen, Refusal>) -> Result<Vec<u8>, Fail> {
    match ended {
        Ok(chosen) => lines_of(alloc, &chosen),
        Err(refusal) => Ok(error_line(alloc, &refusal)?),
    }
}

fn chosen(
    alloc: Global,
    row: &Row,
    tree: &mut MemoryTree,
    errs: &mut MemorySink,
) -> Result<Vec<u8>, Fail> {
    let project = Path::root(alloc);
    let mut left = Entries { left: 1_000 };
    let ended = if row.update {
        chosen_to_update(alloc, &project, tree, &mut left)
    } else {
        chosen_to_install(alloc, &project, tree, errs, &mut left)
    };
    answer(alloc, ended)
}

fn row_ends(rt: &impl Abort, alloc: Global, row: &Row) -> Result<(), Fail> {
    let mut tree = tree_of(alloc, row)?;
    let mut errs = MemorySink::new(alloc, None)?;
    let answer = chosen(alloc, row, &mut tree, &mut errs)?;
    assert_eq!(rt; answer.as_slice(), row.answer.as_bytes());
    assert_eq!(rt; errs.bytes(), row.errs.as_bytes());
    Ok(())
}

#[test]
fn packages_are_planned(rt: HostRuntime) -> Result<(), Fail> {
    for row in &PLANNED {
        row_ends(&rt, rt.alloc(), row)?;
    }
    Ok(())
}

#[test]
fn locks_are_taken(rt: HostRuntime) -> Result<(), Fail> {
    for row in &LOCKED {
        row_ends(&rt, rt.alloc(), row)?;
    }
    Ok(())
}

#[test]
fn choices_are_refused(rt: HostRuntime) -> Result<(), Fail> {
    for row in &REFUSED {
        row_ends(&rt, rt.alloc(), row)?;
    }
    Ok(())
}
