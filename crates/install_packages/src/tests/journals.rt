//! The journal of an install that takes a package away.

use super::installs::tree_of;
use super::projects::TWICE;
use super::standing::{Standing, standing_in, tree_with};
use crate::install;
use composer_words::Ways;
use path_name::{Path, Text};
use std::alloc::Global;
use std::process::Abort;
use std::test::Fail;
use tree_dev::{MemorySink, MemoryTree, ReadAnswer, Tree};

/// An install with what is for development, or without.
fn ways(no_dev: bool) -> Ways {
    Ways {
        optimised: false,
        authoritative: false,
        no_dev,
    }
}

/// A project with a package for development, installed.
fn installed(alloc: Global) -> Result<Standing, Fail> {
    let mut tree = tree_of(alloc, &TWICE[0])?;
    let mut errs = MemorySink::new(alloc, None)?;
    install(
        alloc,
        &Path::root(alloc),
        &ways(false),
        &mut tree,
        &mut errs,
    )?;
    standing_in(alloc, &mut tree)
}

fn journal_in(alloc: Global, tree: &mut MemoryTree) -> Result<Option<Text>, Fail> {
    match tree.read(alloc, &Path::read(alloc, b".install/journal")?, 10_000)? {
        ReadAnswer::Bytes(text) => Ok(Some(text)),
        ReadAnswer::Absent | ReadAnswer::NotFile | ReadAnswer::TooLong => Ok(None),
    }
}

/// The journal that stands once so many calls of an install without that package are made.
fn journal_after(alloc: Global, project: &Standing, calls: u64) -> Result<Option<Text>, Fail> {
    let mut tree = tree_with(alloc, project)?;
    let mut errs = MemorySink::new(alloc, None)?;
    tree.stop_at(tree.calls().saturating_add(calls).saturating_add(1));
    let _ended = install(alloc, &Path::root(alloc), &ways(true), &mut tree, &mut errs);
    tree.crash(alloc, tree.pending(), None)?;
    journal_in(alloc, &mut tree)
}

/// The journal as soon as it stands.
fn first_journal(alloc: Global, project: &Standing) -> Result<Option<Text>, Fail> {
    for calls in 0..1_000u64 {
        let journal = journal_after(alloc, project, calls)?;
        if journal.is_some() {
            return Ok(journal);
        }
    }
    Ok(None)
}

/// How many lines say that what stands at a target is to be gone.
fn gone_lines(text: &[u8]) -> u32 {
    let mut count = 0u32;
    for line in text.split(|byte| *byte == b'\n') {
        if line.starts_with(b"gone ") {
            count = count.saturating_add(1);
        }
    }
    count
}

#[test]
fn packages_are_gone_by_the_journal(rt: HostRuntime) -> Result<(), Fail> {
    let alloc = rt.alloc();
    let journal = first_journal(alloc, &installed(alloc)?)?;
    assert!(rt; journal.is_some());
    if let Some(text) = journal {
        assert_eq!(rt; gone_lines(text.as_slice()), 1);
        assert!(rt; memchr::memmem::find(text.as_slice(), b" 76656e646f722f62\n").is_some());
    }
    Ok(())
}
