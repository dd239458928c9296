//! Installs that are claimed, committed and released.

mod crashes;
mod jobs;
mod projects;

use crate::{ClaimFault, Hold, claim, commit, journal_of, prepare, release};
use install_world::journal_text;
use jobs::{SEVERAL, Staged, journal, tree_of};
use path_name::{Items, Path, Text};
use projects::is_whole;
use stage_job::{Job, Part, Source};
use std::alloc::Global;
use std::test::*;
use tree_dev::MemoryTree;

/// How many files the commit of a job writes, if it makes the new project and its release takes `.install` away.
fn writes(alloc: Global, staged: &Staged) -> Result<Option<u64>, Fail> {
    let hold = Hold {
        project: Path::root(alloc),
    };
    let prepared = prepare(alloc, &hold, &journal(alloc, staged)?)?;
    let mut tree = tree_of(alloc, staged)?;
    commit(&mut tree, &hold, &prepared)?;
    release(alloc, &mut tree, hold)?;
    if is_whole(alloc, &mut tree, staged, false)? {
        Ok(Some(tree.writes()))
    } else {
        Ok(None)
    }
}

#[test]
fn installs_are_committed(rt: HostRuntime) -> Result<(), Fail> {
    for staged in &SEVERAL {
        assert_eq!(rt; writes(rt.alloc(), staged)?, Some(1));
    }
    Ok(())
}

/// Whether a project can't be claimed, since it is claimed already.
fn is_taken(alloc: Global, tree: &mut MemoryTree) -> bool {
    match claim(alloc, tree, &Path::root(alloc)) {
        Err(ClaimFault::Unfinished) => true,
        _ => false,
    }
}

#[test]
fn projects_are_claimed_once(rt: HostRuntime) -> Result<(), Fail> {
    let alloc = rt.alloc();
    let mut tree = MemoryTree::new(alloc)?;
    let hold = claim(alloc, &mut tree, &Path::root(alloc))?;
    assert!(rt; is_taken(alloc, &mut tree));
    release(alloc, &mut tree, hold)?;
    assert!(rt; !is_taken(alloc, &mut tree));
    Ok(())
}

/// The journal's text of a job that puts a file at one target and takes another away.
static JOB_TEXT: &[u8] =
    b"install-journal 2\ngeneration 7\nmove 0 76656e646f722f61\ngone 1 636f6d706f7365722e6c6f636b\nend\n";

fn job(alloc: Global) -> Result<Job, Fail> {
    let mut parts = Vec::new(alloc);
    parts.push(Part {
        target: Path::read(alloc, b"vendor/a")?,
        from: Source::Bytes(Text::of(Vec::from_slice(alloc, b"new")?)),
    })?;
    parts.push(Part {
        target: Path::read(alloc, b"composer.lock")?,
        from: Source::Gone,
    })?;
    Ok(Job {
        parts: Items::of(parts),
    })
}

#[test]
fn jobs_have_journals(rt: HostRuntime) -> Result<(), Fail> {
    let alloc = rt.alloc();
    let journal = journal_of(alloc, &job(alloc)?, 7)?;
    let text = journal_text(alloc, &journal)?;
    assert!(rt; text.as_slice() == JOB_TEXT);
    Ok(())
}
