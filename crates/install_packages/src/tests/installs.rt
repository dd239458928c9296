//! Whole commands over trees in memory.

use super::projects::{FRESH, Project, REFUSED, Run, SHOP, TWICE};
use crate::{install, update};
use composer_words::Ways;
use path_name::{Path, Text};
use run_answers::error_line;
use std::alloc::Global;
use std::process::Abort;
use std::test::Fail;
use tree_dev::{Entry, MemorySink, MemoryTree, ReadAnswer, Tree};

pub fn put(
    alloc: Global,
    tree: &mut MemoryTree,
    at: &'static str,
    text: &'static str,
) -> Result<(), Fail> {
    let entry = Entry::File(Text::of(Vec::from_slice(alloc, text.as_bytes())?));
    tree.put(alloc, &Path::read(alloc, at.as_bytes())?, entry)?;
    Ok(())
}

pub fn tree_of(alloc: Global, project: &Project) -> Result<MemoryTree, Fail> {
    let mut tree = MemoryTree::new(alloc)?;
    for (at, text) in project.files {
        put(alloc, &mut tree, *at, *text)?;
    }
    for at in project.others {
        tree.put(alloc, &Path::read(alloc, at.as_bytes())?, Entry::Other)?;
    }
    Ok(tree)
}

/// The lines of a command, or that of its refusal.
fn answer(
    alloc: Global,
    at: &Path,
    run: &Run,
    tree: &mut MemoryTree,
    errs: &mut MemorySink,
) -> Result<Vec<u8>, Fail> {
    let ways = Ways {
        optimised: false,
        authoritative: false,
        no_dev: run.no_dev,
    };
    let ended = if run.update {
        update(alloc, at, &ways, tree)
    } else {
        install(alloc, at, &ways, tree, errs)
    };
    match ended {
        Ok(lines) => Ok(lines.into_vec()),
        Err(refusal) => Ok(error_line(alloc, &refusal)?),
    }
}

fn text_at(alloc: Global, tree: &mut MemoryTree, at: &'static str) -> Result<Option<Text>, Fail> {
    match tree.read(alloc, &Path::read(alloc, at.as_bytes())?, 100_000)? {
        ReadAnswer::Bytes(text) => Ok(Some(text)),
        ReadAnswer::Absent | ReadAnswer::NotFile | ReadAnswer::TooLong => Ok(None),
    }
}

/// Whether a file has a piece in its text; the empty text where no file is to be.
pub fn has(
    alloc: Global,
    tree: &mut MemoryTree,
    at: &'static str,
    piece: &'static str,
) -> Result<bool, Fail> {
    match text_at(alloc, tree, at)? {
        None => Ok(piece.is_empty()),
        Some(text) => Ok(!piece.is_empty() && contains(text.as_slice(), piece.as_bytes())),
    }
}

fn contains(text: &[u8], piece: &[u8]) -> bool {
    memchr::memmem::find(text, piece).is_some()
}

fn run_ends(
    rt: &impl Abort,
    alloc: Global,
    at: &Path,
    run: &Run,
    tree: &mut MemoryTree,
) -> Result<(), Fail> {
    let mut errs = MemorySink::new(alloc, None)?;
    let answer = answer(alloc, at, run, tree, &mut errs)?;
    assert_eq!(rt; answer.as_slice(), run.answer.as_bytes());
    assert_eq!(rt; errs.bytes(), run.errs.as_bytes());
    for (at, piece) in run.holds {
        assert!(rt; has(alloc, tree, *at, *piece)?, "{at}: {piece}");
    }
    Ok(())
}

fn project_ends(rt: &impl Abort, alloc: Global, project: &Project) -> Result<(), Fail> {
    let mut tree = tree_of(alloc, project)?;
    let at = Path::read(alloc, project.at.as_bytes())?;
    for run in project.runs {
        for (at, text) in run.puts {
            put(alloc, &mut tree, *at, *text)?;
        }
        run_ends(rt, alloc, &at, run, &mut tree)?;
    }
    Ok(())
}

#[test]
fn installs_afresh(rt: HostRuntime) -> Result<(), Fail> {
    project_ends(&rt, rt.alloc(), &SHOP)?;
    for project in &FRESH {
        project_ends(&rt, rt.alloc(), project)?;
    }
    Ok(())
}

#[test]
fn installs_again(rt: HostRuntime) -> Result<(), Fail> {
    for project in &TWICE {
        project_ends(&rt, rt.alloc(), project)?;
    }
    Ok(())
}

#[test]
fn refuses(rt: HostRuntime) -> Result<(), Fail> {
    for project in &REFUSED {
        project_ends(&rt, rt.alloc(), project)?;
    }
    Ok(())
}
