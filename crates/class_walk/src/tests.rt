//! Walks over trees in memory.

mod calls;
mod patterns;
mod places;

use crate::{Pattern, Scanned, WalkFault, WalkJob, WalkRule, walk};
use path_name::{Items, Name, Path, Text};
use std::alloc::{AllocError, Global};
use std::test::Fail;
use tree_dev::{Did, Entries, Entry, MemoryTree};

/// Files with their texts.
static FILES: [(&str, &str); 12] = [
    ("tests/unit/fix/A.php", "<?php class A {}"),
    ("tests/fix/A.php", "<?php class B {}"),
    (
        "tests/unit/fixture/A.php",
        "<?php class C {} interface D {}",
    ),
    ("tests/.hidden/A.php", "<?php class E {}"),
    ("tests/.A.php", "<?php class F {}"),
    ("tests/a.inc", "<?php class G {}"),
    ("tests/a.txt", "<?php class H {}"),
    ("tests/vendor/A.php", "<?php class I {}"),
    (
        "src/P/Q.php",
        "<?php namespace App\\P; class Q {} class R {}",
    ),
    ("src/P/R.inc", "<?php namespace App\\P; class R {}"),
    ("src/Old_File.php", "<?php namespace App; class Old_File {}"),
    ("src/Old/File.php", "<?php namespace App; class Old_File {}"),
];

fn tree(alloc: Global) -> Result<MemoryTree, Fail> {
    let mut tree = MemoryTree::new(alloc)?;
    for (path, text) in &FILES {
        put_file(alloc, &mut tree, path, text)?;
    }
    Ok(tree)
}

fn put_file(alloc: Global, tree: &mut MemoryTree, path: &str, text: &str) -> Result<Did, Fail> {
    let at = Path::read(alloc, path.as_bytes())?;
    let file = Entry::File(Text::copy_of(alloc, text.as_bytes())?);
    Ok(tree.put(alloc, &at, file)?)
}

/// A job whose folder tables show below `app`, and which skips `tests/vendor`.
fn job(alloc: Global, at: &str, rule: WalkRule) -> Result<WalkJob, Fail> {
    let mut skip = Vec::new(alloc);
    skip.push(Path::read(alloc, b"tests/vendor")?)?;
    Ok(WalkJob {
        at: Path::read(alloc, at.as_bytes())?,
        shown: Path::read(alloc, b"app")?.follow(alloc, at.as_bytes())?,
        rule,
        skip: Items::of(skip),
    })
}

fn put_word(text: &mut Vec<u8>, word: &[u8]) -> Result<(), AllocError> {
    if !text.is_empty() {
        text.push(b' ')?;
    }
    text.extend_from_slice(word)
}

/// The path of a file, and its names.
fn put_scanned(text: &mut Vec<u8>, scanned: &Scanned) -> Result<(), AllocError> {
    put_word(text, scanned.shown.text())?;
    for name in scanned.names.as_slice() {
        put_word(text, name.as_slice())?;
    }
    Ok(())
}

pub fn texts(alloc: Global, files: &[Scanned]) -> Result<Vec<u8>, AllocError> {
    let mut text = Vec::new(alloc);
    for scanned in files {
        put_scanned(&mut text, scanned)?;
    }
    Ok(text)
}

/// What a walk finds, where files of `tests/*/fix` are excluded.
fn find(alloc: Global, tree: &mut MemoryTree, job: WalkJob) -> Result<Vec<Scanned>, WalkFault> {
    let exclude = Pattern::read(alloc, &Path::root(alloc), b"app/tests/*/fix")?;
    let mut left = Entries { left: 100 };
    walk(alloc, tree, &[job], &[exclude], &mut left)
}

fn finds(alloc: Global, job: WalkJob, wanted: &str) -> Result<bool, Fail> {
    let mut tree = tree(alloc)?;
    let files = find(alloc, &mut tree, job)?;
    Ok(texts(alloc, files.as_slice())?.as_slice() == wanted.as_bytes())
}

#[test]
fn listed(rt: HostRuntime) -> Result<(), Fail> {
    let alloc = rt.alloc();
    assert!(rt;
        finds(
            alloc,
            job(alloc, "tests", WalkRule::Listed)?,
            "app/tests/a.inc G app/tests/fix/A.php B app/tests/unit/fixture/A.php C D"
        )?
    );
    assert!(rt;
        finds(
            alloc,
            job(alloc, "tests/.A.php", WalkRule::Listed)?,
            "app/tests/.A.php F"
        )?
    );
    assert!(rt; finds(alloc, job(alloc, "tests/a.txt", WalkRule::Listed)?, "")?);
    Ok(())
}

fn is_missing(alloc: Global, at: &str) -> Result<bool, Fail> {
    let mut tree = tree(alloc)?;
    let job = job(alloc, at, WalkRule::Listed)?;
    match find(alloc, &mut tree, job) {
        Err(WalkFault::ClassmapMissing(path)) => Ok(path.text() == at.as_bytes()),
        _ => Ok(false),
    }
}

#[test]
fn missing(rt: HostRuntime) -> Result<(), Fail> {
    assert!(rt; is_missing(rt.alloc(), "nowhere")?);
    assert!(rt; is_missing(rt.alloc(), "tests/vendor/A.php")?);
    Ok(())
}

#[test]
fn rows(rt: HostRuntime) -> Result<(), Fail> {
    let alloc = rt.alloc();
    let psr4 = WalkRule::Psr4(Name::copy_of(alloc, b"App\\")?);
    assert!(rt;
        finds(
            alloc,
            job(alloc, "src", psr4)?,
            "app/src/Old/File.php app/src/Old_File.php App\\Old_File app/src/P/Q.php App\\P\\Q"
        )?
    );
    let psr0 = WalkRule::Psr0(Name::copy_of(alloc, b"App")?);
    assert!(rt; finds(alloc, job(alloc, "nowhere", psr0)?, "")?);
    Ok(())
}
