ghost use Rattle.std.specs.Prelude.{IfOk};
ghost use Rattle.manifest_read.specs.WellFormed.{IsManifest};
ghost use Rattle.manifest_read.specs.declared.types.Role.TheVariants.{Root};

mod limits;
mod rows;
mod stabilities;

use super::*;
use manifest_read::{Manifest, Role, from_doc};
use path_name::{Path, Text, push_number};
use rows::{Content, Put, Row, pools_by_folder, pools_by_order, refused_manifests, refused_urls};
use std::alloc::{AllocError, Global};
use std::process::Abort;
use std::test::Fail;
use tree_dev::{Did, Entries, Entry, LimitKind, MemoryTree};

fn put(rt: &impl Abort, alloc: Global, tree: &mut MemoryTree, entry: &Put) -> Result<(), Fail> {
    let content = match entry.1 {
        Content::Bytes(bytes) => Entry::File(Text::copy_of(alloc, bytes)?),
        Content::Folder => Entry::Folder,
        Content::Other => Entry::Other,
    };
    assert_eq!(rt;
        tree.put(alloc, &Path::read(alloc, entry.0)?, content)?,
        Did::Done
    );
    Ok(())
}

fn tree_of(rt: &impl Abort, alloc: Global, entries: &[Put]) -> Result<MemoryTree, Fail> {
    let mut tree = MemoryTree::new(alloc)?;
    for entry in entries {
        put(rt, alloc, &mut tree, entry)?;
    }
    Ok(tree)
}

fn root_of(alloc: Global, text: &[u8]) -> Result<Manifest, Fail>
    ensures { IfOk result (λ manifest. IsManifest Root manifest) }
{
    let doc = json_ordered::read(alloc, text)?;
    Ok(from_doc(alloc, &doc, Role::Root)?)
}

/// The pool of a project with this composer.json.
fn pool_of(
    alloc: Global,
    tree: &mut MemoryTree,
    project: &[u8],
    root: &[u8],
    left: &mut Entries,
) -> Result<Result<Pool, PoolFault>, Fail> {
    let project = Path::read(alloc, project)?;
    let root = root_of(alloc, root)?;
    manifests_have_paths(&root);
    Ok(load(alloc, tree, &project, root, left))
}

fn put_candidate(
    alloc: Global,
    lines: &mut Vec<u8>,
    candidate: &Candidate,
) -> Result<(), AllocError> {
    lines.extend_from_slice(candidate.package.name.as_slice())?;
    lines.extend_from_slice(b" ")?;
    lines.extend_from_slice(candidate.package.version_text.as_slice())?;
    lines.extend_from_slice(b" ")?;
    lines.extend_from_slice(candidate.folder.text())?;
    lines.extend_from_slice(b" ")?;
    lines.extend_from_slice(candidate.url.text(alloc)?.as_slice())?;
    lines.extend_from_slice(b" ")?;
    push_number(lines, candidate.repository as u64)?;
    lines.extend_from_slice(b"\n")
}

fn put_words(
    lines: &mut Vec<u8>,
    word: &[u8],
    first: &[u8],
    second: &[u8],
) -> Result<(), AllocError> {
    lines.extend_from_slice(word)?;
    if !first.is_empty() {
        lines.extend_from_slice(b" ")?;
        lines.extend_from_slice(first)?;
    }
    if !second.is_empty() {
        lines.extend_from_slice(b" ")?;
        lines.extend_from_slice(second)?;
    }
    Ok(())
}

fn put_place(lines: &mut Vec<u8>, word: &[u8], path: &Path, at: u64) -> Result<(), AllocError> {
    put_words(lines, word, path.text(), b"")?;
    lines.extend_from_slice(b" ")?;
    push_number(lines, at)
}

fn put_manifest_fault(
    lines: &mut Vec<u8>,
    path: &Path,
    fault: &ManifestFault,
) -> Result<(), AllocError> {
    match fault {
        ManifestFault::NotUtf8(at) => put_place(lines, b"utf8", path, *at),
        ManifestFault::Syntax(at) => put_place(lines, b"syntax", path, *at),
        ManifestFault::TooDeep(at) => put_place(lines, b"deep", path, *at),
        ManifestFault::BadField(pointer) => put_words(
            lines,
            b"field",
            path.text(),
            pointer.as_slice(),
        ),
        ManifestFault::ReservedName(name) => put_words(
            lines,
            b"reserved",
            path.text(),
            name.as_slice(),
        ),
    }
}

fn put_limit(lines: &mut Vec<u8>, limit: &LimitKind) -> Result<(), AllocError> {
    match limit {
        LimitKind::FileBytes(path) => put_words(lines, b"file bytes", path.text(), b""),
        LimitKind::Depth(path) => put_words(lines, b"depth", path.text(), b""),
        LimitKind::Candidates(name) => put_words(lines, b"candidates", name.as_slice(), b""),
        LimitKind::Entries => put_words(lines, b"entries", b"", b""),
        LimitKind::Packages => put_words(lines, b"packages", b"", b""),
        LimitKind::PoolBytes => put_words(lines, b"pool bytes", b"", b""),
        LimitKind::Generation => put_words(lines, b"generation", b"", b""),
    }
}

fn put_fault(lines: &mut Vec<u8>, fault: &PoolFault) -> Result<(), AllocError> {
    match fault {
        PoolFault::MissingPath(text) => put_words(lines, b"missing", text.as_slice(), b""),
        PoolFault::BadManifest(path, fault) => put_manifest_fault(lines, path, fault),
        PoolFault::NotOffered(path, pointer) => put_words(
            lines,
            b"offered",
            path.text(),
            pointer.as_slice(),
        ),
        PoolFault::OtherEntry(path) => put_words(lines, b"other", path.text(), b""),
        PoolFault::Limit(limit) => put_limit(lines, limit),
        PoolFault::Vanished(path) => put_words(lines, b"vanished", path.text(), b""),
        PoolFault::DeviceFault => put_words(lines, b"device", b"", b""),
        PoolFault::OutOfMemory => put_words(lines, b"memory", b"", b""),
    }
}

/// What is told of a pool, in lines.
fn told(alloc: Global, pool: &Result<Pool, PoolFault>) -> Result<Vec<u8>, AllocError> {
    let mut lines = Vec::new(alloc);
    match pool {
        Ok(pool) => {
            for candidate in pool.candidates.as_slice() {
                put_candidate(alloc, &mut lines, candidate)?;
            }
        }
        Err(fault) => put_fault(&mut lines, fault)?,
    }
    Ok(lines)
}

/// What is told of the pool of a project over a tree, with so many entries that may be listed.
fn told_over(
    alloc: Global,
    tree: &mut MemoryTree,
    project: &[u8],
    root: &[u8],
    left: &mut Entries,
) -> Result<Vec<u8>, Fail> {
    let pool = pool_of(alloc, tree, project, root, left)?;
    Ok(told(alloc, &pool)?)
}

/// Whether this is told of a row's pool where these calls of the device fail, and how many calls it took.
fn tells(
    rt: &impl Abort,
    alloc: Global,
    row: &Row,
    failing: &[u64],
    wanted: &[u8],
) -> Result<u64, Fail> {
    let mut tree = tree_of(rt, alloc, row.entries)?;
    tree.fail_at(alloc, failing)?;
    let mut left = Entries { left: 1_000_000 };
    let lines = told_over(alloc, &mut tree, row.project, row.root, &mut left)?;
    assert!(rt; lines.as_slice() == wanted);
    Ok(tree.calls())
}

/// Runs a row, and runs it again with each call of the device failing in turn.
fn disturbed(rt: &impl Abort, alloc: Global, row: &Row) -> Result<(), Fail> {
    let calls = tells(rt, alloc, row, &[], row.told)?;
    for number in 1..=calls {
        tells(rt, alloc, row, &[number], b"device")?;
    }
    Ok(())
}

#[test]
fn order(rt: HostRuntime) -> Result<(), Fail> {
    for row in &pools_by_order(rt.alloc())? {
        disturbed(&rt, rt.alloc(), row)?;
    }
    Ok(())
}

#[test]
fn folders(rt: HostRuntime) -> Result<(), Fail> {
    for row in &pools_by_folder(rt.alloc())? {
        disturbed(&rt, rt.alloc(), row)?;
    }
    Ok(())
}

#[test]
fn urls(rt: HostRuntime) -> Result<(), Fail> {
    for row in &refused_urls(rt.alloc())? {
        disturbed(&rt, rt.alloc(), row)?;
    }
    Ok(())
}

#[test]
fn manifests(rt: HostRuntime) -> Result<(), Fail> {
    for row in &refused_manifests(rt.alloc())? {
        disturbed(&rt, rt.alloc(), row)?;
    }
    Ok(())
}
