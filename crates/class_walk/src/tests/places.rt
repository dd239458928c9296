//! Entries of every kind at every place of a walk, and each call of the device failing in turn.

use crate::tests::texts;
use crate::{Pattern, WalkFault, WalkJob, WalkRule, walk};
use path_name::{Items, Name, Path, Text};
use std::alloc::Global;
use tree_dev::{Did, Entries, Entry, FILE_BYTES, LimitKind, MemoryTree};

/// Between each `|`: a tree, the path of a job, the job's rule, and what its walk tells. Of the tree's words those that end in
/// `/` are folders, those that end in `@` neither files nor folders, and the others files, each of which declares the class
/// behind `=`. A refusal is told as `!`, its kind and its path. Tables show what is walked below `app`; the job skips
/// `lib/vendor`, and the pattern `lib/out*` excludes.
static ENTRIES: [&str; 20] = [
    "lib/B.inc=B lib/a/A.php=A lib/.x/C.php=C lib/n.txt=D lib/.E.php=E|lib|listed|app/lib/B.inc B app/lib/a/A.php A",
    "lib/a@|lib|listed|!other lib/a",
    "lib/a.php@|lib|listed|!other lib/a.php",
    "lib/a/b/c.php@|lib|listed|!other lib/a/b/c.php",
    "lib/.a@|lib|listed|",
    "lib/.a.php@|lib|listed|",
    "lib/vendor@|lib|listed|",
    "lib/vendor/a.php@|lib|listed|",
    "lib/out.php@|lib|listed|!other lib/out.php",
    "lib/out.php=A|lib|listed|",
    "lib/outer/A.php=A|lib|listed|",
    "lib/a.php/B.php=B|lib|listed|app/lib/a.php/B.php B",
    "lib/.a.php/B.php=B|lib|listed|",
    "lib/a/|lib|listed|",
    "lib/A=A lib/b.PHP=B lib/php=C lib/.php=D|lib|listed|",
    "lib/b@ lib/a@|lib|listed|!other lib/a",
    "lib/A.php=A lib/b@|lib|listed|!other lib/b",
    "lib/a@|lib|psr4|!other lib/a",
    "lib/A.php=A lib/C.inc=C lib/D.php=E lib/b/A.php=A|lib|psr4|app/lib/A.php A app/lib/D.php app/lib/b/A.php",
    "lib/A/B.php=A_B lib/A_B.php=A_B lib/c.inc@|lib|psr0|!other lib/c.inc",
];

/// The same of the path of a job.
static STARTS: [&str; 18] = [
    "lib@|lib|listed|!other lib",
    "lib@|lib|psr4|!other lib",
    "lib@|lib|psr0|!other lib",
    "src/|lib|listed|!missing lib",
    "src/|lib|psr4|",
    "src/|lib|psr0|",
    "lib=A|lib|listed|",
    "lib.php=A|lib.php|listed|app/lib.php A",
    "lib.inc=A|lib.inc|listed|app/lib.inc A",
    "A.php=A|A.php|psr4|",
    "A.php=A|A.php|psr0|",
    ".lib/A.php=A|.lib|listed|app/.lib/A.php A",
    ".A.php=A|.A.php|listed|app/.A.php A",
    "lib/vendor/A.php=A|lib/vendor|listed|!missing lib/vendor",
    "lib/vendor/A.php=A|lib/vendor/A.php|listed|!missing lib/vendor/A.php",
    "lib/vendor/A.php=A|lib/vendor|psr4|",
    "lib/out.php=A|lib/out.php|listed|",
    "lib=A|lib/a|listed|!missing lib/a",
];

fn put(alloc: Global, tree: &mut MemoryTree, at: &str, entry: Entry) -> Option<()> {
    let path = Path::read(alloc, at.as_bytes()).ok()?;
    match tree.put(alloc, &path, entry).ok()? {
        Did::Done => Some(()),
        Did::Misplaced => None,
    }
}

/// The text of a file that declares a class.
fn declaring(alloc: Global, class: &str) -> Option<Text> {
    let mut text = Vec::from_slice(alloc, b"<?php class ").ok()?;
    text.extend_from_slice(class.as_bytes()).ok()?;
    text.extend_from_slice(b" {}").ok()?;
    Some(Text::of(text))
}

fn put_word(alloc: Global, tree: &mut MemoryTree, word: &str) -> Option<()> {
    if let Some(at) = word.strip_suffix('/') {
        return put(alloc, tree, at, Entry::Folder);
    }
    if let Some(at) = word.strip_suffix('@') {
        return put(alloc, tree, at, Entry::Other);
    }
    let (at, class) = word.split_once('=')?;
    put(alloc, tree, at, Entry::File(declaring(alloc, class)?))
}

/// The tree of these words.
pub fn tree_of(alloc: Global, words: &str) -> Option<MemoryTree> {
    let mut tree = MemoryTree::new(alloc).ok()?;
    for word in words.split(' ') {
        put_word(alloc, &mut tree, word)?;
    }
    Some(tree)
}

fn rule_of(alloc: Global, word: &str) -> Option<WalkRule> {
    let prefix = Name::copy_of(alloc, b"").ok()?;
    match word {
        "listed" => Some(WalkRule::Listed),
        "psr4" => Some(WalkRule::Psr4(prefix)),
        "psr0" => Some(WalkRule::Psr0(prefix)),
        _ => None,
    }
}

/// A job at a path, by the word of its rule.
pub fn job_of(alloc: Global, at: &str, rule: &str) -> Option<WalkJob> {
    let mut skip = Vec::new(alloc);
    skip.push(Path::read(alloc, b"lib/vendor").ok()?).ok()?;
    let at = Path::read(alloc, at.as_bytes()).ok()?;
    Some(WalkJob {
        shown: Path::read(alloc, b"app").ok()?.join(alloc, &at).ok()?,
        at,
        rule: rule_of(alloc, rule)?,
        skip: Items::of(skip),
    })
}

fn told_words(alloc: Global, word: &[u8], path: &Path) -> Option<Vec<u8>> {
    let mut told = Vec::from_slice(alloc, word).ok()?;
    told.extend_from_slice(path.text()).ok()?;
    Some(told)
}

fn told_limit(alloc: Global, limit: &LimitKind) -> Option<Vec<u8>> {
    match limit {
        LimitKind::FileBytes(path) => told_words(alloc, b"!long ", path),
        LimitKind::Depth(path) => told_words(alloc, b"!deep ", path),
        LimitKind::Entries => Vec::from_slice(alloc, b"!entries").ok(),
        _ => Vec::from_slice(alloc, b"!limit").ok(),
    }
}

fn told_fault(alloc: Global, fault: &WalkFault) -> Option<Vec<u8>> {
    match fault {
        WalkFault::ClassmapMissing(path) => told_words(alloc, b"!missing ", path),
        WalkFault::OtherEntry(path) => told_words(alloc, b"!other ", path),
        WalkFault::Limit(limit) => told_limit(alloc, limit),
        WalkFault::Vanished(path) => told_words(alloc, b"!vanished ", path),
        WalkFault::DeviceFault => Vec::from_slice(alloc, b"!device").ok(),
        WalkFault::OutOfMemory => Vec::from_slice(alloc, b"!memory").ok(),
    }
}

/// What a walk tells that may list so many entries.
pub fn told(alloc: Global, tree: &mut MemoryTree, job: WalkJob, left: u32) -> Option<Vec<u8>> {
    let app = Path::read(alloc, b"app").ok()?;
    let exclude = Pattern::read(alloc, &app, b"lib/out*").ok()?;
    let mut left = Entries { left };
    match walk(alloc, tree, &[job], &[exclude], &mut left) {
        Ok(found) => texts(alloc, found.as_slice()).ok(),
        Err(fault) => told_fault(alloc, &fault),
    }
}

/// What comes of a walk.
#[derive(Drop)]
struct Heard {
    told: Vec<u8>,
    calls: u64,
}

/// What comes of the walk of a row where these calls of the device fail.
fn walk_row(alloc: Global, words: &str, at: &str, rule: &str, failing: &[u64]) -> Option<Heard> {
    let mut tree = tree_of(alloc, words)?;
    tree.fail_at(alloc, failing).ok()?;
    let told = told(alloc, &mut tree, job_of(alloc, at, rule)?, 1_000)?;
    Some(Heard {
        told,
        calls: tree.calls(),
    })
}

/// Whether the walk of a row ends as a fault of the device where this call fails.
fn is_disturbed(alloc: Global, words: &str, at: &str, rule: &str, call: u64) -> Option<bool> {
    let heard = walk_row(alloc, words, at, rule, &[call])?;
    Some(heard.told.as_slice() == b"!device".as_slice() && heard.calls == call)
}

/// Whether a row holds, and with each call of the device failing in turn is a fault of the device at that call.
fn holds(alloc: Global, row: &str) -> Option<bool> {
    let (rest, wanted) = row.rsplit_once('|')?;
    let (rest, rule) = rest.rsplit_once('|')?;
    let (words, at) = rest.rsplit_once('|')?;
    let heard = walk_row(alloc, words, at, rule, &[])?;
    for call in 1..=heard.calls {
        if !is_disturbed(alloc, words, at, rule, call)? {
            return Some(false);
        }
    }
    Some(heard.told.as_slice() == wanted.as_bytes())
}

#[test]
fn entries_below(rt: HostRuntime) {
    for row in &ENTRIES {
        assert_eq!(rt; holds(rt.alloc(), row), Some(true), "{row}");
    }
}

#[test]
fn paths_of_jobs(rt: HostRuntime) {
    for row in &STARTS {
        assert_eq!(rt; holds(rt.alloc(), row), Some(true), "{row}");
    }
}

/// A path below `lib`, behind so many folders.
fn deep_path(alloc: Global, folders: u32, name: &[u8]) -> Option<Path> {
    let mut text = Vec::from_slice(alloc, b"lib/").ok()?;
    for _ in 0..folders {
        text.extend_from_slice(b"d/").ok()?;
    }
    text.extend_from_slice(name).ok()?;
    Path::read(alloc, text.as_slice()).ok()
}

fn file_of(alloc: Global) -> Option<Entry> {
    Some(Entry::File(declaring(alloc, "A")?))
}

/// What a walk of `lib` tells of an entry behind so many folders.
fn told_of_deep(alloc: Global, folders: u32, name: &[u8], entry: Option<Entry>) -> Option<Vec<u8>> {
    let mut tree = MemoryTree::new(alloc).ok()?;
    let path = deep_path(alloc, folders, name)?;
    tree.put(alloc, &path, entry?).ok()?;
    told(alloc, &mut tree, job_of(alloc, "lib", "listed")?, 1_000)
}

/// Whether such an entry is refused by this word and its path.
fn is_refused(
    alloc: Global,
    word: &[u8],
    folders: u32,
    name: &[u8],
    entry: Option<Entry>,
) -> Option<bool> {
    let wanted = told_words(alloc, word, &deep_path(alloc, folders, name)?)?;
    let told = told_of_deep(alloc, folders, name, entry)?;
    Some(wanted == told)
}

fn is(told: Option<Vec<u8>>, wanted: &[u8]) -> bool {
    match told {
        Some(told) => told.as_slice() == wanted,
        None => false,
    }
}

fn ends(told: Option<Vec<u8>>, wanted: &[u8]) -> bool {
    match told {
        Some(told) => told.ends_with(wanted),
        None => false,
    }
}

#[test]
fn levels(rt: HostRuntime) {
    let alloc = rt.alloc();
    assert_eq!(rt;
        is_refused(alloc, b"!deep ", 64, b"A.php", file_of(alloc)),
        Some(true)
    );
    assert_eq!(rt;
        is_refused(alloc, b"!deep ", 64, b"n.txt", file_of(alloc)),
        Some(true)
    );
    assert_eq!(rt;
        is_refused(alloc, b"!deep ", 64, b"l", Some(Entry::Folder)),
        Some(true)
    );
    assert_eq!(rt;
        is_refused(alloc, b"!other ", 64, b"l", Some(Entry::Other)),
        Some(true)
    );
    assert_eq!(rt;
        is_refused(alloc, b"!other ", 63, b"l", Some(Entry::Other)),
        Some(true)
    );
}

#[test]
fn last_levels(rt: HostRuntime) {
    let alloc = rt.alloc();
    assert!(rt;
        ends(
            told_of_deep(alloc, 63, b"A.php", file_of(alloc)),
            b"/d/A.php A"
        )
    );
    assert!(rt; is(told_of_deep(alloc, 63, b"l", Some(Entry::Folder)), b""));
    assert!(rt; is(told_of_deep(alloc, 64, b".A.php", file_of(alloc)), b""));
}

/// What a walk of `lib` tells that may list so many entries, where it and one folder in it have two each.
fn told_of_few(alloc: Global, left: u32) -> Option<Vec<u8>> {
    let mut tree = tree_of(alloc, "lib/.a=A lib/b/ lib/b/C.php=C lib/b/d=D")?;
    told(alloc, &mut tree, job_of(alloc, "lib", "listed")?, left)
}

#[test]
fn entries_that_are_left(rt: HostRuntime) {
    assert!(rt; is(told_of_few(rt.alloc(), 4), b"app/lib/b/C.php C"));
    assert!(rt; is(told_of_few(rt.alloc(), 3), b"!entries"));
}

/// What a walk of `lib` tells of a file that is one byte too long.
fn told_of_long(alloc: Global, at: &str) -> Option<Vec<u8>> {
    let mut bytes = Vec::new(alloc);
    bytes.resize(FILE_BYTES as usize + 1, 0).ok()?;
    let mut tree = MemoryTree::new(alloc).ok()?;
    put(alloc, &mut tree, at, Entry::File(Text::of(bytes)))?;
    told(alloc, &mut tree, job_of(alloc, "lib", "listed")?, 1_000)
}

#[test]
fn long_files(rt: HostRuntime) {
    assert!(rt; is(told_of_long(rt.alloc(), "lib/A.php"), b"!long lib/A.php"));
    assert!(rt; is(told_of_long(rt.alloc(), "lib/out.php"), b""));
}
