mod installing;
mod wanted;

use installing::install;
use path_name::{Path, Text};
use std::alloc::Global;
use std::test::Fail;
use tree_dev::{Entry, MemoryTree};
use wanted::wanted;

/// A file by its path and its bytes.
#[derive(Clone, Copy)]
struct File(&'static [u8], &'static [u8]);

/// A project `p` without `vendor`, and two packages, of three files and of one.
static START: [File; 6] = [
    File(b"p/composer.json", b"{}"),
    File(b"r/log/.git/HEAD", b"h"),
    File(b"r/log/composer.json", b"{}"),
    File(b"r/log/src/File.php", b"f"),
    File(b"r/log/src/Log.php", b"l"),
    File(b"r/one/f", b"1"),
];

/// The file that is put after a first install, the bytes of the written files and of the state file among them then, and how many files the
/// second install writes.
#[derive(Clone, Copy)]
struct Row(File, &'static [u8], &'static [u8], u64);

/// A file of no package.
const ELSEWHERE: File = File(b"p/app.php", b"a");

/// Beside the files of packages an install writes those written files whose bytes are others, and the journal.
static ROWS: [Row; 8] = [
    // Nothing changed but the generation.
    Row(ELSEWHERE, b"t", b"2", 2),
    // All four written files have other bytes.
    Row(ELSEWHERE, b"u", b"2", 5),
    // A file of a package has other bytes, or there is one more: the package is written, and no other.
    Row(File(b"r/log/src/Log.php", b"k"), b"t", b"2", 5),
    Row(File(b"r/one/g", b"g"), b"t", b"2", 4),
    Row(File(b"r/log/src/Log.php", b"k"), b"u", b"2", 8),
    // What is left out of copies changed.
    Row(File(b"r/log/.git/HEAD", b"g"), b"t", b"2", 2),
    // The copy of a package has other bytes.
    Row(File(b"p/vendor/acme/log/src/Log.php", b"k"), b"t", b"2", 5),
    // What is wanted no more is taken away without a write.
    Row(File(b"p/vendor/acme/old/f", b"f"), b"t", b"2", 2),
];

fn put(alloc: Global, tree: &mut MemoryTree, file: File) -> Result<(), Fail> {
    let entry = Entry::File(Text::copy_of(alloc, file.1)?);
    tree.put(alloc, &Path::read(alloc, file.0)?, entry)?;
    Ok(())
}

/// How many files an install of this generation writes.
fn written(
    alloc: Global,
    tree: &mut MemoryTree,
    tables: &[u8],
    state: &[u8],
    generation: u64,
) -> Result<Option<u64>, Fail> {
    let before = tree.writes();
    let Some(parts) = wanted(alloc, tables, state) else {
        return Ok(None);
    };
    install(alloc, tree, parts.as_slice(), generation)?;
    Ok(tree.writes().checked_sub(before))
}

/// The project once it was installed first.
fn installed(alloc: Global) -> Result<MemoryTree, Fail> {
    let mut tree = MemoryTree::new(alloc)?;
    for file in &START {
        put(alloc, &mut tree, *file)?;
    }
    written(alloc, &mut tree, b"t", b"1", 1)?;
    Ok(tree)
}

#[test]
fn first_installs_write_all(rt: HostRuntime) -> Result<(), Fail> {
    let tree = installed(rt.alloc())?;
    assert_eq!(rt; tree.writes(), 9);
    Ok(())
}

#[test]
fn only_what_differs_is_written(rt: HostRuntime) -> Result<(), Fail> {
    let alloc = rt.alloc();
    for (number, row) in ROWS.iter().enumerate() {
        let mut tree = installed(alloc)?;
        put(alloc, &mut tree, row.0)?;
        let count = written(alloc, &mut tree, row.1, row.2, 2)?;
        assert_eq!(rt; count, Some(row.3), "row {number}");
    }
    Ok(())
}
