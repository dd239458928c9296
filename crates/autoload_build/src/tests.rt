ghost use Rattle.std.specs.Prelude.{◌≡◌};
ghost use Rattle.std.specs.List.{list_all};
ghost use Rattle.table_scan.specs.TableGrammar.{is_whole};

mod rows;

use crate::tables;
use class_lookup::{Found, class_name, find};
use class_walk::WalkFault;
use manifest_read::{Manifest, Role, from_doc};
use path_name::{Path, Text};
use psr_routes::Placed;
use rows::{BUILT, Built, OPENED, Opened};
use std::alloc::{AllocError, Global};
use std::test::Fail;
use table_scan::{ClassRow, FileRow, Mode, PrefixRow, State, Tables};
use tree_dev::{Did, Entries, Entry, MemoryTree};

fn manifest(alloc: Global, text: &str, role: Role) -> Result<Manifest, Fail> {
    let doc = json_ordered::read(alloc, text.as_bytes())?;
    Ok(from_doc(alloc, &doc, role)?)
}

/// A package below `store`, seen as its copy below `vendor` will be.
fn placed(alloc: Global, project: &Path, text: &str) -> Result<Placed, Fail> {
    let package = manifest(alloc, text, Role::Member)?.package;
    let at = Path::read(alloc, b"store")?.follow(alloc, package.name.as_slice())?;
    let shown = project
        .follow(alloc, b"vendor")?
        .follow(alloc, package.name.as_slice())?;
    Ok(Placed {
        package,
        at,
        shown,
        mirrored: true,
    })
}

fn packages(alloc: Global, project: &Path, texts: &[&str]) -> Result<Vec<Placed>, Fail> {
    let mut members = Vec::new(alloc);
    for text in texts {
        members.push(placed(alloc, project, text)?)?;
    }
    Ok(members)
}

fn put_file(alloc: Global, tree: &mut MemoryTree, path: &str, text: &str) -> Result<Did, Fail> {
    let at = Path::read(alloc, path.as_bytes())?;
    let file = Entry::File(Text::copy_of(alloc, text.as_bytes())?);
    Ok(tree.put(alloc, &at, file)?)
}

fn tree_of(alloc: Global, files: &[(&str, &str)]) -> Result<MemoryTree, Fail> {
    let mut tree = MemoryTree::new(alloc)?;
    for (path, text) in files {
        put_file(alloc, &mut tree, path, text)?;
    }
    Ok(tree)
}

/// The tables of a project with so many entries to list.
fn build(
    alloc: Global,
    tree: &mut MemoryTree,
    built: &Built,
    left: &mut Entries,
) -> Result<Result<Tables, WalkFault>, Fail> {
    let project = Path::read(alloc, built.project.as_bytes())?;
    let root = manifest(alloc, built.root, Role::Root)?;
    let members = packages(alloc, &project, built.packages)?;
    if members.len() > 99 {
        return Ok(Err(WalkFault::OutOfMemory));
    }
    Ok(tables(
        alloc,
        tree,
        &project,
        &root,
        members.as_slice(),
        built.mode,
        built.dev,
        7,
        left,
    ))
}

/// What separates the rows of a table.
fn put_comma(text: &mut Vec<u8>) -> Result<(), AllocError> {
    if !text.is_empty() {
        text.extend_from_slice(b", ")?;
    }
    Ok(())
}

fn put_word(text: &mut Vec<u8>, word: &[u8]) -> Result<(), AllocError> {
    text.push(b' ')?;
    text.extend_from_slice(word)
}

fn put_prefix(text: &mut Vec<u8>, row: &PrefixRow) -> Result<(), AllocError> {
    put_comma(text)?;
    text.extend_from_slice(row.prefix.as_slice())?;
    for folder in row.folders.as_slice() {
        put_word(text, folder.text())?;
    }
    Ok(())
}

fn prefix_text(alloc: Global, rows: &[PrefixRow]) -> Result<Vec<u8>, AllocError> {
    let mut text = Vec::new(alloc);
    for row in rows {
        put_prefix(&mut text, row)?;
    }
    Ok(text)
}

fn class_text(alloc: Global, rows: &[ClassRow]) -> Result<Vec<u8>, AllocError> {
    let mut text = Vec::new(alloc);
    for row in rows {
        put_comma(&mut text)?;
        text.extend_from_slice(row.class.as_slice())?;
        put_word(&mut text, row.path.text())?;
    }
    Ok(text)
}

fn file_text(alloc: Global, rows: &[FileRow]) -> Result<Vec<u8>, AllocError> {
    let mut text = Vec::new(alloc);
    for row in rows {
        put_comma(&mut text)?;
        text.extend_from_slice(row.id.as_slice())?;
        put_word(&mut text, row.path.text())?;
    }
    Ok(text)
}

fn are_tables(alloc: Global, tables: &Tables, wanted: &[&str]) -> Result<bool, AllocError> {
    let [psr4, psr0, class_map, files] = wanted else {
        return Ok(false);
    };
    Ok(
        prefix_text(alloc, tables.psr4.as_slice())?.as_slice() == psr4.as_bytes()
            && prefix_text(alloc, tables.psr0.as_slice())?.as_slice() == psr0.as_bytes()
            && class_text(alloc, tables.class_map.as_slice())?.as_slice() == class_map.as_bytes()
            && file_text(alloc, tables.files.as_slice())?.as_slice() == files.as_bytes(),
    )
}

fn is_built(alloc: Global, built: &Built) -> Result<bool, Fail> {
    let mut tree = tree_of(alloc, built.files)?;
    let mut left = Entries { left: 1_000 };
    let Ok(tables) = build(alloc, &mut tree, built, &mut left)? else {
        return Ok(false);
    };
    let state = State {
        mode: built.mode,
        generation: 7,
    };
    Ok(tables.state == Some(state) && are_tables(alloc, &tables, built.tables)?)
}

#[test]
fn tables_are_built(rt: HostRuntime) -> Result<(), Fail> {
    for built in &BUILT {
        assert!(rt; is_built(rt.alloc(), built)?);
    }
    Ok(())
}

/// Whether what a look-up of a class asks of prefixes holds.
fn have_whole_prefixes(rows: &[PrefixRow]) -> bool
    ensures { result ≡ list_all (λ row. is_whole row.prefix) rows.now }
{
    rows.iter().all(|row| is_whole(row.prefix.as_slice()))
}

/// Empty, or it ends in `\`.
fn is_whole(prefix: &[u8]) -> bool
    ensures { result ≡ is_whole prefix.now }
{
    match prefix.len() {
        0 => true,
        len => prefix[len - 1] == b'\\',
    }
}

fn opens(
    alloc: Global,
    tables: &Tables,
    tree: &mut MemoryTree,
    class: &str,
    file: &str,
) -> Result<bool, Fail> {
    if !have_whole_prefixes(tables.psr4.as_slice()) {
        return Ok(false);
    }
    let name = class_name(alloc, class.as_bytes())?;
    match find(alloc, tables, tree, &name)? {
        Found::File(path) => Ok(path.text() == file.as_bytes()),
        Found::Nothing => Ok(file.is_empty()),
    }
}

fn open_in_mode(alloc: Global, opened: &Opened, mode: Mode, number: usize) -> Result<bool, Fail> {
    let mut tree = tree_of(alloc, opened.files)?;
    let mut left = Entries { left: 1_000 };
    let built = Built {
        project: "",
        root: opened.root,
        packages: opened.packages,
        files: opened.files,
        mode,
        dev: true,
        tables: &[],
    };
    let Ok(tables) = build(alloc, &mut tree, &built, &mut left)? else {
        return Ok(false);
    };
    for (class, files) in opened.classes {
        let Some(file) = files.get(number) else {
            return Ok(false);
        };
        if !opens(alloc, &tables, &mut tree, class, file)? {
            return Ok(false);
        }
    }
    Ok(true)
}

#[test]
fn classes_are_opened(rt: HostRuntime) -> Result<(), Fail> {
    for opened in &OPENED {
        assert!(rt; open_in_mode(rt.alloc(), opened, Mode::Plain, 0)?);
        assert!(rt; open_in_mode(rt.alloc(), opened, Mode::Optimised, 1)?);
        assert!(rt; open_in_mode(rt.alloc(), opened, Mode::Authoritative, 2)?);
    }
    Ok(())
}

/// A project that lists `tests`, of which a pattern leaves a part out, and another path.
static LISTING: &str =
    "{\"autoload\":{\"classmap\":[\"tests\"],\"exclude-from-classmap\":[\"tests/*/fix\"]}}";

static NOWHERE: &str = "{\"autoload\":{\"classmap\":[\"tests\",\"nowhere\"]}}";

static TESTS: &[(&str, &str)] = &[
    ("tests/unit/fix/A.php", "<?php class A {}"),
    ("tests/fix/A.php", "<?php class B {}"),
    ("tests/unit/fixture/A.php", "<?php class C {}"),
];

fn listing(root: &'static str) -> Built {
    Built {
        project: "",
        root,
        packages: &[],
        files: TESTS,
        mode: Mode::Plain,
        dev: true,
        tables: &["", "", "B tests/fix/A.php, C tests/unit/fixture/A.php", ""],
    }
}

/// Whether a path that is listed and missing is refused.
fn is_missing(alloc: Global, built: &Built, path: &str) -> Result<bool, Fail> {
    let mut tree = tree_of(alloc, built.files)?;
    let mut left = Entries { left: 1_000 };
    match build(alloc, &mut tree, built, &mut left)? {
        Err(WalkFault::ClassmapMissing(at)) => Ok(at.text() == path.as_bytes()),
        _ => Ok(false),
    }
}

#[test]
fn listed_paths_are_walked(rt: HostRuntime) -> Result<(), Fail> {
    assert!(rt; is_built(rt.alloc(), &listing(LISTING))?);
    assert!(rt; is_missing(rt.alloc(), &listing(NOWHERE), "nowhere")?);
    Ok(())
}
