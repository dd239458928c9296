//! Tables of small projects, and the files that are written with them.

use crate::{
    FilePlace, NewTables, Setting, WrittenFile, members_in_place, mode_of, new_tables, parts_of,
    put_counts, texts_of, written_files,
};
use composer_words::Ways;
use lock_file::installed_from_doc;
use manifest_read::{Manifest, Role, from_doc};
use path_name::{Items, Path, Text};
use psr_routes::Placed;
use run_answers::{Refusal, error_line};
use stage_job::{Part, Source};
use std::alloc::{AllocError, Global};
use std::test::Fail;
use table_scan::{Mode, TableTexts, read};
use tree_dev::{Entries, Entry, MemoryTree};

fn manifest(alloc: Global, text: &[u8]) -> Result<Manifest, Fail> {
    let doc = json_ordered::read(alloc, text)?;
    Ok(from_doc(alloc, &doc, Role::Root)?)
}

/// What is asked for by words and by a composer.json, and the mode that is meant.
#[derive(Clone, Copy)]
struct Asked {
    optimised: bool,
    authoritative: bool,
    root: &'static [u8],
    mode: Mode,
}

const NOTHING: &[u8] = b"{}";

const OPTIMISE: &[u8] = br#"{"config":{"optimize-autoloader":true}}"#;

const MAP_ALONE: &[u8] = br#"{"config":{"classmap-authoritative":true}}"#;

static ASKED: [Asked; 6] = [
    Asked {
        optimised: false,
        authoritative: false,
        root: NOTHING,
        mode: Mode::Plain,
    },
    Asked {
        optimised: true,
        authoritative: false,
        root: NOTHING,
        mode: Mode::Optimised,
    },
    Asked {
        optimised: true,
        authoritative: true,
        root: NOTHING,
        mode: Mode::Authoritative,
    },
    Asked {
        optimised: false,
        authoritative: false,
        root: OPTIMISE,
        mode: Mode::Optimised,
    },
    Asked {
        optimised: true,
        authoritative: false,
        root: MAP_ALONE,
        mode: Mode::Authoritative,
    },
    Asked {
        optimised: false,
        authoritative: true,
        root: OPTIMISE,
        mode: Mode::Authoritative,
    },
];

fn has_mode(alloc: Global, asked: &Asked) -> Result<bool, Fail> {
    let ways = Ways {
        optimised: asked.optimised,
        authoritative: asked.authoritative,
        no_dev: false,
    };
    Ok(mode_of(&ways, &manifest(alloc, asked.root)?) == asked.mode)
}

#[test]
fn modes_are_chosen(rt: HostRuntime) -> Result<(), Fail> {
    for asked in &ASKED {
        assert!(rt; has_mode(rt.alloc(), asked)?);
    }
    Ok(())
}

/// A project in `p` with a package at `p/vendor/acme/log`, how its tables are written, and what is told of them.
#[derive(Clone, Copy)]
struct Built {
    setting: Setting,
    answer: &'static [u8],
}

const ROOT: &[u8] =
    br#"{"autoload":{"psr-4":{"App\\":"src"}},"autoload-dev":{"classmap":["tests"]}}"#;

const WITH_LOG: &[u8] =
    br#"{"packages":[{"name":"acme/log","version":"1.2.5","autoload":{"classmap":["lib"]}}],"dev":true,"dev-package-names":[]}"#;

/// A file by its path and its bytes.
#[derive(Clone, Copy)]
struct File(&'static [u8], &'static [u8]);

static FILES: [File; 3] = [
    File(b"p/src/Home.php", b"<?php namespace App; class Home {}"),
    File(
        b"p/vendor/acme/log/lib/log.php",
        b"<?php class Log {} class Line {}",
    ),
    File(b"p/tests/all.php", b"<?php class All {}"),
];

static BUILT: [Built; 4] = [
    Built {
        setting: Setting {
            mode: Mode::Plain,
            dev: false,
            stands: None,
        },
        answer: b"classes 2\ngeneration 1\n",
    },
    Built {
        setting: Setting {
            mode: Mode::Plain,
            dev: true,
            stands: Some(41),
        },
        answer: b"classes 3\ngeneration 42\n",
    },
    Built {
        setting: Setting {
            mode: Mode::Optimised,
            dev: false,
            stands: Some(18_446_744_073_709_551_614),
        },
        answer: b"classes 3\ngeneration 18446744073709551615\n",
    },
    Built {
        setting: Setting {
            mode: Mode::Plain,
            dev: false,
            stands: Some(18_446_744_073_709_551_615),
        },
        answer: b"error: limit Generation\n",
    },
];

fn tree(alloc: Global, files: &[File]) -> Result<MemoryTree, Fail> {
    let mut tree = MemoryTree::new(alloc)?;
    for file in files {
        let entry = Entry::File(Text::copy_of(alloc, file.1)?);
        tree.put(alloc, &Path::read(alloc, file.0)?, entry)?;
    }
    Ok(tree)
}

fn members(alloc: Global, project: &Path) -> Result<Items<Placed>, Fail> {
    let doc = json_ordered::read(alloc, WITH_LOG)?;
    let installed = installed_from_doc(alloc, &doc)?;
    Ok(members_in_place(alloc, project, installed.packages)?)
}

fn build(
    alloc: Global,
    files: &[File],
    setting: Setting,
) -> Result<Result<NewTables, Refusal>, Fail> {
    let project = Path::read(alloc, b"p")?;
    let root = manifest(alloc, ROOT)?;
    let members = members(alloc, &project)?;
    let mut tree = tree(alloc, files)?;
    let mut left = Entries { left: 1_000 };
    Ok(new_tables(
        alloc,
        &mut tree,
        &project,
        &root,
        members.as_slice(),
        setting,
        &mut left,
    ))
}

/// The counts of tables, or the line of a refusal.
fn told(alloc: Global, files: &[File], setting: Setting) -> Result<Vec<u8>, Fail> {
    match build(alloc, files, setting)? {
        Ok(new) => {
            let mut lines = Vec::new(alloc);
            put_counts(&mut lines, &new.tables, new.generation)?;
            Ok(lines)
        }
        Err(refusal) => Ok(error_line(alloc, &refusal)?),
    }
}

#[test]
fn tables_are_new(rt: HostRuntime) -> Result<(), Fail> {
    for one in &BUILT {
        let lines = told(rt.alloc(), &FILES, one.setting)?;
        assert_eq!(rt; lines.as_slice(), one.answer);
    }
    let lines = told(rt.alloc(), &[], BUILT[3].setting)?;
    assert_eq!(rt;
        lines.as_slice(),
        b"error: missing p/vendor/acme/log/lib\n".as_slice()
    );
    Ok(())
}

/// The texts of the tables of a project.
static TEXTS: [&[u8]; 5] = [
    b"<?php\n\n// autoload_psr4.php @generated by Composer\n\n$vendorDir = dirname(__DIR__);\n$baseDir = dirname($vendorDir);\n\nreturn array(\n    'App\\\\' => array($baseDir . '/src'),\n);\n",
    b"<?php\n\n// autoload_namespaces.php @generated by Composer\n\n$vendorDir = dirname(__DIR__);\n$baseDir = dirname($vendorDir);\n\nreturn array(\n);\n",
    b"<?php\n\n// autoload_classmap.php @generated by Composer\n\n$vendorDir = dirname(__DIR__);\n$baseDir = dirname($vendorDir);\n\nreturn array(\n    'Log' => $vendorDir . '/acme/log/lib/log.php',\n);\n",
    b"<?php\n\n// autoload_files.php @generated by Composer\n\n$vendorDir = dirname(__DIR__);\n$baseDir = dirname($vendorDir);\n\nreturn array(\n);\n",
    b"<?php\n\n// autoload_state.php @generated by Composer\n\nreturn array(\n    'mode' => 'plain',\n    'generation' => 1,\n);\n",
];

/// Where its files go, one a line.
static TARGETS: &[u8] =
    b"vendor/composer/autoload_psr4.php\nvendor/composer/autoload_namespaces.php\nvendor/composer/autoload_classmap.php\nvendor/composer/autoload_files.php\nvendor/composer/autoload_state.php\nvendor/composer/installed.json\nvendor/autoload.php\ncomposer.lock\n";

fn text(alloc: Global, bytes: &[u8]) -> Option<Text> {
    Text::copy_of(alloc, bytes).ok()
}

/// The texts of the tables, read and printed again.
fn printed(alloc: Global, project: &Path) -> Option<TableTexts> {
    let texts = TableTexts {
        psr4: text(alloc, TEXTS[0]),
        psr0: text(alloc, TEXTS[1]),
        class_map: text(alloc, TEXTS[2]),
        files: text(alloc, TEXTS[3]),
        state: text(alloc, TEXTS[4]),
    };
    let tables = read(alloc, &texts, project).ok()?;
    texts_of(alloc, project, &tables).ok()
}

/// The parts of all files of the project.
fn parts(alloc: Global) -> Option<Vec<Part>> {
    let project = Path::read(alloc, b"p").ok()?;
    let texts = printed(alloc, &project)?;
    let mut files = written_files(alloc, texts, text(alloc, b"installed")).ok()?;
    files
        .push(WrittenFile {
            place: FilePlace::Lock,
            text: text(alloc, b"lock"),
        })
        .ok()?;
    parts_of(alloc, &project, files).ok()
}

/// Whether a part has these bytes.
fn puts(part: &Part, bytes: &[u8]) -> bool {
    match &part.from {
        Source::Bytes(text) => text.as_slice() == bytes,
        _ => false,
    }
}

fn targets(alloc: Global, parts: &[Part]) -> Result<Vec<u8>, AllocError> {
    let mut lines = Vec::new(alloc);
    for part in parts {
        lines.extend_from_slice(part.target.text())?;
        lines.push(b'\n')?;
    }
    Ok(lines)
}

/// Whether parts put these bytes, one after another.
fn put_all(parts: &[Part], texts: &[&[u8]]) -> bool {
    parts
        .iter()
        .zip(texts)
        .all(|(part, text)| puts(part, *text))
}

/// Whether the files of the project are written as they are meant.
fn are_written(alloc: Global) -> Option<bool> {
    let parts = parts(alloc)?;
    let lines = targets(alloc, parts.as_slice()).ok()?;
    let [_, _, _, _, _, installed, _, lock] = parts.as_slice() else {
        return Some(false);
    };
    let are_tables = lines.as_slice() == TARGETS && put_all(parts.as_slice(), &TEXTS);
    Some(are_tables && puts(installed, b"installed") && puts(lock, b"lock"))
}

#[test]
fn files_are_written(rt: HostRuntime) -> Result<(), Fail> {
    assert!(rt; are_written(rt.alloc()) == Some(true));
    Ok(())
}
