//! Locks of plans.

use super::{texts, twelve};
use crate::{Lock, Locked, lock_of, print};
use manifest_read::{Manifest, Role, from_doc};
use path_name::{FolderRef, Items, Path, Text};
use pkg_pool::{Candidate, Pool};
use plan_rules::Selection;
use std::alloc::Global;
use std::test::*;

fn manifest(alloc: Global, text: &str, role: Role) -> Option<Manifest> {
    match json_ordered::read(alloc, text.as_bytes()) {
        Ok(doc) => from_doc(alloc, &doc, role).ok(),
        Err(_) => None,
    }
}

fn candidate(alloc: Global, text: &str) -> Option<Candidate> {
    let Manifest { package, .. } = manifest(alloc, text, Role::Member)?;
    let url = FolderRef::read(alloc, package.name.as_slice()).ok()?;
    let folder = Path::read(alloc, package.name.as_slice()).ok()?;
    let reference = Text::of(Vec::from_slice(alloc, b"r").ok()?);
    Some(Candidate {
        package,
        repository: 0,
        url,
        folder,
        reference,
    })
}

fn pool(alloc: Global, root: &str, members: &[&str]) -> Option<Pool> {
    let root = manifest(alloc, root, Role::Root)?;
    let mut candidates = Vec::new(alloc);
    for text in members {
        candidates.push(candidate(alloc, text)?).ok()?;
    }
    Some(Pool {
        root,
        candidates: Items::of(candidates),
    })
}

/// The lock of a plan that takes these candidates.
fn lock(
    alloc: Global,
    root: &str,
    members: &[&str],
    plan: &[u32],
    hash: &[u8; 32],
) -> Option<Lock> {
    let pool = pool(alloc, root, members)?;
    let plan = Selection {
        members: Items::of(Vec::from_slice(alloc, plan).ok()?),
    };
    lock_of(alloc, &pool, &plan, hash).ok()
}

fn are_named(list: &[Locked], names: &[&str]) -> bool {
    if list.len() != names.len() {
        return false;
    }
    for i in 0..names.len() {
        if list[i].package.name.as_slice() != names[i].as_bytes() {
            return false;
        }
    }
    true
}

static HASH: [u8; 32] = *b"d751713988987e9331980363e24189ce";

/// Whether the lock of a plan has these packages, and these for development.
fn is_locked_as(
    alloc: Global,
    root: &str,
    members: &[&str],
    plan: &[u32],
    names: &[&str],
    dev_names: &[&str],
) -> bool {
    match lock(alloc, root, members, plan, &HASH) {
        Some(lock) => {
            are_named(lock.packages.as_slice(), names)
                && are_named(lock.packages_dev.as_slice(), dev_names)
        }
        None => false,
    }
}

/// Whether the lock of a plan is printed so.
fn is_plan_printed_as(
    alloc: Global,
    root: &str,
    members: &[&str],
    plan: &[u32],
    printed: &str,
) -> bool {
    match lock(alloc, root, members, plan, &HASH) {
        Some(lock) => match print(alloc, &lock) {
            Ok(text) => text.as_slice() == printed.as_bytes(),
            Err(_) => false,
        },
        None => false,
    }
}

/// Candidates: a chain, what replaces and what provides a name, and packages for development.
static CANDIDATES: [&str; 8] = [
    "{\"name\":\"a/a\",\"version\":\"1.0\",\"require\":{\"php\":\"*\",\"virtual/x\":\"^2.0\"}}",
    "{\"name\":\"z/x\",\"version\":\"3.0\",\"provide\":{\"virtual/x\":\"2.5\"},\"require\":{\"old/y\":\"*\"}}",
    "{\"name\":\"b/y\",\"version\":\"1.0\",\"replace\":{\"old/y\":\"self.version\"},\"require\":{\"c/c\":\"*\"}}",
    "{\"name\":\"c/c\",\"version\":\"1.0\",\"require\":{\"a/a\":\"*\"}}",
    "{\"name\":\"d/d\",\"version\":\"1.0\",\"require\":{\"e/e\":\"*\",\"c/c\":\"*\"}}",
    "{\"name\":\"e/e\",\"version\":\"1.0\"}",
    "{\"name\":\"f/f\",\"version\":\"1.0\",\"provide\":{\"virtual/x\":\"1.0\"}}",
    "{\"name\":\"a/a\",\"version\":\"2.0\"}",
];

static ROOT: &str =
    "{\"require\":{\"a/a\":\"^1.0\",\"ext-json\":\"*\"},\"require-dev\":{\"d/d\":\"*\",\"f/f\":\"*\"}}";

#[test]
fn plans_are_locked(rt: HostRuntime) {
    assert!(rt;
        is_locked_as(
            rt.alloc(),
            ROOT,
            &CANDIDATES,
            &[0, 1, 2, 3, 4, 5, 6],
            &["a/a", "b/y", "c/c", "z/x"],
            &["d/d", "e/e", "f/f"]
        )
    );
    assert!(rt;
        is_locked_as(
            rt.alloc(),
            ROOT,
            &CANDIDATES,
            &[6, 5, 4, 3, 0],
            &["a/a"],
            &["c/c", "d/d", "e/e", "f/f"]
        )
    );
    assert!(rt; is_plan_printed_as(rt.alloc(), "{}", &[], &[], texts::EMPTY_LOCK));
    assert!(rt;
        is_plan_printed_as(
            rt.alloc(),
            twelve::ROOT,
            &twelve::MEMBERS,
            &[8, 0, 4, 2, 3, 1, 5, 6, 11, 7, 9, 10],
            twelve::LOCK
        )
    );
}
