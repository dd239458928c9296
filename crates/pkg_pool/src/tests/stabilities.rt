//! Which versions the stabilities of a root allow.

use super::root_of;
use crate::{Pool, RootFlags, allowed, load, manifests_have_paths};
use path_name::{Path, Text};
use std::alloc::Global;
use std::test::Fail;
use tree_dev::{Entries, Entry, MemoryTree};

/// What stands beside `repositories` in a root's composer.json, the version of a package `x/y`, and whether it is allowed,
/// as Composer's documentation has it ("minimum-stability", "Stability constraints").
static ROWS: [(&str, &str, bool); 17] = [
    ("\"name\":\"r/r\"", "1.0.0", true),
    ("\"name\":\"r/r\"", "1.0.0-RC1", false),
    ("\"name\":\"r/r\"", "dev-main", false),
    ("\"minimum-stability\":\"beta\"", "1.0.0-RC1", true),
    ("\"minimum-stability\":\"beta\"", "1.0.0-beta2", true),
    ("\"minimum-stability\":\"beta\"", "1.0.0-alpha1", false),
    ("\"minimum-stability\":\"dev\"", "dev-main", true),
    ("\"require\":{\"x/y\":\"*@beta\"}", "1.0.0-beta1", true),
    ("\"require\":{\"x/y\":\"*@beta\"}", "1.0.0-alpha1", false),
    ("\"require\":{\"a/b\":\"*@dev\"}", "1.0.0-beta1", false),
    ("\"require-dev\":{\"x/y\":\"*@dev\"}", "dev-main", true),
    (
        "\"require\":{\"x/y\":\"*@beta\"},\"require-dev\":{\"x/y\":\"*@alpha\"}",
        "1.0.0-alpha1",
        true,
    ),
    ("\"require\":{\"x/y\":\"^1.0-beta\"}", "1.0.0-beta1", true),
    ("\"require\":{\"x/y\":\"^1.0-beta\"}", "1.0.0-alpha1", false),
    (
        "\"minimum-stability\":\"alpha\",\"require\":{\"x/y\":\"^1.0-beta\"}",
        "1.0.0-alpha1",
        true,
    ),
    (
        "\"minimum-stability\":\"dev\",\"require\":{\"x/y\":\"*@stable\"}",
        "1.0.0-beta1",
        false,
    ),
    ("\"require\":{\"x/y\":\"dev-main\"}", "dev-main", true),
];

/// The pool of a root with this text and one package of this version.
fn pool_of(alloc: Global, keys: &str, version: &str) -> Result<Option<Pool>, Fail> {
    let mut text = Vec::from_slice(alloc, b"{\"name\":\"x/y\",\"version\":\"")?;
    text.extend_from_slice(version.as_bytes())?;
    text.extend_from_slice(b"\"}")?;
    let mut tree = MemoryTree::new(alloc)?;
    let at = Path::read(alloc, b"p/composer.json")?;
    tree.put(alloc, &at, Entry::File(Text::of(text)))?;
    let mut text = Vec::from_slice(
        alloc,
        b"{\"repositories\":[{\"type\":\"path\",\"url\":\"p\"}],",
    )?;
    text.extend_from_slice(keys.as_bytes())?;
    text.push(b'}')?;
    let root = root_of(alloc, text.as_slice())?;
    manifests_have_paths(&root);
    let mut left = Entries { left: 9 };
    Ok(load(alloc, &mut tree, &Path::root(alloc), root, &mut left).ok())
}

/// Whether the only candidate is allowed as a row has it, by both calls.
fn holds(alloc: Global, keys: &str, version: &str, wanted: bool) -> Result<bool, Fail> {
    let Some(pool) = pool_of(alloc, keys, version)? else {
        return Ok(false);
    };
    let candidates = pool.candidates.as_slice();
    if candidates.len() != 1 {
        return Ok(false);
    }
    let flags = RootFlags::of(alloc, &pool.root)?;
    Ok(allowed(&pool, 0) == wanted && flags.allow(&candidates[0]) == wanted)
}

#[test]
fn stabilities(rt: HostRuntime) -> Result<(), Fail> {
    for (keys, version, wanted) in &ROWS {
        assert!(rt; holds(rt.alloc(), keys, version, *wanted)?);
    }
    Ok(())
}
