//! The text that is hashed.

ghost use Rattle.std.specs.Prelude.{◌≡◌, ◌++◌, [], true, codes, None, Some, IfOk, OnOk, MatchOption};
ghost use Rattle.std.specs.List.{list_all};
ghost use Rattle.json_ordered.specs.JsonPrinting.{is_kept};
ghost use Rattle.json_ordered.specs.JsonTree.{HasUtf8Texts};
ghost use Rattle.json_ordered.specs.JsonParts.{value_at};
ghost use Rattle.json_ordered.specs.Docs.{tree_of};
ghost use Rattle.content_hash.specs.HashedText.{hashed_text_of, platform_of, pair_at, config_pair};
ghost use Rattle.content_hash.specs.HashedParts.{opening, is_first, part_of, ending, rest_of, found_pairs};

use json_ordered::{Doc, add_hash_form};
use path_name::Text;
use std::alloc::{AllocError, Global};

// The keys whose values are hashed whole, in byte order.
const NAMES: [&[u8]; 11] = [
    b"conflict",
    b"extra",
    b"minimum-stability",
    b"name",
    b"prefer-stable",
    b"provide",
    b"replace",
    b"repositories",
    b"require",
    b"require-dev",
    b"version",
];

// The platform of a manifest's `config`, unless it is null.
fn platform(doc: &Doc) -> Option<&Doc>
    ensures { MatchOption result
        (platform_of (value_at (tree_of doc.now) (codes "config")) ≡ None)
        (λ platform. platform_of (value_at (tree_of doc.now) (codes "config")) ≡ Some (tree_of platform.now)) }
{
    let config = doc.value(b"config")?;
    let platform = config.value(b"platform")?;
    if platform.is_null() {
        return None;
    }
    Some(platform)
}

// Adds `{` before the first pair, and `,` before each other.
fn add_opening(out: &mut Vec<u8>) -> Result<(), AllocError>
    ensures { OnOk result (out.new.items ≡ out.old.items ++ opening (is_first out.old.items)) }
{
    if out.as_slice().is_empty() {
        out.push(b'{')?;
    } else {
        out.push(b',')?;
    }
    Ok(())
}

// Adds a key with its value, if the manifest has it. The key is printed as it is.
fn add_found(out: &mut Vec<u8>, doc: &Doc, name: &[u8]) -> Result<(), AllocError>
    requires kept { list_all is_kept name.now ≡ true }
    requires texts { HasUtf8Texts (tree_of doc.now) }
    ensures { OnOk result (out.new.items ≡ out.old.items ++ part_of (is_first out.old.items) (pair_at (tree_of doc.now) name.now)) }
{
    let Some(value) = doc.value(name) else {
        return Ok(());
    };
    add_opening(out)?;
    out.push(b'"')?;
    out.extend_from_slice(name)?;
    out.extend_from_slice(b"\":")?;
    add_hash_form(out, value)
}

// Adds those of these keys that the manifest has.
fn add_all(out: &mut Vec<u8>, doc: &Doc, names: &[&[u8]]) -> Result<(), AllocError>
    requires kept { list_all (λ name. list_all is_kept name.now) names.now ≡ true }
    requires texts { HasUtf8Texts (tree_of doc.now) }
    ensures { OnOk result (out.new.items ++ ending (is_first out.new.items) ≡ out.old.items ++ rest_of (is_first out.old.items) (found_pairs (tree_of doc.now) names.now)) }
{
    for name in names {
        add_found(out, doc, name)?;
    }
    Ok(())
}

// Begins with the platform of `config`, if it has one.
fn add_config(out: &mut Vec<u8>, doc: &Doc) -> Result<(), AllocError>
    requires texts { HasUtf8Texts (tree_of doc.now) }
    requires first { out.old.items ≡ [] }
    ensures { OnOk result (out.new.items ≡ part_of true (config_pair (tree_of doc.now))) }
{
    let Some(platform) = platform(doc) else {
        return Ok(());
    };
    out.extend_from_slice(b"{\"config\":{\"platform\":")?;
    add_hash_form(out, platform)?;
    out.push(b'}')?;
    Ok(())
}

// Adds the end.
fn add_ending(out: &mut Vec<u8>) -> Result<(), AllocError>
    ensures { OnOk result (out.new.items ≡ out.old.items ++ ending (is_first out.old.items)) }
{
    if out.as_slice().is_empty() {
        out.extend_from_slice(b"[]")
    } else {
        out.extend_from_slice(b"}")
    }
}

/// The text whose MD5 is a manifest's content hash, by the rule of Composer's `Locker::getContentHash`:
/// the compact form of an object of these keys, where present, with their values: conflict, extra,
/// minimum-stability, name, prefer-stable, provide, replace, repositories, require, require-dev,
/// version; and of `config` the `platform` alone, where it is there and isn't null. The keys stand in
/// byte order, and what is inside them in its own order. A manifest without any of them, and a document
/// that is no object, give `[]`. Names and strings have to be UTF-8.
///
/// Its one refusal is want of memory.
pub fn hashed_text(alloc: Global, doc: &Doc) -> Result<Text, AllocError>
    requires { HasUtf8Texts (tree_of doc.now) }
    ensures { IfOk result (λ text. text ≡ hashed_text_of (tree_of doc.now)) }
{
    let mut out = Vec::new(alloc);
    add_config(&mut out, doc)?;
    add_all(&mut out, doc, &NAMES)?;
    add_ending(&mut out)?;
    Ok(Text::of(out))
}
