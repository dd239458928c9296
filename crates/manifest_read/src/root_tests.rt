use super::*;
use crate::samples::{COMPOSER, MONOLOG, PHPUNIT, PSR7, STRING_EXTRA};
use crate::tests::{document, is_bad, is_read};
use json_ordered::JsonFault;
use std::alloc::Global;
use std::test::*;

fn root_of(alloc: Global, text: &str) -> Option<Manifest> {
    match document(alloc, text) {
        Some(doc) => from_doc(alloc, &doc, Role::Root).ok(),
        None => None,
    }
}

/// How many requirements, those for development, provided names, PSR-4 prefixes, listed folders and files a root has.
fn has_counts(manifest: &Manifest, counts: &[usize; 6]) -> bool {
    let package = &manifest.package;
    package.require.as_slice().len() == counts[0]
        && manifest.require_dev.as_slice().len() == counts[1]
        && package.provide.as_slice().len() == counts[2]
        && package.autoload.psr4.as_slice().len() == counts[3]
        && package.autoload.classmap.as_slice().len() == counts[4]
        && package.autoload.files.as_slice().len() == counts[5]
}

fn is_library(alloc: Global, text: &str, name: &str, counts: &[usize; 6]) -> bool {
    match root_of(alloc, text) {
        Some(manifest) => {
            manifest.package.name.as_slice() == name.as_bytes() && has_counts(&manifest, counts)
        }
        None => false,
    }
}

/// Published files, with their names and counts as another reader of JSON gives them.
const PUBLISHED: [(&str, &str, [usize; 6]); 5] = [
    (COMPOSER, "composer/composer", [21, 6, 0, 1, 0, 0]),
    (MONOLOG, "monolog/monolog", [2, 18, 1, 1, 0, 0]),
    (PHPUNIT, "phpunit/phpunit", [27, 0, 0, 0, 1, 1]),
    (PSR7, "guzzlehttp/psr7", [4, 3, 2, 1, 0, 0]),
    (STRING_EXTRA, "twig/string-extra", [4, 1, 0, 1, 0, 0]),
];

#[test]
fn public_libraries(rt: HostRuntime) {
    for (text, name, counts) in &PUBLISHED {
        assert!(rt; is_library(rt.alloc(), text, name, counts));
        assert!(rt; is_read(rt.alloc(), text, Role::Member));
    }
}

/// The fault of a text that is no JSON.
fn json_fault(alloc: Global, text: &[u8]) -> Option<JsonFault> {
    json_ordered::read(alloc, text).err()
}

const DEEP: &str =
    "[[[[[[[[[[[[[[[[[[[[[[[[[[[[[[[[[[[[[[[[[[[[[[[[[[[[[[[[[[[[[[[[[[[[[[[[[[[[[[[[[[[[[[[[[[[[[[[[[[[[[[[[[[[[[[[[[[[[[[[[[[[[[[[[[";

// Texts that are no manifest by their JSON, and a value inside `config`.
#[test]
fn manifests(rt: HostRuntime) {
    let alloc = rt.alloc();
    assert!(rt; json_fault(alloc, b"{\"a\":1,}") == Some(JsonFault::Syntax(7)));
    assert!(rt; json_fault(alloc, DEEP.as_bytes()) == Some(JsonFault::TooDeep(128)));
    assert!(rt; json_fault(alloc, &[255]) == Some(JsonFault::NotUtf8(0)));
    assert!(rt;
        is_bad(
            alloc,
            "{\"config\":{\"platform\":{\"php\":8}}}",
            Role::Root,
            "/config/platform/php"
        )
    );
}

const FOR_DEVELOPMENT: &str =
    "{\"require\":{\"a/a\":\"*\"},\"require-dev\":{\"b/b\":\"*\"},\"autoload\":{\"classmap\":[\"tests\"],\"exclude-from-classmap\":[\"tests/*/fix\"]},\"autoload-dev\":{\"psr-4\":{\"T\\\\\":\"tests\"}}}";

fn has_development(manifest: &Manifest) -> bool {
    match (
        manifest.require_dev.as_slice(),
        manifest.autoload_dev.psr4.as_slice(),
    ) {
        ([link], [row]) => {
            link.name.as_slice() == b"b/b".as_slice()
                && row.prefix.as_slice() == b"T\\".as_slice()
                && row.single
        }
        _ => false,
    }
}

fn has_exclusion(manifest: &Manifest) -> bool {
    match manifest.package.autoload.exclude.as_slice() {
        [pattern] => pattern.as_slice() == b"tests/*/fix".as_slice(),
        _ => false,
    }
}

// What a root says for development, and a pattern of what is left out.
#[test]
fn development(rt: HostRuntime) {
    match root_of(rt.alloc(), FOR_DEVELOPMENT) {
        Some(manifest) => {
            assert!(rt; has_development(&manifest));
            assert!(rt; has_exclusion(&manifest));
        }
        None => panic!(rt; "not read"),
    }
}
