use super::*;
use json_ordered::Doc;
use manifest_read::FieldFault;
use std::alloc::Global;
use std::test::*;

mod composer;
mod plans;
mod texts;
mod twelve;

fn document(alloc: Global, text: &str) -> Option<Doc> {
    json_ordered::read(alloc, text.as_bytes()).ok()
}

/// The lock of a text, if it is one.
fn lock_in(alloc: Global, text: &str) -> Option<Lock> {
    match document(alloc, text) {
        Some(doc) => from_doc(alloc, &doc).ok(),
        None => None,
    }
}

/// What a text says is installed, if it says so.
fn installed_in(alloc: Global, text: &str) -> Option<Installed> {
    match document(alloc, text) {
        Some(doc) => installed_from_doc(alloc, &doc).ok(),
        None => None,
    }
}

fn lock_fault(alloc: Global, text: &str) -> Option<FieldFault> {
    match document(alloc, text) {
        Some(doc) => from_doc(alloc, &doc).err(),
        None => None,
    }
}

fn installed_fault(alloc: Global, text: &str) -> Option<FieldFault> {
    match document(alloc, text) {
        Some(doc) => installed_from_doc(alloc, &doc).err(),
        None => None,
    }
}

fn is_bad(fault: Option<FieldFault>, place: &str) -> bool {
    match fault {
        Some(FieldFault::BadField(pointer)) => pointer.as_slice() == place.as_bytes(),
        _ => false,
    }
}

fn is_not_offered(fault: Option<FieldFault>, place: &str) -> bool {
    match fault {
        Some(FieldFault::NotOffered(pointer)) => pointer.as_slice() == place.as_bytes(),
        _ => false,
    }
}

fn is_reserved(fault: Option<FieldFault>, reserved: &str) -> bool {
    match fault {
        Some(FieldFault::ReservedName(name)) => name.as_slice() == reserved.as_bytes(),
        _ => false,
    }
}

/// Locks.
const READ: [&str; 16] = [
    "{\"content-hash\":\"h\",\"packages\":[],\"packages-dev\":[]}",
    "{\"content-hash\":\"h\",\"packages\":[],\"packages-dev\":[],\"aliases\":[],\"minimum-stability\":\"rc\",\"stability-flags\":[],\"prefer-stable\":false,\"platform\":[],\"platform-dev\":[]}",
    "{\"content-hash\":\"h\",\"packages\":[],\"packages-dev\":[],\"stability-flags\":{},\"platform\":{},\"platform-dev\":{}}",
    "{\"content-hash\":\"h\",\"packages\":[],\"packages-dev\":[],\"stability-flags\":{\"a/b\":0,\"a/c\":5,\"php\":10,\"any name\":15,\"\":20}}",
    "{\"content-hash\":\"h\",\"packages\":[],\"packages-dev\":[],\"platform\":{\"php\":\">=8.1\",\"any name\":\"any text\"},\"platform-dev\":{\"ext-x\":\"\"}}",
    "{\"content-hash\":\"h\",\"packages\":[],\"packages-dev\":[],\"prefer-lowest\":1,\"plugin-api-version\":{},\"_readme\":null,\"more\":[1]}",
    "{\"content-hash\":\"h\",\"packages\":[{\"name\":\"a/b\",\"version\":\"1.0\",\"dist\":{\"type\":\"path\",\"url\":\"p\"}}],\"packages-dev\":[]}",
    "{\"content-hash\":\"h\",\"packages\":[],\"packages-dev\":[{\"name\":\"a/b\",\"version\":\"1.0\",\"dist\":{\"type\":\"path\",\"url\":\"p\"}}]}",
    "{\"content-hash\":\"h\",\"packages\":[{\"name\":\"a/b\",\"version\":\"1.0\",\"dist\":{\"type\":\"path\",\"url\":\"p\"}}],\"packages-dev\":[{\"name\":\"a/c\",\"version\":\"1.0\",\"dist\":{\"type\":\"path\",\"url\":\"p\"}}]}",
    "{\"content-hash\":\"h\",\"packages\":[{\"name\":\"a/b\",\"version\":\"1.0\",\"dist\":{\"type\":\"path\",\"url\":\"p\"}},{\"name\":\"a/c\",\"version\":\"1.0\",\"dist\":{\"type\":\"path\",\"url\":\"p\"}}],\"packages-dev\":[{\"name\":\"a/d\",\"version\":\"1.0\",\"dist\":{\"type\":\"path\",\"url\":\"p\"}}]}",
    "{\"content-hash\":\"h\",\"packages\":[{\"name\":\"a/b\",\"version\":\"1.0\",\"dist\":{\"type\":\"path\",\"url\":\"\",\"reference\":\"r\"}}],\"packages-dev\":[]}",
    "{\"content-hash\":\"h\",\"packages\":[{\"name\":\"a/b\",\"version\":\"1.0\",\"dist\":{\"type\":\"path\",\"url\":\"../../x/./y/../z\",\"reference\":\"\"}}],\"packages-dev\":[]}",
    "{\"content-hash\":\"h\",\"packages\":[{\"name\":\"a/b\",\"version\":\"1.0\",\"dist\":{\"type\":\"path\",\"url\":\"vendor/p\"}}],\"packages-dev\":[]}",
    "{\"content-hash\":\"h\",\"packages\":[{\"name\":\"a/b\",\"version\":\"1.0\",\"dist\":{\"type\":\"path\",\"url\":\"p\"},\"require\":{\"php\":\">=8\"},\"conflict\":[],\"replace\":{\"x/y\":\"self.version\"},\"provide\":{\"x/z\":\"1\"},\"type\":\"t\",\"autoload\":{\"psr-4\":{\"A\\\\\":\"src\"}}}],\"packages-dev\":[]}",
    "{\"content-hash\":\"h\",\"packages\":[{\"name\":\"a/b\",\"version\":\"1.0\",\"dist\":{\"type\":\"path\",\"url\":\"p\"},\"description\":1,\"source\":2,\"require-dev\":3,\"transport-options\":[]}],\"packages-dev\":[]}",
    "{\"content-hash\":\"h\",\"packages\":[{\"name\":\"composer/installed.php\",\"version\":\"1.0\",\"dist\":{\"type\":\"path\",\"url\":\"p\"}}],\"packages-dev\":[]}",
];

#[test]
fn locks_that_are_read(rt: HostRuntime) {
    for text in &READ {
        assert!(rt; lock_in(rt.alloc(), text).is_some());
    }
}

/// A bad field of a lock, and its pointer.
const BAD: [(&str, &str); 42] = [
    ("1", ""),
    ("null", ""),
    ("[1]", ""),
    ("{}", "/content-hash"),
    ("[]", "/content-hash"),
    ("{\"content-hash\":1}", "/content-hash"),
    ("{\"packages\":1,\"content-hash\":null}", "/content-hash"),
    ("{\"content-hash\":\"\"}", "/packages"),
    ("{\"content-hash\":\"\",\"packages\":{}}", "/packages"),
    ("{\"content-hash\":\"\",\"packages\":[]}", "/packages-dev"),
    (
        "{\"content-hash\":\"\",\"packages-dev\":1,\"packages\":[1]}",
        "/packages/0",
    ),
    (
        "{\"content-hash\":\"\",\"packages\":[],\"packages-dev\":\"\"}",
        "/packages-dev",
    ),
    (
        "{\"content-hash\":\"h\",\"packages\":[{\"version\":\"1.0\",\"dist\":{\"type\":\"path\",\"url\":\"p\"}}],\"packages-dev\":[]}",
        "/packages/0/name",
    ),
    (
        "{\"content-hash\":\"h\",\"packages\":[{\"name\":\"ab\",\"version\":\"1.0\",\"dist\":{\"type\":\"path\",\"url\":\"p\"}}],\"packages-dev\":[]}",
        "/packages/0/name",
    ),
    (
        "{\"content-hash\":\"h\",\"packages\":[{\"name\":\"a/b\",\"dist\":{\"type\":\"path\",\"url\":\"p\"}}],\"packages-dev\":[]}",
        "/packages/0/version",
    ),
    (
        "{\"content-hash\":\"h\",\"packages\":[{\"name\":\"a/b\",\"version\":\"one\",\"dist\":{\"type\":\"path\",\"url\":\"p\"}}],\"packages-dev\":[]}",
        "/packages/0/version",
    ),
    (
        "{\"content-hash\":\"h\",\"packages\":[{\"name\":\"a/b\",\"version\":\"1.0\"}],\"packages-dev\":[]}",
        "/packages/0/dist",
    ),
    (
        "{\"content-hash\":\"h\",\"packages\":[{\"name\":\"a/b\",\"version\":\"1.0\",\"dist\":\"p\"}],\"packages-dev\":[]}",
        "/packages/0/dist",
    ),
    (
        "{\"content-hash\":\"h\",\"packages\":[{\"name\":\"a/b\",\"version\":\"1.0\",\"dist\":[]}],\"packages-dev\":[]}",
        "/packages/0/dist/type",
    ),
    (
        "{\"content-hash\":\"h\",\"packages\":[{\"name\":\"a/b\",\"version\":\"1.0\",\"dist\":{\"url\":\"p\"}}],\"packages-dev\":[]}",
        "/packages/0/dist/type",
    ),
    (
        "{\"content-hash\":\"h\",\"packages\":[{\"name\":\"a/b\",\"version\":\"1.0\",\"dist\":{\"type\":\"path\"}}],\"packages-dev\":[]}",
        "/packages/0/dist/url",
    ),
    (
        "{\"content-hash\":\"h\",\"packages\":[{\"name\":\"a/b\",\"version\":\"1.0\",\"dist\":{\"type\":\"path\",\"url\":1}}],\"packages-dev\":[]}",
        "/packages/0/dist/url",
    ),
    (
        "{\"content-hash\":\"h\",\"packages\":[{\"name\":\"a/b\",\"version\":\"1.0\",\"dist\":{\"type\":\"path\",\"url\":\"/\\u0000\"}}],\"packages-dev\":[]}",
        "/packages/0/dist/url",
    ),
    (
        "{\"content-hash\":\"h\",\"packages\":[{\"name\":\"a/b\",\"version\":\"1.0\",\"dist\":{\"type\":\"path\",\"url\":\"p\",\"reference\":null}}],\"packages-dev\":[]}",
        "/packages/0/dist/reference",
    ),
    (
        "{\"content-hash\":\"h\",\"packages\":[{\"name\":\"a/b\",\"version\":\"1.0\",\"require\":1}],\"packages-dev\":[]}",
        "/packages/0/dist",
    ),
    (
        "{\"content-hash\":\"h\",\"packages\":[{\"name\":\"a/b\",\"version\":\"1.0\",\"dist\":{\"type\":\"path\",\"url\":\"p\"},\"type\":1,\"require\":1}],\"packages-dev\":[]}",
        "/packages/0/require",
    ),
    (
        "{\"content-hash\":\"h\",\"packages\":[{\"name\":\"a/b\",\"version\":\"1.0\",\"dist\":{\"type\":\"path\",\"url\":\"p\"},\"autoload\":{\"files\":1}}],\"packages-dev\":[]}",
        "/packages/0/autoload/files",
    ),
    (
        "{\"content-hash\":\"h\",\"packages\":[{\"name\":\"a/b\",\"version\":\"1.0\",\"dist\":{\"type\":\"path\",\"url\":\"p\"}}],\"packages-dev\":[{\"name\":\"a/b\",\"version\":\"1.0\",\"dist\":1}]}",
        "/packages-dev/0/dist",
    ),
    (
        "{\"content-hash\":\"h\",\"packages\":[{\"name\":\"a/b\",\"version\":\"1.0\",\"dist\":{\"type\":\"path\",\"url\":\"p\"}},{\"name\":\"a/b\",\"version\":\"1.0\",\"dist\":{\"type\":\"path\",\"url\":\"p\"}}],\"packages-dev\":[]}",
        "/packages/1",
    ),
    (
        "{\"content-hash\":\"h\",\"packages\":[{\"name\":\"a/b\",\"version\":\"1.0\",\"dist\":{\"type\":\"path\",\"url\":\"p\"}},{\"name\":\"a/c\",\"version\":\"1.0\",\"dist\":{\"type\":\"path\",\"url\":\"p\"}},{\"name\":\"A/B\",\"version\":\"1.0\",\"dist\":{\"type\":\"path\",\"url\":\"p\"}}],\"packages-dev\":[]}",
        "/packages/2",
    ),
    (
        "{\"content-hash\":\"h\",\"packages\":[{\"name\":\"a/b\",\"version\":\"1.0\",\"dist\":{\"type\":\"path\",\"url\":\"p\"}}],\"packages-dev\":[{\"name\":\"a/c\",\"version\":\"1.0\",\"dist\":{\"type\":\"path\",\"url\":\"p\"}},{\"name\":\"a/b\",\"version\":\"1.0\",\"dist\":{\"type\":\"path\",\"url\":\"p\"}}]}",
        "/packages-dev/1",
    ),
    (
        "{\"content-hash\":\"h\",\"packages\":[{\"name\":\"a/b\",\"version\":\"1.0\",\"dist\":{\"type\":\"path\",\"url\":\"p\"}},{\"name\":\"a/b\",\"version\":\"1.0\",\"dist\":{\"type\":\"path\",\"url\":\"p\"},\"type\":1}],\"packages-dev\":[]}",
        "/packages/1/type",
    ),
    (
        "{\"content-hash\":\"h\",\"packages\":[{\"name\":\"a/b\",\"version\":\"1.0\",\"dist\":{\"type\":\"path\",\"url\":\"p\"}},{\"name\":\"a/b\",\"version\":\"1.0\",\"dist\":{\"type\":\"path\",\"url\":\"p\"}},1],\"packages-dev\":[]}",
        "/packages/1",
    ),
    (
        "{\"content-hash\":\"h\",\"packages\":[],\"packages-dev\":[],\"aliases\":{}}",
        "/aliases",
    ),
    (
        "{\"content-hash\":\"h\",\"packages\":[],\"packages-dev\":[],\"minimum-stability\":\"Stable\"}",
        "/minimum-stability",
    ),
    (
        "{\"content-hash\":\"h\",\"packages\":[],\"packages-dev\":[],\"stability-flags\":{\"a/b\":1}}",
        "/stability-flags/a~1b",
    ),
    (
        "{\"content-hash\":\"h\",\"packages\":[],\"packages-dev\":[],\"stability-flags\":{\"a/b\":5.0}}",
        "/stability-flags/a~1b",
    ),
    (
        "{\"content-hash\":\"h\",\"packages\":[],\"packages-dev\":[],\"stability-flags\":{\"x\":0,\"a/b\":\"5\"}}",
        "/stability-flags/a~1b",
    ),
    (
        "{\"content-hash\":\"h\",\"packages\":[],\"packages-dev\":[],\"stability-flags\":[5]}",
        "/stability-flags",
    ),
    (
        "{\"content-hash\":\"h\",\"packages\":[],\"packages-dev\":[],\"prefer-stable\":0}",
        "/prefer-stable",
    ),
    (
        "{\"content-hash\":\"h\",\"packages\":[],\"packages-dev\":[],\"platform\":{\"php\":8}}",
        "/platform/php",
    ),
    (
        "{\"content-hash\":\"h\",\"packages\":[],\"packages-dev\":[],\"platform-dev\":\"php\"}",
        "/platform-dev",
    ),
];

#[test]
fn bad_fields_of_locks(rt: HostRuntime) {
    for (text, place) in &BAD {
        assert!(rt; is_bad(lock_fault(rt.alloc(), text), place));
    }
}

/// What of a lock isn't offered, and where it stands.
const NOT_OFFERED: [(&str, &str); 7] = [
    (
        "{\"content-hash\":\"h\",\"packages\":[{\"name\":\"a/b\",\"version\":\"1.0\",\"dist\":{\"type\":\"zip\",\"url\":\"p\"}}],\"packages-dev\":[]}",
        "/packages/0/dist/type",
    ),
    (
        "{\"content-hash\":\"h\",\"packages\":[{\"name\":\"a/b\",\"version\":\"1.0\",\"dist\":{\"type\":1}}],\"packages-dev\":[]}",
        "/packages/0/dist/type",
    ),
    (
        "{\"content-hash\":\"h\",\"packages\":[{\"name\":\"a/b\",\"version\":\"1.0\",\"dist\":{\"type\":\"path\",\"url\":\"/p\"}}],\"packages-dev\":[]}",
        "/packages/0/dist/url",
    ),
    (
        "{\"content-hash\":\"h\",\"packages\":[{\"name\":\"a/b\",\"version\":\"1.0\",\"dist\":{\"type\":\"path\",\"url\":\"p\"},\"target-dir\":\"x\"}],\"packages-dev\":[]}",
        "/packages/0/target-dir",
    ),
    (
        "{\"content-hash\":\"h\",\"packages\":[],\"packages-dev\":[{\"name\":\"a/b\",\"version\":\"1.0\",\"dist\":{\"type\":\"path\",\"url\":\"p\"},\"include-path\":[]}]}",
        "/packages-dev/0/include-path",
    ),
    (
        "{\"content-hash\":\"h\",\"packages\":[{\"name\":\"a/b\",\"version\":\"1.0\",\"dist\":{\"type\":\"path\",\"url\":\"p\"},\"require\":{\"x/y\":\"1.0 as 2.0\"}}],\"packages-dev\":[]}",
        "/packages/0/require/x~1y",
    ),
    (
        "{\"content-hash\":\"h\",\"packages\":[],\"packages-dev\":[],\"aliases\":[1],\"minimum-stability\":1}",
        "/aliases",
    ),
];

#[test]
fn what_is_not_offered_in_locks(rt: HostRuntime) {
    for (text, place) in &NOT_OFFERED {
        assert!(rt; is_not_offered(lock_fault(rt.alloc(), text), place));
    }
}

const RESERVED: &str =
    "{\"content-hash\":\"h\",\"packages\":[{\"name\":\"autoload.php/b\",\"version\":\"1.0\",\"dist\":{\"type\":\"path\",\"url\":\"p\"}}],\"packages-dev\":[]}";

const RESERVED_INSTALLED: &str =
    "{\"packages\":[{\"name\":\"composer/installed.json\",\"version\":\"1.0\"}]}";

#[test]
fn reserved_names(rt: HostRuntime) {
    assert!(rt; is_reserved(lock_fault(rt.alloc(), RESERVED), "autoload.php/b"));
    assert!(rt;
        is_reserved(
            installed_fault(rt.alloc(), RESERVED_INSTALLED),
            "composer/installed.json"
        )
    );
}

/// What installed.json may say.
const READ_INSTALLED: [&str; 4] = [
    "{\"packages\":[]}",
    "{\"packages\":[{\"name\":\"a/b\",\"version\":\"1.0\"}]}",
    "{\"packages\":[{\"name\":\"a/b\",\"version\":\"1.0\"},{\"name\":\"a/c\",\"version\":\"1.0\"}],\"dev\":true,\"dev-package-names\":[\"a/c\",\"any\"]}",
    "{\"packages\":[{\"name\":\"a/b\",\"version\":\"1.0\",\"dist\":1,\"version_normalized\":2,\"install-path\":3}],\"dev-package-names\":[]}",
];

#[test]
fn installed_packages_that_are_read(rt: HostRuntime) {
    for text in &READ_INSTALLED {
        assert!(rt; installed_in(rt.alloc(), text).is_some());
    }
}

/// A bad field of an installed.json, and its pointer.
const BAD_INSTALLED: [(&str, &str); 11] = [
    ("1", ""),
    ("{}", "/packages"),
    ("[]", "/packages"),
    ("{\"packages\":{}}", "/packages"),
    ("{\"packages\":[1]}", "/packages/0"),
    ("{\"packages\":[{\"name\":\"a/b\"}]}", "/packages/0/version"),
    (
        "{\"packages\":[{\"name\":\"a/b\",\"version\":\"1.0\"},{\"name\":\"A/b\",\"version\":\"1.0\"}]}",
        "/packages/1",
    ),
    ("{\"packages\":[],\"dev\":1}", "/dev"),
    (
        "{\"packages\":[],\"dev-package-names\":{\"a\":\"b\"}}",
        "/dev-package-names",
    ),
    (
        "{\"packages\":[],\"dev-package-names\":[\"a\",1]}",
        "/dev-package-names/1",
    ),
    (
        "{\"packages\":[],\"dev-package-names\":1,\"dev\":null}",
        "/dev",
    ),
];

#[test]
fn bad_fields_of_installed_packages(rt: HostRuntime) {
    for (text, place) in &BAD_INSTALLED {
        assert!(rt; is_bad(installed_fault(rt.alloc(), text), place));
    }
    assert!(rt;
        is_not_offered(
            installed_fault(
                rt.alloc(),
                "{\"packages\":[{\"name\":\"a/b\",\"version\":\"1.0\",\"target-dir\":\"\"}]}"
            ),
            "/packages/0/target-dir"
        )
    );
}

/// Whether the lock of a text is printed so.
fn is_printed_as(alloc: Global, text: &str, printed: &str) -> bool {
    match lock_in(alloc, text) {
        Some(lock) => match print(alloc, &lock) {
            Ok(text) => text.as_slice() == printed.as_bytes(),
            Err(_) => false,
        },
        None => false,
    }
}

#[test]
fn locks_of_composer_are_printed(rt: HostRuntime) {
    assert!(rt; is_printed_as(rt.alloc(), composer::FULL_LOCK, texts::FULL_LOCK_PRINTED));
    assert!(rt;
        is_printed_as(
            rt.alloc(),
            texts::FULL_LOCK_PRINTED,
            texts::FULL_LOCK_PRINTED
        )
    );
    assert!(rt; is_printed_as(rt.alloc(), texts::EMPTY_LOCK, texts::EMPTY_LOCK));
}

/// How many packages a lock has, and how many for development.
fn counts(alloc: Global, text: &str) -> Option<(usize, usize)> {
    match lock_in(alloc, text) {
        Some(lock) => Some((
            lock.packages.as_slice().len(),
            lock.packages_dev.as_slice().len(),
        )),
        None => None,
    }
}

/// How many packages are installed, how many of them for development, and whether these were asked for.
fn installed_counts(alloc: Global, text: &str) -> Option<(usize, usize, bool)> {
    match installed_in(alloc, text) {
        Some(installed) => Some((
            installed.packages.as_slice().len(),
            installed.dev_names.as_slice().len(),
            installed.dev,
        )),
        None => None,
    }
}

#[test]
fn what_composer_wrote_is_read(rt: HostRuntime) {
    assert!(rt; counts(rt.alloc(), composer::PLAIN_LOCK) == Some((2, 0)));
    assert!(rt; counts(rt.alloc(), composer::FULL_LOCK) == Some((2, 2)));
    assert!(rt; installed_counts(rt.alloc(), composer::PLAIN_INSTALLED) == Some((2, 0, true)));
    assert!(rt; installed_counts(rt.alloc(), composer::FULL_INSTALLED) == Some((4, 2, true)));
    assert!(rt;
        installed_counts(rt.alloc(), composer::FULL_NO_DEV_INSTALLED) == Some((2, 0, false))
    );
}

/// Whether the installed.json of a lock's packages is printed so.
fn is_installed_as(alloc: Global, text: &str, dev: bool, printed: &str) -> bool {
    match lock_in(alloc, text) {
        Some(lock) => match print_installed(alloc, &lock, dev) {
            Ok(text) => text.as_slice() == printed.as_bytes(),
            Err(_) => false,
        },
        None => false,
    }
}

#[test]
fn installed_packages_are_printed(rt: HostRuntime) {
    assert!(rt;
        is_installed_as(
            rt.alloc(),
            composer::FULL_LOCK,
            true,
            texts::FULL_INSTALLED_PRINTED
        )
    );
    assert!(rt;
        is_installed_as(
            rt.alloc(),
            composer::FULL_LOCK,
            false,
            texts::FULL_NO_DEV_INSTALLED_PRINTED
        )
    );
}
