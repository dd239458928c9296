use super::*;
use json_ordered::Doc;
use std::alloc::Global;
use std::test::*;
use version_norm::Grade;

pub(crate) fn document(alloc: Global, text: &str) -> Option<Doc> {
    json_ordered::read(alloc, text.as_bytes()).ok()
}

/// Whether a document is read.
pub(crate) fn is_read(alloc: Global, text: &str, role: Role) -> bool {
    match document(alloc, text) {
        Some(doc) => from_doc(alloc, &doc, role).is_ok(),
        None => false,
    }
}

/// The fault of a document, if it has one.
fn fault_of(alloc: Global, text: &str, role: Role) -> Option<FieldFault> {
    match document(alloc, text) {
        Some(doc) => from_doc(alloc, &doc, role).err(),
        None => None,
    }
}

pub(crate) fn is_bad(alloc: Global, text: &str, role: Role, place: &str) -> bool {
    match fault_of(alloc, text, role) {
        Some(FieldFault::BadField(pointer)) => pointer.as_slice() == place.as_bytes(),
        _ => false,
    }
}

fn is_not_offered(alloc: Global, text: &str, role: Role, place: &str) -> bool {
    match fault_of(alloc, text, role) {
        Some(FieldFault::NotOffered(pointer)) => pointer.as_slice() == place.as_bytes(),
        _ => false,
    }
}

fn is_reserved(alloc: Global, text: &str, reserved: &str) -> bool {
    match fault_of(alloc, text, Role::Member) {
        Some(FieldFault::ReservedName(name)) => name.as_slice() == reserved.as_bytes(),
        _ => false,
    }
}

/// Documents that are read in both roles.
const READ: [&str; 25] = [
    "{\"name\":\"a/b\"}",
    "{\"name\":\"a/b--c\"}",
    "{\"name\":\"Ab.c/D_e\"}",
    "{\"name\":\"composer/installed.php\"}",
    "{\"name\":\"a/b\",\"require\":[]}",
    "{\"name\":\"a/b\",\"require\":{\"x/y\":1,\"X/y\":\"*\"}}",
    "{\"name\":\"a/b\",\"require\":{\"PHP\":\">=8.1\",\"ext-json\":\"*\",\"lib-a.b\":\"*\"}}",
    "{\"name\":\"a/b\",\"replace\":{\"x/y\":\"self.version\"}}",
    "{\"name\":\"a/b\",\"autoload\":{\"psr-4\":{\"\":\"src\",\"\\\\A\\\\\":[\"a\",\"/b\"]}}}",
    "{\"name\":\"a/b\",\"autoload\":{\"files\":[\"a*b\"]}}",
    "{\"name\":\"a/b\",\"repositories\":{\"packagist.org\":false,\"p\":{\"type\":\"path\",\"url\":\"../*/x\"}}}",
    "{\"name\":\"a/b\",\"repositories\":[{\"type\":\"path\",\"url\":\"p\",\"options\":{\"symlink\":false}}]}",
    "{\"name\":\"a/b\",\"config\":{\"platform\":{\"php\":\"8.1\",\"ext-x\":false}}}",
    "{\"name\":\"a/b\",\"config\":{\"classmap-authoritative\":true,\"sort-packages\":1}}",
    "{\"name\":\"a/b\",\"extra\":{\"x\":1},\"scripts\":2}",
    "{\"name\":\"a/b\",\"version\":\"v1.2.3-RC1\"}",
    "{\"name\":\"a/b\",\"version\":\"dev-x\"}",
    "{\"name\":\"1a/2b\"}",
    "{\"name\":\"a/b\",\"type\":\"\"}",
    "{\"name\":\"a/b\",\"require\":{\"composer-plugin-api\":\"^2.0\",\"composer-runtime-api\":\"^2.2\"}}",
    "{\"name\":\"a/b\",\"autoload\":[]}",
    "{\"name\":\"a/b\",\"autoload\":{\"psr-4\":[]}}",
    "{\"name\":\"a/b\",\"autoload\":{\"exclude-from-classmap\":[\"/tests/\",\"**/x*\"]}}",
    "{\"name\":\"a/b\",\"repositories\":[{\"type\":\"path\",\"url\":\"../vendor\"}]}",
    "{\"name\":\"a/b\",\"config\":[]}",
];

#[test]
fn documents_that_are_read(rt: HostRuntime) {
    for text in &READ {
        assert!(rt; is_read(rt.alloc(), text, Role::Root));
        assert!(rt; is_read(rt.alloc(), text, Role::Member));
    }
}

/// A bad field in both roles, and its pointer.
const BAD_IN_BOTH: [(&str, &str); 36] = [
    ("1", ""),
    ("[1]", ""),
    ("{\"name\":1}", "/name"),
    ("{\"name\":\"ab\"}", "/name"),
    ("{\"name\":\"a/b/c\"}", "/name"),
    ("{\"name\":\"a--b/c\"}", "/name"),
    ("{\"name\":\"a/b---c\"}", "/name"),
    ("{\"name\":\"a/b_-c\"}", "/name"),
    ("{\"name\":\"a/b.\"}", "/name"),
    ("{\"name\":\"a/b\",\"version\":\"one\"}", "/version"),
    ("{\"name\":\"a/b\",\"version\":\"2010-01-02\"}", "/version"),
    ("{\"version\":1,\"name\":2}", "/name"),
    ("{\"name\":\"a/b\",\"type\":null}", "/type"),
    ("{\"name\":\"a/b\",\"require\":\"x\"}", "/require"),
    (
        "{\"name\":\"a/b\",\"require\":{\"a/~b\":\"1.0\"}}",
        "/require/a~1~0b",
    ),
    (
        "{\"name\":\"a/b\",\"require\":{\"x/y\":1}}",
        "/require/x~1y",
    ),
    (
        "{\"name\":\"a/b\",\"require\":{\"x/y\":\"\"}}",
        "/require/x~1y",
    ),
    (
        "{\"name\":\"a/b\",\"require\":{\"x/y\":\"*\",\"X/y\":1}}",
        "/require/X~1y",
    ),
    (
        "{\"name\":\"a/b\",\"require\":{\"X/y\":\"*\",\"z/z\":2,\"x/y\":1}}",
        "/require/x~1y",
    ),
    (
        "{\"name\":\"a/b\",\"require\":{\"php-32bit\":\"*\"}}",
        "/require/php-32bit",
    ),
    (
        "{\"name\":\"a/b\",\"require\":{\"ext-\":\"*\"}}",
        "/require/ext-",
    ),
    (
        "{\"name\":\"a/b\",\"conflict\":{\"x\":\"*\"}}",
        "/conflict/x",
    ),
    (
        "{\"name\":\"a/b\",\"provide\":{\"x/y\":\"<>\"}}",
        "/provide/x~1y",
    ),
    ("{\"name\":\"a/b\",\"autoload\":1}", "/autoload"),
    (
        "{\"name\":\"a/b\",\"autoload\":{\"psr-4\":{\"A\":\"src\"}}}",
        "/autoload/psr-4/A",
    ),
    (
        "{\"name\":\"a/b\",\"autoload\":{\"psr-4\":{\"A\\\\\":[\"a\",1]}}}",
        "/autoload/psr-4/A\\/1",
    ),
    (
        "{\"name\":\"a/b\",\"autoload\":{\"psr-0\":{\"A_\":\"a\\u0000\"}}}",
        "/autoload/psr-0/A_",
    ),
    (
        "{\"name\":\"a/b\",\"autoload\":{\"classmap\":{}}}",
        "/autoload/classmap",
    ),
    (
        "{\"name\":\"a/b\",\"autoload\":{\"exclude-from-classmap\":[\"t\",2]}}",
        "/autoload/exclude-from-classmap/1",
    ),
    ("{\"include-path\":[],\"name\":\"a/b\",\"type\":1}", "/type"),
    ("null", ""),
    ("{\"name\":null}", "/name"),
    (
        "{\"name\":\"a/b\",\"require\":{\"x/y\":\"||\"}}",
        "/require/x~1y",
    ),
    ("{\"name\":\"a/b\",\"conflict\":[1]}", "/conflict"),
    (
        "{\"name\":\"a/b\",\"autoload\":{\"psr-4\":{\"A\\\\\":{}}}}",
        "/autoload/psr-4/A\\",
    ),
    (
        "{\"name\":\"a/b\",\"autoload\":{\"psr-0\":{\"A\":[]},\"files\":\"x\"}}",
        "/autoload/files",
    ),
];

#[test]
fn bad_fields(rt: HostRuntime) {
    for (text, place) in &BAD_IN_BOTH {
        assert!(rt; is_bad(rt.alloc(), text, Role::Root, place));
        assert!(rt; is_bad(rt.alloc(), text, Role::Member, place));
    }
}

/// Not offered in both roles, and where.
const NOT_OFFERED_IN_BOTH: [(&str, &str); 5] = [
    (
        "{\"name\":\"a/b\",\"require\":{\"x/y\":\"1.0 as 2.0\"}}",
        "/require/x~1y",
    ),
    (
        "{\"name\":\"a/b\",\"autoload\":{\"psr-4\":{\"A\\\\\":\"../a\"}}}",
        "/autoload/psr-4/A\\",
    ),
    (
        "{\"name\":\"a/b\",\"autoload\":{\"classmap\":[\"a/*/b\"]}}",
        "/autoload/classmap/0",
    ),
    ("{\"name\":\"a/b\",\"target-dir\":null}", "/target-dir"),
    ("{\"include-path\":[],\"name\":\"a/b\"}", "/include-path"),
];

#[test]
fn what_is_not_offered(rt: HostRuntime) {
    for (text, place) in &NOT_OFFERED_IN_BOTH {
        assert!(rt; is_not_offered(rt.alloc(), text, Role::Root, place));
        assert!(rt; is_not_offered(rt.alloc(), text, Role::Member, place));
    }
}

/// A bad field in a root; a member ignores it.
const BAD_IN_A_ROOT: [(&str, &str); 16] = [
    ("{\"name\":\"a/b\",\"require-dev\":1}", "/require-dev"),
    (
        "{\"name\":\"a/b\",\"autoload-dev\":{\"psr-4\":1}}",
        "/autoload-dev/psr-4",
    ),
    ("{\"name\":\"a/b\",\"repositories\":1}", "/repositories"),
    (
        "{\"name\":\"a/b\",\"repositories\":[{\"url\":\"x\"}]}",
        "/repositories/0/type",
    ),
    (
        "{\"name\":\"a/b\",\"repositories\":[{\"type\":\"path\"}]}",
        "/repositories/0/url",
    ),
    (
        "{\"name\":\"a/b\",\"repositories\":[{\"type\":\"path\",\"url\":\"/\\u0000\"}]}",
        "/repositories/0/url",
    ),
    (
        "{\"name\":\"a/b\",\"repositories\":[{\"packagist\":false},{\"packagist.org\":true}]}",
        "/repositories/1/type",
    ),
    (
        "{\"name\":\"a/b\",\"minimum-stability\":\"Stable\"}",
        "/minimum-stability",
    ),
    (
        "{\"name\":\"a/b\",\"minimum-stability\":\"rc\",\"prefer-stable\":1}",
        "/prefer-stable",
    ),
    (
        "{\"config\":{\"platform\":{\"php\":8}},\"name\":\"a/b\"}",
        "/config/platform/php",
    ),
    (
        "{\"name\":\"a/b\",\"config\":{\"platform\":{\"PHP\":\"8.1\"}}}",
        "/config/platform/PHP",
    ),
    (
        "{\"name\":\"a/b\",\"config\":{\"optimize-autoloader\":\"yes\"}}",
        "/config/optimize-autoloader",
    ),
    ("{\"name\":\"a/b\",\"repositories\":[1]}", "/repositories/0"),
    (
        "{\"name\":\"a/b\",\"repositories\":[{\"type\":\"path\",\"url\":\"p\",\"options\":1}]}",
        "/repositories/0/options",
    ),
    ("{\"name\":\"a/b\",\"config\":1}", "/config"),
    (
        "{\"name\":\"a/b\",\"config\":{\"platform\":{\"php\":true}}}",
        "/config/platform/php",
    ),
];

#[test]
fn bad_fields_of_a_root(rt: HostRuntime) {
    for (text, place) in &BAD_IN_A_ROOT {
        assert!(rt; is_bad(rt.alloc(), text, Role::Root, place));
        assert!(rt; is_read(rt.alloc(), text, Role::Member));
    }
}

/// Not offered in a root; a member ignores it.
const NOT_OFFERED_IN_A_ROOT: [(&str, &str); 16] = [
    (
        "{\"name\":\"a/b\",\"autoload\":{\"psr-0\":{\"\":[\"vendor\"]}}}",
        "/autoload/psr-0//0",
    ),
    (
        "{\"name\":\"a/b\",\"autoload\":{\"files\":[\"a\",\"./composer.lock\"]}}",
        "/autoload/files/1",
    ),
    (
        "{\"name\":\"a/b\",\"autoload\":{\"classmap\":[\".install/x\"]}}",
        "/autoload/classmap/0",
    ),
    (
        "{\"name\":\"a/b\",\"repositories\":[{\"type\":\"vcs\",\"url\":\"x\"}]}",
        "/repositories/0/type",
    ),
    (
        "{\"name\":\"a/b\",\"repositories\":[{\"type\":\"path\",\"url\":\"/x\"}]}",
        "/repositories/0/url",
    ),
    (
        "{\"name\":\"a/b\",\"repositories\":[{\"type\":\"path\",\"url\":\"a/..\"}]}",
        "/repositories/0/url",
    ),
    (
        "{\"name\":\"a/b\",\"repositories\":[{\"type\":\"path\",\"url\":\"vendor/x\"}]}",
        "/repositories/0/url",
    ),
    (
        "{\"name\":\"a/b\",\"repositories\":[{\"type\":\"path\",\"url\":\"p/a*\"}]}",
        "/repositories/0/url",
    ),
    (
        "{\"name\":\"a/b\",\"repositories\":[{\"type\":\"path\",\"url\":\"p\",\"canonical\":true}]}",
        "/repositories/0/canonical",
    ),
    (
        "{\"name\":\"a/b\",\"repositories\":[{\"type\":\"path\",\"url\":\"p\",\"options\":{\"versions\":{}}}]}",
        "/repositories/0/options/versions",
    ),
    (
        "{\"name\":\"a/b\",\"config\":{\"vendor-dir\":\"lib\"}}",
        "/config/vendor-dir",
    ),
    (
        "{\"name\":\"a/b\",\"config\":{\"vendor-dir\":1}}",
        "/config/vendor-dir",
    ),
    (
        "{\"name\":\"a/b\",\"require-dev\":{\"x/y\":\"1.0 as 2.0\"}}",
        "/require-dev/x~1y",
    ),
    (
        "{\"name\":\"a/b\",\"autoload-dev\":{\"files\":[\"x/../.install\"]}}",
        "/autoload-dev/files/0",
    ),
    (
        "{\"name\":\"a/b\",\"repositories\":{\"p/q\":{\"type\":1,\"url\":\"x\"}}}",
        "/repositories/p~1q/type",
    ),
    (
        "{\"name\":\"a/b\",\"repositories\":[{\"type\":\"path\",\"url\":\"p\",\"only\":[]}]}",
        "/repositories/0/only",
    ),
];

#[test]
fn what_a_root_is_not_offered(rt: HostRuntime) {
    for (text, place) in &NOT_OFFERED_IN_A_ROOT {
        assert!(rt; is_not_offered(rt.alloc(), text, Role::Root, place));
        assert!(rt; is_read(rt.alloc(), text, Role::Member));
    }
}

/// A bad field in a member alone.
const BAD_IN_A_MEMBER: [(&str, &str); 2] = [("[]", "/name"), ("{}", "/name")];

/// Reserved names of members; a root may have them.
const RESERVED: [(&str, &str); 3] = [
    ("{\"name\":\"autoload.php/x\"}", "autoload.php/x"),
    (
        "{\"name\":\"Composer/installed.json\"}",
        "composer/installed.json",
    ),
    (
        "{\"name\":\"composer/autoload_state.php\"}",
        "composer/autoload_state.php",
    ),
];

#[test]
fn names_of_members(rt: HostRuntime) {
    for (text, place) in &BAD_IN_A_MEMBER {
        assert!(rt; is_bad(rt.alloc(), text, Role::Member, place));
        assert!(rt; is_read(rt.alloc(), text, Role::Root));
    }
    for (text, name) in &RESERVED {
        assert!(rt; is_reserved(rt.alloc(), text, name));
        assert!(rt; is_read(rt.alloc(), text, Role::Root));
    }
}

const ENTRY: &str =
    "{\"name\":\"Acme/Log\",\"version\":\"1.2.5\",\"require\":{\"acme/clock\":\"^2.0\"},\"autoload\":{\"psr-4\":{\"Acme\\\\Log\\\\\":\"src\"},\"files\":[\"boot.php\"]}}";

const WITHOUT_VERSION: &str = "{\"name\":\"acme/log\"}";

const ROOT: &str =
    "{\"repositories\":[{\"type\":\"path\",\"url\":\"../packages/*\"}],\"minimum-stability\":\"RC\",\"config\":{\"platform\":{\"ext-x\":false}}}";

fn is_log(package: &Package) -> bool {
    package.name.as_slice() == b"acme/log".as_slice()
        && package.version_text.as_slice() == b"1.2.5".as_slice()
        && package.kind.as_slice() == b"library".as_slice()
        && package.require.as_slice().len() == 1
        && package.autoload.psr4.as_slice().len() == 1
        && package.autoload.files.as_slice().len() == 1
}

fn entry_is_read(alloc: Global, doc: &Doc) -> bool {
    match package_from_doc(alloc, doc, b"/packages/0") {
        Ok(package) => is_log(&package),
        Err(_) => false,
    }
}

fn head_is_read(alloc: Global, doc: &Doc) -> bool {
    match read_head(alloc, doc, b"/packages/0") {
        Ok(head) => head.name.as_slice() == b"acme/log".as_slice(),
        Err(_) => false,
    }
}

fn copy_is_equal(alloc: Global, manifest: &Manifest) -> bool {
    match manifest.copy(alloc) {
        Ok(copied) => copied == *manifest,
        Err(_) => false,
    }
}

fn manifest_is_copied(alloc: Global, doc: &Doc) -> bool {
    match from_doc(alloc, doc, Role::Member) {
        Ok(manifest) => is_log(&manifest.package) && copy_is_equal(alloc, &manifest),
        Err(_) => false,
    }
}

#[test]
fn entries(rt: HostRuntime) {
    match document(rt.alloc(), ENTRY) {
        Some(doc) => {
            assert!(rt; head_is_read(rt.alloc(), &doc));
            assert!(rt; entry_is_read(rt.alloc(), &doc));
            assert!(rt; manifest_is_copied(rt.alloc(), &doc));
        }
        None => panic!(rt; "not read"),
    }
}

fn lacks_its_version(alloc: Global, doc: &Doc) -> bool {
    match package_from_doc(alloc, doc, b"/packages/0") {
        Err(FieldFault::BadField(pointer)) => {
            pointer.as_slice() == b"/packages/0/version".as_slice()
        }
        _ => false,
    }
}

#[test]
fn entry_without_a_version(rt: HostRuntime) {
    match document(rt.alloc(), WITHOUT_VERSION) {
        Some(doc) => assert!(rt; lacks_its_version(rt.alloc(), &doc)),
        None => panic!(rt; "not read"),
    }
}

fn is_packages(repositories: &[Repository]) -> bool {
    match repositories {
        [one] => {
            one.up == 1
                && one.segments.as_slice().len() == 2
                && one.written.as_slice() == b"../packages/*".as_slice()
        }
        _ => false,
    }
}

fn is_root(manifest: &Manifest) -> bool {
    manifest.package.name.as_slice() == b"__root__".as_slice()
        && manifest.package.version_text.as_slice() == b"1.0.0".as_slice()
        && manifest.minimum == Grade::Rc
        && manifest.platform.as_slice().len() == 1
        && is_packages(manifest.repositories.as_slice())
}

fn root_is_read(alloc: Global, doc: &Doc) -> bool {
    match from_doc(alloc, doc, Role::Root) {
        Ok(manifest) => is_root(&manifest),
        Err(_) => false,
    }
}

// A root without a name and a version.
#[test]
fn root_without_a_name(rt: HostRuntime) {
    match document(rt.alloc(), ROOT) {
        Some(doc) => assert!(rt; root_is_read(rt.alloc(), &doc)),
        None => panic!(rt; "not read"),
    }
}
