use super::{Content, Put, Row, disturbed, has_calls};
use std::alloc::Global;
use std::process::Abort;
use std::test::Fail;

pub const MANIFEST: &[u8] = b"composer.json";

pub const LOCK: &[u8] = b"composer.lock";

/// The lock of a project without packages, as an update writes it.
const NO_PACKAGES: &[u8] = br#"{
    "_readme": [
        "This file locks the dependencies of your project to a known state",
        "Read more about it at https://getcomposer.org/doc/01-basic-usage.md#installing-dependencies",
        "This file is @generated automatically"
    ],
    "content-hash": "d751713988987e9331980363e24189ce",
    "packages": [],
    "packages-dev": [],
    "aliases": [],
    "minimum-stability": "stable",
    "stability-flags": {},
    "prefer-stable": false,
    "prefer-lowest": false,
    "platform": {},
    "platform-dev": {},
    "plugin-api-version": "2.6.0"
}
"#;

/// What stands for a file that isn't there.
pub const NO_FILE: Put = (b"src", Content::Folder);

/// Locks whose packages meet what composer.json asks for.
static MET: [Row; 9] = [
    Row {
        project: &[
            (MANIFEST, Content::Bytes(b"{}")),
            (LOCK, Content::Bytes(NO_PACKAGES)),
        ],
        words: "check",
        status: 0,
        out: b"hash current\nmeets\n",
        errs: b"",
    },
    Row {
        project: &[
            (MANIFEST, Content::Bytes(br#"{"name":"x/y"}"#)),
            (LOCK, Content::Bytes(NO_PACKAGES)),
        ],
        words: "check",
        status: 0,
        out: b"hash stale\nmeets\n",
        errs: b"",
    },
    // What says nothing of packages is no part of the hash.
    Row {
        project: &[
            (
                MANIFEST,
                Content::Bytes(
                    br#" { "description" : "x", "autoload": {"psr-4": {"A\\": "src"}} } "#,
                ),
            ),
            (LOCK, Content::Bytes(NO_PACKAGES)),
        ],
        words: "check",
        status: 0,
        out: b"hash current\nmeets\n",
        errs: b"",
    },
    // Keys are hashed in their order.
    Row {
        project: &[
            (
                MANIFEST,
                Content::Bytes(br#"{"require":{"a/b":"^1.0"},"name":"x/y"}"#),
            ),
            (
                LOCK,
                Content::Bytes(
                    br#"{"content-hash":"2a23fc71aa13224108370c581319fe2a","packages":[{"name":"a/b","version":"1.4.0","dist":{"type":"path","url":"a"}}],"packages-dev":[]}"#,
                ),
            ),
        ],
        words: "check",
        status: 0,
        out: b"hash current\nmeets\n",
        errs: b"",
    },
    // Of a repeated name the last value counts, and keys inside stay as they are.
    Row {
        project: &[
            (
                MANIFEST,
                Content::Bytes(br#"{"extra":{"a":{},"b":{"0":1,"1":2},"a":3}}"#),
            ),
            (
                LOCK,
                Content::Bytes(
                    br#"{"content-hash":"c41697df0a8feb88f8cc079ae54cc3a8","packages":[],"packages-dev":[]}"#,
                ),
            ),
        ],
        words: "check",
        status: 0,
        out: b"hash current\nmeets\n",
        errs: b"",
    },
    // The document is hashed, not the text.
    Row {
        project: &[
            (
                MANIFEST,
                Content::Bytes(b"{\"extra\":{\"e\":{},\"u\":\"\xc3\xa9/\"}}"),
            ),
            (
                LOCK,
                Content::Bytes(
                    br#"{"content-hash":"a59174568c039559b2f55872806b496f","packages":[],"packages-dev":[]}"#,
                ),
            ),
        ],
        words: "check",
        status: 0,
        out: b"hash current\nmeets\n",
        errs: b"",
    },
    Row {
        project: &[
            (
                MANIFEST,
                Content::Bytes(
                    br#"{"name":"shop/site","require":{"php":">=8.1","acme/log":"^1.2"},"repositories":[{"type":"path","url":"packages/*"}],"autoload":{"psr-4":{"App\\":"src/"}}}"#,
                ),
            ),
            (
                LOCK,
                Content::Bytes(
                    br#"{"content-hash":"1746a5ec45902df2685796beaa72fab9","packages":[{"name":"acme/clock","version":"2.0.1","dist":{"type":"path","url":"packages/clock"}},{"name":"acme/log","version":"1.2.5","dist":{"type":"path","url":"packages/log"},"require":{"acme/clock":"^2.0"}}],"packages-dev":[]}"#,
                ),
            ),
        ],
        words: "check",
        status: 0,
        out: b"hash current\nmeets\n",
        errs: b"",
    },
    Row {
        project: &[
            (b"app/composer.json", Content::Bytes(b"{}")),
            (
                b"app/composer.lock",
                Content::Bytes(
                    br#"{"content-hash":"d751713988987e9331980363e24189ce","packages":[{"name":"a/a","version":"1.0.0","dist":{"type":"path","url":"../a"}}],"packages-dev":[]}"#,
                ),
            ),
        ],
        words: "-d app check",
        status: 0,
        out: b"hash current\nmeets\n",
        errs: b"",
    },
    // Packages for development count as all others.
    Row {
        project: &[
            (MANIFEST, Content::Bytes(br#"{"require":{"a/a":"1.0.0"}}"#)),
            (
                LOCK,
                Content::Bytes(
                    br#"{"content-hash":"","packages":[],"packages-dev":[{"name":"a/a","version":"1.0.0","dist":{"type":"path","url":"a"}}]}"#,
                ),
            ),
        ],
        words: "check",
        status: 0,
        out: b"hash stale\nmeets\n",
        errs: b"",
    },
];

/// Locks whose packages break a rule.
static BROKEN: [Row; 8] = [
    Row {
        project: &[
            (MANIFEST, Content::Bytes(br#"{"require":{"a/a":"^2.0"}}"#)),
            (
                LOCK,
                Content::Bytes(
                    br#"{"content-hash":"","packages":[{"name":"a/a","version":"1.0.0","dist":{"type":"path","url":"a"}}],"packages-dev":[]}"#,
                ),
            ),
        ],
        words: "check",
        status: 1,
        out: b"hash stale\nbreaks unmet __root__ a/a\n",
        errs: b"error: lock breaks unmet __root__ a/a\n",
    },
    Row {
        project: &[
            (MANIFEST, Content::Bytes(br#"{"require":{"a/a":"^2.0"}}"#)),
            (
                LOCK,
                Content::Bytes(
                    br#"{"content-hash":"c2558b1a6b30f90b81727f2d1e8f52b6","packages":[{"name":"a/a","version":"1.0.0","dist":{"type":"path","url":"a"}}],"packages-dev":[]}"#,
                ),
            ),
        ],
        words: "check",
        status: 1,
        out: b"hash current\nbreaks unmet __root__ a/a\n",
        errs: b"error: lock breaks unmet __root__ a/a\n",
    },
    Row {
        project: &[
            (
                MANIFEST,
                Content::Bytes(
                    br#"{"name":"x/y","require":{"a/a":"*"},"require-dev":{"b/b":"*"}}"#,
                ),
            ),
            (
                LOCK,
                Content::Bytes(
                    br#"{"content-hash":"","packages":[],"packages-dev":[{"name":"a/a","version":"1.0.0","dist":{"type":"path","url":"a"}}]}"#,
                ),
            ),
        ],
        words: "check",
        status: 1,
        out: b"hash stale\nbreaks unmet x/y b/b\n",
        errs: b"error: lock breaks unmet x/y b/b\n",
    },
    // Each rule with the next one broken too.
    Row {
        project: &[
            (MANIFEST, Content::Bytes(b"{}")),
            (
                LOCK,
                Content::Bytes(
                    br#"{"content-hash":"","packages":[],"packages-dev":[{"name":"a/a","version":"1.0.0-beta1","dist":{"type":"path","url":"a"},"require":{"b/b":"*"}}]}"#,
                ),
            ),
        ],
        words: "check",
        status: 1,
        out: b"hash stale\nbreaks not allowed a/a\n",
        errs: b"error: lock breaks not allowed a/a\n",
    },
    Row {
        project: &[
            (MANIFEST, Content::Bytes(br#"{"require":{"c/c":"*"}}"#)),
            (
                LOCK,
                Content::Bytes(
                    br#"{"content-hash":"","packages":[{"name":"a/a","version":"1.0.0","dist":{"type":"path","url":"a"}}],"packages-dev":[{"name":"b/b","version":"1.0.0","dist":{"type":"path","url":"b"},"replace":{"a/a":"1"}}]}"#,
                ),
            ),
        ],
        words: "check",
        status: 1,
        out: b"hash stale\nbreaks two owners a/a a/a b/b\n",
        errs: b"error: lock breaks two owners a/a a/a b/b\n",
    },
    Row {
        project: &[
            (
                MANIFEST,
                Content::Bytes(br#"{"name":"x/y","require":{"d/d":"*"}}"#),
            ),
            (
                LOCK,
                Content::Bytes(
                    br#"{"content-hash":"","packages":[{"name":"a/a","version":"1.0.0","dist":{"type":"path","url":"a"},"conflict":{"c/c":"*"}},{"name":"b/b","version":"1.0.0","dist":{"type":"path","url":"b"},"replace":{"c/c":"1"}}],"packages-dev":[]}"#,
                ),
            ),
        ],
        words: "check",
        status: 1,
        out: b"hash stale\nbreaks unmet x/y d/d\n",
        errs: b"error: lock breaks unmet x/y d/d\n",
    },
    Row {
        project: &[
            (
                MANIFEST,
                Content::Bytes(
                    br#"{"name":"x/y","require":{"php":">=8.1"},"config":{"platform":{"php":"8.0.0"}}}"#,
                ),
            ),
            (
                LOCK,
                Content::Bytes(
                    br#"{"content-hash":"","packages":[{"name":"a/a","version":"1.0.0","dist":{"type":"path","url":"a"},"conflict":{"c/c":"*"}},{"name":"b/b","version":"1.0.0","dist":{"type":"path","url":"b"},"replace":{"c/c":"1"}}],"packages-dev":[]}"#,
                ),
            ),
        ],
        words: "check",
        status: 1,
        out: b"hash stale\nbreaks conflict a/a c/c b/b\n",
        errs: b"error: lock breaks conflict a/a c/c b/b\n",
    },
    Row {
        project: &[
            (
                MANIFEST,
                Content::Bytes(
                    br#"{"name":"x/y","require":{"php":">=8.1","a/a":"*"},"config":{"platform":{"php":"8.0.0"}}}"#,
                ),
            ),
            (
                LOCK,
                Content::Bytes(
                    br#"{"content-hash":"","packages":[{"name":"a/a","version":"1.0.0","dist":{"type":"path","url":"a"}}],"packages-dev":[]}"#,
                ),
            ),
        ],
        words: "check",
        status: 1,
        out: b"hash stale\nbreaks platform x/y php\n",
        errs: b"error: lock breaks platform x/y php\n",
    },
];

/// Runs rows, each undisturbed, and with each call of the device and each output failing.
pub fn all_disturbed(rt: &impl Abort, alloc: Global, rows: &'static [Row]) -> Result<(), Fail> {
    for row in rows {
        disturbed(rt, alloc, row)?;
    }
    Ok(())
}

#[test]
fn met(rt: HostRuntime) -> Result<(), Fail> {
    all_disturbed(&rt, rt.alloc(), &MET)
}

#[test]
fn broken(rt: HostRuntime) -> Result<(), Fail> {
    all_disturbed(&rt, rt.alloc(), &BROKEN)
}

/// The manifest and the lock, and nothing else.
#[test]
fn calls_of_check(rt: HostRuntime) -> Result<(), Fail> {
    has_calls(&rt, rt.alloc(), &MET[0], 2)?;
    has_calls(&rt, rt.alloc(), &BROKEN[0], 2)
}
