use super::locks::{LOCK, MANIFEST, NO_FILE, all_disturbed};
use super::{Content, Put, Row, gives, has_calls, refused, tree_of};
use path_name::{Path, Text, push_number};
use std::alloc::Global;
use std::process::Abort;
use std::test::Fail;
use tree_dev::{Did, Entry, FILE_BYTES};

/// Refusals of composer.json, in their order, each with a later one there too.
static REFUSED_MANIFESTS: [Row; 11] = [
    Row {
        project: &[NO_FILE, NO_FILE],
        words: "check",
        status: 3,
        out: b"",
        errs: b"error: no composer.json\n",
    },
    Row {
        project: &[NO_FILE, (LOCK, Content::Folder)],
        words: "check",
        status: 3,
        out: b"",
        errs: b"error: no composer.json\n",
    },
    Row {
        project: &[(MANIFEST, Content::Folder), NO_FILE],
        words: "check",
        status: 15,
        out: b"",
        errs: b"error: wrong kind composer.json\n",
    },
    Row {
        project: &[(MANIFEST, Content::Other), (LOCK, Content::Folder)],
        words: "check",
        status: 15,
        out: b"",
        errs: b"error: wrong kind composer.json\n",
    },
    Row {
        project: &[(MANIFEST, Content::Bytes(b"")), NO_FILE],
        words: "check",
        status: 3,
        out: b"",
        errs: b"error: composer.json: syntax at 0\n",
    },
    // A text that is no JSON comes before a bad field.
    Row {
        project: &[
            (MANIFEST, Content::Bytes(br#"{"name":1,}"#)),
            (LOCK, Content::Bytes(b"[")),
        ],
        words: "check",
        status: 3,
        out: b"",
        errs: b"error: composer.json: syntax at 10\n",
    },
    Row {
        project: &[(MANIFEST, Content::Bytes(b"\xff")), (LOCK, Content::Folder)],
        words: "check",
        status: 3,
        out: b"",
        errs: b"error: composer.json: not UTF-8 at 0\n",
    },
    Row {
        project: &[
            (
                MANIFEST,
                Content::Bytes(
                    b"[[[[[[[[[[[[[[[[[[[[[[[[[[[[[[[[[[[[[[[[[[[[[[[[[[[[[[[[[[[[[[[[[[[[[[[[[[[[[[[[[[[[[[[[[[[[[[[[[[[[[[[[[[[[[[[[[[[[[[[[[[[[[[[[[",
                ),
            ),
            NO_FILE,
        ],
        words: "check",
        status: 3,
        out: b"",
        errs: b"error: composer.json: too deep at 128\n",
    },
    Row {
        project: &[
            (
                MANIFEST,
                Content::Bytes(br#"{"name":1,"repositories":[{"type":"vcs","url":"u"}]}"#),
            ),
            NO_FILE,
        ],
        words: "check",
        status: 3,
        out: b"",
        errs: b"error: composer.json: bad field /name\n",
    },
    Row {
        project: &[
            (
                MANIFEST,
                Content::Bytes(br#"{"repositories":[{"type":"vcs","url":"u"}]}"#),
            ),
            NO_FILE,
        ],
        words: "check",
        status: 13,
        out: b"",
        errs: b"error: composer.json: not offered /repositories/0/type\n",
    },
    Row {
        project: &[
            (
                MANIFEST,
                Content::Bytes(br#"{"repositories":[{"type":"vcs","url":"u"}]}"#),
            ),
            (LOCK, Content::Bytes(b"[")),
        ],
        words: "check",
        status: 13,
        out: b"",
        errs: b"error: composer.json: not offered /repositories/0/type\n",
    },
];

/// Refusals of composer.lock, in their order, each with a later one there too.
static REFUSED_LOCKS: [Row; 14] = [
    Row {
        project: &[(MANIFEST, Content::Bytes(b"{}")), NO_FILE],
        words: "check",
        status: 4,
        out: b"",
        errs: b"error: no composer.lock\n",
    },
    Row {
        project: &[
            (MANIFEST, Content::Bytes(br#"{"require":{"a/a":"*"}}"#)),
            NO_FILE,
        ],
        words: "check",
        status: 4,
        out: b"",
        errs: b"error: no composer.lock\n",
    },
    Row {
        project: &[(MANIFEST, Content::Bytes(b"{}")), (LOCK, Content::Folder)],
        words: "check",
        status: 15,
        out: b"",
        errs: b"error: wrong kind composer.lock\n",
    },
    Row {
        project: &[(MANIFEST, Content::Bytes(b"{}")), (LOCK, Content::Other)],
        words: "check",
        status: 15,
        out: b"",
        errs: b"error: wrong kind composer.lock\n",
    },
    Row {
        project: &[
            (MANIFEST, Content::Bytes(b"{}")),
            (LOCK, Content::Bytes(b"")),
        ],
        words: "check",
        status: 4,
        out: b"",
        errs: b"error: composer.lock: syntax at 0\n",
    },
    Row {
        project: &[
            (MANIFEST, Content::Bytes(b"{}")),
            (LOCK, Content::Bytes(br#"{"content-hash":1,}"#)),
        ],
        words: "check",
        status: 4,
        out: b"",
        errs: b"error: composer.lock: syntax at 18\n",
    },
    Row {
        project: &[
            (MANIFEST, Content::Bytes(b"{}")),
            (LOCK, Content::Bytes(b"\xff")),
        ],
        words: "check",
        status: 4,
        out: b"",
        errs: b"error: composer.lock: not UTF-8 at 0\n",
    },
    Row {
        project: &[
            (MANIFEST, Content::Bytes(b"{}")),
            (
                LOCK,
                Content::Bytes(
                    b"[[[[[[[[[[[[[[[[[[[[[[[[[[[[[[[[[[[[[[[[[[[[[[[[[[[[[[[[[[[[[[[[[[[[[[[[[[[[[[[[[[[[[[[[[[[[[[[[[[[[[[[[[[[[[[[[[[[[[[[[[[[[[[[[[",
                ),
            ),
        ],
        words: "check",
        status: 4,
        out: b"",
        errs: b"error: composer.lock: too deep at 128\n",
    },
    Row {
        project: &[
            (MANIFEST, Content::Bytes(b"{}")),
            (LOCK, Content::Bytes(br#"{"content-hash":1,"aliases":[1]}"#)),
        ],
        words: "check",
        status: 4,
        out: b"",
        errs: b"error: composer.lock: bad field /content-hash\n",
    },
    Row {
        project: &[
            (MANIFEST, Content::Bytes(b"{}")),
            (
                LOCK,
                Content::Bytes(
                    br#"{"content-hash":"","packages":[{"name":"composer/autoload_psr4.php","version":"1.0.0","dist":{"type":"path","url":"../a"}}],"packages-dev":[]}"#,
                ),
            ),
        ],
        words: "check",
        status: 4,
        out: b"",
        errs: b"error: composer.lock: reserved name composer/autoload_psr4.php\n",
    },
    Row {
        project: &[
            (MANIFEST, Content::Bytes(b"{}")),
            (
                LOCK,
                Content::Bytes(
                    br#"{"content-hash":"","packages":[{"name":"a/a","version":"1.0.0","dist":{"type":"path","url":"../a"}},{"name":"b/b","version":"1.0.0","dist":{"type":"zip","url":"b"}}],"packages-dev":[]}"#,
                ),
            ),
        ],
        words: "check",
        status: 13,
        out: b"",
        errs: b"error: composer.lock: not offered /packages/1/dist/type\n",
    },
    Row {
        project: &[
            (MANIFEST, Content::Bytes(br#"{"require":{"c/c":"*"}}"#)),
            (
                LOCK,
                Content::Bytes(
                    br#"{"content-hash":"","packages":[{"name":"a/a","version":"1.0.0","dist":{"type":"path","url":"a/../../b/../c"}},{"name":"b/b","version":"1.0.0","dist":{"type":"path","url":"../../d"}}],"packages-dev":[]}"#,
                ),
            ),
        ],
        words: "check",
        status: 15,
        out: b"",
        errs: b"error: missing ../c\n",
    },
    Row {
        project: &[
            (MANIFEST, Content::Bytes(br#"{"require":{"c/c":"*"}}"#)),
            (
                LOCK,
                Content::Bytes(
                    br#"{"content-hash":"","packages":[{"name":"a/a","version":"1.0.0","dist":{"type":"path","url":"a"}}],"packages-dev":[{"name":"b/b","version":"1.0.0","dist":{"type":"path","url":"../../d"}}]}"#,
                ),
            ),
        ],
        words: "check",
        status: 15,
        out: b"",
        errs: b"error: missing ../../d\n",
    },
    Row {
        project: &[
            (b"app/composer.json", Content::Bytes(b"{}")),
            (
                b"app/composer.lock",
                Content::Bytes(
                    br#"{"content-hash":"","packages":[],"packages-dev":[{"name":"b/b","version":"1.0.0","dist":{"type":"path","url":"../.."}}]}"#,
                ),
            ),
        ],
        words: "-d app check",
        status: 15,
        out: b"",
        errs: b"error: missing ../../.\n",
    },
];

/// The text of a lock of so many packages, the last of which lies above the root.
fn many(alloc: Global, count: u32) -> Result<Vec<u8>, Fail> {
    let mut text = Vec::from_slice(alloc, b"{\"content-hash\":\"\",\"packages\":[")?;
    for number in 1..count {
        text.extend_from_slice(b"{\"name\":\"a/")?;
        push_number(&mut text, u64::from(number))?;
        text.extend_from_slice(
            b"\",\"version\":\"1\",\"dist\":{\"type\":\"path\",\"url\":\"p\"}},",
        )?;
    }
    text.extend_from_slice(
        b"{\"name\":\"b/b\",\"version\":\"1\",\"dist\":{\"type\":\"path\",\"url\":\"../b\"}}],\"packages-dev\":[]}",
    )?;
    Ok(text)
}

/// Runs `check` over a lock of so many packages, the last of which lies above the root.
fn is_refused(rt: &impl Abort, alloc: Global, count: u32, row: &Row) -> Result<(), Fail> {
    let mut tree = tree_of(rt, alloc, row)?;
    let lock = Entry::File(Text::of(many(alloc, count)?));
    assert_eq!(rt;
        tree.put(alloc, &Path::read(alloc, LOCK)?, lock)?,
        Did::Done
    );
    gives(rt, alloc, row, &mut tree)
}

/// A manifest of one byte too many, and a lock of another kind.
static LONG_MANIFEST: Row = Row {
    project: &[(LOCK, Content::Folder), NO_FILE],
    words: "check",
    status: 12,
    out: b"",
    errs: b"error: limit FileBytes composer.json\n",
};

static LONG_LOCK: Row = Row {
    project: &[(MANIFEST, Content::Bytes(b"{}")), NO_FILE],
    words: "check",
    status: 12,
    out: b"",
    errs: b"error: limit FileBytes composer.lock\n",
};

/// Runs a row over a tree with a file of one byte too many at a path. Its text is no UTF-8, which is refused later.
fn is_too_long(rt: &impl Abort, alloc: Global, at: &[u8], row: &Row) -> Result<(), Fail> {
    let mut tree = tree_of(rt, alloc, row)?;
    let mut text = Vec::new(alloc);
    text.resize(FILE_BYTES as usize + 1, 0xff)?;
    assert_eq!(rt;
        tree.put(alloc, &Path::read(alloc, at)?, Entry::File(Text::of(text)))?,
        Did::Done
    );
    gives(rt, alloc, row, &mut tree)
}

#[test]
fn long_manifest(rt: HostRuntime) -> Result<(), Fail> {
    is_too_long(&rt, rt.alloc(), MANIFEST, &LONG_MANIFEST)
}

#[test]
fn long_lock(rt: HostRuntime) -> Result<(), Fail> {
    is_too_long(&rt, rt.alloc(), LOCK, &LONG_LOCK)
}

#[test]
fn refused_manifests(rt: HostRuntime) -> Result<(), Fail> {
    all_disturbed(&rt, rt.alloc(), &REFUSED_MANIFESTS)
}

#[test]
fn refused_locks(rt: HostRuntime) -> Result<(), Fail> {
    all_disturbed(&rt, rt.alloc(), &REFUSED_LOCKS)
}

static EMPTY_PROJECT: [Put; 1] = [(MANIFEST, Content::Bytes(b"{}"))];

#[test]
fn too_many_packages(rt: HostRuntime) -> Result<(), Fail> {
    let fits = refused(&EMPTY_PROJECT, "check", 15, b"error: missing ../b\n");
    is_refused(&rt, rt.alloc(), 4_096, &fits)?;
    let passes = refused(&EMPTY_PROJECT, "check", 12, b"error: limit Packages\n");
    is_refused(&rt, rt.alloc(), 4_097, &passes)
}

/// Nothing is read behind a refusal.
#[test]
fn calls_of_refusals(rt: HostRuntime) -> Result<(), Fail> {
    has_calls(&rt, rt.alloc(), &REFUSED_MANIFESTS[1], 1)?;
    has_calls(&rt, rt.alloc(), &REFUSED_LOCKS[0], 2)
}
