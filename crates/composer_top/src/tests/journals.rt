use super::{Content, JOURNAL, Put, Row, disturbed, gives, refused, tree_of, words_of};
use crate::run;
use path_name::{Path, Text};
use std::alloc::Global;
use std::process::Abort;
use std::test::Fail;
use tree_dev::{Did, Entry, FILE_BYTES, MemorySink, MemoryTree, ReadAnswer, Tree};

/// A file by its path and its bytes; with no bytes, a path at which no file is.
type File = (&'static [u8], &'static [u8]);

/// A run of `recover`, and what stands then.
struct Recovery {
    row: Row,
    after: &'static [File],
}

/// The journal of an install that puts the folder `vendor` and composer.lock.
const FIRST: &[u8] =
    b"install-journal 1\ngeneration 1\nmove 0 76656e646f72\nmove 1 636f6d706f7365722e6c6f636b\nend\n";

/// The journal of one that puts `vendor/a`, and takes `vendor/b` away.
const SECOND: &[u8] =
    b"install-journal 2\ngeneration 7\nmove 0 76656e646f722f61\ngone 1 76656e646f722f62\nend\n";

const APP: Put = (b"app.php", Content::Bytes(b"app"));

const STAGED: Put = (b".install/new/0/f", Content::Bytes(b"new"));

/// Installs that were stopped, and what becomes of them.
static ENDED: [Recovery; 6] = [
    Recovery {
        row: Row {
            project: &[
                (JOURNAL, Content::Bytes(FIRST)),
                (b".install/new/0/autoload.php", Content::Bytes(b"new")),
                (b".install/new/1", Content::Bytes(b"new")),
                (b".install/old", Content::Folder),
                (b"vendor/autoload.php", Content::Bytes(b"old")),
                (b"vendor/gone.php", Content::Bytes(b"old")),
                (b"composer.lock", Content::Bytes(b"old")),
                APP,
            ],
            words: "recover",
            status: 0,
            out: b"finished\n",
            errs: b"",
        },
        after: &[
            (b"vendor/autoload.php", b"new"),
            (b"vendor/gone.php", b""),
            (b"composer.lock", b"new"),
            (b"app.php", b"app"),
            (JOURNAL, b""),
        ],
    },
    Recovery {
        row: Row {
            project: &[
                (JOURNAL, Content::Bytes(SECOND)),
                STAGED,
                (b".install/old", Content::Folder),
                (b"vendor/a/f", Content::Bytes(b"old")),
                (b"vendor/b/g", Content::Bytes(b"old")),
                (b"vendor/c/h", Content::Bytes(b"old")),
                APP,
            ],
            words: "recover",
            status: 0,
            out: b"finished\n",
            errs: b"",
        },
        after: &[
            (b"vendor/a/f", b"new"),
            (b"vendor/b/g", b""),
            (b"vendor/c/h", b"old"),
            (b"app.php", b"app"),
            (JOURNAL, b""),
        ],
    },
    Recovery {
        row: Row {
            project: &[(b".install", Content::Folder), APP],
            words: "recover",
            status: 0,
            out: b"removed\n",
            errs: b"",
        },
        after: &[(b"app.php", b"app")],
    },
    Recovery {
        row: Row {
            project: &[STAGED, (b"vendor/a/f", Content::Bytes(b"old"))],
            words: "recover",
            status: 0,
            out: b"removed\n",
            errs: b"",
        },
        after: &[(b"vendor/a/f", b"old"), (b".install/new/0/f", b"")],
    },
    Recovery {
        row: Row {
            project: &[(b"vendor/a/f", Content::Bytes(b"old")), APP],
            words: "recover",
            status: 0,
            out: b"nothing to do\n",
            errs: b"",
        },
        after: &[(b"vendor/a/f", b"old"), (b"app.php", b"app")],
    },
    Recovery {
        row: Row {
            project: &[
                (b"app/.install/new/0/f", Content::Bytes(b"new")),
                (JOURNAL, Content::Bytes(b"x")),
            ],
            words: "-d app recover",
            status: 0,
            out: b"removed\n",
            errs: b"",
        },
        after: &[(b"app/.install/new/0/f", b""), (JOURNAL, b"x")],
    },
];

/// Journals that are none: the place of the first bad line. A later refusal is there too, and nothing is changed.
static BAD_JOURNALS: [Recovery; 7] = [
    Recovery {
        row: Row {
            project: &[
                (JOURNAL, Content::Bytes(b"install-journal 1\n")),
                STAGED,
                (b".install/old", Content::Other),
            ],
            words: "recover",
            status: 11,
            out: b"",
            errs: b"error: bad journal at 18\n",
        },
        after: &[
            (JOURNAL, b"install-journal 1\n"),
            (b".install/new/0/f", b"new"),
        ],
    },
    Recovery {
        row: Row {
            project: &[
                (
                    JOURNAL,
                    Content::Bytes(
                        b"install-journal 1\ngeneration 0\nmove 0 76656e646f72\nmove 1 636f6d706f7365722e6c6f636b\nend\n",
                    ),
                ),
                STAGED,
            ],
            words: "recover",
            status: 11,
            out: b"",
            errs: b"error: bad journal at 18\n",
        },
        after: &[(b".install/new/0/f", b"new"), (b"vendor/f", b"")],
    },
    Recovery {
        row: Row {
            project: &[
                (
                    JOURNAL,
                    Content::Bytes(b"install-journal 1\ngeneration 1\nend\n"),
                ),
                STAGED,
            ],
            words: "recover",
            status: 11,
            out: b"",
            errs: b"error: bad journal at 31\n",
        },
        after: &[(JOURNAL, b"install-journal 1\ngeneration 1\nend\n")],
    },
    Recovery {
        row: Row {
            project: &[
                (
                    JOURNAL,
                    Content::Bytes(
                        b"install-journal 1\ngeneration 1\nmove 0 76656e646f72\nmove 1 636f6d706f7365722e6c6f636b\nend\nx",
                    ),
                ),
                STAGED,
            ],
            words: "recover",
            status: 11,
            out: b"",
            errs: b"error: bad journal at 89\n",
        },
        after: &[(b".install/new/0/f", b"new"), (b"vendor/f", b"")],
    },
    Recovery {
        row: Row {
            project: &[
                (
                    JOURNAL,
                    Content::Bytes(
                        b"install-journal 1\ngeneration 1\nmove 0 76656e646f72\nmove 1 76656e646f722f61\nend\n",
                    ),
                ),
                STAGED,
            ],
            words: "recover",
            status: 11,
            out: b"",
            errs: b"error: bad journal at 51\n",
        },
        after: &[(b".install/new/0/f", b"new"), (b"vendor/f", b"")],
    },
    Recovery {
        row: Row {
            project: &[(JOURNAL, Content::Bytes(b"x")), STAGED],
            words: "recover",
            status: 11,
            out: b"",
            errs: b"error: bad journal at 0\n",
        },
        after: &[(JOURNAL, b"x"), (b".install/new/0/f", b"new")],
    },
    Recovery {
        row: Row {
            project: &[
                (b"app/.install/journal", Content::Bytes(b"")),
                (b".install", Content::Other),
            ],
            words: "-d app recover",
            status: 11,
            out: b"",
            errs: b"error: bad journal at 0\n",
        },
        after: &[(b"app/vendor", b"")],
    },
];

/// Entries of another kind than recovery needs, in their order, with a later one there too. `.install/old` is needed only by a part
/// that takes something there.
static OTHER_KINDS: [Recovery; 6] = [
    Recovery {
        row: Row {
            project: &[(b".install", Content::Bytes(b"x")), APP],
            words: "recover",
            status: 15,
            out: b"",
            errs: b"error: wrong kind .install\n",
        },
        after: &[(b".install", b"x"), (b"app.php", b"app")],
    },
    Recovery {
        row: Row {
            project: &[(b".install", Content::Other), APP],
            words: "recover",
            status: 15,
            out: b"",
            errs: b"error: wrong kind .install\n",
        },
        after: &[(b"app.php", b"app")],
    },
    Recovery {
        row: Row {
            project: &[
                (JOURNAL, Content::Folder),
                STAGED,
                (b".install/old", Content::Other),
            ],
            words: "recover",
            status: 15,
            out: b"",
            errs: b"error: wrong kind .install/journal\n",
        },
        after: &[(b".install/new/0/f", b"new")],
    },
    Recovery {
        row: Row {
            project: &[(JOURNAL, Content::Other), STAGED],
            words: "recover",
            status: 15,
            out: b"",
            errs: b"error: wrong kind .install/journal\n",
        },
        after: &[(b".install/new/0/f", b"new")],
    },
    Recovery {
        row: Row {
            project: &[
                (JOURNAL, Content::Bytes(SECOND)),
                STAGED,
                (b".install/old", Content::Other),
                (b"vendor/a/f", Content::Bytes(b"old")),
            ],
            words: "recover",
            status: 15,
            out: b"",
            errs: b"error: wrong kind .install/old\n",
        },
        after: &[
            (JOURNAL, SECOND),
            (b".install/new/0/f", b"new"),
            (b"vendor/a/f", b"old"),
        ],
    },
    Recovery {
        row: Row {
            project: &[
                (JOURNAL, Content::Bytes(SECOND)),
                STAGED,
                (b".install/old", Content::Other),
                (b"vendor", Content::Bytes(b"old")),
            ],
            words: "recover",
            status: 15,
            out: b"",
            errs: b"error: wrong kind vendor\n",
        },
        after: &[
            (JOURNAL, SECOND),
            (b".install/new/0/f", b"new"),
            (b"vendor", b"old"),
        ],
    },
];

/// Compares what stands at a path.
fn stands(rt: &impl Abort, alloc: Global, tree: &mut MemoryTree, file: &File) -> Result<(), Fail> {
    match tree.read(alloc, &Path::read(alloc, file.0)?, 128)? {
        ReadAnswer::Bytes(text) => assert_eq!(rt; text.as_slice(), file.1),
        _ => assert!(rt; file.1.is_empty()),
    }
    Ok(())
}

fn all_stand(
    rt: &impl Abort,
    alloc: Global,
    tree: &mut MemoryTree,
    files: &[File],
) -> Result<(), Fail> {
    for file in files {
        stands(rt, alloc, tree, file)?;
    }
    Ok(())
}

/// Runs a recovery, and compares what stands then.
fn recovers(rt: &impl Abort, alloc: Global, recovery: &Recovery) -> Result<(), Fail> {
    let mut tree = tree_of(rt, alloc, &recovery.row)?;
    gives(rt, alloc, &recovery.row, &mut tree)?;
    all_stand(rt, alloc, &mut tree, recovery.after)
}

/// Runs the words of a row, and gives the status.
fn status_of(
    alloc: Global,
    row: &Row,
    tree: &mut MemoryTree,
    failing: Option<u64>,
) -> Result<u8, Fail> {
    let words = words_of(alloc, row)?;
    let mut out = MemorySink::new(alloc, failing)?;
    let mut errs = MemorySink::new(alloc, None)?;
    Ok(run(alloc, words.as_slice(), tree, &mut out, &mut errs))
}

/// Where the output fails, the work is done.
fn is_done(rt: &impl Abort, alloc: Global, recovery: &Recovery) -> Result<(), Fail> {
    let mut tree = tree_of(rt, alloc, &recovery.row)?;
    assert_eq!(rt; status_of(alloc, &recovery.row, &mut tree, Some(1))?, 9);
    all_stand(rt, alloc, &mut tree, recovery.after)
}

/// Runs a recovery whose call of this number and all later ones fail, crashes so that this many of the pending changes
/// are kept, and recovers again.
fn ends_after_crash(
    rt: &impl Abort,
    alloc: Global,
    recovery: &Recovery,
    call: u64,
    kept: u64,
) -> Result<(), Fail> {
    let mut tree = tree_of(rt, alloc, &recovery.row)?;
    tree.stop_at(call);
    assert_eq!(rt; status_of(alloc, &recovery.row, &mut tree, None)?, 8);
    assert_eq!(rt; tree.calls(), call);
    let applied = tree.pending().min(kept);
    tree.crash(alloc, applied, Some(b"?".as_slice()))?;
    assert_eq!(rt; status_of(alloc, &recovery.row, &mut tree, None)?, 0);
    all_stand(rt, alloc, &mut tree, recovery.after)
}

fn ends_after_crashes(
    rt: &impl Abort,
    alloc: Global,
    recovery: &Recovery,
    call: u64,
) -> Result<(), Fail> {
    for kept in 0..4u64 {
        ends_after_crash(rt, alloc, recovery, call, kept)?;
    }
    ends_after_crash(rt, alloc, recovery, call, 99)
}

/// Stops a recovery at each of its calls, and crashes.
fn ends_always(rt: &impl Abort, alloc: Global, recovery: &Recovery) -> Result<(), Fail> {
    let mut tree = tree_of(rt, alloc, &recovery.row)?;
    gives(rt, alloc, &recovery.row, &mut tree)?;
    for call in 1..=tree.calls() {
        ends_after_crashes(rt, alloc, recovery, call)?;
    }
    Ok(())
}

#[test]
fn journals(rt: HostRuntime) -> Result<(), Fail> {
    for recovery in &ENDED {
        recovers(&rt, rt.alloc(), recovery)?;
        is_done(&rt, rt.alloc(), recovery)?;
        disturbed(&rt, rt.alloc(), &recovery.row)?;
    }
    for recovery in &BAD_JOURNALS {
        recovers(&rt, rt.alloc(), recovery)?;
        disturbed(&rt, rt.alloc(), &recovery.row)?;
    }
    for recovery in &OTHER_KINDS {
        recovers(&rt, rt.alloc(), recovery)?;
        disturbed(&rt, rt.alloc(), &recovery.row)?;
    }
    Ok(())
}

#[test]
fn stopped_recoveries(rt: HostRuntime) -> Result<(), Fail> {
    for recovery in &ENDED {
        ends_always(&rt, rt.alloc(), recovery)?;
    }
    Ok(())
}

/// An empty `.install` is removed, and then there is nothing to do.
#[test]
fn recovered_twice(rt: HostRuntime) -> Result<(), Fail> {
    let mut tree = tree_of(&rt, rt.alloc(), &ENDED[2].row)?;
    gives(&rt, rt.alloc(), &ENDED[2].row, &mut tree)?;
    gives(&rt, rt.alloc(), &ENDED[4].row, &mut tree)
}

static STOPPED: [Put; 2] = [STAGED, (b".install/old", Content::Other)];

/// A journal of one byte too many comes before what it says.
#[test]
fn long_journal(rt: HostRuntime) -> Result<(), Fail> {
    let row = refused(
        &STOPPED,
        "recover",
        12,
        b"error: limit FileBytes .install/journal\n",
    );
    let mut tree = tree_of(&rt, rt.alloc(), &row)?;
    let mut text = Vec::new(rt.alloc());
    text.resize(FILE_BYTES as usize + 1, b'x')?;
    assert_eq!(rt;
        tree.put(
            rt.alloc(),
            &Path::read(rt.alloc(), JOURNAL)?,
            Entry::File(Text::of(text))
        )?,
        Did::Done
    );
    gives(&rt, rt.alloc(), &row, &mut tree)
}
