mod moves;
mod recovery;

use super::*;
use path_name::{Items, Path};
use std::alloc::Global;
use std::test::*;

/// The journal of a first install, in version 1.
const FIRST: &[u8] =
    b"install-journal 1\ngeneration 1\nmove 0 76656e646f72\nmove 1 636f6d706f7365722e6c6f636b\nend\n";

/// A journal of version 2 whose second part takes a package away.
const SECOND: &[u8] =
    b"install-journal 2\ngeneration 7\nmove 0 76656e646f722f61\ngone 1 76656e646f722f62\nend\n";

/// Texts that are no journals by their first two lines, and the place of the first bad line.
static BAD_HEADS: [(&[u8], u64); 12] = [
    (b"", 0),
    (b"x", 0),
    (b"install-journal 1", 0),
    (
        b"install-journal 3\ngeneration 1\nmove 0 76656e646f72\nmove 1 636f6d706f7365722e6c6f636b\nend\n",
        0,
    ),
    (b"install-journal 01\n", 0),
    (b"install-journal 1\r\n", 0),
    (b"\n", 0),
    (b"install-journal 1\n", 18),
    (
        b"install-journal 1\ngeneration 0\nmove 0 76656e646f72\nmove 1 636f6d706f7365722e6c6f636b\nend\n",
        18,
    ),
    (
        b"install-journal 1\ngeneration 01\nmove 0 76656e646f72\nmove 1 636f6d706f7365722e6c6f636b\nend\n",
        18,
    ),
    (
        b"install-journal 1\ngeneration 18446744073709551616\nmove 0 76656e646f72\nmove 1 636f6d706f7365722e6c6f636b\nend\n",
        18,
    ),
    (
        b"install-journal 1\ngeneration +1\nmove 0 76656e646f72\nmove 1 636f6d706f7365722e6c6f636b\nend\n",
        18,
    ),
];

/// The same by the lines behind these.
static BAD_PARTS: [(&[u8], u64); 28] = [
    (b"install-journal 1\ngeneration 1\nend\n", 31),
    (
        b"install-journal 1\ngeneration 1\nmove 0 76656e646f72\nmove 1 636f6d706f7365722e6c6f636b\nend\nx",
        89,
    ),
    (
        b"install-journal 1\ngeneration 1\nmove 0 76656e646f72\nmove 1 636f6d706f7365722e6c6f636b\nend\n\n",
        89,
    ),
    (
        b"install-journal 1\ngeneration 1\nmove 0 76656e646f72\nmove 1 636f6d706f7365722e6c6f636b\nend",
        85,
    ),
    (
        b"install-journal 1\ngeneration 1\nmove 0 76656e646f72\nmove 1 76656e646f722f61\nend\n",
        51,
    ),
    (
        b"install-journal 1\ngeneration 1\nmove 0 76656e646f722f61\nmove 1 76656e646f72\nend\n",
        55,
    ),
    (
        b"install-journal 1\ngeneration 1\nmove 0 76656e646f72\nmove 1 76656e646f72\nend\n",
        51,
    ),
    (
        b"install-journal 1\ngeneration 1\nmove 0 76656e646f72\nmove 2 636f6d706f7365722e6c6f636b\nend\n",
        51,
    ),
    (
        b"install-journal 1\ngeneration 1\nmove 0 76656e646f72\n",
        51,
    ),
    (
        b"install-journal 1\ngeneration 1\nmove 0 76656e646f72\nend",
        51,
    ),
    (
        b"install-journal 1\ngeneration 1\nmove 1 76656e646f72\nend\n",
        31,
    ),
    (
        b"install-journal 1\ngeneration 1\nmove 00 76656e646f72\nend\n",
        31,
    ),
    (
        b"install-journal 1\ngeneration 1\nmove 0 76656E646F72\nend\n",
        31,
    ),
    (
        b"install-journal 1\ngeneration 1\nmove 0 76656e646f7\nend\n",
        31,
    ),
    (b"install-journal 1\ngeneration 1\nmove 0 \nend\n", 31),
    (b"install-journal 1\ngeneration 1\nmove 0\nend\n", 31),
    (
        b"install-journal 1\ngeneration 1\nmove  0 76656e646f72\nend\n",
        31,
    ),
    (
        b"install-journal 1\ngeneration 1\nmove 0 76656e646f72 \nend\n",
        31,
    ),
    (b"install-journal 1\ngeneration 1\nmove 0 2e\nend\n", 31),
    (
        b"install-journal 1\ngeneration 1\nmove 0 76656e646f722f\nend\n",
        31,
    ),
    (
        b"install-journal 1\ngeneration 1\nmove 0 76656e646f722f2e2f61\nend\n",
        31,
    ),
    (b"install-journal 1\ngeneration 1\nmove 0 737263\nend\n", 31),
    (
        b"install-journal 1\ngeneration 1\nmove 0 76656e646f722d78\nend\n",
        31,
    ),
    (
        b"install-journal 1\ngeneration 1\nmove 0 636f6d706f7365722e6c6f636b2f78\nend\n",
        31,
    ),
    (
        b"install-journal 1\ngeneration 1\nmove 0 76656e646f722fff\nend\n",
        31,
    ),
    (
        b"install-journal 1\ngeneration 1\ngone 0 76656e646f72\nend\n",
        31,
    ),
    (
        b"install-journal 2\ngeneration 7\nmove 0 76656e646f722f612d62\nmove 1 76656e646f722f61\ngone 2 76656e646f722f612f63\nend\n",
        83,
    ),
    (
        b"install-journal 2\ngeneration 7\ngone 0 76656e646f\nend\n",
        31,
    ),
];

fn target(alloc: Global, path: &[u8], gone: bool) -> Result<Target, Fail> {
    Ok(Target {
        path: Path::read(alloc, path)?,
        gone,
    })
}

fn journal(alloc: Global, generation: u64, first: Target, second: Target) -> Result<Journal, Fail> {
    let mut targets = Vec::new(alloc);
    targets.push(first)?;
    targets.push(second)?;
    Ok(Journal {
        generation,
        targets: Items::of(targets),
    })
}

fn first_journal(alloc: Global) -> Result<Journal, Fail> {
    journal(
        alloc,
        1,
        target(alloc, b"vendor", false)?,
        target(alloc, b"composer.lock", false)?,
    )
}

fn second_journal(alloc: Global) -> Result<Journal, Fail> {
    journal(
        alloc,
        7,
        target(alloc, b"vendor/a", false)?,
        target(alloc, b"vendor/b", true)?,
    )
}

fn is_read_as(alloc: Global, text: &[u8], journal: &Journal) -> bool {
    match read_journal(alloc, text) {
        Ok(read) => read == *journal,
        Err(_) => false,
    }
}

#[test]
fn journals_are_read(rt: HostRuntime) -> Result<(), Fail> {
    let first = first_journal(rt.alloc())?;
    assert!(rt; is_read_as(rt.alloc(), FIRST, &first));
    let second = second_journal(rt.alloc())?;
    assert!(rt; is_read_as(rt.alloc(), SECOND, &second));
    Ok(())
}

#[test]
fn journals_are_written(rt: HostRuntime) -> Result<(), Fail> {
    let second = second_journal(rt.alloc())?;
    let text = journal_text(rt.alloc(), &second)?;
    assert!(rt; text.as_slice() == SECOND);
    Ok(())
}

fn is_bad_at(alloc: Global, text: &[u8], at: u64) -> bool {
    match read_journal(alloc, text) {
        Ok(_) => false,
        Err(fault) => fault == JournalFault::BadJournal(at),
    }
}

#[test]
fn bad_heads(rt: HostRuntime) -> Result<(), Fail> {
    for (text, at) in &BAD_HEADS {
        assert!(rt; is_bad_at(rt.alloc(), text, *at));
    }
    Ok(())
}

#[test]
fn bad_parts(rt: HostRuntime) -> Result<(), Fail> {
    for (text, at) in &BAD_PARTS {
        assert!(rt; is_bad_at(rt.alloc(), text, *at));
    }
    Ok(())
}

/// The place of a journal that is cut: where the line begins that is cut, or its length behind a whole line.
fn cut_place(text: &[u8]) -> u64 {
    match text.iter().rposition(|byte| *byte == b'\n') {
        None => 0,
        Some(end) => end as u64 + 1,
    }
}

#[test]
fn cut_journals(rt: HostRuntime) -> Result<(), Fail> {
    for len in 0..FIRST.len() {
        let text = &FIRST[..len];
        assert!(rt; is_bad_at(rt.alloc(), text, cut_place(text)));
    }
    Ok(())
}
