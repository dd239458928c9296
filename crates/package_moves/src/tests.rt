mod rows;
mod trees;
mod wanted;

use crate::moves;
use path_name::{Path, Text};
use rows::{Outcome, REFUSED, ROWS, Refused, Row};
use stage_job::StageFault;
use std::alloc::Global;
use std::test::Fail;
use tree_dev::{Entries, LimitKind, MemoryTree};
use trees::{put_deep, tree_of};
use wanted::{job_text, wanted};

/// What a search answers: the job's text, or why there is none.
type Answer = Result<Vec<u8>, StageFault>;

/// The job of the project `p`, with the first package from a folder, and how many entries may still be listed.
fn answer(alloc: Global, tree: &mut MemoryTree, first: &[u8], most: u32) -> Option<(Answer, u32)> {
    let project = Path::read(alloc, b"p").ok()?;
    let wanted = wanted(alloc, first)?;
    let mut left = Entries { left: most };
    match moves(alloc, tree, &project, wanted.as_slice(), &mut left) {
        Ok(job) => Some((Ok(job_text(alloc, &job)?), left.left)),
        Err(fault) => Some((Err(fault), left.left)),
    }
}

/// Whether a row's tree has the job that the row says, and nothing was written.
fn passes(alloc: Global, row: Row) -> Option<bool> {
    let mut tree = tree_of(alloc, row.0, row.1)?;
    let (answer, _) = answer(alloc, &mut tree, b"r/file", 99)?;
    match answer {
        Ok(text) => Some(text.as_slice() == row.2 && tree.writes() == 0 && tree.pending() == 0),
        Err(_) => Some(false),
    }
}

#[test]
fn only_what_differs_is_a_part(rt: HostRuntime) -> Result<(), Fail> {
    let alloc = rt.alloc();
    for (number, row) in ROWS.iter().enumerate() {
        assert_eq!(rt; passes(alloc, *row), Some(true), "row {number}");
    }
    Ok(())
}

/// Why a row is refused, as a fault.
fn fault(alloc: Global, outcome: Outcome) -> Option<StageFault> {
    match outcome {
        Outcome::MissingPath(text) => {
            Some(StageFault::MissingPath(Text::copy_of(alloc, text).ok()?))
        }
        Outcome::OtherEntry(at) => Some(StageFault::OtherEntry(Path::read(alloc, at).ok()?)),
        Outcome::TooLong(at) => Some(StageFault::Limit(LimitKind::FileBytes(Path::read(
            alloc, at,
        ).ok()?))),
        Outcome::TooMany => Some(StageFault::Limit(LimitKind::Entries)),
    }
}

fn is_refused(alloc: Global, row: Refused) -> Option<bool> {
    let mut tree = tree_of(alloc, row.0, row.1)?;
    let (answer, _) = answer(alloc, &mut tree, row.2, row.3)?;
    match answer {
        Ok(_) => Some(false),
        Err(found) => Some(found == fault(alloc, row.4)?),
    }
}

#[test]
fn first_refusal_counts(rt: HostRuntime) -> Result<(), Fail> {
    let alloc = rt.alloc();
    for (number, row) in REFUSED.iter().enumerate() {
        assert_eq!(rt; is_refused(alloc, *row), Some(true), "row {number}");
    }
    Ok(())
}

#[test]
fn each_name_is_counted_once(rt: HostRuntime) -> Result<(), Fail> {
    let alloc = rt.alloc();
    let mut tree = tree_of(alloc, b"", &[]).expect(&rt, "a tree");
    let (answer, left) = answer(alloc, &mut tree, b"r/file", 27).expect(&rt, "parts");
    assert!(rt; answer.is_ok());
    assert_eq!(rt; left, 0);
    Ok(())
}

/// The job where the first package and its target have a file so many segments below them.
fn deep(alloc: Global, source: u32, target: u32) -> Option<Answer> {
    let mut tree = tree_of(alloc, b"p/vendor/acme/file", &[])?;
    put_deep(alloc, &mut tree, b"deep", source)?;
    put_deep(alloc, &mut tree, b"p/vendor/acme/file", target)?;
    let (answer, _) = answer(alloc, &mut tree, b"deep", 999)?;
    Some(answer)
}

#[test]
fn deep_entries_differ_or_are_refused(rt: HostRuntime) -> Result<(), Fail> {
    let alloc = rt.alloc();
    let same = deep(alloc, 64, 64).expect(&rt, "a tree");
    assert!(rt; same.is_ok_and(|text| text.is_empty()));
    let differs = deep(alloc, 64, 65).expect(&rt, "a tree");
    assert!(rt; differs.is_ok_and(|text| text.as_slice() == b"vendor/acme/file<deep\n".as_slice()));
    let refused = deep(alloc, 65, 65).expect(&rt, "a tree");
    assert!(rt; matches!(refused, Err(StageFault::Limit(LimitKind::Depth(_)))));
    Ok(())
}

fn fails(alloc: Global, call: u64) -> Option<bool> {
    let mut tree = tree_of(alloc, b"", &[])?;
    tree.fail_at(alloc, &[call]).ok()?;
    let (answer, _) = answer(alloc, &mut tree, b"r/file", 99)?;
    Some(matches!(answer, Err(StageFault::DeviceFault)))
}

#[test]
fn each_call_fails(rt: HostRuntime) -> Result<(), Fail> {
    let alloc = rt.alloc();
    let mut tree = tree_of(alloc, b"", &[]).expect(&rt, "a tree");
    let (found, _) = answer(alloc, &mut tree, b"r/file", 99).expect(&rt, "parts");
    assert!(rt; found.is_ok());
    assert_eq!(rt; tree.calls(), 32);
    for call in 1..=tree.calls() {
        assert_eq!(rt; fails(alloc, call), Some(true), "call {call}");
    }
    Ok(())
}
