//! Jobs whose commit is stopped at each of its calls, and their recovery too, each followed by a crash.

use super::jobs::{OVER_FILES, OVER_FOLDERS, OVER_NOTHING, SEVERAL, Staged, journal, tree_of};
use super::projects::{is_kind, is_whole};
use crate::{CommitFault, Hold, Prepared, commit, prepare};
use install_world::{RecoverFault, finish_install};
use path_name::Path;
use std::alloc::Global;
use std::process::Abort;
use std::test::Fail;
use tree_dev::{Kind, MemoryTree};

/// A stop behind so many calls, and a crash.
#[derive(Clone, Copy)]
struct Cut {
    /// How many calls are made.
    calls: u64,
    /// How many of the pending changes are kept.
    kept: u64,
    /// The bytes of each file that may hold any.
    torn: Option<&'static [u8]>,
}

/// More calls than a commit or a recovery of these jobs makes.
const ENOUGH: u64 = 200;

fn crash(alloc: Global, tree: &mut MemoryTree, cut: Cut) -> Result<(), Fail> {
    let applied = tree.pending().min(cut.kept);
    tree.crash(alloc, applied, cut.torn)?;
    Ok(())
}

/// Commits a job until the calls are made. Whether it came to its end.
fn commit_up_to(alloc: Global, tree: &mut MemoryTree, prepared: &Prepared, calls: u64) -> bool {
    let hold = Hold {
        project: Path::root(alloc),
    };
    tree.stop_at(tree.calls().saturating_add(calls).saturating_add(1));
    commit(tree, &hold, prepared) != Err(CommitFault::DeviceFault)
}

/// Recovers a project until the calls are made. Whether it came to its end.
fn recover_up_to(alloc: Global, tree: &mut MemoryTree, calls: u64) -> bool {
    tree.stop_at(tree.calls().saturating_add(calls).saturating_add(1));
    finish_install(alloc, tree, &Path::root(alloc)) != Err(RecoverFault::DeviceFault)
}

fn has_journal(alloc: Global, tree: &mut MemoryTree) -> Result<bool, Fail> {
    is_kind(alloc, tree, ".install/journal", Kind::File)
}

/// Whether recovery makes the new project, or, where the job was not committed, may make the old one; nothing is then at
/// `.install`.
fn is_recovered(
    alloc: Global,
    tree: &mut MemoryTree,
    staged: &Staged,
    committed: bool,
) -> Result<bool, Fail> {
    finish_install(alloc, tree, &Path::root(alloc))?;
    is_whole(alloc, tree, staged, !committed)
}

/// Whether this is so of a commit that is cut off.
fn ends_well(alloc: Global, staged: &Staged, prepared: &Prepared, cut: Cut) -> Result<bool, Fail> {
    let mut tree = tree_of(alloc, staged)?;
    let ended = commit_up_to(alloc, &mut tree, prepared, cut.calls);
    crash(alloc, &mut tree, cut)?;
    let committed = ended || has_journal(alloc, &mut tree)?;
    is_recovered(alloc, &mut tree, staged, committed)
}

/// What a crash leaves of a commit that is cut off.
fn image(
    alloc: Global,
    staged: &Staged,
    prepared: &Prepared,
    cut: Cut,
) -> Result<MemoryTree, Fail> {
    let mut tree = tree_of(alloc, staged)?;
    commit_up_to(alloc, &mut tree, prepared, cut.calls);
    crash(alloc, &mut tree, cut)?;
    Ok(tree)
}

/// Whether it ends as well where recovery was cut off, all that it changed is kept, and it is run again.
fn ends_well_again(
    alloc: Global,
    tree: &mut MemoryTree,
    staged: &Staged,
    committed: bool,
) -> Result<bool, Fail> {
    tree.crash(alloc, tree.pending(), None)?;
    is_recovered(alloc, tree, staged, committed)
}

/// Whether the recovery of what is left of a commit can be cut off at each of its calls. A call that changes nothing leaves
/// what is left behind the call before it, and fewer changes what all left behind an earlier one.
fn recovery_can_be_cut(
    alloc: Global,
    staged: &Staged,
    prepared: &Prepared,
    cut: Cut,
) -> Result<bool, Fail> {
    let mut before = u64::MAX;
    for calls in 0..ENOUGH {
        let mut tree = image(alloc, staged, prepared, cut)?;
        let committed = has_journal(alloc, &mut tree)?;
        let ended = recover_up_to(alloc, &mut tree, calls);
        let now = tree.pending();
        if now != before && !ends_well_again(alloc, &mut tree, staged, committed)? {
            return Ok(false);
        }
        if ended {
            return Ok(true);
        }
        before = now;
    }
    Ok(false)
}

/// Whether a commit that is cut off behind so many calls ends well with each number of its pending changes.
fn all_end_well(
    alloc: Global,
    staged: &Staged,
    prepared: &Prepared,
    calls: u64,
    pending: u64,
) -> Result<bool, Fail> {
    for kept in 0..=pending {
        let whole = Cut {
            calls,
            kept,
            torn: None,
        };
        let torn = Cut {
            calls,
            kept,
            torn: Some(b"torn".as_slice()),
        };
        if !ends_well(alloc, staged, prepared, whole)?
            || !ends_well(alloc, staged, prepared, torn)?
        {
            return Ok(false);
        }
    }
    Ok(true)
}

/// Whether it does so, and its recovery can be cut off too where all changes are kept: fewer leave what all left behind an
/// earlier call.
fn end_well_here(
    alloc: Global,
    staged: &Staged,
    prepared: &Prepared,
    calls: u64,
    pending: u64,
) -> Result<bool, Fail> {
    let torn = Cut {
        calls,
        kept: pending,
        torn: Some(b"torn".as_slice()),
    };
    Ok(
        all_end_well(alloc, staged, prepared, calls, pending)?
            && recovery_can_be_cut(alloc, staged, prepared, torn)?,
    )
}

/// Whether a commit can be cut off at each of its calls. A call that changes nothing leaves what is left behind the call
/// before it.
fn can_be_cut(alloc: Global, staged: &Staged) -> Result<bool, Fail> {
    let hold = Hold {
        project: Path::root(alloc),
    };
    let prepared = prepare(alloc, &hold, &journal(alloc, staged)?)?;
    let mut before = u64::MAX;
    for calls in 0..ENOUGH {
        let mut tree = tree_of(alloc, staged)?;
        let ended = commit_up_to(alloc, &mut tree, &prepared, calls);
        let now = tree.pending();
        if now != before && !end_well_here(alloc, staged, &prepared, calls, now)? {
            return Ok(false);
        }
        if ended {
            return Ok(true);
        }
        before = now;
    }
    Ok(false)
}

fn all_can_be_cut(rt: &impl Abort, alloc: Global, jobs: &[Staged]) -> Result<(), Fail> {
    for staged in jobs {
        assert!(rt; can_be_cut(alloc, staged)?, "{}", staged.name);
    }
    Ok(())
}

#[test]
fn commits_over_files_can_be_cut_off(rt: HostRuntime) -> Result<(), Fail> {
    all_can_be_cut(&rt, rt.alloc(), &OVER_FILES)
}

#[test]
fn commits_over_folders_can_be_cut_off(rt: HostRuntime) -> Result<(), Fail> {
    all_can_be_cut(&rt, rt.alloc(), &OVER_FOLDERS)
}

#[test]
fn commits_over_nothing_can_be_cut_off(rt: HostRuntime) -> Result<(), Fail> {
    all_can_be_cut(&rt, rt.alloc(), &OVER_NOTHING)
}

#[test]
fn commits_of_several_parts_can_be_cut_off(rt: HostRuntime) -> Result<(), Fail> {
    all_can_be_cut(&rt, rt.alloc(), &SEVERAL)
}
