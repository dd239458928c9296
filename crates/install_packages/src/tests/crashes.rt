//! Updates that are stopped at a call, crashed and recovered, and how much an update writes.

use super::installs::{has, put, tree_of};
use super::projects::SHOP;
use super::standing::{Standing, standing_in, tree_with};
use crate::{install, update};
use composer_words::Ways;
use install_world::{RecoverFault, Recovered, finish_install};
use path_name::Path;
use run_answers::Refusal;
use std::alloc::Global;
use std::process::Abort;
use std::test::Fail;
use tree_dev::{Kind, MemorySink, MemoryTree, Tree};

const PLAIN: Ways = Ways {
    optimised: false,
    authoritative: false,
    no_dev: false,
};

/// What the shop's package of the log says in its next version.
const NEXT: &str =
    "{\"name\":\"acme/log\",\"version\":\"1.3.0\",\"require\":{\"acme/clock\":\"^2.0\"},\"autoload\":{\"psr-4\":{\"Acme\\\\Log\\\\\":\"src\"},\"files\":[\"boot.php\"]}}";

/// The shop, installed.
fn shop(alloc: Global) -> Result<MemoryTree, Fail> {
    let mut tree = tree_of(alloc, &SHOP)?;
    let mut errs = MemorySink::new(alloc, None)?;
    install(alloc, &Path::root(alloc), &PLAIN, &mut tree, &mut errs)?;
    tree.barrier()?;
    Ok(tree)
}

/// The shop, installed, with the next version of a package beside it.
fn shop_with_next(alloc: Global) -> Result<MemoryTree, Fail> {
    let mut tree = shop(alloc)?;
    put(alloc, &mut tree, "packages/log/composer.json", NEXT)?;
    Ok(tree)
}

/// Whether the project is the one that has these pieces in its files.
fn is(
    alloc: Global,
    tree: &mut MemoryTree,
    pieces: &[(&'static str, &'static str)],
) -> Result<bool, Fail> {
    for (at, piece) in pieces {
        if !has(alloc, tree, *at, *piece)? {
            return Ok(false);
        }
    }
    Ok(true)
}

/// The old project.
const OLD: [(&str, &str); 6] = [
    ("vendor/acme/log/composer.json", "1.2.5"),
    ("vendor/acme/log/boot.php", "boot"),
    ("vendor/acme/clock/src/Utc.php", "Utc"),
    ("composer.lock", "1.2.5"),
    ("vendor/composer/installed.json", "1.2.5"),
    ("vendor/composer/autoload_state.php", "'generation' => 1,"),
];

/// The new project.
const NEW: [(&str, &str); 6] = [
    ("vendor/acme/log/composer.json", "1.3.0"),
    ("vendor/acme/log/boot.php", "boot"),
    ("vendor/acme/clock/src/Utc.php", "Utc"),
    ("composer.lock", "1.3.0"),
    ("vendor/composer/installed.json", "1.3.0"),
    ("vendor/composer/autoload_state.php", "'generation' => 2,"),
];

/// The surroundings of the project.
const OUTSIDE: [(&str, &str); 3] = [
    ("packages/log/composer.json", "1.3.0"),
    ("packages/mail/composer.json", "acme/mail"),
    ("src/Home.php", "Home"),
];

/// A stop behind so many calls, and a crash.
#[derive(Clone, Copy)]
struct Cut {
    /// How many calls are made.
    calls: u64,
    /// How many of the pending changes are kept.
    kept: u64,
    /// The bytes of each file that may hold any.
    torn: Option<&'static [u8]>,
}

/// What an update begins with, and what it makes of that.
#[derive(Debug, Drop)]
struct Update {
    old: Standing,
    new: Standing,
}

/// More calls than an update or a recovery makes.
const ENOUGH: u64 = 1_000;

/// Updates a project until the calls are made. Whether it came to its end.
fn update_up_to(alloc: Global, tree: &mut MemoryTree, calls: u64) -> bool {
    tree.stop_at(tree.calls().saturating_add(calls).saturating_add(1));
    update(alloc, &Path::root(alloc), &PLAIN, tree) != Err(Refusal::DeviceFault)
}

/// Recovers a project until the calls are made. Whether it came to its end.
fn recover_up_to(alloc: Global, tree: &mut MemoryTree, calls: u64) -> bool {
    tree.stop_at(tree.calls().saturating_add(calls).saturating_add(1));
    finish_install(alloc, tree, &Path::root(alloc)) != Err(RecoverFault::DeviceFault)
}

fn crash(alloc: Global, tree: &mut MemoryTree, cut: Cut) -> Result<(), Fail> {
    let applied = tree.pending().min(cut.kept);
    tree.crash(alloc, applied, cut.torn)?;
    Ok(())
}

fn is_there(alloc: Global, tree: &mut MemoryTree, at: &'static str) -> Result<bool, Fail> {
    Ok(tree.stat(&Path::read(alloc, at.as_bytes())?)? != Kind::Absent)
}

/// Whether recovery makes the new project, or, where it was not committed, may make the old one, with nothing else changed.
fn is_recovered(
    alloc: Global,
    tree: &mut MemoryTree,
    shop: &Update,
    committed: bool,
) -> Result<bool, Fail> {
    finish_install(alloc, tree, &Path::root(alloc))?;
    if is_there(alloc, tree, ".install")? {
        return Ok(false);
    }
    let found = standing_in(alloc, tree)?;
    let old = !committed && found.files.as_slice() == shop.old.files.as_slice();
    Ok(old || found.files.as_slice() == shop.new.files.as_slice())
}

/// Whether this is so of an update that is cut off.
fn ends_well(alloc: Global, shop: &Update, cut: Cut) -> Result<bool, Fail> {
    let mut tree = tree_with(alloc, &shop.old)?;
    let ended = update_up_to(alloc, &mut tree, cut.calls);
    crash(alloc, &mut tree, cut)?;
    let committed = ended || is_there(alloc, &mut tree, ".install/journal")?;
    is_recovered(alloc, &mut tree, shop, committed)
}

/// Whether it ends with the new project where a recovery is cut off, and run again.
fn ends_new(alloc: Global, left: &Standing, shop: &Update, cut: Cut) -> Result<bool, Fail> {
    let mut tree = tree_with(alloc, left)?;
    recover_up_to(alloc, &mut tree, cut.calls);
    crash(alloc, &mut tree, cut)?;
    is_recovered(alloc, &mut tree, shop, true)
}

/// Whether it does so with none of these pending changes, and with all of them.
fn both_end_new(
    alloc: Global,
    left: &Standing,
    shop: &Update,
    calls: u64,
    pending: u64,
) -> Result<bool, Fail> {
    let none = Cut {
        calls,
        kept: 0,
        torn: None,
    };
    let all = Cut {
        calls,
        kept: pending,
        torn: None,
    };
    Ok(ends_new(alloc, left, shop, none)? && ends_new(alloc, left, shop, all)?)
}

/// Whether a recovery of what is left can be cut off at each of its calls. One that changes nothing leaves what is left behind
/// the call before it.
fn recovery_can_be_cut(alloc: Global, left: &Standing, shop: &Update) -> Result<bool, Fail> {
    let mut before = u64::MAX;
    for calls in 0..ENOUGH {
        let mut tree = tree_with(alloc, left)?;
        let ended = recover_up_to(alloc, &mut tree, calls);
        let now = tree.pending();
        if now != before && !both_end_new(alloc, left, shop, calls, now)? {
            return Ok(false);
        }
        if ended {
            return Ok(true);
        }
        before = now;
    }
    Ok(false)
}

/// Whether it can where a journal is left of an update that is cut off and keeps all its changes.
fn recovery_is_safe(alloc: Global, shop: &Update, cut: Cut) -> Result<bool, Fail> {
    let mut tree = tree_with(alloc, &shop.old)?;
    update_up_to(alloc, &mut tree, cut.calls);
    crash(alloc, &mut tree, cut)?;
    if !is_there(alloc, &mut tree, ".install/journal")? {
        return Ok(true);
    }
    recovery_can_be_cut(alloc, &standing_in(alloc, &mut tree)?, shop)
}

/// Whether an update that is cut off behind so many calls ends well with each number of its pending changes.
fn all_end_well(alloc: Global, shop: &Update, calls: u64, pending: u64) -> Result<bool, Fail> {
    for kept in 0..=pending {
        let whole = Cut {
            calls,
            kept,
            torn: None,
        };
        let torn = Cut {
            calls,
            kept,
            torn: Some(b"torn".as_slice()),
        };
        if !ends_well(alloc, shop, whole)? || !ends_well(alloc, shop, torn)? {
            return Ok(false);
        }
    }
    Ok(true)
}

/// Whether it does so, and its recovery can be cut off too where all changes are kept: fewer leave what all left behind an
/// earlier call.
fn end_well_here(alloc: Global, shop: &Update, calls: u64, pending: u64) -> Result<bool, Fail> {
    let torn = Cut {
        calls,
        kept: pending,
        torn: Some(b"torn".as_slice()),
    };
    Ok(all_end_well(alloc, shop, calls, pending)? && recovery_is_safe(alloc, shop, torn)?)
}

/// Whether an update can be cut off at each of its calls. One that changes nothing leaves what is left behind the call before
/// it.
fn can_be_cut(alloc: Global, shop: &Update) -> Result<bool, Fail> {
    let mut before = u64::MAX;
    for calls in 0..ENOUGH {
        let mut tree = tree_with(alloc, &shop.old)?;
        let ended = update_up_to(alloc, &mut tree, calls);
        let now = tree.pending();
        if now != before && !end_well_here(alloc, shop, calls, now)? {
            return Ok(false);
        }
        if ended {
            return Ok(true);
        }
        before = now;
    }
    Ok(false)
}

/// The update of the shop, if it leaves what is around the project.
fn update_of_shop(alloc: Global) -> Result<Option<Update>, Fail> {
    let mut tree = shop_with_next(alloc)?;
    let old = standing_in(alloc, &mut tree)?;
    let before = is(alloc, &mut tree, &OLD)? && is(alloc, &mut tree, &OUTSIDE)?;
    update(alloc, &Path::root(alloc), &PLAIN, &mut tree)?;
    let new = standing_in(alloc, &mut tree)?;
    if before && is(alloc, &mut tree, &NEW)? && is(alloc, &mut tree, &OUTSIDE)? {
        Ok(Some(Update { old, new }))
    } else {
        Ok(None)
    }
}

#[test]
fn updates_can_be_cut_off(rt: HostRuntime) -> Result<(), Fail> {
    let alloc = rt.alloc();
    let shop = update_of_shop(alloc)?;
    assert!(rt; shop.is_some());
    if let Some(shop) = shop {
        assert!(rt; can_be_cut(alloc, &shop)?);
    }
    Ok(())
}

/// How many files an update writes.
fn writes(alloc: Global, tree: &mut MemoryTree) -> Result<u64, Fail> {
    let before = tree.writes();
    update(alloc, &Path::root(alloc), &PLAIN, tree)?;
    Ok(tree.writes().saturating_sub(before))
}

#[test]
fn updates_write_what_differs(rt: HostRuntime) -> Result<(), Fail> {
    let alloc = rt.alloc();
    let mut same = shop(alloc)?;
    assert!(rt; writes(alloc, &mut same)? <= 9);
    let mut next = shop_with_next(alloc)?;
    assert!(rt; writes(alloc, &mut next)? <= 12);
    assert!(rt; is(alloc, &mut next, &NEW)?);
    assert_eq!(rt; next.short(), 0);
    Ok(())
}

/// Whether an install of a tree whose seventh call fails ends with it, as a fault of the device.
fn stops_at_once(alloc: Global, tree: &mut MemoryTree) -> Result<bool, Fail> {
    let mut errs = MemorySink::new(alloc, None)?;
    let before = tree.calls();
    tree.fail_at(alloc, &[before.saturating_add(7)])?;
    let ended = install(alloc, &Path::root(alloc), &PLAIN, tree, &mut errs);
    Ok(ended == Err(Refusal::DeviceFault) && tree.calls().saturating_sub(before) == 7)
}

/// Whether a recovery takes away what was begun.
fn is_removed(alloc: Global, tree: &mut MemoryTree) -> Result<bool, Fail> {
    let recovered = finish_install(alloc, tree, &Path::root(alloc))?;
    Ok(recovered == Recovered::Removed)
}

#[test]
fn a_failed_call_is_the_last(rt: HostRuntime) -> Result<(), Fail> {
    let alloc = rt.alloc();
    let mut tree = tree_of(alloc, &SHOP)?;
    assert!(rt; stops_at_once(alloc, &mut tree)?);
    assert!(rt; is_removed(alloc, &mut tree)?);
    assert!(rt; has(alloc, &mut tree, "vendor/autoload.php", "")?);
    Ok(())
}
