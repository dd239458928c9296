mod device;
mod works;

use device::{Lost, Quiet};
use install_world::finish_install;
use path_name::{Path, Text};
use run_answers::{Place, Refusal};
use std::alloc::Global;
use std::test::Fail;
use tree_dev::{Entry, Kind, MemoryTree, ReadAnswer, Tree};
use works::{Begun, ended};

/// A file by its path and its bytes; with no bytes, a path at which no file is.
#[derive(Clone, Copy)]
struct File(&'static [u8], &'static [u8]);

/// The files of the project before.
static OLD: [File; 5] = [
    File(b"p/composer.json", b"{}"),
    File(b"p/composer.lock", b"old"),
    File(b"p/vendor/a", b"old"),
    File(b"p/vendor/b/c", b"old"),
    File(b"p/app.php", b"app"),
];

/// The files of the project once the work is committed.
static NEW: [File; 5] = [
    File(b"p/composer.json", b"{}"),
    File(b"p/composer.lock", b"new"),
    File(b"p/vendor/a", b"new"),
    File(b"p/vendor/b/c", b""),
    File(b"p/app.php", b"app"),
];

fn put(alloc: Global, tree: &mut MemoryTree, at: &[u8], entry: Entry) -> Option<()> {
    tree.put(alloc, &Path::read(alloc, at).ok()?, entry).ok()?;
    Some(())
}

/// The tree before.
fn before(alloc: Global) -> Option<MemoryTree> {
    let mut tree = MemoryTree::new(alloc).ok()?;
    for file in &OLD {
        let bytes = Text::copy_of(alloc, file.1).ok()?;
        put(alloc, &mut tree, file.0, Entry::File(bytes))?;
    }
    Some(tree)
}

fn stands(alloc: Global, tree: &mut MemoryTree, file: File) -> Option<bool> {
    let path = Path::read(alloc, file.0).ok()?;
    match tree.read(alloc, &path, 9).ok()? {
        ReadAnswer::Bytes(text) => Some(text.as_slice() == file.1),
        _ => Some(file.1.is_empty()),
    }
}

fn all_stand(alloc: Global, tree: &mut MemoryTree, files: &[File]) -> Option<bool> {
    for file in files {
        if !stands(alloc, tree, *file)? {
            return Some(false);
        }
    }
    Some(true)
}

/// Whether the project is claimed.
fn is_claimed(alloc: Global, tree: &mut MemoryTree) -> Option<bool> {
    let work = Path::read(alloc, b"p/.install").ok()?;
    Some(tree.stat(&work).ok()? != Kind::Absent)
}

fn is_line(answer: &Result<Text, Refusal>) -> bool {
    match answer {
        Ok(lines) => lines.as_slice() == b"done\n".as_slice(),
        Err(_) => false,
    }
}

/// Whether the work ends with its line in a new project, and no claim is left.
fn commits(alloc: Global) -> Option<bool> {
    let mut device = Quiet::over(before(alloc)?, Lost::Nothing);
    let answer = ended(alloc, &mut device, Begun::Work)?;
    let new = all_stand(alloc, &mut device.tree, &NEW)?;
    Some(is_line(&answer) && new && !is_claimed(alloc, &mut device.tree)?)
}

#[test]
fn work_is_committed(rt: HostRuntime) -> Result<(), Fail> {
    assert_eq!(rt; commits(rt.alloc()), Some(true));
    Ok(())
}

/// Whether work that changes nothing ends with its line, and no claim is left.
fn changes_nothing(alloc: Global) -> Option<bool> {
    let mut device = Quiet::over(before(alloc)?, Lost::Nothing);
    let answer = ended(alloc, &mut device, Begun::NoWork)?;
    let old = all_stand(alloc, &mut device.tree, &OLD)?;
    let quiet = device.tree.writes() == 0 && !is_claimed(alloc, &mut device.tree)?;
    Some(is_line(&answer) && old && quiet)
}

#[test]
fn no_work_changes_nothing(rt: HostRuntime) -> Result<(), Fail> {
    assert_eq!(rt; changes_nothing(rt.alloc()), Some(true));
    Ok(())
}

/// Whether a refusal under the claim is the answer, the old project stands, and no claim is left.
fn refuses(alloc: Global) -> Option<bool> {
    let mut device = Quiet::over(before(alloc)?, Lost::Nothing);
    let answer = ended(alloc, &mut device, Begun::Refused)?;
    let old = all_stand(alloc, &mut device.tree, &OLD)?;
    Some(answer == Err(Refusal::NoPlan) && old && !is_claimed(alloc, &mut device.tree)?)
}

#[test]
fn refused_work_is_released(rt: HostRuntime) -> Result<(), Fail> {
    assert_eq!(rt; refuses(rt.alloc()), Some(true));
    Ok(())
}

/// Whether a project in which something is at `.install` is refused by the first call.
fn is_unfinished(alloc: Global, entry: Entry) -> Option<bool> {
    let mut tree = before(alloc)?;
    put(alloc, &mut tree, b"p/.install", entry)?;
    let mut device = Quiet::over(tree, Lost::Nothing);
    let answer = ended(alloc, &mut device, Begun::Work)?;
    let old = all_stand(alloc, &mut device.tree, &OLD)?;
    Some(answer == Err(Refusal::Unfinished) && old && is_claimed(alloc, &mut device.tree)?)
}

#[test]
fn claimed_projects_are_unfinished(rt: HostRuntime) -> Result<(), Fail> {
    let alloc = rt.alloc();
    assert_eq!(rt; is_unfinished(alloc, Entry::Folder), Some(true));
    assert_eq!(rt; is_unfinished(alloc, Entry::Other), Some(true));
    Ok(())
}

/// What a project that is no folder is refused for.
fn without_folder(alloc: Global) -> Option<Result<Text, Refusal>> {
    let mut device = Quiet::over(MemoryTree::new(alloc).ok()?, Lost::Nothing);
    ended(alloc, &mut device, Begun::Work)
}

/// What a project is refused for whose folder comes only after the claim found none.
fn with_late_folder(alloc: Global) -> Option<Result<Text, Refusal>> {
    let mut device = Quiet::over(before(alloc)?, Lost::MakeDir);
    ended(alloc, &mut device, Begun::Work)
}

#[test]
fn lost_projects_are_refused(rt: HostRuntime) -> Result<(), Fail> {
    let alloc = rt.alloc();
    assert!(rt; without_folder(alloc) == Some(Err(Refusal::NoManifest)));
    let work = Path::read(alloc, b"p/.install")?;
    let vanished = Refusal::Vanished(Place::Entry(work));
    assert!(rt; with_late_folder(alloc) == Some(Err(vanished)));
    Ok(())
}

/// Whether a commit that finds no place is told of, and leaves the claim for recovery.
fn leaves_the_claim(alloc: Global) -> Option<bool> {
    let mut device = Quiet::over(before(alloc)?, Lost::Rename);
    let answer = ended(alloc, &mut device, Begun::Work)?;
    let vanished = matches!(answer, Err(Refusal::Vanished(Place::Part(_))));
    Some(vanished && is_claimed(alloc, &mut device.tree)?)
}

#[test]
fn vanished_parts_are_not_released(rt: HostRuntime) -> Result<(), Fail> {
    assert_eq!(rt; leaves_the_claim(rt.alloc()), Some(true));
    Ok(())
}

/// How many calls the work makes.
fn calls(alloc: Global) -> Option<u64> {
    let mut device = Quiet::over(before(alloc)?, Lost::Nothing);
    let answer = ended(alloc, &mut device, Begun::Work)?;
    if is_line(&answer) {
        Some(device.tree.calls())
    } else {
        None
    }
}

/// The device of work whose call of this number fails, where a fault of the device is the answer and no call came after it.
fn failed(alloc: Global, call: u64) -> Option<Quiet> {
    let mut tree = before(alloc)?;
    tree.fail_at(alloc, &[call]).ok()?;
    let mut device = Quiet::over(tree, Lost::Nothing);
    let answer = ended(alloc, &mut device, Begun::Work)?;
    if device.tree.calls() == call && answer == Err(Refusal::DeviceFault) {
        Some(device)
    } else {
        None
    }
}

/// Whether recovery makes the old project or the new one of a tree, and takes the claim away.
fn recovers(alloc: Global, tree: &mut MemoryTree) -> Option<bool> {
    finish_install(alloc, tree, &Path::read(alloc, b"p").ok()?).ok()?;
    let whole = all_stand(alloc, tree, &OLD)? || all_stand(alloc, tree, &NEW)?;
    Some(whole && !is_claimed(alloc, tree)?)
}

/// Whether a crash that keeps part of what is pending once a call failed leaves what recovery makes the old project or the
/// new one.
fn fails_well(alloc: Global, call: u64, quarters: u64) -> Option<bool> {
    let mut device = failed(alloc, call)?;
    let pending = device.tree.pending();
    let applied = (pending / 4).saturating_mul(quarters).min(pending);
    let torn = Some(b"?".as_slice());
    device.tree.crash(alloc, applied, torn).ok()?;
    recovers(alloc, &mut device.tree)
}

#[test]
fn each_call_fails(rt: HostRuntime) -> Result<(), Fail> {
    let alloc = rt.alloc();
    let calls = calls(alloc).expect(&rt, "a line");
    for call in 1..=calls {
        for quarters in 0..=4 {
            assert_eq!(rt;
                fails_well(alloc, call, quarters),
                Some(true),
                "call {call}"
            );
        }
    }
    Ok(())
}
