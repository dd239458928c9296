//! The folders that packages are copied from.

ghost use Rattle.std.specs.Prelude.{◌≡◌, ◌++◌, map, true, false, IsTrue, IfErr, IfOk, OnOk};
ghost use Rattle.std.specs.List.{AllByRecursion};
ghost use Rattle.tree_dev.specs.Device.{OfTold, OnlyRead};
ghost use Rattle.tree_dev.specs.Projects.{is_within};
ghost use Rattle.path_name.specs.Paths.{path_text};
ghost use Rattle.manifest_read.specs.Names.{is_package_name};
ghost use Rattle.lock_file.specs.FormedLocks.{IsLock, IsLocked};
ghost use Rattle.lock_file.specs.Locks.{locked_name};
ghost use Rattle.lock_file.specs.InstalledText.{IsByName, installed_dev};
ghost use Rattle.pkg_pool.specs.Patterns.{is_barred, is_installed};
ghost use Rattle.run_answers.specs.Faults.{is_device_fault, is_of_tree};
ghost use Rattle.run_answers.specs.Steps.{Tells, TellsOne};
ghost use Rattle.run_answers.specs.declared.refusal.Refusal.TheVariants as refusals;
ghost use Rattle.install_sources.specs.Sources.{AreMembers, AreSources, IsSource, copied_from, placed_each, placed_in, placed_name, source_checked, source_folder};

use crate::folders::package_folder;
use lock_file::{Lock, Locked};
use path_name::{Path, PathFault, Text};
use psr_routes::Placed;
use run_answers::Refusal;
use std::alloc::{AllocError, Global};
use tree_dev::{Kind, Tree};

/// The packages of a lock that are installed for development alone.
fn installed_dev(lock: &Lock, dev: bool) -> &[Locked]
    ensures { result.now ≡ installed_dev dev lock.now }
{
    if dev {
        lock.packages_dev.as_slice()
    } else {
        &[]
    }
}

/// Adds packages.
fn add_entries<'a>(entries: &mut Vec<&'a Locked>, some: &'a [Locked]) -> Result<(), AllocError>
    ensures { OnOk result (map (λ entry. entry.now) entries.new.items ≡ map (λ entry. entry.now) entries.old.items ++ some.now) }
{
    for locked in some {
        entries.push(locked)?;
    }
    Ok(())
}

/// Puts packages in byte order of name.
fn sort_by_name(entries: &mut Vec<&Locked>) -> Result<(), AllocError>
    ensures { OnOk result (IsByName (map (λ entry. entry.now) entries.old.items) (map (λ entry. entry.now) entries.new.items)) }
{
    entries.sort_by(|a, b| a.package.name.cmp(&b.package.name))?;
    Ok(())
}

/// The packages of a lock that are to be installed, in byte order of name.
fn entries_of(alloc: Global, lock: &Lock, dev: bool) -> Result<Vec<&Locked>, AllocError>
    ensures { IfOk result (λ entries. IsByName (lock.now.packages ++ installed_dev dev lock.now) (map (λ entry. entry.now) entries.items)) }
{
    let mut entries = Vec::new(alloc);
    add_entries(&mut entries, lock.packages.as_slice())?;
    add_entries(&mut entries, installed_dev(lock, dev))?;
    sort_by_name(&mut entries)?;
    Ok(entries)
}

/// The folder of a package, by its url. `MissingPath`: the url leads above the tree's root.
#[tactic(auto, unfolding(crate::specs::Sources::source_folder))]
fn source_folder(alloc: Global, project: &Path, locked: &Locked) -> Result<Path, Refusal>
    ensures told { Tells (λ at. at) (source_folder project.now locked.now) result }
    ensures no_device { is_device_fault result ≡ false }
    ensures causes { IfErr result (λ refusal. IsTrue (is_of_tree refusal)) }
{
    match locked.url.resolve(alloc, project) {
        Ok(at) => Ok(at),
        Err(PathFault::OutOfMemory) => Err(Refusal::OutOfMemory),
        Err(PathFault::AboveRoot(_)) => Err(Refusal::MissingPath(locked.url.text(alloc)?)),
        Err(PathFault::BadSegment(_)) => Err(Refusal::MissingPath(locked.url.text(alloc)?)),
    }
}

/// Whether a path is at or below a folder.
fn is_within(folder: &Path, at: &Path) -> bool
    ensures { result ≡ is_within folder.now at.now }
{
    at.starts_with(folder)
}

/// Whether a path is at or below what an install writes in the project.
#[tactic(auto, unfolding(pkg_pool::specs::Patterns::is_installed))]
fn is_installed(alloc: Global, project: &Path, at: &Path) -> Result<bool, AllocError>
    ensures { IfOk result (λ installed. installed ≡ is_installed project.now at.now) }
{
    let vendor = project.child(alloc, b"vendor")?;
    let work = project.child(alloc, b".install")?;
    Ok(is_within(&vendor, at) || is_within(&work, at))
}

/// Whether a path can be no package's folder: the project's, one above it, or what an install writes.
#[tactic(auto, unfolding(pkg_pool::specs::Patterns::is_barred))]
fn is_barred(alloc: Global, project: &Path, at: &Path) -> Result<bool, AllocError>
    ensures { IfOk result (λ barred. barred ≡ is_barred project.now at.now) }
{
    if is_within(at, project) {
        return Ok(true);
    }
    is_installed(alloc, project, at)
}

/// The refusal of a folder that is absent, or taken to be.
fn missing(alloc: Global, at: &Path) -> Result<Refusal, AllocError>
    ensures { IfOk result (λ refusal. refusal ≡ refusals.MissingPath (path_text at.now)) }
{
    Ok(Refusal::MissingPath(Text::copy_of(alloc, at.text())?))
}

/// Refuses where no folder is at a path. `MissingPath`: nothing is there, or what can be no package's folder. `OtherEntry`:
/// something else is.
#[tactic(auto, unfolding(crate::specs::Sources::source_checked))]
fn checked_source<T: Tree>(
    alloc: Global,
    project: &Path,
    at: Path,
    tree: &mut T,
) -> Result<Path, Refusal>
    ensures told { OfTold (T.meaning tree.old) (λ t. Tells (λ at. at) (source_checked t project.now at) result) }
    ensures same { IfOk result (λ checked. checked ≡ at) }
    ensures allowed { IfOk result (λ checked. is_barred project.now checked ≡ false) }
    ensures only_read { OnlyRead (T.meaning tree.old) (T.meaning tree.new) (is_device_fault result) }
    ensures causes { IfErr result (λ refusal. IsTrue (is_of_tree refusal)) }
{
    if is_barred(alloc, project, &at)? {
        return Err(missing(alloc, &at)?);
    }
    match tree.stat(&at)? {
        Kind::Absent => Err(missing(alloc, &at)?),
        Kind::File | Kind::Other => Err(Refusal::OtherEntry(at)),
        Kind::Folder => Ok(at),
    }
}

/// A package that is read at its source, and is shown where its copy will stand.
fn placed_at(alloc: Global, project: &Path, locked: &Locked, at: Path) -> Result<Placed, AllocError>
    requires { is_package_name locked.now.package.name ≡ true }
    ensures { IfOk result (λ placed. placed ≡ copied_from project.now locked.now.package at) }
{
    let package = locked.package.copy(alloc)?;
    let shown = package_folder(alloc, project, &package.name)?;
    Ok(Placed {
        package,
        at,
        shown,
        mirrored: true,
    })
}

/// A package in its place. The refusals are those of its folder.
#[tactic(auto, unfolding(crate::specs::Sources::placed_in))]
fn placed<T: Tree>(
    alloc: Global,
    project: &Path,
    locked: &Locked,
    tree: &mut T,
) -> Result<Placed, Refusal>
    requires formed { IsLocked locked.now }
    ensures told { OfTold (T.meaning tree.old) (λ t. Tells (λ placed. placed) (placed_in t project.now locked.now) result) }
    ensures source { IfOk result (IsSource project.now) }
    ensures name { IfOk result (λ placed. placed.package.name ≡ locked.now.package.name) }
    ensures only_read { OnlyRead (T.meaning tree.old) (T.meaning tree.new) (is_device_fault result) }
    ensures causes { IfErr result (λ refusal. IsTrue (is_of_tree refusal)) }
{
    let at = source_folder(alloc, project, locked)?;
    let at = checked_source(alloc, project, at, tree)?;
    Ok(placed_at(alloc, project, locked, at)?)
}

/// Packages in their places, in the order that is given. The first refusal counts.
fn placed_each<T: Tree>(
    alloc: Global,
    project: &Path,
    entries: &[&Locked],
    tree: &mut T,
) -> Result<Vec<Placed>, Refusal>
    requires formed { AllByRecursion IsLocked (map (λ entry. entry.now) entries.now) }
    ensures told { OfTold (T.meaning tree.old) (λ t. Tells (λ members. members.items) (placed_each t project.now (map (λ entry. entry.now) entries.now)) result) }
    ensures sources { IfOk result (λ members. AllByRecursion (IsSource project.now) members.items) }
    ensures names { IfOk result (λ members. map placed_name members.items ≡ map (λ entry. locked_name entry.now) entries.now) }
    ensures only_read { OnlyRead (T.meaning tree.old) (T.meaning tree.new) (is_device_fault result) }
    ensures causes { IfErr result (λ refusal. IsTrue (is_of_tree refusal)) }
{
    let mut members = Vec::with_capacity(alloc, entries.len())?;
    for entry in entries {
        members.push(placed(alloc, project, *entry, tree)?)?;
    }
    Ok(members)
}

/// The packages of a lock that are to be installed, in byte order of name, each at its source, as its copy will be seen.
/// `MissingPath`: a url leads above the tree's root, or to nothing, or to what can be no package's folder. `OtherEntry`: it
/// leads to something else than a folder. The first package in this order is refused.
pub fn members<T: Tree>(
    alloc: Global,
    project: &Path,
    lock: &Lock,
    dev: bool,
    tree: &mut T,
) -> Result<Vec<Placed>, Refusal>
    requires formed { IsLock lock.now }
    ensures told { OfTold (T.meaning tree.old) (λ t. TellsOne (λ members. members.items) (AreMembers t project.now lock.now dev) result) }
    ensures sources { IfOk result (λ members. AreSources project.now members.items) }
    ensures only_read { OnlyRead (T.meaning tree.old) (T.meaning tree.new) (is_device_fault result) }
    ensures causes { IfErr result (λ refusal. IsTrue (is_of_tree refusal)) }
{
    let entries = entries_of(alloc, lock, dev)?;
    placed_each(alloc, project, entries.as_slice(), tree)
}
