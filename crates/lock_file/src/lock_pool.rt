//! The pool that a lock makes.

ghost use Rattle.std.specs.Prelude.{◌≡◌, ◌≢◌, ◌++◌, map, Ok};
ghost use Rattle.path_name.specs.Given.{Gives, GivesValue};
ghost use Rattle.path_name.specs.FolderRefs.{resolved};
ghost use Rattle.lock_file.specs.declared.fault.LockPoolFault.TheVariants.{AboveRoot, OutOfMemory};
ghost use Rattle.lock_file.specs.LockPools.{folder_or_fault, candidate_of, candidates_of, lock_pool_of};

use crate::fault::LockPoolFault;
use crate::types::{Lock, Locked};
use manifest_read::Manifest;
use path_name::{Items, Name, Path, PathFault};
use pkg_pool::{Candidate, Pool};
use std::alloc::Global;

fn above_root(alloc: Global, name: &Name) -> LockPoolFault
    ensures { result ≢ OutOfMemory → result ≡ AboveRoot name.now }
{
    match name.copy(alloc) {
        Ok(name) => LockPoolFault::AboveRoot(name),
        Err(_) => LockPoolFault::OutOfMemory,
    }
}

/// The folder of a locked package.
fn folder_of(alloc: Global, locked: &Locked, project: &Path) -> Result<Path, LockPoolFault>
    ensures { GivesValue OutOfMemory (folder_or_fault locked.now.«package».name (resolved locked.now.url project.now)) result }
{
    match locked.url.resolve(alloc, project) {
        Ok(folder) => Ok(folder),
        Err(PathFault::AboveRoot(_)) => Err(above_root(alloc, &locked.package.name)),
        Err(PathFault::BadSegment(_)) => Err(above_root(alloc, &locked.package.name)),
        Err(PathFault::OutOfMemory) => Err(LockPoolFault::OutOfMemory),
    }
}

/// The candidate that a locked package is.
#[tactic(auto, unfolding(crate::specs::LockPools::candidate_of))]
fn candidate_of(alloc: Global, locked: &Locked, project: &Path) -> Result<Candidate, LockPoolFault>
    ensures { GivesValue OutOfMemory (candidate_of project.now locked.now) result }
{
    let folder = folder_of(alloc, locked, project)?;
    let package = locked.package.copy(alloc)?;
    let url = locked.url.copy(alloc)?;
    let reference = locked.reference.copy(alloc)?;
    Ok(Candidate {
        package,
        repository: 0,
        url,
        folder,
        reference,
    })
}

/// The candidates that locked packages are.
fn candidates_of(
    alloc: Global,
    some: &[Locked],
    project: &Path,
) -> Result<Vec<Candidate>, LockPoolFault>
    ensures { Gives (λ candidates. candidates.items) OutOfMemory (candidates_of project.now some.now) result }
{
    let mut candidates = Vec::with_capacity(alloc, some.len())?;
    for locked in some {
        candidates.push(candidate_of(alloc, locked, project)?)?;
    }
    Ok(candidates)
}

/// The pool of a lock: the root, and the locked packages as candidates in order, those of `packages` first, each with
/// the repository number 0, and with the folder that its url names from the project.
///
/// Refuses `AboveRoot(name)` for the first package whose url leads above the tree's root. A refused call drops the root.
#[tactic(auto, unfolding(crate::specs::LockPools::lock_pool_of))]
pub fn pool_of(
    alloc: Global,
    root: Manifest,
    lock: &Lock,
    project: &Path,
) -> Result<Pool, LockPoolFault>
    ensures { GivesValue OutOfMemory (lock_pool_of root lock.now project.now) result }
{
    let mut candidates = candidates_of(alloc, lock.packages.as_slice(), project)?;
    let mut candidates_dev = candidates_of(alloc, lock.packages_dev.as_slice(), project)?;
    candidates.append(&mut candidates_dev)?;
    Ok(Pool {
        root,
        candidates: Items::of(candidates),
    })
}
