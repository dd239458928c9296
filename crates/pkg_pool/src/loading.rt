//! The pool of a project.

ghost use Rattle.std.specs.Prelude.{◌≡◌, ◌≤◌, ◌<◌, ◌^◌, ◌++◌, [], IfOk, IfErr, OnOk, IsErrOf, false};
ghost use Rattle.std.specs.List.{AllByRecursion};
ghost use Rattle.path_name.specs.Paths.{IsPath};
ghost use Rattle.tree_dev.specs.Device.{OnlyRead, OfTold, Rose};
ghost use Rattle.content_hash.specs.Ids.{id_of};
ghost use Rattle.pkg_pool.specs.declared.fault.PoolFault.TheVariants as faults;
ghost use Rattle.pkg_pool.specs.Outcomes.{Tells, is_free, is_vanished, is_device_fault};
ghost use Rattle.pkg_pool.specs.Patterns.{seen_from, url_expanded, start_of};
ghost use Rattle.pkg_pool.specs.Gathering.{IsIndex, with_candidate};
ghost use Rattle.pkg_pool.specs.Manifests.{manifest_text, package_of};
ghost use Rattle.pkg_pool.specs.Offered.{counted, offered};
ghost use Rattle.pkg_pool.specs.Pools.{HasPaths, IsSound, gathering_of, offers, candidate_of, with_package, with_text, with_folder, with_folders, origin_of, with_repository, with_repositories, nothing_yet, pool_of_tree};

use crate::expand::{expanded, is_barred};
use crate::fault::PoolFault;
use crate::gather::{Gathered, add, count_bytes, nothing};
use crate::manifest::{manifest_text, package_of};
use crate::origin::Origin;
use crate::pool::{Candidate, Pool};
use content_hash::text_id;
use manifest_read::{Manifest, Package, Repository};
use path_name::{FolderRef, Items, Path, PathFault, Text};
use std::alloc::{AllocError, Global};
use tree_dev::{Entries, Tree};

/// Whether a repository offers a package: each path repository offers all that are in its folders.
fn offers(_origin: &Origin, _member: &Package) -> bool
    ensures { result ≡ offers _origin.now _member.now }
{
    true
}

/// The candidate of a package in a folder, by the text of its manifest.
fn candidate_of(
    alloc: Global,
    origin: &Origin,
    folder: &Path,
    text: &[u8],
    member: Package,
) -> Result<Candidate, AllocError>
    ensures { IfOk result (λ candidate. candidate ≡ candidate_of origin.now folder.now text.now member) }
{
    let id = text_id(text);
    Ok(Candidate {
        package: member,
        repository: origin.number,
        url: FolderRef {
            up: origin.up,
            path: folder.copy(alloc)?,
        },
        folder: origin.start.join(alloc, folder)?,
        reference: Text::copy_of(alloc, &id)?,
    })
}

/// Adds the package of a folder, by the text of its manifest.
#[tactic(auto, unfolding(crate::specs::Pools::with_package))]
fn add_package(
    alloc: Global,
    origin: &Origin,
    folder: &Path,
    text: &[u8],
    member: Package,
    gathered: &mut Gathered,
) -> Result<(), PoolFault>
    requires { IsSound gathered.old }
    ensures told { Tells (λ done. gathered.new.candidates.items) (with_package origin.now folder.now text.now member gathered.old.candidates.items) result }
    ensures sound { OnOk result (IsSound gathered.new) }
    ensures bytes { gathered.new.bytes ≡ gathered.old.bytes }
    ensures no_device { is_device_fault result ≡ false }
{
    if !offers(origin, &member) {
        return Ok(());
    }
    let candidate = candidate_of(alloc, origin, folder, text, member)?;
    add(
        alloc,
        &mut gathered.candidates,
        &mut gathered.held,
        candidate,
    )
}

/// Adds the package of a folder whose manifest has this text and stands at this path. `Limit` of the bytes of all
/// manifests comes before its faults.
#[tactic(auto, unfolding(crate::specs::Pools::with_text))]
fn add_text(
    alloc: Global,
    origin: &Origin,
    folder: &Path,
    path: &Path,
    text: &[u8],
    gathered: &mut Gathered,
) -> Result<(), PoolFault>
    requires { IsSound gathered.old }
    ensures told { Tells (λ done. gathering_of gathered.new) (with_text origin.now folder.now path.now text.now (gathering_of gathered.old)) result }
    ensures sound { OnOk result (IsSound gathered.new) }
    ensures no_device { is_device_fault result ≡ false }
{
    gathered.bytes = count_bytes(gathered.bytes, text)?;
    let member = package_of(alloc, path, text)?;
    add_package(alloc, origin, folder, text, member, gathered)
}

/// Adds the package of a folder, where it has a manifest and can be a package's.
#[tactic(auto, unfolding(crate::specs::Pools::with_folder))]
fn add_folder<T: Tree>(
    alloc: Global,
    tree: &mut T,
    origin: &Origin,
    folder: &Path,
    gathered: &mut Gathered,
) -> Result<(), PoolFault>
    requires { IsSound gathered.old }
    ensures told { OfTold (T.meaning tree.old) (λ t. Tells (λ done. gathering_of gathered.new) (with_folder t origin.now folder.now (gathering_of gathered.old)) result) }
    ensures sound { OnOk result (IsSound gathered.new) }
    ensures only_read { OnlyRead (T.meaning tree.old) (T.meaning tree.new) (is_device_fault result) }
{
    let place = origin.start.join(alloc, folder)?;
    if is_barred(alloc, &origin.project, &place)? {
        return Ok(());
    }
    match manifest_text(alloc, tree, &place)? {
        None => Ok(()),
        Some((path, text)) => add_text(alloc, origin, folder, &path, text.as_slice(), gathered),
    }
}

/// Adds the packages of folders, in their order.
fn add_folders<T: Tree>(
    alloc: Global,
    tree: &mut T,
    origin: &Origin,
    folders: &[Path],
    gathered: &mut Gathered,
) -> Result<(), PoolFault>
    requires { IsSound gathered.old }
    ensures told { OfTold (T.meaning tree.old) (λ t. Tells (λ done. gathering_of gathered.new) (with_folders t origin.now folders.now (gathering_of gathered.old)) result) }
    ensures sound { OnOk result (IsSound gathered.new) }
    ensures only_read { OnlyRead (T.meaning tree.old) (T.meaning tree.new) (is_device_fault result) }
{
    for folder in folders {
        add_folder(alloc, tree, origin, folder, gathered)?;
    }
    Ok(())
}

/// Where a url begins that leads so far up from the project. `MissingPath` with the url where it leads above the root.
#[tactic(auto, unfolding(crate::specs::Patterns::start_of))]
fn start_of(alloc: Global, project: &Path, up: u64, written: &Text) -> Result<Path, PoolFault>
    ensures told { Tells (λ path. path) (start_of project.now up written.now) result }
    ensures no_device { is_device_fault result ≡ false }
{
    let above = FolderRef {
        up,
        path: Path::root(alloc),
    };
    match above.resolve(alloc, project) {
        Ok(path) => Ok(path),
        Err(PathFault::OutOfMemory) => Err(PoolFault::OutOfMemory),
        Err(PathFault::AboveRoot(_)) => Err(PoolFault::MissingPath(written.copy(alloc)?)),
        Err(PathFault::BadSegment(_)) => Err(PoolFault::MissingPath(written.copy(alloc)?)),
    }
}

/// A repository as it is seen from the project.
#[tactic(auto, unfolding(crate::specs::Pools::origin_of))]
fn origin_of(
    alloc: Global,
    project: &Path,
    number: u32,
    repository: &Repository,
) -> Result<Origin, PoolFault>
    ensures told { Tells (λ origin. origin) (origin_of project.now number repository.now) result }
    ensures no_device { is_device_fault result ≡ false }
{
    let start = start_of(alloc, project, repository.up, &repository.written)?;
    Ok(Origin {
        project: project.copy(alloc)?,
        start,
        up: repository.up,
        number,
    })
}

/// Adds the packages of a repository: its folders are all found before the first manifest is read.
#[tactic(auto, unfolding(crate::specs::Pools::with_repository))]
fn add_repository<T: Tree>(
    alloc: Global,
    tree: &mut T,
    project: &Path,
    number: u32,
    repository: &Repository,
    left: &mut Entries,
    gathered: &mut Gathered,
) -> Result<(), PoolFault>
    requires sound { IsSound gathered.old }
    requires paths { IsPath repository.now.segments }
    ensures told { OfTold (T.meaning tree.old) (λ t. Tells (λ done. record { gathering = gathering_of gathered.new; left = left.new.left })
        (with_repository t project.now number repository.now (record { gathering = gathering_of gathered.old; left = left.old.left })) result) }
    ensures sound { OnOk result (IsSound gathered.new) }
    ensures falls { left.new.left ≤ left.old.left }
    ensures only_read { OnlyRead (T.meaning tree.old) (T.meaning tree.new) (is_device_fault result) }
{
    let origin = origin_of(alloc, project, number, repository)?;
    let folders = expanded(alloc, tree, &origin, repository.segments.as_slice(), left)?;
    add_folders(alloc, tree, &origin, folders.as_slice(), gathered)
}

/// The number of a repository. No memory holds the packages of more than 2^32.
fn number_of(at: usize) -> Result<u32, PoolFault>
    ensures number { IfOk result (λ number. number ≡ at) }
    ensures memory { IfErr result (λ fault. fault ≡ faults.OutOfMemory) }
{
    match u32::try_from(at) {
        Ok(number) => Ok(number),
        Err(_) => Err(PoolFault::OutOfMemory),
    }
}

/// Adds the packages of repositories, in their order.
fn add_repositories<T: Tree>(
    alloc: Global,
    tree: &mut T,
    project: &Path,
    repositories: &[Repository],
    left: &mut Entries,
    gathered: &mut Gathered,
) -> Result<(), PoolFault>
    requires sound { IsSound gathered.old }
    requires paths { AllByRecursion HasPaths repositories.now }
    ensures told { OfTold (T.meaning tree.old) (λ t. Tells (λ done. record { gathering = gathering_of gathered.new; left = left.new.left })
        (with_repositories t project.now repositories.now (record { gathering = gathering_of gathered.old; left = left.old.left })) result) }
    ensures falls { left.new.left ≤ left.old.left }
    ensures only_read { OnlyRead (T.meaning tree.old) (T.meaning tree.new) (is_device_fault result) }
{
    for at in 0..repositories.len() {
        let number = number_of(at)?;
        let repository = &repositories[at];
        add_repository(alloc, tree, project, number, repository, left, gathered)?;
    }
    Ok(())
}

/// The packages that the path repositories of a project offer (Composer's documentation, "Repositories", "Path").
///
/// Repositories are taken in their order. A url is resolved from the project. Each `*` in it stands for any one name
/// that doesn't begin with `.`; a url without `*` must lead to a folder. A folder is a package's where it has a
/// composer.json. The project's own folder, those above it, and all that an install writes are no package's folder,
/// and are taken as absent. Of equal name and equal version in one repository the first counts, in the order of their
/// paths. A name that an earlier repository has is left out of later ones. No memory holds the packages of more than
/// 2^32 repositories.
///
/// The first of these refuses. For each repository in order: `MissingPath` where its url leads above the root;
/// `MissingPath` or `OtherEntry` where a url without `*` leads to no folder; `Limit` of the entries that may still be
/// listed, then of the depth of what a `*` or a segment behind it matches. Then for each of its folders in the order of
/// their paths: `OtherEntry` where composer.json is no file; `Limit` of the bytes of a file, then of all manifests that
/// were read; `BadManifest` or `NotOffered`; `Limit` of the packages, then of those of one name. `DeviceFault` comes
/// only where the tree's count of faults rose, `OutOfMemory` where memory ran out, and `Vanished` never. The tree is
/// only read. After a refusal the entries that are left are no more than before.
#[tactic(auto, unfolding(crate::specs::Pools::pool_of_tree))]
pub fn load<T: Tree>(
    alloc: Global,
    tree: &mut T,
    project: &Path,
    root: Manifest,
    left: &mut Entries,
) -> Result<Pool, PoolFault>
    requires paths { AllByRecursion HasPaths root.repositories }
    // The pool and the entries that are left, or the first refusal.
    ensures exact { OfTold (T.meaning tree.old) (λ t. Tells (λ pool. record { pool = pool; left = left.new.left }) (pool_of_tree t project.now root left.old.left) result) }
    // The candidates are those that count of all that the repositories offer.
    ensures candidates { IfOk result (λ pool. OfTold (T.meaning tree.old) (λ t. pool.candidates ≡ counted (offered t project.now root.repositories))) }
    // What is told is there as long as it is looked at.
    ensures vanished { OfTold (T.meaning tree.old) (λ _. IfErr result (λ fault. is_vanished fault ≡ false)) }
    ensures falls { left.new.left ≤ left.old.left }
    ensures only_read { OnlyRead (T.meaning tree.old) (T.meaning tree.new) (is_device_fault result) }
    ensures device { IsErrOf result faults.DeviceFault → Rose (T.meaning tree.old).faults (T.meaning tree.new).faults }
{
    let mut gathered = nothing(alloc);
    add_repositories(
        alloc,
        tree,
        project,
        root.repositories.as_slice(),
        left,
        &mut gathered,
    )?;
    Ok(Pool {
        root,
        candidates: Items::of(gathered.candidates),
    })
}
