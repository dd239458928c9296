//! The lock of a project, and the pool that it makes.

ghost use Rattle.std.specs.Prelude.{◌≡◌, false, find, IsTrue, IfOk, IfErr};
ghost use Rattle.std.specs.Option.{option_map};
ghost use Rattle.tree_dev.specs.Device.{OnlyRead, OfTold};
ghost use Rattle.json_ordered.specs.Docs.{tree_of};
ghost use Rattle.lock_file.specs.FormedLocks.{IsLock};
ghost use Rattle.run_answers.specs.Faults.{is_of_tree, is_device_fault};
ghost use Rattle.run_answers.specs.Steps.{Tells};
ghost use Rattle.project_files.specs.ProjectLock.{lock_text_in, fields_in, few_packages, lock_of_text, project_lock_in, has_name, packages_of, url_text_of, pool_in};

use crate::documents::{document, refusal_of_fields};
use crate::places;
use crate::texts::text_at;
use json_ordered::Doc;
use lock_file::{Lock, LockPoolFault, Locked};
use manifest_read::Manifest;
use path_name::{Name, Path, Text};
use pkg_pool::{PACKAGES, Pool};
use run_answers::{NamedFile, Refusal};
use std::alloc::{AllocError, Global};
use tree_dev::{LimitKind, Tree};

/// The text of composer.lock. `NoLock` comes where nothing is there.
#[tactic(auto, unfolding(crate::specs::ProjectLock::lock_text_in))]
fn lock_text<T: Tree>(alloc: Global, project: &Path, tree: &mut T) -> Result<Text, Refusal>
    ensures told { OfTold (T.meaning tree.old) (λ t. Tells (λ text. text) (lock_text_in t project.now) result) }
    ensures only_read { OnlyRead (T.meaning tree.old) (T.meaning tree.new) (is_device_fault result) }
    ensures causes { IfErr result (λ refusal. IsTrue (is_of_tree refusal)) }
{
    match text_at(alloc, places::lock(alloc, project)?, tree)? {
        Some(text) => Ok(text),
        None => Err(Refusal::NoLock),
    }
}

/// The fields of the document of a composer.lock.
#[tactic(auto, unfolding(crate::specs::ProjectLock::fields_in))]
fn fields_of(alloc: Global, doc: &Doc) -> Result<Lock, Refusal>
    ensures told { Tells (λ lock. lock) (fields_in (tree_of doc.now)) result }
    ensures formed { IfOk result (λ lock. IsLock lock) }
    ensures no_device { is_device_fault result ≡ false }
    ensures causes { IfErr result (λ refusal. IsTrue (is_of_tree refusal)) }
{
    match lock_file::from_doc(alloc, doc) {
        Ok(lock) => Ok(lock),
        Err(fault) => Err(refusal_of_fields(NamedFile::Lock, fault)),
    }
}

/// Refuses a lock of more than `PACKAGES` packages.
#[tactic(auto, unfolding(crate::specs::ProjectLock::few_packages))]
fn refuse_many(lock: &Lock) -> Result<(), Refusal>
    ensures told { Tells (λ passed. passed) (few_packages lock.now) result }
    ensures no_device { is_device_fault result ≡ false }
    ensures causes { IfErr result (λ refusal. IsTrue (is_of_tree refusal)) }
{
    let packages = lock.packages.as_slice().len();
    let packages_dev = lock.packages_dev.as_slice().len();
    if packages.saturating_add(packages_dev) > PACKAGES {
        return Err(Refusal::Limit(LimitKind::Packages));
    }
    Ok(())
}

/// The lock that a text describes.
#[tactic(auto, unfolding(crate::specs::ProjectLock::lock_of_text))]
fn lock_of(alloc: Global, text: &[u8]) -> Result<Lock, Refusal>
    ensures told { Tells (λ lock. lock) (lock_of_text text.now) result }
    ensures formed { IfOk result (λ lock. IsLock lock) }
    ensures no_device { is_device_fault result ≡ false }
    ensures causes { IfErr result (λ refusal. IsTrue (is_of_tree refusal)) }
{
    let doc = document(alloc, NamedFile::Lock, text)?;
    let lock = fields_of(alloc, &doc)?;
    refuse_many(&lock)?;
    Ok(lock)
}

/// What the composer.lock of a project says. The refusals come in this order: `NoLock` where nothing is there;
/// `OtherEntry` where something else than a file is; `Limit` where it has more than `FILE_BYTES` bytes; `BadDocument`
/// where its text is no JSON (RFC 8259), with the place; `BadDocument` or `NotOffered` of its first field that is bad or
/// isn't offered; `Limit` where both lists together have more than `PACKAGES` packages. The tree is only read.
#[tactic(auto, unfolding(crate::specs::ProjectLock::project_lock_in))]
pub fn project_lock<T: Tree>(alloc: Global, project: &Path, tree: &mut T) -> Result<Lock, Refusal>
    ensures told { OfTold (T.meaning tree.old) (λ t. Tells (λ lock. lock) (project_lock_in t project.now) result) }
    ensures formed { IfOk result (λ lock. IsLock lock) }
    ensures only_read { OnlyRead (T.meaning tree.old) (T.meaning tree.new) (is_device_fault result) }
    ensures causes { IfErr result (λ refusal. IsTrue (is_of_tree refusal)) }
{
    let text = lock_text(alloc, project, tree)?;
    lock_of(alloc, text.as_slice())
}

/// The first of some packages that has a name.
fn first_named<'a>(some: &'a [Locked], name: &Name) -> Option<&'a Locked>
    ensures { option_map (λ locked. locked.now) result ≡ find (has_name name.now) some.now }
{
    some.iter().find(|locked| locked.package.name == *name)
}

/// The package of a lock that has a name.
fn locked_as<'a>(lock: &'a Lock, name: &Name) -> Option<&'a Locked>
    ensures { option_map (λ locked. locked.now) result ≡ find (has_name name.now) (packages_of lock.now) }
{
    match first_named(lock.packages.as_slice(), name) {
        Some(locked) => Some(locked),
        None => first_named(lock.packages_dev.as_slice(), name),
    }
}

/// The url of the package of a name, as it is seen from the project.
fn url_text(alloc: Global, lock: &Lock, name: &Name) -> Result<Text, AllocError>
    ensures { IfOk result (λ text. text ≡ url_text_of lock.now name.now) }
{
    match locked_as(lock, name) {
        Some(locked) => locked.url.text(alloc),
        None => Ok(Text::of(Vec::new(alloc))),
    }
}

/// The packages of a lock as a pool, those of `packages` first, with the folders to which their urls lead from the
/// project. `MissingPath` comes for the first package whose url leads above the root of the tree, with the url.
#[tactic(auto, unfolding(crate::specs::ProjectLock::pool_in))]
pub fn pool_of(alloc: Global, root: Manifest, lock: &Lock, project: &Path) -> Result<Pool, Refusal>
    ensures told { Tells (λ pool. pool) (pool_in root lock.now project.now) result }
    ensures no_device { is_device_fault result ≡ false }
    ensures causes { IfErr result (λ refusal. IsTrue (is_of_tree refusal)) }
{
    match lock_file::pool_of(alloc, root, lock, project) {
        Ok(pool) => Ok(pool),
        Err(LockPoolFault::AboveRoot(name)) => {
            Err(Refusal::MissingPath(url_text(alloc, lock, &name)?))
        }
        Err(LockPoolFault::OutOfMemory) => Err(Refusal::OutOfMemory),
    }
}
