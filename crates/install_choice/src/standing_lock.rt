//! The lock that stands, and its packages.

ghost use Rattle.std.specs.Prelude.{◌≡◌, false, IsTrue, Ok, IfErr, IfOk, IfSome};
ghost use Rattle.tree_dev.specs.Device.{OfTold, OnlyRead};
ghost use Rattle.lock_file.specs.FormedLocks.{IsLock};
ghost use Rattle.manifest_read.specs.WellFormed.{IsManifest};
ghost use Rattle.manifest_read.specs.declared.types.Role.TheVariants.{Root};
ghost use Rattle.run_answers.specs.Faults.{is_device_fault, is_of_tree};
ghost use Rattle.run_answers.specs.Steps.{Tells};
ghost use Rattle.install_choice.specs.Choosing.{chosen_by_lock, chosen_if_met, chosen_in_pool, lock_read, standing_choice, standing_lock_in};
ghost use Rattle.install_choice.specs.Planning.{IsChoice};

use crate::chosen::Chosen;
use install_sources::refuse_unmet;
use lock_file::Lock;
use manifest_read::Manifest;
use path_name::Path;
use pkg_pool::Pool;
use project_files::{places, pool_of, project_lock};
use run_answers::Refusal;
use std::alloc::Global;
use tree_dev::{Kind, Tree};

/// What composer.lock says, which is there.
fn lock_read<T: Tree>(alloc: Global, project: &Path, tree: &mut T) -> Result<Option<Lock>, Refusal>
    ensures told { OfTold (T.meaning tree.old) (λ t. Tells (λ lock. lock) (lock_read t project.now) result) }
    ensures formed { IfOk result (λ lock. IfSome lock IsLock) }
    ensures only_read { OnlyRead (T.meaning tree.old) (T.meaning tree.new) (is_device_fault result) }
    ensures causes { IfErr result (λ refusal. IsTrue (is_of_tree refusal)) }
{
    Ok(Some(project_lock(alloc, project, tree)?))
}

/// What the composer.lock of a project says; None where nothing is there. The other refusals are those of
/// [`project_lock`](project_files::project_lock), in the same order. The tree is only read.
#[tactic(auto, unfolding(crate::specs::Choosing::standing_lock_in))]
pub fn standing_lock<T: Tree>(
    alloc: Global,
    project: &Path,
    tree: &mut T,
) -> Result<Option<Lock>, Refusal>
    ensures told { OfTold (T.meaning tree.old) (λ t. Tells (λ lock. lock) (standing_lock_in t project.now) result) }
    ensures formed { IfOk result (λ lock. IfSome lock IsLock) }
    ensures only_read { OnlyRead (T.meaning tree.old) (T.meaning tree.new) (is_device_fault result) }
    ensures causes { IfErr result (λ refusal. IsTrue (is_of_tree refusal)) }
{
    match tree.stat(&places::lock(alloc, project)?)? {
        Kind::Absent => Ok(None),
        Kind::File => lock_read(alloc, project, tree),
        Kind::Folder => lock_read(alloc, project, tree),
        Kind::Other => lock_read(alloc, project, tree),
    }
}

/// The packages of a lock with its pool, if they are a valid plan.
fn chosen_if_met(met: Result<(), Refusal>, pool: Pool, lock: Lock) -> Result<Chosen, Refusal>
    ensures { result ≡ chosen_if_met lock pool met }
{
    let Pool {
        root,
        candidates: _candidates,
    } = pool;
    match met {
        Ok(()) => Ok(Chosen {
            root,
            lock,
            text: None,
        }),
        Err(refusal) => Err(refusal),
    }
}

/// The packages of a lock with its pool. `LockUnmet`: all of them together are no valid plan.
#[tactic(auto, unfolding(crate::specs::Choosing::chosen_in_pool))]
fn chosen_in_pool(alloc: Global, pool: Pool, lock: Lock) -> Result<Chosen, Refusal>
    ensures told { Tells (λ chosen. chosen) (chosen_in_pool lock pool) result }
    ensures value { IfOk result (λ chosen. chosen ≡ standing_choice lock pool) }
    ensures no_device { is_device_fault result ≡ false }
    ensures causes { IfErr result (λ refusal. IsTrue (is_of_tree refusal)) }
{
    let met = refuse_unmet(alloc, &pool);
    chosen_if_met(met, pool, lock)
}

/// The packages of the lock that stands. The refusals come in this order: `MissingPath` for the first package whose url leads
/// above the tree's root, then `LockUnmet` where its packages, those for development with them, are no valid plan.
#[tactic(auto, unfolding(crate::specs::Choosing::chosen_by_lock))]
pub fn chosen_by_lock(
    alloc: Global,
    project: &Path,
    root: Manifest,
    lock: Lock,
) -> Result<Chosen, Refusal>
    requires root { IsManifest Root root }
    requires lock { IsLock lock }
    ensures told { Tells (λ chosen. chosen) (chosen_by_lock project.now root lock) result }
    ensures formed { IfOk result IsChoice }
    ensures no_device { is_device_fault result ≡ false }
    ensures causes { IfErr result (λ refusal. IsTrue (is_of_tree refusal)) }
{
    match pool_of(alloc, root, &lock, project) {
        Ok(pool) => chosen_in_pool(alloc, pool, lock),
        Err(refusal) => Err(refusal),
    }
}
