//! The packages of a new plan.

ghost use Rattle.std.specs.Prelude.{◌≡◌, false, IsTrue, IfErr, IfOk};
ghost use Rattle.std.specs.Str.{IsUtf8};
ghost use Rattle.tree_dev.specs.Device.{OfTold, OnlyRead};
ghost use Rattle.lock_file.specs.FormedLocks.{IsLock};
ghost use Rattle.lock_file.specs.KeptPools.{IsDocumentedPool};
ghost use Rattle.lock_file.specs.Rereading.{IsKept, IsTextOf};
ghost use Rattle.lock_file.specs.declared.types.Lock.{Lock as Locks};
ghost use Rattle.manifest_read.specs.WellFormed.{IsManifest};
ghost use Rattle.manifest_read.specs.declared.types.Role.TheVariants.{Root};
ghost use Rattle.run_answers.specs.Faults.{is_device_fault, is_of_tree};
ghost use Rattle.run_answers.specs.Steps.{TellsOne};
ghost use Rattle.install_choice.specs.Planning.{IsChoice, IsChosenByPlan, IsChosenOf, IsDocumented, IsLockOfPlan, new_choice};

use crate::chosen::Chosen;
use crate::refusals::refusal_of_pool;
use lock_file::{Lock, from_doc, lock_of, pools_are_documented, print, valid_plans_have_own_names};
use manifest_read::Manifest;
use path_name::Path;
use pkg_pool::{Pool, load, manifests_have_paths};
use plan_solve::{Answer, solve};
use project_files::ProjectManifest;
use run_answers::Refusal;
use std::alloc::{AllocError, Global};
use tree_dev::{Entries, Tree};

/// The lock of the plan of a pool. `NoPlan`: no set of its packages is valid.
fn lock_of_plan(alloc: Global, pool: &Pool, hash: &[u8; 32]) -> Result<Lock, Refusal>
    ensures told { IsDocumentedPool pool.now → IsUtf8 hash.now → TellsOne (λ lock. lock) (IsLockOfPlan pool.now hash.now) result }
    ensures no_device { is_device_fault result ≡ false }
    ensures causes { IfErr result (λ refusal. IsTrue (is_of_tree refusal)) }
{
    valid_plans_have_own_names();
    match solve(alloc, pool)? {
        Answer::Plan(plan) => Ok(lock_of(alloc, pool, &plan, hash)?),
        Answer::NoPlan => Err(Refusal::NoPlan),
    }
}

/// What the text of a lock says. Where the tree tells what it has, a lock that was printed is read as it was; where it tells
/// another thing at each call this is tested, and what can't be read has no lock: the one refusal is that of memory.
fn read_again(alloc: Global, text: &[u8]) -> Result<Lock, AllocError>
    ensures formed { IfOk result IsLock }
    ensures same { (lock : Locks) → IsTextOf lock text.now → IfOk result (λ read. read ≡ lock) }
{
    let doc = match json_ordered::read(alloc, text) {
        Ok(doc) => doc,
        Err(_fault) => return Err(AllocError),
    };
    match from_doc(alloc, &doc) {
        Ok(lock) => Ok(lock),
        Err(_fault) => Err(AllocError),
    }
}

/// The packages of a new lock, as its text has them.
fn new_choice(alloc: Global, root: Manifest, lock: &Lock) -> Result<Chosen, AllocError>
    requires root { IsManifest Root root }
    ensures formed { IfOk result IsChoice }
    ensures same { IsKept lock.now → IfOk result (λ chosen. chosen ≡ new_choice root lock.now) }
{
    let text = print(alloc, lock)?;
    let read = read_again(alloc, text.as_slice())?;
    Ok(Chosen {
        root,
        lock: read,
        text: Some(text),
    })
}

/// The packages of the plan of a pool.
fn chosen_of(alloc: Global, root: Manifest, pool: &Pool, hash: &[u8; 32]) -> Result<Chosen, Refusal>
    requires root { IsManifest Root root }
    ensures told { IsDocumentedPool pool.now → IsUtf8 hash.now → TellsOne (λ chosen. chosen) (IsChosenOf root pool.now hash.now) result }
    ensures formed { IfOk result IsChoice }
    ensures no_device { is_device_fault result ≡ false }
    ensures causes { IfErr result (λ refusal. IsTrue (is_of_tree refusal)) }
{
    match lock_of_plan(alloc, pool, hash) {
        Ok(lock) => Ok(new_choice(alloc, root, &lock)?),
        Err(refusal) => Err(refusal),
    }
}

/// The same of a pool that is dropped.
fn chosen_from(alloc: Global, root: Manifest, pool: Pool, hash: [u8; 32]) -> Result<Chosen, Refusal>
    requires root { IsManifest Root root }
    ensures told { IsDocumentedPool pool → IsUtf8 hash → TellsOne (λ chosen. chosen) (IsChosenOf root pool hash) result }
    ensures formed { IfOk result IsChoice }
    ensures no_device { is_device_fault result ≡ false }
    ensures causes { IfErr result (λ refusal. IsTrue (is_of_tree refusal)) }
{
    chosen_of(alloc, root, &pool, &hash)
}

/// The packages of a new plan for a root and a copy of it.
#[tactic(auto, unfolding(crate::specs::Planning::IsChosenByPlan))]
fn chosen_for_root<T: Tree>(
    alloc: Global,
    project: &Path,
    root: Manifest,
    copied: Manifest,
    hash: [u8; 32],
    tree: &mut T,
    left: &mut Entries,
) -> Result<Chosen, Refusal>
    requires root { IsManifest Root root }
    requires same { copied ≡ root }
    ensures told { OfTold (T.meaning tree.old) (λ t. IsDocumented root hash → TellsOne (λ chosen. (chosen, left.new.left)) (IsChosenByPlan t project.now root hash left.old.left) result) }
    ensures formed { IfOk result IsChoice }
    ensures only_read { OnlyRead (T.meaning tree.old) (T.meaning tree.new) (is_device_fault result) }
    ensures causes { IfErr result (λ refusal. IsTrue (is_of_tree refusal)) }
{
    manifests_have_paths(&root);
    pools_are_documented();
    match load(alloc, tree, project, root, left) {
        Ok(pool) => chosen_from(alloc, copied, pool, hash),
        Err(fault) => Err(refusal_of_pool(fault)),
    }
}

/// The packages of a new plan for a composer.json: those of first choices. The refusals come in this order: those of the
/// root's repositories ([`load`]), then `NoPlan` where no set of packages is valid.
pub fn chosen_by_plan<T: Tree>(
    alloc: Global,
    project: &Path,
    manifest: ProjectManifest,
    tree: &mut T,
    left: &mut Entries,
) -> Result<Chosen, Refusal>
    requires root { IsManifest Root manifest.root }
    ensures told { OfTold (T.meaning tree.old) (λ t. IsDocumented manifest.root manifest.content_hash
        → TellsOne (λ chosen. (chosen, left.new.left)) (IsChosenByPlan t project.now manifest.root manifest.content_hash left.old.left) result) }
    ensures formed { IfOk result IsChoice }
    ensures only_read { OnlyRead (T.meaning tree.old) (T.meaning tree.new) (is_device_fault result) }
    ensures causes { IfErr result (λ refusal. IsTrue (is_of_tree refusal)) }
{
    let ProjectManifest { root, content_hash } = manifest;
    match root.copy(alloc) {
        Ok(copied) => chosen_for_root(alloc, project, root, copied, content_hash, tree, left),
        Err(AllocError) => Err(Refusal::OutOfMemory),
    }
}
