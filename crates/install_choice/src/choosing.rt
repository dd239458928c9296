//! The packages that the commands install.

ghost use Rattle.std.specs.Prelude.{◌≡◌, ◌⊎◌, IsTrue, IfErr, IfOk, IfSome};
ghost use Rattle.tree_dev.specs.Device.{OfTold, OnlyRead};
ghost use Rattle.lock_file.specs.FormedLocks.{IsLock};
ghost use Rattle.manifest_read.specs.WellFormed.{IsManifest};
ghost use Rattle.manifest_read.specs.declared.types.Role.TheVariants.{Root};
ghost use Rattle.run_answers.specs.Faults.{is_device_fault, is_of_tree};
ghost use Rattle.run_answers.specs.Steps.{TellsOne, is_free_result};
ghost use Rattle.install_choice.specs.Choosing.{IsChosenFor, IsChosenToInstall, IsChosenToUpdate, IsChosenWith, standing_lock_in};
ghost use Rattle.install_choice.specs.Planning.{IsChoice, IsDocumented};
ghost use Rattle.install_choice.specs.Warnings.{MayWarn, TakesText, warning_if, warning_in, warning_of_lock};

use crate::chosen::Chosen;
use crate::planning::chosen_by_plan;
use crate::standing_lock::{chosen_by_lock, standing_lock};
use crate::warning::warn_of_stale;
use lock_file::Lock;
use path_name::Path;
use project_files::{ProjectManifest, project_manifest};
use run_answers::Refusal;
use std::alloc::Global;
use tree_dev::{Entries, Sink, Tree};

/// The packages of the lock that stands, of which is warned where it is out of date; those of a new plan without a lock.
fn chosen_with<T: Tree, E: Sink>(
    alloc: Global,
    project: &Path,
    manifest: ProjectManifest,
    lock: Option<Lock>,
    tree: &mut T,
    errs: &mut E,
    left: &mut Entries,
) -> Result<Chosen, Refusal>
    requires root { IsManifest Root manifest.root }
    requires lock { IfSome lock IsLock }
    ensures told { OfTold (T.meaning tree.old) (λ t. IsDocumented manifest.root manifest.content_hash → TellsOne (λ chosen. (chosen, left.new.left)) (IsChosenWith t project.now left.old.left manifest lock) result) }
    ensures formed { IfOk result IsChoice }
    ensures warned { TakesText (E.meaning errs.old) (E.meaning errs.new) (warning_of_lock manifest lock) }
    ensures may_warn { MayWarn (E.meaning errs.old) (E.meaning errs.new) }
    ensures only_read { OnlyRead (T.meaning tree.old) (T.meaning tree.new) (is_device_fault result) }
    ensures causes { IfErr result (λ refusal. IsTrue (is_of_tree refusal)) }
{
    match lock {
        None => chosen_by_plan(alloc, project, manifest, tree, left),
        Some(lock) => {
            warn_of_stale(errs, &manifest, &lock);
            let ProjectManifest {
                root,
                content_hash: _,
            } = manifest;
            chosen_by_lock(alloc, project, root, lock)
        }
    }
}

/// The packages of the lock that stands, or of a new plan without one, for a composer.json.
fn chosen_for<T: Tree, E: Sink>(
    alloc: Global,
    project: &Path,
    manifest: ProjectManifest,
    tree: &mut T,
    errs: &mut E,
    left: &mut Entries,
) -> Result<Chosen, Refusal>
    requires root { IsManifest Root manifest.root }
    ensures told { OfTold (T.meaning tree.old) (λ t. IsDocumented manifest.root manifest.content_hash → TellsOne (λ chosen. (chosen, left.new.left)) (IsChosenFor t project.now left.old.left manifest) result) }
    ensures formed { IfOk result IsChoice }
    ensures warned { OfTold (T.meaning tree.old) (λ t. TakesText (E.meaning errs.old) (E.meaning errs.new) (warning_if manifest (standing_lock_in t project.now))
        ⊎ (IsTrue (is_free_result result) × (E.meaning errs.new ≡ E.meaning errs.old))) }
    ensures may_warn { MayWarn (E.meaning errs.old) (E.meaning errs.new) }
    ensures only_read { OnlyRead (T.meaning tree.old) (T.meaning tree.new) (is_device_fault result) }
    ensures causes { IfErr result (λ refusal. IsTrue (is_of_tree refusal)) }
{
    match standing_lock(alloc, project, tree) {
        Ok(lock) => chosen_with(alloc, project, manifest, lock, tree, errs, left),
        Err(refusal) => Err(refusal),
    }
}

/// What `install` is to install: the packages of the lock that stands, and those of a new plan where nothing is at
/// composer.lock (Composer's documentation, "Basic usage", "Installing dependencies"). Where the lock has another content hash
/// than composer.json, `errs` is told that it is out of date once both files were read; a fault of `errs` changes nothing.
///
/// The refusals come in this order: those of composer.json ([`project_manifest`]); those of composer.lock
/// ([`project_lock`](project_files::project_lock)), but for `NoLock`; `MissingPath` for the first package whose url leads above
/// the tree's root; `LockUnmet` where the lock's packages, those for development with them, are no valid plan. Without a lock
/// they are those of [`chosen_to_update`]. The tree is only read.
#[tactic(auto, unfolding(crate::specs::Choosing::IsChosenToInstall, crate::specs::Warnings::warning_in))]
pub fn chosen_to_install<T: Tree, E: Sink>(
    alloc: Global,
    project: &Path,
    tree: &mut T,
    errs: &mut E,
    left: &mut Entries,
) -> Result<Chosen, Refusal>
    ensures told { OfTold (T.meaning tree.old) (λ t. TellsOne (λ chosen. (chosen, left.new.left)) (IsChosenToInstall t project.now left.old.left) result) }
    ensures formed { IfOk result IsChoice }
    ensures warned { OfTold (T.meaning tree.old) (λ t. TakesText (E.meaning errs.old) (E.meaning errs.new) (warning_in t project.now)
        ⊎ (IsTrue (is_free_result result) × (E.meaning errs.new ≡ E.meaning errs.old))) }
    ensures may_warn { MayWarn (E.meaning errs.old) (E.meaning errs.new) }
    ensures only_read { OnlyRead (T.meaning tree.old) (T.meaning tree.new) (is_device_fault result) }
    ensures causes { IfErr result (λ refusal. IsTrue (is_of_tree refusal)) }
{
    match project_manifest(alloc, project, tree) {
        Ok(manifest) => chosen_for(alloc, project, manifest, tree, errs, left),
        Err(refusal) => Err(refusal),
    }
}

/// What `update` is to install: the packages of the plan of first choices, with its lock, whose text is to be written. The plan
/// counts what is required for development. The lock that stands is not looked at.
///
/// The refusals come in this order: those of composer.json ([`project_manifest`]); those of the root's repositories
/// ([`load`](pkg_pool::load)); `NoPlan` where no set of their packages is valid. The tree is only read.
#[tactic(auto, unfolding(crate::specs::Choosing::IsChosenToUpdate))]
pub fn chosen_to_update<T: Tree>(
    alloc: Global,
    project: &Path,
    tree: &mut T,
    left: &mut Entries,
) -> Result<Chosen, Refusal>
    ensures told { OfTold (T.meaning tree.old) (λ t. TellsOne (λ chosen. (chosen, left.new.left)) (IsChosenToUpdate t project.now left.old.left) result) }
    ensures formed { IfOk result IsChoice }
    ensures only_read { OnlyRead (T.meaning tree.old) (T.meaning tree.new) (is_device_fault result) }
    ensures causes { IfErr result (λ refusal. IsTrue (is_of_tree refusal)) }
{
    match project_manifest(alloc, project, tree) {
        Ok(manifest) => chosen_by_plan(alloc, project, manifest, tree, left),
        Err(refusal) => Err(refusal),
    }
}
