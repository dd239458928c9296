//! The commands `install` and `update`.

ghost use Rattle.std.specs.Prelude.{◌≡◌, ◌⊎◌, IsTrue, false, Ok, IfOk, IfErr};
ghost use Rattle.tree_dev.specs.Device.{OfTold, OnlyRead, Rose};
ghost use Rattle.tree_dev.specs.declared.limits.TheConstants.{ENTRIES};
ghost use Rattle.run_answers.specs.Faults.{is_device_fault, is_of_tree};
ghost use Rattle.run_answers.specs.Steps.{TellsOne, is_free_result};
ghost use Rattle.install_choice.specs.Warnings.{MayWarn, TakesText, warning_in};
ghost use Rattle.install_commands.specs.Commanded.{Commanded};
ghost use Rattle.install_commands.specs.Working.{HasParentsIf, IsWorkIf};
ghost use Rattle.install_packages.specs.Installing.{IsInstall, IsUpdate, install_warning};

use crate::job_steps::work_by;
use composer_words::Ways;
use install_choice::{chosen_to_install, chosen_to_update};
use install_commands::{Work, claim_project, end_work};
use path_name::{Path, Text};
use project_files::generation;
use run_answers::Refusal;
use std::alloc::Global;
use table_files::all_entries;
use tree_dev::{Entries, Sink, Tree};

/// What `install` commits.
#[tactic(auto, unfolding(crate::specs::Installing::IsInstall))]
fn install_work<T: Tree, E: Sink>(
    alloc: Global,
    project: &Path,
    ways: &Ways,
    tree: &mut T,
    errs: &mut E,
    left: &mut Entries,
) -> Result<Work, Refusal>
    ensures told { OfTold (T.meaning tree.old) (λ t. TellsOne (λ work. work) (IsInstall project.now ways.now left.old.left t left.new.left) result) }
    ensures may_warn { MayWarn (E.meaning errs.old) (E.meaning errs.new) }
    ensures warned { OfTold (T.meaning tree.old) (λ t. TakesText (E.meaning errs.old) (E.meaning errs.new) (warning_in t project.now)
        ⊎ (IsTrue (is_free_result result) × (E.meaning errs.new ≡ E.meaning errs.old))) }
    ensures work { IsWorkIf project.now result }
    ensures parents { OfTold (T.meaning tree.old) (λ t. HasParentsIf project.now t result) }
    ensures causes { IfErr result (λ refusal. IsTrue (is_of_tree refusal)) }
    ensures only_read { OnlyRead (T.meaning tree.old) (T.meaning tree.new) (is_device_fault result) }
{
    let stands = generation(alloc, project, tree)?;
    let chosen = chosen_to_install(alloc, project, tree, errs, left)?;
    work_by(alloc, project, ways, tree, chosen, stands, left)
}

/// What `update` commits.
#[tactic(auto, unfolding(crate::specs::Installing::IsUpdate))]
fn update_work<T: Tree>(
    alloc: Global,
    project: &Path,
    ways: &Ways,
    tree: &mut T,
    left: &mut Entries,
) -> Result<Work, Refusal>
    ensures told { OfTold (T.meaning tree.old) (λ t. TellsOne (λ work. work) (IsUpdate project.now ways.now left.old.left t left.new.left) result) }
    ensures work { IsWorkIf project.now result }
    ensures parents { OfTold (T.meaning tree.old) (λ t. HasParentsIf project.now t result) }
    ensures causes { IfErr result (λ refusal. IsTrue (is_of_tree refusal)) }
    ensures only_read { OnlyRead (T.meaning tree.old) (T.meaning tree.new) (is_device_fault result) }
{
    let stands = generation(alloc, project, tree)?;
    let chosen = chosen_to_update(alloc, project, tree, left)?;
    work_by(alloc, project, ways, tree, chosen, stands, left)
}

/// Installs the packages of the lock that stands, and answers a line for each of them, in byte order of name, and then how many
/// classes the class map has and the generation of the tables. Without a lock it does what [`update`] does. Where the lock has
/// another content hash than composer.json, `errs` is told that it is out of date before the work goes on; a fault of `errs`
/// changes nothing.
///
/// In the project stand then the copies of these packages, the tables and the autoloader, and nothing else in `vendor`. It is
/// done under a claim and by a journal, so that a crash at any moment leaves the old project, or the new one, or what `recover`
/// makes one of both. Packages for development are left out where the words say so.
///
/// The refusals come in this order: those of the claim (`Unfinished`; `NoManifest` where the project is no folder); those of
/// composer.json, and then of composer.lock; `MissingPath` for the first package whose url leads above the tree's root;
/// `LockUnmet` where the lock's packages, those for development with them, are no valid plan; `MissingPath` or `OtherEntry` of
/// the folders of the packages that are to be installed, in byte order of name; those of the walks for classes; `Limit` where the
/// tables that stand have the last generation; `Limit` of the first text that is too long; those of the packages' folders as
/// staging has them, and of staging; `Limit` of the journal. After each of them the project is as it was, and the claim is
/// released; but `DeviceFault`, which can come at any place, ends all calls.
pub fn install<T: Tree, E: Sink>(
    alloc: Global,
    project: &Path,
    ways: &Ways,
    tree: &mut T,
    errs: &mut E,
) -> Result<Text, Refusal>
    ensures commanded { OfTold (T.meaning tree.old) (λ t. Commanded (IsInstall project.now ways.now ENTRIES) project.now t (T.meaning tree.old) (T.meaning tree.new) result) }
    // What is warned of was taken, or a part of it by a sink that failed, unless the device failed or memory ran out before.
    ensures warned { OfTold (T.meaning tree.old) (λ t. TakesText (E.meaning errs.old) (E.meaning errs.new) (install_warning project.now t)
        ⊎ (IsTrue (is_free_result result) × (E.meaning errs.new ≡ E.meaning errs.old))) }
    // Over every tree nothing else is put on `errs`.
    ensures may_warn { MayWarn (E.meaning errs.old) (E.meaning errs.new) }
    ensures causes { IfErr result (λ refusal. IsTrue (is_of_tree refusal)) }
    ensures device { IsTrue (is_device_fault result) → Rose (T.meaning tree.old).faults (T.meaning tree.new).faults }
{
    let hold = claim_project(alloc, project, tree)?;
    let mut left = all_entries();
    let made = install_work(alloc, project, ways, tree, errs, &mut left);
    end_work(alloc, tree, hold, made, &mut left)
}

/// Makes a new plan, writes its lock, installs its packages, and answers as [`install`]. The lock that stands is not looked at.
/// The plan counts what is required for development, also where the words say that it is not installed.
///
/// The refusals are those of [`install`], but that in the place of those of the lock come those of the root's repositories
/// ([`load`](pkg_pool::load)), and then `NoPlan` where no set of packages is valid.
pub fn update<T: Tree>(
    alloc: Global,
    project: &Path,
    ways: &Ways,
    tree: &mut T,
) -> Result<Text, Refusal>
    ensures commanded { OfTold (T.meaning tree.old) (λ t. Commanded (IsUpdate project.now ways.now ENTRIES) project.now t (T.meaning tree.old) (T.meaning tree.new) result) }
    ensures causes { IfErr result (λ refusal. IsTrue (is_of_tree refusal)) }
    ensures device { IsTrue (is_device_fault result) → Rose (T.meaning tree.old).faults (T.meaning tree.new).faults }
{
    let hold = claim_project(alloc, project, tree)?;
    let mut left = all_entries();
    let made = update_work(alloc, project, ways, tree, &mut left);
    end_work(alloc, tree, hold, made, &mut left)
}
