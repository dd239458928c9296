//! From the packages that were chosen to what is committed for them.

ghost use Rattle.std.specs.Prelude.{◌≡◌, ◌≤◌, All, IsTrue, false, Ok, IfOk, IfErr};
ghost use Rattle.tree_dev.specs.Device.{OfTold, OnlyRead};
ghost use Rattle.manifest_read.specs.WellFormed.{IsManifest};
ghost use Rattle.manifest_read.specs.declared.types.Role.TheVariants.{Root};
ghost use Rattle.package_moves.specs.Wanted.{AreWanted};
ghost use Rattle.stage_job.specs.Jobs.{AreParts};
ghost use Rattle.table_scan.specs.DistinctKeys.{HaveDistinctKeys};
ghost use Rattle.table_scan.specs.TableGrammar.{is_whole};
ghost use Rattle.run_answers.specs.Faults.{is_device_fault, is_of_tree};
ghost use Rattle.run_answers.specs.Steps.{TellsOne};
ghost use Rattle.install_choice.specs.Planning.{IsChoice};
ghost use Rattle.install_sources.specs.Sources.{AreSources};
ghost use Rattle.install_commands.specs.Working.{HasParentsIf, IsWorkIf};
ghost use Rattle.install_packages.specs.Installing.{IsWorkBy, IsWorkFor, IsWorkFrom, IsWorkIn, IsWorkWith, setting_of, work_of};

use crate::lines::install_lines;
use crate::wanted::{job_for, wanted_parts};
use autoload_build::tables_can_be_printed;
use composer_words::Ways;
use install_choice::Chosen;
use install_commands::Work;
use install_sources::members;
use manifest_read::Manifest;
use path_name::Path;
use psr_routes::Placed;
use run_answers::Refusal;
use stage_job::{Job, Part};
use std::alloc::{AllocError, Global};
use table_files::{NewTables, Setting, mode_of, new_tables};
use tree_dev::{Entries, Tree};

/// The work of a job.
fn work_of(alloc: Global, job: Job, members: &[Placed], new: &NewTables) -> Result<Work, AllocError>
    ensures { IfOk result (λ work. work ≡ work_of members.now new.now job) }
{
    let lines = install_lines(alloc, members, &new.tables, new.generation)?;
    Ok(Work {
        job,
        generation: new.generation,
        lines,
    })
}

/// What is to be committed for what is wanted.
fn work_for<T: Tree>(
    alloc: Global,
    project: &Path,
    tree: &mut T,
    wanted: &[Part],
    members: &[Placed],
    new: &NewTables,
    left: &mut Entries,
) -> Result<Work, Refusal>
    requires wanted { AreWanted wanted.now }
    requires parts { AreParts project.now wanted.now }
    requires first { 1 ≤ new.now.generation }
    ensures told { OfTold (T.meaning tree.old) (λ t. TellsOne (λ work. (work, left.new.left)) (IsWorkFor t project.now members.now new.now left.old.left wanted.now) result) }
    ensures work { IsWorkIf project.now result }
    ensures parents { OfTold (T.meaning tree.old) (λ t. HasParentsIf project.now t result) }
    ensures causes { IfErr result (λ refusal. IsTrue (is_of_tree refusal)) }
    ensures only_read { OnlyRead (T.meaning tree.old) (T.meaning tree.new) (is_device_fault result) }
{
    let job = job_for(alloc, project, tree, wanted, left)?;
    Ok(work_of(alloc, job, members, new)?)
}

/// What is to be committed for packages in their places, with their tables.
fn work_with<T: Tree>(
    alloc: Global,
    project: &Path,
    tree: &mut T,
    chosen: &Chosen,
    members: &[Placed],
    new: &NewTables,
    dev: bool,
    left: &mut Entries,
) -> Result<Work, Refusal>
    requires sources { AreSources project.now members.now }
    requires distinct { HaveDistinctKeys new.now.tables }
    requires whole { All (λ row. IsTrue (is_whole row.prefix)) new.now.tables.psr4 }
    requires first { 1 ≤ new.now.generation }
    ensures told { OfTold (T.meaning tree.old) (λ t. TellsOne (λ work. (work, left.new.left)) (IsWorkWith t project.now chosen.now dev members.now (new.now, left.old.left)) result) }
    ensures work { IsWorkIf project.now result }
    ensures parents { OfTold (T.meaning tree.old) (λ t. HasParentsIf project.now t result) }
    ensures causes { IfErr result (λ refusal. IsTrue (is_of_tree refusal)) }
    ensures only_read { OnlyRead (T.meaning tree.old) (T.meaning tree.new) (is_device_fault result) }
{
    let wanted = wanted_parts(alloc, project, &new.tables, members, chosen, dev)?;
    work_for(alloc, project, tree, wanted.as_slice(), members, new, left)
}

/// What is to be committed for packages in their places.
fn work_from<T: Tree>(
    alloc: Global,
    project: &Path,
    tree: &mut T,
    chosen: &Chosen,
    members: &[Placed],
    setting: Setting,
    left: &mut Entries,
) -> Result<Work, Refusal>
    requires root { IsManifest Root chosen.now.root }
    requires sources { AreSources project.now members.now }
    ensures told { OfTold (T.meaning tree.old) (λ t. TellsOne (λ work. (work, left.new.left)) (IsWorkFrom t project.now chosen.now setting left.old.left members.now) result) }
    ensures work { IsWorkIf project.now result }
    ensures parents { OfTold (T.meaning tree.old) (λ t. HasParentsIf project.now t result) }
    ensures causes { IfErr result (λ refusal. IsTrue (is_of_tree refusal)) }
    ensures only_read { OnlyRead (T.meaning tree.old) (T.meaning tree.new) (is_device_fault result) }
{
    tables_can_be_printed();
    let new = new_tables(alloc, tree, project, &chosen.root, members, setting, left)?;
    work_with(
        alloc,
        project,
        tree,
        chosen,
        members,
        &new,
        setting.dev,
        left,
    )
}

/// What is to be committed for the packages that were chosen.
fn work_in<T: Tree>(
    alloc: Global,
    project: &Path,
    tree: &mut T,
    chosen: &Chosen,
    setting: Setting,
    left: &mut Entries,
) -> Result<Work, Refusal>
    requires choice { IsChoice chosen.now }
    ensures told { OfTold (T.meaning tree.old) (λ t. TellsOne (λ work. (work, left.new.left)) (IsWorkIn t project.now setting chosen.now left.old.left) result) }
    ensures work { IsWorkIf project.now result }
    ensures parents { OfTold (T.meaning tree.old) (λ t. HasParentsIf project.now t result) }
    ensures causes { IfErr result (λ refusal. IsTrue (is_of_tree refusal)) }
    ensures only_read { OnlyRead (T.meaning tree.old) (T.meaning tree.new) (is_device_fault result) }
{
    let members = members(alloc, project, &chosen.lock, setting.dev, tree)?;
    work_from(
        alloc,
        project,
        tree,
        chosen,
        members.as_slice(),
        setting,
        left,
    )
}

/// How packages are installed, by the words and by the root's settings.
fn setting_of(ways: &Ways, root: &Manifest, stands: Option<u64>) -> Setting
    ensures { result ≡ setting_of ways.now root.now stands }
{
    Setting {
        mode: mode_of(ways, root),
        dev: !ways.no_dev,
        stands,
    }
}

/// What is to be committed for the packages that were chosen, which are dropped.
pub fn work_by<T: Tree>(
    alloc: Global,
    project: &Path,
    ways: &Ways,
    tree: &mut T,
    chosen: Chosen,
    stands: Option<u64>,
    left: &mut Entries,
) -> Result<Work, Refusal>
    requires choice { IsChoice chosen }
    ensures told { OfTold (T.meaning tree.old) (λ t. TellsOne (λ work. (work, left.new.left)) (IsWorkBy t project.now ways.now stands (chosen, left.old.left)) result) }
    ensures work { IsWorkIf project.now result }
    ensures parents { OfTold (T.meaning tree.old) (λ t. HasParentsIf project.now t result) }
    ensures causes { IfErr result (λ refusal. IsTrue (is_of_tree refusal)) }
    ensures only_read { OnlyRead (T.meaning tree.old) (T.meaning tree.new) (is_device_fault result) }
{
    let setting = setting_of(ways, &chosen.root, stands);
    work_in(alloc, project, tree, &chosen, setting, left)
}
