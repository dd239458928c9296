//! The command `dump-autoload`.

ghost use Rattle.std.specs.Prelude.{◌≡◌, ◌≤◌, [], false, All, IsTrue, IfErr, IfOk, OnOk};
ghost use Rattle.tree_dev.specs.Trees.{FileTree};
ghost use Rattle.tree_dev.specs.Device.{OfTold, OnlyRead, Rose};
ghost use Rattle.tree_dev.specs.declared.limits.TheConstants.{ENTRIES};
ghost use Rattle.stage_job.specs.Staging.{HasParents};
ghost use Rattle.stage_job.specs.Written.{after_more};
ghost use Rattle.table_scan.specs.DistinctKeys.{HaveDistinctKeys};
ghost use Rattle.table_scan.specs.TableGrammar.{is_whole};
ghost use Rattle.autoload_build.specs.Jobs.{HasReadManifests};
ghost use Rattle.run_answers.specs.Faults.{is_device_fault, is_of_tree};
ghost use Rattle.run_answers.specs.Steps.{Tells, TellsOne};
ghost use Rattle.table_files.specs.Counts.{counts_lines};
ghost use Rattle.table_files.specs.TableFolders.{HasTableFolders};
ghost use Rattle.table_files.specs.Written.{AreReadBack};
ghost use Rattle.install_commands.specs.Commanded.{Commanded};
ghost use Rattle.install_commands.specs.Working.{IsWork, writes_of};
ghost use Rattle.dump_command.specs.Dumping.{IsDumped, IsStandingWork, dumped_parts, installed_text, none_installed, tables_work};
ghost use Rattle.dump_command.specs.Standing.{project_of};

use crate::standing::{Standing, standing_in};
use autoload_build::tables_can_be_printed;
use composer_words::Ways;
use install_commands::{Work, claim_project, end_work};
use lock_file::{Lock, print_installed};
use path_name::{Items, Path, Text};
use run_answers::Refusal;
use stage_job::{Job, Part};
use std::alloc::{AllocError, Global};
use table_files::{
    NewTables, all_entries, new_tables, parts_of, put_counts, texts_of, written_files,
};
use table_scan::Tables;
use tree_dev::{Entries, Tree};
use version_norm::Grade;

/// A lock without packages.
fn no_packages(alloc: Global) -> Lock
    ensures packages { result.packages ≡ [] }
    ensures packages_dev { result.packages_dev ≡ [] }
{
    Lock {
        content_hash: Text::of(Vec::new(alloc)),
        packages: Items::empty(alloc),
        packages_dev: Items::empty(alloc),
        minimum: Grade::Stable,
        flags: Items::empty(alloc),
        prefer_stable: false,
        platform: Items::empty(alloc),
        platform_dev: Items::empty(alloc),
    }
}

/// The text of an installed.json without packages.
fn none_installed(alloc: Global) -> Result<Text, AllocError>
    ensures { IfOk result (λ text. text ≡ none_installed) }
{
    print_installed(alloc, &no_packages(alloc), false)
}

/// The text of installed.json, where none is there yet.
fn installed_text(alloc: Global, is_listed: bool) -> Result<Option<Text>, AllocError>
    ensures { IfOk result (λ text. text ≡ installed_text is_listed) }
{
    if is_listed {
        return Ok(None);
    }
    Ok(Some(none_installed(alloc)?))
}

/// The files of tables as parts of a job.
fn dumped_parts(
    alloc: Global,
    project: &Path,
    is_listed: bool,
    tables: &Tables,
) -> Result<Vec<Part>, Refusal>
    requires distinct { HaveDistinctKeys tables.now }
    requires whole { All (λ row. IsTrue (is_whole row.prefix)) tables.now.psr4 }
    ensures told { Tells (λ parts. parts.items) (dumped_parts project.now is_listed tables.now) result }
    ensures read_back { OnOk result (AreReadBack project.now tables.now) }
    ensures no_device { is_device_fault result ≡ false }
    ensures causes { IfErr result (λ refusal. IsTrue (is_of_tree refusal)) }
{
    let texts = texts_of(alloc, project, tables)?;
    let installed = installed_text(alloc, is_listed)?;
    let written = written_files(alloc, texts, installed)?;
    parts_of(alloc, project, written)
}

/// The lines that a dump ends with.
fn counts_text(alloc: Global, new: &NewTables) -> Result<Text, AllocError>
    ensures { IfOk result (λ lines. lines ≡ counts_lines new.now.tables new.now.generation) }
{
    let mut lines = Vec::new(alloc);
    put_counts(&mut lines, &new.tables, new.generation)?;
    Ok(Text::of(lines))
}

/// What is to be committed of tables.
#[tactic(auto, unfolding(crate::specs::Dumping::tables_work))]
fn tables_work(
    alloc: Global,
    project: &Path,
    is_listed: bool,
    new: &NewTables,
) -> Result<Work, Refusal>
    requires distinct { HaveDistinctKeys new.now.tables }
    requires whole { All (λ row. IsTrue (is_whole row.prefix)) new.now.tables.psr4 }
    ensures told { Tells (λ work. work) (tables_work project.now is_listed new.now) result }
    ensures read_back { OnOk result (AreReadBack project.now new.now.tables) }
    ensures no_device { is_device_fault result ≡ false }
    ensures causes { IfErr result (λ refusal. IsTrue (is_of_tree refusal)) }
{
    let parts = dumped_parts(alloc, project, is_listed, &new.tables)?;
    let lines = counts_text(alloc, new)?;
    Ok(Work {
        job: Job {
            parts: Items::of(parts),
        },
        generation: new.generation,
        lines,
    })
}

/// What is to be committed: the tables of what stands.
fn work_of_standing<T: Tree>(
    alloc: Global,
    project: &Path,
    standing: &Standing,
    tree: &mut T,
    left: &mut Entries,
) -> Result<Work, Refusal>
    requires formed { HasReadManifests (project_of project.now standing.now) }
    ensures told { OfTold (T.meaning tree.old) (λ t. TellsOne (λ work. work) (IsStandingWork t project.now left.old.left left.new.left standing.now) result) }
    ensures work { IfOk result (IsWork project.now) }
    ensures parents { IfOk result (λ work. (t : FileTree) → HasTableFolders project.now t → HasParents project.now work.job.parts t) }
    ensures few { (t : FileTree) → writes_of t result ≤ 8 }
    ensures only_read { OnlyRead (T.meaning tree.old) (T.meaning tree.new) (is_device_fault result) }
    ensures causes { IfErr result (λ refusal. IsTrue (is_of_tree refusal)) }
{
    let members = standing.members.as_slice();
    let new = new_tables(
        alloc,
        tree,
        project,
        &standing.root,
        members,
        standing.setting,
        left,
    )?;
    tables_can_be_printed();
    tables_work(alloc, project, standing.is_listed, &new)
}

/// What is to be committed: the tables of what is installed.
fn dumped_work<T: Tree>(
    alloc: Global,
    project: &Path,
    ways: &Ways,
    tree: &mut T,
    left: &mut Entries,
) -> Result<Work, Refusal>
    ensures told { OfTold (T.meaning tree.old) (λ t. TellsOne (λ work. work) (IsDumped project.now ways.now left.old.left t left.new.left) result) }
    ensures work { IfOk result (IsWork project.now) }
    ensures parents { OfTold (T.meaning tree.old) (λ t. IfOk result (λ work. HasParents project.now work.job.parts t)) }
    ensures few { (t : FileTree) → writes_of t result ≤ 8 }
    ensures only_read { OnlyRead (T.meaning tree.old) (T.meaning tree.new) (is_device_fault result) }
    ensures causes { IfErr result (λ refusal. IsTrue (is_of_tree refusal)) }
{
    let standing = standing_in(alloc, project, ways, tree)?;
    work_of_standing(alloc, project, &standing, tree, left)
}

/// Writes the autoload tables of a project anew, from its composer.json and its installed.json, and answers two lines: how many
/// classes the class map has, and the generation of the tables. What is written are the five tables, `vendor/autoload.php`, and an
/// installed.json without packages where there is none; all else of the project stays. It is done under a claim and by a journal,
/// so that a crash at any moment leaves the old files, or the new ones, or what `recover` makes one of both.
///
/// The refusals come in this order: those of the claim (`Unfinished`; `NoManifest` where the project is no folder); those of
/// composer.json, and then of installed.json; `OtherEntry` where `vendor` or `vendor/composer` is there and no folder; those of
/// the walks for classes; `Limit` where the tables that stand have the last generation; `Limit` of the first text that is too
/// long; those of staging, and `Limit` of the journal. After each of them the project is as it was, and the claim is released; but
/// `DeviceFault`, which can come at any place, ends all calls.
pub fn dump_autoload<T: Tree>(
    alloc: Global,
    project: &Path,
    ways: &Ways,
    tree: &mut T,
) -> Result<Text, Refusal>
    ensures commanded { OfTold (T.meaning tree.old) (λ t. Commanded (IsDumped project.now ways.now ENTRIES) project.now t (T.meaning tree.old) (T.meaning tree.new) result) }
    // At most eight files are written: seven in the project, and the journal.
    ensures few_writes { OfTold (T.meaning tree.old) (λ _. (T.meaning tree.new).writes ≤ after_more (T.meaning tree.old).writes 8) }
    ensures causes { IfErr result (λ refusal. IsTrue (is_of_tree refusal)) }
    ensures device { IsTrue (is_device_fault result) → Rose (T.meaning tree.old).faults (T.meaning tree.new).faults }
{
    let hold = claim_project(alloc, project, tree)?;
    let mut left = all_entries();
    let work = dumped_work(alloc, project, ways, tree, &mut left);
    end_work(alloc, tree, hold, work, &mut left)
}
