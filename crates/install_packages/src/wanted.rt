//! What is wanted of a project, and what has to be changed for it.

ghost use Rattle.std.specs.Prelude.{◌≡◌, All, IsTrue, false, true, IfOk, IfErr};
ghost use Rattle.std.specs.List.{AllByRecursion};
ghost use Rattle.tree_dev.specs.Device.{OfTold, OnlyRead};
ghost use Rattle.manifest_read.specs.Names.{is_package_name};
ghost use Rattle.manifest_read.specs.WellFormed.{IsMember};
ghost use Rattle.package_moves.specs.Wanted.{AreWanted};
ghost use Rattle.stage_job.specs.Jobs.{AreParts};
ghost use Rattle.stage_job.specs.Staging.{HasParents};
ghost use Rattle.table_scan.specs.DistinctKeys.{HaveDistinctKeys};
ghost use Rattle.table_scan.specs.TableGrammar.{is_whole};
ghost use Rattle.run_answers.specs.Faults.{is_device_fault, is_free, is_of_tree};
ghost use Rattle.run_answers.specs.Steps.{TellsOne};
ghost use Rattle.install_packages.specs.InstallParts.{AreFileParts, AreFilesOf, AreWantedParts, IsJob, copy_part, copy_parts, lock_file_of};
ghost use Rattle.install_sources.specs.Sources.{AreSources, IsNamed};

use install_choice::Chosen;
use install_commands::refusal_of_staging;
use install_sources::package_folder;
use lock_file::print_installed;
use package_moves::moves;
use path_name::{Path, Text};
use psr_routes::Placed;
use run_answers::Refusal;
use stage_job::{Job, Part, Source};
use std::alloc::{AllocError, Global};
use table_files::{FilePlace, WrittenFile, parts_of, texts_of, written_files};
use table_scan::Tables;
use tree_dev::{Entries, Tree};

/// The part that is a copy of a package.
fn copy_part(alloc: Global, member: &Placed) -> Result<Part, AllocError>
    requires { is_package_name member.now.package.name ≡ true }
    ensures { IfOk result (λ part. part ≡ copy_part member.now) }
{
    let target = package_folder(alloc, &Path::root(alloc), &member.package.name)?;
    let from = Source::Copy(member.at.copy(alloc)?);
    Ok(Part { target, from })
}

/// The parts that are copies of packages, in their order.
fn copy_parts(alloc: Global, members: &[Placed]) -> Result<Vec<Part>, AllocError>
    requires { AllByRecursion IsNamed members.now }
    ensures { IfOk result (λ parts. parts.items ≡ copy_parts members.now) }
{
    let mut parts = Vec::with_capacity(alloc, members.len())?;
    for member in members {
        parts.push(copy_part(alloc, member)?)?;
    }
    Ok(parts)
}

/// The text of the lock, where it is written.
fn lock_text(alloc: Global, chosen: &Chosen) -> Result<Option<Text>, AllocError>
    ensures { IfOk result (λ text. text ≡ chosen.now.text) }
{
    match &chosen.text {
        None => Ok(None),
        Some(text) => Ok(Some(text.copy(alloc)?)),
    }
}

/// The lock, where it is written.
fn lock_file_of(alloc: Global, chosen: &Chosen) -> Result<WrittenFile, AllocError>
    ensures { IfOk result (λ file. file ≡ lock_file_of chosen.now.text) }
{
    let text = lock_text(alloc, chosen)?;
    Ok(WrittenFile {
        place: FilePlace::Lock,
        text,
    })
}

/// The files that are written: those below `vendor`, and then the lock.
fn files_of(
    alloc: Global,
    project: &Path,
    tables: &Tables,
    chosen: &Chosen,
    dev: bool,
) -> Result<Vec<WrittenFile>, Refusal>
    requires distinct { HaveDistinctKeys tables.now }
    requires whole { All (λ row. IsTrue (is_whole row.prefix)) tables.now.psr4 }
    ensures files { IfOk result (λ files. AreFilesOf project.now tables.now chosen.now dev files.items) }
    ensures free { IfErr result (λ refusal. IsTrue (is_free refusal)) }
    ensures no_device { is_device_fault result ≡ false }
{
    let texts = texts_of(alloc, project, tables)?;
    let installed = print_installed(alloc, &chosen.lock, dev)?;
    let mut files = written_files(alloc, texts, Some(installed))?;
    files.push(lock_file_of(alloc, chosen)?)?;
    Ok(files)
}

/// The parts of the files that are written. `Limit`: the text of one of them, the first in this order, has more than
/// `FILE_BYTES` bytes.
fn file_parts(
    alloc: Global,
    project: &Path,
    tables: &Tables,
    chosen: &Chosen,
    dev: bool,
) -> Result<Vec<Part>, Refusal>
    requires distinct { HaveDistinctKeys tables.now }
    requires whole { All (λ row. IsTrue (is_whole row.prefix)) tables.now.psr4 }
    ensures told { TellsOne (λ parts. parts.items) (AreFileParts project.now tables.now chosen.now dev) result }
    ensures causes { IfErr result (λ refusal. IsTrue (is_of_tree refusal)) }
    ensures no_device { is_device_fault result ≡ false }
{
    let files = files_of(alloc, project, tables, chosen, dev)?;
    parts_of(alloc, project, files)
}

/// All that is wanted of a project: the copies of the packages in their order, the files that are written below `vendor`, and
/// the lock where it is a new one. `Limit`: the text of one of these files, the first in this order, has more than `FILE_BYTES`
/// bytes.
pub fn wanted_parts(
    alloc: Global,
    project: &Path,
    tables: &Tables,
    members: &[Placed],
    chosen: &Chosen,
    dev: bool,
) -> Result<Vec<Part>, Refusal>
    requires sources { AreSources project.now members.now }
    requires distinct { HaveDistinctKeys tables.now }
    requires whole { All (λ row. IsTrue (is_whole row.prefix)) tables.now.psr4 }
    ensures told { TellsOne (λ parts. parts.items) (AreWantedParts project.now members.now tables.now chosen.now dev) result }
    ensures wanted { IfOk result (λ parts. AreWanted parts.items) }
    ensures parts { IfOk result (λ parts. AreParts project.now parts.items) }
    ensures causes { IfErr result (λ refusal. IsTrue (is_of_tree refusal)) }
    ensures no_device { is_device_fault result ≡ false }
{
    let mut files = file_parts(alloc, project, tables, chosen, dev)?;
    let mut parts = copy_parts(alloc, members)?;
    parts.append(&mut files)?;
    Ok(parts)
}

/// What has to be changed for what is wanted. The refusals come in this order: those of the packages' folders, as staging has
/// them, then `Limit` of the entries that stand in `vendor`.
#[tactic(auto, unfolding(crate::specs::InstallParts::IsJob))]
pub fn job_for<T: Tree>(
    alloc: Global,
    project: &Path,
    tree: &mut T,
    wanted: &[Part],
    left: &mut Entries,
) -> Result<Job, Refusal>
    requires wanted { AreWanted wanted.now }
    requires parts { AreParts project.now wanted.now }
    ensures told { OfTold (T.meaning tree.old) (λ t. TellsOne (λ job. (job, left.new.left)) (IsJob t project.now wanted.now left.old.left) result) }
    ensures parts { IfOk result (λ job. AreParts project.now job.parts) }
    ensures parents { IfOk result (λ job. OfTold (T.meaning tree.old) (HasParents project.now job.parts)) }
    ensures causes { IfErr result (λ refusal. IsTrue (is_of_tree refusal)) }
    ensures only_read { OnlyRead (T.meaning tree.old) (T.meaning tree.new) (is_device_fault result) }
{
    match moves(alloc, tree, project, wanted, left) {
        Ok(job) => Ok(job),
        Err(fault) => Err(refusal_of_staging(fault)),
    }
}
