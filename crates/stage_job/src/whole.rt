//! A job staged whole beside its project.

ghost use Rattle.std.specs.Prelude.{◌≡◌, ◌≤◌, ◌++◌, ◌∷◌, [], false, ℕ, List, Ok, IfOk, OnOk, length};
ghost use Rattle.path_name.specs.Decimals.{decimal_text};
ghost use Rattle.tree_dev.specs.Device.{OfTold};
ghost use Rattle.tree_dev.specs.Steady.{EachImage};
ghost use Rattle.stage_job.specs.Checked.{job_checked, part_checked};
ghost use Rattle.stage_job.specs.Copied.{IsInNew};
ghost use Rattle.stage_job.specs.Faults.{Answers, is_device_fault, is_vanished};
ghost use Rattle.stage_job.specs.Jobs.{AreParts, part_entry};
ghost use Rattle.stage_job.specs.Parts.{IsSourceApart};
ghost use Rattle.stage_job.specs.Places.{new_path};
ghost use Rattle.stage_job.specs.Staged.{IsClaimed, IsFree, IsStagedJob, KeepsTelling, Puts, Staging};
ghost use Rattle.stage_job.specs.Staging.{HasParents, HasProject, HasWorkFolders, PutsParents, PutsParts};
ghost use Rattle.stage_job.specs.Written.{Writes, job_files, part_files};

use crate::above::make_above;
use crate::fault::StageFault;
use crate::job::{Job, Part};
use crate::part::stage_part;
use crate::putting::make_folder;
use path_name::{Path, push_number};
use std::alloc::{AllocError, Global};
use tree_dev::{Entries, Tree};

/// A number's digits. Its one refusal is want of memory.
fn number_name(alloc: Global, number: u64) -> Result<Vec<u8>, AllocError>
    ensures { IfOk result (λ name. name.items ≡ decimal_text number) }
{
    let mut name = Vec::new(alloc);
    push_number(&mut name, number)?;
    Ok(name)
}

/// Stages the part of this number.
fn stage_numbered<T: Tree>(
    alloc: Global,
    tree: &mut T,
    project: &Path,
    new: &Path,
    number: u64,
    part: &Part,
    left: &mut Entries,
) -> Result<(), StageFault>
    requires apart { IsSourceApart part.now.from (new.now ++ decimal_text number ∷ []) }
    requires free { OfTold (T.meaning tree.old) (IsFree (new.now ++ decimal_text number ∷ [])) }
    ensures staging { IsInNew project.now new.now → Staging project.now (T.meaning tree.old) (T.meaning tree.new) (is_device_fault result) }
    ensures tells { KeepsTelling (T.meaning tree.old) (T.meaning tree.new) }
    ensures checked { OfTold (T.meaning tree.old) (λ t. Answers (part_checked t (project.now ++ part.now.target) part.now.from left.old.left) left.new.left result) }
    ensures staged { OnOk result (OfTold (T.meaning tree.old) (λ t. OfTold (T.meaning tree.new) (Puts (new.now ++ decimal_text number ∷ []) (part_entry t part.now.from) t))) }
    ensures writes { OfTold (T.meaning tree.old) (λ t. Writes (part_files t part.now.from) (T.meaning tree.old).writes (T.meaning tree.new).writes result) }
    ensures entries { left.new.left ≤ left.old.left }
{
    let name = number_name(alloc, number)?;
    let to = new.child(alloc, name.as_slice())?;
    let target = project.join(alloc, &part.target)?;
    stage_part(alloc, tree, &target, &to, &part.from, left)
}

/// Stages parts, each under its number.
fn stage_parts<T: Tree>(
    alloc: Global,
    tree: &mut T,
    project: &Path,
    new: &Path,
    parts: &[Part],
    left: &mut Entries,
) -> Result<(), StageFault>
    requires new { new.now ≡ new_path project.now }
    requires parts { AreParts project.now parts.now }
    requires empty { OfTold (T.meaning tree.old) (λ t. PutsParts project.now parts.now 0 t t) }
    ensures staging { Staging project.now (T.meaning tree.old) (T.meaning tree.new) (is_device_fault result) }
    ensures tells { KeepsTelling (T.meaning tree.old) (T.meaning tree.new) }
    ensures checked { OfTold (T.meaning tree.old) (λ t. Answers (job_checked project.now t parts.now left.old.left) left.new.left result) }
    ensures staged { OnOk result (OfTold (T.meaning tree.old) (λ t. OfTold (T.meaning tree.new) (PutsParts project.now parts.now (length parts.now) t))) }
    ensures writes { OfTold (T.meaning tree.old) (λ t. Writes (job_files t parts.now) (T.meaning tree.old).writes (T.meaning tree.new).writes result) }
    ensures entries { left.new.left ≤ left.old.left }
{
    for (number, part) in parts.iter().enumerate() {
        stage_numbered(alloc, tree, project, new, number as u64, part, left)?;
    }
    Ok(())
}

/// Makes the folders that are missing above the targets of parts.
fn make_parents<T: Tree>(
    alloc: Global,
    tree: &mut T,
    project: &Path,
    parts: &[Part],
) -> Result<(), StageFault>
    requires parts { AreParts project.now parts.now }
    requires project { OfTold (T.meaning tree.old) (HasProject project.now) }
    requires parents { OfTold (T.meaning tree.old) (HasParents project.now parts.now) }
    ensures staging { Staging project.now (T.meaning tree.old) (T.meaning tree.new) (is_device_fault result) }
    ensures tells { KeepsTelling (T.meaning tree.old) (T.meaning tree.new) }
    ensures answer { OfTold (T.meaning tree.old) (λ t. (left : ℕ) → Answers (Ok left) left result) }
    ensures made { OnOk result (OfTold (T.meaning tree.old) (λ t. OfTold (T.meaning tree.new) (PutsParents project.now parts.now t))) }
    ensures writes { (T.meaning tree.new).writes ≡ (T.meaning tree.old).writes }
{
    for part in parts {
        make_above(alloc, tree, project, &part.target)?;
    }
    Ok(())
}

/// Makes `.install/new` and `.install/old`, and answers the path of the first.
fn make_work_folders<T: Tree>(
    alloc: Global,
    tree: &mut T,
    project: &Path,
) -> Result<Path, StageFault>
    requires claimed { OfTold (T.meaning tree.old) (IsClaimed project.now) }
    ensures new { IfOk result (λ new. new ≡ new_path project.now) }
    ensures staging { Staging project.now (T.meaning tree.old) (T.meaning tree.new) (is_device_fault result) }
    ensures tells { KeepsTelling (T.meaning tree.old) (T.meaning tree.new) }
    ensures answer { OfTold (T.meaning tree.old) (λ t. (left : ℕ) → Answers (Ok left) left result) }
    ensures made { OnOk result (OfTold (T.meaning tree.old) (λ t. OfTold (T.meaning tree.new) (HasWorkFolders project.now t))) }
    ensures writes { (T.meaning tree.new).writes ≡ (T.meaning tree.old).writes }
{
    let work = project.child(alloc, b".install")?;
    let new = work.child(alloc, b"new")?;
    let old = work.child(alloc, b"old")?;
    make_folder(alloc, tree, &new)?;
    make_folder(alloc, tree, &old)?;
    Ok(new)
}

/// Stages the parts of a job, as `stage` does.
fn stage_whole<T: Tree>(
    alloc: Global,
    tree: &mut T,
    project: &Path,
    parts: &[Part],
    left: &mut Entries,
) -> Result<(), StageFault>
    requires parts { AreParts project.now parts.now }
    requires claimed { OfTold (T.meaning tree.old) (IsClaimed project.now) }
    requires parents { OfTold (T.meaning tree.old) (HasParents project.now parts.now) }
    ensures staging { Staging project.now (T.meaning tree.old) (T.meaning tree.new) (is_device_fault result) }
    ensures tells { KeepsTelling (T.meaning tree.old) (T.meaning tree.new) }
    ensures exact { OfTold (T.meaning tree.old) (λ t. Answers (job_checked project.now t parts.now left.old.left) left.new.left result) }
    ensures staged { OnOk result (OfTold (T.meaning tree.old) (λ t. OfTold (T.meaning tree.new) (λ u. IsStagedJob project.now parts.now t u
        × EachImage (T.meaning tree.new) (λ left. left ≡ u)))) }
    ensures writes { OfTold (T.meaning tree.old) (λ t. Writes (job_files t parts.now) (T.meaning tree.old).writes (T.meaning tree.new).writes result) }
    ensures entries { left.new.left ≤ left.old.left }
{
    let new = make_work_folders(alloc, tree, project)?;
    stage_parts(alloc, tree, project, &new, parts, left)?;
    make_parents(alloc, tree, project, parts)?;
    tree.barrier()?;
    Ok(())
}

/// Stages a job beside its project: makes `.install/new` and `.install/old`, puts part k at `.install/new/k`, makes the folders
/// that are missing above the targets, and then makes all of it safe by a barrier. `left` is the number of entries that may
/// still be listed; it is lowered by those that were. The refusals come in the order of parts, and of one package in the order
/// of paths: `MissingPath` where nothing is at the folder of a package, `OtherEntry` where that is no folder or where an entry
/// is neither a file nor a folder, `Limit` where a file is longer than `FILE_BYTES`, an entry lies more than 64 segments below
/// its package, or more entries would be listed than are left. `Vanished` comes only where an entry that was shown or made is
/// gone, or something stands where nothing did, and never over a tree that tells; `DeviceFault` only where the tree's count of
/// faults rose. It makes one call of `write` a file that the parts put, and no more than these where it refuses.
pub fn stage<T: Tree>(
    alloc: Global,
    tree: &mut T,
    project: &Path,
    job: &Job,
    left: &mut Entries,
) -> Result<(), StageFault>
    requires parts { AreParts project.now job.now.parts }
    requires claimed { OfTold (T.meaning tree.old) (IsClaimed project.now) }
    requires parents { OfTold (T.meaning tree.old) (HasParents project.now job.now.parts) }
    ensures staging { Staging project.now (T.meaning tree.old) (T.meaning tree.new) (is_device_fault result) }
    ensures tells { KeepsTelling (T.meaning tree.old) (T.meaning tree.new) }
    ensures exact { OfTold (T.meaning tree.old) (λ t. Answers (job_checked project.now t job.now.parts left.old.left) left.new.left result) }
    ensures staged { OnOk result (OfTold (T.meaning tree.old) (λ t. OfTold (T.meaning tree.new) (λ u. IsStagedJob project.now job.now.parts t u
        × EachImage (T.meaning tree.new) (λ left. left ≡ u)))) }
    ensures writes { OfTold (T.meaning tree.old) (λ t. Writes (job_files t job.now.parts) (T.meaning tree.old).writes (T.meaning tree.new).writes result) }
    ensures never_vanished { OfTold (T.meaning tree.old) (λ _. is_vanished result ≡ false) }
    ensures entries { left.new.left ≤ left.old.left }
{
    stage_whole(alloc, tree, project, job.parts.as_slice(), left)
}
