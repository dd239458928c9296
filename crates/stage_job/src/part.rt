//! One part of a job staged.

ghost use Rattle.std.specs.Prelude.{◌≡◌, ◌≤◌, ◌++◌, ℕ, List, false, length, nat_lt, None, OnOk};
ghost use Rattle.std.specs.FinMap as map;
ghost use Rattle.tree_dev.specs.Device.{OfTold};
ghost use Rattle.stage_job.specs.Above.{HasWay, front_of};
ghost use Rattle.stage_job.specs.Checked.{bytes_checked, inner_checked, leaf_checked, part_checked};
ghost use Rattle.stage_job.specs.Copied.{IsInNew};
ghost use Rattle.stage_job.specs.Faults.{Answers, is_device_fault};
ghost use Rattle.stage_job.specs.Jobs.{file_alone, folder_entry, is_itself, leaf_entry, part_entry};
ghost use Rattle.stage_job.specs.Parts.{AreInnerFor, IsLeafApart, IsSourceApart, PutsInner};
ghost use Rattle.stage_job.specs.Staged.{IsFree, KeepsTelling, Puts, Staging};
ghost use Rattle.stage_job.specs.Written.{Writes, inner_files, leaf_files, part_files};

use crate::above::make_above;
use crate::fault::StageFault;
use crate::job::{Inner, Leaf, Source};
use crate::mirror::mirror_package;
use crate::putting::{make_folder, put_file};
use path_name::Path;
use std::alloc::Global;
use tree_dev::{Entries, FILE_BYTES, LimitKind, Tree};

/// Whether bytes are more than a file may have.
fn is_too_long(bytes: &[u8]) -> bool
    ensures { result ≡ nat_lt FILE_BYTES (length bytes.now) }
{
    bytes.len() as u64 > FILE_BYTES
}

/// Makes a file of bytes that are to stand at a target. `Limit`: they are too many.
fn stage_bytes<T: Tree>(
    alloc: Global,
    tree: &mut T,
    target: &Path,
    to: &Path,
    bytes: &[u8],
) -> Result<(), StageFault>
    requires free { OfTold (T.meaning tree.old) (IsFree to.now) }
    ensures staging { (project : List (List ℕ)) → IsInNew project to.now → Staging project (T.meaning tree.old) (T.meaning tree.new) (is_device_fault result) }
    ensures tells { KeepsTelling (T.meaning tree.old) (T.meaning tree.new) }
    ensures checked { OfTold (T.meaning tree.old) (λ t. (left : ℕ) → Answers (bytes_checked target.now bytes.now left) left result) }
    ensures staged { OnOk result (OfTold (T.meaning tree.old) (λ t. OfTold (T.meaning tree.new) (Puts to.now (file_alone bytes.now) t))) }
    ensures writes { Writes 1 (T.meaning tree.old).writes (T.meaning tree.new).writes result }
{
    if is_too_long(bytes) {
        return Err(StageFault::Limit(LimitKind::FileBytes(target.copy(alloc)?)));
    }
    put_file(alloc, tree, to, bytes)
}

/// Stages what is to stand at a place of a folder.
fn stage_leaf<T: Tree>(
    alloc: Global,
    tree: &mut T,
    target: &Path,
    to: &Path,
    from: &Leaf,
    left: &mut Entries,
) -> Result<(), StageFault>
    requires apart { IsLeafApart from.now to.now }
    requires free { OfTold (T.meaning tree.old) (IsFree to.now) }
    ensures staging { (project : List (List ℕ)) → IsInNew project to.now → Staging project (T.meaning tree.old) (T.meaning tree.new) (is_device_fault result) }
    ensures tells { KeepsTelling (T.meaning tree.old) (T.meaning tree.new) }
    ensures checked { OfTold (T.meaning tree.old) (λ t. Answers (leaf_checked t target.now from.now left.old.left) left.new.left result) }
    ensures staged { OnOk result (OfTold (T.meaning tree.old) (λ t. OfTold (T.meaning tree.new) (Puts to.now (leaf_entry t from.now) t))) }
    ensures writes { OfTold (T.meaning tree.old) (λ t. Writes (leaf_files t from.now) (T.meaning tree.old).writes (T.meaning tree.new).writes result) }
    ensures entries { left.new.left ≤ left.old.left }
{
    match from {
        Leaf::Copy(source) => mirror_package(alloc, tree, source, to, left),
        Leaf::Bytes(bytes) => stage_bytes(alloc, tree, target, to, bytes.as_slice()),
    }
}

/// Stages a part of a folder, and the folders above it.
fn stage_inner<T: Tree>(
    alloc: Global,
    tree: &mut T,
    target: &Path,
    to: &Path,
    part: &Inner,
    left: &mut Entries,
) -> Result<(), StageFault>
    requires apart { IsLeafApart part.now.from to.now }
    requires below { is_itself part.now.below ≡ false }
    requires way { OfTold (T.meaning tree.old) (HasWay to.now (front_of part.now.below)) }
    requires none { OfTold (T.meaning tree.old) (λ t. (rest : List (List ℕ)) → map.get t ((to.now ++ part.now.below) ++ rest) ≡ None) }
    ensures staging { (project : List (List ℕ)) → IsInNew project to.now → Staging project (T.meaning tree.old) (T.meaning tree.new) (is_device_fault result) }
    ensures tells { KeepsTelling (T.meaning tree.old) (T.meaning tree.new) }
    ensures checked { OfTold (T.meaning tree.old) (λ t. Answers (leaf_checked t (target.now ++ part.now.below) part.now.from left.old.left) left.new.left result) }
    ensures staged { OnOk result (OfTold (T.meaning tree.old) (λ t. OfTold (T.meaning tree.new) (PutsInner to.now part.now t))) }
    ensures writes { OfTold (T.meaning tree.old) (λ t. Writes (leaf_files t part.now.from) (T.meaning tree.old).writes (T.meaning tree.new).writes result) }
    ensures entries { left.new.left ≤ left.old.left }
{
    make_above(alloc, tree, to, &part.below)?;
    let target = target.join(alloc, &part.below)?;
    let to = to.join(alloc, &part.below)?;
    stage_leaf(alloc, tree, &target, &to, &part.from, left)
}

/// Stages a folder of parts.
fn stage_folder<T: Tree>(
    alloc: Global,
    tree: &mut T,
    target: &Path,
    to: &Path,
    inner: &[Inner],
    left: &mut Entries,
) -> Result<(), StageFault>
    requires apart { AreInnerFor inner.now to.now }
    requires free { OfTold (T.meaning tree.old) (IsFree to.now) }
    ensures staging { (project : List (List ℕ)) → IsInNew project to.now → Staging project (T.meaning tree.old) (T.meaning tree.new) (is_device_fault result) }
    ensures tells { KeepsTelling (T.meaning tree.old) (T.meaning tree.new) }
    ensures checked { OfTold (T.meaning tree.old) (λ t. Answers (inner_checked t target.now inner.now left.old.left) left.new.left result) }
    ensures staged { OnOk result (OfTold (T.meaning tree.old) (λ t. OfTold (T.meaning tree.new) (Puts to.now (folder_entry t inner.now) t))) }
    ensures writes { OfTold (T.meaning tree.old) (λ t. Writes (inner_files t inner.now) (T.meaning tree.old).writes (T.meaning tree.new).writes result) }
    ensures entries { left.new.left ≤ left.old.left }
{
    make_folder(alloc, tree, to)?;
    for part in inner {
        stage_inner(alloc, tree, target, to, part, left)?;
    }
    Ok(())
}

/// Stages a part of a job at a path: a copy of a package, a file, a folder of parts, or nothing. `target` is where it will go,
/// which a refusal names.
pub fn stage_part<T: Tree>(
    alloc: Global,
    tree: &mut T,
    target: &Path,
    to: &Path,
    from: &Source,
    left: &mut Entries,
) -> Result<(), StageFault>
    requires apart { IsSourceApart from.now to.now }
    requires free { OfTold (T.meaning tree.old) (IsFree to.now) }
    ensures staging { (project : List (List ℕ)) → IsInNew project to.now → Staging project (T.meaning tree.old) (T.meaning tree.new) (is_device_fault result) }
    ensures tells { KeepsTelling (T.meaning tree.old) (T.meaning tree.new) }
    ensures checked { OfTold (T.meaning tree.old) (λ t. Answers (part_checked t target.now from.now left.old.left) left.new.left result) }
    ensures staged { OnOk result (OfTold (T.meaning tree.old) (λ t. OfTold (T.meaning tree.new) (Puts to.now (part_entry t from.now) t))) }
    ensures writes { OfTold (T.meaning tree.old) (λ t. Writes (part_files t from.now) (T.meaning tree.old).writes (T.meaning tree.new).writes result) }
    ensures entries { left.new.left ≤ left.old.left }
{
    match from {
        Source::Copy(source) => mirror_package(alloc, tree, source, to, left),
        Source::Bytes(bytes) => stage_bytes(alloc, tree, target, to, bytes.as_slice()),
        Source::Folder(inner) => stage_folder(alloc, tree, target, to, inner.as_slice(), left),
        Source::Gone => Ok(()),
    }
}
