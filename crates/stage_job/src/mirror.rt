//! Packages copied: all files and folders below a package's folder but some top entries, one file at a time.

ghost use Rattle.std.specs.Prelude.{◌≡◌, ◌≤◌, ◌++◌, ◌∷◌, [], true, ℕ, List, IfOk, OnOk, filter, is_some, if◌then◌else◌};
ghost use Rattle.std.specs.FinMap as map;
ghost use Rattle.tree_dev.specs.Trees.{IsListing, entry_at, names_in};
ghost use Rattle.tree_dev.specs.Device.{OfTold, OnlyRead};
ghost use Rattle.tree_dev.specs.Steady.{IsStaged};
ghost use Rattle.stage_job.specs.Checked.{deep_checked, each_checked, entry_checked, folder_checked, kind_checked, package_checked, passes_all, passes_top};
ghost use Rattle.stage_job.specs.Copied.{AreThere, IsEmptyFolder, IsInNew, IsNoFile, names_entry};
ghost use Rattle.stage_job.specs.Faults.{Answers, is_device_fault};
ghost use Rattle.stage_job.specs.Jobs.{AreApart};
ghost use Rattle.stage_job.specs.Mirrored.{is_left_out, mirrored};
ghost use Rattle.stage_job.specs.Staged.{IsFree, KeepsTelling, Puts, Staging};
ghost use Rattle.stage_job.specs.Written.{Writes, entry_files, files_of_names, package_files};

use crate::fault::StageFault;
use crate::putting::{list_names, make_folder, put_file, vanished};
use path_name::{Name, Path, Text};
use std::alloc::{AllocError, Global};
use tree_dev::{Entries, FILE_BYTES, Kind, LimitKind, ReadAnswer, Tree};

/// How many segments an entry may lie below the folder of its package.
const LEVELS: u32 = 64;

/// Whether a top entry of a package is no part of its copy.
#[tactic(auto, unfolding(crate::specs::Mirrored::is_left_out))]
fn is_left_out(name: &[u8]) -> bool
    ensures { result ≡ is_left_out name.now }
{
    name == b"vendor".as_slice() || name == b".git".as_slice() || name == b".install".as_slice()
}

/// Adds the name of a top entry of a package where the entry is copied.
fn add_copied(alloc: Global, kept: &mut Vec<Name>, name: &Name) -> Result<(), AllocError>
    ensures { OnOk result (kept.new.items ≡ kept.old.items ++ (if passes_top name.now then name.now ∷ [] else [])) }
{
    if is_left_out(name.as_slice()) {
        return Ok(());
    }
    kept.push(name.copy(alloc)?)?;
    Ok(())
}

/// The names of a package's top entries that are copied: all but `vendor`, `.git` and `.install`, in the order in which they
/// were given. Its one refusal is want of memory.
pub fn copied_names(alloc: Global, names: &[Name]) -> Result<Vec<Name>, AllocError>
    ensures { IfOk result (λ kept. kept.items ≡ filter passes_top names.now) }
{
    let mut kept = Vec::with_capacity(alloc, names.len())?;
    for name in names {
        add_copied(alloc, &mut kept, name)?;
    }
    Ok(kept)
}

/// Why an entry that lies more than 64 levels below its package's folder is not copied; it never answers Ok. `Limit`: it is a
/// file or a folder, and its depth is told. `OtherEntry`: it is neither. `Vanished`: nothing is there any more.
pub fn refuse_deep<T: Tree>(alloc: Global, tree: &mut T, at: &Path) -> Result<(), StageFault>
    requires there { OfTold (T.meaning tree.old) (λ t. is_some (entry_at t at.now) ≡ true) }
    ensures only_read { OnlyRead (T.meaning tree.old) (T.meaning tree.new) (is_device_fault result) }
    ensures answer { OfTold (T.meaning tree.old) (λ t. (left : ℕ) → Answers (deep_checked at.now (entry_at t at.now) left) left result) }
    ensures refused { OnOk result ⊥ }
{
    match tree.stat(at)? {
        Kind::Absent => Err(StageFault::Vanished(at.copy(alloc)?)),
        Kind::Other => Err(StageFault::OtherEntry(at.copy(alloc)?)),
        Kind::File => Err(StageFault::Limit(LimitKind::Depth(at.copy(alloc)?))),
        Kind::Folder => Err(StageFault::Limit(LimitKind::Depth(at.copy(alloc)?))),
    }
}

/// Copies the entry at a path, and what lies below it, where so many more levels are allowed. A file is read first and asked
/// for its kind only where it is none, since most entries are files.
#[cycle(mirror)]
fn mirror_entry<T: Tree>(
    alloc: Global,
    tree: &mut T,
    from: &Path,
    to: &Path,
    levels: u32,
    left: &mut Entries,
) -> Result<(), StageFault>
    requires apart { AreApart from.now to.now }
    requires there { OfTold (T.meaning tree.old) (λ t. is_some (entry_at t from.now) ≡ true) }
    requires free { OfTold (T.meaning tree.old) (IsFree to.now) }
    ensures staging { (project : List (List ℕ)) → IsInNew project to.now → Staging project (T.meaning tree.old) (T.meaning tree.new) (is_device_fault result) }
    ensures tells { KeepsTelling (T.meaning tree.old) (T.meaning tree.new) }
    ensures checked { OfTold (T.meaning tree.old) (λ t. Answers (entry_checked levels t from.now left.old.left) left.new.left result) }
    ensures copied { OnOk result (OfTold (T.meaning tree.old) (λ t. OfTold (T.meaning tree.new) (Puts to.now (λ below. map.get t (from.now ++ below)) t))) }
    ensures writes { OfTold (T.meaning tree.old) (λ t. Writes (entry_files levels t from.now) (T.meaning tree.old).writes (T.meaning tree.new).writes result) }
    ensures entries { left.new.left ≤ left.old.left }
{
    if levels == 0 {
        return refuse_deep(alloc, tree, from);
    }
    match tree.read(alloc, from, FILE_BYTES)? {
        ReadAnswer::Bytes(bytes) => put_file(alloc, tree, to, bytes.as_slice()),
        ReadAnswer::NotFile => mirror_folder(alloc, tree, from, to, levels - 1, left),
        ReadAnswer::TooLong => Err(StageFault::Limit(LimitKind::FileBytes(from.copy(alloc)?))),
        ReadAnswer::Absent => vanished(alloc, from),
    }
}

/// Copies a folder and what lies below it, where so many levels are allowed below.
#[cycle(mirror)]
fn mirror_folder<T: Tree>(
    alloc: Global,
    tree: &mut T,
    from: &Path,
    to: &Path,
    levels: u32,
    left: &mut Entries,
) -> Result<(), StageFault>
    requires apart { AreApart from.now to.now }
    requires no_file { OfTold (T.meaning tree.old) (IsNoFile from.now) }
    requires free { OfTold (T.meaning tree.old) (IsFree to.now) }
    ensures staging { (project : List (List ℕ)) → IsInNew project to.now → Staging project (T.meaning tree.old) (T.meaning tree.new) (is_device_fault result) }
    ensures tells { KeepsTelling (T.meaning tree.old) (T.meaning tree.new) }
    ensures checked { OfTold (T.meaning tree.old) (λ t. Answers (kind_checked (folder_checked (entry_checked levels t) passes_all t from.now left.old.left) from.now (entry_at t from.now) left.old.left) left.new.left result) }
    ensures copied { OnOk result (OfTold (T.meaning tree.old) (λ t. OfTold (T.meaning tree.new) (Puts to.now (λ below. map.get t (from.now ++ below)) t))) }
    ensures writes { OfTold (T.meaning tree.old) (λ t. Writes (files_of_names levels t from.now (names_in t from.now)) (T.meaning tree.old).writes (T.meaning tree.new).writes result) }
    ensures entries { left.new.left ≤ left.old.left }
{
    match list_names(alloc, tree, from, left)? {
        None => vanished(alloc, from),
        Some(names) => {
            make_folder(alloc, tree, to)?;
            mirror_names(alloc, tree, from, to, names.as_slice(), levels, left)
        }
    }
}

/// Copies the entries of these names from one folder into another, which is empty.
#[cycle(mirror)]
fn mirror_names<T: Tree>(
    alloc: Global,
    tree: &mut T,
    from: &Path,
    to: &Path,
    names: &[Name],
    levels: u32,
    left: &mut Entries,
) -> Result<(), StageFault>
    requires apart { AreApart from.now to.now }
    requires listing { IsListing names.now }
    requires there { OfTold (T.meaning tree.old) (λ t. AreThere t from.now names.now) }
    requires empty { OfTold (T.meaning tree.old) (IsEmptyFolder to.now) }
    ensures staging { (project : List (List ℕ)) → IsInNew project to.now → Staging project (T.meaning tree.old) (T.meaning tree.new) (is_device_fault result) }
    ensures tells { KeepsTelling (T.meaning tree.old) (T.meaning tree.new) }
    ensures checked { OfTold (T.meaning tree.old) (λ t. Answers (each_checked (entry_checked levels t) from.now names.now left.old.left) left.new.left result) }
    ensures copied { OnOk result (OfTold (T.meaning tree.old) (λ t. OfTold (T.meaning tree.new) (Puts to.now (names_entry t from.now names.now) t))) }
    ensures writes { OfTold (T.meaning tree.old) (λ t. Writes (files_of_names levels t from.now names.now) (T.meaning tree.old).writes (T.meaning tree.new).writes result) }
    ensures entries { left.new.left ≤ left.old.left }
{
    for name in names {
        let from_child = from.child(alloc, name.as_slice())?;
        let to_child = to.child(alloc, name.as_slice())?;
        mirror_entry(alloc, tree, &from_child, &to_child, levels, left)?;
    }
    Ok(())
}

/// Copies a package. `MissingPath`: nothing is at its folder's path. `OtherEntry`: no folder is there, or below it stands what
/// is neither a file nor a folder. `Limit`: a file is too long, an entry lies too deep, or too many entries were to be listed.
pub fn mirror_package<T: Tree>(
    alloc: Global,
    tree: &mut T,
    from: &Path,
    to: &Path,
    left: &mut Entries,
) -> Result<(), StageFault>
    requires apart { AreApart from.now to.now }
    requires free { OfTold (T.meaning tree.old) (IsFree to.now) }
    ensures staging { (project : List (List ℕ)) → IsInNew project to.now → Staging project (T.meaning tree.old) (T.meaning tree.new) (is_device_fault result) }
    ensures tells { KeepsTelling (T.meaning tree.old) (T.meaning tree.new) }
    ensures checked { OfTold (T.meaning tree.old) (λ t. Answers (package_checked t from.now left.old.left) left.new.left result) }
    ensures copied { OnOk result (OfTold (T.meaning tree.old) (λ t. OfTold (T.meaning tree.new) (Puts to.now (mirrored t from.now) t))) }
    ensures writes { OfTold (T.meaning tree.old) (λ t. Writes (package_files t from.now) (T.meaning tree.old).writes (T.meaning tree.new).writes result) }
    ensures entries { left.new.left ≤ left.old.left }
{
    match list_names(alloc, tree, from, left)? {
        None => Err(StageFault::MissingPath(Text::copy_of(alloc, from.text())?)),
        Some(names) => {
            make_folder(alloc, tree, to)?;
            let names = copied_names(alloc, names.as_slice())?;
            mirror_names(alloc, tree, from, to, names.as_slice(), LEVELS, left)
        }
    }
}
