//! Packages walked beside their targets: each entry of the source once, and beside it what stands at its place in the target.

ghost use Rattle.std.specs.Prelude.{◌≡◌, ◌≤◌, ◌+◌, ◌++◌, ℕ, IfOk, true, is_some, Some};
ghost use Rattle.tree_dev.specs.Trees.{IsListing, entry_at};
ghost use Rattle.std.specs.Bool.{Decides};
ghost use Rattle.std.specs.Result.{IfErr};
ghost use Rattle.tree_dev.specs.Device.{OfTold, OnlyRead};
ghost use Rattle.tree_dev.specs.declared.entry.Entry.TheVariants as entries;
ghost use Rattle.stage_job.specs.Checked.{each_checked, entry_checked, bytes_checked, folder_checked, kind_checked, package_checked, part_checked, passes_all};
ghost use Rattle.stage_job.specs.Copied.{AreThere, IsNoFile};
ghost use Rattle.stage_job.specs.Faults.{Answers, is_device_fault};
ghost use Rattle.package_moves.specs.Beside.{AreAlike, HasCopy, HasEntries, IsAlikeAt, IsWalked, MayCome};
ghost use Rattle.package_moves.specs.Counted.{beside_count, each_count, names_count, package_count, target_count};
ghost use Rattle.package_moves.specs.Wanted.{Stands, is_leaf_source};

use crate::counts::Counts;
use crate::listing::list_counted;
use path_name::{Name, Path, Text};
use stage_job::{Part, Source, StageFault, copied_names, list_names, refuse_deep};
use std::alloc::Global;
use tree_dev::{FILE_BYTES, LimitKind, ReadAnswer, Tree};

/// How many segments an entry may lie below the folder of its package.
const LEVELS: u32 = 64;

/// Whether exactly these bytes stand as a file at a path. No more bytes are asked for than these.
fn holds_bytes<T: Tree>(
    alloc: Global,
    tree: &mut T,
    at: &Path,
    bytes: &[u8],
) -> Result<bool, StageFault>
    ensures only_read { OnlyRead (T.meaning tree.old) (T.meaning tree.new) (is_device_fault result) }
    ensures cause { IfErr result MayCome }
    ensures holds { IfOk result (λ does. OfTold (T.meaning tree.old) (λ t. Decides does (entry_at t at.now ≡ Some (entries.File bytes.now)))) }
{
    match tree.read(alloc, at, bytes.len() as u64)? {
        ReadAnswer::Bytes(found) => Ok(found.as_slice() == bytes),
        ReadAnswer::Absent => Ok(false),
        ReadAnswer::NotFile => Ok(false),
        ReadAnswer::TooLong => Ok(false),
    }
}

/// The same, where nothing differed before; else the file is not read.
fn holds_same<T: Tree>(
    alloc: Global,
    tree: &mut T,
    at: &Path,
    bytes: &[u8],
    same: bool,
) -> Result<bool, StageFault>
    ensures only_read { OnlyRead (T.meaning tree.old) (T.meaning tree.new) (is_device_fault result) }
    ensures cause { IfErr result MayCome }
    ensures holds { IfOk result (λ does. OfTold (T.meaning tree.old) (λ t. Decides does ((same ≡ true) × (entry_at t at.now ≡ Some (entries.File bytes.now))))) }
{
    if !same {
        return Ok(false);
    }
    holds_bytes(alloc, tree, at, bytes)
}

/// Walks the entry at a path of a package, and what lies below it, where so many more levels are allowed. It answers whether
/// all was the same before, and the same stands in the target.
#[cycle(beside)]
fn walk_entry<T: Tree>(
    alloc: Global,
    tree: &mut T,
    from: &Path,
    to: &Path,
    levels: u32,
    same: bool,
    counts: &mut Counts,
) -> Result<bool, StageFault>
    requires there { OfTold (T.meaning tree.old) (λ t. is_some (entry_at t from.now) ≡ true) }
    ensures only_read { OnlyRead (T.meaning tree.old) (T.meaning tree.new) (is_device_fault result) }
    ensures checked { OfTold (T.meaning tree.old) (λ t. Answers (entry_checked levels t from.now counts.old.left.left) counts.new.left.left result) }
    ensures walked { IfOk result (λ alike. OfTold (T.meaning tree.old) (λ t. IsWalked (beside_count levels t from.now to.now) (IsAlikeAt t from.now to.now) same counts.old counts.new alike)) }
    ensures entries { counts.new.left.left ≤ counts.old.left.left }
{
    if levels == 0 {
        refuse_deep(alloc, tree, from)?;
        return Ok(false);
    }
    match tree.read(alloc, from, FILE_BYTES)? {
        ReadAnswer::Bytes(bytes) => holds_same(alloc, tree, to, bytes.as_slice(), same),
        ReadAnswer::NotFile => walk_folder(alloc, tree, from, to, levels - 1, same, counts),
        ReadAnswer::TooLong => Err(StageFault::Limit(LimitKind::FileBytes(from.copy(alloc)?))),
        ReadAnswer::Absent => Err(StageFault::Vanished(from.copy(alloc)?)),
    }
}

/// Walks a folder of a package and what lies below it, where so many levels are allowed below.
#[cycle(beside)]
fn walk_folder<T: Tree>(
    alloc: Global,
    tree: &mut T,
    from: &Path,
    to: &Path,
    levels: u32,
    same: bool,
    counts: &mut Counts,
) -> Result<bool, StageFault>
    requires no_file { OfTold (T.meaning tree.old) (IsNoFile from.now) }
    ensures only_read { OnlyRead (T.meaning tree.old) (T.meaning tree.new) (is_device_fault result) }
    ensures checked { OfTold (T.meaning tree.old) (λ t. Answers (kind_checked (folder_checked (entry_checked levels t) passes_all t from.now counts.old.left.left) from.now (entry_at t from.now) counts.old.left.left) counts.new.left.left result) }
    ensures walked { IfOk result (λ alike. OfTold (T.meaning tree.old) (λ t. IsWalked (beside_count (levels + 1) t from.now to.now) (IsAlikeAt t from.now to.now) same counts.old counts.new alike)) }
    ensures entries { counts.new.left.left ≤ counts.old.left.left }
{
    match list_names(alloc, tree, from, &mut counts.left)? {
        None => Err(StageFault::Vanished(from.copy(alloc)?)),
        Some(names) => walk_listed(
            alloc,
            tree,
            from,
            to,
            names.as_slice(),
            levels,
            same,
            counts,
        ),
    }
}

/// Lists what stands beside a folder of a package, and walks the entries of these names.
#[cycle(beside)]
fn walk_listed<T: Tree>(
    alloc: Global,
    tree: &mut T,
    from: &Path,
    to: &Path,
    names: &[Name],
    levels: u32,
    same: bool,
    counts: &mut Counts,
) -> Result<bool, StageFault>
    requires listing { IsListing names.now }
    requires there { OfTold (T.meaning tree.old) (λ t. AreThere t from.now names.now) }
    ensures only_read { OnlyRead (T.meaning tree.old) (T.meaning tree.new) (is_device_fault result) }
    ensures checked { OfTold (T.meaning tree.old) (λ t. Answers (each_checked (entry_checked levels t) from.now names.now counts.old.left.left) counts.new.left.left result) }
    ensures walked { IfOk result (λ alike. OfTold (T.meaning tree.old) (λ t. IsWalked (names_count t to.now + each_count (beside_count levels t) from.now to.now names.now) (HasEntries t from.now to.now names.now) same counts.old counts.new alike)) }
    ensures entries { counts.new.left.left ≤ counts.old.left.left }
{
    let found = list_counted(alloc, tree, to, counts)?;
    let same = found.goes_on(same, names);
    walk_names(alloc, tree, from, to, names, levels, same, counts)
}

/// Walks the entries of these names in a folder.
#[cycle(beside)]
fn walk_names<T: Tree>(
    alloc: Global,
    tree: &mut T,
    from: &Path,
    to: &Path,
    names: &[Name],
    levels: u32,
    same: bool,
    counts: &mut Counts,
) -> Result<bool, StageFault>
    requires listing { IsListing names.now }
    requires there { OfTold (T.meaning tree.old) (λ t. AreThere t from.now names.now) }
    ensures only_read { OnlyRead (T.meaning tree.old) (T.meaning tree.new) (is_device_fault result) }
    ensures checked { OfTold (T.meaning tree.old) (λ t. Answers (each_checked (entry_checked levels t) from.now names.now counts.old.left.left) counts.new.left.left result) }
    ensures walked { IfOk result (λ alike. OfTold (T.meaning tree.old) (λ t. IsWalked (each_count (beside_count levels t) from.now to.now names.now) (AreAlike t from.now to.now names.now) same counts.old counts.new alike)) }
    ensures entries { counts.new.left.left ≤ counts.old.left.left }
{
    let mut alike = same;
    for name in names {
        let from_child = from.child(alloc, name.as_slice())?;
        let to_child = to.child(alloc, name.as_slice())?;
        alike = walk_entry(alloc, tree, &from_child, &to_child, levels, alike, counts)?;
    }
    Ok(alike)
}

/// Walks a package beside its target. It answers whether the target holds exactly what a copy of the package holds.
fn walk_package<T: Tree>(
    alloc: Global,
    tree: &mut T,
    from: &Path,
    to: &Path,
    counts: &mut Counts,
) -> Result<bool, StageFault>
    ensures only_read { OnlyRead (T.meaning tree.old) (T.meaning tree.new) (is_device_fault result) }
    ensures checked { OfTold (T.meaning tree.old) (λ t. Answers (package_checked t from.now counts.old.left.left) counts.new.left.left result) }
    ensures walked { IfOk result (λ alike. OfTold (T.meaning tree.old) (λ t. IsWalked (package_count t from.now to.now) (HasCopy t from.now to.now) true counts.old counts.new alike)) }
    ensures entries { counts.new.left.left ≤ counts.old.left.left }
{
    match list_names(alloc, tree, from, &mut counts.left)? {
        None => Err(StageFault::MissingPath(Text::copy_of(alloc, from.text())?)),
        Some(names) => {
            let copied = copied_names(alloc, names.as_slice())?;
            walk_listed(
                alloc,
                tree,
                from,
                to,
                copied.as_slice(),
                LEVELS,
                true,
                counts,
            )
        }
    }
}

/// Looks at bytes that are to stand at a target. `Limit`: they are too many.
fn look_at_bytes<T: Tree>(
    alloc: Global,
    tree: &mut T,
    to: &Path,
    bytes: &[u8],
) -> Result<bool, StageFault>
    ensures only_read { OnlyRead (T.meaning tree.old) (T.meaning tree.new) (is_device_fault result) }
    ensures checked { OfTold (T.meaning tree.old) (λ t. (left : ℕ) → Answers (bytes_checked to.now bytes.now left) left result) }
    ensures holds { IfOk result (λ does. OfTold (T.meaning tree.old) (λ t. Decides does (entry_at t to.now ≡ Some (entries.File bytes.now)))) }
{
    if bytes.len() as u64 > FILE_BYTES {
        return Err(StageFault::Limit(LimitKind::FileBytes(to.copy(alloc)?)));
    }
    holds_bytes(alloc, tree, to, bytes)
}

/// Whether the target of a part holds already exactly what it is to hold. Its source is walked, with the refusals of staging,
/// and the folders of the target that stand beside folders of the source are listed.
pub fn stands<T: Tree>(
    alloc: Global,
    tree: &mut T,
    project: &Path,
    part: &Part,
    counts: &mut Counts,
) -> Result<bool, StageFault>
    requires leaf { is_leaf_source part.now.from ≡ true }
    ensures only_read { OnlyRead (T.meaning tree.old) (T.meaning tree.new) (is_device_fault result) }
    ensures checked { OfTold (T.meaning tree.old) (λ t. Answers (part_checked t (project.now ++ part.now.target) part.now.from counts.old.left.left) counts.new.left.left result) }
    ensures walked { IfOk result (λ alike. OfTold (T.meaning tree.old) (λ t. IsWalked (target_count t (project.now ++ part.now.target) part.now.from) (Stands project.now t part.now) true counts.old counts.new alike)) }
    ensures entries { counts.new.left.left ≤ counts.old.left.left }
{
    let to = project.join(alloc, &part.target)?;
    match &part.from {
        Source::Copy(from) => walk_package(alloc, tree, from, &to, counts),
        Source::Bytes(bytes) => look_at_bytes(alloc, tree, &to, bytes.as_slice()),
        Source::Folder(_) => Ok(false),
        Source::Gone => Ok(false),
    }
}
