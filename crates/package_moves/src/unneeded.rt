//! The entries of `vendor` that no part needs, and those in the way of parts.

ghost use Rattle.std.specs.Prelude.{◌≡◌, ◌++◌, ◌∷◌, [], List, ℕ, true, false, IfOk, OnOk};
ghost use Rattle.std.specs.BTreeSet.{contains};
ghost use Rattle.std.specs.Result.{IfErr};
ghost use Rattle.tree_dev.specs.Trees.{IsListing};
ghost use Rattle.tree_dev.specs.Device.{OfTold, OnlyRead};
ghost use Rattle.path_name.specs.Orders.{path_cmp};
ghost use Rattle.stage_job.specs.Faults.{is_device_fault};
ghost use Rattle.package_moves.specs.Beside.{AreCounted, MayCome};
ghost use Rattle.package_moves.specs.Found.{AddsName, AddsNames, IsFoundIn};
ghost use Rattle.package_moves.specs.Known.{AddsKnown, IsKnown};
ghost use Rattle.package_moves.specs.Needed.{above_count, above_counts, if_other, needs_in, others_in, vendor_count};
ghost use Rattle.package_moves.specs.Wanted.{vendor_name};

use crate::counts::Counts;
use crate::listing::{Listed, list_counted};
use crate::needed::Needed;
use path_name::{Name, Path};
use stage_job::StageFault;
use std::alloc::{AllocError, Global};
use std::collections::BTreeSet;
use tree_dev::Tree;

/// What was found in `vendor`, by paths from the project.
#[derive(Drop)]
pub struct Found {
    /// The topmost entries that no target needs, in path order.
    pub unneeded: Vec<Path>,
    /// The paths of folders that targets are to stand in, at which something else stands.
    pub blocked: BTreeSet<Path>,
    /// Something else than a folder stands at `vendor`.
    pub no_folder: bool,
}

impl Found {
    /// Nothing was found yet.
    fn nothing(alloc: Global, no_folder: bool) -> Found
        ensures unneeded { result.unneeded.items ≡ [] }
        ensures blocked { result.blocked.keys ≡ [] }
        ensures no_folder { result.no_folder ≡ no_folder }
    {
        Found {
            unneeded: Vec::new(alloc),
            blocked: BTreeSet::new(alloc),
            no_folder,
        }
    }
}

/// Adds a path that is no target.
fn add_other(
    alloc: Global,
    needed: &Needed,
    path: Path,
    unneeded: &mut Vec<Path>,
) -> Result<(), AllocError>
    ensures { OnOk result (unneeded.new.items ≡ unneeded.old.items ++ if_other (contains path_cmp needed.now.targets path) path) }
{
    if !needed.is_target(&path) {
        unneeded.push(path)?;
    }
    Ok(())
}

/// Adds the entries of these names in a folder that are no target.
fn add_others(
    alloc: Global,
    needed: &Needed,
    folder: &Path,
    names: &[Name],
    unneeded: &mut Vec<Path>,
) -> Result<(), AllocError>
    requires listing { IsListing names.now }
    ensures { OnOk result (unneeded.new.items ≡ unneeded.old.items ++ others_in (needs_in needed.now) folder.now names.now) }
{
    for name in names {
        let path = folder.child(alloc, name.as_slice())?;
        add_other(alloc, needed, path, unneeded)?;
    }
    Ok(())
}

/// Looks at the folder at a path of `vendor` that targets stand in.
fn look_above<T: Tree>(
    alloc: Global,
    tree: &mut T,
    project: &Path,
    needed: &Needed,
    path: Path,
    counts: &mut Counts,
    found: &mut Found,
) -> Result<(), StageFault>
    requires above { contains path_cmp needed.now.above path ≡ true }
    ensures only_read { OnlyRead (T.meaning tree.old) (T.meaning tree.new) (is_device_fault result) }
    ensures cause { IfErr result MayCome }
    ensures kept { counts.new.left ≡ counts.old.left }
    ensures vendor { found.new.no_folder ≡ found.old.no_folder }
    ensures counted { OnOk result (OfTold (T.meaning tree.old) (λ t. AreCounted (above_count (needs_in needed.now) project.now t path) counts.old counts.new)) }
    ensures known { (name : List ℕ) → path ≡ vendor_name ++ name ∷ [] → OnOk result (AddsKnown (needs_in needed.now) name found.old found.new) }
    ensures adds { OnOk result (OfTold (T.meaning tree.old) (λ t. counts.new.passed ≡ false → AddsName (needs_in needed.now) project.now t path found.old found.new)) }
{
    let at = project.join(alloc, &path)?;
    match list_counted(alloc, tree, &at, counts)? {
        Listed::Names(names) => {
            add_others(alloc, needed, &path, names.as_slice(), &mut found.unneeded)?;
            Ok(())
        }
        Listed::Nothing => Ok(()),
        Listed::Other => {
            found.blocked.insert(path)?;
            Ok(())
        }
    }
}

/// Looks at the entry at a path of `vendor`.
fn look_at_name<T: Tree>(
    alloc: Global,
    tree: &mut T,
    project: &Path,
    needed: &Needed,
    path: Path,
    counts: &mut Counts,
    found: &mut Found,
) -> Result<(), StageFault>
    ensures only_read { OnlyRead (T.meaning tree.old) (T.meaning tree.new) (is_device_fault result) }
    ensures cause { IfErr result MayCome }
    ensures kept { counts.new.left ≡ counts.old.left }
    ensures vendor { found.new.no_folder ≡ found.old.no_folder }
    ensures counted { OnOk result (OfTold (T.meaning tree.old) (λ t. AreCounted (above_count (needs_in needed.now) project.now t path) counts.old counts.new)) }
    ensures known { (name : List ℕ) → path ≡ vendor_name ++ name ∷ [] → OnOk result (AddsKnown (needs_in needed.now) name found.old found.new) }
    ensures adds { OnOk result (OfTold (T.meaning tree.old) (λ t. counts.new.passed ≡ false → AddsName (needs_in needed.now) project.now t path found.old found.new)) }
{
    if needed.is_above(&path) {
        return look_above(alloc, tree, project, needed, path, counts, found);
    }
    add_other(alloc, needed, path, &mut found.unneeded)?;
    Ok(())
}

/// Looks at the entries of these names in a folder of `vendor`.
fn look_at_names<T: Tree>(
    alloc: Global,
    tree: &mut T,
    project: &Path,
    needed: &Needed,
    folder: &Path,
    names: &[Name],
    counts: &mut Counts,
    found: &mut Found,
) -> Result<(), StageFault>
    requires listing { IsListing names.now }
    ensures only_read { OnlyRead (T.meaning tree.old) (T.meaning tree.new) (is_device_fault result) }
    ensures cause { IfErr result MayCome }
    ensures kept { counts.new.left ≡ counts.old.left }
    ensures vendor { found.new.no_folder ≡ found.old.no_folder }
    ensures counted { OnOk result (OfTold (T.meaning tree.old) (λ t. AreCounted (above_counts (needs_in needed.now) project.now t folder.now names.now) counts.old counts.new)) }
    ensures known { folder.now ≡ vendor_name → found.old.unneeded.items ≡ [] → found.old.blocked.keys ≡ [] → OnOk result (IsKnown (needs_in needed.now) names.now found.new) }
    ensures adds { OnOk result (OfTold (T.meaning tree.old) (λ t. counts.new.passed ≡ false → AddsNames (needs_in needed.now) project.now t folder.now names.now found.old found.new)) }
{
    for name in names {
        let path = folder.child(alloc, name.as_slice())?;
        look_at_name(alloc, tree, project, needed, path, counts, found)?;
    }
    Ok(())
}

/// Looks through `vendor`: lists it, and each folder in it that targets stand in.
pub fn look_through<T: Tree>(
    alloc: Global,
    tree: &mut T,
    project: &Path,
    vendor: &Path,
    needed: &Needed,
    counts: &mut Counts,
) -> Result<Found, StageFault>
    requires vendor { vendor.now ≡ vendor_name }
    ensures only_read { OnlyRead (T.meaning tree.old) (T.meaning tree.new) (is_device_fault result) }
    ensures cause { IfErr result MayCome }
    ensures kept { counts.new.left ≡ counts.old.left }
    ensures counted { IfOk result (λ _. OfTold (T.meaning tree.old) (λ t. AreCounted (vendor_count (needs_in needed.now) project.now t) counts.old counts.new)) }
    ensures known { IfOk result (λ found. (names : List (List ℕ)) × IsKnown (needs_in needed.now) names found) }
    ensures found { IfOk result (λ found. OfTold (T.meaning tree.old) (λ t. counts.new.passed ≡ false → IsFoundIn (needs_in needed.now) project.now t found)) }
{
    let at = project.join(alloc, vendor)?;
    match list_counted(alloc, tree, &at, counts)? {
        Listed::Names(names) => {
            let mut found = Found::nothing(alloc, false);
            look_at_names(
                alloc,
                tree,
                project,
                needed,
                vendor,
                names.as_slice(),
                counts,
                &mut found,
            )?;
            Ok(found)
        }
        Listed::Nothing => Ok(Found::nothing(alloc, false)),
        Listed::Other => Ok(Found::nothing(alloc, true)),
    }
}
