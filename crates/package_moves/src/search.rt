//! The job of an install: what differs, and what is to go.

ghost use Rattle.std.specs.Prelude.{◌≡◌, ◌≤◌, ◌+◌, ◌++◌, ◌∷◌, [], List, ℕ, true, false, if◌then◌else◌, length, map, filter_map, Bool, Some, IfOk, OnOk};
ghost use Rattle.std.specs.Result.{IfErr};
ghost use Rattle.std.specs.BTreeSet.{contains};
ghost use Rattle.path_name.specs.Orders.{path_cmp};
ghost use Rattle.path_name.specs.Paths.{without_last};
ghost use Rattle.tree_dev.specs.Trees.{behind};
ghost use Rattle.tree_dev.specs.Device.{OfTold, OnlyRead};
ghost use Rattle.stage_job.specs.Checked.{job_checked};
ghost use Rattle.stage_job.specs.Faults.{Answers, is_device_fault, is_vanished};
ghost use Rattle.stage_job.specs.declared.job.Part.{Part as Parts};
ghost use Rattle.stage_job.specs.Jobs.{AreParts};
ghost use Rattle.stage_job.specs.Staging.{HasParents};
ghost use Rattle.package_moves.specs.Beside.{AreCounted, MayCome};
ghost use Rattle.package_moves.specs.Counted.{targets_count};
ghost use Rattle.package_moves.specs.Found.{AreStanding, IsFoundIn};
ghost use Rattle.package_moves.specs.Joined.{AreUntaken, if_blocked, if_left, if_outside, folder_part, inner_below, is_in, left_outside, left_parts, own_parts, vendor_part};
ghost use Rattle.package_moves.specs.Known.{IsKnown};
ghost use Rattle.package_moves.specs.Moves.{IsJobFor, moves_checked};
ghost use Rattle.package_moves.specs.Needed.{gone_part, needs_in, needs_of, vendor_count};
ghost use Rattle.package_moves.specs.Wanted.{AreWanted, is_leaf_source, vendor_name};

use crate::counts::Counts;
use crate::joined::{Folders, add_inner, part_copy, part_of_folder};
use crate::needed::Needed;
use crate::standing::standing_parts;
use crate::unneeded::{Found, look_through};
use path_name::{Items, Path};
use stage_job::{Inner, Job, Part, Source, StageFault};
use std::alloc::{AllocError, Global};
use std::collections::BTreeSet;
use tree_dev::{Entries, LimitKind, Tree};

/// Adds a part that does not stand.
fn add_own(
    alloc: Global,
    part: &Part,
    stands: bool,
    parts: &mut Vec<Part>,
) -> Result<(), AllocError>
    requires leaf { is_leaf_source part.now.from ≡ true }
    ensures { OnOk result (parts.new.items ≡ parts.old.items ++ if_left stands part.now) }
{
    if stands {
        return Ok(());
    }
    parts.push(part_copy(alloc, part)?)?;
    Ok(())
}

/// Adds the part of a folder, unless it was added.
fn add_folder(folders: &mut Folders, folder: Path, parts: &mut Vec<Part>) -> Result<(), AllocError>
    ensures { (blocked : List (List ℕ) → Bool) (wanted earlier : List Parts) → blocked folder ≡ true → is_in folder wanted ≡ true → AreUntaken blocked wanted earlier folders.old
        → OnOk result ((parts.new.items ≡ parts.old.items ++ if_left (is_in folder earlier) (folder_part folder wanted))
        × ((part : Parts) → without_last part.target ≡ Some folder → AreUntaken blocked wanted (earlier ++ part ∷ []) folders.new)) }
{
    match folders.take(&folder) {
        Some(inner) => {
            parts.push(part_of_folder(folder, inner))?;
            Ok(())
        }
        None => Ok(()),
    }
}

/// The folder that a part is to stand in, where something is in the way there.
fn blocked_parent(
    alloc: Global,
    blocked: &BTreeSet<Path>,
    part: &Part,
) -> Result<Option<Path>, AllocError>
    ensures { IfOk result (λ folder. folder ≡ if_blocked (contains path_cmp blocked.now) (without_last part.now.target)) }
{
    match part.target.parent(alloc)? {
        Some(folder) => Ok(if_contained(blocked, folder)),
        None => Ok(None),
    }
}

/// A path, where it is one of these.
fn if_contained(paths: &BTreeSet<Path>, path: Path) -> Option<Path>
    ensures { result ≡ if_blocked (contains path_cmp paths.now) (Some path) }
{
    if paths.contains(&path) {
        Some(path)
    } else {
        None
    }
}

/// Adds a part that does not stand, or the part of its folder, where something is in the way there, in place of the first of
/// those in it.
fn add_part(
    alloc: Global,
    folders: &mut Folders,
    blocked: &BTreeSet<Path>,
    part: &Part,
    stands: bool,
    parts: &mut Vec<Part>,
) -> Result<(), AllocError>
    requires leaf { is_leaf_source part.now.from ≡ true }
    ensures { (wanted earlier : List Parts) → ((folder : List (List ℕ)) → without_last part.now.target ≡ Some folder → is_in folder wanted ≡ true)
        → AreUntaken (contains path_cmp blocked.now) wanted earlier folders.old
        → OnOk result ((parts.new.items ≡ parts.old.items ++ own_parts wanted earlier part.now stands (if_blocked (contains path_cmp blocked.now) (without_last part.now.target)))
        × AreUntaken (contains path_cmp blocked.now) wanted (earlier ++ part.now ∷ []) folders.new) }
{
    match blocked_parent(alloc, blocked, part)? {
        Some(folder) => add_folder(folders, folder, parts),
        None => add_own(alloc, part, stands, parts),
    }
}

/// The parts that do not stand.
fn differing_parts(
    alloc: Global,
    wanted: &[Part],
    standing: &[bool],
    blocked: &BTreeSet<Path>,
) -> Result<Vec<Part>, AllocError>
    requires wanted { AreWanted wanted.now }
    requires flags { length standing.now ≡ length wanted.now }
    ensures { IfOk result (λ parts. parts.items ≡ left_parts (contains path_cmp blocked.now) wanted.now standing.now) }
{
    let mut folders = Folders::of(alloc, blocked, wanted)?;
    let mut parts = Vec::new(alloc);
    for number in 0..wanted.len() {
        let stands = standing[number];
        add_part(
            alloc,
            &mut folders,
            blocked,
            &wanted[number],
            stands,
            &mut parts,
        )?;
    }
    Ok(parts)
}

/// Adds parts that take entries away.
fn add_gone(alloc: Global, unneeded: &[Path], parts: &mut Vec<Part>) -> Result<(), AllocError>
    ensures { OnOk result (parts.new.items ≡ parts.old.items ++ map gone_part unneeded.now) }
{
    for path in unneeded {
        parts.push(Part {
            target: path.copy(alloc)?,
            from: Source::Gone,
        })?;
    }
    Ok(())
}

/// The parts at and below a folder, as parts of it.
fn inner_parts(alloc: Global, folder: &Path, wanted: &[Part]) -> Result<Vec<Inner>, AllocError>
    ensures { IfOk result (λ inner. inner.items ≡ filter_map (inner_below folder.now) wanted.now) }
{
    let mut inner = Vec::new(alloc);
    for part in wanted {
        add_inner(alloc, folder, part, &mut inner)?;
    }
    Ok(inner)
}

/// Adds a part that does not stand, and does not lie at or below a folder.
fn add_outside(
    alloc: Global,
    folder: &Path,
    part: &Part,
    stands: bool,
    parts: &mut Vec<Part>,
) -> Result<(), AllocError>
    requires leaf { is_leaf_source part.now.from ≡ true }
    ensures { OnOk result (parts.new.items ≡ parts.old.items ++ if_outside (behind folder.now part.now.target) stands part.now) }
{
    if part.target.starts_with(folder) {
        return Ok(());
    }
    add_own(alloc, part, stands, parts)
}

/// One part for the whole `vendor`, and the parts elsewhere that do not stand.
fn whole_parts(
    alloc: Global,
    wanted: &[Part],
    standing: &[bool],
    vendor: &Path,
) -> Result<Vec<Part>, AllocError>
    requires wanted { AreWanted wanted.now }
    requires flags { length standing.now ≡ length wanted.now }
    requires vendor { vendor.now ≡ vendor_name }
    ensures { IfOk result (λ parts. parts.items ≡ vendor_part wanted.now ∷ left_outside wanted.now standing.now) }
{
    let inner = inner_parts(alloc, vendor, wanted)?;
    let mut parts = Vec::new(alloc);
    parts.push(part_of_folder(vendor.copy(alloc)?, inner))?;
    for number in 0..wanted.len() {
        let stands = standing[number];
        add_outside(alloc, vendor, &wanted[number], stands, &mut parts)?;
    }
    Ok(parts)
}

/// The parts of the job, by what was found.
fn job_parts(
    alloc: Global,
    wanted: &[Part],
    standing: &[bool],
    vendor: &Path,
    found: &Found,
) -> Result<Vec<Part>, AllocError>
    requires wanted { AreWanted wanted.now }
    requires flags { length standing.now ≡ length wanted.now }
    requires vendor { vendor.now ≡ vendor_name }
    ensures { IfOk result (λ parts. parts.items ≡ (if found.now.no_folder then vendor_part wanted.now ∷ left_outside wanted.now standing.now
        else left_parts (contains path_cmp found.now.blocked) wanted.now standing.now ++ map gone_part found.now.unneeded.items)) }
{
    if found.no_folder {
        return whole_parts(alloc, wanted, standing, vendor);
    }
    let mut parts = differing_parts(alloc, wanted, standing, &found.blocked)?;
    add_gone(alloc, found.unneeded.as_slice(), &mut parts)?;
    Ok(parts)
}

/// What is known of the parts that are wanted, and of `vendor`.
#[derive(Drop)]
struct Searched {
    /// For each part whether it stands already.
    standing: Vec<bool>,
    /// What was found in `vendor`.
    found: Found,
}

/// The job, by what was searched.
fn job_of(
    alloc: Global,
    wanted: &[Part],
    vendor: &Path,
    searched: &Searched,
) -> Result<Job, AllocError>
    requires wanted { AreWanted wanted.now }
    requires flags { length searched.now.standing.items ≡ length wanted.now }
    requires vendor { vendor.now ≡ vendor_name }
    ensures { IfOk result (λ job. job.parts ≡ (if searched.now.found.no_folder then vendor_part wanted.now ∷ left_outside wanted.now searched.now.standing.items
        else left_parts (contains path_cmp searched.now.found.blocked) wanted.now searched.now.standing.items ++ map gone_part searched.now.found.unneeded.items)) }
{
    let standing = searched.standing.as_slice();
    let parts = job_parts(alloc, wanted, standing, vendor, &searched.found)?;
    Ok(Job {
        parts: Items::of(parts),
    })
}

/// Walks all parts beside their targets, and looks through `vendor`.
fn look<T: Tree>(
    alloc: Global,
    tree: &mut T,
    project: &Path,
    wanted: &[Part],
    vendor: &Path,
    counts: &mut Counts,
) -> Result<Searched, StageFault>
    requires wanted { AreWanted wanted.now }
    requires vendor { vendor.now ≡ vendor_name }
    ensures only_read { OnlyRead (T.meaning tree.old) (T.meaning tree.new) (is_device_fault result) }
    ensures checked { OfTold (T.meaning tree.old) (λ t. Answers (job_checked project.now t wanted.now counts.old.left.left) counts.new.left.left result) }
    ensures counted { IfOk result (λ _. OfTold (T.meaning tree.old) (λ t. AreCounted (targets_count project.now t wanted.now + vendor_count (needs_of wanted.now) project.now t) counts.old counts.new)) }
    ensures count { IfOk result (λ searched. length searched.standing.items ≡ length wanted.now) }
    ensures standing { IfOk result (λ searched. OfTold (T.meaning tree.old) (λ t. counts.new.passed ≡ false → AreStanding project.now t wanted.now searched.standing.items)) }
    ensures found { IfOk result (λ searched. OfTold (T.meaning tree.old) (λ t. counts.new.passed ≡ false → IsFoundIn (needs_of wanted.now) project.now t searched.found)) }
    ensures known { IfOk result (λ searched. (names : List (List ℕ)) × IsKnown (needs_of wanted.now) names searched.found) }
    ensures entries { counts.new.left.left ≤ counts.old.left.left }
{
    let needed = Needed::of(alloc, wanted)?;
    let standing = standing_parts(alloc, tree, project, wanted, counts)?;
    let found = look_through(alloc, tree, project, vendor, &needed, counts)?;
    Ok(Searched { standing, found })
}

/// The job that gives a project what is wanted, and takes away all else that stands in its `vendor`. `wanted` has one part for
/// each package and each written file; its targets are `composer.lock`, or one or two segments below `vendor`.
///
/// A part is left out exactly where its target holds already what it is to hold: a copy of the package and nothing more, or the
/// bytes. The others stand in the order of `wanted`; behind them comes a part that takes away each topmost entry of `vendor`
/// that is no target, and lies neither below nor above one, in path order. Where `vendor` is there and is no folder, one part
/// makes all of it, followed by those elsewhere. Where an entry of `vendor` above a target is there and is no folder, one part
/// makes that folder, in place of the first of those below it.
///
/// The sources are walked with the refusals of staging, in the order of parts and each in path order. Then count the entries of
/// `vendor`, of each folder in it above a target, and of each folder of a target that stands beside one of its source: `Limit`
/// where they are more than are left. No other entry of `vendor` is refused: a file that is too long, and an entry that lies too
/// deep, are what differs. Nothing is written.
pub fn moves<T: Tree>(
    alloc: Global,
    tree: &mut T,
    project: &Path,
    wanted: &[Part],
    left: &mut Entries,
) -> Result<Job, StageFault>
    requires wanted { AreWanted wanted.now }
    ensures only_read { OnlyRead (T.meaning tree.old) (T.meaning tree.new) (is_device_fault result) }
    ensures exact { OfTold (T.meaning tree.old) (λ t. Answers (moves_checked project.now t wanted.now left.old.left) left.new.left result) }
    ensures job { IfOk result (λ job. OfTold (T.meaning tree.old) (λ t. IsJobFor project.now t wanted.now job.parts)) }
    ensures parts { IfOk result (λ job. AreParts project.now wanted.now → AreParts project.now job.parts) }
    ensures parents { IfOk result (λ job. OfTold (T.meaning tree.old) (HasParents project.now job.parts)) }
    ensures never_vanished { OfTold (T.meaning tree.old) (λ _. is_vanished result ≡ false) }
    ensures entries { left.new.left ≤ left.old.left }
{
    let vendor = Path::root(alloc).child(alloc, b"vendor")?;
    let mut counts = Counts::of(*left);
    let searched = look(alloc, tree, project, wanted, &vendor, &mut counts)?;
    match counts.rest() {
        Some(rest) => {
            left.left = rest;
            let job = job_of(alloc, wanted, &vendor, &searched)?;
            Ok(job)
        }
        None => Err(StageFault::Limit(LimitKind::Entries)),
    }
}
