//! The folders that the url of a repository names.

ghost use Rattle.std.specs.Prelude.{◌≡◌, ◌≤◌, ◌⊎◌, false, ◌-◌, ◌++◌, ◌∷◌, [], List, ℕ, map, filter, length, take, drop, not, IsTrue, IfOk, OnOk};
ghost use Rattle.std.specs.List.{AllByRecursion, list_all};
ghost use Rattle.path_name.specs.Paths.{IsPath, is_segment, path_text};
ghost use Rattle.tree_dev.specs.Device.{OnlyRead, OfTold};
ghost use Rattle.tree_dev.specs.Projects.{vendor_path, work_path, is_within};
ghost use Rattle.pkg_pool.specs.Outcomes.{Tells, is_free, is_of_device, is_device_fault};
ghost use Rattle.pkg_pool.specs.Patterns.{is_wild, is_hidden, is_installed, is_barred, seen_from, behind, names_listed, shown_in, folder_expanded, then_expanded, folders_expanded, segment_expanded, pattern_expanded, is_counted, entry_refused, none_is_there, too_deep, near_count, stars_expanded, sole_folder, fixed_part, wild_part, parts_expanded, url_expanded};
ghost use Rattle.pkg_pool.specs.declared.fault.PoolFault.TheVariants as faults;

use crate::fault::PoolFault;
use crate::limits::DEPTH;
use crate::origin::Origin;
use path_name::{Items, Name, Path, Text};
use std::alloc::{AllocError, Global};
use tree_dev::{Entries, Kind, LimitKind, ListAnswer, Tree};

/// Whether a segment stands for any one name that doesn't begin with `.`.
fn is_wild(segment: &[u8]) -> bool
    ensures { result ≡ is_wild segment.now }
{
    segment == b"*".as_slice()
}

fn is_hidden(name: &[u8]) -> bool
    ensures { result ≡ is_hidden name.now }
{
    match name {
        [] => false,
        [first, ..] => *first == b'.',
    }
}

/// Whether a path is at or below a folder.
fn is_within(folder: &Path, path: &Path) -> bool
    ensures { result ≡ is_within folder.now path.now }
{
    path.starts_with(folder)
}

/// Whether a path is at or below what an install writes in the project.
#[tactic(auto, unfolding(crate::specs::Patterns::is_installed))]
fn is_installed(alloc: Global, project: &Path, path: &Path) -> Result<bool, AllocError>
    ensures { IfOk result (λ installed. installed ≡ is_installed project.now path.now) }
{
    let vendor = project.child(alloc, b"vendor")?;
    let work = project.child(alloc, b".install")?;
    Ok(is_within(&vendor, path) || is_within(&work, path))
}

/// Whether a path can be no package's folder: the project's, one above it, or what an install writes.
#[tactic(auto, unfolding(crate::specs::Patterns::is_barred))]
pub fn is_barred(alloc: Global, project: &Path, path: &Path) -> Result<bool, AllocError>
    ensures { IfOk result (λ barred. barred ≡ is_barred project.now path.now) }
{
    if is_within(path, project) {
        return Ok(true);
    }
    is_installed(alloc, project, path)
}

/// The names of a folder's entries, which are then counted. None where there is no folder. `Limit` where there are
/// more than may still be listed.
#[tactic(auto, unfolding(crate::specs::Patterns::names_listed))]
fn names<T: Tree>(
    alloc: Global,
    tree: &mut T,
    folder: &Path,
    left: &mut Entries,
) -> Result<Items<Name>, PoolFault>
    ensures told { OfTold (T.meaning tree.old) (λ t. Tells (λ names. names) (names_listed t folder.now left.old.left) result) }
    ensures segments { IfOk result (λ names. IsTrue (list_all is_segment names)) }
    ensures counted { IfOk result (λ names. left.new.left ≡ left.old.left - length names) }
    ensures falls { left.new.left ≤ left.old.left }
    ensures only_read { OnlyRead (T.meaning tree.old) (T.meaning tree.new) (is_device_fault result) }
{
    match tree.list(alloc, folder, left.left)? {
        ListAnswer::Names(names) => {
            let count = names.as_slice().len() as u64;
            if count > left.left as u64 {
                return Err(PoolFault::Limit(LimitKind::Entries));
            }
            left.left -= count as u32;
            Ok(names)
        }
        ListAnswer::Absent | ListAnswer::NotFolder => Ok(Items::empty(alloc)),
        ListAnswer::TooMany => Err(PoolFault::Limit(LimitKind::Entries)),
    }
}

/// Puts what the names of a folder's entries name behind other folders.
fn put_shown(
    alloc: Global,
    folder: &Path,
    names: &[Name],
    found: &mut Vec<Path>,
) -> Result<(), AllocError>
    requires { IsTrue (list_all is_segment names.now) }
    ensures { OnOk result (found.new.items ≡ found.old.items ++ shown_in folder.now names.now) }
{
    for name in names {
        if !is_hidden(name.as_slice()) {
            found.push(folder.child(alloc, name.as_slice())?)?;
        }
    }
    Ok(())
}

/// Puts what a `*` names in a folder behind other folders. What an install writes is not listed.
#[tactic(auto, unfolding(crate::specs::Patterns::folder_expanded))]
fn put_folder<T: Tree>(
    alloc: Global,
    tree: &mut T,
    origin: &Origin,
    folder: &Path,
    found: &mut Vec<Path>,
    left: &mut Entries,
) -> Result<(), PoolFault>
    ensures told { OfTold (T.meaning tree.old) (λ t. Tells (λ done. record { paths = found.new.items; left = left.new.left })
        (behind found.old.items (folder_expanded t origin.now folder.now left.old.left)) result) }
    ensures falls { left.new.left ≤ left.old.left }
    ensures only_read { OnlyRead (T.meaning tree.old) (T.meaning tree.new) (is_device_fault result) }
{
    let place = origin.start.join(alloc, folder)?;
    if is_installed(alloc, &origin.project, &place)? {
        return Ok(());
    }
    let names = names(alloc, tree, &place, left)?;
    Ok(put_shown(alloc, folder, names.as_slice(), found)?)
}

/// Puts what a `*` names in each of these folders behind other folders.
fn put_folders<T: Tree>(
    alloc: Global,
    tree: &mut T,
    origin: &Origin,
    folders: &[Path],
    found: &mut Vec<Path>,
    left: &mut Entries,
) -> Result<(), PoolFault>
    ensures told { OfTold (T.meaning tree.old) (λ t. Tells (λ done. record { paths = found.new.items; left = left.new.left })
        (folders_expanded t origin.now folders.now (record { paths = found.old.items; left = left.old.left })) result) }
    ensures falls { left.new.left ≤ left.old.left }
    ensures only_read { OnlyRead (T.meaning tree.old) (T.meaning tree.new) (is_device_fault result) }
{
    for folder in folders {
        put_folder(alloc, tree, origin, folder, found, left)?;
    }
    Ok(())
}

/// Puts a name behind each of these folders.
fn put_behind(
    alloc: Global,
    folders: &[Path],
    segment: &[u8],
    found: &mut Vec<Path>,
) -> Result<(), AllocError>
    requires { IsTrue (is_segment segment.now) }
    ensures { OnOk result (found.new.items ≡ found.old.items ++ map (λ folder. folder ++ segment.now ∷ []) folders.now) }
{
    for folder in folders {
        found.push(folder.child(alloc, segment)?)?;
    }
    Ok(())
}

/// What one segment of a url names in these folders.
#[tactic(auto, unfolding(crate::specs::Patterns::segment_expanded))]
fn segment_expanded<T: Tree>(
    alloc: Global,
    tree: &mut T,
    origin: &Origin,
    segment: &[u8],
    folders: &[Path],
    left: &mut Entries,
) -> Result<Vec<Path>, PoolFault>
    requires { IsTrue (is_segment segment.now) }
    ensures told { OfTold (T.meaning tree.old) (λ t. Tells (λ found. record { paths = found.items; left = left.new.left })
        (segment_expanded t origin.now segment.now (record { paths = folders.now; left = left.old.left })) result) }
    ensures falls { left.new.left ≤ left.old.left }
    ensures only_read { OnlyRead (T.meaning tree.old) (T.meaning tree.new) (is_device_fault result) }
{
    let mut found = Vec::new(alloc);
    if is_wild(segment) {
        put_folders(alloc, tree, origin, folders, &mut found, left)?;
    } else {
        put_behind(alloc, folders, segment, &mut found)?;
    }
    Ok(found)
}

/// What the segments of a pattern name in these folders.
fn pattern_expanded<T: Tree>(
    alloc: Global,
    tree: &mut T,
    origin: &Origin,
    pattern: &[Name],
    folders: Vec<Path>,
    left: &mut Entries,
) -> Result<Vec<Path>, PoolFault>
    requires { IsPath pattern.now }
    ensures told { OfTold (T.meaning tree.old) (λ t. Tells (λ found. record { paths = found.items; left = left.new.left })
        (pattern_expanded t origin.now pattern.now (record { paths = folders.items; left = left.old.left })) result) }
    ensures falls { left.new.left ≤ left.old.left }
    ensures only_read { OnlyRead (T.meaning tree.old) (T.meaning tree.new) (is_device_fault result) }
{
    let mut folders = folders;
    for segment in pattern {
        folders = segment_expanded(
            alloc,
            tree,
            origin,
            segment.as_slice(),
            folders.as_slice(),
            left,
        )?;
    }
    Ok(folders)
}

/// Refuses an entry that is there, outside of what an install writes: it lies too deep.
#[tactic(auto, unfolding(crate::specs::Patterns::entry_refused, crate::specs::Patterns::is_counted))]
fn refuse_entry<T: Tree>(
    alloc: Global,
    tree: &mut T,
    origin: &Origin,
    path: &Path,
) -> Result<(), PoolFault>
    ensures told { OfTold (T.meaning tree.old) (λ t. Tells (λ passed. passed) (entry_refused t origin.now path.now) result) }
    ensures only_read { OnlyRead (T.meaning tree.old) (T.meaning tree.new) (is_device_fault result) }
{
    let place = origin.start.join(alloc, path)?;
    if is_installed(alloc, &origin.project, &place)? {
        return Ok(());
    }
    match tree.stat(&place)? {
        Kind::Absent => Ok(()),
        Kind::File | Kind::Folder | Kind::Other => Err(PoolFault::Limit(LimitKind::Depth(place))),
    }
}

/// Refuses the first of these entries that is there, outside of what an install writes: it lies too deep.
fn refuse_entries<T: Tree>(
    alloc: Global,
    tree: &mut T,
    origin: &Origin,
    paths: &[Path],
) -> Result<(), PoolFault>
    ensures told { OfTold (T.meaning tree.old) (λ t. Tells (λ passed. passed) (none_is_there t origin.now paths.now) result) }
    ensures only_read { OnlyRead (T.meaning tree.old) (T.meaning tree.new) (is_device_fault result) }
{
    for path in paths {
        refuse_entry(alloc, tree, origin, path)?;
    }
    Ok(())
}

/// What is left of a pattern behind the segments that may be matched: it matches nothing, or an entry lies too deep.
#[tactic(auto, unfolding(crate::specs::Patterns::too_deep))]
fn refuse_deeper<T: Tree>(
    alloc: Global,
    tree: &mut T,
    origin: &Origin,
    pattern: &[Name],
    folders: Vec<Path>,
    left: &mut Entries,
) -> Result<Vec<Path>, PoolFault>
    requires { IsPath pattern.now }
    ensures told { OfTold (T.meaning tree.old) (λ t. Tells (λ found. record { paths = found.items; left = left.new.left })
        (too_deep t origin.now pattern.now (record { paths = folders.items; left = left.old.left })) result) }
    ensures falls { left.new.left ≤ left.old.left }
    ensures only_read { OnlyRead (T.meaning tree.old) (T.meaning tree.new) (is_device_fault result) }
{
    match pattern {
        [] => Ok(folders),
        [segment, ..] => {
            let deeper = segment_expanded(
                alloc,
                tree,
                origin,
                segment.as_slice(),
                folders.as_slice(),
                left,
            )?;
            refuse_entries(alloc, tree, origin, deeper.as_slice())?;
            Ok(Vec::new(alloc))
        }
    }
}

/// What a pattern that begins with a `*` names in a folder.
#[tactic(auto, unfolding(crate::specs::Patterns::stars_expanded))]
fn stars_expanded<T: Tree>(
    alloc: Global,
    tree: &mut T,
    origin: &Origin,
    pattern: &[Name],
    folder: Path,
    left: &mut Entries,
) -> Result<Vec<Path>, PoolFault>
    requires { IsPath pattern.now }
    ensures told { OfTold (T.meaning tree.old) (λ t. Tells (λ found. record { paths = found.items; left = left.new.left })
        (stars_expanded t origin.now pattern.now folder left.old.left) result) }
    ensures falls { left.new.left ≤ left.old.left }
    ensures only_read { OnlyRead (T.meaning tree.old) (T.meaning tree.new) (is_device_fault result) }
{
    let mut folders = Vec::new(alloc);
    folders.push(folder)?;
    let (near, far) = pattern.split_at(near_count(pattern));
    let found = pattern_expanded(alloc, tree, origin, near, folders, left)?;
    refuse_deeper(alloc, tree, origin, far, found, left)
}

/// How many segments of a pattern may be matched.
fn near_count(pattern: &[Name]) -> usize
    ensures count { result ≡ near_count pattern.now }
    ensures within { result ≤ length pattern.now }
{
    pattern.len().min(DEPTH)
}

/// The folder that a url without `*` names, which must be there.
#[tactic(auto, unfolding(crate::specs::Patterns::sole_folder))]
fn require_folder<T: Tree>(
    alloc: Global,
    tree: &mut T,
    origin: &Origin,
    folder: &Path,
) -> Result<(), PoolFault>
    ensures told { OfTold (T.meaning tree.old) (λ t. Tells (λ passed. passed) (sole_folder t origin.now folder.now) result) }
    ensures only_read { OnlyRead (T.meaning tree.old) (T.meaning tree.new) (is_device_fault result) }
{
    let place = origin.start.join(alloc, folder)?;
    if is_barred(alloc, &origin.project, &place)? {
        return Err(missing(alloc, &place));
    }
    match tree.stat(&place)? {
        Kind::Folder => Ok(()),
        Kind::Absent => Err(missing(alloc, &place)),
        Kind::File | Kind::Other => Err(PoolFault::OtherEntry(place)),
    }
}

fn missing(alloc: Global, path: &Path) -> PoolFault
    ensures told { (result ≡ faults.MissingPath (path_text path.now)) ⊎ (result ≡ faults.OutOfMemory) }
    ensures no_device { is_of_device result ≡ false }
{
    match Text::copy_of(alloc, path.text()) {
        Ok(text) => PoolFault::MissingPath(text),
        Err(AllocError) => PoolFault::OutOfMemory,
    }
}

/// Enters the segments before the first `*`, and gives their number.
fn enter_fixed(folder: &mut Path, segments: &[Name]) -> Result<usize, AllocError>
    requires { IsPath segments.now }
    ensures entered { OnOk result (folder.new ≡ folder.old ++ fixed_part segments.now) }
    ensures rest { IfOk result (λ count. drop count segments.now ≡ wild_part segments.now) }
    ensures within { IfOk result (λ count. count ≤ length segments.now) }
{
    for at in 0..segments.len() {
        let segment = segments[at].as_slice();
        if is_wild(segment) {
            return Ok(at);
        }
        folder.enter(segment)?;
    }
    Ok(segments.len())
}

/// The folders that a url names, in path order. `MissingPath` and `OtherEntry` where a url without `*` names no folder;
/// `Limit` of the entries that may still be listed, then of the depth below the folder of the first `*`.
#[tactic(auto, unfolding(crate::specs::Patterns::url_expanded))]
pub fn expanded<T: Tree>(
    alloc: Global,
    tree: &mut T,
    origin: &Origin,
    segments: &[Name],
    left: &mut Entries,
) -> Result<Vec<Path>, PoolFault>
    requires { IsPath segments.now }
    ensures told { OfTold (T.meaning tree.old) (λ t. Tells (λ found. record { paths = found.items; left = left.new.left })
        (url_expanded t origin.now segments.now left.old.left) result) }
    ensures falls { left.new.left ≤ left.old.left }
    ensures only_read { OnlyRead (T.meaning tree.old) (T.meaning tree.new) (is_device_fault result) }
{
    let mut folder = Path::root(alloc);
    let count = enter_fixed(&mut folder, segments)?;
    let (_, pattern) = segments.split_at(count);
    parts_expanded(alloc, tree, origin, folder, pattern, left)
}

/// The folders that a url names, of which the part before its first `*` is known.
fn parts_expanded<T: Tree>(
    alloc: Global,
    tree: &mut T,
    origin: &Origin,
    fixed: Path,
    pattern: &[Name],
    left: &mut Entries,
) -> Result<Vec<Path>, PoolFault>
    requires { IsPath pattern.now }
    ensures told { OfTold (T.meaning tree.old) (λ t. Tells (λ found. record { paths = found.items; left = left.new.left })
        (parts_expanded t origin.now fixed pattern.now left.old.left) result) }
    ensures falls { left.new.left ≤ left.old.left }
    ensures only_read { OnlyRead (T.meaning tree.old) (T.meaning tree.new) (is_device_fault result) }
{
    match pattern {
        [] => {
            require_folder(alloc, tree, origin, &fixed)?;
            let mut folders = Vec::new(alloc);
            folders.push(fixed)?;
            Ok(folders)
        }
        [_, ..] => stars_expanded(alloc, tree, origin, pattern, fixed, left),
    }
}
