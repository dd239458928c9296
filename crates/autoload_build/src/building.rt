//! All five tables.

ghost use Rattle.std.specs.Prelude.{◌≡◌, ◌<◌, ◌^◌, ◌≤◌, List, length, IfOk};
ghost use Rattle.std.specs.List.{flat_map};
ghost use Rattle.tree_dev.specs.Device.{OfTold, OnlyRead};
ghost use Rattle.class_walk.specs.Faults.{Answers, is_device_fault};
ghost use Rattle.class_walk.specs.Walks.{class_scan};
ghost use Rattle.class_walk.specs.declared.job.Scanned.{Scanned};
ghost use Rattle.autoload_build.specs.Answers.{Builds, walks_of};
ghost use Rattle.autoload_build.specs.BuiltTables.{tables_of};
ghost use Rattle.autoload_build.specs.Steps.{excluded_by, jobs_by_mode, project_of, seen, tables_with};

use crate::class_map::class_map;
use crate::file_rows::file_rows;
use crate::jobs::{jobs, patterns};
use crate::prefixes::prefix_table;
use crate::sources::{Source, Sources};
use class_paths::{Route, RouteKind};
use class_walk::{Scanned, WalkFault, walk};
use manifest_read::Manifest;
use path_name::{Items, Path};
use psr_routes::{Placed, routes};
use std::alloc::{AllocError, Global};
use table_scan::{ClassRow, FileRow, Mode, State, Tables};
use tree_dev::{Entries, Tree};

/// The autoload tables of a project with its packages in their places (Composer's documentation, "autoload"; "Optimize the
/// autoloader"). There are fewer than 2^32 packages.
///
/// - PSR-4 and PSR-0: one row a prefix, the greatest in byte order first, its folders in the order of rows, each once.
/// - The class map: each class of the files that `classmap` lists, with the first file that declares it; in the modes
///   Optimised and Authoritative also those to whose files rows lead, which are found in the folders of rows, the greatest
///   prefix first, PSR-4 before PSR-0 for one prefix. It stands in byte order of classes.
/// - Files that are always loaded: those of packages in their order and then the root's, each with the id of `NAME:PATH`, the
///   path as it is written. An id that stands twice keeps its first place.
/// - The state: the mode and the generation.
///
/// Rules of `autoload-dev` count where `dev` holds. A package's files are read at `at`. The tree is only read, and `left`
/// is lowered by the number of entries that were listed.
///
/// Its refusals are those of [`walk`](class_walk::walk), the first in the order of walks and paths: first the walks of listed
/// paths, then those of the folders of rows. The root's walks take its folder `vendor` to be absent, and those of a package
/// that is mirrored its `vendor`, `.git` and `.install`. What tables hold takes memory, and so do 2^32 walks or more, for which
/// it is always wanting.
pub fn tables<T: Tree>(
    alloc: Global,
    tree: &mut T,
    project: &Path,
    root: &Manifest,
    members: &[Placed],
    mode: Mode,
    dev: bool,
    generation: u64,
    left: &mut Entries,
) -> Result<Tables, WalkFault>
    requires few { length members.now < 2 ^ 32 }
    // The tables of what the walks of the mode find, or their first refusal.
    ensures exact { OfTold (T.meaning tree.old) (λ t. Builds (walks_of t (project_of project.now root.now members.now dev) mode left.old.left)
        (project_of project.now root.now members.now dev) mode generation left.new.left result) }
    // Over every tree they are the tables of some files that were found.
    ensures formed { IfOk result (λ tables. (found : List Scanned) × (tables ≡ tables_of (project_of project.now root.now members.now dev) mode generation found)) }
    ensures only_read { OnlyRead (T.meaning tree.old) (T.meaning tree.new) (is_device_fault result) }
    ensures entries_fall { left.new.left ≤ left.old.left }
{
    let sources = Sources::of(alloc, project, root, members, dev)?;
    let found = scan(alloc, tree, mode, sources.searched.as_slice(), left)?;
    let rows = routes(alloc, project, root, members, dev)?;
    let class_map = class_map(alloc, found.as_slice())?;
    let files = file_rows(alloc, root, sources.loaded.as_slice())?;
    Ok(with_rows(
        alloc,
        rows.as_slice(),
        class_map,
        files,
        State { mode, generation },
    )?)
}

/// Tables, of whose prefixes the rows are known.
fn with_rows(
    alloc: Global,
    rows: &[Route],
    class_map: Vec<ClassRow>,
    files: Vec<FileRow>,
    state: State,
) -> Result<Tables, AllocError>
    ensures { IfOk result (λ tables. tables ≡ tables_with rows.now class_map.items files.items state) }
{
    Ok(Tables {
        psr4: Items::of(prefix_table(alloc, RouteKind::Psr4, rows)?),
        psr0: Items::of(prefix_table(alloc, RouteKind::Psr0, rows)?),
        class_map: Items::of(class_map),
        files: Items::of(files),
        state: Some(state),
    })
}

/// What the walks of a mode find.
fn scan<T: Tree>(
    alloc: Global,
    tree: &mut T,
    mode: Mode,
    sources: &[Source],
    left: &mut Entries,
) -> Result<Vec<Scanned>, WalkFault>
    ensures exact { OfTold (T.meaning tree.old) (λ t. Answers (class_scan t (jobs_by_mode mode (seen sources.now)) (flat_map excluded_by (seen sources.now)) left.old.left) left.new.left result) }
    ensures only_read { OnlyRead (T.meaning tree.old) (T.meaning tree.new) (is_device_fault result) }
    ensures entries_fall { left.new.left ≤ left.old.left }
{
    let jobs = jobs(alloc, mode, sources)?;
    let exclude = patterns(alloc, sources)?;
    if u32::try_from(jobs.len()).is_err() {
        return Err(WalkFault::OutOfMemory);
    }
    walk(alloc, tree, jobs.as_slice(), exclude.as_slice(), left)
}
