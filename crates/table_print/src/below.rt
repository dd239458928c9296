//! Whether the paths of tables lie at or below a project.

ghost use Rattle.std.specs.Prelude.{◌↔◌, All, IsTrue};
ghost use Rattle.table_print.specs.Printable.{IsBelow, HasFoldersBelow, HasClassBelow, HasFileBelow, AreBelow};

use path_name::Path;
use table_scan::{ClassRow, FileRow, PrefixRow, Tables};

fn paths_lie_below(paths: &[Path], project: &Path) -> bool
    ensures { IsTrue result ↔ All (IsBelow project.now) paths.now }
{
    for path in paths {
        if !path.starts_with(project) {
            return false;
        }
    }
    true
}

fn prefixes_lie_below(rows: &[PrefixRow], project: &Path) -> bool
    ensures { IsTrue result ↔ All (HasFoldersBelow project.now) rows.now }
{
    for row in rows {
        if !paths_lie_below(row.folders.as_slice(), project) {
            return false;
        }
    }
    true
}

fn classes_lie_below(rows: &[ClassRow], project: &Path) -> bool
    ensures { IsTrue result ↔ All (HasClassBelow project.now) rows.now }
{
    for row in rows {
        if !row.path.starts_with(project) {
            return false;
        }
    }
    true
}

fn files_lie_below(rows: &[FileRow], project: &Path) -> bool
    ensures { IsTrue result ↔ All (HasFileBelow project.now) rows.now }
{
    for row in rows {
        if !row.path.starts_with(project) {
            return false;
        }
    }
    true
}

/// Whether each path of the tables lies at or below the project, as [`print`](crate::print) asks.
pub fn lie_below(tables: &Tables, project: &Path) -> bool
    ensures { IsTrue result ↔ AreBelow project.now tables.now }
{
    if !prefixes_lie_below(tables.psr4.as_slice(), project) {
        return false;
    }
    if !prefixes_lie_below(tables.psr0.as_slice(), project) {
        return false;
    }
    if !classes_lie_below(tables.class_map.as_slice(), project) {
        return false;
    }
    files_lie_below(tables.files.as_slice(), project)
}
