//! The paths at which a class's file is looked for.

ghost use Rattle.std.specs.Prelude.{◌≡◌, ◌++◌, ℕ, ◌+◌, ◌≤◌, length, map, All, IfOk, OnOk, IsTrue};
ghost use Rattle.class_paths.specs.ClassNames.{IsClassName};
ghost use Rattle.class_paths.specs.RowPath.{begins, is_route_prefix, path_below};
ghost use Rattle.class_paths.specs.declared.types.RouteKind.TheVariants.{Psr4, Psr0};
ghost use Rattle.table_scan.specs.TableGrammar.{is_whole};
ghost use Rattle.class_lookup.specs.Lookup.{candidates_in, psr4_candidates, psr0_candidates};
ghost use Rattle.class_lookup.specs.Groups.{in_folders, in_rows, in_groups, group_at};

use crate::groups::groups_of;
use class_paths::{RouteKind, class_path, psr4_prefixes};
use path_name::{Name, Path};
use std::alloc::{AllocError, Global};
use table_scan::{PrefixRow, Tables};

/// The paths at which a class's file is looked for, by the rows of prefixes: those of PSR-4 rows whose prefix begins
/// the name, the longest prefix first and the empty one last, then those of PSR-0 rows whose prefix begins it, in the
/// order in which they stand. Its one refusal is want of memory.
#[tactic(auto, unfolding(crate::specs::Lookup::candidates_in))]
pub fn candidates(alloc: Global, tables: &Tables, name: &Name) -> Result<Vec<Path>, AllocError>
    requires name { IsClassName name.now }
    requires prefixes { All (λ row. IsTrue (is_whole row.prefix)) tables.now.psr4 }
    ensures exact { IfOk result (λ paths. paths.items ≡ candidates_in tables.now name.now) }
{
    let mut paths = Vec::new(alloc);
    put_psr4(alloc, &mut paths, tables.psr4.as_slice(), name.as_slice())?;
    put_psr0(alloc, &mut paths, tables.psr0.as_slice(), name.as_slice())?;
    Ok(paths)
}

/// Puts the paths of PSR-4 rows behind others.
fn put_psr4(
    alloc: Global,
    paths: &mut Vec<Path>,
    rows: &[PrefixRow],
    name: &[u8],
) -> Result<(), AllocError>
    requires name { IsClassName name.now }
    requires prefixes { All (λ row. IsTrue (is_whole row.prefix)) rows.now }
    ensures { OnOk result (paths.new.items ≡ paths.old.items ++ psr4_candidates rows.now name.now) }
{
    psr4_prefixes();
    let groups = groups_of(alloc, rows, name)?;
    put_groups(alloc, paths, groups.as_slice(), name)
}

/// Puts the paths of rows in groups behind others, those with the longest prefix first.
fn put_groups(
    alloc: Global,
    paths: &mut Vec<Path>,
    groups: &[Vec<&PrefixRow>],
    name: &[u8],
) -> Result<(), AllocError>
    requires count { length groups.now ≡ length name.now + 1 }
    requires name { IsClassName name.now }
    requires rows { (len : ℕ) → len ≤ length name.now → All (λ row. IsTrue (is_route_prefix Psr4 row.prefix) × IsTrue (begins row.prefix name.now)) (group_at groups.now len) }
    ensures { OnOk result (paths.new.items ≡ paths.old.items ++ in_groups groups.now name.now (length groups.now)) }
{
    for len in (0..groups.len()).rev() {
        put_group(alloc, paths, groups[len].as_slice(), name)?;
    }
    Ok(())
}

/// Puts the paths of rows of one prefix behind others.
fn put_group(
    alloc: Global,
    paths: &mut Vec<Path>,
    group: &[&PrefixRow],
    name: &[u8],
) -> Result<(), AllocError>
    requires name { IsClassName name.now }
    requires rows { All (λ row. IsTrue (is_route_prefix Psr4 row.now.prefix) × IsTrue (begins row.now.prefix name.now)) group.now }
    ensures { OnOk result (paths.new.items ≡ paths.old.items ++ in_rows Psr4 (map (λ row. row.now) group.now) name.now) }
{
    for row in group {
        put_row(alloc, paths, RouteKind::Psr4, row, name)?;
    }
    Ok(())
}

/// Puts the paths of PSR-0 rows behind others.
fn put_psr0(
    alloc: Global,
    paths: &mut Vec<Path>,
    rows: &[PrefixRow],
    name: &[u8],
) -> Result<(), AllocError>
    requires name { IsClassName name.now }
    ensures { OnOk result (paths.new.items ≡ paths.old.items ++ psr0_candidates rows.now name.now) }
{
    for row in rows {
        if name.starts_with(row.prefix.as_slice()) {
            put_row(alloc, paths, RouteKind::Psr0, row, name)?;
        }
    }
    Ok(())
}

/// Puts the paths below the folders of a row behind others.
fn put_row(
    alloc: Global,
    paths: &mut Vec<Path>,
    kind: RouteKind,
    row: &PrefixRow,
    name: &[u8],
) -> Result<(), AllocError>
    requires name { IsClassName name.now }
    requires begins { IsTrue (begins row.now.prefix name.now) }
    requires prefix { IsTrue (is_route_prefix kind row.now.prefix) }
    ensures { OnOk result (paths.new.items ≡ paths.old.items ++ in_folders row.now.folders (path_below kind row.now.prefix name.now)) }
{
    let below = class_path(alloc, kind, row.prefix.as_slice(), name)?;
    put_below(alloc, paths, row.folders.as_slice(), &below)
}

/// Puts the paths below folders behind others.
fn put_below(
    alloc: Global,
    paths: &mut Vec<Path>,
    folders: &[Path],
    below: &Path,
) -> Result<(), AllocError>
    ensures { OnOk result (paths.new.items ≡ paths.old.items ++ in_folders folders.now below.now) }
{
    for folder in folders {
        paths.push(folder.join(alloc, below)?)?;
    }
    Ok(())
}
