//! The paths at which a class's file is looked for.

ghost use Rattle.std.specs.Prelude.{◌≡◌, ℕ, ◌+◌, ◌≤◌, [], ◌∷◌, ◌++◌, length, map, All, IfOk, OnOk, IsTrue};
ghost use Rattle.class_paths.specs.ClassNames.{IsClassName};
ghost use Rattle.class_paths.specs.RowPath.{begins, is_route_prefix, row_path_of};
ghost use Rattle.class_paths.specs.Candidates.{is_same_kind, of_kind, rows_at, rows_upto, candidates_of};
ghost use Rattle.psr_routes.specs.Groups.{group_at, paths_below};

use class_paths::{Route, RouteKind, class_path};
use path_name::Path;
use std::alloc::{AllocError, Global};

/// The path that a row gives a class (PSR-4; PSR-0): the row's folder, and behind it the path that `class_path` gives for
/// the row's kind and prefix. Its one refusal is want of memory.
#[tactic(auto, unfolding(class_paths::specs::RowPath::row_path_of))]
pub fn row_path(alloc: Global, row: &Route, name: &[u8]) -> Result<Path, AllocError>
    requires class { IsClassName name.now }
    requires begins { IsTrue (begins row.now.prefix name.now) }
    requires prefix { IsTrue (is_route_prefix row.now.kind row.now.prefix) }
    ensures exact { IfOk result (λ path. path ≡ row_path_of row.now name.now) }
{
    let below = class_path(alloc, row.kind, row.prefix.as_slice(), name)?;
    row.folder.join(alloc, &below)
}

/// The paths at which a class's file is looked for, in order (PSR-4; PSR-0; Composer's documentation, "autoload"): those
/// of the rows whose prefix begins the name, PSR-4 before PSR-0, the longest prefix first and the empty one last, rows
/// of one prefix in their order. Its one refusal is want of memory.
pub fn candidates(alloc: Global, rows: &[Route], name: &[u8]) -> Result<Vec<Path>, AllocError>
    requires class { IsClassName name.now }
    requires prefixes { All (λ row. IsTrue (is_route_prefix row.kind row.prefix)) rows.now }
    ensures exact { IfOk result (λ paths. paths.items ≡ candidates_of rows.now name.now) }
{
    let mut paths = Vec::new(alloc);
    put_kind(alloc, &mut paths, RouteKind::Psr4, rows, name)?;
    put_kind(alloc, &mut paths, RouteKind::Psr0, rows, name)?;
    Ok(paths)
}

/// Puts the paths of the rows of one kind behind others.
fn put_kind(
    alloc: Global,
    paths: &mut Vec<Path>,
    kind: RouteKind,
    rows: &[Route],
    name: &[u8],
) -> Result<(), AllocError>
    requires class { IsClassName name.now }
    requires prefixes { All (λ row. IsTrue (is_route_prefix row.kind row.prefix)) rows.now }
    ensures { OnOk result (paths.new.items ≡ paths.old.items ++ map (λ row. row_path_of row name.now) (rows_upto (of_kind kind rows.now) name.now (length name.now))) }
{
    let groups = groups_of(alloc, kind, rows, name)?;
    put_groups(alloc, paths, groups.as_slice(), name)
}

/// Puts the paths of rows in groups behind others, those with the longest prefix first.
fn put_groups(
    alloc: Global,
    paths: &mut Vec<Path>,
    groups: &[Vec<&Route>],
    name: &[u8],
) -> Result<(), AllocError>
    requires count { length groups.now ≡ length name.now + 1 }
    requires class { IsClassName name.now }
    requires rows { (len : ℕ) → len ≤ length name.now → All (λ row. IsTrue (is_route_prefix row.kind row.prefix) × IsTrue (begins row.prefix name.now)) (group_at groups.now len) }
    ensures { OnOk result (paths.new.items ≡ paths.old.items ++ paths_below groups.now name.now (length groups.now)) }
{
    for len in (0..groups.len()).rev() {
        put_group(alloc, paths, groups[len].as_slice(), name)?;
    }
    Ok(())
}

/// Puts the paths of rows behind others.
fn put_group(
    alloc: Global,
    paths: &mut Vec<Path>,
    group: &[&Route],
    name: &[u8],
) -> Result<(), AllocError>
    requires class { IsClassName name.now }
    requires prefixes { All (λ row. IsTrue (is_route_prefix row.now.kind row.now.prefix) × IsTrue (begins row.now.prefix name.now)) group.now }
    ensures { OnOk result (paths.new.items ≡ paths.old.items ++ map (λ row. row_path_of row name.now) (map (λ row. row.now) group.now)) }
{
    for row in group {
        paths.push(row_path(alloc, row, name)?)?;
    }
    Ok(())
}

/// The rows of one kind whose prefix begins the name: a list for each number of its first bytes, from none to all, with
/// its rows in their order.
fn groups_of<'a>(
    alloc: Global,
    kind: RouteKind,
    rows: &'a [Route],
    name: &[u8],
) -> Result<Vec<Vec<&'a Route>>, AllocError>
    ensures count { IfOk result (λ groups. length groups.items ≡ length name.now + 1) }
    ensures each { IfOk result (λ groups. (len : ℕ) → len ≤ length name.now → group_at groups.items len ≡ rows_at (of_kind kind rows.now) name.now len) }
{
    let mut groups = empty_groups(alloc, name.len() + 1)?;
    for row in rows {
        if is_same_kind(kind, row.kind) {
            put_row(&mut groups, row, name)?;
        }
    }
    Ok(groups)
}

fn is_same_kind(kind: RouteKind, other: RouteKind) -> bool
    ensures { result ≡ is_same_kind kind other }
{
    match (kind, other) {
        (RouteKind::Psr4, RouteKind::Psr4) => true,
        (RouteKind::Psr4, RouteKind::Psr0) => false,
        (RouteKind::Psr0, RouteKind::Psr4) => false,
        (RouteKind::Psr0, RouteKind::Psr0) => true,
    }
}

fn empty_groups<'a>(alloc: Global, count: usize) -> Result<Vec<Vec<&'a Route>>, AllocError>
    ensures count { IfOk result (λ groups. length groups.items ≡ count) }
    ensures each { IfOk result (λ groups. (len : ℕ) → group_at groups.items len ≡ []) }
{
    let mut groups = Vec::with_capacity(alloc, count)?;
    for _ in 0..count {
        groups.push(Vec::new(alloc))?;
    }
    Ok(groups)
}

/// Puts a row whose prefix begins the name behind those of its length.
fn put_row<'a>(
    groups: &mut Vec<Vec<&'a Route>>,
    row: &'a Route,
    name: &[u8],
) -> Result<(), AllocError>
    requires { length groups.old.items ≡ length name.now + 1 }
    ensures count { OnOk result (length groups.new.items ≡ length name.now + 1) }
    ensures each { OnOk result ((len : ℕ) → len ≤ length name.now →
        group_at groups.new.items len ≡ group_at groups.old.items len ++ rows_at (row.now ∷ []) name.now len) }
{
    let prefix = row.prefix.as_slice();
    if name.starts_with(prefix) {
        groups[prefix.len()].push(row)?;
    }
    Ok(())
}
