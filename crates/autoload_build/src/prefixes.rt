//! The tables of prefixes.

ghost use Rattle.std.specs.Prelude.{◌≡◌, ◌<◌, ◌≤◌, List, length, IfOk, OnOk, map};
ghost use Rattle.std.specs.List.{prefix_len};
ghost use Rattle.std.specs.Borrow.{Bor};
ghost use Rattle.class_paths.specs.Candidates.{is_same_kind, of_kind};
ghost use Rattle.class_paths.specs.declared.types.Route.{Route};
ghost use Rattle.autoload_build.specs.Jobs.{by_falling_key, falling};
ghost use Rattle.autoload_build.specs.BuiltTables.{prefix_table, first_of_each};
ghost use Rattle.autoload_build.specs.Steps.{PutsRun, has_prefix, lent, lent_prefix, row_of, rows_of_prefixes};
ghost use Rattle.path_name.specs.Orders.{paths_are_equal};

use class_paths::{Route, RouteKind};
use path_name::{Items, Name, Path};
use std::alloc::{AllocError, Global};
use std::collections::BTreeSet;
use table_scan::PrefixRow;

/// The rows of one kind brought together: one row a prefix, the greatest in byte order first, its folders in the order of
/// rows and each once. Its one refusal is want of memory.
pub fn prefix_table(
    alloc: Global,
    kind: RouteKind,
    routes: &[Route],
) -> Result<Vec<PrefixRow>, AllocError>
    ensures { IfOk result (λ rows. rows.items ≡ prefix_table kind routes.now) }
{
    let mut some = of_kind(alloc, kind, routes)?;
    sort_by_prefix(&mut some)?;
    rows_of_runs(alloc, some.as_slice())
}

/// The rows of one kind, in their order.
fn of_kind<'a>(
    alloc: Global,
    kind: RouteKind,
    routes: &'a [Route],
) -> Result<Vec<&'a Route>, AllocError>
    ensures { IfOk result (λ some. lent some.items ≡ of_kind kind routes.now) }
{
    let mut some = Vec::new(alloc);
    for route in routes {
        if is_same_kind(kind, route.kind) {
            some.push(route)?;
        }
    }
    Ok(some)
}

fn is_same_kind(kind: RouteKind, other: RouteKind) -> bool
    ensures { result ≡ is_same_kind kind other }
{
    match (kind, other) {
        (RouteKind::Psr4, RouteKind::Psr4) => true,
        (RouteKind::Psr4, RouteKind::Psr0) => false,
        (RouteKind::Psr0, RouteKind::Psr4) => false,
        (RouteKind::Psr0, RouteKind::Psr0) => true,
    }
}

/// Puts rows in the order of their prefixes, the greatest first. Those of one prefix keep their order.
fn sort_by_prefix(rows: &mut Vec<&Route>) -> Result<(), AllocError>
    ensures { OnOk result (rows.new.items ≡ by_falling_key lent_prefix rows.old.items) }
{
    rows.sort_by(|one, other| other.prefix.cmp(&one.prefix))?;
    Ok(())
}

/// The row of each prefix, where the rows of one prefix stand beside each other.
fn rows_of_runs(alloc: Global, routes: &[&Route]) -> Result<Vec<PrefixRow>, AllocError>
    ensures { IfOk result (λ table. (before : List (Bor Route)) → routes.now ≡ by_falling_key lent_prefix before → table.items ≡ rows_of_prefixes before (falling (map lent_prefix before))) }
{
    let mut table = Vec::new(alloc);
    let mut at = 0;
    while at < routes.len() {
        let len = put_run(alloc, &mut table, routes.split_at(at).1)?;
        at += len;
    }
    Ok(table)
}

/// Puts the row of the prefix that the first row has, and tells how many rows at the front have it.
fn put_run(alloc: Global, table: &mut Vec<PrefixRow>, rest: &[&Route]) -> Result<usize, AllocError>
    requires { 0 < length rest.now }
    ensures run { IfOk result (PutsRun rest.now table.old.items table.new.items) }
    ensures some { IfOk result (λ len. 0 < len) }
    ensures within { IfOk result (λ len. len ≤ length rest.now) }
{
    let prefix = &rest[0].prefix;
    let len = run_len(rest, prefix);
    table.push(row(alloc, prefix, rest.split_at(len).0)?)?;
    Ok(len)
}

/// How many rows at the front have a prefix.
fn run_len(routes: &[&Route], prefix: &Name) -> usize
    ensures count { result ≡ prefix_len (has_prefix prefix.now) routes.now }
    ensures within { result ≤ length routes.now }
{
    let mut len = 0;
    while len < routes.len() && routes[len].prefix == *prefix {
        len += 1;
    }
    len
}

/// The row of a prefix.
fn row(alloc: Global, prefix: &Name, group: &[&Route]) -> Result<PrefixRow, AllocError>
    ensures { IfOk result (λ row. row ≡ row_of prefix.now group.now) }
{
    Ok(PrefixRow {
        prefix: prefix.copy(alloc)?,
        folders: Items::of(folders_of(alloc, group)?),
    })
}

/// The folders of rows, each once, in the order in which they come first.
fn folders_of(alloc: Global, group: &[&Route]) -> Result<Vec<Path>, AllocError>
    ensures { IfOk result (λ folders. folders.items ≡ first_of_each paths_are_equal (map (λ route. route.folder) (lent group.now))) }
{
    let mut seen = BTreeSet::new(alloc);
    let mut folders = Vec::new(alloc);
    for route in group {
        if seen.insert(route.folder.copy(alloc)?)? {
            folders.push(route.folder.copy(alloc)?)?;
        }
    }
    Ok(folders)
}
