//! The autoload rows of a project.

ghost use Rattle.std.specs.Prelude.{◌≡◌, ◌<◌, ◌^◌, ◌++◌, length, IfOk, OnOk};
ghost use Rattle.std.specs.List.{flat_map};
ghost use Rattle.psr_routes.specs.PackageOrder.{ordered, package_order_of};
ghost use Rattle.psr_routes.specs.Routes.{root_sources, sources_of, rows_of, rows_of_prefix, prefixes_of};
ghost use Rattle.psr_routes.specs.Sources.{seen, rules_of, rules_below, rows_by};

use crate::order::package_order;
use crate::types::Placed;
use class_paths::{Route, RouteKind};
use manifest_read::{Autoload, Manifest, PrefixDirs};
use path_name::Path;
use std::alloc::{AllocError, Global};

/// Rules with the folder that they speak of.
#[derive(Clone, Copy)]
struct Source<'a> {
    folder: &'a Path,
    rules: &'a Autoload,
}

/// The autoload rows of a project (Composer's documentation, "autoload"): all rows of PSR-4, then all of PSR-0. Of each
/// kind first those of the root, which stand below the project, by `autoload` and then by `autoload-dev` where `dev`
/// holds; then those of the packages in reverse package order, below the folders that tables name. The rows of one
/// package stand as its manifest has them. Its one refusal is want of memory.
pub fn routes(
    alloc: Global,
    project: &Path,
    root: &Manifest,
    members: &[Placed],
    dev: bool,
) -> Result<Vec<Route>, AllocError>
    requires { length members.now < 2 ^ 32 }
    ensures exact { IfOk result (λ rows. rows.items ≡ rows_of project.now root.now members.now dev) }
{
    let sources = sources(alloc, project, root, members, dev)?;
    let mut rows = Vec::new(alloc);
    put_kind(alloc, &mut rows, RouteKind::Psr4, sources.as_slice())?;
    put_kind(alloc, &mut rows, RouteKind::Psr0, sources.as_slice())?;
    Ok(rows)
}

/// The rules of the root, and then those of the packages in reverse package order.
fn sources<'a>(
    alloc: Global,
    project: &'a Path,
    root: &'a Manifest,
    members: &'a [Placed],
    dev: bool,
) -> Result<Vec<Source<'a>>, AllocError>
    requires { length members.now < 2 ^ 32 }
    ensures { IfOk result (λ sources. seen sources.items ≡ rules_of (sources_of project.now root.now members.now dev)) }
{
    let order = package_order(alloc, members)?;
    let mut sources = root_sources(alloc, project, root, dev)?;
    put_members(&mut sources, members, order.as_slice())?;
    Ok(sources)
}

/// The rules of the root: `autoload`, then `autoload-dev` where it counts.
fn root_sources<'a>(
    alloc: Global,
    project: &'a Path,
    root: &'a Manifest,
    dev: bool,
) -> Result<Vec<Source<'a>>, AllocError>
    ensures { IfOk result (λ sources. seen sources.items ≡ rules_of (root_sources project.now root.now dev)) }
{
    let mut sources = Vec::new(alloc);
    sources.push(Source {
        folder: project,
        rules: &root.package.autoload,
    })?;
    if dev {
        sources.push(Source {
            folder: project,
            rules: &root.autoload_dev,
        })?;
    }
    Ok(sources)
}

/// Puts the rules of the packages, of which the order is known, the last one first.
fn put_members<'a>(
    sources: &mut Vec<Source<'a>>,
    members: &'a [Placed],
    order: &[u32],
) -> Result<(), AllocError>
    requires { order.now ≡ package_order_of members.now }
    ensures { OnOk result (seen sources.new.items ≡ seen sources.old.items ++ rules_below (ordered members.now) (length order.now)) }
{
    for at in (0..order.len()).rev() {
        let member = &members[order[at] as usize];
        sources.push(Source {
            folder: &member.shown,
            rules: &member.package.autoload,
        })?;
    }
    Ok(())
}

/// Puts the rows of one kind that all the rules give.
fn put_kind(
    alloc: Global,
    rows: &mut Vec<Route>,
    kind: RouteKind,
    sources: &[Source],
) -> Result<(), AllocError>
    ensures { OnOk result (rows.new.items ≡ rows.old.items ++ rows_by kind (seen sources.now)) }
{
    for source in sources {
        put_source(alloc, rows, kind, source.folder, source.rules)?;
    }
    Ok(())
}

/// Puts the rows of one kind that rules give.
fn put_source(
    alloc: Global,
    rows: &mut Vec<Route>,
    kind: RouteKind,
    folder: &Path,
    rules: &Autoload,
) -> Result<(), AllocError>
    ensures { OnOk result (rows.new.items ≡ rows.old.items ++ flat_map (rows_of_prefix kind folder.now) (prefixes_of kind rules.now)) }
{
    for dirs in prefixes(kind, rules) {
        put_prefix(alloc, rows, kind, folder, dirs)?;
    }
    Ok(())
}

fn prefixes(kind: RouteKind, rules: &Autoload) -> &[PrefixDirs]
    ensures { result.now ≡ prefixes_of kind rules.now }
{
    match kind {
        RouteKind::Psr4 => rules.psr4.as_slice(),
        RouteKind::Psr0 => rules.psr0.as_slice(),
    }
}

/// Puts a row for each folder of a prefix.
fn put_prefix(
    alloc: Global,
    rows: &mut Vec<Route>,
    kind: RouteKind,
    folder: &Path,
    dirs: &PrefixDirs,
) -> Result<(), AllocError>
    ensures { OnOk result (rows.new.items ≡ rows.old.items ++ rows_of_prefix kind folder.now dirs.now) }
{
    for path in dirs.folders.as_slice() {
        rows.push(Route {
            kind,
            prefix: dirs.prefix.copy(alloc)?,
            folder: folder.join(alloc, &path.path)?,
        })?;
    }
    Ok(())
}
