ghost use Rattle.std.specs.Prelude.{◌≡◌};
ghost use Rattle.std.specs.List.{list_all};
ghost use Rattle.class_paths.specs.RowPath.{is_route_prefix};

use super::*;
use class_paths::{Route, RouteKind, is_class_name, is_route_prefix};
use manifest_read::{Manifest, Role};
use path_name::{Name, Path};
use std::alloc::{AllocError, Global};
use std::test::*;

fn manifest(alloc: Global, text: &str, role: Role) -> Result<Manifest, Fail> {
    let document = json_ordered::read(alloc, text.as_bytes())?;
    Ok(manifest_read::from_doc(alloc, &document, role)?)
}

/// A package in its place below `vendor`.
fn placed(alloc: Global, text: &str) -> Result<Placed, Fail> {
    let package = manifest(alloc, text, Role::Member)?.package;
    let place = Path::read(alloc, b"vendor")?.follow(alloc, package.name.as_slice())?;
    Ok(Placed {
        package,
        at: place.copy(alloc)?,
        shown: place,
        mirrored: false,
    })
}

fn packages(alloc: Global, texts: &[&str]) -> Result<Vec<Placed>, Fail> {
    let mut members = Vec::new(alloc);
    for text in texts {
        members.push(placed(alloc, text)?)?;
    }
    Ok(members)
}

const A: &str = "{\"name\":\"a/a\"}";

const A_NEEDS_A: &str = "{\"name\":\"a/a\",\"require\":{\"a/a\":\"*\"}}";

const A_NEEDS_B: &str = "{\"name\":\"a/a\",\"require\":{\"b/b\":\"*\"}}";

const A_NEEDS_BC: &str = "{\"name\":\"a/a\",\"require\":{\"b/b\":\"*\",\"c/c\":\"*\"}}";

const A_NEEDS_DC: &str = "{\"name\":\"a/a\",\"require\":{\"d/d\":\"*\",\"c/c\":\"*\"}}";

const A_NEEDS_Z: &str = "{\"name\":\"a/a\",\"require\":{\"z/z\":\"*\"}}";

const B: &str = "{\"name\":\"b/b\"}";

const B_NEEDS_A: &str = "{\"name\":\"b/b\",\"require\":{\"a/a\":\"*\"}}";

const B_NEEDS_C: &str = "{\"name\":\"b/b\",\"require\":{\"c/c\":\"*\"}}";

const B_NEEDS_D: &str = "{\"name\":\"b/b\",\"require\":{\"d/d\":\"*\"}}";

const C: &str = "{\"name\":\"c/c\"}";

const C_NEEDS_A: &str = "{\"name\":\"c/c\",\"require\":{\"a/a\":\"*\"}}";

const C_NEEDS_B: &str = "{\"name\":\"c/c\",\"require\":{\"b/b\":\"*\"}}";

const D_NEEDS_C: &str = "{\"name\":\"d/d\",\"require\":{\"c/c\":\"*\"}}";

/// Packages, and their places in order.
const ORDERS: [(&[&str], &[u32]); 21] = [
    (&[], &[]),
    (&[A], &[0]),
    (&[B, A], &[1, 0]),
    (&[A_NEEDS_B, B], &[1, 0]),
    (&[A, B_NEEDS_A], &[0, 1]),
    (&[A_NEEDS_B, B_NEEDS_A], &[0, 1]),
    (&[B_NEEDS_A, A_NEEDS_B], &[1, 0]),
    (&[A_NEEDS_A, B], &[0, 1]),
    (&[A_NEEDS_B, B_NEEDS_C, C], &[2, 1, 0]),
    (&[A_NEEDS_B, B_NEEDS_C, C_NEEDS_A], &[0, 2, 1]),
    (&[A_NEEDS_BC, B, C], &[1, 2, 0]),
    (&[A_NEEDS_Z, B], &[0, 1]),
    (&[C_NEEDS_B, B_NEEDS_C, A], &[2, 1, 0]),
    (&[A, A], &[0, 1]),
    (&[A_NEEDS_A, A], &[1, 0]),
    (&[A_NEEDS_A, A_NEEDS_A], &[0, 1]),
    (&[A_NEEDS_B, B, B], &[1, 2, 0]),
    (&[B_NEEDS_A, A_NEEDS_B, A], &[2, 1, 0]),
    (&[D_NEEDS_C, C_NEEDS_B, B_NEEDS_A, A], &[3, 2, 1, 0]),
    (&[A_NEEDS_DC, B_NEEDS_D, C, D_NEEDS_C], &[2, 3, 0, 1]),
    (&[A_NEEDS_B, B_NEEDS_C, C_NEEDS_B], &[0, 1, 2]),
];

fn have_order(alloc: Global, texts: &[&str], order: &[u32]) -> Result<bool, Fail> {
    let members = packages(alloc, texts)?;
    Ok(members.len() < 10 && package_order(alloc, members.as_slice())?.as_slice() == order)
}

#[test]
fn packages_stand_behind_what_they_require(rt: HostRuntime) -> Result<(), Fail> {
    for (texts, order) in &ORDERS {
        assert!(rt; have_order(rt.alloc(), texts, order)?);
    }
    Ok(())
}

const ROWS: [(RouteKind, &str, &str); 10] = [
    (RouteKind::Psr0, "Foo_", "l"),
    (RouteKind::Psr4, "A\\", "x"),
    (RouteKind::Psr4, "", "e"),
    (RouteKind::Psr0, "", "z"),
    (RouteKind::Psr4, "A\\B\\", "y"),
    (RouteKind::Psr0, "N_x\\", "l"),
    (RouteKind::Psr4, "A\\", "v"),
    (RouteKind::Psr0, "Q", "b"),
    (RouteKind::Psr4, "Foo\\", "f"),
    (RouteKind::Psr0, "A\\B", "w"),
];

/// Classes, and where their files are looked for. Some have `_` at their ends, small letters, or bytes past ASCII.
const CANDIDATES: [(&str, &str); 40] = [
    ("C", "e/C.php z/C.php"),
    ("A", "e/A.php z/A.php"),
    ("A\\C", "x/C.php v/C.php e/A/C.php z/A/C.php"),
    ("A\\B", "x/B.php v/B.php e/A/B.php w/A/B.php z/A/B.php"),
    (
        "A\\B\\C",
        "y/C.php x/B/C.php v/B/C.php e/A/B/C.php w/A/B/C.php z/A/B/C.php",
    ),
    (
        "A\\BC",
        "x/BC.php v/BC.php e/A/BC.php w/A/BC.php z/A/BC.php",
    ),
    (
        "A\\B_C",
        "x/B_C.php v/B_C.php e/A/B_C.php w/A/B/C.php z/A/B/C.php",
    ),
    (
        "A\\B_C\\D_E",
        "x/B_C/D_E.php v/B_C/D_E.php e/A/B_C/D_E.php w/A/B_C/D/E.php z/A/B_C/D/E.php",
    ),
    ("Foo", "e/Foo.php z/Foo.php"),
    ("Foo_", "e/Foo_.php l/Foo/.php z/Foo/.php"),
    (
        "Foo_Bar_Baz",
        "e/Foo_Bar_Baz.php l/Foo/Bar/Baz.php z/Foo/Bar/Baz.php",
    ),
    ("Foo\\Bar", "f/Bar.php e/Foo/Bar.php z/Foo/Bar.php"),
    (
        "Foo\\Bar_Baz",
        "f/Bar_Baz.php e/Foo/Bar_Baz.php z/Foo/Bar/Baz.php",
    ),
    (
        "N_x\\Foo_Bar",
        "e/N_x/Foo_Bar.php l/N_x/Foo/Bar.php z/N_x/Foo/Bar.php",
    ),
    ("N_x", "e/N_x.php z/N/x.php"),
    ("Q", "e/Q.php b/Q.php z/Q.php"),
    ("Qa", "e/Qa.php b/Qa.php z/Qa.php"),
    ("Q_a", "e/Q_a.php b/Q/a.php z/Q/a.php"),
    ("Q\\a", "e/Q/a.php b/Q/a.php z/Q/a.php"),
    ("q", "e/q.php z/q.php"),
    ("_", "e/_.php z/.php"),
    ("__", "e/__.php z/.php"),
    ("_a", "e/_a.php z/a.php"),
    ("a_", "e/a_.php z/a/.php"),
    ("a__b", "e/a__b.php z/a/b.php"),
    ("a\\_", "e/a/_.php z/a/.php"),
    ("a_b\\c", "e/a_b/c.php z/a_b/c.php"),
    ("a_\\b_", "e/a_/b_.php z/a_/b/.php"),
    ("A\\b", "x/b.php v/b.php e/A/b.php z/A/b.php"),
    ("a\\B\\c", "e/a/B/c.php z/a/B/c.php"),
    (
        "A\\B\\C\\D",
        "y/C/D.php x/B/C/D.php v/B/C/D.php e/A/B/C/D.php w/A/B/C/D.php z/A/B/C/D.php",
    ),
    (
        "A\\B\\_C",
        "y/_C.php x/B/_C.php v/B/_C.php e/A/B/_C.php w/A/B/C.php z/A/B/C.php",
    ),
    ("AB", "e/AB.php z/AB.php"),
    ("A_B", "e/A_B.php z/A/B.php"),
    ("Foo_\\A", "e/Foo_/A.php l/Foo_/A.php z/Foo_/A.php"),
    (
        "Foo_a\\B_c",
        "e/Foo_a/B_c.php l/Foo_a/B/c.php z/Foo_a/B/c.php",
    ),
    ("N_x\\A", "e/N_x/A.php l/N_x/A.php z/N_x/A.php"),
    ("N_xy", "e/N_xy.php z/N/xy.php"),
    ("é", "e/é.php z/é.php"),
    ("Z9\\php", "e/Z9/php.php z/Z9/php.php"),
];

fn table(alloc: Global, given: &[(RouteKind, &str, &str)]) -> Result<Vec<Route>, Fail> {
    let mut rows = Vec::new(alloc);
    for (kind, prefix, folder) in given {
        rows.push(Route {
            kind: *kind,
            prefix: Name::copy_of(alloc, prefix.as_bytes())?,
            folder: Path::read(alloc, folder.as_bytes())?,
        })?;
    }
    Ok(rows)
}

/// Whether each row has a prefix that rows of its kind may have.
fn have_prefixes(rows: &[Route]) -> bool
    ensures { result ≡ list_all (λ row. is_route_prefix row.kind row.prefix) rows.now }
{
    rows.iter()
        .all(|row| is_route_prefix(row.kind, row.prefix.as_slice()))
}

/// Texts with a blank between each two.
fn put_text(text: &mut Vec<u8>, more: &[u8]) -> Result<(), AllocError> {
    if !text.is_empty() {
        text.push(b' ')?;
    }
    text.extend_from_slice(more)
}

fn path_texts(alloc: Global, paths: &[Path]) -> Result<Vec<u8>, AllocError> {
    let mut text = Vec::new(alloc);
    for path in paths {
        put_text(&mut text, path.text())?;
    }
    Ok(text)
}

fn are_candidates(alloc: Global, rows: &[Route], name: &str, wanted: &str) -> Result<bool, Fail> {
    if !is_class_name(name.as_bytes()) || !have_prefixes(rows) {
        return Ok(false);
    }
    let paths = candidates(alloc, rows, name.as_bytes())?;
    Ok(path_texts(alloc, paths.as_slice())?.as_slice() == wanted.as_bytes())
}

#[test]
fn classes_are_looked_for(rt: HostRuntime) -> Result<(), Fail> {
    let rows = table(rt.alloc(), &ROWS)?;
    for (name, paths) in &CANDIDATES {
        assert!(rt; are_candidates(rt.alloc(), rows.as_slice(), name, paths)?);
    }
    Ok(())
}

const LONGEST: &[(RouteKind, &str, &str)] = &[
    (RouteKind::Psr4, "A\\B\\", "y"),
    (RouteKind::Psr4, "A\\", "x"),
];

const PARTED: &[(RouteKind, &str, &str)] = &[
    (RouteKind::Psr0, "Foo_", "lib"),
    (RouteKind::Psr0, "N_x\\", "lib"),
];

const EMPTY: &[(RouteKind, &str, &str)] = &[
    (RouteKind::Psr0, "Q", "b"),
    (RouteKind::Psr4, "", "a"),
];

/// Rows, a class, and where its file is looked for.
const TRIED: [(&[(RouteKind, &str, &str)], &str, &str); 4] = [
    (LONGEST, "A\\B\\C", "y/C.php x/B/C.php"),
    (PARTED, "Foo_Bar_Baz", "lib/Foo/Bar/Baz.php"),
    (PARTED, "N_x\\Foo_Bar", "lib/N_x/Foo/Bar.php"),
    (EMPTY, "Q", "a/Q.php b/Q.php"),
];

#[test]
fn prefixes_are_tried_in_order(rt: HostRuntime) -> Result<(), Fail> {
    for (given, name, paths) in &TRIED {
        let rows = table(rt.alloc(), given)?;
        assert!(rt; are_candidates(rt.alloc(), rows.as_slice(), name, paths)?);
    }
    Ok(())
}

const ROOT: &str =
    "{\"autoload\":{\"psr-0\":{\"Old_\":\"lib\"},\"psr-4\":{\"App\\\\\":[\"src\",\"/more\"],\"\":\"\"}},\"autoload-dev\":{\"psr-4\":{\"T\\\\\":\"tests\"}}}";

const MEMBERS: [&str; 3] = [
    "{\"name\":\"acme/clock\",\"autoload\":{\"psr-4\":{\"Acme\\\\Clock\\\\\":\"src\"}}}",
    "{\"name\":\"acme/log\",\"require\":{\"acme/clock\":\"*\"},\"autoload\":{\"psr-4\":{\"Acme\\\\Log\\\\\":\"src\"},\"psr-0\":{\"Log_\":\"lib\"}}}",
    "{\"name\":\"acme/mail\"}",
];

/// The prefix and the folder of each row.
fn row_texts(alloc: Global, rows: &[Route]) -> Result<Vec<u8>, AllocError> {
    let mut text = Vec::new(alloc);
    for row in rows {
        put_text(&mut text, row.prefix.as_slice())?;
        put_text(&mut text, row.folder.text())?;
    }
    Ok(text)
}

fn are_rows(alloc: Global, dev: bool, wanted: &str) -> Result<bool, Fail> {
    let root = manifest(alloc, ROOT, Role::Root)?;
    let members = packages(alloc, &MEMBERS)?;
    if members.len() > 9 {
        return Ok(false);
    }
    let rows = routes(
        alloc,
        &Path::read(alloc, b"app")?,
        &root,
        members.as_slice(),
        dev,
    )?;
    Ok(row_texts(alloc, rows.as_slice())?.as_slice() == wanted.as_bytes())
}

const WITH_DEV: &str =
    "App\\ app/src App\\ app/more  app T\\ app/tests Acme\\Log\\ vendor/acme/log/src Acme\\Clock\\ vendor/acme/clock/src Old_ app/lib Log_ vendor/acme/log/lib";

const WITHOUT: &str =
    "App\\ app/src App\\ app/more  app Acme\\Log\\ vendor/acme/log/src Acme\\Clock\\ vendor/acme/clock/src Old_ app/lib Log_ vendor/acme/log/lib";

#[test]
fn rows_stand_in_order(rt: HostRuntime) -> Result<(), Fail> {
    assert!(rt; are_rows(rt.alloc(), true, WITH_DEV)?);
    assert!(rt; are_rows(rt.alloc(), false, WITHOUT)?);
    Ok(())
}
