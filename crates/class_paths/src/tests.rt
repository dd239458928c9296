use crate::{RouteKind, class_path, is_class_name, is_route_prefix};
use std::alloc::Global;
use std::test::Fail;

/// Kinds and prefixes, with a class that each begins, and the path of the class below the row's folder.
const PATHS: [(RouteKind, &str, &str, &str); 20] = [
    (RouteKind::Psr4, "", "C", "C.php"),
    (RouteKind::Psr4, "", "A\\B\\C", "A/B/C.php"),
    (RouteKind::Psr4, "A\\", "A\\B\\C", "B/C.php"),
    (RouteKind::Psr4, "A\\B\\", "A\\B\\C", "C.php"),
    (RouteKind::Psr4, "A\\", "A\\B_C\\D_E", "B_C/D_E.php"),
    (RouteKind::Psr4, "", "Foo_Bar_Baz", "Foo_Bar_Baz.php"),
    (RouteKind::Psr4, "", "é", "é.php"),
    (RouteKind::Psr0, "", "C", "C.php"),
    (RouteKind::Psr0, "A\\B", "A\\B\\C", "A/B/C.php"),
    (RouteKind::Psr0, "A\\B", "A\\B_C\\D_E", "A/B_C/D/E.php"),
    (RouteKind::Psr0, "Foo_", "Foo_Bar_Baz", "Foo/Bar/Baz.php"),
    (RouteKind::Psr0, "N_x\\", "N_x\\Foo_Bar", "N_x/Foo/Bar.php"),
    (RouteKind::Psr0, "", "N_x", "N/x.php"),
    (RouteKind::Psr0, "Foo_", "Foo_", "Foo/.php"),
    (RouteKind::Psr0, "", "_", ".php"),
    (RouteKind::Psr0, "", "__", ".php"),
    (RouteKind::Psr0, "", "_a", "a.php"),
    (RouteKind::Psr0, "", "a__b", "a/b.php"),
    (RouteKind::Psr0, "", "a_\\b_", "a_/b/.php"),
    (RouteKind::Psr0, "Foo_a", "Foo_a\\B_c", "Foo_a/B/c.php"),
];

const NO_CLASSES: [&str; 8] = ["", "\\", "\\A", "A\\", "A\\\\B", "1", "A\\1", "A-B"];

fn has_path(alloc: Global, kind: RouteKind, prefix: &[u8], name: &[u8], path: &[u8]) -> bool {
    if !is_class_name(name) || !name.starts_with(prefix) || !is_route_prefix(kind, prefix) {
        return false;
    }
    match class_path(alloc, kind, prefix, name) {
        Ok(found) => found.text() == path,
        Err(_) => false,
    }
}

#[test]
fn paths(rt: HostRuntime) -> Result<(), Fail> {
    for (kind, prefix, name, path) in &PATHS {
        assert!(rt;
            has_path(
                rt.alloc(),
                *kind,
                prefix.as_bytes(),
                name.as_bytes(),
                path.as_bytes()
            )
        );
    }
    Ok(())
}

#[test]
fn names(rt: HostRuntime) -> Result<(), Fail> {
    for name in &NO_CLASSES {
        assert!(rt; !is_class_name(name.as_bytes()));
    }
    assert!(rt; !is_class_name(b"A\\\xff"));
    assert!(rt; !is_route_prefix(RouteKind::Psr4, b"A"));
    Ok(())
}
