use super::*;
use std::alloc::{AllocError, Global};
use std::cmp::Ordering;
use std::test::*;

#[derive(Drop)]
struct Row {
    text: &'static [u8],
    path: Result<&'static [u8], PathFault>,
    folder: Result<(u64, &'static [u8]), PathFault>,
}

fn same(text: &'static [u8], read: &'static [u8]) -> Row {
    Row {
        text,
        path: Ok(read),
        folder: Ok((0, read)),
    }
}

fn above(text: &'static [u8], at: u64, up: u64, read: &'static [u8]) -> Row {
    Row {
        text,
        path: Err(PathFault::AboveRoot(at)),
        folder: Ok((up, read)),
    }
}

fn bad(text: &'static [u8], path: PathFault, at: u64) -> Row {
    Row {
        text,
        path: Err(path),
        folder: Err(PathFault::BadSegment(at)),
    }
}

static LONG: [u8; 4097] = [b'x'; 4097];

#[test]
fn texts(rt: HostRuntime) -> Result<(), Fail> {
    let rows = [
        same(b"", b"."),
        same(b".", b"."),
        same(b"/", b"."),
        same(b"/a/", b"a"),
        same(b"a//b", b"a/b"),
        same(b"a/./b", b"a/b"),
        same(b"a/../b", b"b"),
        same(b"a/..", b"."),
        same(b"a/.../b", b"a/.../b"),
        same("\u{e9}/\u{65e5}".as_bytes(), "\u{e9}/\u{65e5}".as_bytes()),
        same(&LONG, &LONG),
        above(b"../a", 0, 1, b"a"),
        above(b"a/../../b", 5, 1, b"b"),
        above(b"./../..", 2, 2, b"."),
        bad(b"\xff", PathFault::BadSegment(0), 0),
        bad(b"a/\xff/..", PathFault::BadSegment(2), 2),
        bad(b"a/../\0", PathFault::BadSegment(5), 5),
        bad(b"../a\0", PathFault::AboveRoot(0), 3),
    ];
    for row in &rows {
        let path = Path::read(rt.alloc(), row.text);
        match (&path, row.path) {
            (Ok(path), Ok(text)) => assert_eq!(rt; path.text(), text),
            (Err(fault), Err(wanted)) => assert_eq!(rt; *fault, wanted),
            _ => assert!(rt; false, "{path:?}"),
        }
        let folder = FolderRef::read(rt.alloc(), row.text);
        match (&folder, row.folder) {
            (Ok(folder), Ok((up, text))) => {
                assert_eq!(rt; folder.up, up);
                assert_eq!(rt; folder.path.text(), text);
            }
            (Err(fault), Err(wanted)) => assert_eq!(rt; *fault, wanted),
            _ => assert!(rt; false, "{folder:?}"),
        }
    }
    Ok(())
}

fn path(alloc: Global, text: &[u8]) -> Result<Path, PathFault> {
    Path::read(alloc, text)
}

fn is_path(made: Result<Path, AllocError>, text: &[u8]) -> bool {
    match made {
        Ok(path) => path.text() == text,
        Err(_) => false,
    }
}

fn child(folder: &Path, alloc: Global, name: &[u8]) -> Result<Path, AllocError> {
    if is_segment(name) {
        folder.child(alloc, name)
    } else {
        Err(AllocError)
    }
}

fn is_path_or_none(made: Result<Option<Path>, AllocError>, text: Option<&[u8]>) -> bool {
    match (made, text) {
        (Ok(Some(path)), Some(text)) => path.text() == text,
        (Ok(None), None) => true,
        _ => false,
    }
}

fn are_names(made: Result<Vec<Name>, AllocError>, count: usize, last: &[u8]) -> bool {
    match made {
        Ok(names) => match names.last() {
            Some(name) => names.len() == count && name.as_slice() == last,
            None => count == 0,
        },
        Err(_) => false,
    }
}

#[test]
fn paths(rt: HostRuntime) -> Result<(), Fail> {
    let alloc = rt.alloc();
    let root = Path::root(alloc);
    let app = path(alloc, b"app")?;
    let src = path(alloc, b"app/src")?;
    assert_eq!(rt; root.text(), b".".as_slice());
    assert!(rt; is_path(root.join(alloc, &src), b"app/src"));
    assert!(rt; is_path(src.join(alloc, &root), b"app/src"));
    assert!(rt; is_path(app.join(alloc, &src), b"app/app/src"));
    assert!(rt; src.starts_with(&app) && src.starts_with(&root) && src.starts_with(&src));
    assert!(rt; !app.starts_with(&src));
    assert_eq!(rt; src.below(&app), Some(b"src".as_slice()));
    assert_eq!(rt; src.below(&src), Some(b"".as_slice()));
    assert_eq!(rt; app.below(&src), None);
    assert!(rt; is_path(src.copy(alloc), b"app/src"));
    assert!(rt; is_path(child(&app, alloc, b"src"), b"app/src"));
    assert!(rt; is_path(child(&root, alloc, b"src"), b"src"));
    assert!(rt; is_path_or_none(src.parent(alloc), Some(b"app")));
    assert!(rt; is_path_or_none(root.parent(alloc), None));
    Ok(())
}

#[test]
fn segments(rt: HostRuntime) -> Result<(), Fail> {
    let alloc = rt.alloc();
    let root = Path::root(alloc);
    let src = path(alloc, b"app/src")?;
    assert_eq!(rt; src.first(), Some(b"app".as_slice()));
    assert_eq!(rt; root.first(), None);
    assert_eq!(rt; src.last(), Some(b"src".as_slice()));
    assert_eq!(rt; root.last(), None);
    assert_eq!(rt; src.depth(), 2);
    assert!(rt; root.is_root() && !src.is_root());
    assert!(rt; are_names(src.segments(alloc), 2, b"src"));
    assert!(rt; are_names(root.segments(alloc), 0, b""));
    Ok(())
}

#[test]
fn paths_led_elsewhere(rt: HostRuntime) -> Result<(), Fail> {
    let alloc = rt.alloc();
    let app = path(alloc, b"app")?;
    let src = path(alloc, b"app/src")?;
    let apps = path(alloc, b"apps/x")?;
    assert!(rt; !apps.starts_with(&app));
    assert!(rt; is_path_or_none(src.moved(alloc, &app, &apps), Some(b"apps/x/src")));
    assert!(rt; is_path_or_none(src.moved(alloc, &src, &apps), Some(b"apps/x")));
    assert!(rt; is_path_or_none(app.moved(alloc, &src, &apps), None));
    match app.follow(alloc, b"./lib/../src/") {
        Ok(path) => assert_eq!(rt; path.text(), b"app/src".as_slice()),
        Err(fault) => assert!(rt; false, "{fault:?}"),
    }
    match app.follow(alloc, b"../../a") {
        Ok(path) => assert!(rt; false, "{path:?}"),
        Err(fault) => assert_eq!(rt; fault, PathFault::AboveRoot(3)),
    }
    Ok(())
}

/// Segment by segment: the texts of the first two rows stand the other way round.
#[test]
fn order(rt: HostRuntime) -> Result<(), Fail> {
    let rows = [
        (b"a/b".as_slice(), b"a-b".as_slice()),
        (b"a/b", b"a."),
        (b"a", b"a/b"),
        (b".", b"a"),
    ];
    for (first, second) in rows {
        let first = path(rt.alloc(), first)?;
        let second = path(rt.alloc(), second)?;
        assert_eq!(rt; first.cmp(&second), Ordering::Less);
    }
    Ok(())
}

fn enter(at: &mut Path, name: &[u8]) -> Result<bool, AllocError> {
    if !is_segment(name) {
        return Ok(false);
    }
    at.enter(name)?;
    Ok(true)
}

#[test]
fn walks(rt: HostRuntime) -> Result<(), Fail> {
    let mut at = Path::root(rt.alloc());
    let app = enter(&mut at, b"app")?;
    let above = enter(&mut at, b"..")?;
    let src = enter(&mut at, b"src")?;
    assert_eq!(rt; [app, above, src], [true, false, true]);
    assert_eq!(rt; at.text(), b"app/src".as_slice());
    let first = at.leave();
    assert_eq!(rt; at.text(), b"app".as_slice());
    let second = at.leave();
    let third = at.leave();
    assert_eq!(rt; [first, second, third], [true, true, false]);
    assert!(rt; at.is_root());
    Ok(())
}

#[test]
fn folders(rt: HostRuntime) -> Result<(), Fail> {
    let alloc = rt.alloc();
    let folder = FolderRef::read(alloc, b"../packages/log")?;
    assert_eq!(rt;
        folder.text(alloc)?.as_slice(),
        b"../packages/log".as_slice()
    );
    let project = path(alloc, b"shop/site")?;
    assert_eq!(rt;
        folder.resolve(alloc, &project)?.text(),
        b"shop/packages/log".as_slice()
    );
    assert_eq!(rt;
        folder.resolve(alloc, &Path::root(alloc)).err(),
        Some(PathFault::AboveRoot(0))
    );
    assert_eq!(rt; folder.copy(alloc)?, folder);
    let far = FolderRef {
        up: u64::MAX,
        path: project,
    };
    assert_eq!(rt;
        far.resolve(alloc, &far.path).err(),
        Some(PathFault::AboveRoot(0))
    );
    assert!(rt; far.text(alloc).is_err());
    Ok(())
}

#[test]
fn byte_strings(rt: HostRuntime) -> Result<(), Fail> {
    let alloc = rt.alloc();
    let text = Text::of(b"abc".to_vec(alloc)?);
    assert_eq!(rt; text.copy(alloc)?, text);
    assert_eq!(rt; Text::copy_of(alloc, b"abc")?, text);
    assert!(rt; Text::empty(alloc).is_empty() && !text.is_empty());
    assert_eq!(rt; text.into_vec().as_slice(), b"abc".as_slice());
    Ok(())
}

#[test]
fn names_and_lists(rt: HostRuntime) -> Result<(), Fail> {
    let alloc = rt.alloc();
    let name = Name::of(b"ab".to_vec(alloc)?);
    assert_eq!(rt;
        name.copy(alloc)?.cmp(&Name::of(b"abc".to_vec(alloc)?)),
        Ordering::Less
    );
    assert_eq!(rt; Name::copy_of(alloc, b"")?, Name::empty(alloc));
    assert!(rt; !Name::copy_of(alloc, b"a")?.is_empty());
    assert!(rt; Items::<u8>::empty(alloc).is_empty());
    let numbers = Items::of([1u8, 2].to_vec(alloc)?);
    assert_eq!(rt; numbers, Items::of([1u8, 2].to_vec(alloc)?));
    assert_eq!(rt; numbers.as_slice(), [1u8, 2].as_slice());
    Ok(())
}

#[derive(Drop)]
struct NumberRow {
    text: &'static [u8],
    number: Option<u64>,
}

fn number(text: &'static [u8], number: Option<u64>) -> NumberRow {
    NumberRow { text, number }
}

#[test]
fn numbers_and_bytes(rt: HostRuntime) -> Result<(), Fail> {
    let rows = [
        number(b"0", Some(0)),
        number(b"007", Some(7)),
        number(b"18446744073709551615", Some(u64::MAX)),
        number(b"00018446744073709551615", Some(u64::MAX)),
        number(b"18446744073709551616", None),
        number(b"100000000000000000000", None),
        number(b"", None),
        number(b"+1", None),
        number(b"-1", None),
        number(b" 1", None),
        number(b"1a", None),
        number(b"\xff", None),
    ];
    for row in &rows {
        assert_eq!(rt; read_number(row.text), row.number);
    }
    let mut text = b"n".to_vec(rt.alloc())?;
    push_number(&mut text, 0)?;
    push_number(&mut text, u64::MAX)?;
    assert_eq!(rt; text.as_slice(), b"n018446744073709551615".as_slice());

    assert!(rt; is_segment(b"...") && is_segment("\u{e9}".as_bytes()));
    assert!(rt; !is_segment(b"") && !is_segment(b".") && !is_segment(b".."));
    assert!(rt; !is_segment(b"a/b") && !is_segment(b"a\0") && !is_segment(b"\xff"));
    assert_eq!(rt; after_blanks(b" \t\r\na b"), b"a b".as_slice());
    assert!(rt; is_blank(b'\t') && !is_blank(b'\x0b') && is_digit(b'9') && !is_digit(b':'));
    assert!(rt; is_identifier(b"_a9\xff") && !is_identifier(b"9a") && !is_identifier(b""));
    assert_eq!(rt;
        [lower(b'A'), lower(b'Z'), lower(b'['), lower(0xc0)],
        *b"az[\xc0"
    );
    Ok(())
}
