//! A folder of many names, names that are too long, and names that are no segments.

use crate::FolderTree;
use crate::listing::names_of;
use crate::trouble::Trouble;
use path_name::Path;
use std::fs;
use std::test::Fail;
use tree_dev::{Kind, ListAnswer, Tree};

const MANY: u32 = 10_000;

/// A longer name than a file can have.
static LONG_NAME: [u8; 300] = [b'x'; 300];

fn fill(rt: &HostRuntime) -> Result<(), Fail> {
    let _ = fs::remove_dir_all(rt, "wide_test");
    fs::create_dir(rt, "wide_test")?;
    for number in 0..MANY {
        let name = format!(in rt.alloc(); "wide_test/{number}")?;
        fs::write(rt, name.as_str(), b"".as_slice())?;
    }
    Ok(())
}

#[test]
fn a_folder_of_many_names(rt: HostRuntime) -> Result<(), Fail> {
    fill(&rt)?;
    let mut tree = FolderTree::new(&rt);
    let folder = Path::read(rt.alloc(), b"wide_test")?;
    let all = tree.list(rt.alloc(), &folder, MANY)?;
    let more = tree.list(rt.alloc(), &folder, MANY - 1)?;
    assert_eq!(rt; more, ListAnswer::TooMany);
    fs::remove_dir_all(&rt, "wide_test")?;
    let ListAnswer::Names(names) = all else {
        return Err(Fail::from(Trouble::Failed));
    };
    assert_eq!(rt; names.as_slice().len(), 10_000);
    assert!(rt; names.as_slice().is_sorted());
    assert_eq!(rt; names.as_slice()[1].as_slice(), b"1".as_slice());
    assert_eq!(rt; names.as_slice()[2].as_slice(), b"10".as_slice());
    Ok(())
}

#[test]
fn names_that_are_none(rt: HostRuntime) -> Result<(), Fail> {
    let alloc = rt.alloc();
    let mut both = b".\0..\0b\0a\0.x\0".as_slice();
    let ListAnswer::Names(names) = names_of(alloc, &mut both, 3)? else {
        return Err(Fail::from(Trouble::Failed));
    };
    assert_eq!(rt; names.as_slice().len(), 3);
    assert_eq!(rt; names.as_slice()[0].as_slice(), b".x".as_slice());
    let mut no_utf8 = b"a\0\xff\0".as_slice();
    assert_eq!(rt;
        names_of(alloc, &mut no_utf8, 9).err(),
        Some(Trouble::Failed)
    );
    let mut tree = FolderTree::new(&rt);
    let long = Path::read(alloc, &LONG_NAME)?;
    assert_eq!(rt; tree.stat(&long)?, Kind::Absent);
    assert!(rt; tree.write(&long, b"x").is_err());
    assert!(rt; tree.make_dir(&long).is_err());
    Ok(())
}

#[test]
fn a_path_that_is_too_long_as_a_whole(rt: HostRuntime) -> Result<(), Fail> {
    let alloc = rt.alloc();
    let text = vec![in alloc; b'x'; 4_096]?;
    let long = Path::read(alloc, text.as_slice())?;
    let mut tree = FolderTree::new(&rt);
    assert!(rt; tree.stat(&long).is_err());
    assert!(rt; tree.read(alloc, &long, 9).is_err());
    assert!(rt; tree.list(alloc, &long, 9).is_err());
    assert!(rt; tree.write(&long, b"x").is_err());
    Ok(())
}
