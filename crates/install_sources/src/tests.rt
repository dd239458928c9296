//! The packages of a lock, looked for over a tree in memory.

ghost use Rattle.std.specs.Prelude.{IfOk};
ghost use Rattle.lock_file.specs.FormedLocks.{IsLock};

use crate::{members, put_packages};
use lock_file::{Lock, from_doc};
use path_name::Path;
use run_answers::error_line;
use std::alloc::Global;
use std::test::Fail;
use tree_dev::{Entry, MemoryTree};

/// A lock with two packages, of which the second by name stands first, and one for development.
const LOCK: &[u8] =
    br#"{"content-hash":"x","packages":[{"name":"b/b","version":"v1.0","dist":{"type":"path","url":"../store/b"}},{"name":"a/a","version":"1.0.0","dist":{"type":"path","url":"../store/a"}}],"packages-dev":[{"name":"a/b","version":"dev-main","dist":{"type":"path","url":"../store/c"}}]}"#;

fn lock(alloc: Global) -> Result<Lock, Fail>
    ensures { IfOk result IsLock }
{
    let doc = json_ordered::read(alloc, LOCK)?;
    Ok(from_doc(alloc, &doc)?)
}

/// The lines of the packages of the lock, or that of a refusal, in a project beside these folders.
fn lines(alloc: Global, folders: &[&'static [u8]], dev: bool) -> Result<Vec<u8>, Fail> {
    let mut tree = MemoryTree::new(alloc)?;
    for at in folders {
        tree.put(alloc, &Path::read(alloc, *at)?, Entry::Folder)?;
    }
    lines_in(alloc, &mut tree, dev)
}

fn lines_in(alloc: Global, tree: &mut MemoryTree, dev: bool) -> Result<Vec<u8>, Fail> {
    match members(alloc, &Path::read(alloc, b"app")?, &lock(alloc)?, dev, tree) {
        Ok(members) => {
            let mut lines = Vec::new(alloc);
            put_packages(&mut lines, members.as_slice())?;
            Ok(lines)
        }
        Err(refusal) => Ok(error_line(alloc, &refusal)?),
    }
}

#[test]
fn packages_are_looked_for(rt: HostRuntime) -> Result<(), Fail> {
    let alloc = rt.alloc();
    let all = lines(alloc, &[b"app", b"store/a", b"store/b", b"store/c"], true)?;
    assert_eq!(rt;
        all.as_slice(),
        b"package a/a 1.0.0\npackage a/b dev-main\npackage b/b v1.0\n".as_slice()
    );
    let some = lines(alloc, &[b"app", b"store/a", b"store/b"], false)?;
    assert_eq!(rt;
        some.as_slice(),
        b"package a/a 1.0.0\npackage b/b v1.0\n".as_slice()
    );
    let missing = lines(alloc, &[b"app", b"store/b"], true)?;
    assert_eq!(rt; missing.as_slice(), b"error: missing store/a\n".as_slice());
    Ok(())
}
