//! Calls of the system that interrupts break off.

use crate::FolderTree;
use path_name::{Path, Text};
use std::alloc::Allocator;
use std::cell::Cell;
use std::fs::{File, Metadata, OpenOptions};
use std::io;
use std::io::ErrorKind;
use std::rt::Files;
use std::test::Fail;
use tree_dev::{Did, Kind, Made, ReadAnswer, Tree};

/// The files of a runtime, where every other call is broken off.
#[derive(Drop)]
struct Flaky<'a> {
    files: &'a HostRuntime,
    interrupted: Cell<bool>,
}

impl<'a> Flaky<'a> {
    fn turn(&self) -> io::Result<()> {
        let interrupted = !self.interrupted.get();
        self.interrupted.set(interrupted);
        if interrupted {
            return Err(io::Error::from(ErrorKind::Interrupted));
        }
        Ok(())
    }
}

impl<'a> Files for Flaky<'a> {
    type File = File;

    type Dir = <HostRuntime as Files>::Dir;

    fn open_file(&self, how: &OpenOptions, path: &str) -> io::Result<File> {
        self.turn()?;
        self.files.open_file(how, path)
    }

    fn open_dir(&self, path: &str) -> io::Result<Self::Dir> {
        self.turn()?;
        self.files.open_dir(path)
    }

    fn metadata(&self, path: &str) -> io::Result<Metadata> {
        self.turn()?;
        self.files.metadata(path)
    }

    fn symlink_metadata(&self, path: &str) -> io::Result<Metadata> {
        self.turn()?;
        self.files.symlink_metadata(path)
    }

    fn copy(&self, from: &str, to: &str) -> io::Result<u64> {
        self.turn()?;
        self.files.copy(from, to)
    }

    fn rename(&self, from: &str, to: &str) -> io::Result<()> {
        self.turn()?;
        self.files.rename(from, to)
    }

    fn remove_file(&self, path: &str) -> io::Result<()> {
        self.turn()?;
        self.files.remove_file(path)
    }

    fn create_dir(&self, path: &str) -> io::Result<()> {
        self.turn()?;
        self.files.create_dir(path)
    }

    fn remove_dir(&self, path: &str) -> io::Result<()> {
        self.turn()?;
        self.files.remove_dir(path)
    }

    fn remove_dir_all<B: Allocator>(&self, alloc: B, path: &str) -> io::Result<()> {
        self.files.remove_dir_all(alloc, path)
    }
}

#[test]
fn interrupted_calls(rt: HostRuntime) -> Result<(), Fail> {
    let alloc = rt.alloc();
    let files = Flaky {
        files: &rt,
        interrupted: Cell::new(false),
    };
    let _ = files.remove_dir_all(alloc, "flaky_test");
    let mut tree = FolderTree::new(&files);
    let folder = Path::read(alloc, b"flaky_test")?;
    let file = Path::read(alloc, b"flaky_test/file")?;
    let moved = Path::read(alloc, b"flaky_test/moved")?;
    assert_eq!(rt; tree.make_dir(&folder)?, Made::New);
    assert_eq!(rt; tree.write(&file, b"bytes")?, Did::Done);
    assert_eq!(rt; tree.write(&file, b"other")?, Did::Done);
    assert_eq!(rt; tree.rename(&file, &moved)?, Did::Done);
    assert_eq!(rt; tree.stat(&moved)?, Kind::File);
    let bytes = ReadAnswer::Bytes(Text::copy_of(alloc, b"other")?);
    assert_eq!(rt; tree.read(alloc, &moved, 9)?, bytes);
    tree.barrier()?;
    assert_eq!(rt; tree.remove_file(&moved)?, Did::Done);
    assert_eq!(rt; tree.remove_dir(&folder)?, Did::Done);
    Ok(())
}
