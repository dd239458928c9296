//! Calls of the system that are tried again where an interrupt breaks them off.

use crate::trouble::Trouble;
use crate::writing::write_whole;
use std::fs::{File, Metadata, OpenFile, OpenOptions};
use std::io::{ErrorKind, Write};
use std::os::unix::fs::MetadataExt;
use std::rt::Files;
use std::{fs, io};
use tree_dev::{Did, Kind, Made};

/// The most bytes of a name that the system takes, with the NUL at its end, on Linux.
pub const PATH_MAX: usize = 4_096;

/// The same call again, as long as an interrupt breaks it off.
fn again<T, F: FnMut() -> io::Result<T>>(mut call: F) -> io::Result<T>
    requires { F.IsAlwaysCallable call }
{
    for _ in 0..u64::MAX {
        match call() {
            Err(error) if error.kind() == ErrorKind::Interrupted => {}
            answer => return answer,
        }
    }
    Err(io::Error::from(ErrorKind::TimedOut))
}

/// What stands at a name; a link is not followed. A name that is too long as a whole is a fault.
pub fn look<R: Files>(files: &R, name: &str) -> Result<Metadata, Trouble> {
    if name.len() >= PATH_MAX {
        return Err(Trouble::Failed);
    }
    Ok(again(|| fs::symlink_metadata(files, name))?)
}

/// The same; None where nothing stands there.
pub fn found<R: Files>(files: &R, name: &str) -> Result<Option<Metadata>, Trouble> {
    match look(files, name) {
        Ok(found) => Ok(Some(found)),
        Err(Trouble::Absent) => Ok(None),
        Err(trouble) => Err(trouble),
    }
}

/// The kind of what was found.
pub fn kind_of(found: &Option<Metadata>) -> Kind {
    match found {
        None => Kind::Absent,
        Some(entry) => {
            if entry.is_file() {
                Kind::File
            } else if entry.is_dir() {
                Kind::Folder
            } else {
                Kind::Other
            }
        }
    }
}

/// Whether two names were found to be names of one file.
pub fn are_one_file(a: &Option<Metadata>, b: &Option<Metadata>) -> bool {
    match (a, b) {
        (Some(a), Some(b)) => a.nlink() > 1 && a.dev() == b.dev() && a.ino() == b.ino(),
        _ => false,
    }
}

/// The kind of what stands at a name; a link is not followed.
pub fn kind<R: Files>(files: &R, name: &str) -> Result<Kind, Trouble> {
    Ok(kind_of(&found(files, name)?))
}

/// The open folder at a name. None: something else stands there. A link is not followed.
pub fn open_folder<R: Files>(files: &R, name: &str) -> Result<Option<R::Dir>, Trouble> {
    if name.len() >= PATH_MAX {
        return Err(Trouble::Failed);
    }
    match again(|| files.open_dir(name)) {
        Ok(folder) => Ok(Some(folder)),
        Err(error) => match error.kind() {
            ErrorKind::NotADirectory | ErrorKind::FilesystemLoop => Ok(None),
            _ => Err(Trouble::from(error)),
        },
    }
}

/// The open file at a name.
pub fn open<R: Files>(files: &R, name: &str) -> Result<R::File, Trouble> {
    Ok(again(|| File::open(files, name))?)
}

/// What an error says of a change: that it has no place, or that the system failed.
fn refused(error: io::Error) -> Result<Did, Trouble> {
    match error.kind() {
        ErrorKind::NotFound
        | ErrorKind::NotADirectory
        | ErrorKind::IsADirectory
        | ErrorKind::DirectoryNotEmpty
        | ErrorKind::AlreadyExists => Ok(Did::Misplaced),
        _ => Err(Trouble::Failed),
    }
}

fn did(answer: io::Result<()>) -> Result<Did, Trouble> {
    match answer {
        Ok(()) => Ok(Did::Done),
        Err(error) => refused(error),
    }
}

/// Opens a new file at a name. None: an entry is there.
fn open_new<R: Files>(files: &R, name: &str) -> io::Result<Option<R::File>> {
    match again(|| OpenOptions::new()
        .write(true)
        .create_new(true)
        .open(files, name))
    {
        Ok(file) => Ok(Some(file)),
        Err(error) if error.kind() == ErrorKind::AlreadyExists => Ok(None),
        Err(error) => Err(error),
    }
}

fn open_again<R: Files>(files: &R, name: &str) -> io::Result<R::File> {
    again(|| OpenOptions::new()
        .write(true)
        .truncate(true)
        .open(files, name))
}

/// Writes a file's bytes, and has the system keep them.
fn fill<F: Write + OpenFile + Drop>(file: F, bytes: &[u8]) -> Result<Did, Trouble> {
    let mut file = file;
    write_whole(&mut file, bytes)?;
    again(|| file.sync_all())?;
    Ok(Did::Done)
}

/// Makes or replaces a file at a name, and has the system keep its bytes. Misplaced: something else is there.
pub fn write<R: Files>(files: &R, name: &str, bytes: &[u8]) -> Result<Did, Trouble> {
    match open_new(files, name) {
        Ok(Some(file)) => fill(file, bytes),
        Ok(None) => replace(files, name, bytes),
        Err(error) => refused(error),
    }
}

fn replace<R: Files>(files: &R, name: &str, bytes: &[u8]) -> Result<Did, Trouble> {
    if kind(files, name)? != Kind::File {
        return Ok(Did::Misplaced);
    }
    match open_again(files, name) {
        Ok(file) => fill(file, bytes),
        Err(error) => refused(error),
    }
}

/// Makes a folder at a name.
pub fn make_folder<R: Files>(files: &R, name: &str) -> Result<Made, Trouble> {
    match again(|| files.create_dir(name)) {
        Ok(()) => Ok(Made::New),
        Err(error) => match error.kind() {
            ErrorKind::AlreadyExists => Ok(Made::Exists),
            ErrorKind::NotFound | ErrorKind::NotADirectory => Ok(Made::Misplaced),
            _ => Err(Trouble::Failed),
        },
    }
}

/// Moves what stands at one name to another one, and replaces a file there.
pub fn rename<R: Files>(files: &R, from: &str, to: &str) -> Result<Did, Trouble> {
    did(again(|| files.rename(from, to)))
}

/// The same of an entry that is taken away: nothing stands at a name that the system has no room for.
fn removed(name: &str, answer: io::Result<()>) -> Result<Did, Trouble> {
    match answer {
        Ok(()) => Ok(Did::Done),
        Err(error) => {
            if error.kind() == ErrorKind::InvalidFilename && name.len() < PATH_MAX {
                return Ok(Did::Misplaced);
            }
            refused(error)
        }
    }
}

/// Takes away the file or link at a name. Misplaced: a folder or nothing is there.
pub fn remove_file<R: Files>(files: &R, name: &str) -> Result<Did, Trouble> {
    removed(name, again(|| files.remove_file(name)))
}

/// Takes away the empty folder at a name. Misplaced: something else or nothing is there.
pub fn remove_folder<R: Files>(files: &R, name: &str) -> Result<Did, Trouble> {
    removed(name, again(|| files.remove_dir(name)))
}

/// Has the system keep the entries of the folder at a name; nothing where it knows no such call of folders.
pub fn sync_folder<R: Files>(files: &R, name: &str) -> Result<(), Trouble> {
    let folder = open(files, name)?;
    match again(|| folder.sync_all()) {
        Ok(()) => Ok(()),
        Err(error) => match error.kind() {
            ErrorKind::InvalidInput | ErrorKind::Unsupported => Ok(()),
            _ => Err(Trouble::Failed),
        },
    }
}
