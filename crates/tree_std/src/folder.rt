//! The entries below the current folder, one call of the system at a time.

ghost use Rattle.std.specs.Prelude.{◌≡◌, ◌≢◌, ◌-◌, ◌^◌, IfOk};
ghost use Rattle.tree_dev.specs.Trees.{ListsNames};
ghost use Rattle.tree_dev.specs.declared.entry.ListAnswer.TheVariants as listings;

use crate::listing::names_of;
use crate::reading::bytes_of;
use crate::system;
use crate::trouble::Trouble;
use crate::way::Way;
use path_name::Path;
use std::alloc::Global;
use std::rt::Files;
use tree_dev::{Did, Kind, ListAnswer, Made, ReadAnswer};

/// The entries below the current folder. A path that leads through an entry that is no folder, as through a
/// link, leads to nothing.
#[derive(Drop)]
pub struct Folder<'a, R> {
    files: &'a R,
    looked: Way,
    changed: Way,
}

/// The text of a path, which the system takes as a name.
fn name_of(at: &Path) -> Result<&str, Trouble> {
    std::str::from_utf8(at.text()).map_err(|_| Trouble::Failed)
}

/// The name of a path's entry where the path above is a folder; None where it is none.
fn reach<'p, R: Files>(way: &mut Way, files: &R, at: &'p Path) -> Result<Option<&'p str>, Trouble> {
    let name = name_of(at)?;
    let above = match name.rsplit_once('/') {
        None => "",
        Some((above, _)) => above,
    };
    if way.leads_to(files, above)? {
        Ok(Some(name))
    } else {
        Ok(None)
    }
}

/// The bytes of the file at a name. Nothing but a file is opened.
fn read_file<R: Files>(
    files: &R,
    alloc: Global,
    name: &str,
    most: u64,
) -> Result<ReadAnswer, Trouble> {
    let found = system::look(files, name)?;
    if !found.is_file() {
        return Ok(ReadAnswer::NotFile);
    }
    if found.len() > most {
        return Ok(ReadAnswer::TooLong);
    }
    bytes_of(alloc, system::open(files, name)?, found.len(), most)
}

/// Whether a rename may take what is of the first kind to a place of the second.
fn may_take(from: Kind, to: Kind) -> bool {
    match (from, to) {
        (Kind::Absent, _) => false,
        (Kind::File, Kind::File) => true,
        (_, Kind::Absent) => true,
        _ => false,
    }
}

/// Moves the entry at one name to another one. Where both are names of one file, the system's call would
/// leave both, so the first is taken away.
fn move_entry<R: Files>(files: &R, from: &str, to: &str) -> Result<Did, Trouble> {
    let there = system::found(files, to)?;
    let moved = system::found(files, from)?;
    if !may_take(system::kind_of(&moved), system::kind_of(&there)) {
        return Ok(Did::Misplaced);
    }
    if system::are_one_file(&moved, &there) {
        return system::remove_file(files, from);
    }
    system::rename(files, from, to)
}

impl<'a, R: Files> Folder<'a, R> {
    /// The current folder. Takes no memory.
    pub fn new(files: &'a R) -> Folder<'a, R> {
        Folder {
            files,
            looked: Way::new(),
            changed: Way::new(),
        }
    }

    /// The kind of the entry at a path.
    pub fn kind(&mut self, at: &Path) -> Result<Kind, Trouble> {
        match reach(&mut self.looked, self.files, at)? {
            None => Ok(Kind::Absent),
            Some(name) => system::kind(self.files, name),
        }
    }

    /// The names of the folder at a path.
    pub fn list(&mut self, alloc: Global, at: &Path, most: u32) -> Result<ListAnswer, Trouble>
        ensures names { IfOk result ListsNames }
        ensures all { IfOk result (λ answer. most ≡ 2 ^ 32 - 1 → answer ≢ listings.TooMany) }
    {
        let Some(name) = reach(&mut self.looked, self.files, at)? else {
            return Ok(ListAnswer::Absent);
        };
        match system::open_folder(self.files, name) {
            Ok(None) => Ok(ListAnswer::NotFolder),
            Ok(Some(mut folder)) => names_of(alloc, &mut folder, most),
            Err(Trouble::Absent) => Ok(ListAnswer::Absent),
            Err(trouble) => Err(trouble),
        }
    }

    /// The bytes of the file at a path.
    pub fn read(&mut self, alloc: Global, at: &Path, most: u64) -> Result<ReadAnswer, Trouble> {
        let Some(name) = reach(&mut self.looked, self.files, at)? else {
            return Ok(ReadAnswer::Absent);
        };
        match read_file(self.files, alloc, name, most) {
            Err(Trouble::Absent) => Ok(ReadAnswer::Absent),
            answer => answer,
        }
    }

    /// Makes or replaces the file at a path, and has the system keep its bytes.
    pub fn write(&mut self, at: &Path, bytes: &[u8]) -> Result<Did, Trouble> {
        if at.is_root() {
            return Ok(Did::Misplaced);
        }
        match reach(&mut self.changed, self.files, at)? {
            None => Ok(Did::Misplaced),
            Some(name) => system::write(self.files, name, bytes),
        }
    }

    /// Makes a folder at a path.
    pub fn make_dir(&mut self, at: &Path) -> Result<Made, Trouble> {
        if at.is_root() {
            return Ok(Made::Exists);
        }
        match reach(&mut self.changed, self.files, at)? {
            None => Ok(Made::Misplaced),
            Some(name) => system::make_folder(self.files, name),
        }
    }

    /// Moves what stands at one path to another one.
    pub fn rename(&mut self, from: &Path, to: &Path) -> Result<Did, Trouble> {
        if to.starts_with(from) {
            return Ok(Did::Misplaced);
        }
        let Some(target) = reach(&mut self.changed, self.files, to)? else {
            return Ok(Did::Misplaced);
        };
        let Some(source) = reach(&mut self.looked, self.files, from)? else {
            return Ok(Did::Misplaced);
        };
        self.forget();
        move_entry(self.files, source, target)
    }

    /// Takes away the entry at a path that is no folder.
    pub fn remove_file(&mut self, at: &Path) -> Result<Did, Trouble> {
        if at.is_root() {
            return Ok(Did::Misplaced);
        }
        match reach(&mut self.changed, self.files, at)? {
            None => Ok(Did::Misplaced),
            Some(name) => system::remove_file(self.files, name),
        }
    }

    /// Takes away the empty folder at a path.
    pub fn remove_dir(&mut self, at: &Path) -> Result<Did, Trouble> {
        if at.is_root() {
            return Ok(Did::Misplaced);
        }
        let Some(name) = reach(&mut self.changed, self.files, at)? else {
            return Ok(Did::Misplaced);
        };
        self.forget();
        system::remove_folder(self.files, name)
    }

    /// Has the system keep what was changed.
    pub fn sync(&mut self) -> Result<(), Trouble> {
        system::sync_folder(self.files, ".")
    }

    fn forget(&mut self) {
        self.looked.forget();
        self.changed.forget();
    }
}
