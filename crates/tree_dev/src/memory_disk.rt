//! The disk of a tree in memory.

ghost use Rattle.std.specs.Prelude.{◌≡◌, OnOk, OnErr, IfOk, length, true};
ghost use Rattle.tree_dev.specs.Trees.{ListsNames, kind_at, list_at, read_at};
ghost use Rattle.path_name.specs.Paths.{IsPath};
ghost use Rattle.tree_dev.specs.Changes.{did, has_place, made_folder, target};
ghost use Rattle.tree_dev.specs.Disk.{reading, settled, with_change};
ghost use Rattle.std.specs.Option.{option_copied};
ghost use Rattle.tree_dev.specs.Memory.{after_disk_change, after_disk_crash, after_disk_put, did_put, new_disks};
ghost use Rattle.tree_dev.specs.declared.change.Change.TheVariants as changes;

use crate::files::Files;
use crate::log::Log;
use crate::shared::SharedText;
use crate::stored::Stored;
use crate::{
    Change, Did, Entry, Kind, ListAnswer, Made, ReadAnswer, applying, fitting, listing, placing,
};
use path_name::{Items, Path, Text};
use std::alloc::{AllocError, Global};
use std::marker::Model;

/// The entries of a tree in memory, and the record of all its changes and barriers. A contract sees the
/// disk, now and at each earlier moment.
#[derive(Debug, Drop)]
pub struct MemoryDisk {
    files: Files,
    log: Log,
}

impl Model for MemoryDisk {
    ghost use Rattle.tree_dev.specs.Disk.{Disks};
    ghost use Rattle.tree_dev.specs.Memory.{IsKept, disks_code};

    ghost Value = { Disks };

    ghost coded = { disks_code };

    ghost view = { λ disk. disk.log };

    ghost invariant = { λ disk. IsKept disk.files disk.log };
}

/// The bytes, if any are given.
fn shared(alloc: Global, bytes: Option<&[u8]>) -> Result<Option<SharedText>, AllocError>
    ensures { IfOk result (λ shared. shared ≡ option_copied bytes.entry) }
{
    match bytes {
        None => Ok(None),
        Some(bytes) => Ok(Some(SharedText::of(alloc, Text::copy_of(alloc, bytes)?)?)),
    }
}

impl MemoryDisk {
    ghost use Rattle.std.specs.Prelude.{IsTrue};
    ghost use Rattle.tree_dev.specs.Memory.{is_sound};

    /// The root alone. Takes no memory.
    pub fn new(alloc: Global) -> MemoryDisk
        ensures { result ≡ new_disks }
    {
        MemoryDisk {
            files: Files::new(alloc),
            log: Log::new(alloc),
        }
    }

    /// Does nothing: each tree that a crash leaves is one.
    pub fn tells(&self)
        ensures { IsTrue (is_sound self.now.now) }
    {
        let _files = &self.files;
    }

    /// What kind of entry stands at a path.
    pub fn kind(&self, at: &Path) -> Kind
        ensures { result ≡ kind_at (reading self.now.now) at.now }
    {
        self.files.kind(at)
    }

    /// The names of the entries of the folder at a path.
    pub fn list(&self, alloc: Global, at: &Path, most: u32) -> Result<ListAnswer, AllocError>
        ensures { IfOk result (λ answer. answer ≡ list_at (reading self.now.now) at.now most) }
    {
        if !fitting::is_there(&self.files, at) {
            return Ok(ListAnswer::Absent);
        }
        if !fitting::is_folder(&self.files, at) {
            return Ok(ListAnswer::NotFolder);
        }
        match listing::names(&self.files, alloc, at, most)? {
            None => Ok(ListAnswer::TooMany),
            Some(names) => Ok(ListAnswer::Names(Items::of(names))),
        }
    }

    /// The bytes of the file at a path.
    pub fn read(&self, alloc: Global, at: &Path, most: u64) -> Result<ReadAnswer, AllocError>
        ensures { IfOk result (λ answer. answer ≡ read_at (reading self.now.now) at.now most) }
    {
        self.files.read(alloc, at, most)
    }

    /// How many changes are pending.
    pub fn pending(&self) -> u64
        ensures { result ≡ length self.now.now.pending }
    {
        self.log.pending() as u64
    }

    /// Puts an entry at a path, and the tree is safe.
    pub fn put(&mut self, alloc: Global, at: &Path, entry: Entry) -> Result<Did, AllocError>
        ensures did { IfOk result (λ answer. answer ≡ did_put (reading self.old.now) at.now entry) }
        ensures ok { OnOk result (self.new ≡ after_disk_put self.old at.now entry) }
        ensures err { OnErr result (self.new ≡ self.old) }
    {
        path_name::path_is_segments(at);
        let stored = Stored::of(alloc, entry)?;
        if placing::is_misplaced(&self.files, alloc, at, &stored)? {
            return Ok(Did::Misplaced);
        }
        let safe = self.log.safe();
        self.log.put(at.copy(alloc)?, stored.share()?)?;
        if let Err(fault) = placing::put(&mut self.files, alloc, at, stored) {
            self.log.take_back(safe);
            return Err(fault);
        }
        self.files.fits();
        Ok(Did::Done)
    }

    /// What changed so far is safe.
    pub fn settle(&mut self) -> Result<(), AllocError>
        ensures ok { OnOk result (self.new ≡ settled self.old) }
        ensures err { OnErr result (self.new ≡ self.old) }
    {
        self.log.settle()
    }

    /// Goes to what a crash leaves that keeps the first so many pending changes, and puts these bytes into each file that
    /// one of them wrote, if any are given. Its one refusal is want of memory, which changes nothing.
    pub fn crash(
        &mut self,
        alloc: Global,
        applied: u64,
        torn: Option<&[u8]>,
    ) -> Result<(), AllocError>
        ensures ok { OnOk result (self.new ≡ after_disk_crash self.old applied (option_copied torn.entry)) }
        ensures err { OnErr result (self.new ≡ self.old) }
    {
        let bytes = shared(alloc, torn)?;
        let files = self.log.crashed(alloc, applied as usize, bytes.as_ref())?;
        self.log.crash(applied as usize, bytes)?;
        self.files = files;
        Ok(())
    }

    /// Makes a change that has a place. Its one refusal is want of memory, which changes nothing.
    fn make(&mut self, alloc: Global, change: Change) -> Result<(), AllocError>
        requires place { has_place (reading self.old.now) change ≡ true }
        requires path { IsPath (target change) }
        ensures ok { OnOk result (self.new ≡ with_change self.old change) }
        ensures err { OnErr result (self.new ≡ self.old) }
    {
        let safe = self.log.safe();
        self.log.add(change.share(alloc)?)?;
        if let Err(fault) = applying::apply(&mut self.files, alloc, &change) {
            self.log.take_back(safe);
            return Err(fault);
        }
        self.files.fits();
        Ok(())
    }

    /// Writes a file.
    #[tactic(auto, unfolding(crate::specs::Changes::did, crate::specs::Changes::made_folder, crate::specs::Changes::has_place))]
    pub fn write(&mut self, alloc: Global, at: &Path, bytes: &[u8]) -> Result<Did, AllocError>
        ensures answer { IfOk result (λ answer. answer ≡ did (reading self.old.now) (changes.Written at.now bytes.now)) }
        ensures ok { OnOk result (self.new ≡ after_disk_change self.old (changes.Written at.now bytes.now)) }
        ensures err { OnErr result (self.new ≡ self.old) }
    {
        path_name::path_is_segments(at);
        if !fitting::is_free_for_file(&self.files, alloc, at)? {
            return Ok(Did::Misplaced);
        }
        let text = SharedText::of(alloc, Text::copy_of(alloc, bytes)?)?;
        self.make(alloc, Change::Written(at.copy(alloc)?, text))?;
        Ok(Did::Done)
    }

    /// Makes a folder.
    #[tactic(auto, unfolding(crate::specs::Changes::did, crate::specs::Changes::made_folder, crate::specs::Changes::has_place))]
    pub fn make_dir(&mut self, alloc: Global, at: &Path) -> Result<Made, AllocError>
        ensures answer { IfOk result (λ answer. answer ≡ made_folder (reading self.old.now) at.now) }
        ensures ok { OnOk result (self.new ≡ after_disk_change self.old (changes.FolderMade at.now)) }
        ensures err { OnErr result (self.new ≡ self.old) }
    {
        path_name::path_is_segments(at);
        if fitting::is_there(&self.files, at) {
            return Ok(Made::Exists);
        }
        if !fitting::is_free(&self.files, alloc, at)? {
            return Ok(Made::Misplaced);
        }
        self.make(alloc, Change::FolderMade(at.copy(alloc)?))?;
        Ok(Made::New)
    }

    /// Moves what stands at and below a path.
    #[tactic(auto, unfolding(crate::specs::Changes::did, crate::specs::Changes::made_folder, crate::specs::Changes::has_place))]
    pub fn rename(&mut self, alloc: Global, from: &Path, to: &Path) -> Result<Did, AllocError>
        ensures answer { IfOk result (λ answer. answer ≡ did (reading self.old.now) (changes.Renamed from.now to.now)) }
        ensures ok { OnOk result (self.new ≡ after_disk_change self.old (changes.Renamed from.now to.now)) }
        ensures err { OnErr result (self.new ≡ self.old) }
    {
        path_name::path_is_segments(to);
        if !fitting::can_rename(&self.files, alloc, from, to)? {
            return Ok(Did::Misplaced);
        }
        self.make(alloc, Change::Renamed(from.copy(alloc)?, to.copy(alloc)?))?;
        Ok(Did::Done)
    }

    /// Takes a file or other entry away.
    #[tactic(auto, unfolding(crate::specs::Changes::did, crate::specs::Changes::made_folder, crate::specs::Changes::has_place))]
    pub fn remove_file(&mut self, alloc: Global, at: &Path) -> Result<Did, AllocError>
        ensures answer { IfOk result (λ answer. answer ≡ did (reading self.old.now) (changes.FileRemoved at.now)) }
        ensures ok { OnOk result (self.new ≡ after_disk_change self.old (changes.FileRemoved at.now)) }
        ensures err { OnErr result (self.new ≡ self.old) }
    {
        path_name::path_is_segments(at);
        if !fitting::can_remove_file(&self.files, at) {
            return Ok(Did::Misplaced);
        }
        self.make(alloc, Change::FileRemoved(at.copy(alloc)?))?;
        Ok(Did::Done)
    }

    /// Takes an empty folder away.
    #[tactic(auto, unfolding(crate::specs::Changes::did, crate::specs::Changes::made_folder, crate::specs::Changes::has_place))]
    pub fn remove_dir(&mut self, alloc: Global, at: &Path) -> Result<Did, AllocError>
        ensures answer { IfOk result (λ answer. answer ≡ did (reading self.old.now) (changes.FolderRemoved at.now)) }
        ensures ok { OnOk result (self.new ≡ after_disk_change self.old (changes.FolderRemoved at.now)) }
        ensures err { OnErr result (self.new ≡ self.old) }
    {
        path_name::path_is_segments(at);
        if !fitting::can_remove_dir(&self.files, alloc, at)? {
            return Ok(Did::Misplaced);
        }
        self.make(alloc, Change::FolderRemoved(at.copy(alloc)?))?;
        Ok(Did::Done)
    }
}
