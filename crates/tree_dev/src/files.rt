//! The entries of a tree in memory.

ghost use Rattle.std.specs.Prelude.{◌≡◌, ◌<◌, ◌^◌, OnOk, OnErr, IfOk, MatchOption};
ghost use Rattle.std.specs.Option.{option_copied, option_map};
ghost use Rattle.std.specs.FinMap as map;
ghost use Rattle.tree_dev.specs.Trees.{kind_of, read_of, kind_at, read_at};
ghost use Rattle.tree_dev.specs.Stored.{entry_of};
ghost use Rattle.tree_dev.specs.Listing.{IsFirstFrom, IsNoneFrom};

use crate::stored::Stored;
use crate::{Kind, ReadAnswer};
use path_name::{Path, Text};
use std::alloc::{AllocError, Global};
use std::collections::BTreeMap;
use std::marker::Model;

/// A tree of so many entries has no memory for another.
const MOST_ENTRIES: usize = 4_294_967_295;

/// The entries of a tree by their paths, without the root. A contract sees the finite map.
#[derive(Debug, Drop)]
pub struct Files {
    entries: BTreeMap<Path, Stored>,
}

impl Model for Files {
    ghost use Rattle.tree_dev.specs.Trees.{FileTree};
    ghost use Rattle.tree_dev.specs.Memory.{tree_code};
    ghost use Rattle.tree_dev.specs.Stored.{tree_of};

    ghost Value = { FileTree };

    ghost coded = { tree_code };

    ghost view = { λ files. tree_of files.entries.entries };

    ghost use Rattle.std.specs.Prelude.{◌<◌, ◌^◌, length};

    ghost invariant = { λ files. length files.entries.entries < 2 ^ 32 };
}

impl Files {
    /// No entries. Takes no memory.
    pub fn new(alloc: Global) -> Files
        ensures { result ≡ map.empty }
    {
        Files {
            entries: BTreeMap::new(alloc),
        }
    }

    /// The entry at a path; None for the root, which has none.
    pub fn get(&self, at: &Path) -> Option<&Stored>
        ensures { option_map entry_of (option_copied result) ≡ map.get self.now at.now }
    {
        self.entries.get(at)
    }

    /// Whether an entry is at a path.
    pub fn contains(&self, at: &Path) -> bool
        ensures { result ≡ map.contains_key self.now at.now }
    {
        self.get(at).is_some()
    }

    /// Puts an entry at a path, in place of what was there. Its one refusal is want of memory, which comes
    /// too where there would be 2^32 entries, and changes nothing.
    pub fn insert(&mut self, at: Path, entry: Stored) -> Result<(), AllocError>
        ensures ok { OnOk result (self.new ≡ map.insert self.old at (entry_of entry)) }
        ensures few { OnOk result (map.len self.new < 2 ^ 32) }
        ensures err { OnErr result (self.new ≡ self.old) }
    {
        if self.entries.len() >= MOST_ENTRIES && !self.entries.contains_key(&at) {
            return Err(AllocError);
        }
        self.entries.insert(at, entry)?;
        Ok(())
    }

    /// Takes away the entry at a path, if one is there.
    pub fn remove(&mut self, at: &Path)
        ensures { self.new ≡ map.remove self.old at.now }
    {
        self.entries.remove(at);
    }

    /// Does nothing: a tree in memory has fewer than 2^32 entries.
    pub fn fits(&self)
        ensures { map.len self.now < 2 ^ 32 }
    {
        let _entries = &self.entries;
    }

    /// The first entry at a path or behind it, in path order.
    pub fn first_from(&self, from: &Path) -> Option<&Path>
        ensures { MatchOption result (IsNoneFrom self.now from.now) (λ first. IsFirstFrom self.now from.now first.now) }
    {
        match self.entries.range(from..).next() {
            None => None,
            Some((first, _)) => Some(first),
        }
    }

    /// What kind of entry is at a path.
    pub fn kind(&self, at: &Path) -> Kind
        ensures { result ≡ kind_at self.now at.now }
    {
        match at.last() {
            None => Kind::Folder,
            Some(_) => kind_of(self.get(at)),
        }
    }

    /// What reading a path answers.
    pub fn read(&self, alloc: Global, at: &Path, most: u64) -> Result<ReadAnswer, AllocError>
        ensures { IfOk result (λ answer. answer ≡ read_at self.now at.now most) }
    {
        match at.last() {
            None => Ok(ReadAnswer::NotFile),
            Some(_) => read_of(alloc, self.get(at), most),
        }
    }
}

fn kind_of(present: Option<&Stored>) -> Kind
    ensures { result ≡ kind_of (option_map entry_of (option_copied present.entry)) }
{
    match present {
        None => Kind::Absent,
        Some(Stored::File(_)) => Kind::File,
        Some(Stored::Folder) => Kind::Folder,
        Some(Stored::Other) => Kind::Other,
    }
}

fn read_of(alloc: Global, present: Option<&Stored>, most: u64) -> Result<ReadAnswer, AllocError>
    ensures { IfOk result (λ answer. answer ≡ read_of most (option_map entry_of (option_copied present.entry))) }
{
    match present {
        None => Ok(ReadAnswer::Absent),
        Some(Stored::Folder | Stored::Other) => Ok(ReadAnswer::NotFile),
        Some(Stored::File(bytes)) => {
            if most < bytes.as_slice().len() as u64 {
                return Ok(ReadAnswer::TooLong);
            }
            Ok(ReadAnswer::Bytes(Text::copy_of(alloc, bytes.as_slice())?))
        }
    }
}
