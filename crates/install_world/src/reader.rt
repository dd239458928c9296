//! The lines of a journal's targets, read one after another.

ghost use Rattle.std.specs.Prelude.{◌≡◌, ◌≢◌, [], ◌∷◌, ◌++◌, length, codes, OnOk, Ok};
ghost use Rattle.install_world.specs.Targets.{IsApartFrom};
ghost use Rattle.install_world.specs.JournalText.{target_words, IsTargetOf};
ghost use Rattle.install_world.specs.Reading.{IsRead};
ghost use Rattle.install_world.specs.declared.reader.Line.TheVariants as lines;
ghost use Rattle.install_world.specs.declared.target.Target.{Target as Targets};

use crate::apart::is_apart;
use crate::words::target_of;
use crate::{Target, Version};
use path_name::Path;
use std::alloc::{AllocError, Global};
use std::collections::BTreeSet;

/// What a line is.
#[derive(Clone, Copy, Debug, PartialEq, Eq)]
pub enum Line {
    /// The line of one more target.
    Target,
    /// `end`.
    End,
    /// No line that may stand there.
    Bad,
}

/// The targets that were read, and their paths in path order.
#[derive(Debug, Drop)]
pub struct Reader {
    pub version: Version,
    pub targets: Vec<Target>,
    pub paths: BTreeSet<Path>,
}

impl Reader {
    /// A reader of a version that has read no target. Takes no memory.
    pub fn new(alloc: Global, version: Version) -> Reader
        ensures version { result.version ≡ version }
        ensures none { result.targets.items ≡ [] }
        ensures is_read { IsRead result.version result.targets.items result.paths }
    {
        Reader {
            version,
            targets: Vec::new(alloc),
            paths: BTreeSet::new(alloc),
        }
    }

    /// Keeps a target that is apart from those before.
    fn keep(&mut self, alloc: Global, target: Target) -> Result<(), AllocError>
        requires is_read { IsRead self.old.version self.old.targets.items self.old.paths }
        requires is_target { IsTargetOf self.old.version target }
        requires apart { IsApartFrom self.old.targets.items target }
        ensures version { self.new.version ≡ self.old.version }
        ensures kept { OnOk result (self.new.targets.items ≡ self.old.targets.items ++ target ∷ []) }
        ensures is_read { OnOk result (IsRead self.new.version self.new.targets.items self.new.paths) }
    {
        self.paths.insert(target.path.copy(alloc)?)?;
        self.targets.push(target)?;
        Ok(())
    }

    /// Reads one more line. After want of memory the reader is done with.
    pub fn read(&mut self, alloc: Global, words: &[u8]) -> Result<Line, AllocError>
        requires is_read { IsRead self.old.version self.old.targets.items self.old.paths }
        ensures version { self.new.version ≡ self.old.version }
        ensures is_read { OnOk result (IsRead self.new.version self.new.targets.items self.new.paths) }
        ensures target { result ≡ Ok lines.Target → (target : Targets) × IsTargetOf self.old.version target
            × (words.now ≡ target_words (length self.old.targets.items) target)
            × (self.new.targets.items ≡ self.old.targets.items ++ target ∷ []) }
        ensures end { result ≡ Ok lines.End → (words.now ≡ codes "end") × (self.old.targets.items ≢ [])
            × (self.new.targets.items ≡ self.old.targets.items) }
        ensures bad_target { result ≡ Ok lines.Bad → (target : Targets) → IsTargetOf self.old.version target
            → IsApartFrom self.old.targets.items target → words.now ≢ target_words (length self.old.targets.items) target }
        ensures bad_end { result ≡ Ok lines.Bad → words.now ≡ codes "end" → self.old.targets.items ≡ [] }
    {
        if words == b"end".as_slice() {
            return Ok(if self.targets.is_empty() {
                Line::Bad
            } else {
                Line::End
            });
        }
        let number = self.targets.len() as u64;
        match target_of(alloc, self.version, number, words)? {
            None => Ok(Line::Bad),
            Some(target) => {
                if !is_apart(&self.paths, &target.path) {
                    return Ok(Line::Bad);
                }
                self.keep(alloc, target)?;
                Ok(Line::Target)
            }
        }
    }
}
