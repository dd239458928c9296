//! Patterns of what a search for classes leaves out.

ghost use Rattle.std.specs.Prelude.{◌≡◌, IfOk};
ghost use Rattle.class_walk.specs.Patterns.{pattern_of, is_excluded_by, is_excluded};

use crate::matching::matches_front;
use crate::pattern_text::{cleaned, read_parts};
use path_name::{Items, Path};
use std::alloc::{AllocError, Global};

/// A part of a pattern.
#[derive(Clone, Copy, Debug, PartialEq, Eq)]
pub enum PatternPart {
    /// This byte.
    Byte(u8),
    /// `*`: one or more bytes other than `/`.
    Within,
    /// `**`: one or more bytes.
    Across,
}

/// A pattern of `exclude-from-classmap` (Composer's documentation), with the folder that it speaks of.
#[derive(Debug, PartialEq, Eq, Drop)]
pub struct Pattern {
    /// The folder of the package that has the pattern, as it is shown.
    pub folder: Path,
    /// What it matches, part by part.
    pub parts: Items<PatternPart>,
}

impl Pattern {
    /// The pattern of a text. `/` at its ends are cut, and `/` in a row are one. Two `*` in a row, taken from the left,
    /// match one or more bytes; one `*` matches one or more bytes other than `/`; every other byte matches itself. Its one
    /// refusal is want of memory.
    #[tactic(auto, unfolding(crate::specs::Patterns::pattern_of))]
    pub fn read(alloc: Global, folder: &Path, text: &[u8]) -> Result<Pattern, AllocError>
        ensures exact { IfOk result (λ pattern. pattern ≡ pattern_of folder.now text.now) }
    {
        let clean = cleaned(alloc, text)?;
        let parts = read_parts(alloc, clean.as_slice())?;
        Ok(Pattern {
            folder: folder.copy(alloc)?,
            parts: Items::of(parts),
        })
    }

    /// Whether a file is excluded: it lies below the folder, and the pattern matches its path from there, from the first
    /// byte up to the end or up to a `/`. The work grows with the bytes of the path times the parts of the pattern. Its one
    /// refusal is want of memory.
    pub fn excludes(&self, alloc: Global, path: &Path) -> Result<bool, AllocError>
        ensures exact { IfOk result (λ excluded. excluded ≡ is_excluded_by self.now path.now) }
    {
        match path.below(&self.folder) {
            None => Ok(false),
            Some(text) => Ok(
                !text.is_empty() && matches_front(alloc, self.parts.as_slice(), text)?,
            ),
        }
    }
}

/// Whether one of the patterns excludes a file.
#[tactic(auto, unfolding(crate::specs::Patterns::is_excluded))]
pub fn is_excluded(alloc: Global, patterns: &[Pattern], path: &Path) -> Result<bool, AllocError>
    ensures exact { IfOk result (λ excluded. excluded ≡ is_excluded patterns.now path.now) }
{
    for pattern in patterns {
        if pattern.excludes(alloc, path)? {
            return Ok(true);
        }
    }
    Ok(false)
}
