//! What a walk looks for, and how far it has come.

ghost use Rattle.std.specs.Prelude.{◌≡◌, ◌++◌, ◌∷◌, ◌≤◌, ◌-◌, ◌<◌, [], false, true, length, not, IfOk, if◌then◌else◌};
ghost use Rattle.class_walk.specs.Walks.{has_ending, is_hidden, is_skipped, is_scanned, last_of};
ghost use Rattle.tree_dev.specs.Projects.{is_within};
ghost use Rattle.class_walk.specs.Searches.{search_of};

use crate::job::{Scanned, WalkJob, WalkRule};
use crate::pattern::{Pattern, is_excluded};
use path_name::{Name, Path};
use std::alloc::{AllocError, Global};

/// A job with its number, and the patterns of all packages.
#[derive(Clone, Copy)]
pub struct Search<'a> {
    /// The number of the job.
    pub number: u32,
    /// The job.
    pub job: &'a WalkJob,
    /// The patterns.
    pub exclude: &'a [Pattern],
}

/// The files that were found so far, and how many entries may still be listed.
#[derive(Drop)]
pub struct Walked {
    /// The files, in order.
    pub found: Vec<Scanned>,
    /// How many entries may still be listed.
    pub left: u32,
}

impl Walked {
    /// Takes as many from the entries that may still be listed as there are names. False: there are fewer, and nothing
    /// changed.
    pub fn take_entries(&mut self, names: &[Name]) -> bool
        ensures fits { result ≡ true → length names.now ≤ self.old.left }
        ensures full { result ≡ false → self.old.left < length names.now }
        ensures taken { self.new.left ≡ (if result then self.old.left - length names.now else self.old.left) }
        ensures found { self.new.found.items ≡ self.old.found.items }
    {
        let before = self.left;
        match u32::try_from(names.len()) {
            Ok(count) if count <= before => {
                self.left = before - count;
                true
            }
            _ => false,
        }
    }
}

/// Whether an entry's name begins with `.`.
pub fn is_hidden(name: &[u8]) -> bool
    ensures { result ≡ is_hidden name.now }
{
    match name.first() {
        Some(byte) => *byte == b'.',
        None => false,
    }
}

/// Whether a path is at or below one of those that are skipped.
pub fn is_skipped(skip: &[Path], path: &Path) -> bool
    ensures { result ≡ is_skipped skip.now path.now }
{
    skip.iter().any(|head| is_within(head, path))
}

fn is_within(head: &Path, path: &Path) -> bool
    ensures { result ≡ is_within head.now path.now }
{
    path.starts_with(head)
}

/// Whether a file is scanned: its name has the ending, and no pattern excludes it. Its one refusal is want of memory.
#[tactic(auto, unfolding(crate::specs::Walks::is_scanned))]
pub fn is_scanned(
    alloc: Global,
    search: &Search<'_>,
    at: &Path,
    tail: &Path,
) -> Result<bool, AllocError>
    requires { at.now ≡ search.now.job.now.at ++ tail.now }
    ensures { IfOk result (λ is. is ≡ is_scanned (search_of search.now) tail.now) }
{
    if !has_ending(&search.job.rule, last_name(at)) {
        return Ok(false);
    }
    let shown = search.job.shown.join(alloc, tail)?;
    Ok(!is_excluded(alloc, search.exclude, &shown)?)
}

fn last_name(at: &Path) -> &[u8]
    ensures { result.now ≡ last_of at.now }
{
    match at.last() {
        Some(name) => name,
        None => b"",
    }
}

/// Whether a name has an ending of the files that a rule scans.
fn has_ending(rule: &WalkRule, name: &[u8]) -> bool
    ensures { result ≡ has_ending rule.now name.now }
{
    match rule {
        WalkRule::Listed => name.ends_with(b".php") || name.ends_with(b".inc"),
        WalkRule::Psr4(_) => name.ends_with(b".php"),
        WalkRule::Psr0(_) => name.ends_with(b".php"),
    }
}
