//! How many entries a search for moves has listed.

ghost use Rattle.std.specs.Prelude.{◌≡◌, ◌+◌, ◌-◌, ◌≤◌, ◌||◌, true, false, length, nat_lt, if◌then◌else◌, Some, None};
ghost use Rattle.package_moves.specs.Beside.{AreCounted};

use path_name::Name;
use tree_dev::Entries;

/// The entries listed by a search for moves. Those of sources come first: how many entries of targets may be listed is known
/// only once all sources were walked, so those are counted apart, and compared at the end.
#[derive(Clone, Copy, Debug)]
pub struct Counts {
    /// How many entries of sources may still be listed.
    pub left: Entries,
    /// How many entries of targets and folders above them were listed.
    pub targets: u32,
    /// More of those were to be listed than there are left, so no more are.
    pub passed: bool,
}

impl Counts {
    /// Nothing was listed yet.
    pub fn of(left: Entries) -> Counts
        ensures left { result.left ≡ left }
        ensures targets { result.targets ≡ 0 }
        ensures passed { result.passed ≡ false }
    {
        Counts {
            left,
            targets: 0,
            passed: false,
        }
    }

    /// How many entries of a target may be listed, as far as is known.
    pub fn room(&self) -> u32
        ensures { result ≡ self.now.left.left - self.now.targets }
    {
        self.left.left.saturating_sub(self.targets)
    }

    /// Counts the names of a folder of targets. False: they are too many whatever else comes.
    pub fn add(&mut self, names: &[Name]) -> bool
        ensures kept { self.new.left ≡ self.old.left }
        ensures counted { AreCounted (length names.now) self.old self.new }
        ensures passed { result ≡ false → self.new.passed ≡ true }
    {
        let left = self.left.left;
        match u32::try_from(names.len()) {
            Ok(count) if count <= left.saturating_sub(self.targets) => {
                self.targets += count;
                true
            }
            _ => {
                self.passed = true;
                false
            }
        }
    }

    /// How many entries may still be listed, now that all was. None: too many were to be listed.
    pub fn rest(&self) -> Option<u32>
        ensures { result ≡ (if self.now.passed || nat_lt self.now.left.left self.now.targets then None else Some (self.now.left.left - self.now.targets)) }
    {
        if self.passed {
            return None;
        }
        self.left.left.checked_sub(self.targets)
    }
}
