//! Which entries of `vendor` the targets of parts need.

ghost use Rattle.std.specs.Prelude.{◌≡◌, IfOk, OnOk, Some};
ghost use Rattle.std.specs.BTreeSet.{contains};
ghost use Rattle.path_name.specs.Orders.{path_cmp};
ghost use Rattle.path_name.specs.Paths.{without_last};
ghost use Rattle.package_moves.specs.Needed.{AreSameNeeds, needs_in, needs_of, needs_with};

use path_name::Path;
use stage_job::Part;
use std::alloc::{AllocError, Global};
use std::collections::BTreeSet;

/// The paths that the targets of parts need, from the project.
#[derive(Drop)]
pub struct Needed {
    /// The targets.
    pub targets: BTreeSet<Path>,
    /// The folders that they stand in.
    pub above: BTreeSet<Path>,
}

impl Needed {
    /// What the targets of these parts need. Its one refusal is want of memory.
    pub fn of(alloc: Global, wanted: &[Part]) -> Result<Needed, AllocError>
        ensures { IfOk result (λ needed. AreSameNeeds (needs_in needed) (needs_of wanted.now)) }
    {
        let mut needed = Needed {
            targets: BTreeSet::new(alloc),
            above: BTreeSet::new(alloc),
        };
        for part in wanted {
            needed.add(alloc, &part.target)?;
        }
        Ok(needed)
    }

    /// Adds a target, and the folder that it stands in.
    fn add(&mut self, alloc: Global, target: &Path) -> Result<(), AllocError>
        ensures { OnOk result (AreSameNeeds (needs_in self.new) (needs_with target.now (needs_in self.old))) }
    {
        self.targets.insert(target.copy(alloc)?)?;
        if let Some(parent) = target.parent(alloc)? {
            self.above.insert(parent)?;
        }
        Ok(())
    }

    /// Whether a path is a target.
    pub fn is_target(&self, path: &Path) -> bool
        ensures { result ≡ contains path_cmp self.now.targets path.now }
    {
        self.targets.contains(path)
    }

    /// Whether a target stands in the folder at a path.
    pub fn is_above(&self, path: &Path) -> bool
        ensures { result ≡ contains path_cmp self.now.above path.now }
    {
        self.above.contains(path)
    }
}
