//! Parts joined where no folder stands above their targets: one part for the folder, with what is to stand in it.

ghost use Rattle.std.specs.Prelude.{◌≡◌, ◌++◌, ◌∷◌, [], List, ℕ, true, false, IfOk, OnOk, Some, None};
ghost use Rattle.std.specs.BTreeMap.{get};
ghost use Rattle.std.specs.BTreeSet.{contains};
ghost use Rattle.std.specs.Ordering.{is_eq};
ghost use Rattle.path_name.specs.Orders.{path_cmp};
ghost use Rattle.path_name.specs.Paths.{without_last};
ghost use Rattle.tree_dev.specs.Trees.{behind};
ghost use Rattle.stage_job.specs.declared.job.Part.{Part as Parts};
ghost use Rattle.package_moves.specs.Joined.{HasGroups, folder_of, inner_at};
ghost use Rattle.package_moves.specs.Gathered.{AddsInner, group_at, inner_list};
ghost use Rattle.package_moves.specs.Wanted.{is_leaf_source};

use path_name::{Items, Path};
use stage_job::{Inner, Leaf, Part, Source};
use std::alloc::{AllocError, Global};
use std::collections::{BTreeMap, BTreeSet};

/// A part as it is.
pub fn part_copy(alloc: Global, part: &Part) -> Result<Part, AllocError>
    requires leaf { is_leaf_source part.now.from ≡ true }
    ensures { IfOk result (λ copy. copy ≡ part.now) }
{
    let from = match &part.from {
        Source::Copy(source) => Source::Copy(source.copy(alloc)?),
        Source::Bytes(bytes) => Source::Bytes(bytes.copy(alloc)?),
        Source::Folder(_) => Source::Gone,
        Source::Gone => Source::Gone,
    };
    Ok(Part {
        target: part.target.copy(alloc)?,
        from,
    })
}

/// The path from a folder to what lies below it. None: it does not lie below.
fn below_of(alloc: Global, folder: &Path, path: &Path) -> Result<Option<Path>, AllocError>
    ensures { IfOk result (λ below. below ≡ behind folder.now path.now) }
{
    path.moved(alloc, folder, &Path::root(alloc))
}

/// What is to stand at a place below a folder.
fn inner_of(alloc: Global, below: Path, from: &Source) -> Result<Option<Inner>, AllocError>
    ensures { IfOk result (λ inner. inner ≡ inner_at from.now (Some below)) }
{
    match from {
        Source::Copy(source) => Ok(Some(Inner {
            below,
            from: Leaf::Copy(source.copy(alloc)?),
        })),
        Source::Bytes(bytes) => Ok(Some(Inner {
            below,
            from: Leaf::Bytes(bytes.copy(alloc)?),
        })),
        Source::Folder(_) => Ok(None),
        Source::Gone => Ok(None),
    }
}

/// A part as a part of a folder. None: its target does not lie below it.
fn inner_part(alloc: Global, folder: &Path, part: &Part) -> Result<Option<Inner>, AllocError>
    ensures { IfOk result (λ inner. inner ≡ inner_at part.now.from (behind folder.now part.now.target)) }
{
    match below_of(alloc, folder, &part.target)? {
        Some(below) => inner_of(alloc, below, &part.from),
        None => Ok(None),
    }
}

/// Adds a part, as a part of a folder, where it lies below it.
pub fn add_inner(
    alloc: Global,
    folder: &Path,
    part: &Part,
    parts: &mut Vec<Inner>,
) -> Result<(), AllocError>
    ensures { OnOk result (parts.new.items ≡ parts.old.items ++ inner_list (inner_at part.now.from (behind folder.now part.now.target))) }
{
    match inner_part(alloc, folder, part)? {
        Some(inner) => {
            parts.push(inner)?;
            Ok(())
        }
        None => Ok(()),
    }
}

/// The parts that are to stand in each folder where something is in the way.
#[derive(Drop)]
pub struct Folders {
    /// By the paths of folders. A folder without parts is none of these.
    pub parts: BTreeMap<Path, Vec<Inner>>,
}

impl Folders {
    /// The parts of each of these folders, in the order of the parts. Its one refusal is want of memory.
    pub fn of(
        alloc: Global,
        blocked: &BTreeSet<Path>,
        wanted: &[Part],
    ) -> Result<Folders, AllocError>
        ensures { IfOk result (HasGroups (contains path_cmp blocked.now) wanted.now) }
    {
        let mut folders = Folders {
            parts: BTreeMap::new(alloc),
        };
        for part in wanted {
            folders.add(alloc, blocked, part)?;
        }
        Ok(folders)
    }

    /// Adds a part to the folder that it is to stand in, where that is one of these.
    fn add(
        &mut self,
        alloc: Global,
        blocked: &BTreeSet<Path>,
        part: &Part,
    ) -> Result<(), AllocError>
        ensures { OnOk result ((parts : List Parts) → HasGroups (contains path_cmp blocked.now) parts self.old → HasGroups (contains path_cmp blocked.now) (parts ++ part.now ∷ []) self.new) }
    {
        match part.target.parent(alloc)? {
            Some(folder) => self.add_to(alloc, blocked, folder, part),
            None => Ok(()),
        }
    }

    /// Adds a part to this folder, which it is to stand in, where that is one of these.
    fn add_to(
        &mut self,
        alloc: Global,
        blocked: &BTreeSet<Path>,
        folder: Path,
        part: &Part,
    ) -> Result<(), AllocError>
        requires parent { without_last part.now.target ≡ Some folder }
        ensures { OnOk result ((parts : List Parts) → HasGroups (contains path_cmp blocked.now) parts self.old → HasGroups (contains path_cmp blocked.now) (parts ++ part.now ∷ []) self.new) }
    {
        if blocked.contains(&folder) {
            self.put(alloc, folder, part)
        } else {
            Ok(())
        }
    }

    /// Adds a part to this folder.
    fn put(&mut self, alloc: Global, folder: Path, part: &Part) -> Result<(), AllocError>
        ensures { OnOk result (AddsInner folder part.now self.old self.new) }
    {
        let mut parts = self.taken(alloc, &folder);
        add_inner(alloc, &folder, part, &mut parts)?;
        self.parts.insert(folder, parts)?;
        Ok(())
    }

    /// Takes the parts of a folder; none where it is none of these.
    fn taken(&mut self, alloc: Global, folder: &Path) -> Vec<Inner>
        ensures group { result.items ≡ group_at self.old folder.now }
        ensures others { (other : List (List ℕ)) → is_eq (path_cmp folder.now other) ≡ false → get path_cmp self.new.parts other ≡ get path_cmp self.old.parts other }
    {
        match self.parts.remove(folder) {
            Some(parts) => parts,
            None => Vec::new(alloc),
        }
    }

    /// Takes the parts of a folder. None: it has none, or they were taken.
    pub fn take(&mut self, folder: &Path) -> Option<Vec<Inner>>
        ensures group { result ≡ get path_cmp self.old.parts folder.now }
        ensures gone { get path_cmp self.new.parts folder.now ≡ None }
        ensures others { (other : List (List ℕ)) → is_eq (path_cmp folder.now other) ≡ false → get path_cmp self.new.parts other ≡ get path_cmp self.old.parts other }
    {
        self.parts.remove(folder)
    }
}

/// A part for a folder of parts.
pub fn part_of_folder(target: Path, inner: Vec<Inner>) -> Part
    ensures { result ≡ folder_of target inner.items }
{
    Part {
        target,
        from: Source::Folder(Items::of(inner)),
    }
}
