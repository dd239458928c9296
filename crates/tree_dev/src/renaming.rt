//! Renames in memory.

ghost use Rattle.std.specs.Prelude.{◌≡◌, ◌++◌, ◌∷◌, [], true, false, None, OnOk, OnErr, IfOk};
ghost use Rattle.std.specs.FinMap as map;
ghost use Rattle.tree_dev.specs.Trees.{IsTree, behind, is_folder};
ghost use Rattle.tree_dev.specs.Changes.{is_root, renamed};
ghost use Rattle.tree_dev.specs.Moves.{AddsEntry, AreAll, Carries};

use crate::files::Files;
use crate::moves::{self, Placed};
use path_name::Path;
use std::alloc::{AllocError, Global};

/// No name has a byte before this one: it names the first path behind another.
const LEAST_NAME: [u8; 1] = [1];

/// What stands at and below a path, and what a rename puts in its place.
#[derive(Debug, Drop)]
struct Carried {
    /// The old paths.
    left: Vec<Path>,
    /// The entries at their new paths.
    arrived: Vec<Placed>,
}

/// Adds the entry at a path that is to stand at another.
fn carry(
    files: &Files,
    alloc: Global,
    carried: &mut Carried,
    path: &Path,
    target: Path,
) -> Result<(), AllocError>
    requires { map.contains_key files.now path.now ≡ true }
    ensures left { OnOk result (carried.new.left.items ≡ carried.old.left.items ++ path.now ∷ []) }
    ensures arrived { OnOk result (AddsEntry files.now path.now target carried.old.arrived.items carried.new.arrived.items) }
{
    if let Some(stored) = files.get(path) {
        let entry = stored.share()?;
        carried.arrived.push(Placed { at: target, entry })?;
        carried.left.push(path.copy(alloc)?)?;
    }
    Ok(())
}

/// All that stands at and below a path, with the paths at and below another. The work grows with what stands there.
fn carried_below(
    files: &Files,
    alloc: Global,
    from: &Path,
    to: &Path,
) -> Result<Carried, AllocError>
    requires { IsTree files.now }
    ensures carries { IfOk result (λ carried. Carries files.now from.now to.now carried.left.items carried.arrived.items) }
    ensures all { IfOk result (λ carried. AreAll files.now from.now carried.left.items) }
{
    let mut carried = Carried {
        left: Vec::new(alloc),
        arrived: Vec::new(alloc),
    };
    let mut at = from.copy(alloc)?;
    while let Some(path) = files.first_from(&at) {
        let Some(target) = path.moved(alloc, from, to)? else {
            return Ok(carried);
        };
        carry(files, alloc, &mut carried, path, target)?;
        at = path.child(alloc, LEAST_NAME.as_slice())?;
    }
    Ok(carried)
}

/// Moves all that stands at and below one path to another, where nothing stands. Its one refusal is want of memory,
/// which changes nothing.
pub fn rename_to_free(
    files: &mut Files,
    alloc: Global,
    from: &Path,
    to: &Path,
) -> Result<(), AllocError>
    requires tree { IsTree files.old }
    requires free { map.get files.old to.now ≡ None }
    requires below { is_root to.now ≡ false }
    requires apart { behind from.now to.now ≡ None }
    requires apart_back { behind to.now from.now ≡ None }
    ensures ok { OnOk result (files.new ≡ renamed files.old from.now to.now) }
    ensures err { OnErr result (files.new ≡ files.old) }
{
    let carried = carried_below(files, alloc, from, to)?;
    moves::put_all(files, alloc, carried.arrived.as_slice())?;
    moves::remove_all(files, carried.left.as_slice());
    Ok(())
}

/// Puts a file in place of another. Its one refusal is want of memory, which changes nothing.
pub fn rename_to_file(
    files: &mut Files,
    alloc: Global,
    from: &Path,
    to: &Path,
) -> Result<(), AllocError>
    requires tree { IsTree files.old }
    requires from { is_folder (map.get files.old from.now) ≡ false }
    requires to { is_folder (map.get files.old to.now) ≡ false }
    requires there { map.contains_key files.old from.now ≡ true }
    requires from_below { is_root from.now ≡ false }
    requires below { is_root to.now ≡ false }
    requires apart { behind from.now to.now ≡ None }
    requires apart_back { behind to.now from.now ≡ None }
    ensures ok { OnOk result (files.new ≡ renamed files.old from.now to.now) }
    ensures err { OnErr result (files.new ≡ files.old) }
{
    if let Some(stored) = files.get(from) {
        let entry = stored.share()?;
        files.insert(to.copy(alloc)?, entry)?;
        files.remove(from);
    }
    Ok(())
}
