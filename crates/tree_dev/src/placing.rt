//! Entries that are put into a tree in memory.

ghost use Rattle.std.specs.Prelude.{◌≡◌, ◌&&◌, ℕ, List, IsTrue, OnOk, OnErr, IfOk, is_none};
ghost use Rattle.std.specs.List.{list_any};
ghost use Rattle.std.specs.Option.{option_copied, option_map};
ghost use Rattle.std.specs.FinMap as map;
ghost use Rattle.path_name.specs.Paths.{IsPath};
ghost use Rattle.tree_dev.specs.Memory.{above, blocks, hides, is_misplaced, put_in};
ghost use Rattle.tree_dev.specs.Moves.{is_among, paths_of};
ghost use Rattle.tree_dev.specs.Placing.{AreFolders};
ghost use Rattle.tree_dev.specs.Stored.{entry_of};

use crate::files::Files;
use crate::moves::{self, Placed};
use crate::stored::Stored;
use path_name::Path;
use std::alloc::{AllocError, Global};

/// Whether no folder can be there.
fn blocks(present: Option<&Stored>) -> bool
    ensures { result ≡ blocks (option_map entry_of (option_copied present.entry)) }
{
    match present {
        None | Some(Stored::Folder) => false,
        Some(Stored::File(_) | Stored::Other) => true,
    }
}

/// Whether the entry that is there is a folder that this one can't replace.
fn hides(present: Option<&Stored>, entry: &Stored) -> bool
    ensures { result ≡ hides (option_map entry_of (option_copied present.entry)) (entry_of entry.now) }
{
    match (present, entry) {
        (Some(Stored::Folder), Stored::File(_) | Stored::Other) => true,
        _ => false,
    }
}

/// Whether something that is no folder is above a path.
fn is_blocked(files: &Files, alloc: Global, at: &Path) -> Result<bool, AllocError>
    ensures { IfOk result (λ blocked. blocked ≡ list_any (λ folder. blocks (map.get files.now folder)) (above at.now)) }
{
    let mut folder = at.copy(alloc)?;
    for _level in 1..at.depth() {
        folder.leave();
        if blocks(files.get(&folder)) {
            return Ok(true);
        }
    }
    Ok(false)
}

/// Whether a tree has no place for an entry at a path.
#[tactic(auto, unfolding(crate::specs::Memory::is_misplaced))]
pub fn is_misplaced(
    files: &Files,
    alloc: Global,
    at: &Path,
    entry: &Stored,
) -> Result<bool, AllocError>
    ensures { IfOk result (λ misplaced. misplaced ≡ is_misplaced files.now at.now (entry_of entry.now)) }
{
    if at.is_root() {
        return Ok(true);
    }
    if is_blocked(files, alloc, at)? {
        return Ok(true);
    }
    Ok(hides(files.get(at), entry))
}

/// A folder for each path above another where nothing is.
fn missing_folders(files: &Files, alloc: Global, at: &Path) -> Result<Vec<Placed>, AllocError>
    ensures paths { IfOk result (λ folders. (q : List (List ℕ)) → is_among q (paths_of folders.items) ≡ (is_among q (above at.now) && is_none (map.get files.now q))) }
    ensures folders { IfOk result (λ folders. AreFolders folders.items) }
{
    let mut folders = Vec::new(alloc);
    let mut folder = at.copy(alloc)?;
    for _level in 1..at.depth() {
        folder.leave();
        if !files.contains(&folder) {
            folders.push(Placed {
                at: folder.copy(alloc)?,
                entry: Stored::Folder,
            })?;
        }
    }
    Ok(folders)
}

/// Puts an entry at a path that is not the root, and makes the folders that are missing above it.
pub fn put(files: &mut Files, alloc: Global, at: &Path, entry: Stored) -> Result<(), AllocError>
    ensures ok { OnOk result (files.new ≡ put_in files.old at.now (entry_of entry)) }
    ensures err { OnErr result (files.new ≡ files.old) }
{
    let folders = missing_folders(files, alloc, at)?;
    let path = at.copy(alloc)?;
    moves::put_all(files, alloc, folders.as_slice())?;
    if let Err(fault) = files.insert(path, entry) {
        moves::remove_placed(files, folders.as_slice());
        return Err(fault);
    }
    Ok(())
}
