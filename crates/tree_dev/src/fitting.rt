//! Where a change has a place in a tree in memory.

ghost use Rattle.std.specs.Prelude.{◌≡◌, ◌||◌, IfOk, is_none, is_some};
ghost use Rattle.path_name.specs.Paths.{without_last};
ghost use Rattle.tree_dev.specs.Trees.{IsTree, entry_at, has_folder, is_folder};
ghost use Rattle.tree_dev.specs.Changes.{has_place, is_file, is_free, is_free_for_file, is_leaf};
ghost use Rattle.tree_dev.specs.Kinds.{names_entry, names_file, names_folder};
ghost use Rattle.tree_dev.specs.declared.change.Change.TheVariants as changes;

use crate::files::Files;
use crate::{Kind, listing};
use path_name::Path;
use std::alloc::{AllocError, Global};

fn names_folder(kind: Kind) -> bool
    ensures { result ≡ names_folder kind }
{
    match kind {
        Kind::Folder => true,
        Kind::Absent | Kind::File | Kind::Other => false,
    }
}

fn names_file(kind: Kind) -> bool
    ensures { result ≡ names_file kind }
{
    match kind {
        Kind::File => true,
        Kind::Absent | Kind::Folder | Kind::Other => false,
    }
}

fn names_entry(kind: Kind) -> bool
    ensures { result ≡ names_entry kind }
{
    match kind {
        Kind::Absent => false,
        Kind::File | Kind::Folder | Kind::Other => true,
    }
}

/// Whether a folder is at a path.
pub fn is_folder(files: &Files, at: &Path) -> bool
    ensures { result ≡ is_folder (entry_at files.now at.now) }
{
    names_folder(files.kind(at))
}

fn is_file(files: &Files, at: &Path) -> bool
    ensures { result ≡ is_file (entry_at files.now at.now) }
{
    names_file(files.kind(at))
}

/// Whether something is at a path.
pub fn is_there(files: &Files, at: &Path) -> bool
    ensures { result ≡ is_some (entry_at files.now at.now) }
{
    names_entry(files.kind(at))
}

fn is_below_folder(files: &Files, alloc: Global, at: &Path) -> Result<bool, AllocError>
    ensures { IfOk result (λ below. below ≡ has_folder files.now (without_last at.now)) }
{
    match at.parent(alloc)? {
        None => Ok(false),
        Some(parent) => Ok(is_folder(files, &parent)),
    }
}

/// Whether something new can be at a path.
pub fn is_free(files: &Files, alloc: Global, at: &Path) -> Result<bool, AllocError>
    ensures { IfOk result (λ free. free ≡ is_free files.now at.now) }
{
    if !is_below_folder(files, alloc, at)? {
        return Ok(false);
    }
    Ok(!is_there(files, at))
}

/// Whether a file can be written at a path.
pub fn is_free_for_file(files: &Files, alloc: Global, at: &Path) -> Result<bool, AllocError>
    ensures { IfOk result (λ free. free ≡ is_free_for_file files.now at.now) }
{
    if !is_below_folder(files, alloc, at)? {
        return Ok(false);
    }
    Ok(!is_there(files, at) || is_file(files, at))
}

/// Whether what is at a path can be renamed to another.
#[tactic(auto, unfolding(crate::specs::Changes::has_place))]
pub fn can_rename(files: &Files, alloc: Global, from: &Path, to: &Path) -> Result<bool, AllocError>
    ensures { IfOk result (λ can. can ≡ has_place files.now (changes.Renamed from.now to.now)) }
{
    if !is_there(files, from) {
        return Ok(false);
    }
    if to.starts_with(from) {
        return Ok(false);
    }
    if is_file(files, from) {
        is_free_for_file(files, alloc, to)
    } else {
        is_free(files, alloc, to)
    }
}

/// Whether what is at a path is there and is no folder.
#[tactic(auto, unfolding(crate::specs::Changes::has_place))]
pub fn can_remove_file(files: &Files, at: &Path) -> bool
    ensures { result ≡ has_place files.now (changes.FileRemoved at.now) }
{
    is_there(files, at) && !is_folder(files, at)
}

/// Whether a folder without entries that is not the root is at a path.
#[tactic(auto, unfolding(crate::specs::Changes::has_place))]
pub fn can_remove_dir(files: &Files, alloc: Global, at: &Path) -> Result<bool, AllocError>
    requires { IsTree files.now }
    ensures { IfOk result (λ can. can ≡ has_place files.now (changes.FolderRemoved at.now)) }
{
    if !is_folder(files, at) {
        return Ok(false);
    }
    if at.is_root() {
        return Ok(false);
    }
    match listing::next_name(files, alloc, at, &[])? {
        None => Ok(true),
        Some(_) => Ok(false),
    }
}
