//! The names of a folder.

ghost use Rattle.std.specs.Prelude.{◌≡◌, ◌≢◌, ◌-◌, ◌^◌, IfOk};
ghost use Rattle.std.specs.List.{list_all};
ghost use Rattle.path_name.specs.Paths.{is_segment};
ghost use Rattle.tree_dev.specs.Trees.{ListsNames};
ghost use Rattle.tree_dev.specs.declared.entry.ListAnswer.TheVariants as listings;

use crate::trouble::Trouble;
use path_name::{Items, Name, is_segment};
use std::alloc::{AllocError, Global};
use std::io;
use std::io::{ErrorKind, Read};
use tree_dev::ListAnswer;

/// The bytes of names that are asked for at once.
const PIECE: usize = 32_768;

/// The names that an open folder is read as, each ended by a NUL, in byte order and without `.` and `..`.
/// Where there are more than `most` the rest is not read, and the answer is TooMany, or a fault where `most` is the
/// last u32. A name that is no segment of a path, as one that is no UTF-8, is a fault.
pub fn names_of<D: Read>(alloc: Global, folder: &mut D, most: u32) -> Result<ListAnswer, Trouble>
    ensures names { IfOk result ListsNames }
    ensures all { IfOk result (λ answer. most ≡ 2 ^ 32 - 1 → answer ≢ listings.TooMany) }
{
    let mut names = Vec::new(alloc);
    let mut piece = vec![in alloc; 0u8; PIECE]?;
    for _ in 0..u64::MAX {
        match folder.read(piece.as_mut_slice()) {
            Ok(0) => return listed(names),
            Ok(len) => {
                if !gather(alloc, &piece[..len], most, &mut names)? {
                    return too_many(most);
                }
            }
            Err(error) if error.kind() == ErrorKind::Interrupted => {}
            Err(error) => return Err(Trouble::from(error)),
        }
    }
    Err(Trouble::Failed)
}

/// Adds the names of a piece. False: there are more than `most`.
fn gather(
    alloc: Global,
    piece: &[u8],
    most: u32,
    names: &mut Vec<Name>,
) -> Result<bool, AllocError> {
    for name in piece.split(|byte| *byte == 0) {
        if !is_entry(name) {
            continue;
        }
        if names.len() as u64 >= u64::from(most) {
            return Ok(false);
        }
        names.push(Name::copy_of(alloc, name)?)?;
    }
    Ok(true)
}

/// Whether what stands between two NULs is the name of an entry.
fn is_entry(name: &[u8]) -> bool {
    !matches!(name, [] | [b'.'] | [b'.', b'.'])
}

fn are_segments(names: &[Name]) -> bool
    ensures { result ≡ list_all is_segment names.now }
{
    names.iter().all(|name| is_segment(name.as_slice()))
}

/// The names in byte order.
fn listed(names: Vec<Name>) -> Result<ListAnswer, Trouble>
    ensures names { IfOk result ListsNames }
    ensures all { IfOk result (λ answer. answer ≢ listings.TooMany) }
{
    let mut names = names;
    names.sort_unstable();
    names.dedup();
    if !are_segments(names.as_slice()) {
        return Err(Trouble::Failed);
    }
    Ok(ListAnswer::Names(Items::of(names)))
}

fn too_many(most: u32) -> Result<ListAnswer, Trouble>
    ensures names { IfOk result ListsNames }
    ensures all { IfOk result (λ answer. most ≡ 2 ^ 32 - 1 → answer ≢ listings.TooMany) }
{
    if most == u32::MAX {
        return Err(Trouble::Failed);
    }
    Ok(ListAnswer::TooMany)
}
