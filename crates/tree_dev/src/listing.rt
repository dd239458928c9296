//! The names in a folder of a tree in memory.

ghost use Rattle.std.specs.Prelude.{◌≡◌, ◌<◌, ◌≤◌, ◌++◌, ◌∷◌, [], length, IfOk, MatchOption};
ghost use Rattle.tree_dev.specs.Trees.{IsTree, names_in};
ghost use Rattle.tree_dev.specs.Listing.{IsLastName, IsNameOrNothing, IsNextName};

use crate::files::Files;
use path_name::{Name, Path};
use std::alloc::{AllocError, Global};

/// No name has a byte before this one, which follows a name where the next one is looked for.
const LEAST_BYTE: u8 = 1;

/// A path in a folder that stands behind this name and all that is below it, and before the next name.
fn behind_name(alloc: Global, folder: &Path, last: &[u8]) -> Result<Path, AllocError>
    requires { IsNameOrNothing last.now }
    ensures { IfOk result (λ path. path ≡ folder.now ++ (last.now ++ 1 ∷ []) ∷ []) }
{
    let mut name = Vec::with_capacity(alloc, last.len().saturating_add(1))?;
    name.extend_from_slice(last)?;
    name.push(LEAST_BYTE)?;
    folder.child(alloc, name.as_slice())
}

/// The first name of a folder after this one, or after nothing. It costs no more for what lies below this one.
pub fn next_name(
    files: &Files,
    alloc: Global,
    folder: &Path,
    last: &[u8],
) -> Result<Option<Name>, AllocError>
    requires tree { IsTree files.now }
    requires last { IsNameOrNothing last.now }
    ensures { IfOk result (λ next. MatchOption next (IsLastName files.now folder.now last.now) (λ name. IsNextName files.now folder.now last.now name)) }
{
    let from = behind_name(alloc, folder, last)?;
    let Some(first) = files.first_from(&from) else {
        return Ok(None);
    };
    if !first.starts_with(folder) {
        return Ok(None);
    }
    match first.last() {
        None => Ok(None),
        Some(name) => Ok(Some(Name::copy_of(alloc, name)?)),
    }
}

/// The names of a folder in byte order; None where there are more than `most`.
pub fn names(
    files: &Files,
    alloc: Global,
    folder: &Path,
    most: u32,
) -> Result<Option<Vec<Name>>, AllocError>
    requires { IsTree files.now }
    ensures { IfOk result (λ names. MatchOption names (most < length (names_in files.now folder.now))
        (λ names. (names.items ≡ names_in files.now folder.now) × (length (names_in files.now folder.now) ≤ most))) }
{
    let mut names = Vec::new(alloc);
    let mut last = Name::empty(alloc);
    while let Some(name) = next_name(files, alloc, folder, last.as_slice())? {
        if names.len() as u64 >= most as u64 {
            return Ok(None);
        }
        last = name.copy(alloc)?;
        names.push(name)?;
    }
    Ok(Some(names))
}
