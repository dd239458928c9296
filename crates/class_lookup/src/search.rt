//! The search for a class's file.

ghost use Rattle.std.specs.Prelude.{◌≡◌, find, All, IsTrue, IfOk, IsErrOf, is_err};
ghost use Rattle.std.specs.Option.{option_map};
ghost use Rattle.path_name.specs.Orders.{bytes_are_equal};
ghost use Rattle.tree_dev.specs.Device.{OnlyRead, OfTold, Rose};
ghost use Rattle.table_scan.specs.TableGrammar.{is_whole};
ghost use Rattle.class_paths.specs.ClassNames.{IsClassName};
ghost use Rattle.class_lookup.specs.Found.{found_file, is_device_fault};
ghost use Rattle.class_lookup.specs.Lookup.{has_file, is_authoritative, mapped_row, lookup_in};
ghost use Rattle.class_lookup.specs.declared.fault.LookupFault.TheVariants.{BadName, DeviceFault};

use crate::fault::LookupFault;
use crate::tried::candidates;
use path_name::{Name, Path};
use std::alloc::Global;
use table_scan::{ClassRow, Mode, State, Tables};
use tree_dev::{Failed, Kind, Tree};

/// What a look-up finds.
#[derive(Debug, PartialEq, Eq, Drop)]
pub enum Found {
    /// The file that the class opens.
    File(Path),
    /// No file.
    Nothing,
}

/// The file that a class opens. The class map is asked first, and its file is the answer whether it is there or not.
/// Where it has no such class and is authoritative, there is none. Else it is the first of the candidates that is a
/// file. `DeviceFault` comes only where the tree's count of faults rose, `OutOfMemory` where memory ran out, and
/// `BadName` never. The tree is only read.
pub fn find<T: Tree>(
    alloc: Global,
    tables: &Tables,
    tree: &mut T,
    name: &Name,
) -> Result<Found, LookupFault>
    requires name { IsClassName name.now }
    requires prefixes { All (λ row. IsTrue (is_whole row.prefix)) tables.now.psr4 }
    ensures exact { IfOk result (λ found. OfTold (T.meaning tree.old) (λ t. found_file found ≡ lookup_in tables.now (has_file t) name.now)) }
    ensures only_read { OnlyRead (T.meaning tree.old) (T.meaning tree.new) (is_device_fault result) }
    ensures device { IsErrOf result DeviceFault → Rose (T.meaning tree.old).faults (T.meaning tree.new).faults }
    ensures named { IsErrOf result BadName → ⊥ }
{
    if let Some(row) = mapped_row(tables.class_map.as_slice(), name.as_slice()) {
        return Ok(Found::File(row.path.copy(alloc)?));
    }
    if is_authoritative(tables.state) {
        return Ok(Found::Nothing);
    }
    let paths = candidates(alloc, tables, name)?;
    match first_file(tree, paths.as_slice())? {
        Some(path) => Ok(Found::File(path.copy(alloc)?)),
        None => Ok(Found::Nothing),
    }
}

/// The class map's row of this class.
fn mapped_row<'a>(rows: &'a [ClassRow], name: &[u8]) -> Option<&'a ClassRow>
    ensures { option_map (λ row. row.now) result ≡ mapped_row rows.now name.now }
{
    rows.iter().find(|row| row.class.as_slice() == name)
}

/// Whether the class map alone answers.
fn is_authoritative(state: Option<State>) -> bool
    ensures { result ≡ is_authoritative state }
{
    match state {
        None => false,
        Some(state) => match state.mode {
            Mode::Plain | Mode::Optimised => false,
            Mode::Authoritative => true,
        },
    }
}

/// The first of the paths at which there is a file.
fn first_file<'a, T: Tree>(tree: &mut T, paths: &'a [Path]) -> Result<Option<&'a Path>, Failed>
    ensures exact { IfOk result (λ found. OfTold (T.meaning tree.old) (λ t. option_map (λ path. path.now) found ≡ find (has_file t) paths.now)) }
    ensures only_read { OnlyRead (T.meaning tree.old) (T.meaning tree.new) (is_err result) }
{
    for path in paths {
        if has_file(tree, path)? {
            return Ok(Some(path));
        }
    }
    Ok(None)
}

/// Whether there is a file at a path.
fn has_file<T: Tree>(tree: &mut T, path: &Path) -> Result<bool, Failed>
    ensures exact { IfOk result (λ has. OfTold (T.meaning tree.old) (λ t. has ≡ has_file t path.now)) }
    ensures only_read { OnlyRead (T.meaning tree.old) (T.meaning tree.new) (is_err result) }
{
    match tree.stat(path)? {
        Kind::File => Ok(true),
        Kind::Absent | Kind::Folder | Kind::Other => Ok(false),
    }
}
