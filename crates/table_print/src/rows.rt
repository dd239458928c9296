//! The rows of tables.

ghost use Rattle.std.specs.Prelude.{◌≡◌, ◌++◌, ◌∷◌, [], All, OnOk};
ghost use Rattle.path_name.specs.Paths.{IsPath};
ghost use Rattle.table_scan.specs.QuotedTexts.{closed};
ghost use Rattle.table_print.specs.TablePrinting.{row_start, row_arrow, row_text, folders_text, path_expression, prefix_row_text};
ghost use Rattle.table_print.specs.Printable.{IsBelow, HasFoldersBelow};
ghost use Rattle.table_print.specs.Parts.{separator, HasSegments};

use crate::parts::{Part, add};
use crate::quoted::add_closed;
use crate::roots::Roots;
use path_name::Path;
use std::alloc::AllocError;
use table_scan::PrefixRow;

/// Adds what stands before a row's value. Its one refusal is want of memory.
pub fn add_key(out: &mut Vec<u8>, key: &[u8]) -> Result<(), AllocError>
    ensures { OnOk result (out.new.items ≡ out.old.items ++ (row_start ++ (closed key.now ++ row_arrow))) }
{
    add(out, Part::RowStart)?;
    add_closed(out, key)?;
    add(out, Part::RowArrow)
}

/// Adds what stands before the folder at a place.
fn add_separator(out: &mut Vec<u8>, place: usize) -> Result<(), AllocError>
    ensures { OnOk result (out.new.items ≡ out.old.items ++ separator place) }
{
    if place > 0 {
        add(out, Part::FoldersBetween)?;
    }
    Ok(())
}

/// Adds the folders of a prefix.
fn add_folders(out: &mut Vec<u8>, folders: &[Path], roots: &Roots) -> Result<(), AllocError>
    requires { All (IsBelow roots.now.project.now) folders.now }
    ensures text { OnOk result (out.new.items ≡ out.old.items ++ folders_text roots.now.project.now folders.now) }
    ensures segments { OnOk result (All IsPath folders.now) }
{
    for (i, folder) in folders.iter().enumerate() {
        add_separator(out, i)?;
        roots.add_path(out, folder)?;
    }
    Ok(())
}

/// Adds the row of a prefix. Its one refusal is want of memory.
pub fn add_prefix_row(out: &mut Vec<u8>, row: &PrefixRow, roots: &Roots) -> Result<(), AllocError>
    requires { HasFoldersBelow roots.now.project.now row.now }
    ensures text { OnOk result (out.new.items ≡ out.old.items ++ prefix_row_text roots.now.project.now row.now) }
    ensures segments { OnOk result (HasSegments row.now) }
{
    add_key(out, row.prefix.as_slice())?;
    add(out, Part::FoldersStart)?;
    add_folders(out, row.folders.as_slice(), roots)?;
    add(out, Part::FoldersEnd)?;
    add(out, Part::RowEnd)
}

/// Adds the row of a key and a path. Its one refusal is want of memory.
pub fn add_path_row(
    out: &mut Vec<u8>,
    key: &[u8],
    path: &Path,
    roots: &Roots,
) -> Result<(), AllocError>
    requires { IsBelow roots.now.project.now path.now }
    ensures text { OnOk result (out.new.items ≡ out.old.items ++ row_text key.now (path_expression roots.now.project.now path.now)) }
    ensures segments { OnOk result (IsPath path.now) }
{
    add_key(out, key)?;
    roots.add_path(out, path)?;
    add(out, Part::RowEnd)
}
