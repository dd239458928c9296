//! The table of files that are always loaded.

ghost use Rattle.std.specs.Prelude.{◌≡◌, ◌++◌, IfOk, OnOk};
ghost use Rattle.autoload_build.specs.BuiltTables.{file_id, first_of_each};
ghost use Rattle.autoload_build.specs.Steps.{files_by, files_of_source, has_same_id, seen, source_of};

use crate::sources::Source;
use content_hash::text_id;
use manifest_read::{Manifest, PathText};
use path_name::Text;
use std::alloc::{AllocError, Global};
use std::collections::BTreeSet;
use table_scan::FileRow;

/// The files that are always loaded, packages in their order and the root last, each with the id of `NAME:PATH`, where PATH
/// is as it is written. An id that stands twice keeps its first place. Its one refusal is want of memory.
pub fn file_rows(
    alloc: Global,
    root: &Manifest,
    sources: &[Source],
) -> Result<Vec<FileRow>, AllocError>
    ensures { IfOk result (λ rows. rows.items ≡ first_of_each has_same_id (files_by root.now (seen sources.now))) }
{
    first_of_each_id(alloc, all_files(alloc, root, sources)?)
}

/// All files, one after another.
fn all_files(alloc: Global, root: &Manifest, sources: &[Source]) -> Result<Vec<FileRow>, AllocError>
    ensures { IfOk result (λ rows. rows.items ≡ files_by root.now (seen sources.now)) }
{
    let mut rows = Vec::new(alloc);
    for source in sources {
        put_files(alloc, &mut rows, root, source)?;
    }
    Ok(rows)
}

/// Puts the files of rules.
fn put_files(
    alloc: Global,
    rows: &mut Vec<FileRow>,
    root: &Manifest,
    source: &Source<'_>,
) -> Result<(), AllocError>
    ensures { OnOk result (rows.new.items ≡ rows.old.items ++ files_of_source root.now (source_of source.now)) }
{
    for file in source.rules.files.as_slice() {
        rows.push(FileRow {
            id: file_id(alloc, root, source, file)?,
            path: source.folder.join(alloc, &file.path)?,
        })?;
    }
    Ok(())
}

/// The rows without those whose id stands before them.
fn first_of_each_id(alloc: Global, rows: Vec<FileRow>) -> Result<Vec<FileRow>, AllocError>
    ensures { IfOk result (λ kept. kept.items ≡ first_of_each has_same_id rows.items) }
{
    let mut known = BTreeSet::new(alloc);
    let mut kept = Vec::new(alloc);
    for row in rows {
        if known.insert(row.id.copy(alloc)?)? {
            kept.push(row)?;
        }
    }
    Ok(kept)
}

/// The id of a file.
fn file_id(
    alloc: Global,
    root: &Manifest,
    source: &Source<'_>,
    file: &PathText,
) -> Result<Text, AllocError>
    ensures { IfOk result (λ id. id ≡ file_id root.now (source_of source.now) file.now) }
{
    let mut text = Vec::from_slice(alloc, source.name(root).as_slice())?;
    text.push(b':')?;
    text.extend_from_slice(file.written.as_slice())?;
    Text::copy_of(alloc, &text_id(text.as_slice()))
}
