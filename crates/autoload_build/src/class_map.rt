//! The class map.

ghost use Rattle.std.specs.Prelude.{◌≡◌, ◌++◌, IfOk, OnOk, map};
ghost use Rattle.autoload_build.specs.BuiltTables.{class_map_of, class_row, classes_in, classes_of, first_files};
ghost use Rattle.autoload_build.specs.Steps.{class_of};

use class_walk::Scanned;
use path_name::{Name, Path};
use std::alloc::{AllocError, Global};
use table_scan::ClassRow;

/// A class and a file that declares it.
#[derive(Clone, Copy)]
pub struct Declared<'a> {
    /// The class.
    pub class: &'a Name,
    /// The file.
    pub file: &'a Path,
}

/// The class map of the files that were scanned: each class with the first file that declares it, in byte order of classes.
/// Its one refusal is want of memory.
#[tactic(auto, unfolding(crate::specs::BuiltTables::class_map_of))]
pub fn class_map(alloc: Global, found: &[Scanned]) -> Result<Vec<ClassRow>, AllocError>
    ensures { IfOk result (λ rows. rows.items ≡ class_map_of (classes_of found.now)) }
{
    let mut classes = all_classes(alloc, found)?;
    keep_first(&mut classes)?;
    class_rows(alloc, classes.as_slice())
}

/// All classes, in the order in which they were found.
#[tactic(auto, unfolding(crate::specs::BuiltTables::classes_of))]
fn all_classes<'a>(alloc: Global, found: &'a [Scanned]) -> Result<Vec<Declared<'a>>, AllocError>
    ensures { IfOk result (λ classes. map class_of classes.items ≡ classes_of found.now) }
{
    let mut classes = Vec::new(alloc);
    for scanned in found {
        put_classes(&mut classes, scanned)?;
    }
    Ok(classes)
}

fn put_classes<'a>(classes: &mut Vec<Declared<'a>>, scanned: &'a Scanned) -> Result<(), AllocError>
    ensures { OnOk result (map class_of classes.new.items ≡ map class_of classes.old.items ++ classes_in scanned.now) }
{
    for class in scanned.names.as_slice() {
        classes.push(Declared {
            class,
            file: &scanned.shown,
        })?;
    }
    Ok(())
}

/// Puts classes in byte order, and keeps the first of each.
fn keep_first(classes: &mut Vec<Declared<'_>>) -> Result<(), AllocError>
    ensures { OnOk result (map class_of classes.new.items ≡ first_files (map class_of classes.old.items)) }
{
    classes.sort_by(|one, other| one.class.cmp(other.class))?;
    classes.dedup_by(|one, kept| one.class == kept.class);
    Ok(())
}

/// The rows of classes.
fn class_rows(alloc: Global, classes: &[Declared<'_>]) -> Result<Vec<ClassRow>, AllocError>
    ensures { IfOk result (λ rows. rows.items ≡ map class_row (map class_of classes.now)) }
{
    let mut rows = Vec::with_capacity(alloc, classes.len())?;
    for declared in classes {
        rows.push(ClassRow {
            class: declared.class.copy(alloc)?,
            path: declared.file.copy(alloc)?,
        })?;
    }
    Ok(rows)
}
