//! Paths, seen from the two variables.

ghost use Rattle.std.specs.Prelude.{◌≡◌, ◌++◌, [], ◌∷◌, IfOk, OnOk};
ghost use Rattle.path_name.specs.Paths.{IsPath, BeginsWith};
ghost use Rattle.table_scan.specs.TableGrammar.{vendor_name};
ghost use Rattle.table_scan.specs.QuotedTexts.{closed};
ghost use Rattle.table_print.specs.TablePrinting.{path_expression};
ghost use Rattle.table_print.specs.Parts.{part_text};

use crate::parts::{Part, add};
use crate::quoted::add_closed;
use path_name::{Path, PathFault, path_is_segments};
use std::alloc::{AllocError, Global};

/// The folders that the two variables stand for, seen from the tree's root.
#[derive(Drop)]
pub struct Roots<'a> {
    /// The project's folder, `$baseDir`.
    pub project: &'a Path,
    /// The project's vendor folder, `$vendorDir`.
    pub vendor: Path,
    ghost in_project: { vendor ≡ project.now ++ vendor_name ∷ [] },
}

/// The project's vendor folder. Its one refusal is want of memory.
fn vendor_of(alloc: Global, project: &Path) -> Result<Path, AllocError>
    ensures { IfOk result (λ vendor. vendor ≡ project.now ++ vendor_name ∷ []) }
{
    match project.follow(alloc, b"vendor") {
        Ok(vendor) => Ok(vendor),
        Err(PathFault::OutOfMemory) => Err(AllocError),
        Err(PathFault::BadSegment(_)) => unreachable!(),
        Err(PathFault::AboveRoot(_)) => unreachable!(),
    }
}

/// Adds the beginning of an expression and its text.
fn add_expression(out: &mut Vec<u8>, start: Part, rest: &[u8]) -> Result<(), AllocError>
    ensures { OnOk result (out.new.items ≡ out.old.items ++ (part_text start ++ closed rest.now)) }
{
    add(out, start)?;
    add_closed(out, rest)
}

impl<'a> Roots<'a> {
    /// The folders of a project. Its one refusal is want of memory.
    pub fn of(alloc: Global, project: &'a Path) -> Result<Roots<'a>, AllocError>
        ensures { IfOk result (λ roots. roots.project.now ≡ project.now) }
    {
        let vendor = vendor_of(alloc, project)?;
        Ok(Roots { project, vendor })
    }

    /// Adds the expression of a path at or below the project. Its one refusal is want of memory.
    pub fn add_path(&self, out: &mut Vec<u8>, path: &Path) -> Result<(), AllocError>
        requires below { BeginsWith path.now self.now.project.now }
        ensures text { OnOk result (out.new.items ≡ out.old.items ++ path_expression self.now.project.now path.now) }
        ensures segments { IsPath path.now }
    {
        path_is_segments(path);
        if let Some(rest) = path.below(&self.vendor) {
            add_expression(out, Part::VendorStart, rest)?;
            return Ok(());
        }
        if let Some(rest) = path.below(self.project) {
            add_expression(out, Part::BaseStart, rest)?;
        }
        Ok(())
    }
}
