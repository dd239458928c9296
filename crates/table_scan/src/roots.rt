//! Paths that are seen from the two variables.

ghost use Rattle.std.specs.Prelude.{◌≡◌, ◌<◌, ◌++◌, ◌∷◌, [], ℕ, List, length, IfOk};
ghost use Rattle.table_scan.specs.TableTokens.{tokens};
ghost use Rattle.table_scan.specs.TableGrammar.{vendor_name};
ghost use Rattle.table_scan.specs.TableSteps.{Reads, Stands, root_at, Leads};
ghost use Rattle.table_scan.specs.TableReading.{front_from, path_next, At_root, At_text};

use crate::gap::after_gaps;
use crate::mark::{Mark, behind_mark, expect};
use crate::quoted::{plain_quoted, quoted};
use crate::stop::Stop;
use path_name::{Path, PathFault};
use std::alloc::{AllocError, Global};

/// The folders that the two variables stand for, seen from the tree's root.
#[derive(Drop)]
pub struct Roots<'a> {
    /// The project's folder, `$baseDir`.
    pub project: &'a Path,
    /// The project's vendor folder, `$vendorDir`.
    pub vendor: Path,
    ghost in_project: { vendor ≡ project.now ++ vendor_name ∷ [] },
}

/// The project's vendor folder.
fn vendor_of(alloc: Global, project: &Path) -> Result<Path, AllocError>
    ensures { IfOk result (λ vendor. vendor ≡ project.now ++ vendor_name ∷ []) }
{
    match project.follow(alloc, b"vendor") {
        Ok(vendor) => Ok(vendor),
        Err(PathFault::OutOfMemory) => Err(AllocError),
        Err(PathFault::BadSegment(_)) => unreachable!(),
        Err(PathFault::AboveRoot(_)) => unreachable!(),
    }
}

/// The path that the text behind a variable leads to, which stands so many bytes before the end.
fn led_to(alloc: Global, from: &Path, text: &[u8], left: usize) -> Result<Path, Stop>
    ensures { Leads from.now text.now left result }
{
    match text.first() {
        Some(b'/') => {}
        _ => return Err(Stop::Bad(left)),
    }
    match from.follow(alloc, text) {
        Ok(path) => Ok(path),
        Err(PathFault::OutOfMemory) => Err(Stop::OutOfMemory),
        Err(PathFault::BadSegment(_)) => Err(Stop::Bad(left)),
        Err(PathFault::AboveRoot(_)) => Err(Stop::Bad(left)),
    }
}

/// The path of the next token, the text behind a variable and a `.`, and what follows it.
fn path_behind<'t>(alloc: Global, from: &Path, text: &'t [u8]) -> Result<(Path, &'t [u8]), Stop>
    ensures path { (project : List (List ℕ)) → Reads (λ x. (x.0, tokens x.1.now)) (front_from (path_next project) (At_text from.now) (tokens text.now)) result }
    ensures shorter { IfOk result (λ x. length x.1.now < length text.now) }
{
    let here = after_gaps(text);
    match plain_quoted(here) {
        Some((plain, rest)) => Ok((led_to(alloc, from, plain, here.len())?, rest)),
        None => {
            let (bytes, rest) = quoted(alloc, here)?;
            Ok((led_to(alloc, from, bytes.as_slice(), here.len())?, rest))
        }
    }
}

impl<'a> Roots<'a> {
    /// The folders of a project.
    pub fn of(alloc: Global, project: &'a Path) -> Result<Roots<'a>, AllocError>
        ensures { IfOk result (λ roots. roots.project.now ≡ project.now) }
    {
        let vendor = vendor_of(alloc, project)?;
        Ok(Roots { project, vendor })
    }

    /// The folder of the variable that is the next token, and what follows it.
    fn root<'t>(&self, text: &'t [u8]) -> Result<(&Path, &'t [u8]), Stop>
        ensures root { Stands (λ x. (x.0.now, tokens x.1.now)) (root_at self.now.project.now (tokens text.now)) result }
        ensures shorter { IfOk result (λ x. length x.1.now < length text.now) }
    {
        let here = after_gaps(text);
        if let Some(rest) = behind_mark(here, Mark::VendorDir) {
            return Ok((&self.vendor, rest));
        }
        match behind_mark(here, Mark::BaseDir) {
            Some(rest) => Ok((self.project, rest)),
            None => Err(Stop::Bad(here.len())),
        }
    }

    /// The next path, and what follows it: a variable, `.` and a text that begins with `/`.
    pub fn path<'t>(&self, alloc: Global, text: &'t [u8]) -> Result<(Path, &'t [u8]), Stop>
        ensures path { Reads (λ x. (x.0, tokens x.1.now)) (front_from (path_next self.now.project.now) At_root (tokens text.now)) result }
        ensures shorter { IfOk result (λ x. length x.1.now < length text.now) }
    {
        let (from, after) = self.root(text)?;
        let behind_dot = expect(after, Mark::Dot)?;
        path_behind(alloc, from, behind_dot)
    }
}
