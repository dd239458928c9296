//! Folders of targets listed.

ghost use Rattle.std.specs.Prelude.{◌≡◌, true, IfOk};
ghost use Rattle.std.specs.Bool.{Decides};
ghost use Rattle.std.specs.Result.{IfErr};
ghost use Rattle.tree_dev.specs.Device.{OfTold, OnlyRead};
ghost use Rattle.stage_job.specs.Faults.{is_device_fault};
ghost use Rattle.package_moves.specs.Beside.{IsListedBeside, MayCome};
ghost use Rattle.package_moves.specs.Found.{IsListingOf};
ghost use Rattle.package_moves.specs.declared.listing.Listed.TheVariants as listings;

use crate::counts::Counts;
use path_name::{Items, Name, Path};
use stage_job::StageFault;
use std::alloc::Global;
use tree_dev::{ListAnswer, Tree};

/// What is at the path of a folder.
#[derive(Drop)]
pub enum Listed {
    /// Its names.
    Names(Items<Name>),
    /// Nothing; or a folder whose names would pass the limit.
    Nothing,
    /// Something else than a folder.
    Other,
}

impl Listed {
    /// Whether all was the same before, and exactly these names were listed.
    pub fn goes_on(&self, same: bool, names: &[Name]) -> bool
        ensures { Decides result ((same ≡ true) × (self.now ≡ listings.Names names.now)) }
    {
        match self {
            Listed::Names(found) => same && found.as_slice() == names,
            Listed::Nothing => false,
            Listed::Other => false,
        }
    }
}

/// Lists a folder of the project, and counts its names. It refuses nothing: where the names would pass the limit it says so in
/// the counts, and lists no more from then on.
pub fn list_counted<T: Tree>(
    alloc: Global,
    tree: &mut T,
    at: &Path,
    counts: &mut Counts,
) -> Result<Listed, StageFault>
    ensures only_read { OnlyRead (T.meaning tree.old) (T.meaning tree.new) (is_device_fault result) }
    ensures cause { IfErr result MayCome }
    ensures kept { counts.new.left ≡ counts.old.left }
    ensures listing { IfOk result IsListingOf }
    ensures listed { IfOk result (λ found. OfTold (T.meaning tree.old) (λ t. IsListedBeside t at.now counts.old counts.new found)) }
{
    if counts.passed {
        return Ok(Listed::Nothing);
    }
    match tree.list(alloc, at, counts.room())? {
        ListAnswer::Names(names) => {
            if counts.add(names.as_slice()) {
                Ok(Listed::Names(names))
            } else {
                Ok(Listed::Nothing)
            }
        }
        ListAnswer::TooMany => {
            counts.passed = true;
            Ok(Listed::Nothing)
        }
        ListAnswer::Absent => Ok(Listed::Nothing),
        ListAnswer::NotFolder => Ok(Listed::Other),
    }
}
