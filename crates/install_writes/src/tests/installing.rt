//! An install of the tests: all calls from the claim to the release.

ghost use Rattle.std.specs.Prelude.{[], ◌∷◌, codes};
ghost use Rattle.stage_job.specs.Jobs.{AreParts};
ghost use Rattle.package_moves.specs.Wanted.{AreWanted};

use super::wanted::project;
use package_moves::moves;
use stage_job::{Part, stage};
use std::alloc::Global;
use std::test::Fail;
use tree_dev::{Entries, Tree};
use vendor_journal::{claim, commit, journal_of, prepare, release};

/// Gives the project `p` what is wanted.
pub fn install<T: Tree>(
    alloc: Global,
    tree: &mut T,
    wanted: &[Part],
    generation: u64,
) -> Result<(), Fail>
    requires wanted { AreWanted wanted.now }
    requires parts { AreParts (codes "p" ∷ []) wanted.now }
{
    let project = project(alloc)?;
    let hold = claim(alloc, tree, &project)?;
    let mut left = Entries { left: 999 };
    let job = moves(alloc, tree, &project, wanted, &mut left)?;
    stage(alloc, tree, &project, &job, &mut left)?;
    let journal = journal_of(alloc, &job, generation)?;
    let prepared = prepare(alloc, &hold, &journal)?;
    commit(tree, &hold, &prepared)?;
    release(alloc, tree, hold)?;
    Ok(())
}
