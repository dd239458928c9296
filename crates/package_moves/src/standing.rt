//! Which parts stand already.

ghost use Rattle.std.specs.Prelude.{◌≡◌, ◌≤◌, false, length, IfOk};
ghost use Rattle.tree_dev.specs.Device.{OfTold, OnlyRead};
ghost use Rattle.stage_job.specs.Checked.{job_checked};
ghost use Rattle.stage_job.specs.Faults.{Answers, is_device_fault};
ghost use Rattle.package_moves.specs.Beside.{AreCounted};
ghost use Rattle.package_moves.specs.Counted.{targets_count};
ghost use Rattle.package_moves.specs.Found.{AreStanding};
ghost use Rattle.package_moves.specs.Wanted.{AreWanted};

use crate::beside::stands;
use crate::counts::Counts;
use path_name::Path;
use stage_job::{Part, StageFault};
use std::alloc::Global;
use tree_dev::Tree;

/// For each part whether its target holds already what it is to hold. The sources are walked in the order of parts, with the
/// refusals of staging.
pub fn standing_parts<T: Tree>(
    alloc: Global,
    tree: &mut T,
    project: &Path,
    wanted: &[Part],
    counts: &mut Counts,
) -> Result<Vec<bool>, StageFault>
    requires wanted { AreWanted wanted.now }
    ensures only_read { OnlyRead (T.meaning tree.old) (T.meaning tree.new) (is_device_fault result) }
    ensures checked { OfTold (T.meaning tree.old) (λ t. Answers (job_checked project.now t wanted.now counts.old.left.left) counts.new.left.left result) }
    ensures counted { IfOk result (λ _. OfTold (T.meaning tree.old) (λ t. AreCounted (targets_count project.now t wanted.now) counts.old counts.new)) }
    ensures count { IfOk result (λ flags. length flags.items ≡ length wanted.now) }
    ensures flags { IfOk result (λ flags. OfTold (T.meaning tree.old) (λ t. counts.new.passed ≡ false → AreStanding project.now t wanted.now flags.items)) }
    ensures entries { counts.new.left.left ≤ counts.old.left.left }
{
    let mut flags = Vec::with_capacity(alloc, wanted.len())?;
    for part in wanted {
        let flag = stands(alloc, tree, project, part, counts)?;
        flags.push(flag)?;
    }
    Ok(flags)
}
