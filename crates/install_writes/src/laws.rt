//! The law of how many files an install writes, as the contract of a function that does nothing.

ghost use Rattle.std.specs.Prelude.{◌≡◌, ◌≤◌, ◌+◌, ◌++◌, ℕ, List, length, Bool, true};
ghost use Rattle.tree_dev.specs.Device.{next};
ghost use Rattle.tree_dev.specs.Trees.{FileTree};
ghost use Rattle.stage_job.specs.Written.{after_more, job_files};
ghost use Rattle.stage_job.specs.declared.job.Part.{Part as Parts};
ghost use Rattle.package_moves.specs.Differing.{are_bytes};
ghost use Rattle.package_moves.specs.Found.{AreStanding};
ghost use Rattle.package_moves.specs.Moves.{HasFolders, IsJobFor};
ghost use Rattle.install_writes.specs.FewWrites.{are_copies, differing_mirrored};

/// An install of packages and then of written files makes at most one call of `write` for each mirrored file of a package
/// that does not stand, one for each written file, and one for the journal. `begun`, `staged` and `committed` are the counts
/// of such calls before its job is staged, then, and once it is committed. It speaks of projects where nothing but folders
/// stands at `vendor` and above targets.
pub fn installs_write_few_files()
    ensures { (project : List (List ℕ)) (t : FileTree) (packages written parts : List Parts) (flags : List Bool) (begun staged committed : ℕ)
        → HasFolders project t (packages ++ written) → are_copies packages ≡ true → are_bytes written ≡ true
        → IsJobFor project t (packages ++ written) parts → AreStanding project t packages flags
        → staged ≡ after_more begun (job_files t parts) → committed ≡ next staged
        → committed ≤ after_more begun (differing_mirrored t packages flags + length written + 1) }
{}
