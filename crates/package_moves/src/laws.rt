//! Laws of the jobs of installs, each as the contract of a function that does nothing.

ghost use Rattle.std.specs.Prelude.{◌≡◌, ◌≢◌, ◌≤◌, ◌+◌, ℕ, List, ◌++◌, length, Some, Bool, true, false};
ghost use Rattle.tree_dev.specs.Trees.{FileTree, IsTree, entry_at};
ghost use Rattle.tree_dev.specs.Projects.{file_at};
ghost use Rattle.tree_dev.specs.declared.entry.Entry.TheVariants as entries;
ghost use Rattle.stage_job.specs.Jobs.{AreParts, is_gone, job_result};
ghost use Rattle.stage_job.specs.declared.job.Part.{Part as Parts};
ghost use Rattle.stage_job.specs.declared.job.Source.TheVariants as sources;
ghost use Rattle.stage_job.specs.Written.{job_files};
ghost use Rattle.package_moves.specs.Differing.{are_bytes, differing_files};
ghost use Rattle.package_moves.specs.Found.{AreStanding};
ghost use Rattle.package_moves.specs.Moves.{HasFolders, IsAmong, IsJobFor, IsTopmost};
ghost use Rattle.package_moves.specs.Needed.{gone_part, gone_parts};
ghost use Rattle.package_moves.specs.Wanted.{AreWanted, Stands, without_vendor};

/// A job's result over the old project is that of what is wanted, and no other file is left in `vendor`.
pub fn jobs_make_the_wanted()
    ensures { (project : List (List ℕ)) (t : FileTree) (wanted parts : List Parts) (path : List (List ℕ)) → IsTree t → AreWanted wanted → AreParts project wanted → AreParts project parts
        → IsJobFor project t wanted parts → job_result project t parts (file_at t) path ≡ job_result project t wanted (without_vendor project (file_at t)) path }
{}

/// Where nothing but folders stands at `vendor` and above targets, each part of a job that does not take something away is one
/// that is wanted and does not stand. So no more is written than the wanted files, and the packages that do not stand.
pub fn parts_are_wanted()
    ensures { (project : List (List ℕ)) (t : FileTree) (wanted parts : List Parts) (part : Parts) → HasFolders project t wanted
        → IsJobFor project t wanted parts → IsAmong parts part → is_gone part.from ≡ false → IsAmong wanted part × (Stands project t part → ⊥) }
{}

/// Where nothing but folders stands at `vendor` and above targets, a job writes exactly the files of what is wanted and does
/// not stand.
pub fn jobs_write_what_differs()
    ensures { (project : List (List ℕ)) (t : FileTree) (wanted parts : List Parts) (flags : List Bool) → HasFolders project t wanted
        → IsJobFor project t wanted parts → AreStanding project t wanted flags → job_files t parts ≡ differing_files t wanted flags }
{}

/// Where packages and then written files are wanted, a job writes at most one file for each of the latter, and the mirrored
/// files of the packages that do not stand. (Nothing but folders stands at `vendor` and above targets.)
pub fn few_files_are_written()
    ensures { (project : List (List ℕ)) (t : FileTree) (packages written parts : List Parts) (flags : List Bool) → HasFolders project t (packages ++ written)
        → are_bytes written ≡ true → IsJobFor project t (packages ++ written) parts → AreStanding project t packages flags
        → job_files t parts ≤ differing_files t packages flags + length written }
{}

/// A wanted file whose target stands as a file with other bytes is a part of its own.
pub fn written_files_stand_alone()
    ensures { (project : List (List ℕ)) (t : FileTree) (wanted parts : List Parts) (part : Parts) (bytes found : List ℕ) → IsTree t → AreWanted wanted
        → IsJobFor project t wanted parts → IsAmong wanted part → part.from ≡ sources.Bytes bytes
        → entry_at t (project ++ part.target) ≡ Some (entries.File found) → found ≢ bytes → IsAmong parts part }
{}

/// A job of parts takes away exactly the topmost entries of `vendor` that no target needs.
pub fn gone_parts_are_topmost()
    ensures { (project : List (List ℕ)) (t : FileTree) (wanted : List Parts) (path : List (List ℕ)) → IsTree t → AreWanted wanted
        → (IsAmong (gone_parts project t wanted) (gone_part path) → IsTopmost project t wanted path) × (IsTopmost project t wanted path → IsAmong (gone_parts project t wanted) (gone_part path)) }
{}
