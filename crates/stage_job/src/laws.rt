//! Laws of jobs, each as the contract of a function that does nothing.

ghost use Rattle.std.specs.Prelude.{◌≡◌, ◌≤◌, ℕ, length, List, ◌∷◌, ◌++◌, Some, false};
ghost use Rattle.std.specs.List.{slice_get};
ghost use Rattle.tree_dev.specs.Trees.{FileTree};
ghost use Rattle.tree_dev.specs.Projects.{file_at};
ghost use Rattle.stage_job.specs.Checked.{job_checked};
ghost use Rattle.stage_job.specs.Faults.{is_vanished};
ghost use Rattle.stage_job.specs.Jobs.{AreApart, AreParts, Files, job_result};
ghost use Rattle.stage_job.specs.Places.{staged_path};
ghost use Rattle.stage_job.specs.Staged.{IsStagedJob};
ghost use Rattle.stage_job.specs.Written.{mirrored_files, package_files};
ghost use Rattle.stage_job.specs.declared.job.Part.{Part as Parts};

/// Two parts whose targets are apart commute: a job makes the same of a project whichever comes first.
pub fn parts_commute()
    ensures { (project : List (List ℕ)) (t : FileTree) (first second : Parts) (parts : List Parts) (old : Files) (path : List (List ℕ)) → AreApart first.target second.target
        → job_result project t (first ∷ second ∷ parts) old path ≡ job_result project t (second ∷ first ∷ parts) old path }
{}

/// What is staged of a part that is there is what the job's result has at its target.
pub fn staged_parts_are_new()
    ensures { (project : List (List ℕ)) (t staged : FileTree) (parts : List Parts) (number : ℕ) (part : Parts) (old : Files) (below : List (List ℕ)) → AreParts project parts
        → IsStagedJob project parts t staged → slice_get parts number ≡ Some part
        → file_at staged (staged_path project number ++ below) ≡ job_result project t parts old ((project ++ part.target) ++ below) }
{}

/// What a package counts are mirrored files of the tree, each at most once.
pub fn counted_files_are_mirrored()
    ensures { (t : FileTree) (source : List (List ℕ)) → package_files t source ≤ length (mirrored_files t source) }
{}

/// The sources of a job over a tree are never refused as vanished, so staging over a tree that tells never answers that.
pub fn checks_never_vanish()
    ensures { (project : List (List ℕ)) (t : FileTree) (parts : List Parts) (left : ℕ) → is_vanished (job_checked project t parts left) ≡ false }
{}
