//! Laws of the calls of an install in their order, each as the contract of a function that does nothing.

ghost use Rattle.std.specs.Prelude.{◌≡◌, List, ℕ, None};
ghost use Rattle.std.specs.FinMap as map;
ghost use Rattle.tree_dev.specs.Trees.{FileTree, IsTree};
ghost use Rattle.tree_dev.specs.Changes.{changed};
ghost use Rattle.tree_dev.specs.Device.{Meaning};
ghost use Rattle.tree_dev.specs.Projects.{file_at, work_path};
ghost use Rattle.tree_dev.specs.Steady.{EachImage, IsSteadily, Steady, Through};
ghost use Rattle.tree_dev.specs.declared.change.Change.TheVariants as changes;
ghost use Rattle.install_world.specs.InFlight.{IsInFlight};
ghost use Rattle.install_world.specs.Moving.{Way};
ghost use Rattle.install_world.specs.Recovery.{IsNewProject};
ghost use Rattle.stage_job.specs.Jobs.{job_result};
ghost use Rattle.stage_job.specs.Staged.{IsClaimed, IsStagedJob};
ghost use Rattle.stage_job.specs.declared.job.Part.{Part as Parts};
ghost use Rattle.vendor_journal.specs.Committing.{IsReady};
ghost use Rattle.vendor_journal.specs.JobTargets.{install_way, journal_for, puts_of};
ghost use Rattle.vendor_journal.specs.Prepared.{IsPrepared};
ghost use Rattle.vendor_journal.specs.declared.prepared.Prepared.{Prepared as Prepareds};

/// What a claim leaves is what staging begins with: `.install` is an empty folder.
pub fn claimed_projects_can_be_staged()
    ensures { (project : List (List ℕ)) (t : FileTree) → IsTree t → map.get t (work_path project) ≡ None
        → IsClaimed project (changed t (changes.FolderMade (work_path project))) }
{}

/// Claiming and staging keep the project, its surroundings, and that no journal stands. What they leave, once the job is
/// staged whole and prepared, is what a commit begins with: its way leads from the project as it was at the start to what
/// the job makes of it. Until then each moment is in flight on that way.
pub fn staged_jobs_are_ready()
    ensures ready { (project : List (List ℕ)) (start t staged : FileTree) (begun now : Meaning) (parts : List Parts) (generation : ℕ) (prepared : Prepareds)
        → EachImage begun (IsSteadily project start) → Steady project begun now → EachImage now (λ left. left ≡ staged) → IsStagedJob project parts t staged
        → IsPrepared project (journal_for parts generation) prepared → IsReady (install_way project start t parts generation) (puts_of t parts) prepared staged }
    ensures through { (project : List (List ℕ)) (start t : FileTree) (begun now : Meaning) (parts : List Parts) (generation : ℕ)
        → EachImage begun (IsSteadily project start) → Steady project begun now
        → Through begun now (IsInFlight project start (file_at start) (install_way project start t parts generation).new) }
    ensures new { (project : List (List ℕ)) (start t : FileTree) (parts : List Parts) (generation : ℕ) (path : List (List ℕ))
        → (install_way project start t parts generation).new path ≡ job_result project t parts (file_at start) path }
{}

/// Where staging refuses a job after a claim, and the claim is released, each moment has the project and the surroundings of
/// the start, and no journal.
pub fn refused_installs_leave_the_project()
    ensures { (project : List (List ℕ)) (start : FileTree) (begun claimed staged released : Meaning) → EachImage begun (IsSteadily project start)
        → Steady project begun claimed → Steady project claimed staged → Steady project staged released → Through begun released (IsSteadily project start) }
{}

/// While the claim of a commit that was made is released, each moment has the new project and the surroundings, and no journal.
pub fn committed_installs_stay()
    ensures { (way : Way) (committed released : Meaning) → EachImage committed (IsNewProject way) → Steady way.project committed released
        → Through committed released (IsNewProject way) }
{}
