//! Laws of installs in flight, each as the contract of a function that does nothing.

ghost use Rattle.std.specs.Prelude.{◌≡◌, ◌⊎◌, ◌<◌, ◌^◌, ℕ, List, None, true, false, length};
ghost use Rattle.std.specs.FinMap as map;
ghost use Rattle.tree_dev.specs.Trees.{FileTree, IsTree};
ghost use Rattle.tree_dev.specs.Changes.{changed};
ghost use Rattle.tree_dev.specs.Projects.{is_project_part};
ghost use Rattle.tree_dev.specs.declared.change.Change.TheVariants as changes;
ghost use Rattle.install_world.specs.InFlight.{Files, IsPart, IsThere, HasFiles, HasFilesOf, HasJournal, HasSurroundings, NoJournal, IsInFlight, IsFinishedProject, HasStagedParts, AreAllDone, finished_by, job_result, kept_path, staged_path, target_path};
ghost use Rattle.install_world.specs.declared.journal.Journal.{Journal as Journals};
ghost use Rattle.install_world.specs.declared.target.Target.{Target as Targets};

/// A job that is staged whole, and whose journal stands, is in flight from the project that stands to what it makes of it.
pub fn staged_jobs_are_in_flight()
    ensures { (project : List (List ℕ)) (surroundings : FileTree) (old : Files) (puts : ℕ → Files) (t : FileTree) (journal : Journals)
        → HasJournal project t journal → HasStagedParts project journal.targets puts t → HasFiles project t old → HasSurroundings project surroundings t
        → IsInFlight project surroundings old (job_result project journal.targets puts old) t }
{}

/// The moves of a part keep a tree in flight: what stands at a target is taken away, where the part is to be gone or is
/// staged, and what is staged is put at its target.
pub fn moves_keep_in_flight()
    ensures taken { (project : List (List ℕ)) (surroundings : FileTree) (old new : Files) (t : FileTree) (journal : Journals) (stands : HasJournal project t journal)
        → length stands.text < 2 ^ 64 → IsInFlight project surroundings old new t → (number : ℕ) (target : Targets) → IsPart journal.targets number target
        → (target.gone ≡ true) ⊎ (IsThere t (staged_path project number) × IsThere t (target_path project target))
        → IsInFlight project surroundings old new (changed t (changes.Renamed (target_path project target) (kept_path project number))) }
    ensures put { (project : List (List ℕ)) (surroundings : FileTree) (old new : Files) (t : FileTree) (journal : Journals) (stands : HasJournal project t journal)
        → length stands.text < 2 ^ 64 → IsInFlight project surroundings old new t → (number : ℕ) (target : Targets) → IsPart journal.targets number target
        → target.gone ≡ false → IsThere t (staged_path project number)
        → IsInFlight project surroundings old new (changed t (changes.Renamed (staged_path project number) (target_path project target))) }
{}

/// The moves of a part leave what finishing makes of a tree, whether it is in flight or not: what stands at a target is taken
/// away, where the part is to be gone or is staged, and what is staged is put at its target.
pub fn moves_keep_what_is_finished()
    ensures taken { (project : List (List ℕ)) (t : FileTree) (journal : Journals) (stands : HasJournal project t journal) → length stands.text < 2 ^ 64
        → (number : ℕ) (target : Targets) → IsPart journal.targets number target → (target.gone ≡ true) ⊎ IsThere t (staged_path project number)
        → (path : List (List ℕ)) → is_project_part project path ≡ true
        → finished_by project journal.targets (changed t (changes.Renamed (target_path project target) (kept_path project number))) path ≡ finished_by project journal.targets t path }
    ensures put { (project : List (List ℕ)) (t : FileTree) (journal : Journals) (stands : HasJournal project t journal) → length stands.text < 2 ^ 64
        → (number : ℕ) (target : Targets) → IsPart journal.targets number target → target.gone ≡ false → IsThere t (staged_path project number)
        → (path : List (List ℕ)) → is_project_part project path ≡ true
        → finished_by project journal.targets (changed t (changes.Renamed (staged_path project number) (target_path project target))) path ≡ finished_by project journal.targets t path }
{}

/// The finished project of a tree in flight is what the job makes, whatever was done of it, where the journal stands, and
/// one of the two projects where none does. Where all parts are done, the project is what the job makes.
pub fn what_is_in_flight_is_finished()
    ensures journal { (project : List (List ℕ)) (surroundings : FileTree) (old new files : Files) (t : FileTree) (journal : Journals) (stands : HasJournal project t journal)
        → length stands.text < 2 ^ 64 → IsInFlight project surroundings old new t → IsFinishedProject project t files
        → (path : List (List ℕ)) → is_project_part project path ≡ true → files path ≡ new path }
    ensures none { (project : List (List ℕ)) (surroundings : FileTree) (old new files : Files) (t : FileTree) → NoJournal project t
        → IsInFlight project surroundings old new t → IsFinishedProject project t files
        → ((path : List (List ℕ)) → is_project_part project path ≡ true → files path ≡ old path)
        ⊎ ((path : List (List ℕ)) → is_project_part project path ≡ true → files path ≡ new path) }
    ensures done { (project : List (List ℕ)) (surroundings : FileTree) (old new : Files) (t : FileTree) (journal : Journals) (stands : HasJournal project t journal)
        → length stands.text < 2 ^ 64 → IsInFlight project surroundings old new t → IsTree t → AreAllDone project journal.targets t → HasFiles project t new }
{}

/// A tree is not in flight where what is to be put at a target is neither staged nor there.
pub fn lost_parts_are_not_in_flight()
    ensures { (project : List (List ℕ)) (surroundings : FileTree) (old new : Files) (t : FileTree) (journal : Journals) (stands : HasJournal project t journal)
        → length stands.text < 2 ^ 64 → (number : ℕ) (target : Targets) → IsPart journal.targets number target → target.gone ≡ false
        → map.get t (staged_path project number) ≡ None → (HasFilesOf t (target_path project target) new (target_path project target) → ⊥)
        → IsInFlight project surroundings old new t → ⊥ }
{}
