//! Laws of what is chosen, each as the contract of a function that does nothing.

ghost use Rattle.std.specs.Prelude.{◌≡◌, ℕ, List, Some, None, Result, Ok, Err};
ghost use Rattle.tree_dev.specs.Projects.{lock_path};
ghost use Rattle.tree_dev.specs.Trees.{FileTree, read_at};
ghost use Rattle.tree_dev.specs.declared.entry.ReadAnswer.TheVariants as answers;
ghost use Rattle.tree_dev.specs.declared.limits.TheConstants.{FILE_BYTES};
ghost use Rattle.lock_file.specs.LockText.{lock_text};
ghost use Rattle.project_files.specs.ProjectLock.{project_lock_in};
ghost use Rattle.lock_file.specs.declared.types.Lock.{Lock as Locks};
ghost use Rattle.run_answers.specs.declared.refusal.Refusal.{Refusal};
ghost use Rattle.run_answers.specs.declared.refusal.Refusal.TheVariants as refusals;
ghost use Rattle.install_choice.specs.Choosing.{IsChosenToInstall, IsChosenToUpdate, standing_lock_in};
ghost use Rattle.install_choice.specs.LockLaws.{HasMetLock, HasNewLock, HasNoValidSet, IsMet};
ghost use Rattle.install_choice.specs.declared.chosen.Chosen.{Chosen as Choice};

/// What `update` chooses is the plan of first choices among the packages of the root's repositories, and its lock, whose text
/// is read as that lock again.
pub fn updates_take_first_choices()
    ensures { (t : FileTree) (at : List (List ℕ)) (left : ℕ) (made : Choice × ℕ) → IsChosenToUpdate t at left (Ok made) → HasNewLock t at left made.0 }
{}

/// `update` answers `NoPlan` exactly where the packages are read and no set of them is valid.
pub fn no_plan_is_no_valid_set()
    ensures none { (t : FileTree) (at : List (List ℕ)) (left : ℕ) → IsChosenToUpdate t at left (Err refusals.NoPlan) → HasNoValidSet t at left }
    ensures only { (t : FileTree) (at : List (List ℕ)) (left : ℕ) (made : Result (Choice × ℕ) Refusal) → HasNoValidSet t at left → IsChosenToUpdate t at left made → made ≡ Err refusals.NoPlan }
{}

/// A lock from which `install` takes its packages is left as it stands, and all of them together are a valid plan.
pub fn standing_locks_are_met()
    ensures { (t : FileTree) (at : List (List ℕ)) (left : ℕ) (lock : Locks) (made : Choice × ℕ) → standing_lock_in t at ≡ Ok (Some lock) → IsChosenToInstall t at left (Ok made) → HasMetLock t at lock made.0 }
{}

/// Without a lock `install` chooses what `update` chooses.
pub fn installs_without_a_lock_update()
    ensures { (t : FileTree) (at : List (List ℕ)) (left : ℕ) (made : Result (Choice × ℕ) Refusal) → standing_lock_in t at ≡ Ok None → IsChosenToInstall t at left made → IsChosenToUpdate t at left made }
{}

/// The lock of a new plan is met, as one that stands is: all its packages together are a valid plan for composer.json. Where
/// its text stands at composer.lock, and is no longer than a file may be, it is read as that lock.
pub fn new_locks_are_met()
    ensures met { (t : FileTree) (at : List (List ℕ)) (left : ℕ) (chosen : Choice) → HasNewLock t at left chosen → IsMet at chosen.root chosen.lock }
    ensures read { (t u : FileTree) (at : List (List ℕ)) (left : ℕ) (chosen : Choice) → HasNewLock t at left chosen
        → read_at u (lock_path at) FILE_BYTES ≡ answers.Bytes (lock_text chosen.lock) → project_lock_in u at ≡ Ok chosen.lock }
{}
