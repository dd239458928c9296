//! Laws of what commands answer, each as the contract of a function that does nothing.

ghost use Rattle.std.specs.Prelude.{◌≡◌, ◌⊎◌, ◌++◌, ℕ, List, Bool, IsTrue, Some, Result, Ok, Err};
ghost use Rattle.tree_dev.specs.Projects.{file_at, lock_path};
ghost use Rattle.tree_dev.specs.Trees.{FileTree, IsTree};
ghost use Rattle.tree_dev.specs.Device.{Meaning};
ghost use Rattle.tree_dev.specs.Steady.{EachImage, IsSteadily};
ghost use Rattle.tree_dev.specs.declared.limits.TheConstants.{ENTRIES};
ghost use Rattle.class_walk.specs.Walks.{AreScansOf, Walked};
ghost use Rattle.class_walk.specs.declared.job.Scanned.{Scanned};
ghost use Rattle.table_scan.specs.declared.types.Mode.TheVariants.{Authoritative, Optimised, Plain};
ghost use Rattle.table_scan.specs.declared.types.Tables.{Tables};
ghost use Rattle.autoload_build.specs.Answers.{AreFound, walks_of};
ghost use Rattle.autoload_build.specs.BuiltTables.{classes_of};
ghost use Rattle.autoload_build.specs.ClassAgreement.{IsInScanReach, IsUnambiguous};
ghost use Rattle.autoload_build.specs.Jobs.{rows};
ghost use Rattle.composer_words.specs.declared.chosen.Ways.{Ways};
ghost use Rattle.table_files.specs.NewTables.{AreNewTables};
ghost use Rattle.table_files.specs.declared.building.NewTables.{NewTables};
ghost use Rattle.install_commands.specs.Claiming.{claim_in, with_claim};
ghost use Rattle.install_commands.specs.Commanded.{IsLeft, files_made};
ghost use Rattle.install_commands.specs.declared.work.Work.{Work as Works};
ghost use Rattle.install_world.specs.InFlight.{HasFiles};
ghost use Rattle.dump_command.specs.ClassMaps.{OpenAuthoritative, OpenOptimised};
ghost use Rattle.dump_command.specs.DumpedProjects.{IsDumpedProject};
ghost use Rattle.dump_command.specs.Standing.{project_of};
ghost use Rattle.install_packages.specs.Installations.{HasNewProject, installed_files, project_in, tables_in};
ghost use Rattle.plan_rules.specs.declared.rule.Verdict.TheVariants.{Meets};
ghost use Rattle.table_files.specs.Modes.{mode_of};
ghost use Rattle.run_answers.specs.declared.refusal.Refusal.{Refusal};
ghost use Rattle.composer_top.specs.declared.report.Report.{Report as Reports};
ghost use Rattle.composer_top.specs.Completeness.{HasRun, IsStatusOf, NothingFailed, Replies};
ghost use Rattle.composer_top.specs.Opened.{AreTablesStanding, HasNewTables, HasUpdated, OpensByRows, opened_in, searched_in};
ghost use Rattle.composer_top.specs.Recovered.{IsOldOrNew, IsRecoveredFrom};
ghost use Rattle.composer_top.specs.Writing.{WritesFew};
ghost use Rattle.composer_top.specs.Outcome.{IsOutcome, Outputs, RunChanges, is_done, words_refusal};
ghost use Rattle.composer_top.specs.Outcome.Check.{check_outcome, check_report};
ghost use Rattle.composer_top.specs.Outcome.Dump.{IsDumpWork};
ghost use Rattle.composer_top.specs.Outcome.Install.{IsInstallWork, IsUpdateWork};
ghost use Rattle.composer_top.specs.Outcome.Lookup.{lookup_outcome, named};

use autoload_build::plain_tables;
use dump_command::{dumped_class_maps, dumped_projects};
use install_packages::{
    commands_install_what_they_choose, commands_make_new_projects, installations_write_few_files,
    installed_authoritative_tables, installed_locks_are_met, installed_optimised_tables,
};
use install_world::what_is_in_flight_is_finished;

/// What the words alone refuse is the one outcome over every tree.
pub fn words_first()
    ensures outcome { (t : FileTree) (now : Meaning) (words : List (List ℕ)) (refusal : Refusal) → words_refusal words ≡ Some refusal → IsOutcome t now words (Err refusal) }
    ensures one { (t : FileTree) (now : Meaning) (words : List (List ℕ)) (refusal : Refusal) → words_refusal words ≡ Some refusal
        → (answer : Result Reports Refusal) → IsOutcome t now words answer → answer ≡ Err refusal }
{}

/// Over a tree that is told, whatever is asked and whatever stands there, a run in which neither the tree nor `out` failed ends with
/// an outcome of its command, or for want of memory with 10. Where nothing is to be refused, the command is done and its lines were
/// taken; the status is 0 then, or 1 where `check` found something. A count of faults that stands at its end has no say.
pub fn runs_are_complete()
    ensures answered { (t : FileTree) (before now : Meaning) (words : List (List ℕ)) (outputs : Outputs) (status : ℕ) → HasRun t before now words outputs status
        → NothingFailed before now outputs → (status ≡ 10) ⊎ ((outcome : Result Reports Refusal) × Replies t now words outputs status outcome) }
    ensures unrefused { (t : FileTree) (before now : Meaning) (words : List (List ℕ)) (outputs : Outputs) (status : ℕ) → HasRun t before now words outputs status
        → NothingFailed before now outputs → ((refusal : Refusal) → IsOutcome t now words (Err refusal) → ⊥)
        → (status ≡ 10) ⊎ ((report : Reports) × Replies t now words outputs status (Ok report)) }
    ensures statuses { (t : FileTree) (now : Meaning) (words : List (List ℕ)) (outputs : Outputs) (status : ℕ) (report : Reports)
        → Replies t now words outputs status (Ok report) → IsStatusOf report.end status }
{}

/// Where the five table files of a project stand and no journal does, `lookup` opens for each word that names a class what these
/// tables open.
pub fn lookups_read_standing_tables()
    ensures { (project : List (List ℕ)) (u : FileTree) (tables : Tables) → AreTablesStanding project u tables
        → (word : List ℕ) → lookup_outcome u project word ≡ opened_in u tables word }
{}

/// After `install` or `update` that is done, also where its lines were not taken, the tree that is told has the new project: that of
/// the packages of the lock that stood, or of a new plan of first choices with its lock. So has each tree that a crash may leave
/// then, where each that a crash might leave at the start had the project and the surroundings of the one that was told, and no
/// journal. The five table files are read as the tables of these packages. Plain ones open for every class, whatever files there
/// are, the first listed file that declares it, and else the first file to which the rows lead it, and `lookup` there says so.
/// `check` there says that the lock, as it is read, meets every rule of composer.json.
pub fn installed_projects_look_up()
    ensures install { (project : List (List ℕ)) (ways : Ways) (t u : FileTree) (before now : Meaning) (status : ℕ) → RunChanges (IsInstallWork project ways) project t before now status
        → IsTrue (is_done status) → IsLeft project t before now u → HasNewProject project ways t u }
    ensures update { (project : List (List ℕ)) (ways : Ways) (t u : FileTree) (before now : Meaning) (status : ℕ) → RunChanges (IsUpdateWork project ways) project t before now status
        → IsTrue (is_done status) → IsLeft project t before now u → HasUpdated project ways t u }
    // The tree with the claim is one, as the clauses below ask for.
    ensures tree { (project : List (List ℕ)) (ways : Ways) (t : FileTree) (before now : Meaning) (status : ℕ)
        → RunChanges (IsInstallWork project ways) project t before now status ⊎ RunChanges (IsUpdateWork project ways) project t before now status → IsTrue (is_done status) → IsTree (with_claim project t) }
    ensures stand { (project : List (List ℕ)) (ways : Ways) (start u : FileTree) (new : HasNewProject project ways start u) → IsTree (with_claim project start)
        → AreTablesStanding project u (tables_in new.made) }
    ensures plain { (project : List (List ℕ)) (ways : Ways) (start u : FileTree) (new : HasNewProject project ways start u) → IsTree (with_claim project start)
        → mode_of ways new.choice.0.root ≡ Plain → OpensByRows (project_in new.made) new.made.found u }
    // Its files are exactly those of the packages, in their places, and the files that are written, and nothing else in `vendor`.
    ensures files { (project : List (List ℕ)) (ways : Ways) (start u : FileTree) (new : HasNewProject project ways start u) → IsTree (with_claim project start)
        → HasFiles project u (installed_files project (with_claim project start) new.made.members new.made.files (file_at (with_claim project start))) }
    // A lock that is written stands with its text.
    ensures lock { (project : List (List ℕ)) (ways : Ways) (start u : FileTree) (new : HasNewProject project ways start u) (text : List ℕ) → IsTree (with_claim project start)
        → new.choice.0.text ≡ Some text → file_at u (lock_path project) ≡ Some text }
    ensures check { (project : List (List ℕ)) (ways : Ways) (start u : FileTree) (new : HasNewProject project ways start u) → IsTree (with_claim project start)
        → (current : Bool) × (check_outcome u project ≡ Ok (check_report current Meets)) }
{
    plain_tables();
    commands_make_new_projects();
    installed_locks_are_met();
}

/// After `install` or `update` that is done, `lookup` opens with optimised tables, for each word that names an unambiguous class of the
/// tree that is left, the first listed file that declares it, and else the first file to which the rows lead it; and so it does
/// with authoritative ones, where the class is in reach of the scan.
pub fn installed_class_maps_are_looked_up()
    ensures optimised { (project : List (List ℕ)) (ways : Ways) (start u : FileTree) (new : HasNewProject project ways start u) (listed walked : List Scanned) (word name : List ℕ)
        → mode_of ways new.choice.0.root ≡ Optimised → new.made.found ≡ listed ++ walked → AreFound (with_claim project start) (project_in new.made) new.choice.1 listed walked
        → IsTree (with_claim project start) → IsTree u → named word ≡ Ok name → IsUnambiguous u (rows (project_in new.made)) (classes_of listed) name
        → lookup_outcome u project word ≡ searched_in u (rows (project_in new.made)) (classes_of listed) word }
    ensures authoritative { (project : List (List ℕ)) (ways : Ways) (start u : FileTree) (new : HasNewProject project ways start u) (listed walked : List Scanned) (word name : List ℕ)
        → mode_of ways new.choice.0.root ≡ Authoritative → new.made.found ≡ listed ++ walked → AreFound (with_claim project start) (project_in new.made) new.choice.1 listed walked
        → IsTree (with_claim project start) → IsTree u → named word ≡ Ok name → IsUnambiguous u (rows (project_in new.made)) (classes_of listed) name
        → IsInScanReach u (project_in new.made) name → lookup_outcome u project word ≡ searched_in u (rows (project_in new.made)) (classes_of listed) word }
{
    installed_optimised_tables();
    installed_authoritative_tables();
}

/// However `install` and `update` end, work that they made under their claim is an installation of the packages that they chose, and
/// where nothing but folders stands at `vendor` and above targets, at most one call of `write` was made for each mirrored file of a
/// package whose folder in `vendor` doesn't hold exactly that already, and nine more.
pub fn installs_write_few_files()
    ensures install { (project : List (List ℕ)) (ways : Ways) (t : FileTree) (before now : Meaning) (status : ℕ) (run : RunChanges (IsInstallWork project ways) project t before now status) (work : Works)
        → claim_in t project ≡ Ok tt → run.made ≡ Ok work → WritesFew project ways t before now run.left work }
    ensures update { (project : List (List ℕ)) (ways : Ways) (t : FileTree) (before now : Meaning) (status : ℕ) (run : RunChanges (IsUpdateWork project ways) project t before now status) (work : Works)
        → claim_in t project ≡ Ok tt → run.made ≡ Ok work → WritesFew project ways t before now run.left work }
{
    commands_install_what_they_choose();
    installations_write_few_files();
}

/// After `dump-autoload` that is done, also where its lines were not taken, the tree that is told has the new tables of what stood, and
/// so has each that a crash may leave then, where each that a crash might leave at the start had the project and the surroundings
/// of the one that was told, and no journal; its five table files are read as these. Plain ones open for every class, whatever files there are, the first listed
/// file that declares it, and else the first file to which the rows lead it, and `lookup` there says so. In the tree that is told
/// afterwards each package and the project's own files stand as the walks for classes read them, as laws of optimised and
/// authoritative tables ask for ([`dumped_class_maps`](dump_command::dumped_class_maps)).
pub fn dumped_projects_look_up()
    ensures made { (project : List (List ℕ)) (ways : Ways) (t u : FileTree) (before now : Meaning) (status : ℕ) → RunChanges (IsDumpWork project ways) project t before now status
        → IsTrue (is_done status) → IsLeft project t before now u → HasNewTables project ways t u }
    ensures stand { (project : List (List ℕ)) (ways : Ways) (start u : FileTree) (new : HasNewTables project ways start u)
        → (built : NewTables) × AreNewTables (with_claim project start) (project_of project new.standing) new.standing.setting ENTRIES (Ok (built, new.after)) × AreTablesStanding project u built.tables }
    ensures plain { (project : List (List ℕ)) (ways : Ways) (start u : FileTree) (new : HasNewTables project ways start u) → new.standing.setting.mode ≡ Plain
        → (walked : Walked) × (found : List Scanned) × (walks_of (with_claim project start) (project_of project new.standing) Plain ENTRIES ≡ Ok walked) × AreScansOf walked.found found
        × OpensByRows (project_of project new.standing) found u }
    // The tree with the claim is one, as the laws of class maps ask for.
    ensures tree { (project : List (List ℕ)) (ways : Ways) (t : FileTree) (before now : Meaning) (status : ℕ) → RunChanges (IsDumpWork project ways) project t before now status
        → IsTrue (is_done status) → IsTree (with_claim project t) }
    ensures shown { (project : List (List ℕ)) (ways : Ways) (t u : FileTree) (before now : Meaning) (status : ℕ) → RunChanges (IsDumpWork project ways) project t before now status
        → IsTrue (is_done status) → now.told ≡ Some u → IsTree t → IsTree u → IsDumpedProject project ways ENTRIES t u }
{
    plain_tables();
    dumped_projects();
}

/// After `dump-autoload` that is done, `lookup` opens with optimised tables, for each word that names an unambiguous class of the tree
/// that is left, the first listed file that declares it, and else the first file to which the rows lead it; and so it does with
/// authoritative ones, where the class is in reach of the scan.
pub fn dumped_class_maps_are_looked_up()
    ensures optimised { (project : List (List ℕ)) (ways : Ways) (start u : FileTree) → HasNewTables project ways start u → (dumped : IsDumpedProject project ways ENTRIES start u) → dumped.standing.setting.mode ≡ Optimised
        → (maps : OpenOptimised (with_claim project start) (project_of project dumped.standing) ENTRIES dumped.new.tables) × ((word name : List ℕ) → named word ≡ Ok name
        → IsUnambiguous u (rows (project_of project dumped.standing)) (classes_of maps.listed) name
        → lookup_outcome u project word ≡ searched_in u (rows (project_of project dumped.standing)) (classes_of maps.listed) word) }
    ensures authoritative { (project : List (List ℕ)) (ways : Ways) (start u : FileTree) → HasNewTables project ways start u → (dumped : IsDumpedProject project ways ENTRIES start u) → dumped.standing.setting.mode ≡ Authoritative
        → IsTree (with_claim project start)
        → (maps : OpenAuthoritative (with_claim project start) (project_of project dumped.standing) ENTRIES dumped.new.tables) × ((word name : List ℕ) → named word ≡ Ok name
        → IsUnambiguous u (rows (project_of project dumped.standing)) (classes_of maps.listed) name → IsInScanReach u (project_of project dumped.standing) name
        → lookup_outcome u project word ≡ searched_in u (rows (project_of project dumped.standing)) (classes_of maps.listed) word) }
{
    dumped_class_maps();
}

/// A crash at any moment of `install`, `update` and `dump-autoload`, however these end, and then `recover` that is done, leave the
/// project of before or the new one, whole, and the new one wherever a journal stood; all around it is as it was, and nothing is at
/// `.install`. After the crash the device has the tree that it left, and that tree alone. As for the commands themselves, each tree
/// that a crash may leave at the start has the project and the surroundings of the one that is told, and no journal.
pub fn crashed_runs_are_recovered()
    ensures install { (project : List (List ℕ)) (ways : Ways) (t left u : FileTree) (before now begun ended : Meaning) (status : ℕ) (run : RunChanges (IsInstallWork project ways) project t before now status)
        → EachImage before (IsSteadily project t) → IsRecoveredFrom project before now begun ended left u → IsOldOrNew project t left u (file_at t) (files_made project t run.left run.made) }
    ensures update { (project : List (List ℕ)) (ways : Ways) (t left u : FileTree) (before now begun ended : Meaning) (status : ℕ) (run : RunChanges (IsUpdateWork project ways) project t before now status)
        → EachImage before (IsSteadily project t) → IsRecoveredFrom project before now begun ended left u → IsOldOrNew project t left u (file_at t) (files_made project t run.left run.made) }
    ensures dump { (project : List (List ℕ)) (ways : Ways) (t left u : FileTree) (before now begun ended : Meaning) (status : ℕ) (run : RunChanges (IsDumpWork project ways) project t before now status)
        → EachImage before (IsSteadily project t) → IsRecoveredFrom project before now begun ended left u → IsOldOrNew project t left u (file_at t) (files_made project t run.left run.made) }
{
    what_is_in_flight_is_finished();
}
