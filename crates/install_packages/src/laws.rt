//! Laws of what the commands install, each as the contract of a function that does nothing.

ghost use Rattle.std.specs.Prelude.{◌≡◌, ◌≢◌, ◌<◌, ◌≤◌, ◌^◌, ◌+◌, ◌++◌, ◌⊎◌, ℕ, List, [], Bool, true, false, Some, None, is_some, Result, Ok};
ghost use Rattle.std.specs.FinMap as map;
ghost use Rattle.tree_dev.specs.Projects.{file_at, is_within, lock_path, vendor_path, work_path};
ghost use Rattle.tree_dev.specs.Trees.{FileTree, IsTree};
ghost use Rattle.tree_dev.specs.Device.{Meaning};
ghost use Rattle.tree_dev.specs.declared.limits.TheConstants.{ENTRIES};
ghost use Rattle.composer_words.specs.declared.chosen.Ways.{Ways};
ghost use Rattle.stage_job.specs.Jobs.{Files, job_result};
ghost use Rattle.project_files.specs.ProjectLock.{project_lock_in};
ghost use Rattle.project_files.specs.ProjectManifest.{project_manifest_in};
ghost use Rattle.project_files.specs.States.{generation_in};
ghost use Rattle.project_files.specs.declared.manifests.ProjectManifest.{ProjectManifest as Manifests};
ghost use Rattle.install_choice.specs.Choosing.{IsChosenToInstall, IsChosenToUpdate};
ghost use Rattle.install_choice.specs.Warnings.{warning_in};
ghost use Rattle.install_choice.specs.declared.chosen.Chosen.{Chosen};
ghost use Rattle.run_answers.specs.declared.refusal.Refusal.{Refusal};
ghost use Rattle.install_commands.specs.Claiming.{with_claim};
ghost use Rattle.install_commands.specs.Commanded.{Commanded, IsLeft};
ghost use Rattle.install_commands.specs.declared.work.Work.{Work as Works};
ghost use Rattle.table_files.specs.declared.building.Setting.{Setting};
ghost use Rattle.install_packages.specs.Installations.{ArePackagesAt, ArePackagesShown, AreWrittenAt, HasNewProject, Installation, IsOffTargets, installed_files, kept_choice, project_in, tables_in};
ghost use Rattle.class_lookup.specs.Lookup.{has_file, lookup_in};
ghost use Rattle.class_paths.specs.ClassNames.{IsClassName};
ghost use Rattle.class_paths.specs.Search.{listed_file, search_file};
ghost use Rattle.class_walk.specs.declared.job.Scanned.{Scanned};
ghost use Rattle.table_scan.specs.TableFaults as grammar;
ghost use Rattle.table_scan.specs.declared.types.Mode.TheVariants.{Authoritative, Optimised, Plain};
ghost use Rattle.autoload_build.specs.Answers.{AreFound};
ghost use Rattle.autoload_build.specs.BuiltTables.{classes_of};
ghost use Rattle.autoload_build.specs.ClassAgreement.{IsInScanReach, IsUnambiguous};
ghost use Rattle.autoload_build.specs.Jobs.{rows};
ghost use Rattle.install_world.specs.InFlight.{HasFiles};
ghost use Rattle.lock_file.specs.LockText.{lock_text};
ghost use Rattle.package_moves.specs.Found.{AreStanding};
ghost use Rattle.package_moves.specs.Moves.{HasFolders};
ghost use Rattle.install_writes.specs.FewWrites.{differing_mirrored};
ghost use Rattle.stage_job.specs.Written.{after_more};
ghost use Rattle.install_choice.specs.LockLaws.{HasNewLock, IsMet};
ghost use Rattle.install_commands.specs.Working.{writes_of};
ghost use Rattle.table_files.specs.Modes.{mode_of};
ghost use Rattle.table_files.specs.Readable.{texts_at, texts_of};
ghost use Rattle.table_files.specs.Written.{parts_of};
ghost use Rattle.install_packages.specs.InstallParts.{copy_parts};
ghost use Rattle.install_packages.specs.Installing.{IsInstall, IsUpdate, setting_of};

use autoload_build::{
    authoritative_tables, optimised_tables, plain_tables, walks_of_rows_come_last,
};
use install_choice::updates_take_first_choices;

/// What a command commits is an installation of the packages that it chose, and claiming changes no file.
pub fn commands_install_what_they_choose()
    ensures install { (at : List (List ℕ)) (ways : Ways) (left after : ℕ) (t : FileTree) (work : Works) → IsInstall at ways left t after (Ok work)
        → (choice : Chosen × ℕ) × IsChosenToInstall t at left (Ok choice) × Installation t at choice.0 (setting_of ways choice.0.root (generation_in t at)) choice.1 after work }
    ensures update { (at : List (List ℕ)) (ways : Ways) (left after : ℕ) (t : FileTree) (work : Works) → IsUpdate at ways left t after (Ok work)
        → (choice : Chosen × ℕ) × IsChosenToUpdate t at left (Ok choice) × Installation t at choice.0 (setting_of ways choice.0.root (generation_in t at)) choice.1 after work }
    ensures claimed { (at : List (List ℕ)) (t : FileTree) (path : List (List ℕ)) → map.get t (work_path at) ≡ None → file_at (with_claim at t) path ≡ file_at t path }
{}

/// The tree that is told once a command answered its lines has the project that it made: an installation of the packages that it
/// chose, in the surroundings of before. So has each tree that a crash may leave then, where each that a crash might leave at the
/// start had the project and the surroundings of the one that was told, and no journal.
pub fn commands_make_new_projects()
    ensures install { (at : List (List ℕ)) (ways : Ways) (start u : FileTree) (before now : Meaning) (lines : List ℕ) → Commanded (IsInstall at ways ENTRIES) at start before now (Ok lines)
        → IsLeft at start before now u → HasNewProject at ways start u }
    ensures update { (at : List (List ℕ)) (ways : Ways) (start u : FileTree) (before now : Meaning) (lines : List ℕ) → Commanded (IsUpdate at ways ENTRIES) at start before now (Ok lines)
        → IsLeft at start before now u → HasNewProject at ways start u }
{}

/// The tree with the claim, of which the laws of such projects speak, is a tree where the one at the start is, and has room for
/// one more entry.
pub fn claimed_projects_are_trees()
    ensures { (at : List (List ℕ)) (ways : Ways) (start u : FileTree) (new : HasNewProject at ways start u) → IsTree start → map.len start + 1 < 2 ^ 32 → IsTree (with_claim at start) }
{}

/// The job of a command that answers its lines is never empty: the state of the tables is written each time, since its generation
/// is a new one.
pub fn commands_always_commit()
    ensures install { (at : List (List ℕ)) (ways : Ways) (left after : ℕ) (t : FileTree) (work : Works) → IsTree t → IsInstall at ways left t after (Ok work) → work.job.parts ≢ [] }
    ensures update { (at : List (List ℕ)) (ways : Ways) (left after : ℕ) (t : FileTree) (work : Works) → IsTree t → IsUpdate at ways left t after (Ok work) → work.job.parts ≢ [] }
{}

/// What an installation's job makes of a project is the new one: the copy of each package, each written file in its place,
/// nothing else in `vendor`, and elsewhere the files of before.
pub fn installations_make_the_new_project()
    ensures result { (t : FileTree) (at : List (List ℕ)) (chosen : Chosen) (setting : Setting) (left after : ℕ) (work : Works) (made : Installation t at chosen setting left after work)
        (path : List (List ℕ)) → IsTree t → job_result at t work.job.parts (file_at t) path ≡ installed_files at t made.members made.files (file_at t) path }
    ensures packages { (t : FileTree) (at : List (List ℕ)) (chosen : Chosen) (setting : Setting) (left after : ℕ) (work : Works) (made : Installation t at chosen setting left after work)
        (old : Files) → ArePackagesAt at t (installed_files at t made.members made.files old) made.members }
    ensures written { (t : FileTree) (at : List (List ℕ)) (chosen : Chosen) (setting : Setting) (left after : ℕ) (work : Works) (made : Installation t at chosen setting left after work)
        (old : Files) → AreWrittenAt at (installed_files at t made.members made.files old) made.files }
    ensures nothing_else { (t : FileTree) (at : List (List ℕ)) (chosen : Chosen) (setting : Setting) (left after : ℕ) (work : Works) (made : Installation t at chosen setting left after work)
        (old : Files) (path : List (List ℕ)) → IsOffTargets at made.members made.files path → is_within (vendor_path at) path ≡ true → installed_files at t made.members made.files old path ≡ None }
    ensures others { (t : FileTree) (at : List (List ℕ)) (chosen : Chosen) (setting : Setting) (left after : ℕ) (work : Works) (made : Installation t at chosen setting left after work)
        (old : Files) (path : List (List ℕ)) → IsOffTargets at made.members made.files path → is_within (vendor_path at) path ≡ false → installed_files at t made.members made.files old path ≡ old path }
{}

/// The table files of an installed project are read as the tables of its packages, also where a command made it; and plain ones
/// open, for every class and whatever files there are, the first listed file that declares it, and else the first file to which
/// the rows lead it.
pub fn installed_tables()
    ensures read { (t : FileTree) (at : List (List ℕ)) (chosen : Chosen) (setting : Setting) (left after : ℕ) (work : Works) (made : Installation t at chosen setting left after work)
        (old : Files) → grammar.tables_of at (texts_of at (installed_files at t made.members made.files old)) ≡ Ok (tables_in made) }
    ensures stand { (at : List (List ℕ)) (ways : Ways) (start u : FileTree) (new : HasNewProject at ways start u) → IsTree (with_claim at start)
        → grammar.tables_of at (texts_at at u) ≡ Ok (tables_in new.made) }
    ensures plain { (t : FileTree) (at : List (List ℕ)) (chosen : Chosen) (setting : Setting) (left after : ℕ) (work : Works) (made : Installation t at chosen setting left after work)
        (is_file : List (List ℕ) → Bool) (name : List ℕ) → setting.mode ≡ Plain
        → lookup_in (tables_in made) is_file name ≡ search_file is_file (rows (project_in made)) (classes_of made.found) name }
{
    plain_tables();
}

/// The lock that stands in a project that a command made is read as that of the packages that were chosen, and all of them
/// together, those for development too, are a valid plan for the composer.json that stands.
pub fn installed_locks_are_met()
    ensures read { (at : List (List ℕ)) (ways : Ways) (start u : FileTree) (new : HasNewProject at ways start u) → IsTree (with_claim at start) → project_lock_in u at ≡ Ok new.choice.0.lock }
    ensures met { (at : List (List ℕ)) (ways : Ways) (start u : FileTree) (new : HasNewProject at ways start u) → IsMet at new.choice.0.root new.choice.0.lock }
    ensures root { (at : List (List ℕ)) (ways : Ways) (start u : FileTree) (new : HasNewProject at ways start u)
        → (manifest : Manifests) × (project_manifest_in u at ≡ Ok manifest) × (new.choice.0.root ≡ manifest.root) }
{}

/// Right after a command that answered its lines `install` takes the lock that stands, and is not refused by it; after an update it
/// doesn't warn that this lock is out of date.
pub fn installs_again_take_the_lock()
    ensures taken { (at : List (List ℕ)) (ways : Ways) (start u : FileTree) (new : HasNewProject at ways start u) (more : ℕ) (made : Result (Chosen × ℕ) Refusal)
        → IsTree (with_claim at start) → IsChosenToInstall (with_claim at u) at more made → made ≡ Ok (kept_choice new.choice.0, more) }
    ensures unwarned { (at : List (List ℕ)) (ways : Ways) (start u : FileTree) (new : HasNewProject at ways start u)
        → IsTree (with_claim at start) → IsChosenToUpdate (with_claim at start) at ENTRIES (Ok new.choice) → warning_in (with_claim at u) at ≡ [] }
{}

/// After an update the lock that stands is the text of the lock of the first-choice plan; a lock that is written at all stands
/// with its text.
pub fn new_locks_stand()
    ensures lock { (t : FileTree) (at : List (List ℕ)) (chosen : Chosen) (setting : Setting) (left after : ℕ) (work : Works) (made : Installation t at chosen setting left after work)
        (old : Files) (text : List ℕ) → chosen.text ≡ Some text → installed_files at t made.members made.files old (lock_path at) ≡ Some text }
    ensures update { (at : List (List ℕ)) (ways : Ways) (left after : ℕ) (t : FileTree) (work : Works) → IsTree t → IsUpdate at ways left t after (Ok work)
        → (chosen : Chosen) × HasNewLock t at left chosen × (job_result at t work.job.parts (file_at t) (lock_path at) ≡ Some (lock_text chosen.lock)) }
{
    updates_take_first_choices();
}

/// An installation makes at most one call of `write` for each mirrored file of a package whose folder in `vendor` doesn't hold
/// exactly that already, and nine more: for five tables, `installed.json`, the autoloader, the lock and the journal. `begun` and
/// `committed` are the counts of such calls before and after. It speaks of projects where nothing but folders stands at `vendor`
/// and above targets.
pub fn installations_write_few_files()
    ensures { (t : FileTree) (at : List (List ℕ)) (chosen : Chosen) (setting : Setting) (left after : ℕ) (work : Works) (made : Installation t at chosen setting left after work)
        (flags : List Bool) (begun committed : ℕ) → HasFolders at t (copy_parts made.members ++ parts_of made.files) → AreStanding at t (copy_parts made.members) flags
        → committed ≤ after_more begun (writes_of t (Ok work)) → committed ≤ after_more begun (differing_mirrored t (copy_parts made.members) flags + 9) }
{}

/// Where an installed project stands in a tree, each package stands in its place as the walks for its classes saw it, as laws of
/// optimised and authoritative tables ask for ([`optimised_tables`](autoload_build::optimised_tables)).
pub fn installed_packages_are_shown()
    ensures { (t u : FileTree) (at : List (List ℕ)) (chosen : Chosen) (setting : Setting) (left after : ℕ) (work : Works) (made : Installation t at chosen setting left after work)
        → IsTree t → IsTree u → HasFiles at u (job_result at t work.job.parts (file_at t)) → ArePackagesShown t u made.members }
{}

/// Optimised tables of a project that a command made open the same file as plain ones for each class that is unambiguous in the
/// tree in which the project stands; and whatever files there are, for each class that is listed and for each that the walks of
/// the folders of rows don't find. What these find stands behind what the walks of listed paths find. The tree with the claim is
/// one, as each is that a device tells.
pub fn installed_optimised_tables()
    ensures parts { (t : FileTree) (at : List (List ℕ)) (chosen : Chosen) (setting : Setting) (left after : ℕ) (work : Works) (made : Installation t at chosen setting left after work)
        → setting.mode ≡ Optimised → (listed : List Scanned) × (walked : List Scanned) × (made.found ≡ listed ++ walked) × AreFound t (project_in made) left listed walked }
    ensures unambiguous { (at : List (List ℕ)) (ways : Ways) (start u : FileTree) (new : HasNewProject at ways start u) (listed walked : List Scanned) (name : List ℕ)
        → mode_of ways new.choice.0.root ≡ Optimised → new.made.found ≡ listed ++ walked → AreFound (with_claim at start) (project_in new.made) new.choice.1 listed walked
        → IsTree (with_claim at start) → IsTree u → IsUnambiguous u (rows (project_in new.made)) (classes_of listed) name
        → lookup_in (tables_in new.made) (has_file u) name ≡ search_file (has_file u) (rows (project_in new.made)) (classes_of listed) name }
    ensures others { (t : FileTree) (at : List (List ℕ)) (chosen : Chosen) (setting : Setting) (left after : ℕ) (work : Works) (made : Installation t at chosen setting left after work)
        (listed walked : List Scanned) (is_file : List (List ℕ) → Bool) (name : List ℕ) → setting.mode ≡ Optimised → made.found ≡ listed ++ walked
        → (is_some (listed_file (classes_of listed) name) ≡ true) ⊎ (listed_file (classes_of walked) name ≡ None)
        → lookup_in (tables_in made) is_file name ≡ search_file is_file (rows (project_in made)) (classes_of listed) name }
{
    walks_of_rows_come_last();
    optimised_tables();
}

/// Authoritative tables of a project that a command made open the file that the class map has for a class, and for no other class
/// a file. They open the same file as plain ones for each class that is unambiguous in the tree in which the project stands, and
/// there in reach of the scan.
pub fn installed_authoritative_tables()
    ensures parts { (t : FileTree) (at : List (List ℕ)) (chosen : Chosen) (setting : Setting) (left after : ℕ) (work : Works) (made : Installation t at chosen setting left after work)
        → setting.mode ≡ Authoritative → (listed : List Scanned) × (walked : List Scanned) × (made.found ≡ listed ++ walked) × AreFound t (project_in made) left listed walked }
    ensures mapped { (t : FileTree) (at : List (List ℕ)) (chosen : Chosen) (setting : Setting) (left after : ℕ) (work : Works) (made : Installation t at chosen setting left after work)
        (is_file : List (List ℕ) → Bool) (name : List ℕ) → setting.mode ≡ Authoritative → lookup_in (tables_in made) is_file name ≡ listed_file (classes_of made.found) name }
    ensures in_reach { (at : List (List ℕ)) (ways : Ways) (start u : FileTree) (new : HasNewProject at ways start u) (listed walked : List Scanned) (name : List ℕ)
        → mode_of ways new.choice.0.root ≡ Authoritative → new.made.found ≡ listed ++ walked → AreFound (with_claim at start) (project_in new.made) new.choice.1 listed walked
        → IsTree (with_claim at start) → IsTree u → IsClassName name → IsUnambiguous u (rows (project_in new.made)) (classes_of listed) name → IsInScanReach u (project_in new.made) name
        → lookup_in (tables_in new.made) (has_file u) name ≡ search_file (has_file u) (rows (project_in new.made)) (classes_of listed) name }
{
    walks_of_rows_come_last();
    authoritative_tables();
}
