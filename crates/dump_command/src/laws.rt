//! What tables that were dumped open, each as the contract of a function that does nothing.

ghost use Rattle.std.specs.FinMap as map;
ghost use Rattle.std.specs.Prelude.{◌≡◌, ℕ, List, Bool, None, Result, Ok};
ghost use Rattle.tree_dev.specs.Projects.{work_path};
ghost use Rattle.tree_dev.specs.Trees.{FileTree, IsTree};
ghost use Rattle.composer_words.specs.declared.chosen.Ways.{Ways};
ghost use Rattle.install_world.specs.InFlight.{Files, HasFiles};
ghost use Rattle.stage_job.specs.Jobs.{job_result};
ghost use Rattle.class_paths.specs.Search.{search_file};
ghost use Rattle.class_lookup.specs.Lookup.{lookup_in};
ghost use Rattle.class_walk.specs.Walks.{AreScansOf, Walked};
ghost use Rattle.class_walk.specs.declared.job.Scanned.{Scanned};
ghost use Rattle.table_scan.specs.TableFaults as grammar;
ghost use Rattle.table_scan.specs.declared.types.Mode.TheVariants.{Authoritative, Optimised, Plain};
ghost use Rattle.autoload_build.specs.Answers.{walks_of};
ghost use Rattle.autoload_build.specs.BuiltTables.{classes_of};
ghost use Rattle.autoload_build.specs.Jobs.{HasReadManifests, rows};
ghost use Rattle.table_files.specs.NewTables.{AreNewTables};
ghost use Rattle.table_files.specs.Readable.{texts_at};
ghost use Rattle.table_files.specs.declared.building.NewTables.{NewTables};
ghost use Rattle.run_answers.specs.Steps.{TellsOne};
ghost use Rattle.run_answers.specs.declared.refusal.Refusal.{Refusal};
ghost use Rattle.install_commands.specs.Claiming.{with_claim};
ghost use Rattle.install_commands.specs.Commanded.{files_made, outcome_of_work};
ghost use Rattle.install_commands.specs.Working.{IsInstalled};
ghost use Rattle.install_commands.specs.declared.work.Work.{Work};
ghost use Rattle.dump_command.specs.ClassMaps.{OpenAuthoritative, OpenOptimised};
ghost use Rattle.dump_command.specs.DumpedProjects.{IsDumpedProject};
ghost use Rattle.dump_command.specs.Dumping.{IsDumped, IsStandingWork};
ghost use Rattle.dump_command.specs.Standing.{project_of};
ghost use Rattle.dump_command.specs.declared.standing.Standing.{Standing};

use autoload_build::{
    authoritative_tables, optimised_tables, plain_tables, walks_of_rows_come_last,
};

/// Where the work of `dump-autoload` stands in a project, the five table files are read as the tables of what stood, whatever
/// else the tree holds; and plain ones open, for every class and whatever files there are, the first listed file that declares
/// it, and else the first file to which the rows lead it.
pub fn dumped_tables()
    ensures read { (project : List (List ℕ)) (t u : FileTree) (left after : ℕ) (standing : Standing) (work : Work) (old : Files) →
        IsStandingWork t project left after standing (Ok work) → HasFiles project u (job_result project t work.job.parts old) →
        (new : NewTables) × AreNewTables t (project_of project standing) standing.setting left (Ok (new, after))
        × (new.generation ≡ work.generation) × (grammar.tables_of project (texts_at project u) ≡ Ok new.tables) }
    ensures plain { (project : List (List ℕ)) (t : FileTree) (left after : ℕ) (standing : Standing) (new : NewTables) (is_file : List (List ℕ) → Bool) (name : List ℕ) →
        AreNewTables t (project_of project standing) standing.setting left (Ok (new, after)) → standing.setting.mode ≡ Plain →
        (walked : Walked) × (found : List Scanned) × (walks_of t (project_of project standing) Plain left ≡ Ok walked) × AreScansOf walked.found found
        × (lookup_in new.tables is_file name ≡ search_file is_file (rows (project_of project standing)) (classes_of found) name) }
{
    plain_tables();
}

/// Optimised tables that were dumped have in their class map each class with the first file that was found to declare it. They open
/// the same file as the rows and the listed files say for each unambiguous class, in a tree in which the packages stand in their
/// places as the walks read them; and whatever files there are, for each class that is listed and for each that the walks of the
/// folders of rows don't find. Authoritative ones open what the class map has, which is the same file for each unambiguous class
/// in reach of the scan.
pub fn dumped_class_maps()
    ensures optimised { (project : List (List ℕ)) (t : FileTree) (left after : ℕ) (standing : Standing) (new : NewTables) →
        AreNewTables t (project_of project standing) standing.setting left (Ok (new, after)) → standing.setting.mode ≡ Optimised →
        OpenOptimised t (project_of project standing) left new.tables }
    ensures authoritative { (project : List (List ℕ)) (t : FileTree) (left after : ℕ) (standing : Standing) (new : NewTables) →
        AreNewTables t (project_of project standing) standing.setting left (Ok (new, after)) → standing.setting.mode ≡ Authoritative →
        IsTree t → HasReadManifests (project_of project standing) → OpenAuthoritative t (project_of project standing) left new.tables }
{
    optimised_tables();
    authoritative_tables();
    walks_of_rows_come_last();
}

/// What `dump-autoload` leaves where it ends well: the table files are read as the new tables of what stood at the start, and each
/// package, and what is the project's own, stands as the walks for its classes read it, as [`dumped_class_maps`] asks for. The
/// premises are what the contract of [`dump_autoload`](crate::dump_autoload) says of a run with lines, whose work in the claimed
/// tree is this: u is the tree that is told then, and `start` the one before.
pub fn dumped_projects()
    ensures { (project : List (List ℕ)) (ways : Ways) (entries : ℕ) (start u : FileTree) (left : ℕ) (made : Result Work Refusal) (lines : List ℕ) →
        IsTree start → IsTree u → map.get u (work_path project) ≡ None →
        TellsOne (λ work. work) (IsDumped project ways entries (with_claim project start) left) made → outcome_of_work project start left made ≡ Ok lines →
        IsInstalled project start (files_made project start left made) u → IsDumpedProject project ways entries start u }
{}
