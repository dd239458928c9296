//! A whole run: from the words to the status.

ghost use Rattle.std.specs.Prelude.{◌≡◌, ◌⊎◌, List, ℕ, true, false, map, nat_eq, None, IfOk, IfErr, IsTrue};
ghost use Rattle.std.specs.String.{string_bytes};
ghost use Rattle.tree_dev.specs.Trees.{FileTree};
ghost use Rattle.composer_words.specs.declared.chosen.Ways.{Ways};
ghost use Rattle.tree_dev.specs.Device.{OnlyRead, OfTold, Rose};
ghost use Rattle.tree_dev.specs.Steady.{EachImage};
ghost use Rattle.install_world.specs.InFlight.{Files, IsInFlight};
ghost use Rattle.install_world.specs.Recovery.{CanRecover};
ghost use Rattle.install_commands.specs.Recovering.{Recovers};
ghost use Rattle.run_answers.specs.Faults.{is_of_tree};
ghost use Rattle.run_answers.specs.Steps.{TellsOne, is_free_result};
ghost use Rattle.install_choice.specs.Warnings.{MayWarn, TakesText};
ghost use Rattle.install_packages.specs.Installing.{install_warning};
ghost use Rattle.composer_top.specs.Chosen.{ChooseDump, ChooseInstall, ChooseRecovery, ChooseUpdate, chosen_in, only_reads};
ghost use Rattle.composer_top.specs.Outcome.{KeepsToWords, IsOutcome, IsTaskOutcome, Performs, PerformsChosen, task_refusal, words_refusal, path_line, Ends, EndsBehind, EndsByWords, EndsWithAnswer, IsFinding, RunChanges, is_done, is_free_status, is_unrefused};
ghost use Rattle.composer_top.specs.Outcome.Change.{IsChange};
ghost use Rattle.composer_top.specs.Outcome.Dump.{Dumped, FewWrites, IsDump, IsDumpWork};
ghost use Rattle.composer_top.specs.Outcome.Install.{IsInstallWork, IsUpdateWork, MayWarnChosen, MayWarnTask, Renews, WarnsChosen, WarnsTask};
ghost use Rattle.composer_top.specs.Outcome.Recover.{IsRecovery, Recovery};

use crate::check::check;
use crate::chosen::chosen;
use crate::files::files;
use crate::lookup::lookup;
use crate::report::{Report, conclude};
use composer_words::{Task, Ways};
use dump_command::dump_autoload;
use install_commands::recover;
use install_packages::{install, update};
use path_name::{Path, Text};
use run_answers::Refusal;
use std::alloc::{AllocError, Global};
use tree_dev::{Sink, Tree};

/// The answer to the words over a tree.
#[tactic(auto, unfolding(crate::specs::Outcome::words_refusal))]
fn perform<T: Tree, E: Sink>(
    alloc: Global,
    words: &[String],
    tree: &mut T,
    errs: &mut E,
) -> Result<Report, Refusal>
    ensures told { OfTold (T.meaning tree.old) (λ t. TellsOne (λ report. report) (IsOutcome t (T.meaning tree.new) (map string_bytes words.now)) result) }
    ensures performs { PerformsChosen (chosen_in (map string_bytes words.now)) (T.meaning tree.old) (T.meaning tree.new) result }
    ensures warns { OfTold (T.meaning tree.old) (λ t. WarnsChosen t (chosen_in (map string_bytes words.now)) (is_free_result result) (E.meaning errs.old) (E.meaning errs.new)) }
    ensures may_warn { MayWarnChosen (chosen_in (map string_bytes words.now)) (E.meaning errs.old) (E.meaning errs.new) }
    ensures words { KeepsToWords (words_refusal (map string_bytes words.now)) result }
    ensures end { IfOk result IsFinding }
{
    let chosen = chosen(alloc, words)?;
    perform_task(alloc, &chosen.project, &chosen.task, tree, errs)
}

/// The answer to a task.
fn perform_task<T: Tree, E: Sink>(
    alloc: Global,
    project: &Path,
    task: &Task,
    tree: &mut T,
    errs: &mut E,
) -> Result<Report, Refusal>
    ensures told { OfTold (T.meaning tree.old) (λ t. TellsOne (λ report. report) (IsTaskOutcome t (T.meaning tree.new) project.now task.now) result) }
    ensures performs { Performs project.now task.now (T.meaning tree.old) (T.meaning tree.new) result }
    ensures warns { OfTold (T.meaning tree.old) (λ t. WarnsTask t project.now task.now (is_free_result result) (E.meaning errs.old) (E.meaning errs.new)) }
    ensures may_warn { MayWarnTask task.now (E.meaning errs.old) (E.meaning errs.new) }
    ensures words { KeepsToWords (task_refusal task.now) result }
    ensures end { IfOk result IsFinding }
{
    match task {
        Task::Lookup(word) => Ok(plain(path_line(alloc, &lookup(alloc, project, word, tree)?)?)),
        Task::Files => Ok(plain(files(alloc, project, tree)?)),
        Task::Install(ways) => installed(alloc, project, ways, tree, errs),
        Task::Update(ways) => updated(alloc, project, ways, tree),
        Task::DumpAutoload(ways) => dumped(alloc, project, ways, tree),
        Task::Check => check(alloc, project, tree),
        Task::Recover => recovered(alloc, project, tree),
        Task::Demo(_) => Err(Refusal::Usage),
    }
}

/// The answer of a recovery.
fn recovered<T: Tree>(alloc: Global, project: &Path, tree: &mut T) -> Result<Report, Refusal>
    ensures told { OfTold (T.meaning tree.old) (λ t. TellsOne (λ report. report) (IsRecovery t (T.meaning tree.new) project.now) result) }
    ensures recovery { Recovery project.now (T.meaning tree.old) (T.meaning tree.new) result }
    ensures causes { IfErr result (λ refusal. IsTrue (is_of_tree refusal)) }
    ensures end { IfOk result IsFinding }
{
    match recover(alloc, project, tree) {
        Ok(lines) => Ok(plain(lines)),
        Err(refusal) => Err(refusal),
    }
}

/// The answer of a dump.
fn dumped<T: Tree>(
    alloc: Global,
    project: &Path,
    ways: &Ways,
    tree: &mut T,
) -> Result<Report, Refusal>
    ensures told { OfTold (T.meaning tree.old) (λ t. TellsOne (λ report. report) (IsDump t project.now ways.now) result) }
    ensures dump { Dumped project.now ways.now (T.meaning tree.old) (T.meaning tree.new) result }
    ensures causes { IfErr result (λ refusal. IsTrue (is_of_tree refusal)) }
    ensures end { IfOk result IsFinding }
{
    match dump_autoload(alloc, project, ways, tree) {
        Ok(lines) => Ok(plain(lines)),
        Err(refusal) => Err(refusal),
    }
}

/// The answer of an install.
fn installed<T: Tree, E: Sink>(
    alloc: Global,
    project: &Path,
    ways: &Ways,
    tree: &mut T,
    errs: &mut E,
) -> Result<Report, Refusal>
    ensures told { OfTold (T.meaning tree.old) (λ t. TellsOne (λ report. report) (IsChange (IsInstallWork project.now ways.now) t project.now) result) }
    ensures renews { Renews (IsInstallWork project.now ways.now) project.now (T.meaning tree.old) (T.meaning tree.new) result }
    ensures warns { OfTold (T.meaning tree.old) (λ t. TakesText (E.meaning errs.old) (E.meaning errs.new) (install_warning project.now t)
        ⊎ (IsTrue (is_free_result result) × (E.meaning errs.new ≡ E.meaning errs.old))) }
    ensures may_warn { MayWarn (E.meaning errs.old) (E.meaning errs.new) }
    ensures causes { IfErr result (λ refusal. IsTrue (is_of_tree refusal)) }
    ensures end { IfOk result IsFinding }
{
    match install(alloc, project, ways, tree, errs) {
        Ok(lines) => Ok(plain(lines)),
        Err(refusal) => Err(refusal),
    }
}

/// The answer of an update.
fn updated<T: Tree>(
    alloc: Global,
    project: &Path,
    ways: &Ways,
    tree: &mut T,
) -> Result<Report, Refusal>
    ensures told { OfTold (T.meaning tree.old) (λ t. TellsOne (λ report. report) (IsChange (IsUpdateWork project.now ways.now) t project.now) result) }
    ensures renews { Renews (IsUpdateWork project.now ways.now) project.now (T.meaning tree.old) (T.meaning tree.new) result }
    ensures causes { IfErr result (λ refusal. IsTrue (is_of_tree refusal)) }
    ensures end { IfOk result IsFinding }
{
    match update(alloc, project, ways, tree) {
        Ok(lines) => Ok(plain(lines)),
        Err(refusal) => Err(refusal),
    }
}

/// The report of lines that end well.
fn plain(lines: Text) -> Report
    ensures lines { result.lines ≡ lines }
    ensures end { result.end ≡ None }
{
    Report { lines, end: None }
}

/// The line of a path.
fn path_line(alloc: Global, path: &Path) -> Result<Text, AllocError>
    ensures { IfOk result (λ line. line ≡ path_line path.now) }
{
    let mut line = Vec::from_slice(alloc, path.text())?;
    line.push(b'\n')?;
    Ok(Text::of(line))
}

/// Runs a command. `words` are the words behind the program's name, read as clap reads them. `install`, `update`, `lookup NAME`,
/// `files`, `dump-autoload`, `check` and `recover` are the commands that are built; `-d DIR` names the project's folder, which is
/// the tree's root without it. The answer is lines on `out`, or a refusal's line `error: TEXT` on `errs`, and both where `check`
/// finds a broken rule; the status is 0, or that of the refusal, as `run_answers` has them. Before that `install` says on `errs`
/// where the lock is out of date. A fault of `errs` changes no status, and one of `out` comes when the work is done. `install`,
/// `update` and `dump-autoload` change the project under a claim, and `recover` ends an install that was stopped, and is to be run
/// only while no install runs; by all other commands the tree is only read.
pub fn run<T: Tree, S: Sink, E: Sink>(
    alloc: Global,
    words: &[String],
    tree: &mut T,
    out: &mut S,
    errs: &mut E,
) -> u8
    // Over a tree that tells, it ends with an outcome of the command; `install` warns of a lock that is out of date before.
    ensures answer { OfTold (T.meaning tree.old) (λ t. EndsBehind
        (record { out_before = S.meaning out.old; out_now = S.meaning out.new; errs_before = E.meaning errs.old; errs_now = E.meaning errs.new })
        (WarnsChosen t (chosen_in (map string_bytes words.now)) (is_free_status result))
        (λ outputs. Ends outputs (IsOutcome t (T.meaning tree.new) (map string_bytes words.now)) result)) }
    // Over every tree, it ends with the lines and the status of some answer, and puts nothing else but that warning.
    ensures ended { EndsBehind
        (record { out_before = S.meaning out.old; out_now = S.meaning out.new; errs_before = E.meaning errs.old; errs_now = E.meaning errs.new })
        (MayWarnChosen (chosen_in (map string_bytes words.now))) (λ outputs. EndsWithAnswer outputs result) }
    // What the words alone refuse is refused over every tree.
    ensures words { EndsByWords
        (record { out_before = S.meaning out.old; out_now = S.meaning out.new; errs_before = E.meaning errs.old; errs_now = E.meaning errs.new })
        (words_refusal (map string_bytes words.now)) result }
    // A command that only reads, and words that are none, change nothing.
    ensures only_read { only_reads (map string_bytes words.now) ≡ true → OnlyRead (T.meaning tree.old) (T.meaning tree.new) (nat_eq result 8) }
    // A dump is on its way from the project of before to that with the new tables at each moment, and stands at one of them when it
    // ends: at the new one where it is done, at the old one where it is refused.
    ensures dumps { (project : List (List ℕ)) (ways : Ways) → ChooseDump (map string_bytes words.now) project ways → OfTold (T.meaning tree.old) (λ t.
        RunChanges (IsDumpWork project ways) project t (T.meaning tree.old) (T.meaning tree.new) result) }
    // So are an install and an update.
    ensures installs { (project : List (List ℕ)) (ways : Ways) → ChooseInstall (map string_bytes words.now) project ways → OfTold (T.meaning tree.old) (λ t.
        RunChanges (IsInstallWork project ways) project t (T.meaning tree.old) (T.meaning tree.new) result) }
    ensures updates { (project : List (List ℕ)) (ways : Ways) → ChooseUpdate (map string_bytes words.now) project ways → OfTold (T.meaning tree.old) (λ t.
        RunChanges (IsUpdateWork project ways) project t (T.meaning tree.old) (T.meaning tree.new) result) }
    // At most eight files are written by a dump: seven in the project, and the journal.
    ensures few_writes { (project : List (List ℕ)) (ways : Ways) → ChooseDump (map string_bytes words.now) project ways → FewWrites (T.meaning tree.old) (T.meaning tree.new) }
    // A recovery keeps each moment in flight, and where it is done the project is the finished one.
    ensures recovers { (project : List (List ℕ)) → ChooseRecovery (map string_bytes words.now) project
        → Recovers project (T.meaning tree.old) (T.meaning tree.new) (is_done result) }
    // Of what an install leaves recovery refuses nothing.
    ensures fits { (project : List (List ℕ)) → ChooseRecovery (map string_bytes words.now) project → OfTold (T.meaning tree.old) (λ t. (surroundings : FileTree) (old new : Files)
        → EachImage (T.meaning tree.old) (IsInFlight project surroundings old new) → CanRecover project t → IsTrue (is_unrefused result)) }
    // A journal that is bad or too long is looked at by recovery, and nothing else is done.
    ensures unchanged { (project : List (List ℕ)) → ChooseRecovery (map string_bytes words.now) project → (result ≡ 11) ⊎ (result ≡ 12)
        → OnlyRead (T.meaning tree.old) (T.meaning tree.new) false }
    ensures device { result ≡ 8 → Rose (T.meaning tree.old).faults (T.meaning tree.new).faults }
    ensures output { result ≡ 9 → Rose (S.meaning out.old).faults (S.meaning out.new).faults }
{
    let answer = perform(alloc, words, tree, errs);
    conclude(alloc, &answer, out, errs)
}
