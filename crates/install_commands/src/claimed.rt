//! The one envelope of all commands that change a project: the claim, the work under it, the commit, and the release.

ghost use Rattle.std.specs.Prelude.{◌≡◌, ◌≢◌, ◌≤◌, ◌⊎◌, ℕ, [], false, is_some, Some, None, Ok, Err, IsTrue, IfOk, IfErr, OnOk};
ghost use Rattle.std.specs.FinMap as map;
ghost use Rattle.tree_dev.specs.Trees.{FileTree, has_folder};
ghost use Rattle.tree_dev.specs.Device.{OfTold, OnlyRead, Rose, next};
ghost use Rattle.tree_dev.specs.Projects.{file_at, work_path};
ghost use Rattle.tree_dev.specs.Steady.{EachImage, IsSteadily, Steady, Through};
ghost use Rattle.tree_dev.specs.declared.entry.Entry.TheVariants as entries;
ghost use Rattle.install_world.specs.InFlight.{Files, IsInFlight};
ghost use Rattle.install_world.specs.Moving.{Way};
ghost use Rattle.install_world.specs.Recovery.{IsNewProject};
ghost use Rattle.install_world.specs.Removals.{OnlyRemoved};
ghost use Rattle.stage_job.specs.Staged.{IsClaimed, IsStagedJob, KeepsTelling, Staging};
ghost use Rattle.vendor_journal.specs.Committing.{IsReady};
ghost use Rattle.vendor_journal.specs.JobTargets.{journal_for};
ghost use Rattle.vendor_journal.specs.Prepared.{IsPrepared};
ghost use Rattle.run_answers.specs.Faults.{is_free, is_of_device, is_of_tree, is_device_fault};
ghost use Rattle.run_answers.specs.Steps.{Tells, is_free_result};
ghost use Rattle.run_answers.specs.declared.refusal.Refusal.TheVariants as refusals;
ghost use Rattle.project_files.specs.Places.{manifest_place};
ghost use Rattle.install_commands.specs.Claiming.{claim_in, with_claim};
ghost use Rattle.install_commands.specs.Refusals.{or_not_staged};
ghost use Rattle.install_commands.specs.Working.{HasParentsIf, IsInstalled, IsWork, IsWorkIf, committed_in, files_after, files_written, journal_fits, text_fits, worked_in, writes_of};
ghost use Rattle.stage_job.specs.Checked.{job_checked};
ghost use Rattle.stage_job.specs.Staging.{HasParents};
ghost use Rattle.stage_job.specs.Written.{after_more, job_files};

use crate::refusals::{refusal_of_claim, refusal_of_commit, refusal_of_staging};
use crate::work::Work;
use path_name::{Path, Text};
use project_files::places;
use run_answers::{Place, Refusal};
use stage_job::stage;
use std::alloc::Global;
use tree_dev::{Entries, FILE_BYTES, Kind, LimitKind, Tree};
use vendor_journal::{ClaimFault, Hold, Prepared, claim, commit, journal_of, prepare, release};

/// Whether the project has a composer.json, of whatever kind.
fn has_manifest<T: Tree>(alloc: Global, project: &Path, tree: &mut T) -> Result<bool, Refusal>
    ensures told { OfTold (T.meaning tree.old) (λ t. IfOk result (λ has. has ≡ is_some (map.get t (manifest_place project.now)))) }
    ensures free { IfErr result (λ refusal. IsTrue (is_free refusal)) }
    ensures causes { IfErr result (λ refusal. IsTrue (is_of_tree refusal)) }
    ensures only_read { OnlyRead (T.meaning tree.old) (T.meaning tree.new) (is_device_fault result) }
{
    match tree.stat(&places::manifest(alloc, project)?)? {
        Kind::Absent => Ok(false),
        Kind::File => Ok(true),
        Kind::Folder => Ok(true),
        Kind::Other => Ok(true),
    }
}

/// Why a project can't be claimed that is no folder: it has no composer.json; where it has one now, its folder was not there
/// before.
fn refusal_of_lost<T: Tree>(alloc: Global, project: &Path, work: Path, tree: &mut T) -> Refusal
    ensures told { OfTold (T.meaning tree.old) (λ t. has_folder t (Some project.now) ≡ false → IsTrue (is_free result) ⊎ (result ≡ refusals.NoManifest)) }
    ensures causes { IsTrue (is_of_tree result) }
    ensures only_read { OnlyRead (T.meaning tree.old) (T.meaning tree.new) (is_of_device result) }
{
    match has_manifest(alloc, project, tree) {
        Ok(true) => Refusal::Vanished(Place::Entry(work)),
        Ok(false) => Refusal::NoManifest,
        Err(refusal) => refusal,
    }
}

/// Claims a project. `Unfinished`: something is at `.install`. `NoManifest`: the project is no folder. `Vanished`: it was none,
/// and then had a composer.json; never over a tree that tells. Whatever happens, the project and its surroundings stay.
pub fn claim_project<T: Tree>(alloc: Global, project: &Path, tree: &mut T) -> Result<Hold, Refusal>
    ensures held { IfOk result (λ hold. hold.project ≡ project.now) }
    ensures told { OfTold (T.meaning tree.old) (λ t. Tells (λ hold. tt) (claim_in t project.now) result) }
    ensures claimed { OnOk result (OfTold (T.meaning tree.old) (λ t. OfTold (T.meaning tree.new) (λ u. u ≡ with_claim project.now t))) }
    ensures ready { OnOk result (OfTold (T.meaning tree.new) (IsClaimed project.now)) }
    ensures refused { IfErr result (λ refusal. is_free refusal ≡ false → (T.meaning tree.new).told ≡ (T.meaning tree.old).told) }
    ensures tells { KeepsTelling (T.meaning tree.old) (T.meaning tree.new) }
    ensures steady { Steady project.now (T.meaning tree.old) (T.meaning tree.new) }
    ensures writes { (T.meaning tree.new).writes ≡ (T.meaning tree.old).writes }
    ensures causes { IfErr result (λ refusal. IsTrue (is_of_tree refusal)) }
    ensures device { IsTrue (is_device_fault result) → Rose (T.meaning tree.old).faults (T.meaning tree.new).faults }
{
    match claim(alloc, tree, project) {
        Ok(hold) => Ok(hold),
        Err(ClaimFault::Vanished(work)) => Err(refusal_of_lost(alloc, project, work, tree)),
        Err(ClaimFault::Unfinished) => Err(Refusal::Unfinished),
        Err(ClaimFault::DeviceFault) => Err(Refusal::DeviceFault),
        Err(ClaimFault::OutOfMemory) => Err(Refusal::OutOfMemory),
    }
}

/// Releases a claim after a refusal, which stays where the release has none of its own. After `DeviceFault` no call is made.
fn release_refused<T: Tree>(alloc: Global, tree: &mut T, hold: Hold, refusal: Refusal) -> Refusal
    ensures told { OfTold (T.meaning tree.old) (λ t. map.get t (work_path hold.project) ≡ Some entries.Folder → IsTrue (is_free result) ⊎ (result ≡ refusal)) }
    ensures released { OfTold (T.meaning tree.old) (λ t. map.get t (work_path hold.project) ≡ Some entries.Folder → is_free result ≡ false
        → OfTold (T.meaning tree.new) (λ u. map.get u (work_path hold.project) ≡ None)) }
    ensures steady { Steady hold.project (T.meaning tree.old) (T.meaning tree.new) }
    ensures stays { OfTold (T.meaning tree.old) (λ t. OfTold (T.meaning tree.new) (OnlyRemoved (work_path hold.project) t)) }
    ensures tells { KeepsTelling (T.meaning tree.old) (T.meaning tree.new) }
    ensures writes { (T.meaning tree.new).writes ≡ (T.meaning tree.old).writes }
    ensures causes { IsTrue (is_of_tree refusal) → IsTrue (is_of_tree result) }
    ensures silent { refusal ≡ refusals.DeviceFault → T.meaning tree.new ≡ T.meaning tree.old }
    ensures device { IsTrue (is_of_device result) → IsTrue (is_of_device refusal) ⊎ Rose (T.meaning tree.old).faults (T.meaning tree.new).faults }
{
    match refusal {
        Refusal::DeviceFault => Refusal::DeviceFault,
        refusal => match release(alloc, tree, hold) {
            Ok(()) => refusal,
            Err(fault) => refusal_of_claim(fault),
        },
    }
}

/// Refuses a journal whose text would pass `FILE_BYTES`.
#[tactic(auto, unfolding(crate::specs::Working::text_fits))]
fn refuse_long(alloc: Global, project: &Path, prepared: &Prepared) -> Result<(), Refusal>
    ensures told { Tells (λ passed. passed) (text_fits project.now prepared.now.text) result }
    ensures causes { IfErr result (λ refusal. IsTrue (is_of_tree refusal)) }
    ensures no_device { is_device_fault result ≡ false }
{
    if prepared.journal_bytes() > FILE_BYTES as usize {
        let at = places::journal(alloc, project)?;
        return Err(Refusal::Limit(LimitKind::FileBytes(at)));
    }
    Ok(())
}

/// Makes the journal of what is to be committed ready.
fn journal_ready(alloc: Global, hold: &Hold, work: &Work) -> Result<Prepared, Refusal>
    requires work { IsWork hold.now.project work.now }
    requires some { work.now.job.parts ≢ [] }
    ensures told { Tells (λ prepared. tt) (journal_fits hold.now.project work.now.job.parts work.now.generation) result }
    ensures ready { IfOk result (IsPrepared hold.now.project (journal_for work.now.job.parts work.now.generation)) }
    ensures causes { IfErr result (λ refusal. IsTrue (is_of_tree refusal)) }
    ensures no_device { is_device_fault result ≡ false }
{
    let journal = journal_of(alloc, &work.job, work.generation)?;
    let prepared = prepare(alloc, hold, &journal)?;
    refuse_long(alloc, &hold.project, &prepared)?;
    Ok(prepared)
}

/// Stages what is to be committed.
fn stage_work<T: Tree>(
    alloc: Global,
    tree: &mut T,
    hold: &Hold,
    work: &Work,
    left: &mut Entries,
) -> Result<(), Refusal>
    requires claimed { OfTold (T.meaning tree.old) (IsClaimed hold.now.project) }
    requires work { IsWork hold.now.project work.now }
    requires parents { OfTold (T.meaning tree.old) (HasParents hold.now.project work.now.job.parts) }
    ensures told { OfTold (T.meaning tree.old) (λ t. Tells (λ done. left.new.left) (or_not_staged (job_checked hold.now.project t work.now.job.parts left.old.left)) result) }
    ensures staged { OnOk result (OfTold (T.meaning tree.old) (λ t. OfTold (T.meaning tree.new) (λ u. IsStagedJob hold.now.project work.now.job.parts t u
        × EachImage (T.meaning tree.new) (λ left. left ≡ u)))) }
    ensures staging { Staging hold.now.project (T.meaning tree.old) (T.meaning tree.new) (is_device_fault result) }
    ensures tells { KeepsTelling (T.meaning tree.old) (T.meaning tree.new) }
    ensures writes { OfTold (T.meaning tree.old) (λ t. (T.meaning tree.new).writes ≤ after_more (T.meaning tree.old).writes (job_files t work.now.job.parts)) }
    ensures causes { IfErr result (λ refusal. IsTrue (is_of_tree refusal)) }
{
    match stage(alloc, tree, &hold.project, &work.job, left) {
        Ok(()) => Ok(()),
        Err(fault) => Err(refusal_of_staging(fault)),
    }
}

/// Stages what is to be committed, and makes its journal ready.
#[tactic(auto, unfolding(crate::specs::Working::committed_in))]
fn make_ready<T: Tree>(
    alloc: Global,
    tree: &mut T,
    hold: &Hold,
    work: &Work,
    left: &mut Entries,
) -> Result<Prepared, Refusal>
    requires claimed { OfTold (T.meaning tree.old) (IsClaimed hold.now.project) }
    requires work { IsWork hold.now.project work.now }
    requires some { work.now.job.parts ≢ [] }
    requires parents { OfTold (T.meaning tree.old) (HasParents hold.now.project work.now.job.parts) }
    ensures told { OfTold (T.meaning tree.old) (λ t. Tells (λ prepared. work.now.lines) (committed_in hold.now.project t left.old.left work.now) result) }
    ensures ready { IfOk result (IsPrepared hold.now.project (journal_for work.now.job.parts work.now.generation)) }
    ensures staged { OnOk result (OfTold (T.meaning tree.old) (λ t. OfTold (T.meaning tree.new) (λ u. IsStagedJob hold.now.project work.now.job.parts t u
        × EachImage (T.meaning tree.new) (λ left. left ≡ u)))) }
    ensures staging { Staging hold.now.project (T.meaning tree.old) (T.meaning tree.new) (is_device_fault result) }
    ensures tells { KeepsTelling (T.meaning tree.old) (T.meaning tree.new) }
    ensures writes { OfTold (T.meaning tree.old) (λ t. (T.meaning tree.new).writes ≤ after_more (T.meaning tree.old).writes (job_files t work.now.job.parts)) }
    ensures causes { IfErr result (λ refusal. IsTrue (is_of_tree refusal)) }
{
    stage_work(alloc, tree, hold, work, left)?;
    journal_ready(alloc, hold, work)
}

/// Commits what is staged, and releases the claim. Where the commit stops, `.install` stays for recovery.
fn commit_and_release<T: Tree>(
    alloc: Global,
    tree: &mut T,
    hold: Hold,
    prepared: &Prepared,
) -> Result<(), Refusal>
    ensures told { OfTold (T.meaning tree.old) (λ t. (way : Way) (puts : ℕ → Files) → way.project ≡ hold.project → IsReady way puts prepared.now t
        → EachImage (T.meaning tree.old) (λ left. left ≡ t) → IfErr result (λ refusal. IsTrue (is_free refusal))) }
    ensures through { OfTold (T.meaning tree.old) (λ t. (way : Way) (puts : ℕ → Files) → way.project ≡ hold.project → IsReady way puts prepared.now t
        → EachImage (T.meaning tree.old) (λ left. left ≡ t) → Through (T.meaning tree.old) (T.meaning tree.new) (IsInFlight way.project way.surroundings way.old way.new)) }
    ensures committed { OnOk result (OfTold (T.meaning tree.old) (λ t. (way : Way) (puts : ℕ → Files) → way.project ≡ hold.project → IsReady way puts prepared.now t
        → EachImage (T.meaning tree.old) (λ left. left ≡ t) → EachImage (T.meaning tree.new) (IsNewProject way))) }
    ensures released { OnOk result (OfTold (T.meaning tree.new) (λ u. map.get u (work_path hold.project) ≡ None)) }
    ensures writes { (T.meaning tree.new).writes ≡ next (T.meaning tree.old).writes }
    ensures causes { IfErr result (λ refusal. IsTrue (is_of_tree refusal)) }
    ensures device { IsTrue (is_device_fault result) → Rose (T.meaning tree.old).faults (T.meaning tree.new).faults }
{
    if let Err(fault) = commit(tree, &hold, prepared) {
        return Err(refusal_of_commit(fault));
    }
    match release(alloc, tree, hold) {
        Ok(()) => Ok(()),
        Err(fault) => Err(refusal_of_claim(fault)),
    }
}

/// Releases a claim under which nothing is to be changed, and gives the lines.
fn release_done<T: Tree>(
    alloc: Global,
    tree: &mut T,
    hold: Hold,
    lines: Text,
) -> Result<Text, Refusal>
    ensures told { OfTold (T.meaning tree.old) (λ t. map.get t (work_path hold.project) ≡ Some entries.Folder → Tells (λ given. given) (Ok lines) result) }
    ensures released { OnOk result (OfTold (T.meaning tree.new) (λ u. map.get u (work_path hold.project) ≡ None)) }
    ensures steady { Steady hold.project (T.meaning tree.old) (T.meaning tree.new) }
    ensures stays { OfTold (T.meaning tree.old) (λ t. OfTold (T.meaning tree.new) (OnlyRemoved (work_path hold.project) t)) }
    ensures writes { (T.meaning tree.new).writes ≡ (T.meaning tree.old).writes }
    ensures causes { IfErr result (λ refusal. IsTrue (is_of_tree refusal)) }
    ensures device { IsTrue (is_device_fault result) → Rose (T.meaning tree.old).faults (T.meaning tree.new).faults }
{
    match release(alloc, tree, hold) {
        Ok(()) => Ok(lines),
        Err(fault) => Err(refusal_of_claim(fault)),
    }
}

/// Stages and commits the work that was made under a claim, if its job has a part, and releases the claim, also after a refusal
/// that came before the commit. After a fault of the device no call is made any more.
fn end_made<T: Tree>(
    alloc: Global,
    tree: &mut T,
    hold: Hold,
    work: Work,
    left: &mut Entries,
) -> Result<Text, Refusal>
    requires claimed { OfTold (T.meaning tree.old) (IsClaimed hold.project) }
    requires work { IsWork hold.project work }
    requires parents { OfTold (T.meaning tree.old) (HasParents hold.project work.job.parts) }
    ensures told { OfTold (T.meaning tree.old) (λ t. Tells (λ lines. lines) (committed_in hold.project t left.old.left work) result) }
    ensures through { OfTold (T.meaning tree.old) (λ t. (start : FileTree) → EachImage (T.meaning tree.old) (IsSteadily hold.project start)
        → Through (T.meaning tree.old) (T.meaning tree.new) (IsInFlight hold.project start (file_at start) (files_after hold.project start t left.old.left (Ok work)))) }
    ensures settled { OnOk result (OfTold (T.meaning tree.old) (λ t. (start : FileTree) → EachImage (T.meaning tree.old) (IsSteadily hold.project start)
        → EachImage (T.meaning tree.new) (IsInstalled hold.project start (files_after hold.project start t left.old.left (Ok work))))) }
    ensures refused { OfTold (T.meaning tree.old) (λ t. (start : FileTree) → EachImage (T.meaning tree.old) (IsSteadily hold.project start)
        → IfErr result (λ refusal. is_free refusal ≡ false → EachImage (T.meaning tree.new) (IsInstalled hold.project start (file_at start)))) }
    // In the tree that is told too, whatever a crash may leave at the start: after Ok the new project, after a refusal that of the start.
    ensures new_stands { OnOk result (OfTold (T.meaning tree.old) (λ t. (start : FileTree) → IsSteadily hold.project start t
        → OfTold (T.meaning tree.new) (IsInstalled hold.project start (files_after hold.project start t left.old.left (Ok work))))) }
    ensures old_stands { OfTold (T.meaning tree.old) (λ t. (start : FileTree) → IsSteadily hold.project start t
        → IfErr result (λ refusal. is_free refusal ≡ false → OfTold (T.meaning tree.new) (IsInstalled hold.project start (file_at start)))) }
    ensures released { OfTold (T.meaning tree.old) (λ _. is_free_result result ≡ false → OfTold (T.meaning tree.new) (λ u. map.get u (work_path hold.project) ≡ None)) }
    ensures writes { OfTold (T.meaning tree.old) (λ t. (T.meaning tree.new).writes ≤ after_more (T.meaning tree.old).writes (files_written t work.job.parts)) }
    ensures causes { IfErr result (λ refusal. IsTrue (is_of_tree refusal)) }
    ensures device { IsTrue (is_device_fault result) → Rose (T.meaning tree.old).faults (T.meaning tree.new).faults }
{
    if work.job.parts.is_empty() {
        return release_done(alloc, tree, hold, work.lines);
    }
    match make_ready(alloc, tree, &hold, &work, left) {
        Ok(prepared) => {
            commit_and_release(alloc, tree, hold, &prepared)?;
            Ok(work.lines)
        }
        Err(refusal) => Err(release_refused(alloc, tree, hold, refusal)),
    }
}

/// Ends what was begun under a claim. What is to be committed is staged and committed, the claim is released, and the lines of
/// the work are the answer; of a job without parts the claim is only released. A refusal that came before the commit stays, and the claim is released after it; but after
/// `DeviceFault` no call is made any more. Whatever a crash leaves at any moment is on the way from the project at the start to
/// what the job makes of it; after Ok it is the latter.
pub fn end_work<T: Tree>(
    alloc: Global,
    tree: &mut T,
    hold: Hold,
    made: Result<Work, Refusal>,
    left: &mut Entries,
) -> Result<Text, Refusal>
    requires claimed { OfTold (T.meaning tree.old) (IsClaimed hold.project) }
    requires work { IsWorkIf hold.project made }
    requires parents { OfTold (T.meaning tree.old) (λ t. HasParentsIf hold.project t made) }
    // The lines, or the first refusal, unless the device failed or memory ran out.
    ensures told { OfTold (T.meaning tree.old) (λ t. Tells (λ lines. lines) (worked_in hold.project t left.old.left made) result) }
    ensures through { OfTold (T.meaning tree.old) (λ t. (start : FileTree) → EachImage (T.meaning tree.old) (IsSteadily hold.project start)
        → Through (T.meaning tree.old) (T.meaning tree.new) (IsInFlight hold.project start (file_at start) (files_after hold.project start t left.old.left made))) }
    ensures settled { OnOk result (OfTold (T.meaning tree.old) (λ t. (start : FileTree) → EachImage (T.meaning tree.old) (IsSteadily hold.project start)
        → EachImage (T.meaning tree.new) (IsInstalled hold.project start (files_after hold.project start t left.old.left made)))) }
    // After a refusal too the claim is released and each image has the project of the start, but for a fault of the device and
    // want of memory.
    ensures refused { OfTold (T.meaning tree.old) (λ t. (start : FileTree) → EachImage (T.meaning tree.old) (IsSteadily hold.project start)
        → IfErr result (λ refusal. is_free refusal ≡ false → EachImage (T.meaning tree.new) (IsInstalled hold.project start (file_at start)))) }
    // In the tree that is told too, whatever a crash may leave at the start: after Ok the new project, after a refusal that of the start.
    ensures new_stands { OnOk result (OfTold (T.meaning tree.old) (λ t. (start : FileTree) → IsSteadily hold.project start t
        → OfTold (T.meaning tree.new) (IsInstalled hold.project start (files_after hold.project start t left.old.left made)))) }
    ensures old_stands { OfTold (T.meaning tree.old) (λ t. (start : FileTree) → IsSteadily hold.project start t
        → IfErr result (λ refusal. is_free refusal ≡ false → OfTold (T.meaning tree.new) (IsInstalled hold.project start (file_at start)))) }
    ensures released { OfTold (T.meaning tree.old) (λ _. is_free_result result ≡ false → OfTold (T.meaning tree.new) (λ u. map.get u (work_path hold.project) ≡ None)) }
    // At most one file is written for each that the parts put, and one for the journal.
    ensures writes { OfTold (T.meaning tree.old) (λ t. (T.meaning tree.new).writes ≤ after_more (T.meaning tree.old).writes (writes_of t made)) }
    // No refusal is told for the words or by the output, where none was before.
    ensures causes { IfErr made (λ refusal. IsTrue (is_of_tree refusal)) → IfErr result (λ refusal. IsTrue (is_of_tree refusal)) }
    // After a fault of the device that came before there is no call any more.
    ensures silent { made ≡ Err refusals.DeviceFault → T.meaning tree.new ≡ T.meaning tree.old }
    ensures device { IsTrue (is_device_fault result) → IsTrue (is_device_fault made) ⊎ Rose (T.meaning tree.old).faults (T.meaning tree.new).faults }
{
    match made {
        Ok(work) => end_made(alloc, tree, hold, work, left),
        Err(refused) => Err(release_refused(alloc, tree, hold, refused)),
    }
}
