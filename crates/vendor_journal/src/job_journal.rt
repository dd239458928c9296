//! The journal of a job.

ghost use Rattle.std.specs.Prelude.{◌≡◌, ◌≢◌, ◌≤◌, [], List, ℕ, Some, IfOk, OnOk};
ghost use Rattle.std.specs.List.{slice_get};
ghost use Rattle.path_name.specs.Paths.{IsPath};
ghost use Rattle.install_world.specs.InFlight.{IsStagedJob as IsStaged, job_result as moved_result};
ghost use Rattle.install_world.specs.JournalText.{IsJournal};
ghost use Rattle.install_world.specs.declared.version.Version.TheVariants.{Two};
ghost use Rattle.stage_job.specs.Jobs.{AreParts, Files, is_gone, job_result};
ghost use Rattle.stage_job.specs.Staged.{IsStagedJob};
ghost use Rattle.stage_job.specs.declared.job.Part.{Part as Parts};
ghost use Rattle.tree_dev.specs.Trees.{FileTree};
ghost use Rattle.vendor_journal.specs.JobTargets.{journal_for, puts_of, target_of, targets_of};

use install_world::{Journal, Target};
use path_name::{Items, path_is_segments};
use stage_job::{Job, Part, Source};
use std::alloc::{AllocError, Global};

/// Whether what stands at a part's target is to be taken away.
fn is_gone(from: &Source) -> bool
    ensures { result ≡ is_gone from.now }
{
    match from {
        Source::Copy(_) => false,
        Source::Bytes(_) => false,
        Source::Folder(_) => false,
        Source::Gone => true,
    }
}

/// The target of a part, with its mark. Its one refusal is want of memory.
fn target_of(alloc: Global, part: &Part) -> Result<Target, AllocError>
    ensures is { IfOk result (λ target. target ≡ target_of part.now) }
    ensures path { IsPath part.now.target }
{
    path_is_segments(&part.target);
    Ok(Target {
        path: part.target.copy(alloc)?,
        gone: is_gone(&part.from),
    })
}

/// The targets of parts, each with its mark. Its one refusal is want of memory.
fn job_targets(alloc: Global, parts: &[Part]) -> Result<Vec<Target>, AllocError>
    ensures are { IfOk result (λ targets. targets.items ≡ targets_of parts.now) }
    ensures paths { OnOk result ((number : ℕ) (part : Parts) → slice_get parts.now number ≡ Some part → IsPath part.target) }
{
    let mut targets = Vec::with_capacity(alloc, parts.len())?;
    for part in parts {
        let target = target_of(alloc, part)?;
        targets.push(target)?;
    }
    Ok(targets)
}

/// The journal of a job that makes a generation: the target of each part, in their order. Its one refusal is want of memory.
pub fn journal_of(alloc: Global, job: &Job, generation: u64) -> Result<Journal, AllocError>
    ensures is { IfOk result (λ journal. journal ≡ journal_for job.now.parts generation) }
    ensures journal { (project : List (List ℕ)) → AreParts project job.now.parts → job.now.parts ≢ [] → 1 ≤ generation → IfOk result (IsJournal Two) }
{
    let targets = job_targets(alloc, job.parts.as_slice())?;
    Ok(Journal {
        generation,
        targets: Items::of(targets),
    })
}

/// A job that is staged is so by its targets and by what each part puts there.
pub fn staged_jobs_have_targets()
    ensures { (project : List (List ℕ)) (t staged : FileTree) (parts : List Parts) → IsStagedJob project parts t staged
        → IsStaged project (targets_of parts) (puts_of t parts) staged }
{}

/// What the moves of a job's targets make of a project is what the job makes of it.
pub fn moved_targets_make_the_job()
    ensures { (project : List (List ℕ)) (t : FileTree) (parts : List Parts) (old : Files) (path : List (List ℕ))
        → moved_result project (targets_of parts) (puts_of t parts) old path ≡ job_result project t parts old path }
{}
