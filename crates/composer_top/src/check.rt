//! The command `check`.

ghost use Rattle.std.specs.Prelude.{◌≡◌, false, IsTrue, IfOk, IfErr};
ghost use Rattle.tree_dev.specs.Device.{OnlyRead, OfTold};
ghost use Rattle.plan_rules.specs.Validity.{verdict_of};
ghost use Rattle.run_answers.specs.Faults.{is_of_tree, is_device_fault};
ghost use Rattle.run_answers.specs.Steps.{Tells};
ghost use Rattle.composer_top.specs.Outcome.{IsFinding};
ghost use Rattle.install_sources.specs.Verdicts.{whole};
ghost use Rattle.composer_top.specs.Outcome.Check.{hash_line, check_report, compared, lock_compared, check_outcome};

use crate::report::Report;
use install_sources::{broken_rule_of, verdict_of};
use lock_file::Lock;
use path_name::{Path, Text};
use pkg_pool::Pool;
use plan_rules::Verdict;
use project_files::{ProjectManifest, pool_of, project_lock, project_manifest};
use run_answers::{Refusal, put_rule};
use std::alloc::{AllocError, Global};
use tree_dev::Tree;

/// Whether a lock is that of the manifest as it is now.
#[tactic(auto, unfolding(crate::specs::Outcome::Check::hash_line))]
fn hash_line(is_current: bool) -> &'static [u8]
    ensures { result.now ≡ hash_line is_current }
{
    if is_current {
        b"hash current\n"
    } else {
        b"hash stale\n"
    }
}

/// What was found.
#[tactic(auto, unfolding(crate::specs::Outcome::Check::check_report, crate::specs::Outcome::Check::verdict_line))]
fn check_report(alloc: Global, is_current: bool, verdict: Verdict) -> Result<Report, AllocError>
    ensures value { IfOk result (λ report. report ≡ check_report is_current verdict) }
    ensures end { IfOk result IsFinding }
{
    let mut lines = Vec::from_slice(alloc, hash_line(is_current))?;
    match verdict {
        Verdict::Meets => {
            lines.extend_from_slice(b"meets\n")?;
            Ok(Report {
                lines: Text::of(lines),
                end: None,
            })
        }
        Verdict::Breaks(rule) => {
            let rule = broken_rule_of(rule);
            lines.extend_from_slice(b"breaks ")?;
            put_rule(&mut lines, &rule)?;
            lines.push(b'\n')?;
            Ok(Report {
                lines: Text::of(lines),
                end: Some(Refusal::Breaks(rule)),
            })
        }
    }
}

/// What is found of a pool.
fn found_in(alloc: Global, is_current: bool, pool: &Pool) -> Result<Report, AllocError>
    ensures value { IfOk result (λ report. report ≡ check_report is_current (verdict_of pool.now (whole pool.now))) }
    ensures end { IfOk result IsFinding }
{
    let verdict = verdict_of(alloc, pool)?;
    check_report(alloc, is_current, verdict)
}

/// What is found of a pool, which is dropped.
fn found_of(alloc: Global, is_current: bool, pool: Pool) -> Result<Report, AllocError>
    ensures value { IfOk result (λ report. report ≡ check_report is_current (verdict_of pool (whole pool))) }
    ensures end { IfOk result IsFinding }
{
    found_in(alloc, is_current, &pool)
}

/// What is found of a lock and a manifest. `MissingPath` comes for the first package whose url leads above the root.
#[tactic(auto, unfolding(crate::specs::Outcome::Check::compared))]
fn compare(
    alloc: Global,
    project: &Path,
    manifest: ProjectManifest,
    lock: &Lock,
) -> Result<Report, Refusal>
    ensures told { Tells (λ report. report) (compared project.now manifest lock.now) result }
    ensures no_device { is_device_fault result ≡ false }
    ensures causes { IfErr result (λ refusal. IsTrue (is_of_tree refusal)) }
    ensures end { IfOk result IsFinding }
{
    let ProjectManifest { root, content_hash } = manifest;
    let is_current = content_hash.as_slice() == lock.content_hash.as_slice();
    let pool = pool_of(alloc, root, lock, project)?;
    Ok(found_of(alloc, is_current, pool)?)
}

/// What is found of the lock of a project and a manifest.
#[tactic(auto, unfolding(crate::specs::Outcome::Check::lock_compared))]
fn compare_lock<T: Tree>(
    alloc: Global,
    project: &Path,
    manifest: ProjectManifest,
    tree: &mut T,
) -> Result<Report, Refusal>
    ensures told { OfTold (T.meaning tree.old) (λ t. Tells (λ report. report) (lock_compared t project.now manifest) result) }
    ensures only_read { OnlyRead (T.meaning tree.old) (T.meaning tree.new) (is_device_fault result) }
    ensures causes { IfErr result (λ refusal. IsTrue (is_of_tree refusal)) }
    ensures end { IfOk result IsFinding }
{
    let lock = project_lock(alloc, project, tree)?;
    compare(alloc, project, manifest, &lock)
}

/// Whether the lock of a project is current, and whether its packages, those for development with them, are a valid
/// plan for composer.json (Composer's documentation, "Basic usage" and "The composer.json schema"). Two lines: `hash
/// current` where the lock has the content hash of composer.json, else `hash stale`; then `meets`, or `breaks` with the
/// first broken rule and its names. With a broken rule it ends with the refusal `Breaks`; a stale hash is none. The
/// refusals before that are those of composer.json, then those of composer.lock, then `MissingPath` for the first
/// package whose url leads above the root of the tree. Folders of packages are not looked at. The tree is only read.
#[tactic(auto, unfolding(crate::specs::Outcome::Check::check_outcome))]
pub fn check<T: Tree>(alloc: Global, project: &Path, tree: &mut T) -> Result<Report, Refusal>
    ensures told { OfTold (T.meaning tree.old) (λ t. Tells (λ report. report) (check_outcome t project.now) result) }
    ensures only_read { OnlyRead (T.meaning tree.old) (T.meaning tree.new) (is_device_fault result) }
    ensures causes { IfErr result (λ refusal. IsTrue (is_of_tree refusal)) }
    ensures end { IfOk result IsFinding }
{
    let manifest = project_manifest(alloc, project, tree)?;
    compare_lock(alloc, project, manifest, tree)
}
