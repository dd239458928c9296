//! What is walked for the class map.

ghost use Rattle.std.specs.Prelude.{◌≡◌, ◌++◌, IfOk, OnOk};
ghost use Rattle.std.specs.List.{flat_map};
ghost use Rattle.psr_routes.specs.Routes.{prefixes_of};
ghost use Rattle.autoload_build.specs.Jobs.{by_prefix, job_of, jobs_of_kind, jobs_of_prefix, jobs_of_rows, jobs_of_source, left_out, not_copied, prefix_of, rule_of, skipped_for};
ghost use Rattle.autoload_build.specs.Steps.{excluded_by, jobs_by_mode, listed_by, seen, source_of};

use crate::sources::Source;
use class_paths::RouteKind;
use class_walk::{Pattern, WalkJob, WalkRule};
use manifest_read::{Autoload, PathText, PrefixDirs};
use path_name::{Items, Name, Path};
use psr_routes::Placed;
use std::alloc::{AllocError, Global};
use table_scan::Mode;

/// The walks of a mode: those of listed paths, and then, where tables are not plain, those of the folders of rows. Its one
/// refusal is want of memory.
pub fn jobs(alloc: Global, mode: Mode, sources: &[Source]) -> Result<Vec<WalkJob>, AllocError>
    ensures { IfOk result (λ jobs. jobs.items ≡ jobs_by_mode mode (seen sources.now)) }
{
    let mut jobs = Vec::new(alloc);
    for source in sources {
        put_listed(alloc, &mut jobs, source)?;
    }
    match mode {
        Mode::Plain => Ok(jobs),
        Mode::Optimised | Mode::Authoritative => with_rows(alloc, jobs, sources),
    }
}

/// Puts a walk for each path that rules list.
fn put_listed(alloc: Global, jobs: &mut Vec<WalkJob>, source: &Source<'_>) -> Result<(), AllocError>
    ensures { OnOk result (jobs.new.items ≡ jobs.old.items ++ listed_by (source_of source.now)) }
{
    for path in source.rules.classmap.as_slice() {
        jobs.push(job(alloc, WalkRule::Listed, source, path)?)?;
    }
    Ok(())
}

/// The walks of the folders of rows behind others: the greatest prefix in byte order first, PSR-4 before PSR-0 for one
/// prefix, and else in the order of rows.
fn with_rows(
    alloc: Global,
    jobs: Vec<WalkJob>,
    sources: &[Source],
) -> Result<Vec<WalkJob>, AllocError>
    ensures { IfOk result (λ all. all.items ≡ jobs.items ++ by_prefix (jobs_of_rows (seen sources.now))) }
{
    let mut jobs = jobs;
    let mut rows = Vec::new(alloc);
    put_kind(alloc, &mut rows, RouteKind::Psr4, sources)?;
    put_kind(alloc, &mut rows, RouteKind::Psr0, sources)?;
    sort_by_prefix(&mut rows)?;
    jobs.append(&mut rows)?;
    Ok(jobs)
}

/// Puts walks in the order of their prefixes, the greatest first. Those of one prefix keep their order.
fn sort_by_prefix(jobs: &mut Vec<WalkJob>) -> Result<(), AllocError>
    ensures { OnOk result (jobs.new.items ≡ by_prefix jobs.old.items) }
{
    jobs.sort_by(|one, other| prefix_of(&other.rule).cmp(prefix_of(&one.rule)))?;
    Ok(())
}

/// The prefix of the row whose folder is walked.
fn prefix_of(rule: &WalkRule) -> &[u8]
    ensures { result.now ≡ prefix_of rule.now }
{
    match rule {
        WalkRule::Listed => b"",
        WalkRule::Psr4(prefix) => prefix.as_slice(),
        WalkRule::Psr0(prefix) => prefix.as_slice(),
    }
}

/// Puts a walk for each row of one kind, in the order of rows.
fn put_kind(
    alloc: Global,
    jobs: &mut Vec<WalkJob>,
    kind: RouteKind,
    sources: &[Source],
) -> Result<(), AllocError>
    ensures { OnOk result (jobs.new.items ≡ jobs.old.items ++ jobs_of_kind kind (seen sources.now)) }
{
    for source in sources {
        put_source(alloc, jobs, kind, source)?;
    }
    Ok(())
}

fn put_source(
    alloc: Global,
    jobs: &mut Vec<WalkJob>,
    kind: RouteKind,
    source: &Source<'_>,
) -> Result<(), AllocError>
    ensures { OnOk result (jobs.new.items ≡ jobs.old.items ++ jobs_of_source kind (source_of source.now)) }
{
    for dirs in prefixes(kind, source.rules) {
        put_prefix(alloc, jobs, kind, source, dirs)?;
    }
    Ok(())
}

fn prefixes(kind: RouteKind, rules: &Autoload) -> &[PrefixDirs]
    ensures { result.now ≡ prefixes_of kind rules.now }
{
    match kind {
        RouteKind::Psr4 => rules.psr4.as_slice(),
        RouteKind::Psr0 => rules.psr0.as_slice(),
    }
}

fn put_prefix(
    alloc: Global,
    jobs: &mut Vec<WalkJob>,
    kind: RouteKind,
    source: &Source<'_>,
    dirs: &PrefixDirs,
) -> Result<(), AllocError>
    ensures { OnOk result (jobs.new.items ≡ jobs.old.items ++ jobs_of_prefix kind (source_of source.now) dirs.now) }
{
    for folder in dirs.folders.as_slice() {
        let rule = rule_of(alloc, kind, &dirs.prefix)?;
        jobs.push(job(alloc, rule, source, folder)?)?;
    }
    Ok(())
}

fn rule_of(alloc: Global, kind: RouteKind, prefix: &Name) -> Result<WalkRule, AllocError>
    ensures { IfOk result (λ rule. rule ≡ rule_of kind prefix.now) }
{
    let prefix = prefix.copy(alloc)?;
    match kind {
        RouteKind::Psr4 => Ok(WalkRule::Psr4(prefix)),
        RouteKind::Psr0 => Ok(WalkRule::Psr0(prefix)),
    }
}

fn job(
    alloc: Global,
    rule: WalkRule,
    source: &Source<'_>,
    path: &PathText,
) -> Result<WalkJob, AllocError>
    ensures { IfOk result (λ job. job ≡ job_of rule (source_of source.now) path.now) }
{
    Ok(WalkJob {
        at: source.place().join(alloc, &path.path)?,
        shown: source.folder.join(alloc, &path.path)?,
        rule,
        skip: Items::of(skipped_for(alloc, source)?),
    })
}

/// The paths at and below which a walk takes nothing to be.
fn skipped_for(alloc: Global, source: &Source<'_>) -> Result<Vec<Path>, AllocError>
    ensures { IfOk result (λ skip. skip.items ≡ skipped_for (source_of source.now)) }
{
    match source.owner {
        Some(member) => left_out(alloc, member),
        None => {
            let mut skip = Vec::new(alloc);
            skip.push(source.folder.child(alloc, b"vendor")?)?;
            Ok(skip)
        }
    }
}

/// What a package has not where it will stand, though it has it where it is copied from.
fn left_out(alloc: Global, member: &Placed) -> Result<Vec<Path>, AllocError>
    ensures { IfOk result (λ skip. skip.items ≡ left_out member.now) }
{
    if member.mirrored {
        not_copied(alloc, &member.at)
    } else {
        Ok(Vec::new(alloc))
    }
}

/// What is never copied of a package's folder.
fn not_copied(alloc: Global, at: &Path) -> Result<Vec<Path>, AllocError>
    ensures { IfOk result (λ skip. skip.items ≡ not_copied at.now) }
{
    let mut skip = Vec::new(alloc);
    skip.push(at.child(alloc, b"vendor")?)?;
    skip.push(at.child(alloc, b".git")?)?;
    skip.push(at.child(alloc, b".install")?)?;
    Ok(skip)
}

/// The patterns of what no walk scans. Its one refusal is want of memory.
pub fn patterns(alloc: Global, sources: &[Source]) -> Result<Vec<Pattern>, AllocError>
    ensures { IfOk result (λ patterns. patterns.items ≡ flat_map excluded_by (seen sources.now)) }
{
    let mut patterns = Vec::new(alloc);
    for source in sources {
        put_patterns(alloc, &mut patterns, source)?;
    }
    Ok(patterns)
}

fn put_patterns(
    alloc: Global,
    patterns: &mut Vec<Pattern>,
    source: &Source<'_>,
) -> Result<(), AllocError>
    ensures { OnOk result (patterns.new.items ≡ patterns.old.items ++ excluded_by (source_of source.now)) }
{
    for text in source.rules.exclude.as_slice() {
        patterns.push(Pattern::read(alloc, source.folder, text.as_slice())?)?;
    }
    Ok(())
}
