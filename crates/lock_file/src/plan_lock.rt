//! The lock of a plan.

ghost use Rattle.std.specs.Prelude.{◌≡◌, ◌++◌, [], ◌∷◌, length, map, not, if◌then◌else◌, IfOk, OnOk};
ghost use Rattle.std.specs.BTreeMap.{IsOrdered};
ghost use Rattle.std.specs.List.{AllByRecursion};
ghost use Rattle.std.specs.Str.{IsUtf8};
ghost use Rattle.path_name.specs.Orders.{byte_cmp};
ghost use Rattle.plan_rules.specs.Requirements.{is_on_package};
ghost use Rattle.plan_rules.specs.Validity.{chosen};
ghost use Rattle.lock_file.specs.InstalledText.{IsByName};
ghost use Rattle.lock_file.specs.PlanLocks.{locked_of, platform_links, row_of, IsListing, AreFlagRows, IsLockOf};
ghost use Rattle.lock_file.specs.Rereading.{HasPath, HavePaths, IsKept};
ghost use Rattle.lock_file.specs.KeptPools.{IsDocumentedPool, HaveOwnNames};

use crate::runtime::{marks, others, required_at_runtime};
use crate::types::{FlagRow, Lock, Locked, PlatformLink};
use manifest_read::{Link, Manifest};
use path_name::{Items, Name, Text};
use pkg_pool::{Candidate, Pool, RootFlags};
use plan_rules::Selection;
use std::alloc::{AllocError, Global};
use std::collections::BTreeMap;
use version_norm::Grade;

/// A candidate as it is locked.
fn locked_of(alloc: Global, candidate: &Candidate) -> Result<Locked, AllocError>
    ensures locked { IfOk result (λ locked. locked ≡ locked_of candidate.now) }
    ensures path { IfOk result HasPath }
{
    // That it has the text of a path says that it is one.
    let _text = candidate.url.path.text();
    Ok(Locked {
        package: candidate.package.copy(alloc)?,
        url: candidate.url.copy(alloc)?,
        reference: candidate.reference.copy(alloc)?,
    })
}

/// Puts a candidate behind others as it is locked, if it is marked.
fn push_marked(
    alloc: Global,
    list: &mut Vec<Locked>,
    mark: bool,
    candidate: &Candidate,
) -> Result<(), AllocError>
    ensures items { OnOk result (list.new.items ≡ list.old.items ++ map locked_of (if mark then candidate.now ∷ [] else [])) }
    ensures paths { AllByRecursion HasPath list.old.items → OnOk result (AllByRecursion HasPath list.new.items) }
{
    if mark {
        list.push(locked_of(alloc, candidate)?)?;
    }
    Ok(())
}

/// The candidates that are marked, as they are locked.
fn locked(
    alloc: Global,
    marks: &[bool],
    candidates: &[Candidate],
) -> Result<Vec<Locked>, AllocError>
    requires { length marks.now ≡ length candidates.now }
    ensures items { IfOk result (λ list. list.items ≡ map locked_of (chosen marks.now candidates.now)) }
    ensures paths { IfOk result (λ list. AllByRecursion HasPath list.items) }
{
    let mut list = Vec::new(alloc);
    for number in 0..candidates.len() {
        push_marked(alloc, &mut list, marks[number], &candidates[number])?;
    }
    Ok(list)
}

/// Puts packages in byte order of name.
fn sort_by_name(list: &mut Vec<Locked>) -> Result<(), AllocError>
    ensures { OnOk result (IsByName list.old.items list.new.items) }
{
    list.sort_by(|a: &Locked, b: &Locked| a.package.name.cmp(&b.package.name))?;
    Ok(())
}

/// The candidates that are marked, as they are locked, in byte order of name.
fn listing(
    alloc: Global,
    marks: &[bool],
    candidates: &[Candidate],
) -> Result<Items<Locked>, AllocError>
    requires { length marks.now ≡ length candidates.now }
    ensures listing { IfOk result (λ list. IsByName (map locked_of (chosen marks.now candidates.now)) list) }
    ensures paths { IfOk result (AllByRecursion HasPath) }
{
    let mut list = locked(alloc, marks, candidates)?;
    sort_by_name(&mut list)?;
    Ok(Items::of(list))
}

/// The flags of a map, in byte order of name.
fn rows_of(alloc: Global, flags: &BTreeMap<Name, Grade>) -> Result<Items<FlagRow>, AllocError>
    ensures rows { IfOk result (λ rows. rows ≡ map row_of flags.now.entries) }
    ensures ordered { IsOrdered byte_cmp flags.now }
{
    let mut rows = Vec::new(alloc);
    for (name, grade) in flags {
        let name = name.copy(alloc)?;
        let rank = u32::from(grade.rank());
        rows.push(FlagRow { name, rank })?;
    }
    Ok(Items::of(rows))
}

/// The flags of a root, in byte order of name.
fn flag_rows(alloc: Global, root: &Manifest) -> Result<Items<FlagRow>, AllocError>
    ensures { IfOk result (AreFlagRows root.now) }
{
    let flags = RootFlags::of(alloc, root)?;
    rows_of(alloc, flags.by_name())
}

fn is_on_package(link: &Link) -> bool
    ensures { result ≡ is_on_package link.now }
{
    link.name.as_slice().iter().any(|byte| *byte == b'/')
}

/// The requirements on the platform, in order.
fn platform_links(alloc: Global, links: &[Link]) -> Result<Items<PlatformLink>, AllocError>
    ensures { IfOk result (λ rows. rows ≡ platform_links links.now) }
{
    let mut rows = Vec::new(alloc);
    for link in links {
        if !is_on_package(link) {
            let name = link.name.copy(alloc)?;
            let text = link.text.copy(alloc)?;
            rows.push(PlatformLink { name, text })?;
        }
    }
    Ok(Items::of(rows))
}

/// The lock of the members of a plan.
fn lock_of_members(
    alloc: Global,
    pool: &Pool,
    members: &[u32],
    hash: &[u8; 32],
) -> Result<Lock, AllocError>
    ensures exact { IfOk result (IsLockOf pool.now members.now hash.now) }
    ensures paths { IfOk result HavePaths }
{
    let candidates = pool.candidates.as_slice();
    let runtime = required_at_runtime(alloc, pool, members)?;
    let others = others(alloc, members, runtime.as_slice())?;
    let development = marks(alloc, candidates.len(), others.as_slice())?;
    let packages = listing(alloc, runtime.as_slice(), candidates)?;
    let packages_dev = listing(alloc, development.as_slice(), candidates)?;
    Ok(Lock {
        content_hash: Text::of(Vec::from_slice(alloc, hash.as_slice())?),
        packages,
        packages_dev,
        minimum: pool.root.minimum,
        flags: flag_rows(alloc, &pool.root)?,
        prefer_stable: pool.root.prefer_stable,
        platform: platform_links(alloc, pool.root.package.require.as_slice())?,
        platform_dev: platform_links(alloc, pool.root.require_dev.as_slice())?,
    })
}

/// The lock of a plan of a pool, for a composer.json of this content hash.
///
/// Of the plan's members those that are required at run time are the `packages`: they meet a requirement of the root, or
/// of a member that is one of them, by their own name or by one that they replace or provide. What is required for
/// development doesn't count, and what is left are the `packages-dev`. Both are in byte order of name; of two candidates
/// of one name, which no valid plan has, the order is not said. A number that the plan has twice counts once, and one
/// that the pool doesn't have stands for nothing. The flags are the root's that count, in byte order of name, and the
/// platform's requirements are the root's, in their order.
///
/// Its one refusal is want of memory. Besides sorting its time grows with the pool's packages and links, and for each
/// requirement with the packages that own, replace or provide its name.
pub fn lock_of(
    alloc: Global,
    pool: &Pool,
    plan: &Selection,
    hash: &[u8; 32],
) -> Result<Lock, AllocError>
    ensures exact { IfOk result (IsLockOf pool.now plan.now.members hash.now) }
    // Of a pool that JSON texts say, and members with names of their own, the lock can be written, and is read again then.
    ensures kept { IsDocumentedPool pool.now → HaveOwnNames pool.now plan.now.members → IsUtf8 hash.now → IfOk result IsKept }
{
    lock_of_members(alloc, pool, plan.members.as_slice(), hash)
}
