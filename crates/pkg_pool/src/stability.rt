//! Which candidates the stabilities of the root allow.

ghost use Rattle.std.specs.Prelude.{◌≡◌, ◌<◌, ◌++◌, List, ℕ, length, None, IfOk, OnOk};
ghost use Rattle.std.specs.BTreeMap.{get};
ghost use Rattle.path_name.specs.Orders.{byte_cmp};
ghost use Rattle.manifest_read.specs.declared.types.Manifest.{Manifest};
ghost use Rattle.pkg_pool.specs.Stability.{counting, less_stable, flag_step, flag_from, root_flag, bound_of, is_allowed, is_allowed_at, AreFlagsOf, version_meets};

use crate::pool::{Candidate, Pool};
use constraint_set::{Constraint, Flag};
use manifest_read::{Link, Manifest, Package};
use path_name::Name;
use std::alloc::{AllocError, Global};
use std::collections::BTreeMap;
use version_norm::{Grade, stability};

/// Whether the version of a package meets a constraint. Takes no memory.
pub fn version_meets(member: &Package, wants: &Constraint) -> bool
    ensures { result ≡ version_meets member.now wants.now }
{
    wants.satisfies(&member.version)
}

/// The stability of a flag, where it counts beside the minimum.
fn counting(minimum: Grade, flag: Option<Flag>) -> Option<Grade>
    ensures { result ≡ counting minimum flag }
{
    match flag {
        None => None,
        Some(Flag::Written(grade)) => Some(grade),
        Some(Flag::Inferred(grade)) => {
            if minimum.rank() < grade.rank() {
                Some(grade)
            } else {
                None
            }
        }
    }
}

fn less_stable(first: Option<Grade>, second: Option<Grade>) -> Option<Grade>
    ensures { result ≡ less_stable first second }
{
    match (first, second) {
        (None, second) => second,
        (Some(first), None) => Some(first),
        (Some(first), Some(second)) => {
            if first.rank() < second.rank() {
                Some(second)
            } else {
                Some(first)
            }
        }
    }
}

/// The flag of a name, from requirements, behind what was found before.
fn flag_from(minimum: Grade, name: &[u8], found: Option<Grade>, links: &[Link]) -> Option<Grade>
    ensures { result ≡ flag_from minimum name.now found links.now }
{
    let mut found = found;
    for link in links {
        if link.name.as_slice() == name {
            found = less_stable(found, counting(minimum, link.wants.flag()));
        }
    }
    found
}

/// The least stability that a package of a name may have.
#[tactic(auto, unfolding(crate::specs::Stability::root_flag))]
fn bound_of(root: &Manifest, name: &[u8]) -> Grade
    ensures { result ≡ bound_of root.now name.now }
{
    let required = flag_from(root.minimum, name, None, root.package.require.as_slice());
    let flag = flag_from(root.minimum, name, required, root.require_dev.as_slice());
    flag.unwrap_or(root.minimum)
}

/// Whether the root's stabilities allow a candidate (Composer's documentation, "Stability constraints"): it is at least
/// as stable as the flag of its name among the root's requirements, those for development included, or, where there is
/// none, as `minimum-stability`. A stability that is written behind an `@` always counts, one that is inferred from a
/// version where it is less stable than the minimum; of several the least stable one counts. Takes no memory.
#[tactic(auto, unfolding(crate::specs::Stability::is_allowed))]
pub fn allowed(pool: &Pool, c: u32) -> bool
    requires { c < length pool.now.candidates }
    ensures { result ≡ is_allowed_at pool.now c }
{
    let candidate = &pool.candidates.as_slice()[c as usize];
    let bound = bound_of(&pool.root, candidate.package.name.as_slice());
    stability(&candidate.package.version).rank() <= bound.rank()
}

/// The root's flags by name, for asking of many candidates whether they are allowed.
#[derive(Drop)]
pub struct RootFlags {
    minimum: Grade,
    flags: BTreeMap<Name, Grade>,
}

/// Adds the flag of a requirement.
fn put_flag(
    alloc: Global,
    flags: &mut BTreeMap<Name, Grade>,
    minimum: Grade,
    link: &Link,
) -> Result<(), AllocError>
    ensures { OnOk result ((name : List ℕ) → get byte_cmp flags.new name ≡ flag_step minimum name (get byte_cmp flags.old name) link.now) }
{
    if let Some(grade) = counting(minimum, link.wants.flag()) {
        let name = link.name.copy(alloc)?;
        let found = flags.get(&name).copied();
        let _earlier = flags.insert(name, less_stable_grade(found, grade))?;
    }
    Ok(())
}

/// The less stable of what was found, if anything, and another stability.
fn less_stable_grade(found: Option<Grade>, grade: Grade) -> Grade
    ensures { less_stable found (Some grade) ≡ Some result }
{
    match found {
        None => grade,
        Some(first) => {
            if first.rank() < grade.rank() {
                grade
            } else {
                first
            }
        }
    }
}

/// Adds the flags of requirements.
fn put_flags(
    alloc: Global,
    flags: &mut BTreeMap<Name, Grade>,
    minimum: Grade,
    links: &[Link],
) -> Result<(), AllocError>
    ensures { OnOk result ((name : List ℕ) → get byte_cmp flags.new name ≡ flag_from minimum name (get byte_cmp flags.old name) links.now) }
{
    for link in links {
        put_flag(alloc, flags, minimum, link)?;
    }
    Ok(())
}

impl RootFlags {
    /// The flags of a root. Its one refusal is want of memory.
    #[tactic(auto, unfolding(crate::specs::Stability::root_flag))]
    pub fn of(alloc: Global, root: &Manifest) -> Result<RootFlags, AllocError>
        ensures { IfOk result (λ flags. AreFlagsOf flags root.now) }
    {
        let mut flags = BTreeMap::new(alloc);
        put_flags(
            alloc,
            &mut flags,
            root.minimum,
            root.package.require.as_slice(),
        )?;
        put_flags(alloc, &mut flags, root.minimum, root.require_dev.as_slice())?;
        Ok(RootFlags {
            minimum: root.minimum,
            flags,
        })
    }

    /// The flags that count, by name: for a name without one the root's minimum stability holds. Takes no memory.
    pub fn by_name(&self) -> &BTreeMap<Name, Grade>
        ensures { (root : Manifest) → AreFlagsOf self.now root → (name : List ℕ) → get byte_cmp result.now name ≡ root_flag root name }
    {
        &self.flags
    }

    /// Whether a candidate is allowed, as [`allowed`] says it. Takes no memory.
    #[tactic(auto, unfolding(crate::specs::Stability::is_allowed))]
    pub fn allow(&self, candidate: &Candidate) -> bool
        ensures { (root : Manifest) → AreFlagsOf self.now root → result ≡ is_allowed root candidate.now }
    {
        let bound = match self.flags.get(&candidate.package.name) {
            Some(grade) => *grade,
            None => self.minimum,
        };
        stability(&candidate.package.version).rank() <= bound.rank()
    }
}
