//! The candidates of a pool, one after the other.

ghost use Rattle.std.specs.Prelude.{◌≡◌, ◌++◌, ◌∷◌, [], List, ℕ, map, filter, length, if◌then◌else◌, IfOk, OnOk, false};
ghost use Rattle.std.specs.List.{list_any};
ghost use Rattle.path_name.specs.Orders.{bytes_are_equal};
ghost use Rattle.version_norm.specs.VersionOrder.{numbered_cmp};
ghost use Rattle.pkg_pool.specs.Outcomes.{Tells, is_free, is_device_fault};
ghost use Rattle.pkg_pool.specs.Gathering.{is_same_version, is_in_way, row_of, held_at, IsIndex, bytes_counted, with_candidate};

use crate::fault::PoolFault;
use crate::limits::{CANDIDATES, PACKAGES, POOL_BYTES};
use crate::pool::Candidate;
use path_name::Name;
use std::alloc::{AllocError, Global};
use std::cmp::Ordering;
use std::collections::BTreeMap;
use tree_dev::LimitKind;
use version_norm::{Version, compare_numbered};

/// What is asked of a candidate where another one has its name.
#[derive(Drop)]
pub struct Held {
    /// The number of its repository.
    pub repository: u32,
    /// Its version.
    pub version: Version,
}

/// What is gathered so far.
#[derive(Drop)]
pub struct Gathered {
    /// The bytes of the manifests that were read.
    pub bytes: u64,
    /// The candidates, in order.
    pub candidates: Vec<Candidate>,
    /// By name what is asked of the candidates, in their order.
    pub held: BTreeMap<Name, Vec<Held>>,
}

/// Nothing yet.
pub fn nothing(alloc: Global) -> Gathered
    ensures bytes { result.bytes ≡ 0 }
    ensures candidates { result.candidates.items ≡ [] }
    ensures index { IsIndex result.held [] }
{
    Gathered {
        bytes: 0,
        candidates: Vec::new(alloc),
        held: BTreeMap::new(alloc),
    }
}

/// Whether two versions are one: only equal numbered versions compare as equal.
pub fn is_same_version(a: &Version, b: &Version) -> bool
    ensures { result ≡ is_same_version a.now b.now }
{
    match (a, b) {
        (Version::Numbered(a), Version::Numbered(b)) => compare_numbered(a, b) == Ordering::Equal,
        (Version::Branch(a), Version::Branch(b)) => a == b,
        (Version::Numbered(_), Version::Branch(_)) | (Version::Branch(_), Version::Numbered(_)) => {
            false
        }
    }
}

/// Whether one of these of its name leaves a candidate out: it comes from an earlier repository, or has its version.
fn is_left_out(held: &[Held], number: u32, version: &Version) -> bool
    ensures { result ≡ list_any (is_in_way number version.now) held.now }
{
    held.iter().any(|row| row.repository != number || is_same_version(&row.version, version))
}

/// What is asked of the candidates of a name.
fn rows<'a>(held: &'a BTreeMap<Name, Vec<Held>>, name: &Name) -> &'a [Held]
    ensures { result.now ≡ held_at held.now name.now }
{
    match held.get(name) {
        None => &[],
        Some(rows) => rows.as_slice(),
    }
}

/// Adds to what is asked of the candidates of a name.
fn hold(
    alloc: Global,
    held: &mut BTreeMap<Name, Vec<Held>>,
    candidate: &Candidate,
) -> Result<(), AllocError>
    ensures { OnOk result ((name : List ℕ) → held_at held.new name
        ≡ held_at held.old name ++ (if bytes_are_equal candidate.now.package.name name then row_of candidate.now ∷ [] else [])) }
{
    let name = candidate.package.name.copy(alloc)?;
    let mut rows = match held.remove(&name) {
        None => Vec::new(alloc),
        Some(rows) => rows,
    };
    rows.push(Held {
        repository: candidate.repository,
        version: candidate.package.version.copy(alloc)?,
    })?;
    let _earlier = held.insert(name, rows)?;
    Ok(())
}

/// The bytes of the manifests with those of one more. `Limit` where they pass `POOL_BYTES`.
#[tactic(auto, unfolding(crate::specs::Gathering::bytes_counted))]
pub fn count_bytes(bytes: u64, text: &[u8]) -> Result<u64, PoolFault>
    ensures told { Tells (λ total. total) (bytes_counted bytes text.now) result }
    ensures no_device { is_device_fault result ≡ false }
{
    let total = bytes.saturating_add(text.len() as u64);
    if total > POOL_BYTES {
        return Err(PoolFault::Limit(LimitKind::PoolBytes));
    }
    Ok(total)
}

/// Adds a candidate behind the others, unless one of them leaves it out. `Limit` of the packages, then of those of its
/// name.
#[tactic(auto, unfolding(crate::specs::Gathering::with_candidate))]
pub fn add(
    alloc: Global,
    candidates: &mut Vec<Candidate>,
    held: &mut BTreeMap<Name, Vec<Held>>,
    candidate: Candidate,
) -> Result<(), PoolFault>
    requires { IsIndex held.old candidates.old.items }
    ensures told { Tells (λ done. candidates.new.items) (with_candidate candidates.old.items candidate) result }
    ensures index { OnOk result (IsIndex held.new candidates.new.items) }
    ensures no_device { is_device_fault result ≡ false }
{
    let name = &candidate.package.name;
    let same_name = rows(held, name);
    if is_left_out(same_name, candidate.repository, &candidate.package.version) {
        return Ok(());
    }
    if candidates.len() >= PACKAGES {
        return Err(PoolFault::Limit(LimitKind::Packages));
    }
    if same_name.len() >= CANDIDATES {
        return Err(PoolFault::Limit(LimitKind::Candidates(name.copy(alloc)?)));
    }
    hold(alloc, held, &candidate)?;
    candidates.push(candidate)?;
    Ok(())
}
