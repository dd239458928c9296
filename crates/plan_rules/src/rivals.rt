//! Which packages can't be installed beside others.

ghost use Rattle.std.specs.Prelude.{◌≡◌, ◌++◌, ◌&&◌, ℕ, List, [], true, false, Some, length, map, IfOk, OnOk};
ghost use Rattle.std.specs.List.{list_any, slice_get};
ghost use Rattle.std.specs.Option.{option_map};
ghost use Rattle.pkg_pool.specs.Stability.{AreFlagsOf};
ghost use Rattle.pkg_pool.specs.declared.pool.Pool.{Pool};
ghost use Rattle.pkg_pool.specs.declared.pool.Candidate.{Candidate};
ghost use Rattle.plan_rules.specs.Sets.{set_of};
ghost use Rattle.plan_rules.specs.Breaking.{AreRight};
ghost use Rattle.plan_rules.specs.Fitting.{BreaksNone, root_suits, fits};
ghost use Rattle.plan_rules.specs.Offers.{rows_at, shown};
ghost use Rattle.plan_rules.specs.Rivals.{is_marked, opposed, conflicts_by, is_taking_among, is_hit_among, opposes_owner, opposes_replacer, taking_at, hit_at, owner_opposed, replacer_opposed, shares_in, conflicts_in, opposed_in, rivals_in, fits_alone, has_rival, fits_in, IsSideOf, AreRivalsOf};

use crate::by_name::ByName;
use crate::facts::Facts;
use crate::index::{Index, packages_of};
use crate::offers::Offer;
use manifest_read::{Link, Manifest, Package};
use path_name::Name;
use pkg_pool::{Candidate, Pool, RootFlags};
use std::alloc::{AllocError, Global};

/// A conflict of a package of a number.
#[derive(Clone, Copy)]
pub(crate) struct Opponent<'a> {
    number: u32,
    party: &'a Package,
    link: &'a Link,
}

/// By each name the packages of a list that stand for it, and those that can't be installed beside it.
#[derive(Drop)]
pub(crate) struct Side<'a> {
    index: Index<'a>,
    opponents: ByName<Opponent<'a>>,
}

/// Whether a number is marked.
fn is_marked(chosen: &[bool], number: u32) -> bool
    ensures { result ≡ is_marked chosen.now number }
{
    match chosen.get(number as usize) {
        Some(mark) => *mark,
        None => false,
    }
}

fn is_taking(chosen: &[bool], offer: &Offer<'_>) -> bool
    ensures { result ≡ is_taking_among chosen.now (shown offer.now) }
{
    is_marked(chosen, offer.number) && offer.takes()
}

/// Whether a marked one owns or replaces the name.
fn any_taking(chosen: &[bool], offers: &[Offer<'_>]) -> bool
    ensures { result ≡ list_any (λ offer. is_taking_among chosen.now (shown offer)) offers.now }
{
    offers.iter().any(|offer| is_taking(chosen, offer))
}

fn is_hit(chosen: &[bool], from: &Name, link: &Link, offer: &Offer<'_>) -> bool
    ensures { result ≡ is_hit_among chosen.now from.now link.now (shown offer.now) }
{
    is_marked(chosen, offer.number)
        && offer.takes()
        && offer.meets(link)
        && offer.party.name != *from
}

/// Whether a marked one of another name owns or replaces the name as wanted.
fn any_hit(chosen: &[bool], from: &Name, link: &Link, offers: &[Offer<'_>]) -> bool
    ensures { result ≡ list_any (λ offer. is_hit_among chosen.now from.now link.now (shown offer)) offers.now }
{
    offers.iter().any(|offer| is_hit(chosen, from, link, offer))
}

impl<'a> Opponent<'a> {
    fn opposes_owner(&self, chosen: &[bool], one: &Package) -> bool
        ensures { result ≡ opposes_owner chosen.now one.now (opposed self.now) }
    {
        is_marked(chosen, self.number)
            && one.name != self.party.name
            && self.link.wants.satisfies(&one.version)
    }

    fn opposes_replacer(&self, chosen: &[bool], one: &Package, link: &Link) -> bool
        ensures { result ≡ opposes_replacer chosen.now one.now link.now (opposed self.now) }
    {
        is_marked(chosen, self.number)
            && one.name != self.party.name
            && self.link.wants.meets(&link.wants)
    }
}

/// Whether a marked one can't be installed beside a package, by the package's own name.
fn any_opposes_owner(chosen: &[bool], one: &Package, opponents: &[Opponent<'_>]) -> bool
    ensures { result ≡ list_any (λ opponent. opposes_owner chosen.now one.now (opposed opponent)) opponents.now }
{
    opponents
        .iter()
        .any(|opponent| opponent.opposes_owner(chosen, one))
}

/// Whether a marked one can't be installed beside a package, by a name that it replaces.
fn any_opposes_replacer(
    chosen: &[bool],
    one: &Package,
    link: &Link,
    opponents: &[Opponent<'_>],
) -> bool
    ensures { result ≡ list_any (λ opponent. opposes_replacer chosen.now one.now link.now (opposed opponent)) opponents.now }
{
    opponents
        .iter()
        .any(|opponent| opponent.opposes_replacer(chosen, one, link))
}

/// Puts a package's conflicts at their names.
fn put_conflicts<'a>(
    lists: &mut ByName<Opponent<'a>>,
    alloc: Global,
    number: u32,
    party: &'a Package,
) -> Result<(), AllocError>
    ensures { OnOk result ((name : List ℕ) → map opposed (rows_at lists.new name) ≡ map opposed (rows_at lists.old name) ++ conflicts_by name number party.now) }
{
    for link in party.conflict.as_slice() {
        let opponent = Opponent {
            number,
            party,
            link,
        };
        lists.put(alloc, &link.name, opponent)?;
    }
    Ok(())
}

impl<'a> Side<'a> {
    /// The side of these packages, which are numbered from 0.
    pub(crate) fn of(alloc: Global, packages: &[&'a Package]) -> Result<Side<'a>, AllocError>
        ensures { IfOk result (λ side. IsSideOf side (map (λ party. party.now) packages.now)) }
    {
        let index = Index::of(alloc, packages)?;
        let mut opponents = ByName::empty(alloc);
        let mut number: u32 = 0;
        for party in packages {
            put_conflicts(&mut opponents, alloc, number, *party)?;
            number = number.checked_add(1).ok_or(AllocError)?;
        }
        Ok(Side { index, opponents })
    }

    fn is_taken(&self, chosen: &[bool], name: &Name) -> bool
        ensures { result ≡ taking_at self.now chosen.now name.now }
    {
        any_taking(chosen, self.index.rows_at(name))
    }

    /// Whether a marked one owns or replaces the name of one of some links.
    fn any_taken(&self, chosen: &[bool], links: &[Link]) -> bool
        ensures { result ≡ list_any (λ link. taking_at self.now chosen.now link.name) links.now }
    {
        links.iter().any(|link| self.is_taken(chosen, &link.name))
    }

    /// Whether a marked one owns or replaces a name that a package does.
    fn shares_name(&self, chosen: &[bool], one: &Package) -> bool
        ensures { result ≡ shares_in self.now chosen.now one.now }
    {
        self.is_taken(chosen, &one.name) || self.any_taken(chosen, one.replace.as_slice())
    }

    fn is_hit(&self, chosen: &[bool], from: &Name, link: &Link) -> bool
        ensures { result ≡ hit_at self.now chosen.now from.now link.now }
    {
        any_hit(chosen, from, link, self.index.rows_at(&link.name))
    }

    /// Whether a package can't be installed beside a marked one.
    fn conflicts(&self, chosen: &[bool], one: &Package) -> bool
        ensures { result ≡ conflicts_in self.now chosen.now one.now }
    {
        one.conflict
            .as_slice()
            .iter()
            .any(|link| self.is_hit(chosen, &one.name, link))
    }

    fn is_owner_opposed(&self, chosen: &[bool], one: &Package) -> bool
        ensures { result ≡ owner_opposed self.now chosen.now one.now }
    {
        any_opposes_owner(chosen, one, self.opponents.at(&one.name))
    }

    fn is_replacer_opposed(&self, chosen: &[bool], one: &Package, link: &Link) -> bool
        ensures { result ≡ replacer_opposed self.now chosen.now one.now link.now }
    {
        any_opposes_replacer(chosen, one, link, self.opponents.at(&link.name))
    }

    /// Whether a marked one can't be installed beside a package, by a name of these links, which the package replaces.
    fn any_replacer_opposed(&self, chosen: &[bool], one: &Package, links: &[Link]) -> bool
        ensures { result ≡ list_any (replacer_opposed self.now chosen.now one.now) links.now }
    {
        links
            .iter()
            .any(|link| self.is_replacer_opposed(chosen, one, link))
    }

    /// Whether a marked one can't be installed beside a package.
    fn is_opposed(&self, chosen: &[bool], one: &Package) -> bool
        ensures { result ≡ opposed_in self.now chosen.now one.now }
    {
        self.is_owner_opposed(chosen, one)
            || self.any_replacer_opposed(chosen, one, one.replace.as_slice())
    }

    /// Whether a package shares a name with one of the packages that are marked, by their numbers, or can't be
    /// installed beside it. Takes no memory; its time grows with the package's links, and for each with the packages
    /// that stand for its name or are in conflict with it.
    pub(crate) fn has_rival(&self, chosen: &[bool], one: &Package) -> bool
        ensures { result ≡ rivals_in self.now chosen.now one.now }
    {
        self.shares_name(chosen, one) || self.conflicts(chosen, one) || self.is_opposed(chosen, one)
    }
}

/// Of each candidate of a pool, whether the root allows it and it suits the platform that the root lists.
fn fits_alone(
    alloc: Global,
    root: &Manifest,
    candidates: &[Candidate],
) -> Result<Vec<bool>, AllocError>
    ensures { IfOk result (λ alone. alone.items ≡ map (fits_alone root.now) candidates.now) }
{
    let flags = RootFlags::of(alloc, root)?;
    let facts = Facts::of(alloc, root, &[])?;
    let mut alone = Vec::with_capacity(alloc, candidates.len())?;
    for candidate in candidates {
        alone.push(is_alone(&flags, &facts, candidate))?;
    }
    Ok(alone)
}

fn suits(facts: &Facts<'_>) -> bool
    requires { AreRight facts.now }
    ensures { result ≡ root_suits facts.now.root.now }
{
    let root = facts.root;
    facts.suits_platform(&root.package)
        && !facts.any_barred(&root.package.name, root.require_dev.as_slice())
}

/// Whether a root suits the platform that it lists.
fn root_suits(alloc: Global, root: &Manifest) -> Result<bool, AllocError>
    ensures { IfOk result (λ suits. suits ≡ root_suits root.now) }
{
    let facts = Facts::of(alloc, root, &[])?;
    Ok(suits(&facts))
}

fn is_alone(flags: &RootFlags, facts: &Facts<'_>, candidate: &Candidate) -> bool
    requires right { AreRight facts.now }
    requires flags { AreFlagsOf flags.now facts.now.root.now }
    ensures { result ≡ fits_alone facts.now.root.now candidate.now }
{
    flags.allow(candidate) && facts.suits_platform(&candidate.package)
}

/// What tells which candidates of a pool can be installed beside others of it: made once, and then asked of one
/// candidate after the other, each by its own names and links alone.
#[derive(Drop)]
pub struct Rivals<'a> {
    candidates: &'a [Candidate],
    alone: Vec<bool>,
    root_alone: bool,
    root: Side<'a>,
    side: Side<'a>,
}

impl<'a> Rivals<'a> {
    /// What tells it of this pool. Its one refusal is want of memory; it is answered too where the candidates' numbers
    /// don't fit, which 2^32 of them would take. Besides sorting by names its time grows with the links of the root and
    /// of the candidates.
    pub fn of(alloc: Global, pool: &'a Pool) -> Result<Rivals<'a>, AllocError>
        ensures { IfOk result (λ rivals. AreRivalsOf rivals pool.now) }
    {
        let candidates = pool.candidates.as_slice();
        let alone = fits_alone(alloc, &pool.root, candidates)?;
        let root_alone = root_suits(alloc, &pool.root)?;
        let root = Side::of(alloc, &[&pool.root.package])?;
        let packages = packages_of(alloc, candidates)?;
        let side = Side::of(alloc, packages.as_slice())?;
        Ok(Rivals {
            candidates,
            alone,
            root_alone,
            root,
            side,
        })
    }

    /// Whether the root alone breaks no rule, but that requirements of it may be unmet. Takes no memory.
    pub fn root_fits(&self) -> bool
        ensures yes { (pool : Pool) → AreRivalsOf self.now pool → result ≡ true → BreaksNone pool [] }
        ensures no { (pool : Pool) → AreRivalsOf self.now pool → result ≡ false → BreaksNone pool [] → ⊥ }
    {
        self.root_alone
    }

    fn candidate_at(&self, number: u32) -> Option<&Candidate>
        ensures { option_map (λ one. one.now) result ≡ slice_get self.now.candidates.now number }
    {
        self.candidates.get(number as usize)
    }

    fn fits_one(&self, chosen: &[bool], number: u32, one: &Candidate) -> bool
        ensures { result ≡ fits_in self.now chosen.now number one.now }
    {
        is_marked(self.alone.as_slice(), number) && !self.has_rival(chosen, &one.package)
    }

    fn has_rival(&self, chosen: &[bool], one: &Package) -> bool
        ensures { result ≡ has_rival self.now chosen.now one.now }
    {
        self.root.has_rival(&[true], one) || self.side.has_rival(chosen, one)
    }

    /// Whether the candidate of a number breaks no rule beside the root and the candidates that are marked, but that
    /// requirements may be unmet: the root allows it, it suits the platform that the root lists, it shares no name with
    /// them, and no conflict stands between it and one of them. A number that the pool doesn't have doesn't fit. Takes no
    /// memory; its time grows with the candidate's links, and for each with the packages that stand for its name or have
    /// a conflict of that name.
    pub fn fits(&self, chosen: &[bool], number: u32) -> bool
        ensures { (pool : Pool) (before : List ℕ) (one : Candidate) → AreRivalsOf self.now pool → chosen.now ≡ set_of (length pool.candidates) before →
            slice_get pool.candidates number ≡ Some one → result ≡ fits pool before one }
    {
        match self.candidate_at(number) {
            Some(one) => self.fits_one(chosen, number, one),
            None => false,
        }
    }
}
