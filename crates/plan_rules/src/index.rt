//! Which packages stand for a name.

ghost use Rattle.std.specs.Prelude.{◌≡◌, ◌++◌, ℕ, List, Some, None, map, find, not, ◌&&◌, IfOk, OnOk};
ghost use Rattle.std.specs.List.{list_any};
ghost use Rattle.std.specs.Option.{option_map};
ghost use Rattle.std.specs.BTreeMap.{IsOrdered};
ghost use Rattle.path_name.specs.Orders.{byte_cmp, bytes_are_equal};
ghost use Rattle.manifest_read.specs.declared.types.Package.{Package};
ghost use Rattle.pkg_pool.specs.declared.pool.Pool.{Pool};
ghost use Rattle.plan_rules.specs.Requirements.{meets};
ghost use Rattle.plan_rules.specs.Validity.{first_rule, two_owners, is_against};
ghost use Rattle.plan_rules.specs.Offers.{rows_at, shown, way_shown, way_by, linked, offers_by, offers_from, owners_of, rule_of_offers, IsIndexOf};

use crate::by_name::ByName;
use crate::offers::{Offer, Standing, any_meets, first_against, two_takers};
use crate::rule::Rule;
use manifest_read::{Link, Package};
use path_name::Name;
use pkg_pool::{Candidate, Pool};
use std::alloc::{AllocError, Global};

/// The links by which a package stands for names that it doesn't own.
#[derive(Clone, Copy)]
enum LinkKind {
    Replace,
    Provide,
}

/// By each name the packages of a list that own, replace or provide it. Solvers and the checker of plans share it: what
/// meets a requirement is looked for among the packages of its name alone.
#[derive(Drop)]
pub struct Index<'a> {
    offers: ByName<Offer<'a>>,
}

fn standing_by<'a>(kind: LinkKind, link: &'a Link) -> Standing<'a>
    ensures { way_shown result ≡ way_by kind link.now }
{
    match kind {
        LinkKind::Replace => Standing::Replaces(link),
        LinkKind::Provide => Standing::Provides(link),
    }
}

/// Puts a package at the names of some of its links.
fn put_links<'a>(
    lists: &mut ByName<Offer<'a>>,
    alloc: Global,
    number: u32,
    party: &'a Package,
    kind: LinkKind,
    links: &'a [Link],
) -> Result<(), AllocError>
    ensures { OnOk result ((name : List ℕ) → map shown (rows_at lists.new name) ≡ map shown (rows_at lists.old name) ++ linked name number party.now (way_by kind) links.now) }
{
    for link in links {
        let standing = standing_by(kind, link);
        let offer = Offer {
            number,
            party,
            standing,
        };
        lists.put(alloc, &link.name, offer)?;
    }
    Ok(())
}

/// Puts a package at its own name.
fn put_owner<'a>(
    lists: &mut ByName<Offer<'a>>,
    alloc: Global,
    number: u32,
    party: &'a Package,
) -> Result<(), AllocError>
    ensures { OnOk result ((name : List ℕ) → map shown (rows_at lists.new name) ≡ map shown (rows_at lists.old name) ++ owners_of name number party.now) }
{
    let offer = Offer {
        number,
        party,
        standing: Standing::Owns,
    };
    lists.put(alloc, &party.name, offer)
}

/// Puts a package at each name that it stands for.
fn put_package<'a>(
    lists: &mut ByName<Offer<'a>>,
    alloc: Global,
    number: u32,
    party: &'a Package,
) -> Result<(), AllocError>
    ensures { OnOk result ((name : List ℕ) → map shown (rows_at lists.new name) ≡ map shown (rows_at lists.old name) ++ offers_by name number party.now) }
{
    put_owner(lists, alloc, number, party)?;
    put_links(
        lists,
        alloc,
        number,
        party,
        LinkKind::Replace,
        party.replace.as_slice(),
    )?;
    put_links(
        lists,
        alloc,
        number,
        party,
        LinkKind::Provide,
        party.provide.as_slice(),
    )
}

/// The packages of a pool's candidates.
pub(crate) fn packages_of<'a>(
    alloc: Global,
    candidates: &'a [Candidate],
) -> Result<Vec<&'a Package>, AllocError>
    ensures { IfOk result (λ list. map (λ party. party.now) list.items ≡ map (λ candidate. candidate.«package») candidates.now) }
{
    let mut list = Vec::with_capacity(alloc, candidates.len())?;
    for candidate in candidates {
        list.push(&candidate.package)?;
    }
    Ok(list)
}

/// Where no two packages own or replace one name there is no such rule; else that of the byte-least name.
fn first_owners(alloc: Global, lists: &ByName<Offer<'_>>) -> Result<Option<Rule>, AllocError>
    ensures rule { IfOk result (λ rule. rule ≡ first_rule (λ entry. rule_of_offers entry.0 (map shown entry.1.items)) lists.now.rows.entries) }
    ensures ordered { IsOrdered byte_cmp lists.now.rows }
{
    for (name, offers) in &lists.rows {
        if let Some((one, other)) = two_takers(offers.as_slice()) {
            let name = name.copy(alloc)?;
            let one = one.name.copy(alloc)?;
            let other = other.name.copy(alloc)?;
            return Ok(Some(Rule::TwoOwners(name, one, other)));
        }
    }
    Ok(None)
}

impl<'a> Index<'a> {
    /// The index of these packages, which are numbered from 0. Its one refusal is want of memory; it is answered too
    /// where the numbers don't fit, which 2^32 packages would take.
    pub fn of(alloc: Global, packages: &[&'a Package]) -> Result<Index<'a>, AllocError>
        ensures { IfOk result (λ index. IsIndexOf index (map (λ party. party.now) packages.now)) }
    {
        let mut offers = ByName::empty(alloc);
        let mut number: u32 = 0;
        for party in packages {
            put_package(&mut offers, alloc, number, *party)?;
            number = number.checked_add(1).ok_or(AllocError)?;
        }
        Ok(Index { offers })
    }

    /// The index of a pool's candidates, by their numbers in the pool. Its one refusal is want of memory, as of
    /// [`Index::of`].
    pub fn of_pool(alloc: Global, pool: &'a Pool) -> Result<Index<'a>, AllocError>
        ensures { IfOk result (λ index. IsIndexOf index (map (λ candidate. candidate.«package») pool.now.candidates)) }
    {
        let packages = packages_of(alloc, pool.candidates.as_slice())?;
        Index::of(alloc, packages.as_slice())
    }

    /// What stands for a name.
    pub(crate) fn rows_at(&self, name: &Name) -> &[Offer<'a>]
        ensures { result.now ≡ rows_at self.now.offers name.now }
    {
        self.offers.at(name)
    }

    /// The packages that own, replace or provide a name, in order, and how each does. Takes no memory.
    pub fn offers_at(&self, name: &Name) -> &[Offer<'a>]
        ensures { (list : List Package) → IsIndexOf self.now list → map shown result.now ≡ offers_from name.now 0 list }
    {
        self.offers.at(name)
    }

    /// Whether one of the packages meets a requirement: it owns the name in a version that satisfies the constraint, or
    /// it replaces or provides the name by a constraint that meets the required one. Takes no memory.
    pub fn meets(&self, need: &Link) -> bool
        ensures { (list : List Package) → IsIndexOf self.now list → result ≡ list_any (meets need.now) list }
    {
        any_meets(self.offers.at(&need.name), need)
    }

    /// The first package of another name than `from` that owns or replaces a link's name as the link wants it. Takes no
    /// memory.
    pub fn against(&self, from: &Name, link: &Link) -> Option<&'a Package>
        ensures { (list : List Package) → IsIndexOf self.now list →
            option_map (λ party. party.now) result ≡ find (λ party. not (bytes_are_equal party.name from.now) && is_against link.now party) list }
    {
        first_against(self.offers.at(&link.name), from, link)
    }

    /// The rule that two packages own or replace one name: of the byte-least such name and the first two. Its one
    /// refusal is want of memory.
    pub fn two_owners(&self, alloc: Global) -> Result<Option<Rule>, AllocError>
        ensures { (list : List Package) → IsIndexOf self.now list → IfOk result (λ rule. rule ≡ two_owners list) }
    {
        first_owners(alloc, &self.offers)
    }
}
