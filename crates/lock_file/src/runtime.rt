//! Which members of a plan are required at run time.

ghost use Rattle.std.specs.Prelude.{◌≡◌, [], ◌++◌, ◌∷◌, List, true, length, filter, not, map, slice_set, IfOk, OnOk};
ghost use Rattle.std.specs.List.{slice_get};
ghost use Rattle.manifest_read.specs.declared.types.Package.{Package};
ghost use Rattle.plan_rules.specs.Sets.{has, set_of};
ghost use Rattle.plan_rules.specs.Offers.{shown, offers_from, IsIndexOf};
ghost use Rattle.lock_file.specs.PlanLocks.{others, requirements_at, IsRuntime};
ghost use Rattle.lock_file.specs.Searches.{is_new, with_offer, with_offers, with_link, with_links, IsSearch, IsRight};

use manifest_read::Link;
use pkg_pool::Pool;
use plan_rules::{Index, Offer};
use std::alloc::{AllocError, Global};

/// The mark of a number, if it has one.
fn mark_of(marks: &[bool], number: u32) -> Option<bool>
    ensures { result ≡ slice_get marks.now number }
{
    marks.get(number as usize).copied()
}

/// Whether a number is marked.
fn is_marked(marks: &[bool], number: u32) -> bool
    ensures { result ≡ has marks.now number }
{
    mark_of(marks, number).unwrap_or(false)
}

/// Marks a number, where it has a place.
fn mark(marks: &mut Vec<bool>, number: u32)
    ensures { marks.new.items ≡ slice_set marks.old.items number true }
{
    let place = number as usize;
    if place < marks.len() {
        marks[place] = true;
    }
}

/// Of so many candidates, whether its number is among these.
pub(crate) fn marks(alloc: Global, count: usize, numbers: &[u32]) -> Result<Vec<bool>, AllocError>
    ensures { IfOk result (λ marks. marks.items ≡ set_of count numbers.now) }
{
    let mut marks = vec![in alloc; false; count]?;
    for number in numbers {
        mark(&mut marks, *number);
    }
    Ok(marks)
}

/// Whether an offer of a member that wasn't found yet meets a requirement.
fn is_new(planned: &[bool], marks: &[bool], need: &Link, offer: &Offer<'_>) -> bool
    ensures { result ≡ is_new planned.now marks.now need.now (shown offer.now) }
{
    is_marked(planned, offer.number) && !is_marked(marks, offer.number) && offer.meets(need)
}

/// The members of a plan that were found to be required, in the order in which they were, and of each candidate whether
/// it is one of them.
#[derive(Drop)]
struct Search {
    found: Vec<u32>,
    marks: Vec<bool>,
}

impl Search {
    /// Finds the member of an offer, if it is new and meets a requirement.
    fn find_offer(
        &mut self,
        planned: &[bool],
        need: &Link,
        offer: &Offer<'_>,
    ) -> Result<(), AllocError>
        requires { self.old.marks.items ≡ set_of (length planned.now) self.old.found.items }
        ensures found { OnOk result (self.new.found.items ≡ with_offer planned.now need.now self.old.found.items (shown offer.now)) }
        ensures marks { OnOk result (self.new.marks.items ≡ set_of (length planned.now) self.new.found.items) }
    {
        if is_new(planned, self.marks.as_slice(), need, offer) {
            self.found.push(offer.number)?;
            mark(&mut self.marks, offer.number);
        }
        Ok(())
    }

    /// Finds the members of offers that are new and meet a requirement.
    fn find_offers(
        &mut self,
        planned: &[bool],
        need: &Link,
        offers: &[Offer<'_>],
    ) -> Result<(), AllocError>
        requires { self.old.marks.items ≡ set_of (length planned.now) self.old.found.items }
        ensures found { OnOk result (self.new.found.items ≡ with_offers planned.now need.now self.old.found.items (map shown offers.now)) }
        ensures marks { OnOk result (self.new.marks.items ≡ set_of (length planned.now) self.new.found.items) }
    {
        for offer in offers {
            self.find_offer(planned, need, offer)?;
        }
        Ok(())
    }

    /// Finds the members that meet a requirement.
    fn find(&mut self, planned: &[bool], index: &Index<'_>, need: &Link) -> Result<(), AllocError>
        requires { self.old.marks.items ≡ set_of (length planned.now) self.old.found.items }
        ensures found { (list : List Package) → IsIndexOf index.now list → OnOk result (self.new.found.items ≡ with_link planned.now list self.old.found.items need.now) }
        ensures marks { OnOk result (self.new.marks.items ≡ set_of (length planned.now) self.new.found.items) }
    {
        self.find_offers(planned, need, index.offers_at(&need.name))
    }

    /// Finds the members that meet one of some requirements.
    fn find_all(
        &mut self,
        planned: &[bool],
        index: &Index<'_>,
        needs: &[Link],
    ) -> Result<(), AllocError>
        requires { self.old.marks.items ≡ set_of (length planned.now) self.old.found.items }
        ensures found { (list : List Package) → IsIndexOf index.now list → OnOk result (self.new.found.items ≡ with_links planned.now list self.old.found.items needs.now) }
        ensures marks { OnOk result (self.new.marks.items ≡ set_of (length planned.now) self.new.found.items) }
    {
        for need in needs {
            self.find(planned, index, need)?;
        }
        Ok(())
    }
}

/// A plan, with what is looked up in it.
#[derive(Drop)]
struct Plan<'a> {
    pool: &'a Pool,
    members: &'a [u32],
    /// Of each candidate, whether it is a member.
    marks: Vec<bool>,
    index: Index<'a>,
}

impl<'a> Plan<'a> {
    fn of(alloc: Global, pool: &'a Pool, members: &'a [u32]) -> Result<Plan<'a>, AllocError>
        ensures right { IfOk result IsRight }
        ensures same { IfOk result (λ plan. (plan.pool.now ≡ pool.now) × (plan.members.now ≡ members.now)) }
    {
        let index = Index::of_pool(alloc, pool)?;
        let marks = marks(alloc, pool.candidates.as_slice().len(), members)?;
        Ok(Plan {
            pool,
            members,
            marks,
            index,
        })
    }

    /// What a candidate requires.
    fn requirements(&self, number: u32) -> &[Link]
        ensures { result.now ≡ requirements_at self.now.pool.now number }
    {
        match self.pool.candidates.as_slice().get(number as usize) {
            Some(candidate) => candidate.package.require.as_slice(),
            None => &[],
        }
    }
}

impl Search {
    /// The members that meet a requirement of the root.
    fn begin(alloc: Global, plan: &Plan<'_>) -> Result<Search, AllocError>
        requires { IsRight plan.now }
        ensures begun { IfOk result (λ search. IsSearch plan.now.pool.now plan.now.members.now 0 search.found.items) }
        ensures marks { IfOk result (λ search. search.marks.items ≡ set_of (length plan.now.pool.now.candidates) search.found.items) }
    {
        let mut search = Search {
            found: Vec::new(alloc),
            marks: marks(alloc, plan.marks.len(), &[])?,
        };
        search.find_all(
            plan.marks.as_slice(),
            &plan.index,
            plan.pool.root.package.require.as_slice(),
        )?;
        Ok(search)
    }

    /// The member that was found at a place.
    fn at(&self, place: usize) -> Option<u32>
        ensures { result ≡ slice_get self.now.found.items place }
    {
        self.found.get(place).copied()
    }

    /// Finds the members that meet what the found ones require.
    fn go_on(&mut self, plan: &Plan<'_>) -> Result<(), AllocError>
        requires right { IsRight plan.now }
        requires begun { IsSearch plan.now.pool.now plan.now.members.now 0 self.old.found.items }
        requires marks { self.old.marks.items ≡ set_of (length plan.now.pool.now.candidates) self.old.found.items }
        ensures done { OnOk result (IsSearch plan.now.pool.now plan.now.members.now (length self.new.found.items) self.new.found.items) }
        ensures marks { OnOk result (self.new.marks.items ≡ set_of (length plan.now.pool.now.candidates) self.new.found.items) }
    {
        let mut looked = 0;
        while let Some(number) = self.at(looked) {
            self.find_all(
                plan.marks.as_slice(),
                &plan.index,
                plan.requirements(number),
            )?;
            looked += 1;
        }
        Ok(())
    }
}

/// Of each candidate of a pool, whether it is a member of a plan that is required at run time: it meets a requirement of
/// the root, or of such a member.
pub(crate) fn required_at_runtime(
    alloc: Global,
    pool: &Pool,
    members: &[u32],
) -> Result<Vec<bool>, AllocError>
    ensures runtime { IfOk result (λ set. IsRuntime pool.now members.now set.items) }
    ensures length { IfOk result (λ set. length set.items ≡ length pool.now.candidates) }
{
    let plan = Plan::of(alloc, pool, members)?;
    let mut search = Search::begin(alloc, &plan)?;
    search.go_on(&plan)?;
    Ok(search.marks)
}

/// The members of a plan that aren't marked.
pub(crate) fn others(alloc: Global, members: &[u32], marks: &[bool]) -> Result<Vec<u32>, AllocError>
    ensures { IfOk result (λ list. list.items ≡ others members.now marks.now) }
{
    let mut list = Vec::new(alloc);
    for number in members {
        if !is_marked(marks, *number) {
            list.push(*number)?;
        }
    }
    Ok(list)
}
