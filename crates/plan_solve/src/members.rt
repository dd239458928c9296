//! The members that a search chose so far, and what is required with them.

ghost use Rattle.std.specs.Prelude.{◌≡◌, ◌++◌, ◌∷◌, ◌<◌, ◌≤◌, ℕ, List, [], None, Some, false, length, map, drop, slice_set, vec_len, All, IfOk, OnOk, IfSome};
ghost use Rattle.std.specs.Option.{MatchOption, option_map_or};
ghost use Rattle.std.specs.List.{slice_get};
ghost use Rattle.manifest_read.specs.declared.types.Link.{Link};
ghost use Rattle.pkg_pool.specs.declared.pool.Pool.{Pool};
ghost use Rattle.plan_rules.specs.Sets.{is_in};
ghost use Rattle.plan_rules.specs.Preference.{AreAlternatives, package_at};
ghost use Rattle.plan_rules.specs.FirstChoice.{first_unmet, queue};
ghost use Rattle.plan_solve.specs.Search.{IsRight, IsNeed, AreMembers, NoneWaits, IsPending, first_place, waits_by, requires_of, links_of, AreNeeds, AreAside};

use crate::context::Context;
use crate::search::Pending;
use manifest_read::Link;
use pkg_pool::Pool;
use std::alloc::{AllocError, Global};
use std::collections::BTreeMap;

/// A requirement.
#[derive(Drop)]
pub(crate) struct Need<'a> {
    /// What is required.
    pub(crate) link: &'a Link,
    /// Its alternatives, the preferred ones first, where they were put in order and no choice is being made of them.
    pub(crate) sorted: Option<Vec<u32>>,
}

/// The root and the members that were chosen.
#[derive(Drop)]
pub(crate) struct Members<'a> {
    /// Of each candidate, whether it was chosen.
    pub(crate) marks: Vec<bool>,
    /// What is required, in order: by the root, by the root for development, and by each member in order of choice.
    pub(crate) queue: Vec<Need<'a>>,
    /// What candidates require that were members and were taken back, by their numbers.
    pub(crate) aside: BTreeMap<u32, Vec<Need<'a>>>,
}

/// Marks a place or takes its mark back, where there is such a place.
fn mark(marks: &mut Vec<bool>, number: u32, is_chosen: bool)
    ensures { marks.new.items ≡ slice_set marks.old.items number is_chosen }
{
    let place = number as usize;
    if place < marks.len() {
        marks[place] = is_chosen;
    }
}

fn put_links<'a>(queue: &mut Vec<Need<'a>>, links: &'a [Link]) -> Result<(), AllocError>
    ensures links { OnOk result (links_of queue.new.items ≡ links_of queue.old.items ++ links.now) }
    ensures needs { OnOk result ((pool : Pool) → All (IsNeed pool) queue.old.items → All (IsNeed pool) queue.new.items) }
{
    for link in links {
        queue.push(Need { link, sorted: None })?;
    }
    Ok(())
}

/// Sets aside what the candidate of a number requires.
fn set_aside<'a>(
    aside: &mut BTreeMap<u32, Vec<Need<'a>>>,
    number: u32,
    needs: Vec<Need<'a>>,
) -> Result<(), AllocError>
    ensures { OnOk result ((pool : Pool) → AreAside pool aside.old → AreNeeds pool number needs.entry → AreAside pool aside.new) }
{
    if needs.is_empty() {
        return Ok(());
    }
    aside.insert(number, needs)?;
    Ok(())
}

/// What the candidate of a number requires.
fn requires_of(pool: &Pool, number: u32) -> &[Link]
    ensures { result.now ≡ requires_of pool.now number }
{
    match pool.candidates.as_slice().get(number as usize) {
        Some(one) => one.package.require.as_slice(),
        None => &[],
    }
}

impl<'a> Members<'a> {
    /// The root alone.
    pub(crate) fn none(alloc: Global, pool: &'a Pool) -> Result<Members<'a>, AllocError>
        ensures { IfOk result (λ members. AreMembers pool.now [] members) }
    {
        let marks = vec![in alloc; false; pool.candidates.as_slice().len()]?;
        let mut queue = Vec::new(alloc);
        put_links(&mut queue, pool.root.package.require.as_slice())?;
        put_links(&mut queue, pool.root.require_dev.as_slice())?;
        Ok(Members {
            marks,
            queue,
            aside: BTreeMap::new(alloc),
        })
    }

    /// Puts what a candidate requires behind all else, with the alternatives that were put in order when it was a member.
    fn put_needs(&mut self, pool: &'a Pool, number: u32) -> Result<(), AllocError>
        ensures links { (before : List ℕ) → AreMembers pool.now before self.old → OnOk result (links_of self.new.queue.items ≡ links_of self.old.queue.items ++ requires_of pool.now number) }
        ensures needs { (before : List ℕ) → AreMembers pool.now before self.old → OnOk result (All (IsNeed pool.now) self.new.queue.items) }
        ensures aside { (before : List ℕ) → AreMembers pool.now before self.old → AreAside pool.now self.new.aside }
        ensures marks { self.new.marks ≡ self.old.marks }
    {
        match self.aside.remove(&number) {
            Some(mut needs) => self.queue.append(&mut needs),
            None => put_links(&mut self.queue, requires_of(pool, number)),
        }
    }

    /// One more member.
    pub(crate) fn put(&mut self, pool: &'a Pool, number: u32) -> Result<(), AllocError>
        ensures { OnOk result ((before : List ℕ) → AreMembers pool.now before self.old → AreMembers pool.now (before ++ number ∷ []) self.new) }
    {
        self.put_needs(pool, number)?;
        mark(&mut self.marks, number, true);
        Ok(())
    }

    /// The members without the last one. What it requires is set aside.
    pub(crate) fn take_back(&mut self, pool: &Pool, number: u32) -> Result<(), AllocError>
        ensures { OnOk result ((before : List ℕ) → is_in number before ≡ false → AreMembers pool.now (before ++ number ∷ []) self.old → AreMembers pool.now before self.new) }
    {
        let count = requires_of(pool, number).len();
        let kept = self.queue.len().saturating_sub(count);
        let needs = self.queue.split_off(kept)?;
        set_aside(&mut self.aside, number, needs)?;
        mark(&mut self.marks, number, false);
        Ok(())
    }

    /// The place of the first requirement from a place on that no member meets.
    fn first_waiting(&self, context: &Context<'a>, from: usize) -> Option<usize>
        requires { IsRight context.now }
        ensures first { result ≡ first_place (waits_by context.now.pool.now self.now.marks.items) from (drop from (links_of self.now.queue.items)) }
        ensures within { IfSome result (λ place. place < vec_len self.now.queue) }
    {
        for place in from..self.queue.len() {
            if context.waits(self.marks.as_slice(), self.queue[place].link) {
                return Some(place);
            }
        }
        None
    }

    /// Takes the alternatives of the requirement at a place, which are put in order where they never were.
    fn alternatives(
        &mut self,
        alloc: Global,
        context: &Context<'a>,
        place: usize,
    ) -> Result<Vec<u32>, AllocError>
        requires right { IsRight context.now }
        requires within { place < vec_len self.old.queue }
        ensures all { (before : List ℕ) (need : Link) → AreMembers context.now.pool.now before self.old → slice_get (queue context.now.pool.now before) place ≡ Some need → IfOk result (λ list. AreAlternatives context.now.pool.now need list.items) }
        ensures members { (before : List ℕ) → AreMembers context.now.pool.now before self.old → AreMembers context.now.pool.now before self.new }
    {
        match self.queue[place].sorted.take() {
            Some(sorted) => Ok(sorted),
            None => context.alternatives(alloc, self.queue[place].link),
        }
    }

    /// Keeps the alternatives of the requirement at a place, as they are in order.
    pub(crate) fn keep(&mut self, pool: &Pool, place: usize, sorted: Vec<u32>)
        ensures { (before : List ℕ) (need : Link) → AreMembers pool.now before self.old → slice_get (queue pool.now before) place ≡ Some need → AreAlternatives pool.now need sorted.items → AreMembers pool.now before self.new }
    {
        if place < self.queue.len() {
            self.queue[place].sorted = Some(sorted);
        }
    }

    /// The first requirement that no member meets, with its alternatives. Those before a place are met.
    pub(crate) fn pending(
        &mut self,
        alloc: Global,
        context: &Context<'a>,
        from: usize,
    ) -> Result<Option<Pending>, AllocError>
        requires { IsRight context.now }
        ensures next { (before : List ℕ) → AreMembers context.now.pool.now before self.old → NoneWaits context.now.pool.now before from →
            IfOk result (λ next. MatchOption next (first_unmet context.now.pool.now before ≡ None)
            (λ pending. IsPending context.now.pool.now before pending × (length pending.alternatives.items ≤ length context.now.pool.now.candidates))) }
        ensures members { (before : List ℕ) → AreMembers context.now.pool.now before self.old → AreMembers context.now.pool.now before self.new }
    {
        let Some(place) = self.first_waiting(context, from) else {
            return Ok(None);
        };
        let alternatives = self.alternatives(alloc, context, place)?;
        Ok(Some(Pending {
            place,
            alternatives,
            passed: 0,
        }))
    }
}
