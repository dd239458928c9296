//! Packages that wait for what they require.

ghost use Rattle.std.specs.Prelude.{◌≡◌, ◌≤◌, ◌<◌, ◌+◌, ℕ, true, false, not, ◌&&◌, ◌==◌, [], ◌∷◌, ◌++◌, length, IfOk, OnOk, IfSome, IfNone, slice_index_or};
ghost use Rattle.psr_routes.specs.Numbers.{list_at};
ghost use Rattle.psr_routes.specs.Waiting.{Key, is_in, is_awaited, awaits, number_at, required_at, key_of, count_of, Fits, Passes, Waits, Holds, IsBlank, IsNext};

use crate::needs::Needs;
use std::alloc::{AllocError, Global};
use std::collections::BTreeSet;
use std::mem;

/// The packages that remain. They are told by their places, and in sets by the number of their name and their place, so
/// that they stand by name.
#[derive(Drop)]
pub struct Queue {
    /// Those that are not taken.
    pub rest: BTreeSet<(usize, usize)>,
    /// Those of them that wait for none.
    pub ready: BTreeSet<(usize, usize)>,
    /// How many of those that are not taken bear a name.
    pub bearers: Vec<usize>,
    /// How many of the names that a package requires it is known not to wait for, from the first on.
    pub passed: Vec<usize>,
    /// The packages that were seen to wait for a name.
    pub parked: Vec<Vec<usize>>,
    /// The packages that are to be looked at.
    pub unseen: Vec<usize>,
}

impl Queue {
    /// All packages, each looked at. Its one refusal is want of memory.
    pub fn of(alloc: Global, needs: &Needs) -> Result<Queue, AllocError>
        requires { Fits needs.now }
        ensures waits { IfOk result (λ queue. Waits needs.now queue []) }
        ensures unseen { IfOk result (λ queue. queue.unseen.items ≡ []) }
        ensures all { IfOk result (λ queue. (place : ℕ) → place < count_of needs.now → is_in queue.rest (key_of needs.now place) ≡ true) }
    {
        let count = needs.numbers.len();
        let mut queue = Queue::empty(alloc, count)?;
        for place in 0..count {
            queue.put(needs, place)?;
        }
        queue.settle(needs)?;
        Ok(queue)
    }

    /// The queue without packages, with room for as many as count says.
    fn empty(alloc: Global, count: usize) -> Result<Queue, AllocError>
        ensures { IfOk result (IsBlank count) }
    {
        Ok(Queue {
            rest: BTreeSet::new(alloc),
            ready: BTreeSet::new(alloc),
            bearers: vec![in alloc; 0; count]?,
            passed: vec![in alloc; 0; count]?,
            parked: empty_lists(alloc, count)?,
            unseen: Vec::with_capacity(alloc, count)?,
        })
    }

    /// Puts the package at a place, which is to be looked at.
    fn put(&mut self, needs: &Needs, place: usize) -> Result<(), AllocError>
        requires fits { Fits needs.now }
        requires within { place < count_of needs.now }
        requires holds { Holds needs.now self.old place }
        ensures { OnOk result (Holds needs.now self.new (place + 1)) }
    {
        let number = needs.numbers[place];
        self.rest.insert((number, place))?;
        self.bearers[number] += 1;
        self.unseen.push(place)?;
        Ok(())
    }

    /// The next package: the first of those that wait for none, or else of all that remain.
    pub fn next(&mut self, needs: &Needs) -> Option<(usize, usize)>
        requires { Waits needs.now self.old [] }
        ensures next { IfSome result (IsNext self.old) }
        ensures none { IfNone result (self.old.rest.keys ≡ []) }
        ensures waits { IfSome result (λ key. Waits needs.now self.new (key.1 ∷ [])) }
        ensures apart { IfSome result (λ key. is_in self.new.ready key ≡ false) }
        ensures rest { self.new.rest ≡ self.old.rest }
        ensures unseen { self.new.unseen ≡ self.old.unseen }
        ensures unchanged { IfNone result (self.new ≡ self.old) }
    {
        match self.ready.pop_first() {
            Some(key) => Some(key),
            None => self.rest.first().copied(),
        }
    }

    /// Takes a package. Those that were parked at its name are to be looked at where at most one that bears it remains.
    pub fn remove(&mut self, alloc: Global, needs: &Needs, number: usize, place: usize)
        requires waits { Waits needs.now self.old (place ∷ []) }
        requires within { is_in self.old.rest (number, place) ≡ true }
        requires apart { is_in self.old.ready (number, place) ≡ false }
        requires unseen { self.old.unseen.items ≡ [] }
        ensures waits { Waits needs.now self.new self.new.unseen.items }
        ensures removed { (key : Key) → is_in self.new.rest key ≡ is_in self.old.rest key && not (key.1 == place) }
    {
        self.rest.remove(&(number, place));
        self.bearers[number] -= 1;
        if self.bearers[number] <= 1 {
            self.unseen = mem::replace(&mut self.parked[number], Vec::new(alloc));
        }
    }

    /// Looks at the packages that are to be looked at.
    pub fn settle(&mut self, needs: &Needs) -> Result<(), AllocError>
        requires { Waits needs.now self.old self.old.unseen.items }
        ensures waits { OnOk result (Waits needs.now self.new []) }
        ensures unseen { OnOk result (self.new.unseen.items ≡ []) }
        ensures rest { self.new.rest ≡ self.old.rest }
    {
        while let Some(place) = self.unseen.pop() {
            self.look_at(needs, place)?;
        }
        Ok(())
    }

    /// Puts a package that remains among those that wait for none, or parks it at a name that it waits for.
    fn look_at(&mut self, needs: &Needs, place: usize) -> Result<(), AllocError>
        requires { Waits needs.now self.old (self.old.unseen.items ++ place ∷ []) }
        ensures waits { OnOk result (Waits needs.now self.new self.new.unseen.items) }
        ensures unseen { self.new.unseen ≡ self.old.unseen }
        ensures rest { self.new.rest ≡ self.old.rest }
    {
        let number = needs.numbers[place];
        if self.rest.contains(&(number, place)) {
            self.put_among(needs, number, place)
        } else {
            Ok(())
        }
    }

    /// Puts a package among those that are ready, or parks it at the first of its required names that it waits for.
    fn put_among(&mut self, needs: &Needs, number: usize, place: usize) -> Result<(), AllocError>
        requires waits { Waits needs.now self.old (self.old.unseen.items ++ place ∷ []) }
        requires number { number ≡ number_at needs.now place }
        requires within { is_in self.old.rest (number, place) ≡ true }
        ensures waits { OnOk result (Waits needs.now self.new self.new.unseen.items) }
        ensures unseen { self.new.unseen ≡ self.old.unseen }
        ensures rest { self.new.rest ≡ self.old.rest }
    {
        let required = needs.required[place].as_slice();
        let at = self.first_awaited(number, required, self.passed[place]);
        if at < required.len() {
            self.park(needs, place, at)
        } else {
            self.make_ready(needs, place, at)
        }
    }

    /// Parks a package at one of the names that it requires, for which it waits.
    fn park(&mut self, needs: &Needs, place: usize, at: usize) -> Result<(), AllocError>
        requires waits { Waits needs.now self.old (self.old.unseen.items ++ place ∷ []) }
        requires passes { Passes needs.now self.old place at }
        requires awaits { (at < length (required_at needs.now place)) × (awaits needs.now self.old place at ≡ true) }
        ensures waits { OnOk result (Waits needs.now self.new self.new.unseen.items) }
        ensures unseen { self.new.unseen ≡ self.old.unseen }
        ensures rest { self.new.rest ≡ self.old.rest }
    {
        let name = needs.required[place][at];
        self.passed[place] = at;
        self.parked[name].push(place)?;
        Ok(())
    }

    /// Puts a package that waits for none of the names that it requires among those that are ready.
    fn make_ready(&mut self, needs: &Needs, place: usize, at: usize) -> Result<(), AllocError>
        requires waits { Waits needs.now self.old (self.old.unseen.items ++ place ∷ []) }
        requires passes { Passes needs.now self.old place at }
        requires all { at ≡ length (required_at needs.now place) }
        requires within { is_in self.old.rest (key_of needs.now place) ≡ true }
        ensures waits { OnOk result (Waits needs.now self.new self.new.unseen.items) }
        ensures unseen { self.new.unseen ≡ self.old.unseen }
        ensures rest { self.new.rest ≡ self.old.rest }
    {
        self.passed[place] = at;
        self.ready.insert((needs.numbers[place], place))?;
        Ok(())
    }

    /// The first of the required names, from one on, for which a package waits.
    fn first_awaited(&self, number: usize, required: &[usize], from: usize) -> usize
        requires from { from ≤ length required.now }
        requires within { (at : ℕ) → at < length required.now → slice_index_or required.now at 0 < length self.now.bearers.items }
        ensures from { from ≤ result }
        ensures within { result ≤ length required.now }
        ensures passed { (at : ℕ) → from ≤ at → at < result → is_awaited self.now.bearers.items number (slice_index_or required.now at 0) ≡ false }
        ensures awaited { result < length required.now → is_awaited self.now.bearers.items number (slice_index_or required.now result 0) ≡ true }
    {
        let mut at = from;
        while at < required.len() && !self.is_awaited(number, required[at]) {
            at += 1;
        }
        at
    }

    /// Whether a package that remains waits for a name: where it bears that one itself, it does so while another one does.
    fn is_awaited(&self, number: usize, name: usize) -> bool
        requires { name < length self.now.bearers.items }
        ensures { result ≡ is_awaited self.now.bearers.items number name }
    {
        let own = if number == name { 1 } else { 0 };
        own < self.bearers[name]
    }
}

fn empty_lists(alloc: Global, count: usize) -> Result<Vec<Vec<usize>>, AllocError>
    ensures count { IfOk result (λ lists. length lists.items ≡ count) }
    ensures each { IfOk result (λ lists. (at : ℕ) → list_at lists.items at ≡ []) }
{
    let mut lists = Vec::with_capacity(alloc, count)?;
    for _ in 0..count {
        lists.push(Vec::new(alloc))?;
    }
    Ok(lists)
}
