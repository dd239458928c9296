//! Where a search stands, and its steps.

ghost use Rattle.std.specs.Prelude.{◌≡◌, ◌<◌, ◌≤◌, ◌+◌, ◌++◌, ◌∷◌, ℕ, [], length, true, false, Some, IfOk};
ghost use Rattle.std.specs.List.{slice_get};
ghost use Rattle.plan_rules.specs.FirstChoice.{Extends, IsFirstChoice};
ghost use Rattle.plan_rules.specs.Fitting.{BreaksNone};
ghost use Rattle.plan_solve.specs.Answers.{HasNoPlan};
ghost use Rattle.plan_solve.specs.Search.{IsRight, IsSearch, chosen, work};

use crate::context::Context;
use crate::members::Members;
use pkg_pool::Pool;
use std::alloc::{AllocError, Global};
use std::mem;

/// The first requirement that is unmet behind some choices.
#[derive(Drop)]
pub(crate) struct Pending {
    /// Its place in the queue.
    pub(crate) place: usize,
    /// Its alternatives, the preferred ones first. They are taken from the requirement, and given back with the choice.
    pub(crate) alternatives: Vec<u32>,
    /// How many of them no valid set has beside those choices.
    pub(crate) passed: usize,
}

impl Pending {
    /// The next alternative that was not passed.
    pub(crate) fn next(&self) -> Option<u32>
        ensures { result ≡ slice_get self.now.alternatives.items self.now.passed }
    {
        self.alternatives.get(self.passed).copied()
    }

    /// Passes the next alternative.
    fn pass(&mut self)
        requires { self.old.passed < length self.old.alternatives.items }
        ensures { self.new ≡ record { place = self.old.place; alternatives = self.old.alternatives; passed = self.old.passed + 1 } }
    {
        self.passed += 1;
    }
}

/// A choice.
#[derive(Drop)]
pub(crate) struct Choice {
    /// What was chosen for.
    pub(crate) of: Pending,
    /// The number of the chosen candidate.
    pub(crate) member: u32,
}

/// A search.
#[derive(Drop)]
pub(crate) struct Search<'a> {
    /// The choices, in order.
    pub(crate) choices: Vec<Choice>,
    /// What is unmet behind them.
    pub(crate) pending: Pending,
    /// The root and what was chosen.
    pub(crate) members: Members<'a>,
}

impl<'a> Search<'a> {
    /// Whether the next alternative breaks no rule beside the choices, but that requirements may be unmet.
    pub(crate) fn fits(&self, context: &Context<'a>, member: u32) -> bool
        requires right { IsRight context.now }
        requires searched { IsSearch context.now.pool.now self.now }
        requires found { slice_get self.now.pending.alternatives.items self.now.pending.passed ≡ Some member }
        ensures yes { result ≡ true → BreaksNone context.now.pool.now (chosen self.now.choices.items ++ member ∷ []) }
        ensures no { result ≡ false → Extends context.now.pool.now (chosen self.now.choices.items) member → ⊥ }
    {
        context.fits(self.members.marks.as_slice(), member)
    }

    /// Passes the next alternative, which no valid set has beside the choices.
    pub(crate) fn pass(&mut self, pool: &Pool)
        requires searched { IsSearch pool.now self.old }
        requires dead { (choice : ℕ) → slice_get self.old.pending.alternatives.items self.old.pending.passed ≡ Some choice → Extends pool.now (chosen self.old.choices.items) choice → ⊥ }
        requires more { self.old.pending.passed < length self.old.pending.alternatives.items }
        ensures searched { IsSearch pool.now self.new }
        ensures less { work pool.now self.new.choices.items self.new.pending < work pool.now self.old.choices.items self.old.pending }
    {
        self.pending.pass();
    }

    /// Takes the last choice back, beside which every alternative was passed, and says whether there was one. The
    /// alternatives that were passed stay in order for a later choice.
    pub(crate) fn take_back(&mut self, pool: &Pool) -> Result<bool, AllocError>
        requires searched { IsSearch pool.now self.old }
        requires all { length self.old.pending.alternatives.items ≤ self.old.pending.passed }
        ensures searched { IfOk result (λ more. more ≡ true → IsSearch pool.now self.new) }
        ensures less { IfOk result (λ more. more ≡ true → work pool.now self.new.choices.items self.new.pending < work pool.now self.old.choices.items self.old.pending) }
        ensures none { IfOk result (λ more. more ≡ false → HasNoPlan pool.now) }
    {
        let Some(mut last) = self.choices.pop() else {
            return Ok(false);
        };
        last.of.pass();
        let passed = mem::replace(&mut self.pending, last.of);
        self.members.keep(pool, passed.place, passed.alternatives);
        self.members.take_back(pool, last.member)?;
        Ok(true)
    }

    /// Chooses the next alternative, and says whether something is unmet behind it. Where nothing is, it is the last
    /// member of the plan and stands in no choice.
    pub(crate) fn choose(
        &mut self,
        alloc: Global,
        context: &Context<'a>,
        member: u32,
    ) -> Result<bool, AllocError>
        requires right { IsRight context.now }
        requires searched { IsSearch context.now.pool.now self.old }
        requires found { slice_get self.old.pending.alternatives.items self.old.pending.passed ≡ Some member }
        requires sound { BreaksNone context.now.pool.now (chosen self.old.choices.items ++ member ∷ []) }
        ensures searched { IfOk result (λ more. more ≡ true → IsSearch context.now.pool.now self.new) }
        ensures less { IfOk result (λ more. more ≡ true → work context.now.pool.now self.new.choices.items self.new.pending < work context.now.pool.now self.old.choices.items self.old.pending) }
        ensures done { IfOk result (λ more. more ≡ false → IsFirstChoice context.now.pool.now (chosen self.new.choices.items ++ member ∷ [])) }
    {
        self.members.put(context.pool, member)?;
        let next = self.members.pending(alloc, context, self.pending.place)?;
        let Some(next) = next else {
            return Ok(false);
        };
        let of = mem::replace(&mut self.pending, next);
        self.choices.push(Choice { of, member })?;
        Ok(true)
    }
}
