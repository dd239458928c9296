//! What a search asks of a pool.

ghost use Rattle.std.specs.Prelude.{◌≡◌, ◌≤◌, ◌<◌, ◌++◌, ◌∷◌, ◌&&◌, ℕ, List, [], true, false, length, map, Some, IfOk};
ghost use Rattle.std.specs.List.{list_any, slice_get};
ghost use Rattle.plan_rules.specs.Sets.{set_of};
ghost use Rattle.plan_rules.specs.Requirements.{meets, is_on_package};
ghost use Rattle.plan_rules.specs.Preference.{AreAlternatives};
ghost use Rattle.plan_rules.specs.Fitting.{BreaksNone};
ghost use Rattle.plan_rules.specs.Offers.{shown};
ghost use Rattle.plan_rules.specs.Rivals.{is_marked, any_marked};
ghost use Rattle.plan_solve.specs.Search.{IsRight, CanJoin, meets_among, met_by, waits_by};

use manifest_read::Link;
use pkg_pool::Pool;
use plan_rules::{Index, Offer, Rivals, alternatives};
use std::alloc::{AllocError, Global};

/// A pool, by each name the packages that stand for it, and what tells which candidates can stand beside others.
#[derive(Drop)]
pub(crate) struct Context<'a> {
    pub(crate) pool: &'a Pool,
    root: Index<'a>,
    index: Index<'a>,
    rivals: Rivals<'a>,
}

fn is_marked(marks: &[bool], number: u32) -> bool
    ensures { result ≡ is_marked marks.now number }
{
    match marks.get(number as usize) {
        Some(mark) => *mark,
        None => false,
    }
}

fn meets(marks: &[bool], need: &Link, offer: &Offer<'_>) -> bool
    ensures { result ≡ meets_among marks.now need.now (shown offer.now) }
{
    is_marked(marks, offer.number) && offer.meets(need)
}

/// Whether one of the packages that are marked meets a requirement.
fn any_meets(marks: &[bool], need: &Link, offers: &[Offer<'_>]) -> bool
    ensures { result ≡ list_any (λ offer. meets_among marks.now need.now (shown offer)) offers.now }
{
    offers.iter().any(|offer| meets(marks, need, offer))
}

/// The name of a package has a `/`, and that of a platform package none.
fn is_on_package(link: &Link) -> bool
    ensures { result ≡ is_on_package link.now }
{
    link.name.as_slice().iter().any(|byte| *byte == b'/')
}

impl<'a> Context<'a> {
    pub(crate) fn of(alloc: Global, pool: &'a Pool) -> Result<Context<'a>, AllocError>
        ensures right { IfOk result (λ context. IsRight context) }
        ensures pool { IfOk result (λ context. context.pool.now ≡ pool.now) }
    {
        let root = Index::of(alloc, &[&pool.root.package])?;
        let index = Index::of_pool(alloc, pool)?;
        let rivals = Rivals::of(alloc, pool)?;
        Ok(Context {
            pool,
            root,
            index,
            rivals,
        })
    }

    /// Whether the root alone breaks no rule, but that requirements of it may be unmet.
    pub(crate) fn root_fits(&self) -> bool
        requires { IsRight self.now }
        ensures yes { result ≡ true → BreaksNone self.now.pool.now [] }
        ensures no { result ≡ false → BreaksNone self.now.pool.now [] → ⊥ }
    {
        self.rivals.root_fits()
    }

    /// Whether a candidate breaks no rule beside the root and those that are marked, but that requirements may be unmet.
    pub(crate) fn fits(&self, marks: &[bool], number: u32) -> bool
        requires { IsRight self.now }
        ensures yes { (before : List ℕ) → marks.now ≡ set_of (length self.now.pool.now.candidates) before → CanJoin self.now.pool.now before number →
            result ≡ true → BreaksNone self.now.pool.now (before ++ number ∷ []) }
        ensures no { (before : List ℕ) → marks.now ≡ set_of (length self.now.pool.now.candidates) before → CanJoin self.now.pool.now before number →
            result ≡ false → BreaksNone self.now.pool.now (before ++ number ∷ []) → ⊥ }
    {
        self.rivals.fits(marks, number)
    }

    fn root_meets(&self, need: &Link) -> bool
        requires { IsRight self.now }
        ensures { result ≡ meets need.now self.now.pool.now.root.«package» }
    {
        self.root.meets(need)
    }

    fn marked_meets(&self, marks: &[bool], need: &Link) -> bool
        requires { IsRight self.now }
        ensures { result ≡ any_marked (meets need.now) marks.now 0 (map (λ candidate. candidate.«package») self.now.pool.now.candidates) }
    {
        any_meets(marks, need, self.index.offers_at(&need.name))
    }

    /// Whether the root or a candidate that is marked meets a requirement.
    fn is_met(&self, marks: &[bool], need: &Link) -> bool
        requires { IsRight self.now }
        ensures { result ≡ met_by self.now.pool.now marks.now need.now }
    {
        self.root_meets(need) || self.marked_meets(marks, need)
    }

    /// Whether a requirement is on a package, and neither the root nor a candidate that is marked meets it.
    pub(crate) fn waits(&self, marks: &[bool], need: &Link) -> bool
        requires { IsRight self.now }
        ensures { result ≡ waits_by self.now.pool.now marks.now need.now }
    {
        is_on_package(need) && !self.is_met(marks, need)
    }

    /// The candidates that meet a requirement, the preferred ones first.
    pub(crate) fn alternatives(&self, alloc: Global, need: &Link) -> Result<Vec<u32>, AllocError>
        requires { IsRight self.now }
        ensures { IfOk result (λ list. AreAlternatives self.now.pool.now need.now list.items) }
    {
        alternatives(alloc, self.pool, &self.index, need)
    }
}
