//! Laws of the definitions that the contracts cite.

ghost use Rattle.std.specs.Prelude.{◌≡◌, ◌≢◌, ◌≤◌, ℕ, List, [], ◌∷◌, ◌++◌, length, true, false, not, Bool, Some, None};
ghost use Rattle.version_norm.specs.declared.version.Version.{Version};
ghost use Rattle.manifest_read.specs.declared.types.Link.{Link};
ghost use Rattle.manifest_read.specs.Names.{is_package_name, is_platform_name};
ghost use Rattle.manifest_read.specs.WellFormed.{IsLink};
ghost use Rattle.std.specs.List.{slice_get};
ghost use Rattle.pkg_pool.specs.declared.pool.Pool.{Pool};
ghost use Rattle.pkg_pool.specs.declared.pool.Candidate.{Candidate};
ghost use Rattle.plan_rules.specs.Fitting.{BreaksNone, fits};
ghost use Rattle.plan_rules.specs.Sets.{Chosen, IsWithin, AreDistinct, has_all, is_in};
ghost use Rattle.plan_rules.specs.Requirements.{is_on_package};
ghost use Rattle.plan_rules.specs.Validity.{members, parties, not_allowed, two_owners, unmet, conflict, platform, is_valid};
ghost use Rattle.plan_rules.specs.Preference.{is_alternative, is_preferred};
ghost use Rattle.plan_rules.specs.FirstChoice.{Extends, IsFirstChoice, first_unmet};

/// A set that breaks a rule other than that of unmet requirements breaks it in every larger set.
pub fn larger_sets()
    ensures not_allowed { (pool : Pool) (small large : Chosen) → IsWithin small large →
        not_allowed pool (members pool large) ≡ None → not_allowed pool (members pool small) ≡ None }
    ensures two_owners { (pool : Pool) (small large : Chosen) → IsWithin small large →
        two_owners (parties pool large) ≡ None → two_owners (parties pool small) ≡ None }
    ensures conflict { (pool : Pool) (small large : Chosen) → IsWithin small large →
        conflict pool large ≡ None → conflict pool small ≡ None }
    ensures platform { (pool : Pool) (small large : Chosen) → IsWithin small large →
        platform pool large ≡ None → platform pool small ≡ None }
{}

/// A set is valid that lies within a valid one and has what it requires.
pub fn smaller_sets()
    ensures valid { (pool : Pool) (small large : Chosen) → IsWithin small large → is_valid pool large ≡ true →
        unmet pool small ≡ None → is_valid pool small ≡ true }
{}

/// Preference puts any two candidates in order, strictly.
pub fn preferences()
    ensures one { (pool : Pool) (need : Link) (a b : ℕ) → a ≢ b → is_preferred pool need a b ≢ true →
        is_preferred pool need b a ≡ true }
    ensures on { (pool : Pool) (need : Link) (a b c : ℕ) → is_preferred pool need a b ≡ true →
        is_preferred pool need b c ≡ true → is_preferred pool need a c ≡ true }
    ensures strict { (pool : Pool) (need : Link) (a : ℕ) → is_preferred pool need a a ≢ true }
{}

/// A pool has one plan of first choices at most, and one exactly where a valid set exists.
pub fn first_choices()
    ensures one { (pool : Pool) (plan other : List ℕ) → IsFirstChoice pool plan → IsFirstChoice pool other → plan ≡ other }
    ensures exists { (pool : Pool) (set : Chosen) → length set ≡ length pool.candidates → is_valid pool set ≡ true →
        (plan : List ℕ) × IsFirstChoice pool plan }
{}

/// Each choice of a plan is new, so it has as many members as the pool at most.
pub fn new_choices()
    ensures distinct { (pool : Pool) (plan : List ℕ) → IsFirstChoice pool plan → AreDistinct plan }
    ensures bounded { (pool : Pool) (plan : List ℕ) → IsFirstChoice pool plan → length plan ≤ length pool.candidates }
{}

/// Where no alternative of the first unmet requirement extends a list to a valid set, nothing does.
pub fn dead_ends()
    ensures none { (pool : Pool) (before : List ℕ) (need : Link) → first_unmet pool before ≡ Some need →
        ((choice : ℕ) → is_alternative pool need choice ≡ true → Extends pool before choice → ⊥) →
        (set : Chosen) → length set ≡ length pool.candidates → is_valid pool set ≡ true → has_all set before ≡ true → ⊥ }
{}

/// A candidate fits beside a list that breaks no rule exactly where the list with it breaks none.
pub fn fitting()
    ensures breaks_none { (pool : Pool) (before : List ℕ) (number : ℕ) (one : Candidate) → slice_get pool.candidates number ≡ Some one →
        is_in number before ≡ false → BreaksNone pool before → fits pool before one ≡ true → BreaksNone pool (before ++ number ∷ []) }
    ensures fits { (pool : Pool) (before : List ℕ) (number : ℕ) (one : Candidate) → slice_get pool.candidates number ≡ Some one →
        is_in number before ≡ false → BreaksNone pool (before ++ number ∷ []) → fits pool before one ≡ true }
{}

/// A link that was read leads to a package where its name has a `/`, and to a platform package where it has none.
pub fn link_names()
    ensures packages { (own : Version) (link : Link) → IsLink own link → is_on_package link ≡ is_package_name link.name }
    ensures platform { (own : Version) (link : Link) → IsLink own link → not (is_on_package link) ≡ is_platform_name link.name }
{}
