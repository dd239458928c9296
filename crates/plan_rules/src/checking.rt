//! Whether a selection is valid.

ghost use Rattle.std.specs.Prelude.{◌≡◌, map, length, IfOk};
ghost use Rattle.std.specs.Option.{option_or};
ghost use Rattle.plan_rules.specs.Sets.{set_of};
ghost use Rattle.plan_rules.specs.Validity.{verdict_of};
ghost use Rattle.plan_rules.specs.Breaking.{allowed_rule, required_rule, conflicting_rule, links_rule, packages_rule, AreRight, parties_in};

use crate::facts::{Facts, Kind};
use crate::members::{members, parties};
use crate::rule::{Rule, Selection, Verdict};
use manifest_read::Manifest;
use pkg_pool::{Candidate, Pool, RootFlags};
use std::alloc::{AllocError, Global};

/// The rule that the first member breaks which the root doesn't allow.
fn not_allowed(
    alloc: Global,
    root: &Manifest,
    members: &[&Candidate],
) -> Result<Option<Rule>, AllocError>
    ensures { IfOk result (λ rule. rule ≡ allowed_rule root.now (map (λ member. member.now) members.now)) }
{
    let flags = RootFlags::of(alloc, root)?;
    for member in members {
        if !flags.allow(*member) {
            return Ok(Some(Rule::NotAllowed(member.package.name.copy(alloc)?)));
        }
    }
    Ok(None)
}

/// The first rule of a kind that a requirement breaks.
fn required(
    alloc: Global,
    facts: &Facts<'_>,
    kind: Kind,
    members: &[&Candidate],
) -> Result<Option<Rule>, AllocError>
    requires { AreRight facts.now }
    ensures { IfOk result (λ rule. rule ≡ required_rule kind (parties_in facts.now) facts.now.root.now (map (λ member. member.now.«package») members.now)) }
{
    let root = facts.root;
    let name = &root.package.name;
    if let Some(rule) = facts.rule_of_links(alloc, kind, name, root.package.require.as_slice())? {
        return Ok(Some(rule));
    }
    if let Some(rule) = facts.rule_of_links(alloc, kind, name, root.require_dev.as_slice())? {
        return Ok(Some(rule));
    }
    facts.rule_of_members(alloc, kind, members)
}

/// The first conflict.
fn conflicting(
    alloc: Global,
    facts: &Facts<'_>,
    members: &[&Candidate],
) -> Result<Option<Rule>, AllocError>
    requires { AreRight facts.now }
    ensures { IfOk result (λ rule. rule ≡ conflicting_rule (parties_in facts.now) facts.now.root.now (map (λ member. member.now.«package») members.now)) }
{
    if let Some(rule) = facts.rule_of_package(alloc, Kind::Conflict, &facts.root.package)? {
        return Ok(Some(rule));
    }
    facts.rule_of_members(alloc, Kind::Conflict, members)
}

/// The first rule that a link breaks.
fn linked(
    alloc: Global,
    facts: &Facts<'_>,
    members: &[&Candidate],
) -> Result<Option<Rule>, AllocError>
    requires { AreRight facts.now }
    ensures { IfOk result (λ rule. rule ≡ links_rule (parties_in facts.now) facts.now.root.now (map (λ member. member.now.«package») members.now)) }
{
    if let Some(rule) = required(alloc, facts, Kind::Unmet, members)? {
        return Ok(Some(rule));
    }
    if let Some(rule) = conflicting(alloc, facts, members)? {
        return Ok(Some(rule));
    }
    required(alloc, facts, Kind::Platform, members)
}

/// The first rule that packages break which are allowed.
fn broken(
    alloc: Global,
    root: &Manifest,
    members: &[&Candidate],
) -> Result<Option<Rule>, AllocError>
    ensures { IfOk result (λ rule. rule ≡ packages_rule root.now (map (λ member. member.now.«package») members.now)) }
{
    let parties = parties(alloc, &root.package, members)?;
    let facts = Facts::of(alloc, root, parties.as_slice())?;
    if let Some(rule) = facts.index.two_owners(alloc)? {
        return Ok(Some(rule));
    }
    linked(alloc, &facts, members)
}

/// The first rule that members break.
fn first_broken(
    alloc: Global,
    root: &Manifest,
    members: &[&Candidate],
) -> Result<Option<Rule>, AllocError>
    ensures { IfOk result (λ rule. rule ≡ option_or (allowed_rule root.now (map (λ member. member.now) members.now))
        (packages_rule root.now (map (λ member. member.now.«package») members.now))) }
{
    if let Some(rule) = not_allowed(alloc, root, members)? {
        return Ok(Some(rule));
    }
    broken(alloc, root, members)
}

/// Whether a selection is a valid plan of its pool, and else the first rule that it breaks, by Composer's documentation
/// ("The composer.json schema", "Package links"; "Repositories", "Path"). The rules, in order:
///
/// 1. each member is allowed by the root's stabilities;
/// 2. no name is owned or replaced by two of the root and the members: of several the byte-least, with the first two;
/// 3. each requirement on a package of the root, those for development included, and of each member is met by the root
///    or a member: it owns the name in a version that satisfies the constraint, or it replaces or provides the name by a
///    constraint that meets it;
/// 4. no conflict names another package that owns the name in such a version, or that replaces it so, or else a platform
///    package that the root lists in such a version;
/// 5. each requirement on a platform package that the root lists is met by the listed version, which a package that is
///    listed as absent has none of.
///
/// Within a rule the root comes first, then the members in byte order of name, and links in their order. What members
/// require for development doesn't count. Its one refusal is want of memory. Besides sorting the members its time grows
/// with their links, and for each link with the packages that own, replace or provide its name.
pub fn check(alloc: Global, pool: &Pool, selection: &Selection) -> Result<Verdict, AllocError>
    ensures { IfOk result (λ verdict. verdict ≡ verdict_of pool.now (set_of (length pool.now.candidates) selection.now.members)) }
{
    let members = members(
        alloc,
        pool.candidates.as_slice(),
        selection.members.as_slice(),
    )?;
    match first_broken(alloc, &pool.root, members.as_slice())? {
        None => Ok(Verdict::Meets),
        Some(rule) => Ok(Verdict::Breaks(rule)),
    }
}
