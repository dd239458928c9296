//! The rules that the links of packages break.

ghost use Rattle.std.specs.Prelude.{◌≡◌, ℕ, List, Some, None, map, find, if◌then◌else◌, IfOk};
ghost use Rattle.std.specs.List.{list_any};
ghost use Rattle.std.specs.Option.{option_map};
ghost use Rattle.plan_rules.specs.Requirements.{is_on_package};
ghost use Rattle.plan_rules.specs.Validity.{first_rule, is_unmet, is_barred, is_listed_as, against};
ghost use Rattle.plan_rules.specs.Fitting.{suits_platform};
ghost use Rattle.plan_rules.specs.Breaking.{rule_of, links_for, rule_of_package, AreRight, parties_in, rows_in};
ghost use Rattle.plan_rules.specs.declared.rule.Rule.TheVariants as rules;

use crate::by_name::ByName;
use crate::index::Index;
use crate::platform;
use crate::rule::Rule;
use manifest_read::{Link, Manifest, Package, PlatformRow};
use path_name::Name;
use pkg_pool::Candidate;
use std::alloc::{AllocError, Global};

/// The rules that a single link may break.
#[derive(Clone, Copy)]
pub(crate) enum Kind {
    Unmet,
    Conflict,
    Platform,
}

/// A root, the packages that are checked, itself first, and of each name what stands for it and what lists it.
#[derive(Drop)]
pub(crate) struct Facts<'a> {
    pub(crate) root: &'a Manifest,
    pub(crate) parties: &'a [&'a Package],
    pub(crate) index: Index<'a>,
    platform: ByName<&'a PlatformRow>,
}

fn is_on_package(link: &Link) -> bool
    ensures { result ≡ is_on_package link.now }
{
    link.name.as_slice().iter().any(|byte| *byte == b'/')
}

/// The links that may break a rule of a kind.
fn links_for(kind: Kind, party: &Package) -> &[Link]
    ensures { result.now ≡ links_for kind party.now }
{
    match kind {
        Kind::Unmet => party.require.as_slice(),
        Kind::Conflict => party.conflict.as_slice(),
        Kind::Platform => party.require.as_slice(),
    }
}

impl<'a> Facts<'a> {
    pub(crate) fn of(
        alloc: Global,
        root: &'a Manifest,
        parties: &'a [&'a Package],
    ) -> Result<Facts<'a>, AllocError>
        ensures right { IfOk result (λ facts. AreRight facts) }
        ensures root { IfOk result (λ facts. facts.root.now ≡ root.now) }
        ensures parties { IfOk result (λ facts. facts.parties.now ≡ parties.now) }
    {
        let index = Index::of(alloc, parties)?;
        let platform = platform::listed(alloc, root.platform.as_slice())?;
        Ok(Facts {
            root,
            parties,
            index,
            platform,
        })
    }

    fn is_unmet(&self, link: &Link) -> bool
        requires { AreRight self.now }
        ensures { (name : List ℕ) → result ≡ is_unmet (parties_in self.now) (name, link.now) }
    {
        is_on_package(link) && !self.index.meets(link)
    }

    fn is_barred(&self, link: &Link) -> bool
        requires { AreRight self.now }
        ensures { (name : List ℕ) → result ≡ is_barred (rows_in self.now) (name, link.now) }
    {
        !is_on_package(link) && platform::any_bars(self.platform.at(&link.name), link)
    }

    /// The first listed platform package that a link names in a version that it wants.
    fn listed_as(&self, link: &Link) -> Option<&'a Name>
        requires { AreRight self.now }
        ensures { option_map (λ other. other.now) result ≡ option_map (λ row. row.name) (find (is_listed_as link.now) (rows_in self.now)) }
    {
        match platform::first_suiting(self.platform.at(&link.name), link) {
            None => None,
            Some(row) => Some(&row.name),
        }
    }

    fn is_listed(&self, link: &Link) -> bool
        requires { AreRight self.now }
        ensures { result ≡ list_any (is_listed_as link.now) (rows_in self.now) }
    {
        self.listed_as(link).is_some()
    }

    /// Whether a platform package is listed that one of some links names in a version that it wants.
    fn any_listed(&self, links: &[Link]) -> bool
        requires { AreRight self.now }
        ensures { result ≡ list_any (λ link. list_any (is_listed_as link) (rows_in self.now)) links.now }
    {
        for link in links {
            if self.is_listed(link) {
                return true;
            }
        }
        false
    }

    fn is_barred_of(&self, name: &Name, link: &Link) -> bool
        requires { AreRight self.now }
        ensures { result ≡ is_barred (rows_in self.now) (name.now, link.now) }
    {
        self.is_barred(link)
    }

    /// Whether one of some requirements of a package is at odds with what is listed.
    pub(crate) fn any_barred(&self, name: &Name, links: &[Link]) -> bool
        requires { AreRight self.now }
        ensures { result ≡ list_any (λ link. is_barred (rows_in self.now) (name.now, link)) links.now }
    {
        for link in links {
            if self.is_barred_of(name, link) {
                return true;
            }
        }
        false
    }

    /// Whether neither a conflict nor a requirement of a package is at odds with what the root lists of the platform.
    pub(crate) fn suits_platform(&self, party: &Package) -> bool
        requires { AreRight self.now }
        ensures { result ≡ suits_platform (rows_in self.now) party.now }
    {
        !self.any_listed(party.conflict.as_slice())
            && !self.any_barred(&party.name, party.require.as_slice())
    }

    /// What a conflict is with: the first other package, or else the listed platform package.
    fn against(&self, name: &Name, link: &Link) -> Option<&'a Name>
        requires { AreRight self.now }
        ensures { option_map (λ other. other.now) result ≡ against (rows_in self.now) (parties_in self.now) (name.now, link.now) }
    {
        match self.index.against(name, link) {
            None => self.listed_as(link),
            Some(party) => Some(&party.name),
        }
    }

    /// The rule of a kind that a link of a package breaks.
    fn rule_of(
        &self,
        alloc: Global,
        kind: Kind,
        name: &Name,
        link: &Link,
    ) -> Result<Option<Rule>, AllocError>
        requires { AreRight self.now }
        ensures { IfOk result (λ rule. rule ≡ rule_of kind (rows_in self.now) (parties_in self.now) name.now link.now) }
    {
        match kind {
            Kind::Unmet => unmet_rule(alloc, self.is_unmet(link), name, link),
            Kind::Conflict => conflict_rule(alloc, self.against(name, link), name, link),
            Kind::Platform => platform_rule(alloc, self.is_barred(link), name, link),
        }
    }

    /// The first rule of a kind that links of a package break.
    pub(crate) fn rule_of_links(
        &self,
        alloc: Global,
        kind: Kind,
        name: &Name,
        links: &[Link],
    ) -> Result<Option<Rule>, AllocError>
        requires { AreRight self.now }
        ensures { IfOk result (λ rule. rule ≡ first_rule (rule_of kind (rows_in self.now) (parties_in self.now) name.now) links.now) }
    {
        for link in links {
            if let Some(rule) = self.rule_of(alloc, kind, name, link)? {
                return Ok(Some(rule));
            }
        }
        Ok(None)
    }

    /// The first rule of a kind that a package breaks.
    pub(crate) fn rule_of_package(
        &self,
        alloc: Global,
        kind: Kind,
        party: &Package,
    ) -> Result<Option<Rule>, AllocError>
        requires { AreRight self.now }
        ensures { IfOk result (λ rule. rule ≡ rule_of_package kind (rows_in self.now) (parties_in self.now) party.now) }
    {
        self.rule_of_links(alloc, kind, &party.name, links_for(kind, party))
    }

    /// The first rule of a kind that members break.
    pub(crate) fn rule_of_members(
        &self,
        alloc: Global,
        kind: Kind,
        members: &[&Candidate],
    ) -> Result<Option<Rule>, AllocError>
        requires { AreRight self.now }
        ensures { IfOk result (λ rule. rule ≡ first_rule (rule_of_package kind (rows_in self.now) (parties_in self.now)) (map (λ member. member.now.«package») members.now)) }
    {
        for member in members {
            if let Some(rule) = self.rule_of_package(alloc, kind, &member.package)? {
                return Ok(Some(rule));
            }
        }
        Ok(None)
    }
}

fn unmet_rule(
    alloc: Global,
    holds: bool,
    name: &Name,
    link: &Link,
) -> Result<Option<Rule>, AllocError>
    ensures { IfOk result (λ rule. rule ≡ (if holds then Some (rules.Unmet name.now link.now.name) else None)) }
{
    if holds {
        Ok(Some(Rule::Unmet(name.copy(alloc)?, link.name.copy(alloc)?)))
    } else {
        Ok(None)
    }
}

fn platform_rule(
    alloc: Global,
    holds: bool,
    name: &Name,
    link: &Link,
) -> Result<Option<Rule>, AllocError>
    ensures { IfOk result (λ rule. rule ≡ (if holds then Some (rules.Platform name.now link.now.name) else None)) }
{
    if holds {
        Ok(Some(Rule::Platform(name.copy(alloc)?, link.name.copy(alloc)?)))
    } else {
        Ok(None)
    }
}

fn conflict_rule(
    alloc: Global,
    against: Option<&Name>,
    name: &Name,
    link: &Link,
) -> Result<Option<Rule>, AllocError>
    ensures { IfOk result (λ rule. rule ≡ option_map (λ other. rules.Conflict name.now link.now.name other.now) against.entry) }
{
    match against {
        None => Ok(None),
        Some(other) => Ok(Some(Rule::Conflict(
            name.copy(alloc)?,
            link.name.copy(alloc)?,
            other.copy(alloc)?,
        ))),
    }
}
