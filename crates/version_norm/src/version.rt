//! Versions, and how stable they are.

ghost use Rattle.std.specs.Prelude.{◌≡◌, IfOk};
ghost use Rattle.version_norm.specs.Stability.{stability_of, rank_of, marked_stability, stage_stability};

use path_name::{Items, Name};
use std::alloc::{AllocError, Global};

/// How far a version is from its release, by the word in its modifier.
#[derive(Clone, Copy, Debug, PartialEq, Eq)]
pub enum Stage {
    /// `alpha`, also written `a`.
    Alpha,
    /// `beta`, also written `b`.
    Beta,
    /// `RC`, a release candidate.
    Rc,
    /// `patch`, also written `pl` or `p`: a fix after the release.
    Patch,
}

/// A modifier, as the `beta1.2` of `1.0.0.0-beta1.2`.
#[derive(Debug, PartialEq, Eq, Drop)]
pub struct Modifier {
    /// Its word.
    pub stage: Stage,
    /// The numbers after the word, in order. Those that `normalise` gives are below 10^18.
    pub numbers: Items<u64>,
}

/// The four numbers of a version, in order. Those that `normalise` gives are below 10^18.
#[derive(Clone, Copy, Debug, PartialEq, Eq, PartialOrd, Ord)]
pub struct Numbers {
    /// The first number.
    pub major: u64,
    /// The second number.
    pub minor: u64,
    /// The third number.
    pub release: u64,
    /// The fourth number.
    pub build: u64,
}

/// A version of four numbers.
#[derive(Debug, PartialEq, Eq, Drop)]
pub struct Numbered {
    /// Its numbers.
    pub numbers: Numbers,
    /// The modifier, if there is one.
    pub modifier: Option<Modifier>,
    /// Whether it has the dev mark, as `1.0.0.0-dev` has.
    pub dev: bool,
}

/// A version in its normal form.
#[derive(Debug, PartialEq, Eq, Drop)]
pub enum Version {
    /// A branch, by its whole name, as `dev-main`.
    Branch(Name),
    /// A version of four numbers.
    Numbered(Numbered),
}

/// How stable a version is, from the most stable on: the order is that of the ranks (`grade_order`).
#[derive(Clone, Copy, Debug, PartialEq, Eq, PartialOrd, Ord)]
pub enum Grade {
    /// A release, or a fix after one.
    Stable,
    /// A release candidate.
    Rc,
    /// A beta version.
    Beta,
    /// An alpha version.
    Alpha,
    /// A branch, or a version with the dev mark.
    Dev,
}

impl Grade {
    /// The grade's rank, as a lock file writes it: 0, 5, 10, 15 or 20, from the most stable on.
    pub fn rank(self) -> u8
        ensures { result ≡ rank_of self }
    {
        match self {
            Grade::Stable => 0,
            Grade::Rc => 5,
            Grade::Beta => 10,
            Grade::Alpha => 15,
            Grade::Dev => 20,
        }
    }
}

impl Modifier {
    /// An equal modifier. Its one refusal is want of memory.
    pub fn copy(&self, alloc: Global) -> Result<Modifier, AllocError>
        ensures { IfOk result (λ modifier. modifier ≡ self.now) }
    {
        Ok(Modifier {
            stage: self.stage,
            numbers: Items::of(Vec::from_slice(alloc, self.numbers.as_slice())?),
        })
    }
}

impl Numbered {
    /// An equal version. Its one refusal is want of memory.
    pub fn copy(&self, alloc: Global) -> Result<Numbered, AllocError>
        ensures { IfOk result (λ numbered. numbered ≡ self.now) }
    {
        let modifier = match &self.modifier {
            None => None,
            Some(modifier) => Some(modifier.copy(alloc)?),
        };
        Ok(Numbered {
            numbers: self.numbers,
            modifier,
            dev: self.dev,
        })
    }
}

impl Version {
    /// An equal version. Its one refusal is want of memory.
    pub fn copy(&self, alloc: Global) -> Result<Version, AllocError>
        ensures { IfOk result (λ version. version ≡ self.now) }
    {
        match self {
            Version::Branch(name) => Ok(Version::Branch(name.copy(alloc)?)),
            Version::Numbered(numbered) => Ok(Version::Numbered(numbered.copy(alloc)?)),
        }
    }
}

/// How stable a version is (Composer documentation, "Stability constraints"): `Dev` for a branch and for a dev
/// mark, else by its modifier's word; a version without a modifier and one with the word `patch` are stable.
/// Takes no memory.
pub fn stability(version: &Version) -> Grade
    ensures { result ≡ stability_of version.now }
{
    match version {
        Version::Branch(_) => Grade::Dev,
        Version::Numbered(numbered) => numbered_stability(numbered),
    }
}

/// How stable a version of four numbers is, as `stability` says it. Takes no memory.
pub fn numbered_stability(numbered: &Numbered) -> Grade
    ensures { result ≡ marked_stability numbered.now.dev numbered.now.modifier }
{
    if numbered.dev {
        return Grade::Dev;
    }
    match &numbered.modifier {
        None => Grade::Stable,
        Some(modifier) => stage_grade(modifier.stage),
    }
}

fn stage_grade(stage: Stage) -> Grade
    ensures { result ≡ stage_stability stage }
{
    match stage {
        Stage::Alpha => Grade::Alpha,
        Stage::Beta => Grade::Beta,
        Stage::Rc => Grade::Rc,
        Stage::Patch => Grade::Stable,
    }
}
