//! Reading of a constraint's text.

ghost use Rattle.std.specs.Prelude.{◌≡◌, ◌≤◌, ◌<◌, ◌++◌, [], ◌∷◌, List, None, length, IfOk, OnOk};
ghost use Rattle.path_name.specs.Given.{Gives, GivesValue};
ghost use Rattle.constraint_set.specs.Constraints.{part_at, comparisons_in, sole_inferred, flag_of, is_self_version, own_constraint, constraint_of};
ghost use Rattle.constraint_set.specs.Gathering.{constraint_behind, parts_constraint};
ghost use Rattle.constraint_set.specs.declared.words.Joint.{Joint};
ghost use Rattle.constraint_set.specs.declared.part.Part.{Part};
ghost use Rattle.constraint_set.specs.declared.fault.ConstraintFault.TheVariants.{OutOfMemory};

use crate::constraint::{Comparison, Constraint, Flag, Operator};
use crate::fault::ConstraintFault;
use crate::part::{Bounds, Part, inferred, least_stable, read_form};
use crate::words::{Joint, first_word, is_inline_alias, longest_form, next_joint};
use path_name::{Items, after_blanks};
use std::alloc::{AllocError, Global};
use std::mem;
use version_norm::{Grade, Version, VersionFault, trim};

/// The part that comes next behind blanks, and what follows it. `whole` is the length of the whole text, which
/// this one ends.
#[tactic(auto, unfolding(crate::specs::Constraints::part_at))]
fn read_part(
    alloc: Global,
    whole: usize,
    joint: Joint,
    text: &[u8],
) -> Result<(Part, &[u8]), ConstraintFault>
    requires { length text.now ≤ whole }
    ensures exact { Gives (λ x. (x.0, x.1.now)) OutOfMemory (part_at whole joint text.now) result }
    ensures shorter { IfOk result (λ x. length x.1.now < length text.now) }
{
    let text = after_blanks(text);
    let at = (whole - text.len()) as u64;
    let Some((word, rest)) = first_word(text) else {
        return Err(ConstraintFault::BadConstraint(at));
    };
    if is_inline_alias(joint, word, rest) {
        return Err(ConstraintFault::InlineAlias(at));
    }
    let (form, rest) = longest_form(word, rest);
    match read_form(alloc, form) {
        Ok(part) => Ok((part, rest)),
        Err(VersionFault::OutOfMemory) => Err(ConstraintFault::OutOfMemory),
        Err(VersionFault::DateVersion) | Err(VersionFault::NotAVersion) => {
            Err(ConstraintFault::BadConstraint(at))
        }
    }
}

/// What was read of a constraint so far.
#[derive(Drop)]
struct Gathered {
    /// The alternatives that are whole.
    alternatives: Vec<Items<Comparison>>,
    /// The comparisons of the last alternative.
    comparisons: Vec<Comparison>,
    /// The least stable of the written stabilities.
    written: Option<Grade>,
    /// The stability of the one part's version.
    inferred: Option<Grade>,
}

/// Puts a part's comparisons behind those that are there.
fn push_bounds(comparisons: &mut Vec<Comparison>, bounds: Bounds) -> Result<(), AllocError>
    ensures { OnOk result (comparisons.new.items ≡ comparisons.old.items ++ comparisons_in bounds) }
{
    match bounds {
        Bounds::Any => {}
        Bounds::One(comparison) => comparisons.push(comparison)?,
        Bounds::Two(low, high) => {
            comparisons.push(low)?;
            comparisons.push(high)?;
        }
    }
    Ok(())
}

fn inferred_behind(joint: Joint, inferred: Option<Grade>) -> Option<Grade>
    ensures { result ≡ sole_inferred joint inferred }
{
    match joint {
        Joint::First => inferred,
        Joint::Blanks | Joint::Comma | Joint::Bar => None,
    }
}

impl Gathered {
    fn new(alloc: Global) -> Gathered
        ensures alternatives { result.alternatives.items ≡ [] }
        ensures comparisons { result.comparisons.items ≡ [] }
        ensures written { result.written ≡ None }
        ensures inferred { result.inferred ≡ None }
    {
        Gathered {
            alternatives: Vec::new(alloc),
            comparisons: Vec::new(alloc),
            written: None,
            inferred: None,
        }
    }

    /// Adds the part that comes next.
    fn add(&mut self, alloc: Global, joint: Joint, part: Part) -> Result<(), AllocError>
        ensures { OnOk result ((parts : List (Joint × Part)) →
            constraint_behind self.new.alternatives.items self.new.comparisons.items self.new.written self.new.inferred parts
            ≡ constraint_behind self.old.alternatives.items self.old.comparisons.items self.old.written self.old.inferred ((joint, part) ∷ parts)) }
    {
        let Part {
            bounds,
            written,
            inferred,
        } = part;
        self.written = least_stable(self.written, written);
        self.inferred = inferred_behind(joint, inferred);
        if joint == Joint::Bar {
            let whole = mem::replace(&mut self.comparisons, Vec::new(alloc));
            self.alternatives.push(Items::of(whole))?;
        }
        push_bounds(&mut self.comparisons, bounds)
    }

    /// The constraint, where no part is left.
    fn into_constraint(self) -> Result<Constraint, AllocError>
        ensures { IfOk result (λ c. c ≡ constraint_behind self.alternatives.items self.comparisons.items self.written self.inferred []) }
    {
        let Gathered {
            mut alternatives,
            comparisons,
            written,
            inferred,
        } = self;
        alternatives.push(Items::of(comparisons))?;
        Ok(Constraint {
            alternatives: Items::of(alternatives),
            flag: flag(written, inferred),
        })
    }
}

/// The written stability, else the inferred one.
fn flag(written: Option<Grade>, inferred: Option<Grade>) -> Option<Flag>
    ensures { result ≡ flag_of written inferred }
{
    match (written, inferred) {
        (Some(written), _) => Some(Flag::Written(written)),
        (None, Some(inferred)) => Some(Flag::Inferred(inferred)),
        (None, None) => None,
    }
}

fn read_parts(alloc: Global, text: &[u8]) -> Result<Constraint, ConstraintFault>
    ensures { GivesValue OutOfMemory (parts_constraint text.now) result }
{
    let mut gathered = Gathered::new(alloc);
    let mut next = Some((Joint::First, text));
    while let Some((joint, rest)) = next {
        let (part, behind) = read_part(alloc, text.len(), joint, rest)?;
        gathered.add(alloc, joint, part)?;
        next = next_joint(behind);
    }
    Ok(gathered.into_constraint()?)
}

/// Whether the text is `self.version`, with any blanks around it.
fn is_self_text(text: &[u8]) -> bool
    ensures { result ≡ is_self_version text.now }
{
    trim(text) == b"self.version".as_slice()
}

/// The package's own version.
fn own_version(alloc: Global, own: &Version) -> Result<Constraint, AllocError>
    ensures { IfOk result (λ c. c ≡ own_constraint own.now) }
{
    let mut comparisons = Vec::with_capacity(alloc, 1)?;
    comparisons.push(Comparison {
        operator: Operator::Equal,
        version: own.copy(alloc)?,
    })?;
    let mut alternatives = Vec::with_capacity(alloc, 1)?;
    alternatives.push(Items::of(comparisons))?;
    Ok(Constraint {
        alternatives: Items::of(alternatives),
        flag: flag(None, inferred(own)),
    })
}

/// The constraint that a text is, by the rules of Composer's documentation ("Versions and constraints").
/// `own` is the version that `self.version` stands for. Alternatives are separated by `|` or `||`, the parts of
/// one by blanks or by one comma with any blanks around it. A part is `*`, a wildcard as `1.2.*`, `~` or `^` and
/// a version, a version, a comparison of one of the operators `<>`, `!=`, `>=`, `<=`, `>`, `<`, `==` and `=`, or a
/// range `1.0 - 2.0`. A stability behind `@` is cut off a word and is a flag; what follows the first `#` behind a
/// branch is cut too.
///
/// Refuses `InlineAlias` at a word `as` between two words with blanks alone around it, and `BadConstraint` at the
/// first byte of a part that no rule reads, or where a part is missing; the one that stands further left counts.
/// `OutOfMemory`: there was no memory for the answer.
#[tactic(auto, unfolding(crate::specs::Constraints::constraint_of, crate::specs::Gathering::parts_constraint))]
pub fn read(alloc: Global, text: &[u8], own: &Version) -> Result<Constraint, ConstraintFault>
    // The constraint that the forms give, or the fault that stands furthest left.
    ensures exact { GivesValue OutOfMemory (constraint_of text.now own.now) result }
{
    if is_self_text(text) {
        return Ok(own_version(alloc, own)?);
    }
    read_parts(alloc, text)
}
