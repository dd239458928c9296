//! The members of a selection, in byte order of name.

ghost use Rattle.std.specs.Prelude.{◌≡◌, ◌++◌, [], ◌∷◌, true, length, map, slice_set, if◌then◌else◌, IfOk, OnOk};
ghost use Rattle.std.specs.BTreeMap.{values};
ghost use Rattle.plan_rules.specs.Sets.{set_of};
ghost use Rattle.plan_rules.specs.Validity.{chosen, by_name};

use manifest_read::Package;
use path_name::Name;
use pkg_pool::Candidate;
use std::alloc::{AllocError, Global};
use std::collections::BTreeMap;

/// Marks a place, where there is one.
fn mark(marks: &mut Vec<bool>, number: u32)
    ensures { marks.new.items ≡ slice_set marks.old.items number true }
{
    let place = number as usize;
    if place < marks.len() {
        marks[place] = true;
    }
}

/// Of so many candidates, whether its number is among these.
fn marks(alloc: Global, count: usize, numbers: &[u32]) -> Result<Vec<bool>, AllocError>
    ensures { IfOk result (λ marks. marks.items ≡ set_of count numbers.now) }
{
    let mut marks = vec![in alloc; false; count]?;
    for number in numbers {
        mark(&mut marks, *number);
    }
    Ok(marks)
}

/// Puts a candidate behind others, if it is marked.
fn push_marked<'a>(
    list: &mut Vec<&'a Candidate>,
    mark: bool,
    candidate: &'a Candidate,
) -> Result<(), AllocError>
    ensures { OnOk result (map (λ member. member.now) list.new.items ≡ map (λ member. member.now) list.old.items ++ (if mark then candidate.now ∷ [] else [])) }
{
    if mark {
        list.push(candidate)?;
    }
    Ok(())
}

/// The candidates that are marked.
fn chosen<'a>(
    alloc: Global,
    marks: &[bool],
    candidates: &'a [Candidate],
) -> Result<Vec<&'a Candidate>, AllocError>
    requires { length marks.now ≡ length candidates.now }
    ensures { IfOk result (λ list. map (λ member. member.now) list.items ≡ chosen marks.now candidates.now) }
{
    let mut list = Vec::new(alloc);
    for number in 0..candidates.len() {
        push_marked(&mut list, marks[number], &candidates[number])?;
    }
    Ok(list)
}

/// By name, and among those of one name by place.
fn placed<'a>(
    alloc: Global,
    list: &[&'a Candidate],
) -> Result<BTreeMap<(Name, usize), &'a Candidate>, AllocError>
    ensures { IfOk result (λ placed. map (λ member. member.now) (values placed) ≡ by_name [] (map (λ member. member.now) list.now)) }
{
    let mut placed = BTreeMap::new(alloc);
    for place in 0..list.len() {
        let member = list[place];
        let name = member.package.name.copy(alloc)?;
        let _none = placed.insert((name, place), member)?;
    }
    Ok(placed)
}

/// The candidates in byte order of name, those of one name in their order.
fn by_name<'a>(alloc: Global, list: &[&'a Candidate]) -> Result<Vec<&'a Candidate>, AllocError>
    ensures { IfOk result (λ sorted. map (λ member. member.now) sorted.items ≡ by_name [] (map (λ member. member.now) list.now)) }
{
    let placed = placed(alloc, list)?;
    let mut sorted = Vec::with_capacity(alloc, list.len())?;
    for member in placed.values() {
        sorted.push(*member)?;
    }
    Ok(sorted)
}

/// The candidates of these numbers, in byte order of name.
pub(crate) fn members<'a>(
    alloc: Global,
    candidates: &'a [Candidate],
    numbers: &[u32],
) -> Result<Vec<&'a Candidate>, AllocError>
    ensures { IfOk result (λ list. map (λ member. member.now) list.items ≡ by_name [] (chosen (set_of (length candidates.now) numbers.now) candidates.now)) }
{
    let marks = marks(alloc, candidates.len(), numbers)?;
    let list = chosen(alloc, marks.as_slice(), candidates)?;
    by_name(alloc, list.as_slice())
}

/// The root's package, and those of the members.
pub(crate) fn parties<'a>(
    alloc: Global,
    root: &'a Package,
    members: &[&'a Candidate],
) -> Result<Vec<&'a Package>, AllocError>
    ensures { IfOk result (λ list. map (λ party. party.now) list.items ≡ root.now ∷ map (λ member. member.now.«package») members.now) }
{
    let mut list = Vec::new(alloc);
    list.push(root)?;
    for member in members {
        list.push(&member.package)?;
    }
    Ok(list)
}
