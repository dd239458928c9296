//! Whether all packages of a lock together are a valid plan.

ghost use Rattle.std.specs.Prelude.{◌≡◌, false, IsTrue, IfErr, IfOk};
ghost use Rattle.std.specs.List.{range_with_len};
ghost use Rattle.plan_rules.specs.Validity.{verdict_of};
ghost use Rattle.run_answers.specs.Faults.{is_device_fault, is_of_tree};
ghost use Rattle.run_answers.specs.Steps.{Tells};
ghost use Rattle.install_sources.specs.Verdicts.{all_met, broken_rule_of, whole};

use path_name::Items;
use pkg_pool::Pool;
use plan_rules::{Rule, Selection, Verdict, check};
use run_answers::{BrokenRule, Refusal};
use std::alloc::{AllocError, Global};

/// The first numbers. No memory holds more than 2^32 packages.
fn first_numbers(alloc: Global, count: usize) -> Result<Vec<u32>, AllocError>
    ensures { IfOk result (λ numbers. numbers.items ≡ range_with_len 0 count) }
{
    let mut numbers = Vec::with_capacity(alloc, count)?;
    for at in 0..count {
        match u32::try_from(at) {
            Ok(number) => numbers.push(number)?,
            Err(_) => return Err(AllocError),
        }
    }
    Ok(numbers)
}

/// Whether all packages of a pool together are a valid plan, or the first rule that they break. Its one refusal is want of
/// memory.
pub fn verdict_of(alloc: Global, pool: &Pool) -> Result<Verdict, AllocError>
    ensures { IfOk result (λ verdict. verdict ≡ verdict_of pool.now (whole pool.now)) }
{
    let members = Items::of(first_numbers(alloc, pool.candidates.as_slice().len())?);
    check(alloc, pool, &Selection { members })
}

/// A rule with the names that are printed.
pub fn broken_rule_of(rule: Rule) -> BrokenRule
    ensures { result ≡ broken_rule_of rule }
{
    match rule {
        Rule::NotAllowed(name) => BrokenRule::NotAllowed(name),
        Rule::TwoOwners(name, one, other) => BrokenRule::TwoOwners(name, one, other),
        Rule::Unmet(from, name) => BrokenRule::Unmet(from, name),
        Rule::Conflict(from, name, other) => BrokenRule::Conflict(from, name, other),
        Rule::Platform(from, name) => BrokenRule::Platform(from, name),
    }
}

/// Refuses a pool whose packages together are no valid plan: `LockUnmet` with the first rule that they break.
#[tactic(auto, unfolding(crate::specs::Verdicts::all_met))]
pub fn refuse_unmet(alloc: Global, pool: &Pool) -> Result<(), Refusal>
    ensures told { Tells (λ passed. passed) (all_met pool.now) result }
    ensures no_device { is_device_fault result ≡ false }
    ensures causes { IfErr result (λ refusal. IsTrue (is_of_tree refusal)) }
{
    match verdict_of(alloc, pool)? {
        Verdict::Meets => Ok(()),
        Verdict::Breaks(rule) => Err(Refusal::LockUnmet(broken_rule_of(rule))),
    }
}
