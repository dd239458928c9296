//! The plan of a pool.

ghost use Rattle.std.specs.Prelude.{◌≡◌, ◌++◌, IfOk};
ghost use Rattle.std.specs.Option.{option_to_list};
ghost use Rattle.plan_solve.specs.Answers.{Solves};
ghost use Rattle.plan_solve.specs.Search.{IsRight, IsSearch, chosen};

use crate::context::Context;
use crate::members::Members;
use crate::search::{Choice, Search};
use path_name::Items;
use pkg_pool::Pool;
use plan_rules::Selection;
use std::alloc::{AllocError, Global};

/// What solving a pool answers.
#[derive(Debug, PartialEq, Eq, Drop)]
pub enum Answer {
    /// The plan of first choices: the members in order of choice.
    Plan(Selection),
    /// No set of the pool's candidates is valid.
    NoPlan,
}

/// The members that were chosen, and one more.
fn selection(
    alloc: Global,
    choices: &[Choice],
    member: Option<u32>,
) -> Result<Selection, AllocError>
    ensures { IfOk result (λ selection. selection.members ≡ chosen choices.now ++ option_to_list member) }
{
    let mut members = Vec::with_capacity(alloc, choices.len())?;
    for choice in choices {
        members.push(choice.member)?;
    }
    if let Some(member) = member {
        members.push(member)?;
    }
    Ok(Selection {
        members: Items::of(members),
    })
}

/// Searches on until nothing is unmet, or until nothing is left to try.
fn search<'a>(
    alloc: Global,
    context: &Context<'a>,
    search: &mut Search<'a>,
) -> Result<Answer, AllocError>
    requires right { IsRight context.now }
    requires searched { IsSearch context.now.pool.now search.old }
    ensures { IfOk result (Solves context.now.pool.now) }
{
    loop {
        let Some(member) = search.pending.next() else {
            if !search.take_back(context.pool)? {
                return Ok(Answer::NoPlan);
            }
            continue;
        };
        if !search.fits(context, member) {
            search.pass(context.pool);
            continue;
        }
        if !search.choose(alloc, context, member)? {
            let plan = selection(alloc, search.choices.as_slice(), Some(member))?;
            return Ok(Answer::Plan(plan));
        }
    }
}

/// The plan of a pool. The queue of requirements holds the root's `require`, its `require-dev`, and then the `require` of
/// each member in order of choice. For the first one on a package that neither the root nor a member meets, the preferred
/// alternative is chosen with which a valid set exists that has the members before it, until every one is met. `NoPlan` comes
/// exactly where no set of the pool's candidates is valid. Its one refusal is want of memory.
///
/// Going back undoes one choice at a time, so that the time of a pool whose packages exclude one another can grow with
/// every way to choose; where no choice has to be taken back, it grows with the requirements and, for each, with the
/// packages that stand for its name. The alternatives of a requirement are put in order once, and kept.
pub fn solve(alloc: Global, pool: &Pool) -> Result<Answer, AllocError>
    ensures { IfOk result (Solves pool.now) }
{
    let context = Context::of(alloc, pool)?;
    if !context.root_fits() {
        return Ok(Answer::NoPlan);
    }
    let mut members = Members::none(alloc, pool)?;
    let Some(pending) = members.pending(alloc, &context, 0)? else {
        let plan = selection(alloc, &[], None)?;
        return Ok(Answer::Plan(plan));
    };
    let mut begun = Search {
        choices: Vec::new(alloc),
        pending,
        members,
    };
    search(alloc, &context, &mut begun)
}
