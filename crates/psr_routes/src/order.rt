//! The order of packages.

ghost use Rattle.std.specs.Prelude.{◌≡◌, ◌+◌, ◌<◌, ◌^◌, ◌++◌, [], ℕ, length, map, IfOk, OnOk};
ghost use Rattle.psr_routes.specs.PackageOrder.{package_order_of, taken_from};
ghost use Rattle.psr_routes.specs.Numbers.{IsOf};
ghost use Rattle.psr_routes.specs.Waiting.{Waits, remaining};

use crate::needs::Needs;
use crate::queue::Queue;
use crate::types::Placed;
use std::alloc::{AllocError, Global};

/// The places of the packages in the order in which what a package requires comes before it: again and again the package
/// of the least name in byte order among those whose required packages are all taken, and where there is none, which is
/// so where requirements go round in a circle, the one of the least name among all that remain. A package does not wait
/// for itself. Of equal names the earlier place comes first. There are fewer than 2^32 packages. Its one refusal is want
/// of memory.
pub fn package_order(alloc: Global, members: &[Placed]) -> Result<Vec<u32>, AllocError>
    requires { length members.now < 2 ^ 32 }
    ensures exact { IfOk result (λ order. order.items ≡ package_order_of members.now) }
{
    let needs = Needs::of(alloc, members)?;
    let mut queue = Queue::of(alloc, &needs)?;
    let mut order = Vec::with_capacity(alloc, members.len())?;
    for _ in 0..members.len() {
        take_next(alloc, members, &needs, &mut queue, &mut order)?;
    }
    Ok(order)
}

/// Takes the next package, if one remains.
fn take_next(
    alloc: Global,
    members: &[Placed],
    needs: &Needs,
    queue: &mut Queue,
    order: &mut Vec<u32>,
) -> Result<(), AllocError>
    requires few { length members.now < 2 ^ 32 }
    requires of { IsOf members.now needs.now }
    requires waits { Waits needs.now queue.old [] }
    requires unseen { queue.old.unseen.items ≡ [] }
    ensures waits { OnOk result (Waits needs.now queue.new []) }
    ensures unseen { OnOk result (queue.new.unseen.items ≡ []) }
    ensures taken { OnOk result ((count : ℕ) →
        order.new.items ++ map (λ one. one.0) (taken_from count (remaining members.now needs.now queue.new))
        ≡ order.old.items ++ map (λ one. one.0) (taken_from (count + 1) (remaining members.now needs.now queue.old))) }
{
    let Some((number, place)) = queue.next(needs) else {
        return Ok(());
    };
    order.push(place as u32)?;
    queue.remove(alloc, needs, number, place);
    queue.settle(needs)
}
