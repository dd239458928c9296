//! Numbers of calls.

ghost use Rattle.std.specs.Prelude.{◌≡◌, IfOk};
ghost use Rattle.std.specs.Ordering.{nat_cmp};
ghost use Rattle.std.specs.FinSet as set;

use std::alloc::{AllocError, Global};
use std::collections::BTreeSet;
use std::marker::Model;

/// Numbers of calls. A contract sees the finite set.
#[derive(Debug, Drop)]
pub struct CallSet {
    calls: BTreeSet<u64>,
}

impl Model for CallSet {
    ghost use Rattle.std.specs.Ordering.{nat_cmp};
    ghost use Rattle.std.specs.FinSet as set;
    ghost use Rattle.std.specs.Coded.{coded_ℕ};

    ghost Value = { set.FinSet nat_cmp };

    ghost coded = { set.code coded_ℕ };

    ghost view = { λ named. set.from_list named.calls.keys };
}

impl CallSet {
    /// No numbers. Takes no memory.
    pub fn new(alloc: Global) -> CallSet
        ensures { result ≡ set.empty }
    {
        CallSet {
            calls: BTreeSet::new(alloc),
        }
    }

    /// These numbers. Its one refusal is want of memory.
    pub fn of(alloc: Global, calls: &[u64]) -> Result<CallSet, AllocError>
        ensures { IfOk result (λ named. named ≡ set.from_list calls.now) }
    {
        Ok(CallSet {
            calls: calls.iter().copied().collect(alloc)?,
        })
    }

    /// Whether a number is among them.
    pub fn contains(&self, call: u64) -> bool
        ensures { result ≡ set.contains self.now call }
    {
        self.calls.contains(&call)
    }
}
